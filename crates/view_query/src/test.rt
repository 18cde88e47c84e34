//! Which spans pass a test.

ghost use Rattle.std.specs.Prelude.{◌≡◌};
ghost use Rattle.std.specs.List.{list_all};
ghost use Rattle.otlp_read.specs.Values.{any_value_view};
ghost use Rattle.view_query.specs.Matching as spec;
ghost use Rattle.view_query.specs.Terms.{term_view, terms_view, test_view};

use crate::compare::{fits_number, fits_text, has_value, is_number, is_value};
use crate::term::{Order, Term, Test, TextSign};
use otlp_read::AnyValue;
use std::alloc::Allocator;
use trace_store::{ViewSpan, is_error, names_none, service_of};

/// What is asked of the value of an attribute.
#[derive(Clone, Copy)]
pub(crate) enum ValueTest<'a> {
    /// Nothing.
    Any,
    /// It is what this text spells.
    Is(&'a [u8]),
    /// It is a text that contains this one.
    Has(&'a [u8]),
    /// It is a whole number that compares so.
    Number(Order, u64),
}

/// Whether a value is as it is asked for.
fn passes_value<A: Allocator>(test: ValueTest<'_>, value: &AnyValue<A>) -> bool
    ensures { result ≡ spec.value_test test.entry (any_value_view value.now) }
{
    match test {
        ValueTest::Any => true,
        ValueTest::Is(wanted) => is_value(wanted, value),
        ValueTest::Has(wanted) => has_value(wanted, value),
        ValueTest::Number(order, wanted) => is_number(order, wanted, value),
    }
}

/// Whether an attribute has this key, and its value is as it is asked for.
fn is_pair<A: Allocator>(key: &[u8], test: ValueTest<'_>, pair: &(String<A>, AnyValue<A>)) -> bool
    ensures { result ≡ spec.is_pair key.now (spec.value_test test.entry) pair.now }
{
    pair.0.as_bytes() == key && passes_value(test, &pair.1)
}

/// Whether one of some attributes is so.
fn has_pair<A: Allocator>(
    key: &[u8],
    test: ValueTest<'_>,
    pairs: &[(String<A>, AnyValue<A>)],
) -> bool
    ensures { result ≡ spec.has_pair key.now (spec.value_test test.entry) pairs.now }
{
    pairs.iter().any(|pair| is_pair(key, test, pair))
}

/// Whether one of the attributes of a span, of its scope or of its resource is so.
fn has_attribute<A: Allocator>(key: &[u8], test: ValueTest<'_>, span: &ViewSpan<A>) -> bool
    ensures { result ≡ spec.has_attribute key.now (spec.value_test test.entry) span.now }
{
    has_pair(key, test, &span.span.attributes)
        || has_pair(key, test, &span.scope.scope.attributes)
        || has_pair(key, test, &span.resource.resource.attributes)
}

/// Whether the attributes with a key are as a term asks.
fn fits_attribute<A: Allocator>(
    key: &[u8],
    sign: TextSign,
    wanted: &[u8],
    span: &ViewSpan<A>,
) -> bool
    ensures { result ≡ spec.fits_attribute key.now sign wanted.now span.now }
{
    match sign {
        TextSign::Is => has_attribute(key, ValueTest::Is(wanted), span),
        TextSign::IsNot => {
            has_attribute(key, ValueTest::Any, span)
                && !has_attribute(key, ValueTest::Is(wanted), span)
        }
        TextSign::Has => has_attribute(key, ValueTest::Has(wanted), span),
    }
}

/// How long a span took, in nanoseconds: nothing where it ends before it starts.
fn duration_of<A: Allocator>(span: &ViewSpan<A>) -> u64
    ensures { result ≡ spec.duration_of span.now }
{
    span.span
        .end_time_unix_nano
        .saturating_sub(span.span.start_time_unix_nano)
}

/// Whether a span passes a test.
fn passes<A: Allocator>(test: &Test<A>, span: &ViewSpan<A>) -> bool
    ensures { result ≡ spec.passes (test_view test.now) span.now }
{
    match test {
        Test::Error => is_error(&span.span),
        Test::Root => names_none(&span.span),
        Test::Name(sign, wanted) => fits_text(*sign, wanted, span.span.name.as_bytes()),
        Test::Service(sign, wanted) => fits_text(*sign, wanted, service_of(span).as_bytes()),
        Test::Duration(order, wanted) => fits_number(*order, *wanted, duration_of(span)),
        Test::Attribute(key, sign, wanted) => fits_attribute(key, *sign, wanted, span),
        Test::Number(key, order, wanted) => {
            has_attribute(key, ValueTest::Number(*order, *wanted), span)
        }
    }
}

/// Whether a span fulfils a term.
fn holds<A: Allocator>(term: &Term<A>, span: &ViewSpan<A>) -> bool
    ensures { result ≡ spec.holds (term_view term.now) span.now }
{
    let passed = passes(&term.test, span);
    if term.is_negated { !passed } else { passed }
}

/// Whether a span fulfils each of some terms.
fn holds_all<A: Allocator>(terms: &[Term<A>], span: &ViewSpan<A>) -> bool
    ensures { result ≡ list_all (λ t. spec.holds (term_view t) span.now) terms.now }
{
    terms.iter().all(|term| holds(term, span))
}

/// Whether a span fulfils all terms.
pub(crate) fn fits<A: Allocator>(terms: &[Term<A>], span: &ViewSpan<A>) -> bool
    ensures { result ≡ spec.fits (terms_view terms.now) span.now }
{
    holds_all(terms, span)
}
