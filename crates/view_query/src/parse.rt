//! The terms that words are.

ghost use Rattle.std.specs.Prelude.{◌≡◌, ◌<◌, Err, IfErr, IfOk, Ok, length};
ghost use Rattle.std.specs.Str.{bytes_eq};
ghost use Rattle.view_query.specs.Numbers.{nanos_of, number_of};
ghost use Rattle.view_query.specs.Reading as spec;
ghost use Rattle.view_query.specs.Reading.{IsTermFault};
ghost use Rattle.view_query.specs.Terms.{term_view, test_view};

use crate::fault::{TermFault, Why};
use crate::lex::{Class, run_length};
use crate::number::{nanos_of, number_of};
use crate::term::{Order, Sign, Term, Test, TextSign};
use std::alloc::Allocator;

/// Whether bytes are those of a word.
fn is_word(bytes: &[u8], word: &str) -> bool
    ensures { result ≡ bytes_eq bytes.now word.now }
{
    bytes == word.as_bytes()
}

/// A value without quotes.
fn plain(text: &[u8]) -> Result<&[u8], Why>
    ensures ok { IfOk result (λ value. spec.plain text.now ≡ Ok value.now) }
    ensures err { IfErr result (λ why. spec.plain text.now ≡ Err why) }
{
    if run_length(Class::Unquoted, text) == text.len() {
        Ok(text)
    } else {
        Err(Why::Quote)
    }
}

/// What comes before the quote that closes a value, which is its last byte.
fn closed(text: &[u8]) -> Result<&[u8], Why>
    ensures ok { IfOk result (λ value. spec.closed text.now ≡ Ok value.now) }
    ensures err { IfErr result (λ why. spec.closed text.now ≡ Err why) }
{
    let length = run_length(Class::Unquoted, text);
    if length == text.len() {
        return Err(Why::Open);
    }
    if length + 1 == text.len() {
        return Ok(&text[..length]);
    }
    Err(Why::Quote)
}

/// Whether a text begins with a quote.
fn opens(text: &[u8]) -> bool
    ensures { result ≡ spec.opens text.now }
{
    match text.first() {
        Some(byte) => *byte == b'"',
        None => false,
    }
}

/// The value that a text is: one in quotes, or a word without any.
fn value_of(text: &[u8]) -> Result<&[u8], Why>
    ensures ok { IfOk result (λ value. spec.value_of text.now ≡ Ok value.now) }
    ensures err { IfErr result (λ why. spec.value_of text.now ≡ Err why) }
{
    if opens(text) {
        closed(&text[1..])
    } else {
        plain(text)
    }
}

/// The sign that a text begins with, and how many bytes it has.
#[tactic(auto, unfolding(crate::specs::Reading::sign_of))]
fn sign_of(text: &[u8]) -> Option<(Sign, usize)>
    ensures { result ≡ spec.sign_of text.now }
{
    if text.starts_with(b">=") {
        return Some((Sign::Order(Order::AtLeast), 2));
    }
    if text.starts_with(b"<=") {
        return Some((Sign::Order(Order::AtMost), 2));
    }
    if text.starts_with(b"!=") {
        return Some((Sign::Text(TextSign::IsNot), 2));
    }
    if text.starts_with(b"=") {
        return Some((Sign::Text(TextSign::Is), 1));
    }
    if text.starts_with(b":") {
        return Some((Sign::Text(TextSign::Has), 1));
    }
    if text.starts_with(b">") {
        return Some((Sign::Order(Order::Above), 1));
    }
    if text.starts_with(b"<") {
        return Some((Sign::Order(Order::Below), 1));
    }
    None
}

/// An own copy of bytes.
fn copy<A: Allocator>(alloc: A, bytes: &[u8]) -> Result<Vec<u8, A>, TermFault>
    ensures copied { IfOk result (λ copied. copied.items ≡ bytes.now) }
    ensures refused { IfErr result (λ fault. fault ≡ TermFault.OutOfMemory) }
{
    let mut copied = Vec::new(alloc);
    match copied.extend_from_slice(bytes) {
        Ok(()) => Ok(copied),
        Err(_) => Err(TermFault::OutOfMemory),
    }
}

/// A test of a field by a text.
#[tactic(auto, unfolding(crate::specs::Reading::text_test))]
fn text_test<A: Allocator + Copy>(
    alloc: A,
    key: &[u8],
    sign: TextSign,
    value: &[u8],
) -> Result<Test<A>, TermFault>
    ensures ok { IfOk result (λ test. spec.text_test key.now sign value.now ≡ Ok (test_view test)) }
    ensures err { IfErr result (λ fault. IsTermFault (spec.text_test key.now sign value.now) fault) }
{
    if key.is_empty() {
        return Err(TermFault::Wrong(Why::Word));
    }
    if is_word(key, "service") {
        return Ok(Test::Service(sign, copy(alloc, value)?));
    }
    if is_word(key, "name") {
        return Ok(Test::Name(sign, copy(alloc, value)?));
    }
    if is_word(key, "duration") {
        return Err(TermFault::Wrong(Why::Sign));
    }
    Ok(Test::Attribute(copy(alloc, key)?, sign, copy(alloc, value)?))
}

/// A test of the duration.
fn duration_test<A: Allocator>(order: Order, value: &[u8]) -> Result<Test<A>, TermFault>
    ensures ok { IfOk result (λ test.
        spec.duration_test order (nanos_of value.now) ≡ Ok (test_view test)) }
    ensures err { IfErr result (λ fault.
        IsTermFault (spec.duration_test order (nanos_of value.now)) fault) }
{
    match nanos_of(value) {
        Some(nanos) => Ok(Test::Duration(order, nanos)),
        None => Err(TermFault::Wrong(Why::Duration)),
    }
}

/// A test of the number of an attribute.
fn number_test<A: Allocator>(
    alloc: A,
    key: &[u8],
    order: Order,
    value: &[u8],
) -> Result<Test<A>, TermFault>
    ensures ok { IfOk result (λ test.
        spec.number_test key.now order (number_of value.now) ≡ Ok (test_view test)) }
    ensures err { IfErr result (λ fault.
        IsTermFault (spec.number_test key.now order (number_of value.now)) fault) }
{
    match number_of(value) {
        Some(number) => Ok(Test::Number(copy(alloc, key)?, order, number)),
        None => Err(TermFault::Wrong(Why::Number)),
    }
}

/// A test of a field by a number.
#[tactic(auto, unfolding(crate::specs::Reading::order_test))]
fn order_test<A: Allocator>(
    alloc: A,
    key: &[u8],
    order: Order,
    value: &[u8],
) -> Result<Test<A>, TermFault>
    ensures ok { IfOk result (λ test.
        spec.order_test key.now order value.now ≡ Ok (test_view test)) }
    ensures err { IfErr result (λ fault.
        IsTermFault (spec.order_test key.now order value.now) fault) }
{
    if key.is_empty() {
        return Err(TermFault::Wrong(Why::Word));
    }
    if is_word(key, "service") || is_word(key, "name") {
        return Err(TermFault::Wrong(Why::Sign));
    }
    if is_word(key, "duration") {
        return duration_test(order, value);
    }
    number_test(alloc, key, order, value)
}

/// A test of a field by a value.
fn test_by<A: Allocator + Copy>(
    alloc: A,
    key: &[u8],
    sign: Sign,
    text: &[u8],
) -> Result<Test<A>, TermFault>
    ensures ok { IfOk result (λ test.
        spec.test_by key.now sign (spec.value_of text.now) ≡ Ok (test_view test)) }
    ensures err { IfErr result (λ fault.
        IsTermFault (spec.test_by key.now sign (spec.value_of text.now)) fault) }
{
    let value = match value_of(text) {
        Ok(value) => value,
        Err(why) => return Err(TermFault::Wrong(why)),
    };
    match sign {
        Sign::Text(sign) => text_test(alloc, key, sign, value),
        Sign::Order(order) => order_test(alloc, key, order, value),
    }
}

/// A test by a key, and what comes after it.
fn test_after<A: Allocator + Copy>(alloc: A, key: &[u8], rest: &[u8]) -> Result<Test<A>, TermFault>
    ensures ok { IfOk result (λ test.
        spec.test_after key.now rest.now (spec.sign_of rest.now) ≡ Ok (test_view test)) }
    ensures err { IfErr result (λ fault.
        IsTermFault (spec.test_after key.now rest.now (spec.sign_of rest.now)) fault) }
{
    match sign_of(rest) {
        Some((sign, length)) => test_by(alloc, key, sign, rest.get(length..).unwrap_or(b"")),
        None => Err(TermFault::Wrong(Why::Word)),
    }
}

/// A test by a word alone.
#[tactic(auto, unfolding(crate::specs::Reading::word_test))]
fn word_test<A: Allocator>(alloc: A, word: &[u8]) -> Result<Test<A>, TermFault>
    ensures ok { IfOk result (λ test. test_view test ≡ spec.word_test word.now) }
    ensures refused { IfErr result (λ fault. fault ≡ TermFault.OutOfMemory) }
{
    if is_word(word, "error") {
        return Ok(Test::Error);
    }
    if is_word(word, "root") {
        return Ok(Test::Root);
    }
    Ok(Test::Name(TextSign::Has, copy(alloc, word)?))
}

/// A test of the name by a text in quotes.
fn name_test<A: Allocator>(alloc: A, word: &[u8]) -> Result<Test<A>, TermFault>
    ensures ok { IfOk result (λ test.
        spec.name_test (spec.value_of word.now) ≡ Ok (test_view test)) }
    ensures err { IfErr result (λ fault.
        IsTermFault (spec.name_test (spec.value_of word.now)) fault) }
{
    match value_of(word) {
        Ok(text) => Ok(Test::Name(TextSign::Has, copy(alloc, text)?)),
        Err(why) => Err(TermFault::Wrong(why)),
    }
}

/// What a word asks of a span.
fn test_of<A: Allocator + Copy>(alloc: A, word: &[u8]) -> Result<Test<A>, TermFault>
    ensures ok { IfOk result (λ test. spec.test_of word.now ≡ Ok (test_view test)) }
    ensures err { IfErr result (λ fault. IsTermFault (spec.test_of word.now) fault) }
{
    if word.is_empty() {
        return Err(TermFault::Wrong(Why::Word));
    }
    if opens(word) {
        return name_test(alloc, word);
    }
    let length = run_length(Class::Key, word);
    if length == word.len() {
        return word_test(alloc, word);
    }
    let (key, rest) = word.split_at(length);
    test_after(alloc, key, rest)
}

/// The term that a word is.
pub(crate) fn term_of<A: Allocator + Copy>(alloc: A, word: &[u8]) -> Result<Term<A>, TermFault>
    ensures ok { IfOk result (λ term. spec.term_of word.now ≡ Ok (term_view term)) }
    ensures err { IfErr result (λ fault. IsTermFault (spec.term_of word.now) fault) }
{
    if word.starts_with(b"-") {
        return Ok(Term {
            is_negated: true,
            test: test_of(alloc, &word[1..])?,
        });
    }
    Ok(Term {
        is_negated: false,
        test: test_of(alloc, word)?,
    })
}
