//! Which traces are in the list.

ghost use Rattle.std.specs.Prelude.{◌≡◌, [], IfErr, IfNone, IfOk, IfSome, OnOk, codes};
ghost use Rattle.std.specs.Prelude.{if◌then◌else◌, length, nat_lt, string_bytes};
ghost use Rattle.std.specs.Str.{bytes_eq};
ghost use Rattle.trace_lines.specs.Lists.{has_errors, has_name, has_service, has_some, is_long};
ghost use Rattle.trace_lines.specs.Lists.{is_service, matches};
ghost use Rattle.trace_lines.specs.Queries as spec;
ghost use Rattle.trace_lines.specs.declared.filter.FilterFault.TheVariants as faults;

use crate::summary::Summary;
use form_urlencoded::parse;
use otlp_ids::OutOfMemory;
use std::alloc::{Allocator, Global};
use std::collections::LinkedList;
use std::sync::Arc;
use thiserror::Error;
use trace_store::{ViewSpan, service_of};

/// Which traces are in the list: those that pass each test, and that the search finds.
#[derive(Drop)]
pub struct Filter<A: Allocator = Global> {
    /// What is searched for, as `view_query::Query` reads it; anything where it is empty.
    pub search: String<A>,
    /// The trace after which the list begins, by 32 hexadecimal digits; the list begins with the
    /// newest trace where it is empty.
    pub after: String<A>,
    /// A service that made a span of the trace; any where it is empty.
    pub service: String<A>,
    /// What the root's name begins with.
    pub name: String<A>,
    /// The least duration, in whole milliseconds.
    pub least_ms: u64,
    /// Whether only traces with an error are in the list.
    pub errors_only: bool,
}

/// Why a filter can't be read.
#[derive(Debug, Clone, Copy, PartialEq, Eq, Error)]
pub enum FilterFault {
    /// Memory was refused.
    #[error("out of memory; ask again later, or keep fewer spans")]
    OutOfMemory,
    /// The least duration is no number of milliseconds.
    #[error("`least` is no whole number of milliseconds; write digits alone, as in ?least=250")]
    Least,
}

impl From<OutOfMemory> for FilterFault {
    fn from(_: OutOfMemory) -> FilterFault {
        FilterFault::OutOfMemory
    }
}

/// The least duration that a text says: none where it is empty.
fn least_of(text: &str) -> Option<u64>
    ensures said { IfSome result (λ least. spec.IsLeast text.now
        × (least ≡ spec.least_of text.now)) }
    ensures unsaid { IfNone result (¬ (spec.IsLeast text.now)) }
{
    if text.is_empty() {
        return Some(0);
    }
    text.parse::<u64>().ok()
}

/// An own copy of a text.
fn copy<A: Allocator>(alloc: A, text: &str) -> Result<String<A>, FilterFault>
    ensures copied { IfOk result (λ copied. string_bytes copied ≡ text.now) }
    ensures refused { IfErr result (λ fault. fault ≡ faults.OutOfMemory) }
{
    match String::from_str(alloc, text) {
        Ok(copied) => Ok(copied),
        Err(_) => Err(FilterFault::OutOfMemory),
    }
}

impl<A: Allocator + Copy> Filter<A> {
    /// The filter that any trace passes.
    pub fn new(alloc: A) -> Filter<A>
        ensures { spec.AsksFor [] result }
    {
        Filter {
            search: String::new(alloc),
            after: String::new(alloc),
            service: String::new(alloc),
            name: String::new(alloc),
            least_ms: 0,
            errors_only: false,
        }
    }

    /// Reads the query of the list, which a form writes (URL Standard, 5): `q`, which is what is
    /// searched for, `after`, `service`, `name`, `least` in milliseconds, and `errors`, which is on
    /// where it has any value. The last one of a name counts, and other names are ignored.
    ///
    /// # Errors
    ///
    /// `Least` where a `least`, the last one or another, is neither empty nor a whole number below
    /// 2^64, and `OutOfMemory`.
    #[tactic(auto, using(crate::proofs::Queries::pair_first))]
    pub fn parse(alloc: A, query: &str) -> Result<Filter<A>, FilterFault>
        ensures asks { IfOk result (λ filter. spec.AsksFor (spec.pairs_of query.now) filter) }
        ensures right { IfOk result (λ _. spec.IsRightQuery query.now) }
        ensures wrong { IfErr result (λ fault. fault ≡ faults.Least
            → ¬ (spec.IsRightQuery query.now)) }
    {
        let mut filter = Filter::new(alloc);
        for pair in parse(alloc, query.as_bytes()) {
            let Ok((name, value)) = pair else {
                return Err(FilterFault::OutOfMemory);
            };
            filter.set(alloc, name.as_str(), value.as_str())?;
        }
        Ok(filter)
    }

    /// Sets what a pair of the query says.
    fn set(&mut self, alloc: A, name: &str, value: &str) -> Result<(), FilterFault>
        ensures search { OnOk result (string_bytes self.new.search
            ≡ spec.latest (codes "q") (string_bytes self.old.search) (name.now, value.now)) }
        ensures after { OnOk result (string_bytes self.new.after
            ≡ spec.latest (codes "after") (string_bytes self.old.after) (name.now, value.now)) }
        ensures service { OnOk result (string_bytes self.new.service
            ≡ spec.latest (codes "service") (string_bytes self.old.service) (name.now, value.now)) }
        ensures name { OnOk result (string_bytes self.new.name
            ≡ spec.latest (codes "name") (string_bytes self.old.name) (name.now, value.now)) }
        ensures least { OnOk result (self.new.least_ms
            ≡ (if bytes_eq name.now (codes "least") then spec.least_of value.now
            else self.old.least_ms)) }
        ensures errors { OnOk result (self.new.errors_only
            ≡ (if bytes_eq name.now (codes "errors") then nat_lt 0 (length value.now)
            else self.old.errors_only)) }
        ensures right { OnOk result (spec.IsRightPair (name.now, value.now)) }
        ensures wrong { IfErr result (λ fault. fault ≡ faults.Least
            → ¬ (spec.IsRightPair (name.now, value.now))) }
    {
        match name {
            "q" => self.search = copy(alloc, value)?,
            "after" => self.after = copy(alloc, value)?,
            "service" => self.service = copy(alloc, value)?,
            "name" => self.name = copy(alloc, value)?,
            "least" => {
                let Some(least) = least_of(value) else {
                    return Err(FilterFault::Least);
                };
                self.least_ms = least;
            }
            "errors" => self.errors_only = !value.is_empty(),
            _ => {}
        }
        Ok(())
    }
}

impl<A: Allocator> Filter<A> {
    /// Whether the service that is asked for made a span.
    fn is_service(&self, span: &ViewSpan<A>) -> bool
        ensures { result ≡ is_service self.now span.now }
    {
        service_of(span) == self.service.as_str()
    }

    /// Whether the service that is asked for made one of these spans.
    fn has_some(&self, spans: &LinkedList<Arc<ViewSpan<A>, A>, A>) -> bool
        ensures { result ≡ has_some self.now spans.now }
    {
        for span in spans.iter() {
            if self.is_service(span) {
                return true;
            }
        }
        false
    }

    /// Whether the service that is asked for made one of the spans of a trace. It did where none is
    /// asked for.
    pub fn has_service(&self, spans: &LinkedList<Arc<ViewSpan<A>, A>, A>) -> bool
        ensures { result ≡ has_service self.now spans.now }
    {
        self.service.is_empty() || self.has_some(spans)
    }

    /// Whether the root's name begins as is wanted.
    fn has_name(&self, summary: &Summary) -> bool
        ensures { result ≡ has_name self.now summary.now }
    {
        summary.name.as_bytes().starts_with(self.name.as_bytes())
    }

    /// Whether a trace took long enough.
    fn is_long(&self, summary: &Summary) -> bool
        ensures { result ≡ is_long self.now summary.now }
    {
        self.least_ms <= summary.duration_nanos() / 1_000_000
    }

    /// Whether a trace has an error, if that is wanted.
    fn has_errors(&self, summary: &Summary) -> bool
        ensures { result ≡ has_errors self.now summary.now }
    {
        !self.errors_only || summary.error_count > 0
    }

    /// Whether what is said of a trace passes each test but that of its services, which
    /// `has_service` makes.
    pub fn matches(&self, summary: &Summary) -> bool
        ensures { result ≡ matches self.now summary.now }
    {
        self.has_name(summary) && self.is_long(summary) && self.has_errors(summary)
    }
}
