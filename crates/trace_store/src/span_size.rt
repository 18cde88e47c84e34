//! How many bytes a span takes.

ghost use Rattle.std.specs.Prelude.{◌≡◌, sum, sum_by};
ghost use Rattle.otlp_read.specs.Memory.{at_most_64_bits};
ghost use Rattle.trace_store.specs.Sizes.{event_bytes, link_bytes, pair_bytes};
ghost use Rattle.trace_store.specs.Sizes.{resource_bytes, scope_bytes, span_bytes, texts_bytes};
ghost use Rattle.trace_store.specs.Sizes.{value_bytes};

use crate::SpanSize;
use crate::span::{ViewResource, ViewScope, ViewSpan};
use otlp_read::{AnyValue, Event, Link, Span};
use std::alloc::Allocator;

/// What a value takes besides its text, its bytes or the values in it.
const VALUE: u64 = 48;

/// What a pair takes besides its key and its value.
const PAIR: u64 = 64;

/// What an event takes besides its name and its attributes.
const EVENT: u64 = 128;

/// What a link takes besides its identifiers, its state and its attributes.
const LINK: u64 = 192;

/// What a span takes besides what is counted of it, with its places in lists.
const SPAN: u64 = 768;

/// What a resource takes besides its attributes and its schema URL, and a scope besides its texts
/// and its attributes.
const SHARED: u64 = 256;

/// The sum of sizes, or the largest number of 64 bits.
fn sum_of(sizes: &[u64]) -> u64
    ensures { result ≡ at_most_64_bits (sum sizes.now) }
{
    let mut total = 0u64;
    for size in sizes {
        total = total.saturating_add(*size);
    }
    total
}

/// How many bytes a value takes.
#[cycle(size)]
fn value_size<A: Allocator>(value: &AnyValue<A>) -> u64
    ensures { result ≡ at_most_64_bits (value_bytes value.now) }
{
    match value {
        AnyValue::Empty | AnyValue::Bool(_) | AnyValue::Int(_) | AnyValue::Double(_) => VALUE,
        AnyValue::Text(text) => VALUE.saturating_add(text.len() as u64),
        AnyValue::Array(values) => VALUE.saturating_add(values_size(values)),
        AnyValue::Pairs(pairs) => VALUE.saturating_add(pairs_size(pairs)),
        AnyValue::Bytes(bytes) => VALUE.saturating_add(bytes.len() as u64),
    }
}

/// How many bytes values take.
#[cycle(size)]
fn values_size<A: Allocator>(values: &[AnyValue<A>]) -> u64
    ensures { result ≡ at_most_64_bits (sum_by value_bytes values.now) }
{
    let mut total = 0u64;
    for value in values {
        total = total.saturating_add(value_size(value));
    }
    total
}

/// How many bytes pairs take.
#[cycle(size)]
fn pairs_size<A: Allocator>(pairs: &[(String<A>, AnyValue<A>)]) -> u64
    ensures { result ≡ at_most_64_bits (sum_by pair_bytes pairs.now) }
{
    let mut total = 0u64;
    for (key, value) in pairs {
        total = total.saturating_add(PAIR.saturating_add(key.len() as u64));
        total = total.saturating_add(value_size(value));
    }
    total
}

/// How many bytes an event takes.
fn event_size<A: Allocator>(event: &Event<A>) -> u64
    ensures { result ≡ at_most_64_bits (event_bytes event.now) }
{
    let name = event.name.len() as u64;
    sum_of(&[EVENT, name, pairs_size(&event.attributes)])
}

/// How many bytes a link takes.
fn link_size<A: Allocator>(link: &Link<A>) -> u64
    ensures { result ≡ at_most_64_bits (link_bytes link.now) }
{
    let trace_id = link.trace_id.len() as u64;
    let span_id = link.span_id.len() as u64;
    let state = link.trace_state.len() as u64;
    let attributes = pairs_size(&link.attributes);
    sum_of(&[LINK, trace_id, span_id, state, attributes])
}

/// How many bytes events take.
fn events_size<A: Allocator>(events: &[Event<A>]) -> u64
    ensures { result ≡ at_most_64_bits (sum_by event_bytes events.now) }
{
    let mut total = 0u64;
    for event in events {
        total = total.saturating_add(event_size(event));
    }
    total
}

/// How many bytes links take.
fn links_size<A: Allocator>(links: &[Link<A>]) -> u64
    ensures { result ≡ at_most_64_bits (sum_by link_bytes links.now) }
{
    let mut total = 0u64;
    for link in links {
        total = total.saturating_add(link_size(link));
    }
    total
}

/// How many bytes the identifiers and the texts of a span take.
fn texts_size<A: Allocator>(span: &Span<A>) -> u64
    ensures { result ≡ at_most_64_bits (texts_bytes span.now) }
{
    let trace_id = span.trace_id.len() as u64;
    let span_id = span.span_id.len() as u64;
    let state = span.trace_state.len() as u64;
    let parent = span.parent_span_id.len() as u64;
    let name = span.name.len() as u64;
    let message = span.status.message.len() as u64;
    sum_of(&[trace_id, span_id, state, parent, name, message])
}

/// How many bytes a span takes.
fn span_size<A: Allocator>(span: &Span<A>) -> u64
    ensures { result ≡ at_most_64_bits (span_bytes span.now) }
{
    let texts = texts_size(span);
    let attributes = pairs_size(&span.attributes);
    let events = events_size(&span.events);
    let links = links_size(&span.links);
    sum_of(&[SPAN, texts, attributes, events, links])
}

/// How many bytes a resource takes.
pub(crate) fn resource_size<A: Allocator>(resource: &ViewResource<A>) -> u64
    ensures { result ≡ at_most_64_bits (resource_bytes resource.now) }
{
    let url = resource.schema_url.len() as u64;
    let attributes = pairs_size(&resource.resource.attributes);
    sum_of(&[SHARED, url, attributes])
}

/// How many bytes a scope takes.
pub(crate) fn scope_size<A: Allocator>(scope: &ViewScope<A>) -> u64
    ensures { result ≡ at_most_64_bits (scope_bytes scope.now) }
{
    let name = scope.scope.name.len() as u64;
    let version = scope.scope.version.len() as u64;
    let url = scope.schema_url.len() as u64;
    let attributes = pairs_size(&scope.scope.attributes);
    sum_of(&[SHARED, name, version, url, attributes])
}

/// A span takes 768 bytes, which count itself and its places in lists, and the bytes of its
/// identifiers, texts, attributes, events and links: 64 and 48 for each pair and each value, 128
/// for an event and 192 for a link; and what is counted with it of its resource and its scope. It
/// is 2^64 - 1 where it would be more. (profile)
impl<A: Allocator> SpanSize for ViewSpan<A> {
    ghost use Rattle.std.specs.Prelude.{◌+◌};
    ghost use Rattle.otlp_read.specs.Memory.{at_most_64_bits};
    ghost use Rattle.trace_store.specs.Sizes.{span_bytes};

    ghost size_of = { λ kept. at_most_64_bits (span_bytes kept.span + kept.shared) };

    fn size(&self) -> u64 {
        span_size(&self.span).saturating_add(self.shared)
    }
}
