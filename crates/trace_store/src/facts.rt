//! What is said of a span: its service, whether it is an error, and when it ended.

ghost use Rattle.std.specs.Prelude.{◌≡◌, option_copied};
ghost use Rattle.otlp_read.specs.Values.{any_value_view};
ghost use Rattle.trace_store.specs.Facts as spec;

use crate::span::ViewSpan;
use otlp_read::{AnyValue, Span};
use std::alloc::Allocator;

/// The text of a value, if it is one.
fn text_in<A: Allocator>(value: &AnyValue<A>) -> Option<&str>
    ensures { option_copied result ≡ spec.text_in (any_value_view value.now) }
{
    match value {
        AnyValue::Text(text) => Some(text),
        _ => None,
    }
}

/// The name of the service, if this attribute says it.
fn service_value<A: Allocator>(pair: &(String<A>, AnyValue<A>)) -> Option<&str>
    ensures { option_copied result ≡ spec.service_value pair.now }
{
    let (key, value) = pair;
    if key.as_str() == "service.name" {
        text_in(value)
    } else {
        None
    }
}

/// The name of the service that the first attribute says.
#[tactic(auto, unfolding(crate::specs::Facts::service_in))]
fn service_in<A: Allocator>(attributes: &[(String<A>, AnyValue<A>)]) -> &str
    ensures { result.now ≡ spec.service_in attributes.now }
{
    for pair in attributes {
        match service_value(pair) {
            Some(name) => return name,
            None => {}
        }
    }
    "unknown_service"
}

/// The service that made a span, by the attribute `service.name` of its resource; where that has
/// none, `unknown_service` (OpenTelemetry semantic conventions, "Service").
pub fn service_of<A: Allocator>(span: &ViewSpan<A>) -> &str
    ensures { result.now ≡ spec.service_of span.now }
{
    service_in(&span.resource.resource.attributes)
}

/// Whether the status of a span is an error (opentelemetry-proto, trace.proto: Status).
pub fn is_error<A: Allocator>(span: &Span<A>) -> bool
    ensures { result ≡ spec.is_error span.now }
{
    span.status.code == 2
}

/// The end of a span in nanoseconds since 1970, or its start where that is later.
pub fn end_of<A: Allocator>(span: &Span<A>) -> u64
    ensures { result ≡ spec.end_of span.now }
{
    span.start_time_unix_nano.max(span.end_time_unix_nano)
}

/// Whether a span names no parent.
pub fn names_none<A: Allocator>(span: &Span<A>) -> bool
    ensures { result ≡ spec.names_none span.now }
{
    span.parent_span_id.is_empty()
}
