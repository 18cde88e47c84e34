//! How many bytes of memory the reading of a request takes, read off its bytes.

ghost use Rattle.std.specs.Prelude.{◌≡◌};
ghost use Rattle.otlp_wire.specs.Fields.{field_of};
ghost use Rattle.otlp_read.specs.Memory as spec;
ghost use Rattle.otlp_read.specs.Memory.{at_most_64_bits};

use otlp_wire::{Field, Fields, Payload};

/// How deep the messages of a request nest at most: values nest 64 levels deep. (profile)
const DEPTH: u32 = 200;

/// A message of a request (opentelemetry-proto, trace_service.proto, trace.proto, resource.proto,
/// common.proto).
#[derive(Debug, Clone, Copy, PartialEq, Eq)]
pub(crate) enum Kind {
    /// ExportTraceServiceRequest.
    Request,
    /// ResourceSpans.
    ResourceSpans,
    /// Resource.
    Resource,
    /// ScopeSpans.
    ScopeSpans,
    /// InstrumentationScope.
    Scope,
    /// Span.
    Span,
    /// Span.Event.
    Event,
    /// Span.Link.
    Link,
    /// Status.
    Status,
    /// KeyValue.
    Pair,
    /// AnyValue.
    Value,
    /// ArrayValue.
    Values,
    /// KeyValueList.
    Pairs,
}

/// What is kept of a field of a message.
#[derive(Debug, Clone, Copy, PartialEq, Eq)]
pub(crate) enum Content {
    /// Nothing that has a size of its own.
    Nothing,
    /// A text or bytes.
    Bytes,
    /// A message, which takes this many bytes besides what is kept of its fields.
    Message(u64, Kind),
}

/// What is kept of a field of this number in a message of this kind.
fn content_of(kind: Kind, number: u32) -> Content
    ensures { result ≡ spec.content_of kind number }
{
    match kind {
        Kind::Request => in_request(number),
        Kind::ResourceSpans => in_resource_spans(number),
        Kind::Resource => in_resource(number),
        Kind::ScopeSpans => in_scope_spans(number),
        Kind::Scope => in_scope(number),
        Kind::Span => in_span(number),
        Kind::Event => in_event(number),
        Kind::Link => in_link(number),
        Kind::Status => in_status(number),
        Kind::Pair => in_pair(number),
        Kind::Value => in_value(number),
        Kind::Values => in_values(number),
        Kind::Pairs => in_pairs(number),
    }
}

/// What is kept of a field of this number (trace_service.proto: ExportTraceServiceRequest).
fn in_request(number: u32) -> Content
    ensures { result ≡ spec.content_of Kind.Request number }
{
    match number {
        1 => Content::Message(256, Kind::ResourceSpans),
        _ => Content::Nothing,
    }
}

/// What is kept of a field of this number (trace.proto: ResourceSpans).
fn in_resource_spans(number: u32) -> Content
    ensures { result ≡ spec.content_of Kind.ResourceSpans number }
{
    match number {
        1 => Content::Message(0, Kind::Resource),
        2 => Content::Message(256, Kind::ScopeSpans),
        3 => Content::Bytes,
        _ => Content::Nothing,
    }
}

/// What is kept of a field of this number (resource.proto: Resource).
fn in_resource(number: u32) -> Content
    ensures { result ≡ spec.content_of Kind.Resource number }
{
    match number {
        1 => Content::Message(112, Kind::Pair),
        _ => Content::Nothing,
    }
}

/// What is kept of a field of this number (trace.proto: ScopeSpans).
fn in_scope_spans(number: u32) -> Content
    ensures { result ≡ spec.content_of Kind.ScopeSpans number }
{
    match number {
        1 => Content::Message(0, Kind::Scope),
        2 => Content::Message(768, Kind::Span),
        3 => Content::Bytes,
        _ => Content::Nothing,
    }
}

/// What is kept of a field of this number (common.proto: InstrumentationScope).
fn in_scope(number: u32) -> Content
    ensures { result ≡ spec.content_of Kind.Scope number }
{
    match number {
        1 | 2 => Content::Bytes,
        3 => Content::Message(112, Kind::Pair),
        _ => Content::Nothing,
    }
}

/// What is kept of a field of this number (trace.proto: Span).
fn in_span(number: u32) -> Content
    ensures { result ≡ spec.content_of Kind.Span number }
{
    match number {
        1 | 2 | 3 | 4 | 5 => Content::Bytes,
        9 => Content::Message(112, Kind::Pair),
        11 => Content::Message(128, Kind::Event),
        13 => Content::Message(192, Kind::Link),
        15 => Content::Message(0, Kind::Status),
        _ => Content::Nothing,
    }
}

/// What is kept of a field of this number (trace.proto: Span.Event).
fn in_event(number: u32) -> Content
    ensures { result ≡ spec.content_of Kind.Event number }
{
    match number {
        2 => Content::Bytes,
        3 => Content::Message(112, Kind::Pair),
        _ => Content::Nothing,
    }
}

/// What is kept of a field of this number (trace.proto: Span.Link).
fn in_link(number: u32) -> Content
    ensures { result ≡ spec.content_of Kind.Link number }
{
    match number {
        1 | 2 | 3 => Content::Bytes,
        4 => Content::Message(112, Kind::Pair),
        _ => Content::Nothing,
    }
}

/// What is kept of a field of this number (trace.proto: Status).
fn in_status(number: u32) -> Content
    ensures { result ≡ spec.content_of Kind.Status number }
{
    match number {
        2 => Content::Bytes,
        _ => Content::Nothing,
    }
}

/// What is kept of a field of this number (common.proto: KeyValue).
fn in_pair(number: u32) -> Content
    ensures { result ≡ spec.content_of Kind.Pair number }
{
    match number {
        1 => Content::Bytes,
        2 => Content::Message(0, Kind::Value),
        _ => Content::Nothing,
    }
}

/// What is kept of a field of this number (common.proto: AnyValue).
fn in_value(number: u32) -> Content
    ensures { result ≡ spec.content_of Kind.Value number }
{
    match number {
        1 | 7 => Content::Bytes,
        5 => Content::Message(48, Kind::Values),
        6 => Content::Message(48, Kind::Pairs),
        _ => Content::Nothing,
    }
}

/// What is kept of a field of this number (common.proto: ArrayValue).
fn in_values(number: u32) -> Content
    ensures { result ≡ spec.content_of Kind.Values number }
{
    match number {
        1 => Content::Message(48, Kind::Value),
        _ => Content::Nothing,
    }
}

/// What is kept of a field of this number (common.proto: KeyValueList).
fn in_pairs(number: u32) -> Content
    ensures { result ≡ spec.content_of Kind.Pairs number }
{
    match number {
        1 => Content::Message(112, Kind::Pair),
        _ => Content::Nothing,
    }
}

/// How many bytes a field of a message of this kind takes, where the messages in it nest this many
/// levels deep at most.
#[cycle(memory)]
fn field_size(kind: Kind, depth: u32, field: Field<'_>) -> u64
    ensures { result ≡ at_most_64_bits
        (spec.field_size (spec.message_size depth) kind (field_of field.entry)) }
{
    let Payload::Len(bytes) = field.payload else {
        return 0;
    };
    match content_of(kind, field.number) {
        Content::Nothing => 0,
        Content::Bytes => bytes.len() as u64,
        Content::Message(own, kind) => own.saturating_add(message_size(kind, depth, bytes)),
    }
}

/// How many bytes the fields of a message of this kind take, where messages nest this many levels
/// deep at most.
#[cycle(memory)]
fn message_size(kind: Kind, depth: u32, bytes: &[u8]) -> u64
    ensures { result ≡ at_most_64_bits (spec.message_size depth kind bytes.now) }
{
    if depth == 0 {
        return 0;
    }
    let mut total = 0u64;
    for field in Fields::new(bytes) {
        let Ok(field) = field else {
            return total;
        };
        total = total.saturating_add(field_size(kind, depth - 1, field));
    }
    total
}

/// How many bytes of memory the reading of a request is counted to take, by the sizes of what is
/// kept of it: 768 for each span, 128 for each event, 192 for each link, 112 for each pair of a key
/// and a value, 48 for each value in a list and for each list, 256 for each resource and each
/// scope, and the bytes of texts, identifiers and other bytes; 2^64 - 1 where that is more. What a
/// body says twice is counted twice, and what an unknown field says isn't counted. Of bytes that
/// aren't a request it counts what comes before a fault. (profile)
///
/// It goes over the bytes once, takes time in proportion to their number, and takes no memory. So a
/// request that takes too much can be refused before any of it is made.
pub fn request_size(body: &[u8]) -> u64
    ensures { result ≡ at_most_64_bits (spec.request_size body.now) }
{
    message_size(Kind::Request, DEPTH, body)
}
