//! The names of members, and the fields that they are.

ghost use Rattle.std.specs.Prelude.{◌≡◌};
ghost use Rattle.otlp_json.specs.Names as spec;

/// A message of a trace export (opentelemetry-proto).
#[derive(Clone, Copy)]
pub(crate) enum Message {
    Request,
    ResourceSpans,
    Resource,
    ScopeSpans,
    Scope,
    Span,
    Event,
    Link,
    Status,
    KeyValue,
    AnyValue,
    ArrayValue,
    KeyValueList,
}

/// What a field holds that is no message.
#[derive(Clone, Copy)]
pub(crate) enum Leaf {
    Text,
    /// An identifier of a trace or a span.
    Id,
    Bytes,
    Bool,
    Uint32,
    Fixed32,
    Enum,
    Int64,
    Fixed64,
    Double,
}

/// What a field holds.
#[derive(Clone, Copy)]
pub(crate) enum Kind {
    One(Leaf),
    Nested(Message),
    Each(Message),
}

/// A member of an object: the number of its field, and what that holds.
#[derive(Clone, Copy)]
pub(crate) struct Member {
    pub(crate) number: u8,
    pub(crate) kind: Kind,
}

fn one(number: u8, leaf: Leaf) -> Option<Member>
    ensures { result ≡ spec.one number leaf }
{
    Some(Member {
        number,
        kind: Kind::One(leaf),
    })
}

fn nested(number: u8, message: Message) -> Option<Member>
    ensures { result ≡ spec.nested number message }
{
    Some(Member {
        number,
        kind: Kind::Nested(message),
    })
}

fn each(number: u8, message: Message) -> Option<Member>
    ensures { result ≡ spec.each number message }
{
    Some(Member {
        number,
        kind: Kind::Each(message),
    })
}

/// (trace_service.proto: ExportTraceServiceRequest)
#[tactic(auto, unfolding(crate::specs::Names::request_member))]
fn request_member(name: &str) -> Option<Member>
    ensures { result ≡ spec.request_member name.now }
{
    match name {
        "resourceSpans" => each(1, Message::ResourceSpans),
        _ => None,
    }
}

/// (trace.proto: ResourceSpans)
#[tactic(auto, unfolding(crate::specs::Names::resource_spans_member))]
fn resource_spans_member(name: &str) -> Option<Member>
    ensures { result ≡ spec.resource_spans_member name.now }
{
    match name {
        "resource" => nested(1, Message::Resource),
        "scopeSpans" => each(2, Message::ScopeSpans),
        "schemaUrl" => one(3, Leaf::Text),
        _ => None,
    }
}

/// (resource.proto: Resource)
#[tactic(auto, unfolding(crate::specs::Names::resource_member))]
fn resource_member(name: &str) -> Option<Member>
    ensures { result ≡ spec.resource_member name.now }
{
    match name {
        "attributes" => each(1, Message::KeyValue),
        "droppedAttributesCount" => one(2, Leaf::Uint32),
        _ => None,
    }
}

/// (trace.proto: ScopeSpans)
#[tactic(auto, unfolding(crate::specs::Names::scope_spans_member))]
fn scope_spans_member(name: &str) -> Option<Member>
    ensures { result ≡ spec.scope_spans_member name.now }
{
    match name {
        "scope" => nested(1, Message::Scope),
        "spans" => each(2, Message::Span),
        "schemaUrl" => one(3, Leaf::Text),
        _ => None,
    }
}

/// (common.proto: InstrumentationScope)
#[tactic(auto, unfolding(crate::specs::Names::scope_member))]
fn scope_member(name: &str) -> Option<Member>
    ensures { result ≡ spec.scope_member name.now }
{
    match name {
        "name" => one(1, Leaf::Text),
        "version" => one(2, Leaf::Text),
        "attributes" => each(3, Message::KeyValue),
        "droppedAttributesCount" => one(4, Leaf::Uint32),
        _ => None,
    }
}

/// The first fields of a span, which say what it is (trace.proto: Span).
#[tactic(auto, unfolding(crate::specs::Names::span_member))]
fn span_member(name: &str) -> Option<Member>
    ensures { result ≡ spec.span_member name.now }
{
    match name {
        "traceId" => one(1, Leaf::Id),
        "spanId" => one(2, Leaf::Id),
        "traceState" => one(3, Leaf::Text),
        "parentSpanId" => one(4, Leaf::Id),
        "name" => one(5, Leaf::Text),
        "kind" => one(6, Leaf::Enum),
        "startTimeUnixNano" => one(7, Leaf::Fixed64),
        "endTimeUnixNano" => one(8, Leaf::Fixed64),
        _ => more_of_span(name),
    }
}

/// The other fields of a span (trace.proto: Span).
#[tactic(auto, unfolding(crate::specs::Names::more_of_span))]
fn more_of_span(name: &str) -> Option<Member>
    ensures { result ≡ spec.more_of_span name.now }
{
    match name {
        "attributes" => each(9, Message::KeyValue),
        "droppedAttributesCount" => one(10, Leaf::Uint32),
        "events" => each(11, Message::Event),
        "droppedEventsCount" => one(12, Leaf::Uint32),
        "links" => each(13, Message::Link),
        "droppedLinksCount" => one(14, Leaf::Uint32),
        "status" => nested(15, Message::Status),
        "flags" => one(16, Leaf::Fixed32),
        _ => None,
    }
}

/// (trace.proto: Span.Event)
#[tactic(auto, unfolding(crate::specs::Names::event_member))]
fn event_member(name: &str) -> Option<Member>
    ensures { result ≡ spec.event_member name.now }
{
    match name {
        "timeUnixNano" => one(1, Leaf::Fixed64),
        "name" => one(2, Leaf::Text),
        "attributes" => each(3, Message::KeyValue),
        "droppedAttributesCount" => one(4, Leaf::Uint32),
        _ => None,
    }
}

/// (trace.proto: Span.Link)
#[tactic(auto, unfolding(crate::specs::Names::link_member))]
fn link_member(name: &str) -> Option<Member>
    ensures { result ≡ spec.link_member name.now }
{
    match name {
        "traceId" => one(1, Leaf::Id),
        "spanId" => one(2, Leaf::Id),
        "traceState" => one(3, Leaf::Text),
        "attributes" => each(4, Message::KeyValue),
        "droppedAttributesCount" => one(5, Leaf::Uint32),
        "flags" => one(6, Leaf::Fixed32),
        _ => None,
    }
}

/// (trace.proto: Status)
#[tactic(auto, unfolding(crate::specs::Names::status_member))]
fn status_member(name: &str) -> Option<Member>
    ensures { result ≡ spec.status_member name.now }
{
    match name {
        "message" => one(2, Leaf::Text),
        "code" => one(3, Leaf::Enum),
        _ => None,
    }
}

/// (common.proto: KeyValue)
#[tactic(auto, unfolding(crate::specs::Names::key_value_member))]
fn key_value_member(name: &str) -> Option<Member>
    ensures { result ≡ spec.key_value_member name.now }
{
    match name {
        "key" => one(1, Leaf::Text),
        "value" => nested(2, Message::AnyValue),
        _ => None,
    }
}

/// (common.proto: AnyValue)
#[tactic(auto, unfolding(crate::specs::Names::any_value_member))]
fn any_value_member(name: &str) -> Option<Member>
    ensures { result ≡ spec.any_value_member name.now }
{
    match name {
        "stringValue" => one(1, Leaf::Text),
        "boolValue" => one(2, Leaf::Bool),
        "intValue" => one(3, Leaf::Int64),
        "doubleValue" => one(4, Leaf::Double),
        "arrayValue" => nested(5, Message::ArrayValue),
        "kvlistValue" => nested(6, Message::KeyValueList),
        "bytesValue" => one(7, Leaf::Bytes),
        _ => None,
    }
}

/// (common.proto: ArrayValue)
#[tactic(auto, unfolding(crate::specs::Names::array_value_member))]
fn array_value_member(name: &str) -> Option<Member>
    ensures { result ≡ spec.array_value_member name.now }
{
    match name {
        "values" => each(1, Message::AnyValue),
        _ => None,
    }
}

/// (common.proto: KeyValueList)
#[tactic(auto, unfolding(crate::specs::Names::key_value_list_member))]
fn key_value_list_member(name: &str) -> Option<Member>
    ensures { result ≡ spec.key_value_list_member name.now }
{
    match name {
        "values" => each(1, Message::KeyValue),
        _ => None,
    }
}

/// The member of this name in an object of the message, if it has one.
#[tactic(auto, unfolding(crate::specs::Names::member_named))]
pub(crate) fn member_named(message: Message, name: &str) -> Option<Member>
    ensures { result ≡ spec.member_named message name.now }
{
    match message {
        Message::Request => request_member(name),
        Message::ResourceSpans => resource_spans_member(name),
        Message::Resource => resource_member(name),
        Message::ScopeSpans => scope_spans_member(name),
        Message::Scope => scope_member(name),
        Message::Span => span_member(name),
        Message::Event => event_member(name),
        Message::Link => link_member(name),
        Message::Status => status_member(name),
        Message::KeyValue => key_value_member(name),
        Message::AnyValue => any_value_member(name),
        Message::ArrayValue => array_value_member(name),
        Message::KeyValueList => key_value_list_member(name),
    }
}
