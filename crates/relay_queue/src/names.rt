//! The names of the spans of a body.
ghost use Rattle.std.specs.Prelude.{◌≡◌, [], ◌∷◌};
ghost use Rattle.model_message.specs.Wire.{row};
ghost use Rattle.model_message.specs.Tables.{bytes};
ghost use Rattle.model_message.specs.Messages.{last_bytes, payloads};
ghost use Rattle.model_body.specs.Names.{names_in};
ghost use Rattle.otlp_wire.specs.Fields.{field_of};
ghost use Rattle.retry_core.specs.Retries.{fate_view};
ghost use Rattle.relay_queue.specs.Named.{Gains};
ghost use Rattle.relay_queue.specs.Walk.{request_names, resource_names, scope_names};

use crate::sink::LostSink;
use otlp_wire::{Field, Fields, WireFault, bytes_in, last_bytes};
use retry_core::Fate;

/// Gives the names of the spans of a body to a sink, in the order of reading, each as lost by this
/// fate. Of a body with a fault these are the spans that would be read if no fault counted: what
/// comes before the fault in a message, and all after that message (profile). It takes no memory,
/// and time in proportion to the length of the body.
pub fn name_lost<S: LostSink>(body: &[u8], fate: Fate, sink: &mut S)
    ensures { Gains (names_in (fate_view fate) body.now) (S.named sink.old) (S.named sink.new) }
{
    let _ = name_resources(body, fate, sink);
}

/// The spans of a request, up to the first field that can't be read (opentelemetry-proto,
/// trace_service.proto: ExportTraceServiceRequest).
fn name_resources<S: LostSink>(body: &[u8], fate: Fate, sink: &mut S) -> Result<(), WireFault>
    ensures { Gains (request_names (fate_view fate) (row body.now).value)
        (S.named sink.old) (S.named sink.new) }
{
    for field in Fields::new(body) {
        name_resource(field?, fate, sink);
    }
    Ok(())
}

/// The spans of a field of a request.
fn name_resource<S: LostSink>(field: Field<'_>, fate: Fate, sink: &mut S)
    ensures { Gains (request_names (fate_view fate) (field_of field.entry ∷ []))
        (S.named sink.old) (S.named sink.new) }
{
    let Some(content) = bytes_in(field, 1) else {
        return;
    };
    let _ = name_scopes(content, fate, sink);
}

/// The spans of a resource, up to the first field that can't be read (opentelemetry-proto,
/// trace.proto: ResourceSpans).
fn name_scopes<S: LostSink>(content: &[u8], fate: Fate, sink: &mut S) -> Result<(), WireFault>
    ensures { Gains (resource_names (fate_view fate) (row content.now).value)
        (S.named sink.old) (S.named sink.new) }
{
    for field in Fields::new(content) {
        name_scope(field?, fate, sink);
    }
    Ok(())
}

/// The spans of a field of a resource's spans.
fn name_scope<S: LostSink>(field: Field<'_>, fate: Fate, sink: &mut S)
    ensures { Gains (resource_names (fate_view fate) (field_of field.entry ∷ []))
        (S.named sink.old) (S.named sink.new) }
{
    let Some(content) = bytes_in(field, 2) else {
        return;
    };
    let _ = name_spans(content, fate, sink);
}

/// The spans of a scope, up to the first field that can't be read (opentelemetry-proto,
/// trace.proto: ScopeSpans).
fn name_spans<S: LostSink>(content: &[u8], fate: Fate, sink: &mut S) -> Result<(), WireFault>
    ensures { Gains (scope_names (fate_view fate) (row content.now).value)
        (S.named sink.old) (S.named sink.new) }
{
    for field in Fields::new(content) {
        name_span(field?, fate, sink);
    }
    Ok(())
}

/// The span of a field of a scope's spans, if it has one.
fn name_span<S: LostSink>(field: Field<'_>, fate: Fate, sink: &mut S)
    ensures { Gains (scope_names (fate_view fate) (field_of field.entry ∷ []))
        (S.named sink.old) (S.named sink.new) }
{
    let Some(content) = bytes_in(field, 2) else {
        return;
    };
    let found = identifiers(content);
    sink.take_lost(found.trace, found.span, fate);
}

/// The identifiers of a span.
#[derive(Drop)]
struct SpanIds<'a> {
    trace: &'a [u8],
    span: &'a [u8],
}

/// The trace id and the span id of a span, as they are before the first field that can't be read
/// (opentelemetry-proto, trace.proto: Span).
fn identifiers(content: &[u8]) -> SpanIds<'_>
    ensures trace { result.trace.now ≡ last_bytes (payloads 1 bytes (row content.now).value) }
    ensures span { result.span.now ≡ last_bytes (payloads 2 bytes (row content.now).value) }
{
    let mut found = SpanIds {
        trace: b"",
        span: b"",
    };
    let _ = find_identifiers(&mut found, content);
    found
}

/// Takes the identifiers of a span, up to the first field that can't be read.
fn find_identifiers<'a>(found: &mut SpanIds<'a>, content: &'a [u8]) -> Result<(), WireFault>
    requires trace { found.old.trace.now ≡ [] }
    requires span { found.old.span.now ≡ [] }
    ensures trace { found.new.trace.now
        ≡ last_bytes (payloads 1 bytes (row content.now).value) }
    ensures span { found.new.span.now
        ≡ last_bytes (payloads 2 bytes (row content.now).value) }
{
    for field in Fields::new(content) {
        let field = field?;
        found.trace = last_bytes(found.trace, field, 1);
        found.span = last_bytes(found.span, field, 2);
    }
    Ok(())
}
