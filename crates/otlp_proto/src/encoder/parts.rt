//! Events, links and the status of a span, resources and scopes (opentelemetry-proto, trace.proto:
//! Span.Event, Span.Link, Status; resource.proto: Resource; common.proto: InstrumentationScope).
ghost use Rattle.std.specs.Prelude.{◌≡◌, pos};
ghost use Rattle.model_message.specs.Tables;
ghost use Rattle.model_export.specs.Export as model;
ghost use Rattle.otlp_span.specs.Parts.{status_view};
ghost use Rattle.otlp_proto.specs.Encode.{Puts};

use crate::encoder::fields::{put_bytes, put_enum, put_fixed32, put_fixed64, put_text, put_uint32};
use crate::encoder::messages::{Submessage, encoded_len, put_each, put_sized};
use crate::encoder::sink::Sink;
use otlp_ids::TraceFlags;
use otlp_span::{Event, Link, Resource, Scope, Status};
use std::alloc::Allocator;

impl<B: Allocator> Submessage for Event<B> {
    ghost use Rattle.model_message.specs.Tables;
    ghost use Rattle.model_message.specs.Canon.{canon};
    ghost use Rattle.model_message.specs.Whole.{IsMessage};
    ghost use Rattle.model_span.specs.Spans as spans;
    ghost use Rattle.model_export.specs.Export as model;
    ghost use Rattle.otlp_span.specs.Parts.{event_view};

    ghost viewed = { spans.Event };

    ghost view = { event_view };

    ghost bytes = { λ e. canon Tables.event (model.event_message e) };

    ghost is_whole = { λ e. IsMessage Tables.event (model.event_message e) };

    fn put<S: Sink>(&self, sink: &mut S) {
        put_fixed64(sink, 1, self.timestamp);
        put_text(sink, 2, self.name.as_str());
        put_each(sink, 3, self.attributes.as_slice());
        put_uint32(sink, 4, self.dropped_attributes_count);
    }
}

/// Bit 8 of the flags of a span or a link: it is known whether the parent, or the link's context,
/// is remote (trace.proto: SpanFlags).
const HAS_IS_REMOTE: u32 = 0x100;

/// Bit 9: it is remote (trace.proto: SpanFlags).
const IS_REMOTE: u32 = 0x200;

/// The number that these flags of a context are in the protocol, where this is remote or not.
pub fn flags_number(flags: TraceFlags, remote: bool) -> u32
    ensures { result ≡ model.flags_number flags.0 remote }
{
    let known = flags.0 as u32 + HAS_IS_REMOTE;
    if remote { known + IS_REMOTE } else { known }
}

impl<B: Allocator> Submessage for Link<B> {
    ghost use Rattle.model_message.specs.Tables;
    ghost use Rattle.model_message.specs.Canon.{canon};
    ghost use Rattle.model_message.specs.Whole.{IsMessage};
    ghost use Rattle.model_span.specs.Spans as spans;
    ghost use Rattle.model_export.specs.Export as model;
    ghost use Rattle.otlp_span.specs.Parts.{link_view};

    ghost viewed = { spans.Link };

    ghost view = { link_view };

    ghost bytes = { λ l. canon Tables.link (model.link_message l) };

    ghost is_whole = { λ l. IsMessage Tables.link (model.link_message l) };

    fn put<S: Sink>(&self, sink: &mut S) {
        let context = &self.span_context;
        put_bytes(sink, 1, &context.trace.0);
        put_bytes(sink, 2, &context.span.0);
        put_text(sink, 3, context.state.as_str());
        put_each(sink, 4, self.attributes.as_slice());
        put_uint32(sink, 5, self.dropped_attributes_count);
        put_fixed32(sink, 6, flags_number(context.flags, context.remote));
    }
}

impl<B: Allocator> Submessage for Resource<B> {
    ghost use Rattle.model_message.specs.Tables;
    ghost use Rattle.model_message.specs.Canon.{canon};
    ghost use Rattle.model_message.specs.Whole.{IsMessage};
    ghost use Rattle.model_span.specs.Spans as spans;
    ghost use Rattle.model_export.specs.Export as model;
    ghost use Rattle.otlp_span.specs.Parts.{resource_view};

    ghost viewed = { spans.Resource };

    ghost view = { resource_view };

    ghost bytes = { λ r. canon Tables.resource (model.resource_message r) };

    ghost is_whole = { λ r. IsMessage Tables.resource (model.resource_message r) };

    fn put<S: Sink>(&self, sink: &mut S) {
        put_each(sink, 1, self.attributes.as_slice());
    }
}

impl<B: Allocator> Submessage for Scope<B> {
    ghost use Rattle.model_message.specs.Tables;
    ghost use Rattle.model_message.specs.Canon.{canon};
    ghost use Rattle.model_message.specs.Whole.{IsMessage};
    ghost use Rattle.model_span.specs.Spans as spans;
    ghost use Rattle.model_export.specs.Export as model;
    ghost use Rattle.otlp_span.specs.Parts.{scope_view};

    ghost viewed = { spans.Scope };

    ghost view = { scope_view };

    ghost bytes = { λ s. canon Tables.scope (model.scope_message s) };

    ghost is_whole = { λ s. IsMessage Tables.scope (model.scope_message s) };

    fn put<S: Sink>(&self, sink: &mut S) {
        put_text(sink, 1, self.name.as_str());
        put_text(sink, 2, self.version.as_str());
        put_each(sink, 3, self.attributes.as_slice());
    }
}

/// The description of an error; another status has none.
fn status_message<A: Allocator>(status: &Status<A>) -> &str
    ensures { let message = model.status_message (status_view status.now) in
        result.now ≡ message.0 }
{
    match status {
        Status::Unset | Status::Ok => "",
        Status::Error(description) => description.as_str(),
    }
}

/// The number of a status in the protocol.
fn status_code<A: Allocator>(status: &Status<A>) -> u8
    ensures { let message = model.status_message (status_view status.now) in
        pos result ≡ message.1.0 }
{
    match status {
        Status::Unset => 0,
        Status::Ok => 1,
        Status::Error(_) => 2,
    }
}

impl<B: Allocator> Submessage for Status<B> {
    ghost use Rattle.model_message.specs.Tables;
    ghost use Rattle.model_message.specs.Canon.{canon};
    ghost use Rattle.model_message.specs.Whole.{IsMessage};
    ghost use Rattle.model_span.specs.Spans as spans;
    ghost use Rattle.model_export.specs.Export as model;
    ghost use Rattle.otlp_span.specs.Parts.{status_view};

    ghost viewed = { spans.Status };

    ghost view = { status_view };

    ghost bytes = { λ s. canon Tables.status (model.status_message s) };

    ghost is_whole = { λ s. IsMessage Tables.status (model.status_message s) };

    /// No byte where it is Unset.
    fn put<S: Sink>(&self, sink: &mut S) {
        put_text(sink, 2, status_message(self));
        put_enum(sink, 3, status_code(self));
    }
}

/// Puts a status as a field, unless its message has no byte, as where it is Unset.
pub fn put_status<A: Allocator, S: Sink>(sink: &mut S, number: u32, status: &Status<A>)
    ensures { Puts number (Tables.message Tables.status)
        (model.status_message (status_view status.now)) (S.cursor sink.old) (S.cursor sink.new) }
{
    let len = encoded_len(status);
    if len != 0 {
        put_sized(sink, number, status, len);
    }
}
