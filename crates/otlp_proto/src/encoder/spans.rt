//! Spans, and how long the message of each is (opentelemetry-proto, trace.proto: Span).
ghost use Rattle.std.specs.Prelude.{◌≡◌, ◌≢◌, [], IfOk, OnOk, OnErr, map, flat_map, pos, unwrap_or};
ghost use Rattle.model_message.specs.Tables;
ghost use Rattle.model_span.specs.Spans.{has_remote_parent};
ghost use Rattle.model_export.specs.Export as model;
ghost use Rattle.otlp_span.specs.Parts.{kind_view, parent_id_view};
ghost use Rattle.otlp_proto.specs.Group.{scope_group_view, resource_group_view, groups_view};
ghost use Rattle.otlp_proto.specs.Encode.{Puts, AddsLens};
ghost use Rattle.otlp_proto.specs.Grouped.{spans_in, all_spans};

use crate::encoder::fields::{put_bytes, put_enum, put_fixed32, put_fixed64, put_text, put_uint32};
use crate::encoder::messages::{Submessage, encoded_len, put_each};
use crate::encoder::parts::{flags_number, put_status};
use crate::encoder::sink::Sink;
use crate::groups::{ResourceGroup, ScopeGroup};
use otlp_ids::{OutOfMemory, SpanId};
use otlp_span::{Kind, SpanData};
use std::alloc::Allocator;

/// The number of a kind in the protocol.
fn kind_number(kind: Kind) -> u8
    ensures { pos result ≡ model.kind_number (kind_view kind) }
{
    match kind {
        Kind::Internal => 1,
        Kind::Server => 2,
        Kind::Client => 3,
        Kind::Producer => 4,
        Kind::Consumer => 5,
    }
}

/// Puts the identifier of a parent; a root has none.
fn put_parent<S: Sink>(sink: &mut S, number: u32, parent: Option<SpanId>)
    ensures { Puts number Tables.bytes (unwrap_or (parent_id_view parent) [])
        (S.cursor sink.old) (S.cursor sink.new) }
{
    if let Some(id) = parent {
        put_bytes(sink, number, &id.0);
    }
}

/// The number of a span's flags in the protocol: those of its context, and whether its parent is
/// remote.
fn span_flags<A: Allocator>(span: &SpanData<A>) -> u32
    ensures { let kept = span.now.span in
        result ≡ model.flags_number kept.context.flags (has_remote_parent kept.parent) }
{
    flags_number(span.context().flags, span.has_remote_parent())
}

impl<B: Allocator> Submessage for SpanData<B> {
    ghost use Rattle.model_span.specs.Spans as spans;
    ghost use Rattle.otlp_proto.specs.Encode.{span_bytes, IsWholeSpan};

    ghost viewed = { spans.SpanData };

    ghost view = { λ span. span };

    ghost bytes = { span_bytes };

    ghost is_whole = { IsWholeSpan };

    fn put<S: Sink>(&self, sink: &mut S) {
        let context = self.context();
        put_bytes(sink, 1, &context.trace.0);
        put_bytes(sink, 2, &context.span.0);
        put_text(sink, 3, context.state.as_str());
        put_parent(sink, 4, self.parent_span_id());
        put_text(sink, 5, self.name());
        put_enum(sink, 6, kind_number(self.kind()));
        put_fixed64(sink, 7, self.start_time());
        put_fixed64(sink, 8, self.end_time());
        put_each(sink, 9, self.attributes());
        put_uint32(sink, 10, self.dropped_attributes_count());
        put_each(sink, 11, self.events());
        put_uint32(sink, 12, self.dropped_events_count());
        put_each(sink, 13, self.links());
        put_uint32(sink, 14, self.dropped_links_count());
        put_status(sink, 15, self.status());
        put_fixed32(sink, 16, span_flags(self));
    }
}

/// Adds the lengths of the spans of a scope.
fn add_scope_lens<A: Allocator>(
    lens: &mut Vec<usize, A>,
    group: &ScopeGroup<'_, A>,
) -> Result<(), OutOfMemory>
    ensures { let scope = scope_group_view group.now in
        OnOk result (AddsLens scope.items lens.old.items lens.new.items) }
{
    for span in &group.spans {
        lens.push(encoded_len(*span))?;
    }
    Ok(())
}

/// Adds the lengths of the spans of a resource, scope by scope.
fn add_resource_lens<A: Allocator>(
    lens: &mut Vec<usize, A>,
    group: &ResourceGroup<'_, A>,
) -> Result<(), OutOfMemory>
    ensures { OnOk result
        (AddsLens (spans_in (resource_group_view group.now)) lens.old.items lens.new.items) }
{
    for scope_group in &group.scopes {
        add_scope_lens(lens, scope_group)?;
    }
    Ok(())
}

/// How many spans there are, for the room that their lengths need.
fn span_count<A: Allocator>(groups: &[ResourceGroup<'_, A>]) -> usize {
    let mut count: usize = 0;
    for group in groups {
        for scope_group in &group.scopes {
            count = count.saturating_add(scope_group.spans.len());
        }
    }
    count
}

/// How long the message of each span is, group by group. It takes memory once.
pub fn encoded_lens<A: Allocator>(
    alloc: A,
    groups: &[ResourceGroup<'_, A>],
) -> Result<Vec<usize, A>, OutOfMemory>
    ensures { IfOk result
        (λ lens. AddsLens (all_spans (groups_view groups.now)) [] lens.items) }
{
    let mut lens = Vec::with_capacity(alloc, span_count(groups))?;
    for group in groups {
        add_resource_lens(&mut lens, group)?;
    }
    Ok(lens)
}
