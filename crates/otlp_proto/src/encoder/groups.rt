//! A request: its spans, by resource and scope (opentelemetry-proto, trace_service.proto:
//! ExportTraceServiceRequest; trace.proto: ResourceSpans, ScopeSpans).
ghost use Rattle.std.specs.Prelude.{◌≡◌, length, drop};
ghost use Rattle.model_message.specs.Tables;
ghost use Rattle.model_message.specs.Canon.{field_bytes, bytes_field, canon};
ghost use Rattle.model_message.specs.Whole.{IsMessage};
ghost use Rattle.model_export.specs.Export as model;
ghost use Rattle.otlp_proto.specs.Group.{scope_group_view, resource_group_view, groups_view};
ghost use Rattle.otlp_proto.specs.Encode.{Carries, PutsAll, BeginLens};
ghost use Rattle.otlp_proto.specs.Grouped.{spans_in, all_spans};

use crate::encoder::fields::{WireType, put_key, put_text};
use crate::encoder::messages::{put_one, put_sized};
use crate::encoder::sink::{Length, Sink};
use crate::groups::{ResourceGroup, ScopeGroup};
use std::alloc::Allocator;

/// Puts the message of a scope's spans. The lengths of their messages come first in `lens`.
fn put_scope_spans<A: Allocator, S: Sink>(sink: &mut S, group: &ScopeGroup<'_, A>, lens: &[usize])
    requires { let scope = scope_group_view group.now in BeginLens scope.items lens.now }
    ensures { PutsAll Tables.scope_spans (model.scope_spans_message (scope_group_view group.now))
        (S.cursor sink.old) (S.cursor sink.new) }
{
    put_one(sink, 1, group.scope);
    for i in 0..group.spans.len() {
        put_sized(sink, 2, group.spans[i], lens[i]);
    }
    put_text(sink, 3, group.scope.schema_url.as_str());
}

/// Puts a scope's spans as a field, and answers the lengths after theirs.
fn put_scope<'l, A: Allocator, S: Sink>(
    sink: &mut S,
    number: u32,
    group: &ScopeGroup<'_, A>,
    lens: &'l [usize],
) -> &'l [usize]
    requires { let scope = scope_group_view group.now in BeginLens scope.items lens.now }
    ensures put { let message = model.scope_spans_message (scope_group_view group.now) in
        Carries (field_bytes (bytes_field number (canon Tables.scope_spans message)))
        (IsMessage Tables.scope_spans message) (S.cursor sink.old) (S.cursor sink.new) }
    ensures appended { let scope = scope_group_view group.now in
        result.now ≡ drop (length scope.items) lens.now }
{
    let mut length = Length::new();
    put_scope_spans(&mut length, group, lens);
    let rest = &lens[group.spans.len()..];
    let len = length.len();
    put_key(sink, number, WireType::LengthDelimited);
    sink.put_varint(len as u64);
    if !sink.skip(len) {
        put_scope_spans(sink, group, lens);
    }
    rest
}

/// Puts the message of a resource's spans, and answers the lengths after theirs.
fn put_resource_spans<'l, A: Allocator, S: Sink>(
    sink: &mut S,
    group: &ResourceGroup<'_, A>,
    lens: &'l [usize],
) -> &'l [usize]
    requires { BeginLens (spans_in (resource_group_view group.now)) lens.now }
    ensures put { PutsAll Tables.resource_spans
        (model.resource_spans_message (resource_group_view group.now))
        (S.cursor sink.old) (S.cursor sink.new) }
    ensures appended { result.now
        ≡ drop (length (spans_in (resource_group_view group.now))) lens.now }
{
    put_one(sink, 1, group.resource);
    let mut rest = lens;
    for scope_group in &group.scopes {
        rest = put_scope(sink, 2, scope_group, rest);
    }
    put_text(sink, 3, group.resource.schema_url.as_str());
    rest
}

/// Puts a resource's spans as a field, and answers the lengths after theirs.
fn put_resource<'l, A: Allocator, S: Sink>(
    sink: &mut S,
    number: u32,
    group: &ResourceGroup<'_, A>,
    lens: &'l [usize],
) -> &'l [usize]
    requires { BeginLens (spans_in (resource_group_view group.now)) lens.now }
    ensures put { let message = model.resource_spans_message (resource_group_view group.now) in
        Carries (field_bytes (bytes_field number (canon Tables.resource_spans message)))
        (IsMessage Tables.resource_spans message) (S.cursor sink.old) (S.cursor sink.new) }
    ensures appended { result.now
        ≡ drop (length (spans_in (resource_group_view group.now))) lens.now }
{
    let mut length = Length::new();
    let rest = put_resource_spans(&mut length, group, lens);
    let len = length.len();
    put_key(sink, number, WireType::LengthDelimited);
    sink.put_varint(len as u64);
    if !sink.skip(len) {
        put_resource_spans(sink, group, lens);
    }
    rest
}

/// Puts the message of a request. The lengths of the messages of its spans are in `lens`.
pub fn put_request<A: Allocator, S: Sink>(
    sink: &mut S,
    groups: &[ResourceGroup<'_, A>],
    lens: &[usize],
)
    requires { BeginLens (all_spans (groups_view groups.now)) lens.now }
    ensures { PutsAll Tables.request (model.request_message (groups_view groups.now))
        (S.cursor sink.old) (S.cursor sink.new) }
{
    let mut rest = lens;
    for group in groups {
        rest = put_resource(sink, 1, group, rest);
    }
}
