//! Spans.

ghost use Rattle.std.specs.Prelude.{◌≡◌, ◌++◌, OnOk};
ghost use Rattle.std.specs.List.{flat_map};
ghost use Rattle.otlp_json.specs.Seen.{seen};
ghost use Rattle.view_json.specs.Spans.{attribute_members, detail_members, event_members};
ghost use Rattle.view_json.specs.Spans.{event_seen, identity_members, link_members, link_seen};
ghost use Rattle.view_json.specs.Spans.{span_seen, status_member, target_members, work_members};

use crate::value::push_attributes;
use json::Writer;
use otlp_json::field::{
    begin, begin_list, begin_member, end, end_list, push_hex, push_long, push_number, push_signed,
    push_text,
};
use otlp_read::{Event, Link, Span, Status};
use std::alloc::{AllocError, Allocator};

/// Writes an event (trace.proto: Span.Event).
#[tactic(auto, unfolding(crate::specs::Spans::event_seen))]
fn push_event<A: Allocator + Copy>(
    alloc: A,
    out: &mut Writer<A>,
    event: &Event<A>,
) -> Result<(), AllocError>
    ensures seen { OnOk result (seen out.new.tokens
        ≡ seen out.old.tokens ++ event_seen event.now) }
    ensures before { out.new.before ≡ out.old.before }
{
    begin(out)?;
    push_long(out, "timeUnixNano", event.time_unix_nano)?;
    push_text(out, "name", &event.name)?;
    push_attributes(alloc, out, &event.attributes)?;
    let dropped = u64::from(event.dropped_attributes_count);
    push_number(out, "droppedAttributesCount", dropped)?;
    end(out)
}

/// Writes events.
fn push_events<A: Allocator + Copy>(
    alloc: A,
    out: &mut Writer<A>,
    events: &[Event<A>],
) -> Result<(), AllocError>
    ensures seen { OnOk result (seen out.new.tokens
        ≡ seen out.old.tokens ++ flat_map event_seen events.now) }
    ensures before { out.new.before ≡ out.old.before }
{
    for event in events {
        push_event(alloc, out, event)?;
    }
    Ok(())
}

/// Writes which span a link is to.
#[tactic(auto, unfolding(crate::specs::Spans::target_members))]
fn push_target<A: Allocator + Copy>(
    alloc: A,
    out: &mut Writer<A>,
    link: &Link<A>,
) -> Result<(), AllocError>
    ensures seen { OnOk result (seen out.new.tokens
        ≡ seen out.old.tokens ++ target_members link.now) }
    ensures before { out.new.before ≡ out.old.before }
{
    push_hex(alloc, out, "traceId", &link.trace_id)?;
    push_hex(alloc, out, "spanId", &link.span_id)?;
    push_text(out, "traceState", &link.trace_state)?;
    Ok(())
}

/// Writes a link (trace.proto: Span.Link).
#[tactic(auto, unfolding(crate::specs::Spans::link_seen))]
fn push_link<A: Allocator + Copy>(
    alloc: A,
    out: &mut Writer<A>,
    link: &Link<A>,
) -> Result<(), AllocError>
    ensures seen { OnOk result (seen out.new.tokens
        ≡ seen out.old.tokens ++ link_seen link.now) }
    ensures before { out.new.before ≡ out.old.before }
{
    begin(out)?;
    push_target(alloc, out, link)?;
    push_attributes(alloc, out, &link.attributes)?;
    let dropped = u64::from(link.dropped_attributes_count);
    push_number(out, "droppedAttributesCount", dropped)?;
    push_number(out, "flags", u64::from(link.flags))?;
    end(out)
}

/// Writes links.
fn push_links<A: Allocator + Copy>(
    alloc: A,
    out: &mut Writer<A>,
    links: &[Link<A>],
) -> Result<(), AllocError>
    ensures seen { OnOk result (seen out.new.tokens
        ≡ seen out.old.tokens ++ flat_map link_seen links.now) }
    ensures before { out.new.before ≡ out.old.before }
{
    for link in links {
        push_link(alloc, out, link)?;
    }
    Ok(())
}

/// Writes a status, as the member `status` (trace.proto: Status).
#[tactic(auto, unfolding(crate::specs::Spans::status_member))]
fn push_status<A: Allocator>(out: &mut Writer<A>, status: &Status<A>) -> Result<(), AllocError>
    ensures seen { OnOk result (seen out.new.tokens
        ≡ seen out.old.tokens ++ status_member status.now) }
    ensures before { out.new.before ≡ out.old.before }
{
    begin_member(out, "status")?;
    push_text(out, "message", &status.message)?;
    push_signed(out, "code", status.code)?;
    end(out)
}

/// Writes what says which span it is.
#[tactic(auto, unfolding(crate::specs::Spans::identity_members))]
fn push_identity<A: Allocator + Copy>(
    alloc: A,
    out: &mut Writer<A>,
    span: &Span<A>,
) -> Result<(), AllocError>
    ensures seen { OnOk result (seen out.new.tokens
        ≡ seen out.old.tokens ++ identity_members span.now) }
    ensures before { out.new.before ≡ out.old.before }
{
    push_hex(alloc, out, "traceId", &span.trace_id)?;
    push_hex(alloc, out, "spanId", &span.span_id)?;
    push_text(out, "traceState", &span.trace_state)?;
    push_hex(alloc, out, "parentSpanId", &span.parent_span_id)?;
    push_number(out, "flags", u64::from(span.flags))?;
    Ok(())
}

/// Writes what a span did, and when.
#[tactic(auto, unfolding(crate::specs::Spans::work_members))]
fn push_work<A: Allocator>(out: &mut Writer<A>, span: &Span<A>) -> Result<(), AllocError>
    ensures seen { OnOk result (seen out.new.tokens
        ≡ seen out.old.tokens ++ work_members span.now) }
    ensures before { out.new.before ≡ out.old.before }
{
    push_text(out, "name", &span.name)?;
    push_signed(out, "kind", span.kind)?;
    push_long(out, "startTimeUnixNano", span.start_time_unix_nano)?;
    push_long(out, "endTimeUnixNano", span.end_time_unix_nano)
}

/// Writes the attributes of a span.
#[tactic(auto, unfolding(crate::specs::Spans::attribute_members))]
fn push_span_attributes<A: Allocator + Copy>(
    alloc: A,
    out: &mut Writer<A>,
    span: &Span<A>,
) -> Result<(), AllocError>
    ensures seen { OnOk result (seen out.new.tokens
        ≡ seen out.old.tokens ++ attribute_members span.now) }
    ensures before { out.new.before ≡ out.old.before }
{
    push_attributes(alloc, out, &span.attributes)?;
    let dropped = u64::from(span.dropped_attributes_count);
    push_number(out, "droppedAttributesCount", dropped)?;
    Ok(())
}

/// Writes the events of a span.
#[tactic(auto, unfolding(crate::specs::Spans::event_members))]
fn push_span_events<A: Allocator + Copy>(
    alloc: A,
    out: &mut Writer<A>,
    span: &Span<A>,
) -> Result<(), AllocError>
    ensures seen { OnOk result (seen out.new.tokens
        ≡ seen out.old.tokens ++ event_members span.now) }
    ensures before { out.new.before ≡ out.old.before }
{
    begin_list(out, "events")?;
    push_events(alloc, out, &span.events)?;
    end_list(out)?;
    push_number(
        out,
        "droppedEventsCount",
        u64::from(span.dropped_events_count),
    )?;
    Ok(())
}

/// Writes the links of a span.
#[tactic(auto, unfolding(crate::specs::Spans::link_members))]
fn push_span_links<A: Allocator + Copy>(
    alloc: A,
    out: &mut Writer<A>,
    span: &Span<A>,
) -> Result<(), AllocError>
    ensures seen { OnOk result (seen out.new.tokens
        ≡ seen out.old.tokens ++ link_members span.now) }
    ensures before { out.new.before ≡ out.old.before }
{
    begin_list(out, "links")?;
    push_links(alloc, out, &span.links)?;
    end_list(out)?;
    push_number(
        out,
        "droppedLinksCount",
        u64::from(span.dropped_links_count),
    )?;
    Ok(())
}

/// Writes the attributes, the events and the links of a span.
#[tactic(auto, unfolding(crate::specs::Spans::detail_members))]
fn push_details<A: Allocator + Copy>(
    alloc: A,
    out: &mut Writer<A>,
    span: &Span<A>,
) -> Result<(), AllocError>
    ensures seen { OnOk result (seen out.new.tokens
        ≡ seen out.old.tokens ++ detail_members span.now) }
    ensures before { out.new.before ≡ out.old.before }
{
    push_span_attributes(alloc, out, span)?;
    push_span_events(alloc, out, span)?;
    push_span_links(alloc, out, span)
}

/// Writes a span (trace.proto: Span).
#[tactic(auto, unfolding(crate::specs::Spans::span_seen))]
pub(crate) fn push_span<A: Allocator + Copy>(
    alloc: A,
    out: &mut Writer<A>,
    span: &Span<A>,
) -> Result<(), AllocError>
    ensures seen { OnOk result (seen out.new.tokens
        ≡ seen out.old.tokens ++ span_seen span.now) }
    ensures before { out.new.before ≡ out.old.before }
{
    begin(out)?;
    push_identity(alloc, out, span)?;
    push_work(out, span)?;
    push_details(alloc, out, span)?;
    push_status(out, &span.status)?;
    end(out)
}
