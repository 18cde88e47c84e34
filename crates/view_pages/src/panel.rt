//! The panel of a span.

ghost use Rattle.std.specs.Prelude.{OnOk};
ghost use Rattle.view_pages.specs.Html.{Appends, each};
ghost use Rattle.view_pages.specs.Panels.{attributes_html, both_html, context_html, dropped_html};
ghost use Rattle.view_pages.specs.Panels.{event_html, event_name_html, events_html, facts_html};
ghost use Rattle.view_pages.specs.Panels.{flags_html, ids_html, instant_html, kind_html, link_html};
ghost use Rattle.view_pages.specs.Panels.{links_html, offset_html, panel_html, parent_html};
ghost use Rattle.view_pages.specs.Panels.{parent_link_html, parts_html, place_html, resource_html};
ghost use Rattle.view_pages.specs.Panels.{scope_html, state_html, status_html, times_html};
ghost use Rattle.view_pages.specs.Panels.{url_html, version_html};

use crate::date::push_moment;
use crate::html::{push_after, push_digits, push_markup, push_number, push_signed, push_text};
use crate::times::push_duration;
use crate::value::push_list;
use otlp_ids::OutOfMemory;
use otlp_read::{AnyValue, Event, Link, Span, Status};
use std::alloc::Allocator;
use trace_store::{ViewResource, ViewScope, ViewSpan};
use trace_tree::Place;

/// Appends how many parts the sender dropped, unless it is none.
#[tactic(auto, unfolding(crate::specs::Html::html_bytes, crate::specs::Panels::dropped_html))]
fn push_dropped<A: Allocator>(out: &mut String<A>, count: u32) -> Result<(), OutOfMemory>
    ensures { OnOk result (Appends out.old out.new (dropped_html count)) }
{
    if count == 0 {
        return Ok(());
    }
    push_markup(out, " <em>")?;
    push_number(out, u64::from(count))?;
    push_markup(out, " dropped</em>")
}

/// Appends attributes under their heading.
fn push_attributes<A: Allocator + Copy>(
    out: &mut String<A>,
    title: &str,
    pairs: &[(String<A>, AnyValue<A>)],
    dropped: u32,
) -> Result<(), OutOfMemory>
    ensures { OnOk result (Appends out.old out.new (attributes_html title.now pairs.now dropped)) }
{
    push_markup(out, "<h4>")?;
    push_markup(out, title)?;
    push_dropped(out, dropped)?;
    push_markup(out, "</h4>")?;
    push_list(out, pairs)
}

/// Appends how long after the start of its span a time is, or before.
#[tactic(auto, unfolding(crate::specs::Html::html_bytes, crate::specs::Panels::offset_html))]
fn push_offset<A: Allocator>(out: &mut String<A>, start: u64, time: u64) -> Result<(), OutOfMemory>
    ensures { OnOk result (Appends out.old out.new (offset_html start time)) }
{
    if time < start {
        push_markup(out, "-")?;
        push_duration(out, start - time)
    } else {
        push_markup(out, "+")?;
        push_duration(out, time - start)
    }
}

/// Appends the name of an event, and when it was.
fn push_event_name<A: Allocator>(
    out: &mut String<A>,
    start: u64,
    event: &Event<A>,
) -> Result<(), OutOfMemory>
    ensures { OnOk result (Appends out.old out.new (event_name_html start event.now)) }
{
    push_markup(out, "<h5>")?;
    push_text(out, &event.name)?;
    push_markup(out, " <small>")?;
    push_offset(out, start, event.time_unix_nano)?;
    push_markup(out, "</small>")
}

/// Appends an event, with when it was, and its attributes.
fn push_event<A: Allocator + Copy>(
    out: &mut String<A>,
    start: u64,
    event: &Event<A>,
) -> Result<(), OutOfMemory>
    ensures { OnOk result (Appends out.old out.new (event_html start event.now)) }
{
    push_event_name(out, start, event)?;
    push_dropped(out, event.dropped_attributes_count)?;
    push_markup(out, "</h5>")?;
    push_list(out, &event.attributes)
}

/// Appends events.
#[tactic(auto, unfolding(crate::specs::Html::html_bytes))]
fn push_each_event<A: Allocator + Copy>(
    out: &mut String<A>,
    start: u64,
    events: &[Event<A>],
) -> Result<(), OutOfMemory>
    ensures { OnOk result (Appends out.old out.new (each (event_html start) events.now)) }
{
    for event in events {
        push_event(out, start, event)?;
    }
    Ok(())
}

/// Appends the events of a span under their heading.
fn push_events<A: Allocator + Copy>(out: &mut String<A>, span: &Span<A>) -> Result<(), OutOfMemory>
    ensures { OnOk result (Appends out.old out.new (events_html span.now)) }
{
    push_markup(out, "<h4>Events")?;
    push_dropped(out, span.dropped_events_count)?;
    push_markup(out, "</h4>")?;
    push_each_event(out, span.start_time_unix_nano, &span.events)
}

/// Appends where a span is shown, as a link there.
fn push_place<A: Allocator + Copy>(
    out: &mut String<A>,
    trace_id: &[u8],
    span_id: &[u8],
) -> Result<(), OutOfMemory>
    ensures { OnOk result (Appends out.old out.new (place_html trace_id.now span_id.now)) }
{
    push_markup(out, "<a href='/trace/")?;
    push_digits(out, trace_id)?;
    push_markup(out, "#s-")?;
    push_digits(out, span_id)?;
    push_markup(out, "'>")?;
    push_both(out, trace_id, span_id)?;
    push_markup(out, "</a>")
}

/// Appends the identifiers of a trace and a span.
fn push_both<A: Allocator + Copy>(
    out: &mut String<A>,
    trace_id: &[u8],
    span_id: &[u8],
) -> Result<(), OutOfMemory>
    ensures { OnOk result (Appends out.old out.new (both_html trace_id.now span_id.now)) }
{
    push_digits(out, trace_id)?;
    push_markup(out, " ")?;
    push_digits(out, span_id)
}

/// Appends a link, and its attributes.
fn push_link<A: Allocator + Copy>(out: &mut String<A>, link: &Link<A>) -> Result<(), OutOfMemory>
    ensures { OnOk result (Appends out.old out.new (link_html link.now)) }
{
    push_markup(out, "<h5>")?;
    push_place(out, &link.trace_id, &link.span_id)?;
    push_dropped(out, link.dropped_attributes_count)?;
    push_markup(out, "</h5><dl>")?;
    push_context(out, &link.trace_state, link.flags)?;
    push_list(out, &link.attributes)
}

/// Appends flags by eight hexadecimal digits.
fn push_flags<A: Allocator + Copy>(out: &mut String<A>, flags: u32) -> Result<(), OutOfMemory>
    ensures { OnOk result (Appends out.old out.new (flags_html flags)) }
{
    push_digits(out, &flags.to_be_bytes())
}

/// Appends the trace state and the flags of a span or a link.
fn push_context<A: Allocator + Copy>(
    out: &mut String<A>,
    trace_state: &str,
    flags: u32,
) -> Result<(), OutOfMemory>
    ensures { OnOk result (Appends out.old out.new (context_html trace_state.now flags)) }
{
    push_after(out, "<dt>trace state<dd>", trace_state)?;
    push_markup(out, "<dt>flags<dd>")?;
    push_flags(out, flags)?;
    push_markup(out, "</dl>")
}

/// Appends links.
#[tactic(auto, unfolding(crate::specs::Html::html_bytes))]
fn push_each_link<A: Allocator + Copy>(
    out: &mut String<A>,
    links: &[Link<A>],
) -> Result<(), OutOfMemory>
    ensures { OnOk result (Appends out.old out.new (each link_html links.now)) }
{
    for link in links {
        push_link(out, link)?;
    }
    Ok(())
}

/// Appends the links of a span under their heading.
fn push_links<A: Allocator + Copy>(out: &mut String<A>, span: &Span<A>) -> Result<(), OutOfMemory>
    ensures { OnOk result (Appends out.old out.new (links_html span.now)) }
{
    push_markup(out, "<h4>Links")?;
    push_dropped(out, span.dropped_links_count)?;
    push_markup(out, "</h4>")?;
    push_each_link(out, &span.links)
}

/// Appends a schema URL.
fn push_schema_url<A: Allocator>(out: &mut String<A>, url: &str) -> Result<(), OutOfMemory>
    ensures { OnOk result (Appends out.old out.new (url_html url.now)) }
{
    push_markup(out, "<p>")?;
    push_text(out, url)?;
    push_markup(out, "</p>")
}

/// Appends the resource that made a span.
fn push_resource<A: Allocator + Copy>(
    out: &mut String<A>,
    shared: &ViewResource<A>,
) -> Result<(), OutOfMemory>
    ensures { OnOk result (Appends out.old out.new (resource_html shared.now)) }
{
    let resource = &shared.resource;
    let dropped = resource.dropped_attributes_count;
    push_attributes(out, "Resource", &resource.attributes, dropped)?;
    push_schema_url(out, &shared.schema_url)
}

/// Appends the name and the version of a scope.
fn push_version<A: Allocator>(
    out: &mut String<A>,
    name: &str,
    version: &str,
) -> Result<(), OutOfMemory>
    ensures { OnOk result (Appends out.old out.new (version_html name.now version.now)) }
{
    push_markup(out, "<p>")?;
    push_text(out, name)?;
    push_markup(out, " ")?;
    push_text(out, version)?;
    push_markup(out, "</p>")
}

/// Appends the scope that made a span.
fn push_scope<A: Allocator + Copy>(
    out: &mut String<A>,
    shared: &ViewScope<A>,
) -> Result<(), OutOfMemory>
    ensures { OnOk result (Appends out.old out.new (scope_html shared.now)) }
{
    let scope = &shared.scope;
    push_attributes(
        out,
        "Scope",
        &scope.attributes,
        scope.dropped_attributes_count,
    )?;
    push_version(out, &scope.name, &scope.version)?;
    push_schema_url(out, &shared.schema_url)
}

/// Appends the kind of a span.
#[tactic(auto, unfolding(crate::specs::Html::html_bytes, crate::specs::Panels::kind_html))]
fn push_kind<A: Allocator>(out: &mut String<A>, span: &Span<A>) -> Result<(), OutOfMemory>
    ensures { OnOk result (Appends out.old out.new (kind_html span.now.kind)) }
{
    match span.kind {
        0 => push_markup(out, "unspecified"),
        1 => push_markup(out, "internal"),
        2 => push_markup(out, "server"),
        3 => push_markup(out, "client"),
        4 => push_markup(out, "producer"),
        5 => push_markup(out, "consumer"),
        _ => push_signed(out, i64::from(span.kind)),
    }
}

/// Appends the code of a status.
#[tactic(auto, unfolding(crate::specs::Html::html_bytes, crate::specs::Panels::status_html))]
fn push_status<A: Allocator>(out: &mut String<A>, status: &Status<A>) -> Result<(), OutOfMemory>
    ensures { OnOk result (Appends out.old out.new (status_html status.now.code)) }
{
    match status.code {
        0 => push_markup(out, "unset"),
        1 => push_markup(out, "ok"),
        2 => push_markup(out, "error"),
        _ => push_signed(out, i64::from(status.code)),
    }
}

/// Appends the identifier of a parent, as a link to the parent's row.
fn push_parent_link<A: Allocator + Copy>(out: &mut String<A>, id: &[u8]) -> Result<(), OutOfMemory>
    ensures { OnOk result (Appends out.old out.new (parent_link_html id.now)) }
{
    push_markup(out, "<dt>parent<dd><a href='#s-")?;
    push_digits(out, id)?;
    push_markup(out, "'>")?;
    push_digits(out, id)?;
    push_markup(out, "</a>")
}

/// Appends the parent of a span in this place: none of a root, and no link where it wasn't
/// received.
#[tactic(auto, unfolding(crate::specs::Html::html_bytes, crate::specs::Panels::parent_html))]
fn push_parent<A: Allocator + Copy>(
    out: &mut String<A>,
    place: Place,
    id: &[u8],
) -> Result<(), OutOfMemory>
    ensures { OnOk result (Appends out.old out.new (parent_html place id.now)) }
{
    match place {
        Place::Root => Ok(()),
        Place::Child => push_parent_link(out, id),
        Place::Orphan => {
            push_markup(out, "<dt>parent<dd>")?;
            push_digits(out, id)
        }
        Place::Cycle => push_parent_link(out, id),
    }
}

/// Appends the identifiers of a span and of its parent.
fn push_ids<A: Allocator + Copy>(
    out: &mut String<A>,
    span: &Span<A>,
    place: Place,
) -> Result<(), OutOfMemory>
    ensures { OnOk result (Appends out.old out.new (ids_html span.now place)) }
{
    push_markup(out, "<dl><dt>span<dd>")?;
    push_digits(out, &span.span_id)?;
    push_parent(out, place, &span.parent_span_id)
}

/// Appends the kind of a span, its status and what is said of that.
fn push_state<A: Allocator>(out: &mut String<A>, span: &Span<A>) -> Result<(), OutOfMemory>
    ensures { OnOk result (Appends out.old out.new (state_html span.now)) }
{
    push_markup(out, "<dt>kind<dd>")?;
    push_kind(out, span)?;
    push_markup(out, "<dt>status<dd>")?;
    push_status(out, &span.status)?;
    push_after(out, ": ", &span.status.message)
}

/// Appends a date and a time in UTC, and the nanoseconds since 1970.
fn push_instant<A: Allocator>(out: &mut String<A>, nanos: u64) -> Result<(), OutOfMemory>
    ensures { OnOk result (Appends out.old out.new (instant_html nanos)) }
{
    push_moment(out, nanos)?;
    push_markup(out, " <small>")?;
    push_number(out, nanos)?;
    push_markup(out, "</small>")
}

/// Appends when a span started and ended, its trace state and its flags.
fn push_times<A: Allocator + Copy>(out: &mut String<A>, span: &Span<A>) -> Result<(), OutOfMemory>
    ensures { OnOk result (Appends out.old out.new (times_html span.now)) }
{
    push_markup(out, "<dt>start<dd>")?;
    push_instant(out, span.start_time_unix_nano)?;
    push_markup(out, "<dt>end<dd>")?;
    push_instant(out, span.end_time_unix_nano)?;
    push_context(out, &span.trace_state, span.flags)
}

/// Appends the facts of a span.
fn push_facts<A: Allocator + Copy>(
    out: &mut String<A>,
    span: &Span<A>,
    place: Place,
) -> Result<(), OutOfMemory>
    ensures { OnOk result (Appends out.old out.new (facts_html span.now place)) }
{
    push_ids(out, span, place)?;
    push_state(out, span)?;
    push_times(out, span)
}

/// Appends the attributes, the events and the links of a span.
fn push_parts<A: Allocator + Copy>(out: &mut String<A>, span: &Span<A>) -> Result<(), OutOfMemory>
    ensures { OnOk result (Appends out.old out.new (parts_html span.now)) }
{
    push_attributes(
        out,
        "Attributes",
        &span.attributes,
        span.dropped_attributes_count,
    )?;
    push_events(out, span)?;
    push_links(out, span)
}

/// Appends the facts of a span, its attributes, events and links, its resource and its scope.
pub(crate) fn push_panel<A: Allocator + Copy>(
    out: &mut String<A>,
    span: &ViewSpan<A>,
    place: Place,
) -> Result<(), OutOfMemory>
    ensures { OnOk result (Appends out.old out.new (panel_html span.now place)) }
{
    push_facts(out, &span.span, place)?;
    push_parts(out, &span.span)?;
    push_resource(out, &span.resource)?;
    push_scope(out, &span.scope)
}
