//! The rows of the page of a trace.

ghost use Rattle.std.specs.Prelude.{◌≡◌, OnOk, option_map, slice_get};
ghost use Rattle.std.specs.Arc.{arc_value};
ghost use Rattle.view_pages.specs.Html.{Appends, each};
ghost use Rattle.view_pages.specs.Pieces.{line_html};
ghost use Rattle.view_pages.specs.Rows.{bar_html, class_html, depth_html, id_html, is_cycle};
ghost use Rattle.view_pages.specs.Rows.{is_orphan, label_html, level_of, name_html, remark_html};
ghost use Rattle.view_pages.specs.Rows.{remarks_html, span_html, span_rest, tag_html, tick_html};
ghost use Rattle.view_pages.specs.Rows.{time_html};

use crate::html::{push_digits, push_if, push_markup, push_number, push_text};
use crate::panel::push_panel;
use crate::times::push_duration;
use otlp_ids::OutOfMemory;
use otlp_read::{Event, Span};
use std::alloc::Allocator;
use std::sync::Arc;
use trace_lines::{Line, ends_early, share_of, time_of, width_of};
use trace_store::{ViewSpan, is_error, service_of};
use trace_tree::{Frame, Place};

/// Appends words where something holds.
#[tactic(auto, unfolding(crate::specs::Html::html_bytes, crate::specs::Rows::remark_html))]
fn push_remark<A: Allocator>(
    out: &mut String<A>,
    holds: bool,
    words: &str,
) -> Result<(), OutOfMemory>
    ensures { OnOk result (Appends out.old out.new (remark_html holds words.now)) }
{
    if !holds {
        return Ok(());
    }
    push_markup(out, " <em>")?;
    push_markup(out, words)?;
    push_markup(out, "</em>")
}

/// Whether the parent of a span isn't in the list.
fn is_orphan(place: Place) -> bool
    ensures { result ≡ is_orphan place }
{
    match place {
        Place::Orphan => true,
        Place::Root | Place::Child | Place::Cycle => false,
    }
}

/// Whether a span is its own ancestor.
fn is_cycle(place: Place) -> bool
    ensures { result ≡ is_cycle place }
{
    match place {
        Place::Cycle => true,
        Place::Root | Place::Child | Place::Orphan => false,
    }
}

/// Appends what is remarked of a span.
fn push_remarks<A: Allocator>(
    out: &mut String<A>,
    span: &Span<A>,
    place: Place,
    is_repeated: bool,
) -> Result<(), OutOfMemory>
    ensures { OnOk result (Appends out.old out.new (remarks_html span.now place is_repeated)) }
{
    push_remark(out, is_error(span), "error")?;
    push_remark(out, is_orphan(place), "parent not received")?;
    push_remark(out, is_cycle(place), "cycle")?;
    push_remark(out, ends_early(span), "ends before it starts")?;
    push_remark(out, is_repeated, "identifier is repeated")
}

/// Appends the identifier by which links come to the row, if its span is the first that has it.
#[tactic(auto, unfolding(crate::specs::Html::html_bytes, crate::specs::Rows::id_html))]
fn push_id<A: Allocator + Copy>(
    out: &mut String<A>,
    is_first: bool,
    id: &[u8],
) -> Result<(), OutOfMemory>
    ensures { OnOk result (Appends out.old out.new (id_html is_first id.now)) }
{
    if !is_first {
        return Ok(());
    }
    push_markup(out, "' id='s-")?;
    push_digits(out, id)
}

/// Appends the colour of the service, and the identifier.
fn push_class<A: Allocator + Copy>(
    out: &mut String<A>,
    span: &ViewSpan<A>,
    line: &Line,
) -> Result<(), OutOfMemory>
    ensures { OnOk result (Appends out.old out.new (class_html span.now line.now)) }
{
    push_markup(out, " class='row c")?;
    push_number(out, line.colour)?;
    push_if(out, is_error(&span.span), " bad")?;
    push_id(out, line.mark.is_first, &span.span.span_id)
}

/// A depth, counted from 1.
fn level_of(depth: usize) -> u64
    ensures { result ≡ level_of depth }
{
    (depth as u64).saturating_add(1)
}

/// Appends how deep a row is.
fn push_depth<A: Allocator>(out: &mut String<A>, depth: usize) -> Result<(), OutOfMemory>
    ensures { OnOk result (Appends out.old out.new (depth_html depth)) }
{
    push_markup(out, "' aria-level='")?;
    push_number(out, level_of(depth))?;
    push_markup(out, "' style='--d:")?;
    push_number(out, depth as u64)
}

/// Appends where the bar of a span begins, and how wide it is.
fn push_bar<A: Allocator>(
    out: &mut String<A>,
    span: &Span<A>,
    frame: Frame,
) -> Result<(), OutOfMemory>
    ensures { OnOk result (Appends out.old out.new (bar_html span.now frame)) }
{
    push_markup(out, ";--s:")?;
    push_number(out, share_of(frame, span.start_time_unix_nano))?;
    push_markup(out, ";--w:")?;
    push_number(out, width_of(span, frame))?;
    push_markup(out, "'>")
}

/// Appends the name of a span, or that it has none.
#[tactic(auto, unfolding(crate::specs::Html::html_bytes, crate::specs::Rows::name_html))]
fn push_name<A: Allocator>(out: &mut String<A>, name: &str) -> Result<(), OutOfMemory>
    ensures { OnOk result (Appends out.old out.new (name_html name.now)) }
{
    if name.len() == 0 {
        return push_markup(out, "<b class='blank'>(no name)</b>");
    }
    push_markup(out, "<b>")?;
    push_text(out, name)?;
    push_markup(out, "</b>")
}

/// Appends the name of a span, its service and what is remarked.
fn push_label<A: Allocator>(
    out: &mut String<A>,
    span: &ViewSpan<A>,
    place: Place,
    is_repeated: bool,
) -> Result<(), OutOfMemory>
    ensures { OnOk result (Appends out.old out.new (label_html span.now place is_repeated)) }
{
    push_markup(out, "<details><summary><span class='label'>")?;
    push_name(out, &span.span.name)?;
    push_markup(out, " <small>")?;
    push_text(out, service_of(span))?;
    push_markup(out, "</small>")?;
    push_remarks(out, &span.span, place, is_repeated)
}

/// Appends where an event is.
fn push_tick<A: Allocator>(
    out: &mut String<A>,
    frame: Frame,
    event: &Event<A>,
) -> Result<(), OutOfMemory>
    ensures { OnOk result (Appends out.old out.new (tick_html frame event.now)) }
{
    push_markup(out, "<i class='tick' style='--t:")?;
    push_number(out, share_of(frame, event.time_unix_nano))?;
    push_markup(out, "'></i>")
}

/// Appends where events are.
#[tactic(auto, unfolding(crate::specs::Html::html_bytes))]
fn push_ticks<A: Allocator>(
    out: &mut String<A>,
    frame: Frame,
    events: &[Event<A>],
) -> Result<(), OutOfMemory>
    ensures { OnOk result (Appends out.old out.new (each (tick_html frame) events.now)) }
{
    for event in events {
        push_tick(out, frame, event)?;
    }
    Ok(())
}

/// Appends the bar of a span, with a tick for each event, and how long the span took.
fn push_time<A: Allocator>(
    out: &mut String<A>,
    span: &Span<A>,
    frame: Frame,
) -> Result<(), OutOfMemory>
    ensures { OnOk result (Appends out.old out.new (time_html span.now frame)) }
{
    push_markup(out, "</span><span class='time'><i class='bar'></i>")?;
    push_ticks(out, frame, &span.events)?;
    push_markup(out, "</span><span class='took'>")?;
    push_duration(out, time_of(span))?;
    push_markup(out, "</span></summary><div class='panel'>")
}

/// Appends what is in the tag of a row.
fn push_tag<A: Allocator + Copy>(
    out: &mut String<A>,
    span: &ViewSpan<A>,
    line: &Line,
    frame: Frame,
) -> Result<(), OutOfMemory>
    ensures { OnOk result (Appends out.old out.new (tag_html span.now line.now frame)) }
{
    push_class(out, span, line)?;
    push_depth(out, line.row.depth)?;
    push_bar(out, &span.span, frame)
}

/// Appends the rest of the row of a span.
fn push_span<A: Allocator + Copy>(
    out: &mut String<A>,
    span: &ViewSpan<A>,
    line: &Line,
    frame: Frame,
) -> Result<(), OutOfMemory>
    ensures { OnOk result (Appends out.old out.new (span_html span.now line.now frame)) }
{
    push_tag(out, span, line, frame)?;
    push_label(out, span, line.row.place, line.mark.is_repeated)?;
    push_time(out, &span.span, frame)?;
    push_panel(out, span, line.row.place)?;
    push_markup(out, "</div></details></li>")
}

/// Appends the rest of a row, if its span is in the list.
#[tactic(auto, unfolding(crate::specs::Html::html_bytes))]
fn push_rest<A: Allocator + Copy>(
    out: &mut String<A>,
    spans: &[Arc<ViewSpan<A>, A>],
    line: &Line,
    frame: Frame,
) -> Result<(), OutOfMemory>
    ensures { OnOk result (Appends out.old out.new
        (span_rest (option_map arc_value (slice_get spans.now line.now.row.index))
        line.now frame)) }
{
    match spans.get(line.row.index) {
        Some(span) => push_span(out, span, line, frame),
        None => Ok(()),
    }
}

/// Appends a row.
pub(crate) fn push_line<A: Allocator + Copy>(
    out: &mut String<A>,
    spans: &[Arc<ViewSpan<A>, A>],
    line: &Line,
    frame: Frame,
) -> Result<(), OutOfMemory>
    ensures { OnOk result (Appends out.old out.new (line_html spans.now frame line.now)) }
{
    push_markup(out, "<li data-row='")?;
    push_number(out, line.row.index as u64)?;
    push_markup(out, "'")?;
    push_rest(out, spans, line, frame)
}
