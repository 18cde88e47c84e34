//! What is around the rows of the page of a trace.

ghost use Rattle.std.specs.Prelude.{OnOk};
ghost use Rattle.view_pages.specs.Html.{Appends};
ghost use Rattle.view_pages.specs.Pages.{axis_html, counts_html, end_html, head_html, start_html};
ghost use Rattle.view_pages.specs.Pages.{title_html};

use crate::html::{push_digits, push_markup, push_number};
use crate::times::push_duration;
use otlp_ids::OutOfMemory;
use std::alloc::Allocator;
use trace_tree::Frame;

/// Appends what each page begins with, up to its title.
pub(crate) fn push_start<A: Allocator>(out: &mut String<A>) -> Result<(), OutOfMemory>
    ensures { OnOk result (Appends out.old out.new start_html) }
{
    push_markup(out, "<!doctype html><html lang='en'><meta charset='utf-8'>")?;
    push_markup(
        out,
        "<meta name='viewport' content='width=device-width,initial-scale=1'>",
    )?;
    push_markup(out, "<link rel='stylesheet' href='/style.css'>")?;
    push_markup(out, "<script src='/view.js' defer></script><title>")
}

/// Appends the title of the page of a trace.
fn push_title<A: Allocator + Copy>(out: &mut String<A>, trace: &[u8]) -> Result<(), OutOfMemory>
    ensures { OnOk result (Appends out.old out.new (title_html trace.now)) }
{
    push_start(out)?;
    push_markup(out, "Trace ")?;
    push_digits(out, trace)?;
    push_markup(
        out,
        "</title><header><a href='/'>All traces</a><h1>Trace <code>",
    )?;
    push_digits(out, trace)?;
    push_markup(out, "</code></h1>")
}

/// Appends how many spans a trace has, how long it took, and where it is shown as text.
fn push_counts<A: Allocator + Copy>(
    out: &mut String<A>,
    trace: &[u8],
    count: usize,
    took: u64,
) -> Result<(), OutOfMemory>
    ensures { OnOk result (Appends out.old out.new (counts_html trace.now count took)) }
{
    push_markup(out, "<p>")?;
    push_number(out, count as u64)?;
    push_markup(out, " spans in ")?;
    push_duration(out, took)?;
    push_markup(out, ". <a href='/trace/")?;
    push_digits(out, trace)?;
    push_markup(out, ".txt'>As text</a></p></header><main>")
}

/// Appends the axis of the bars: the time from the earliest start, at each quarter of the whole.
fn push_axis<A: Allocator>(out: &mut String<A>, whole: u64) -> Result<(), OutOfMemory>
    ensures { OnOk result (Appends out.old out.new (axis_html whole)) }
{
    push_markup(out, "<div class='axis'><span>0</span><span>")?;
    push_duration(out, whole / 4)?;
    push_markup(out, "</span><span>")?;
    push_duration(out, whole / 2)?;
    push_markup(out, "</span><span>")?;
    push_duration(out, whole - whole / 4)?;
    push_markup(out, "</span><span>")?;
    push_duration(out, whole)?;
    push_markup(out, "</span></div>")
}

/// Appends what is said above the rows of a trace of so many spans.
pub(crate) fn push_head<A: Allocator + Copy>(
    out: &mut String<A>,
    trace: u128,
    count: usize,
    frame: Frame,
) -> Result<(), OutOfMemory>
    ensures { OnOk result (Appends out.old out.new (head_html trace count frame)) }
{
    let digits = trace.to_be_bytes();
    let whole = frame.until.saturating_sub(frame.from);
    push_title(out, &digits)?;
    push_counts(out, &digits, count, whole)?;
    push_axis(out, whole)?;
    push_markup(out, "<ol class='rows'>")
}

/// Appends what comes after the rows of a trace.
pub(crate) fn push_end<A: Allocator>(out: &mut String<A>) -> Result<(), OutOfMemory>
    ensures { OnOk result (Appends out.old out.new end_html) }
{
    push_markup(out, "</ol></main></html>")
}
