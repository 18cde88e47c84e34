//! The lines of a tree.

ghost use Rattle.std.specs.Prelude.{◌≡◌, ◌≤◌, ◌++◌, OnOk, string_bytes};
ghost use Rattle.trace_tree.specs.Lines.{bar_text, label_text, line_text, row_text, time_text};
ghost use Rattle.trace_tree.specs.Lines.{tree_text};

use crate::bars::{Bar, bar_of, earliest_start, end_of, latest_end};
use crate::span::{Row, TreeSpan};
use crate::words::{push_duration, push_marks, push_name, push_remarks, push_spaces};
use otlp_ids::OutOfMemory;
use std::alloc::Allocator;

/// How many columns a name has, with the spaces before it.
const LABEL: usize = 40;

/// A row is indented by two spaces for each row above it, for at most this many of them.
const DEEPEST: usize = 12;

/// Appends the name of a span, indented by its depth.
#[tactic(auto, unfolding(crate::specs::Lines::label_text))]
fn push_label<A: Allocator + Copy>(
    out: &mut String<A>,
    name: &str,
    depth: usize,
) -> Result<(), OutOfMemory>
    ensures { OnOk result (string_bytes out.new
        ≡ string_bytes out.old ++ label_text name.now depth) }
{
    let indent = 2 * depth.min(DEEPEST);
    push_spaces(out, indent)?;
    push_name(out, name, LABEL - indent)
}

/// Appends a bar in its columns.
#[tactic(auto, unfolding(crate::specs::Lines::bar_text))]
fn push_bar<A: Allocator>(out: &mut String<A>, width: usize, bar: Bar) -> Result<(), OutOfMemory>
    requires first { bar.first ≤ bar.end }
    requires inside { bar.end ≤ width }
    ensures { OnOk result (string_bytes out.new
        ≡ string_bytes out.old ++ bar_text width bar) }
{
    push_spaces(out, bar.first)?;
    push_marks(out, bar.end - bar.first)?;
    push_spaces(out, width - bar.end)
}

/// The time that a trace takes.
#[derive(Debug, Clone, Copy, PartialEq, Eq)]
pub struct Frame {
    /// Its earliest start, in nanoseconds since 1970.
    pub from: u64,
    /// Its latest end, in nanoseconds since 1970.
    pub until: u64,
}

/// Appends the bar of a span in the time of its trace, between two `|`.
#[tactic(auto, unfolding(crate::specs::Lines::time_text))]
fn push_time<A: Allocator>(
    out: &mut String<A>,
    span: &TreeSpan,
    frame: Frame,
    width: usize,
) -> Result<(), OutOfMemory>
    ensures { OnOk result (string_bytes out.new
        ≡ string_bytes out.old ++ time_text span.now frame width) }
{
    out.push_str(" |")?;
    if width > 0 {
        let whole = frame.until.saturating_sub(frame.from);
        let start = span.start_time_unix_nano.saturating_sub(frame.from);
        let end = end_of(span).saturating_sub(frame.from);
        push_bar(out, width, bar_of(width, whole, start, end))?;
    }
    Ok(out.push_str("| ")?)
}

/// Appends the line of a span, as `write_tree` does for the row of it, in the time of its trace.
///
/// # Errors
///
/// `OutOfMemory` where the line could not be stored. It may then have been appended in part.
#[tactic(auto, unfolding(crate::specs::Lines::line_text))]
pub fn write_line<A: Allocator + Copy>(
    out: &mut String<A>,
    span: &TreeSpan,
    row: &Row,
    frame: Frame,
    width: usize,
) -> Result<(), OutOfMemory>
    ensures { OnOk result (string_bytes out.new
        ≡ string_bytes out.old ++ line_text span.now row.now frame width) }
{
    push_label(out, span.name, row.depth)?;
    push_time(out, span, frame, width)?;
    push_duration(out, end_of(span) - span.start_time_unix_nano)?;
    push_remarks(out, span.is_error, row.place)?;
    Ok(out.push('\n')?)
}

/// Appends the line of a row, if its span is in the list.
fn push_row<A: Allocator + Copy>(
    out: &mut String<A>,
    spans: &[TreeSpan],
    row: &Row,
    frame: Frame,
    width: usize,
) -> Result<(), OutOfMemory>
    ensures { OnOk result (string_bytes out.new
        ≡ string_bytes out.old ++ row_text spans.now frame width row.now) }
{
    match spans.get(row.index) {
        Some(span) => write_line(out, span, row, frame, width),
        None => Ok(()),
    }
}

/// Appends a line for each row (profile): the name of its span, indented by two spaces for each
/// row above it; a bar of `width` columns between two `|`, which shows when the span ran within
/// the time from the earliest start to the latest end of all spans; how long it ran, with three
/// digits; and what else is to be said of it: `error`, `parent not received` or `cycle`.
///
/// A name has 40 columns with its indentation, which is 24 columns at most. One that is longer is
/// cut and ends in `~`. Each character counts as one column. Controls, separators of lines and of
/// paragraphs, characters that format text, among them marks that turn its direction, and those
/// that show nothing (Default_Ignorable_Code_Point) are shown as `?`, by the tables of Unicode 18.
///
/// The bar of a span has at least one column, and is within the columns of all. A span that ends
/// before it starts is shown as one that ends when it starts. A row whose span isn't in the list
/// has no line.
///
/// # Errors
///
/// `OutOfMemory` where the text could not be stored. It may then have been appended in part.
pub fn write_tree<A: Allocator + Copy>(
    out: &mut String<A>,
    spans: &[TreeSpan],
    rows: &[Row],
    width: usize,
) -> Result<(), OutOfMemory>
    ensures { OnOk result (string_bytes out.new
        ≡ string_bytes out.old ++ tree_text spans.now width rows.now) }
{
    let frame = Frame {
        from: earliest_start(spans),
        until: latest_end(spans),
    };
    for row in rows {
        push_row(out, spans, row, frame, width)?;
    }
    Ok(())
}
