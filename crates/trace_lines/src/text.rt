//! A trace as a text for a terminal, written in pieces.

ghost use Rattle.std.specs.Prelude.{◌≡◌, ℕ, true, false, List, [], ◌++◌, drop};
ghost use Rattle.std.specs.Prelude.{IfOk, OnOk, OnErr, string_bytes};
ghost use Rattle.trace_lines.specs.Comes.{is_planned, steps_left};
ghost use Rattle.trace_lines.specs.Parts.{IsBelow};
ghost use Rattle.trace_lines.specs.Plans.{tree_span, tree_view};
ghost use Rattle.trace_lines.specs.Texts.{DrawsText, StillWrites, lines_text, row_text};

use crate::line::Line;
use crate::rows::TraceLines;
use otlp_ids::OutOfMemory;
use std::alloc::{Allocator, Global};
use std::sync::Arc;
use trace_store::{ViewSpan, is_error};
use trace_tree::{Frame, TreeSpan, write_line};

/// A piece ends with the row with which it has so many bytes.
const PIECE: usize = 65_536;

/// How many columns the bars of the text of a trace have.
const TEXT_WIDTH: usize = 40;

/// A trace as a text for a terminal: a line for each row of its page, as `trace_tree::write_tree`
/// writes them.
///
/// The text owns its spans together with others, and is written in pieces, so that other work may
/// be done between them. All pieces, one after another, are the text.
#[derive(Drop)]
pub struct TraceText<A: Allocator + Copy = Global> {
    alloc: A,
    rows: TraceLines<A>,
    // The line with which it goes on.
    at: usize,
}

/// What the tree needs of a span.
fn tree_span<'a, A: Allocator>(span: &'a ViewSpan<A>) -> TreeSpan<'a>
    ensures { tree_view result ≡ tree_view (tree_span span.entry.now) }
{
    let is_error = is_error(&span.span);
    let span = &span.span;
    TreeSpan {
        span_id: &span.span_id,
        parent_span_id: &span.parent_span_id,
        name: &span.name,
        start_time_unix_nano: span.start_time_unix_nano,
        end_time_unix_nano: span.end_time_unix_nano,
        is_error,
    }
}

/// Appends the line of a row, if its span is in the list.
fn push_row<A: Allocator + Copy>(
    out: &mut String<A>,
    spans: &[Arc<ViewSpan<A>, A>],
    line: &Line,
    frame: Frame,
) -> Result<(), OutOfMemory>
    ensures { OnOk result (string_bytes out.new
        ≡ string_bytes out.old ++ row_text spans.now frame line.now) }
{
    let Some(span) = spans.get(line.row.index) else {
        return Ok(());
    };
    let span = tree_span(span);
    write_line(out, &span, &line.row, frame, TEXT_WIDTH)
}

/// Appends the rows of lines from one on, until the text has `PIECE` bytes or there are no more.
/// Answers the line with which to go on.
fn push_rows<A: Allocator + Copy>(
    out: &mut String<A>,
    spans: &[Arc<ViewSpan<A>, A>],
    lines: &[Line],
    frame: Frame,
    from: usize,
) -> Result<usize, OutOfMemory>
    ensures { IfOk result (λ next. string_bytes out.new
        ++ lines_text spans.now frame (drop next lines.now)
        ≡ string_bytes out.old ++ lines_text spans.now frame (drop from lines.now)) }
{
    let mut at = from;
    while at < lines.len() {
        if out.len() >= PIECE {
            return Ok(at);
        }
        push_row(out, spans, &lines[at], frame)?;
        at += 1;
    }
    Ok(at)
}

impl<A: Allocator + Copy> TraceText<A> {
    /// The text of the trace with these spans, of which nothing is planned or written. It takes no
    /// memory.
    pub fn new(alloc: A, spans: Vec<Arc<ViewSpan<A>, A>, A>) -> TraceText<A>
        ensures text { (bytes : List ℕ) → StillWrites result bytes → DrawsText spans.items bytes }
    {
        TraceText {
            alloc,
            rows: TraceLines::new(alloc, spans),
            at: 0,
        }
    }

    /// Appends the next lines, and notes with which to go on. Answers whether more follow.
    #[tactic(auto, using(crate::proofs::Texts::text_piece, crate::proofs::Texts::text_end))]
    fn write(&mut self, out: &mut Vec<u8, A>) -> Result<bool, OutOfMemory>
        ensures piece { is_planned self.old.rows ≡ true → OnOk result ((piece : List ℕ)
            × (out.new.items ≡ out.old.items ++ piece)
            × ((more : List ℕ) → StillWrites self.new more
            → StillWrites self.old (piece ++ more))) }
        ensures end { is_planned self.old.rows ≡ true
            → IfOk result (λ more. more ≡ false → StillWrites self.new []) }
        ensures err { OnErr result ((out.new.items ≡ out.old.items) × (self.new ≡ self.old)) }
    {
        let mut text = String::new(self.alloc);
        let (spans, lines) = (self.rows.spans(), self.rows.lines());
        let at = push_rows(&mut text, spans, lines, self.rows.frame(), self.at)?;
        let more = at < lines.len();
        out.extend_from_slice(text.as_bytes())?;
        self.at = at;
        Ok(more)
    }

    /// Appends the next piece of the text, of some 64 KiB and at most one line more, or appends
    /// nothing and plans some more of its rows. Answers whether more follow.
    ///
    /// # Errors
    ///
    /// `OutOfMemory` where memory was refused. Nothing was appended. The same piece is the next
    /// one, or planning begins again.
    pub fn next(&mut self, out: &mut Vec<u8, A>) -> Result<bool, OutOfMemory>
        ensures piece { OnOk result ((piece : List ℕ) × (out.new.items ≡ out.old.items ++ piece)
            × ((more : List ℕ) → StillWrites self.new more
            → StillWrites self.old (piece ++ more))) }
        ensures below { is_planned self.old.rows ≡ false
            → OnOk result (IsBelow (steps_left self.new.rows) (steps_left self.old.rows)) }
        ensures end { IfOk result (λ more. more ≡ false → StillWrites self.new []) }
        ensures err { OnErr result ((out.new.items ≡ out.old.items)
            × ((more : List ℕ) → StillWrites self.new more → StillWrites self.old more)) }
    {
        if self.rows.is_planned() {
            return self.write(out);
        }
        self.rows.go_on()?;
        Ok(true)
    }
}
