//! The page of a trace, written in pieces.

ghost use Rattle.std.specs.Prelude.{◌≡◌, ◌<◌, ◌⊎◌, ℕ, true, false, List, ◌++◌, length, drop};
ghost use Rattle.std.specs.Prelude.{[], IfOk, OnOk, OnErr, string_bytes, vec_len};
ghost use Rattle.trace_tree.specs.Order.{ArePlaces};
ghost use Rattle.trace_lines.specs.Comes.{is_planned, steps_left};
ghost use Rattle.trace_lines.specs.Parts.{IsBelow};
ghost use Rattle.view_pages.specs.Html.{html_bytes};
ghost use Rattle.view_pages.specs.Pages.{DrawsPage};
ghost use Rattle.view_pages.specs.Pieces.{StillWrites, is_end, lines_html, page_html};
ghost use Rattle.view_pages.specs.Reading.{places_in};

use crate::page::{push_end, push_head};
use crate::row::push_line;
use otlp_ids::OutOfMemory;
use std::alloc::{Allocator, Global};
use std::sync::Arc;
use trace_lines::{Line, TraceLines};
use trace_store::ViewSpan;
use trace_tree::Frame;

/// A piece ends with the row with which it has so many bytes.
const PIECE: usize = 65_536;

/// How far a page is written.
#[derive(Clone, Copy)]
pub(crate) enum Stage {
    /// Nothing is.
    Head,
    /// What is above the rows, and so many rows.
    Rows(usize),
    /// All is.
    End,
}

/// Whether all is written.
fn is_end(stage: Stage) -> bool
    ensures { result ≡ is_end stage }
{
    match stage {
        Stage::Head | Stage::Rows(_) => false,
        Stage::End => true,
    }
}

/// The page of a trace (profile): a row for each span, in the order of `trace_tree::arrange`, each
/// with its name, its service, a bar in the time from the earliest start to the latest end, and how
/// long it took. An error, a parent that was not received, a cycle of parents, an end before the
/// start and an identifier that another span has are said in words; links lead to the first span in
/// the list that has an identifier. The rest of what is known of a span is in a panel that opens at
/// the row.
///
/// Each text of a span is written so that a browser reads exactly that text, and no part of it as
/// markup. So the rows that are read of the page, each by its `<li data-row='`, show each span of
/// the list once, whatever the spans say.
///
/// The page owns its spans together with others, and is written in pieces, so that other work may
/// be done between them. All pieces, one after another, are the page.
#[derive(Drop)]
pub struct TracePage<A: Allocator + Copy = Global> {
    alloc: A,
    trace: u128,
    rows: TraceLines<A>,
    stage: Stage,
}

/// Appends the rows of lines from one on, at least that one, until the text has `PIECE` bytes or
/// there are no more. Answers the line with which to go on.
fn push_lines<A: Allocator + Copy>(
    out: &mut String<A>,
    spans: &[Arc<ViewSpan<A>, A>],
    lines: &[Line],
    frame: Frame,
    from: usize,
) -> Result<usize, OutOfMemory>
    requires { from < length lines.now }
    ensures left { IfOk result (λ next. string_bytes out.new
        ++ html_bytes (lines_html spans.now frame (drop next lines.now))
        ≡ string_bytes out.old ++ html_bytes (lines_html spans.now frame (drop from lines.now))) }
    ensures more { OnOk result
        (length (string_bytes out.old) < length (string_bytes out.new)) }
{
    push_line(out, spans, &lines[from], frame)?;
    let mut at = from + 1;
    while at < lines.len() {
        if out.len() >= PIECE {
            return Ok(at);
        }
        push_line(out, spans, &lines[at], frame)?;
        at += 1;
    }
    Ok(at)
}

impl<A: Allocator + Copy> TracePage<A> {
    /// The page of the trace with this number and these spans, of which nothing is planned or
    /// written. It takes no memory.
    pub fn new(alloc: A, trace: u128, spans: Vec<Arc<ViewSpan<A>, A>, A>) -> TracePage<A>
        ensures page { (bytes : List ℕ) → StillWrites result bytes
            → DrawsPage trace spans.items bytes }
        ensures read_back { (bytes : List ℕ) → StillWrites result bytes
            → ArePlaces (length spans.items) (places_in bytes) }
    {
        let rows = TraceLines::new(alloc, spans);
        TracePage {
            alloc,
            trace,
            rows,
            stage: Stage::Head,
        }
    }

    /// The next piece, and how far the page is written with it, once its rows are planned.
    fn piece(&self) -> Result<(String<A>, Stage), OutOfMemory>
        ensures left { IfOk result (λ p. string_bytes p.0 ++ html_bytes (page_html self.now p.1)
            ≡ html_bytes (page_html self.now self.now.stage)) }
        ensures more { IfOk result (λ p. is_end p.1 ≡ false → 0 < length (string_bytes p.0)) }
    {
        let spans: &[Arc<ViewSpan<A>, A>] = self.rows.spans();
        let lines: &[Line] = self.rows.lines();
        let frame = self.rows.frame();
        let mut text = String::new(self.alloc);
        match self.stage {
            Stage::Head => {
                push_head(&mut text, self.trace, spans.len(), frame)?;
                Ok((text, Stage::Rows(0)))
            }
            Stage::Rows(at) if at < lines.len() => {
                let next = push_lines(&mut text, spans, lines, frame, at)?;
                Ok((text, Stage::Rows(next)))
            }
            Stage::Rows(_) => {
                push_end(&mut text)?;
                Ok((text, Stage::End))
            }
            Stage::End => Ok((text, Stage::End)),
        }
    }

    /// Appends the next piece, once its rows are planned. Answers whether more follow.
    #[tactic(auto, using(crate::proofs::Stages::page_piece))]
    fn write(&mut self, out: &mut Vec<u8, A>) -> Result<bool, OutOfMemory>
        ensures piece { is_planned self.old.rows ≡ true → OnOk result ((piece : List ℕ)
            × (out.new.items ≡ out.old.items ++ piece)
            × ((more : List ℕ) → StillWrites self.new more
            → StillWrites self.old (piece ++ more))) }
        ensures more { IfOk result (λ more. more ≡ true → vec_len out.old < vec_len out.new) }
        ensures end { is_planned self.old.rows ≡ true
            → IfOk result (λ more. more ≡ false → StillWrites self.new []) }
        ensures err { OnErr result ((out.new.items ≡ out.old.items) × (self.new ≡ self.old)) }
    {
        let (text, stage) = self.piece()?;
        out.extend_from_slice(text.as_bytes())?;
        self.stage = stage;
        Ok(!is_end(stage))
    }

    /// Appends the next piece of the page, of some 64 KiB and at most one row more, or appends
    /// nothing and plans some more of its rows (see [`TraceLines::go_on`]). Answers whether more
    /// follow.
    ///
    /// # Errors
    ///
    /// `OutOfMemory` where memory was refused. Nothing was appended. The same piece is the next
    /// one, or planning begins again.
    pub fn next(&mut self, out: &mut Vec<u8, A>) -> Result<bool, OutOfMemory>
        ensures piece { OnOk result ((piece : List ℕ) × (out.new.items ≡ out.old.items ++ piece)
            × ((more : List ℕ) → StillWrites self.new more
            → StillWrites self.old (piece ++ more))) }
        ensures more { IfOk result (λ more. more ≡ true → (vec_len out.old < vec_len out.new)
            ⊎ IsBelow (steps_left self.new.rows) (steps_left self.old.rows)) }
        ensures end { IfOk result (λ more. more ≡ false → StillWrites self.new []) }
        ensures err { OnErr result ((out.new.items ≡ out.old.items)
            × ((more : List ℕ) → StillWrites self.new more → StillWrites self.old more)) }
    {
        if self.rows.is_planned() {
            return self.write(out);
        }
        self.rows.go_on()?;
        Ok(true)
    }
}
