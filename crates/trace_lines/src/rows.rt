//! The spans of a trace, and what is known of each of its rows.

ghost use Rattle.std.specs.Prelude.{◌≡◌, List, OnOk, true, false};
ghost use Rattle.trace_tree.specs.declared.draw.Frame.{Frame as Time};
ghost use Rattle.trace_lines.specs.Comes.{MayHave, is_planned, steps_left};
ghost use Rattle.trace_lines.specs.Parts.{IsBelow};
ghost use Rattle.trace_lines.specs.Plans.{IsPlan};
ghost use Rattle.trace_lines.specs.declared.line.Line.{Line as Lined};

use crate::line::Line;
use crate::planning::{Planning, Step};
use crate::times::no_time;
use otlp_ids::OutOfMemory;
use std::alloc::{Allocator, Global};
use std::sync::Arc;
use trace_store::ViewSpan;
use trace_tree::Frame;

/// The spans of a trace, owned together with others, and what is known of each of its rows, in the
/// order of `trace_tree::arrange`. At first nothing is: `go_on` plans some more, until it
/// `is_planned`, so that other work may be done between the steps.
#[derive(Drop)]
pub struct TraceLines<A: Allocator + Copy = Global> {
    alloc: A,
    spans: Vec<Arc<ViewSpan<A>, A>, A>,
    // `None` once all is planned.
    planning: Option<Planning<A>>,
    lines: Vec<Line, A>,
    frame: Frame,
}

impl<A: Allocator + Copy> TraceLines<A> {
    /// Those of these spans, of which nothing is planned. It takes no memory.
    pub fn new(alloc: A, spans: Vec<Arc<ViewSpan<A>, A>, A>) -> TraceLines<A>
        ensures plan { (lines : List Lined) (frame : Time) → MayHave result lines frame
            → IsPlan spans.items lines frame }
        ensures spans { result.spans ≡ spans }
    {
        let planning = Planning::new(alloc);
        TraceLines {
            alloc,
            spans,
            planning: Some(planning),
            lines: Vec::new(alloc),
            frame: no_time(),
        }
    }

    /// Plans some more, unless all is planned: what some 2,000 spans or rows need, or one of three
    /// steps for all spans, which only move numbers. What it may come to then, it might come to
    /// before.
    ///
    /// # Errors
    ///
    /// `OutOfMemory` where memory was refused. What was planned is given back then, and planning
    /// begins again.
    pub fn go_on(&mut self) -> Result<(), OutOfMemory>
        ensures comes { (lines : List Lined) (frame : Time) → MayHave self.new lines frame
            → MayHave self.old lines frame }
        ensures spans { self.new.spans ≡ self.old.spans }
        ensures planned { is_planned self.old ≡ true → self.new ≡ self.old }
        ensures below { is_planned self.old ≡ false
            → OnOk result (IsBelow (steps_left self.new) (steps_left self.old)) }
    {
        let Some(planning) = self.planning.take() else {
            return Ok(());
        };
        self.planning = Some(Planning::new(self.alloc));
        let step = planning.step(self.alloc, &self.spans)?;
        match step {
            Step::More(planning) => self.planning = Some(planning),
            Step::Done(lines, frame) => {
                self.planning = None;
                self.lines = lines;
                self.frame = frame;
            }
        }
        Ok(())
    }

    /// Whether all is planned.
    pub fn is_planned(&self) -> bool
        ensures { result ≡ is_planned self.now }
    {
        self.planning.is_none()
    }

    /// Its spans.
    pub fn spans(&self) -> &[Arc<ViewSpan<A>, A>]
        ensures { result.now ≡ self.now.spans.items }
    {
        &self.spans
    }

    /// The line of each row, once all is planned.
    pub fn lines(&self) -> &[Line]
        ensures { result.now ≡ self.now.lines.items }
    {
        &self.lines
    }

    /// The time from the earliest start to the latest end, once all is planned.
    pub fn frame(&self) -> Frame
        ensures { result ≡ self.now.frame }
    {
        self.frame
    }
}
