//! The rows of a trace, planned in steps.

ghost use Rattle.std.specs.Prelude.{◌≡◌, ◌<◌, IfOk, List, length, map, take};
ghost use Rattle.std.specs.declared.sync.Arc.{Arc};
ghost use Rattle.trace_store.specs.declared.span.ViewSpan.{ViewSpan as Kept};
ghost use Rattle.trace_tree.specs.Steps.{AreFirst};
ghost use Rattle.trace_lines.specs.Lines.{line_for};
ghost use Rattle.trace_lines.specs.Parts.{IsBelow, IsPartOf, IsStep, left_in, left_of, more_of};
ghost use Rattle.trace_lines.specs.Plans.{AreGathered, tree_of, values};

use crate::gathered::{Gathered, STEP};
use crate::line::{Line, line_for};
use otlp_ids::OutOfMemory;
use std::alloc::Allocator;
use std::sync::Arc;
use trace_store::ViewSpan;
use trace_tree::{Arranging, Frame, Opened, Row};

/// How far the rows of a trace are planned.
#[derive(Drop)]
pub(crate) enum Planning<A: Allocator + Copy> {
    /// So many spans are gathered.
    Gathers {
        known: Gathered<A>,
        at: usize,
    },
    /// All are gathered, and the parents of so many are known.
    Relates {
        known: Gathered<A>,
        kins: Arranging<A>,
        at: usize,
    },
    /// All parents are known. The cycles of parents are to be opened.
    Opens {
        known: Gathered<A>,
        kins: Arranging<A>,
    },
    /// The spans are to be sorted.
    Sorts {
        known: Gathered<A>,
        opened: Opened<A>,
    },
    /// The spans are to be put into rows.
    Arranges {
        known: Gathered<A>,
        opened: Opened<A>,
    },
    /// So many rows have their lines.
    Marks {
        known: Gathered<A>,
        rows: Vec<Row, A>,
        lines: Vec<Line, A>,
        at: usize,
    },
    /// All have. What was gathered is let go.
    Forgets {
        known: Gathered<A>,
        lines: Vec<Line, A>,
    },
}

/// What a step leads to.
#[derive(Drop)]
pub(crate) enum Step<A: Allocator + Copy> {
    /// More is to be planned.
    More(Planning<A>),
    /// The line of each row, and the time that the trace takes.
    Done(Vec<Line, A>, Frame),
}

/// Some more spans are gathered, or all are.
fn gather<A: Allocator + Copy>(
    alloc: A,
    spans: &[Arc<ViewSpan<A>, A>],
    mut known: Gathered<A>,
    at: usize,
) -> Result<Planning<A>, OutOfMemory>
    ensures part { IsPartOf spans.now (Planning.Gathers known at)
        → IfOk result (IsPartOf spans.now) }
    ensures below { IfOk result (λ p. IsBelow (left_of spans.now p)
        (left_of spans.now (Planning.Gathers known at))) }
{
    if at >= spans.len() {
        return Ok(Planning::Relates {
            known,
            kins: Arranging::new(alloc),
            at: 0,
        });
    }
    let at = known.add_some(alloc, spans, at)?;
    Ok(Planning::Gathers { known, at })
}

/// Adds what some more spans go by, from a place on. Answers the place with which to go on.
fn relate_some<A: Allocator + Copy>(
    kins: &mut Arranging<A>,
    known: &Gathered<A>,
    spans: &[Arc<ViewSpan<A>, A>],
    from: usize,
) -> Result<usize, OutOfMemory>
    ensures first { AreGathered (values spans.now) known.now
        → AreFirst (tree_of (values spans.now)) from kins.old
        → IfOk result (λ at. AreFirst (tree_of (values spans.now)) at kins.new) }
    ensures more { from < length spans.now → IfOk result (λ at. from < at) }
{
    let until = spans.len().min(from.saturating_add(STEP));
    let mut at = from;
    while at < until {
        kins.add(known.kin_of(&spans[at]))?;
        at += 1;
    }
    Ok(at)
}

/// The parents of some more spans are known, or all are.
fn relate<A: Allocator + Copy>(
    spans: &[Arc<ViewSpan<A>, A>],
    known: Gathered<A>,
    mut kins: Arranging<A>,
    at: usize,
) -> Result<Planning<A>, OutOfMemory>
    ensures part { IsPartOf spans.now (Planning.Relates known kins at)
        → IfOk result (IsPartOf spans.now) }
    ensures below { IfOk result (λ p. IsBelow (left_of spans.now p)
        (left_of spans.now (Planning.Relates known kins at))) }
{
    if at >= spans.len() {
        return Ok(Planning::Opens { known, kins });
    }
    let at = relate_some(&mut kins, &known, spans, at)?;
    Ok(Planning::Relates { known, kins, at })
}

/// The cycles of parents are opened.
fn open<A: Allocator + Copy>(
    alloc: A,
    spans: &[Arc<ViewSpan<A>, A>],
    known: Gathered<A>,
    kins: Arranging<A>,
) -> Result<Planning<A>, OutOfMemory>
    ensures part { IsPartOf spans.now (Planning.Opens known kins)
        → IfOk result (IsPartOf spans.now) }
    ensures below { IfOk result (λ p. IsBelow (left_of spans.now p)
        (left_of spans.now (Planning.Opens known kins))) }
{
    let opened = kins.open(alloc)?;
    Ok(Planning::Sorts { known, opened })
}

/// The spans are sorted.
fn sort<A: Allocator + Copy>(
    spans: &[Arc<ViewSpan<A>, A>],
    known: Gathered<A>,
    mut opened: Opened<A>,
) -> Result<Planning<A>, OutOfMemory>
    ensures part { IsPartOf spans.now (Planning.Sorts known opened)
        → IfOk result (IsPartOf spans.now) }
    ensures below { IfOk result (λ p. IsBelow (left_of spans.now p)
        (left_of spans.now (Planning.Sorts known opened))) }
{
    opened.sort()?;
    Ok(Planning::Arranges { known, opened })
}

/// The spans are put into rows.
fn arrange<A: Allocator + Copy>(
    alloc: A,
    spans: &[Arc<ViewSpan<A>, A>],
    known: Gathered<A>,
    opened: Opened<A>,
) -> Result<Planning<A>, OutOfMemory>
    ensures part { IsPartOf spans.now (Planning.Arranges known opened)
        → IfOk result (IsPartOf spans.now) }
    ensures below { IfOk result (λ p. IsBelow (left_of spans.now p)
        (left_of spans.now (Planning.Arranges known opened))) }
{
    let rows = opened.rows(alloc)?;
    let lines = Vec::with_capacity(alloc, rows.len())?;
    Ok(Planning::Marks {
        known,
        rows,
        lines,
        at: 0,
    })
}

/// Appends the lines of some more rows, from one on. Answers the row with which to go on.
fn mark_some<A: Allocator + Copy>(
    lines: &mut Vec<Line, A>,
    known: &Gathered<A>,
    spans: &[Arc<ViewSpan<A>, A>],
    rows: &[Row],
    from: usize,
) -> Result<usize, OutOfMemory>
    ensures marked { AreGathered (values spans.now) known.now
        → lines.old.items ≡ map (line_for (values spans.now)) (take from rows.now)
        → IfOk result (λ at. lines.new.items
        ≡ map (line_for (values spans.now)) (take at rows.now)) }
    ensures more { from < length rows.now → IfOk result (λ at. from < at) }
{
    let until = rows.len().min(from.saturating_add(STEP));
    let mut at = from;
    while at < until {
        lines.push(line_for(spans, known, rows[at]))?;
        at += 1;
    }
    Ok(at)
}

/// Some more rows have their lines, or all have.
fn mark<A: Allocator + Copy>(
    spans: &[Arc<ViewSpan<A>, A>],
    known: Gathered<A>,
    rows: Vec<Row, A>,
    mut lines: Vec<Line, A>,
    at: usize,
) -> Result<Planning<A>, OutOfMemory>
    ensures part { IsPartOf spans.now (Planning.Marks known rows lines at)
        → IfOk result (IsPartOf spans.now) }
    ensures below { IfOk result (λ p. IsBelow (left_of spans.now p)
        (left_of spans.now (Planning.Marks known rows lines at))) }
{
    if at >= rows.len() {
        return Ok(Planning::Forgets { known, lines });
    }
    let at = mark_some(&mut lines, &known, spans, &rows, at)?;
    Ok(Planning::Marks {
        known,
        rows,
        lines,
        at,
    })
}

/// Some more of what was gathered is let go, or all is.
fn forget<A: Allocator + Copy>(
    spans: &[Arc<ViewSpan<A>, A>],
    mut known: Gathered<A>,
    lines: Vec<Line, A>,
) -> Step<A>
    ensures part { IsPartOf spans.now (Planning.Forgets known lines) → IsStep spans.now result }
    ensures below { IsBelow (left_in spans.now result)
        (left_of spans.now (Planning.Forgets known lines)) }
{
    if known.forget_some() {
        return Step::More(Planning::Forgets { known, lines });
    }
    Step::Done(lines, known.frame)
}

/// A step that more is planned after, if memory was there for it.
fn more<A: Allocator + Copy>(
    planned: Result<Planning<A>, OutOfMemory>,
) -> Result<Step<A>, OutOfMemory>
    ensures { result ≡ more_of planned }
{
    match planned {
        Ok(planning) => Ok(Step::More(planning)),
        Err(refused) => Err(refused),
    }
}

impl<A: Allocator + Copy> Planning<A> {
    /// Nothing is planned. It takes no memory.
    pub(crate) fn new(alloc: A) -> Planning<A>
        ensures { (spans : List (Arc (Kept A) A)) → IsPartOf spans result }
    {
        Planning::Gathers {
            known: Gathered::new(alloc),
            at: 0,
        }
    }

    /// Plans some more of the rows of these spans, in time for some 2,000 of them, or in a step for
    /// all that only moves numbers.
    ///
    /// # Errors
    ///
    /// `OutOfMemory` where memory was refused.
    pub(crate) fn step(
        self,
        alloc: A,
        spans: &[Arc<ViewSpan<A>, A>],
    ) -> Result<Step<A>, OutOfMemory>
        ensures part { IsPartOf spans.now self → IfOk result (IsStep spans.now) }
        ensures below { IfOk result
            (λ s. IsBelow (left_in spans.now s) (left_of spans.now self)) }
    {
        match self {
            Planning::Gathers { known, at } => more(gather(alloc, spans, known, at)),
            Planning::Relates { known, kins, at } => more(relate(spans, known, kins, at)),
            Planning::Opens { known, kins } => more(open(alloc, spans, known, kins)),
            Planning::Sorts { known, opened } => more(sort(spans, known, opened)),
            Planning::Arranges { known, opened } => more(arrange(alloc, spans, known, opened)),
            Planning::Marks {
                known,
                rows,
                lines,
                at,
            } => more(mark(spans, known, rows, lines, at)),
            Planning::Forgets { known, lines } => Ok(forget(spans, known, lines)),
        }
    }
}
