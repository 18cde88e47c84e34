//! Cycles of parents, and where they are opened.

ghost use Rattle.std.specs.Prelude.{◌≡◌, ◌≢◌, ℕ, ◌+◌, ◌<◌, IfOk, IfNone, IfSome, IsTrue, ◌↔◌};
ghost use Rattle.std.specs.Prelude.{length, replicate};
ghost use Rattle.trace_tree.specs.Cycles.{AreInList, IsTree, OpensCycle};
ghost use Rattle.trace_tree.specs.Walks.{AreOpenBefore, IsFresh, IsRemarked, IsRound, IsWalk};
ghost use Rattle.trace_tree.specs.Walks.{IsWalkUp, LeadsTo, is_unseen, mark_at};

use otlp_ids::OutOfMemory;
use std::alloc::Allocator;

/// What is known of a span while cycles are looked for.
#[derive(Clone, Copy)]
pub(crate) enum Mark {
    /// No walk came to it.
    Unseen,
    /// The walk from the span in this place came to it first.
    SeenFrom(usize),
    /// It is on a cycle.
    OnCycle,
}

/// Whether no walk came to a span with this mark.
fn is_unseen(mark: Mark) -> bool
    ensures value { result ≡ is_unseen mark }
    ensures cases { IsTrue result ↔ (mark ≡ Mark.Unseen) }
{
    matches!(mark, Mark::Unseen)
}

/// Whether the mark is that of the walk from this span.
fn is_seen_from(mark: Mark, start: usize) -> bool
    ensures { IsTrue result ↔ (mark ≡ Mark.SeenFrom start) }
{
    match mark {
        Mark::SeenFrom(from) => from == start,
        _ => false,
    }
}

/// Goes from a span to its parent, and so on, and marks each, up to one that has a mark or has no
/// parent. Where the last one has the mark of this walk it is on a cycle, and is the answer.
fn walk(parents: &[Option<usize>], marks: &mut [Mark], start: usize) -> Option<usize>
    requires in_list { AreInList parents.now }
    requires same_length { length marks.old ≡ length parents.now }
    requires start { start < length parents.now }
    requires fresh { IsFresh marks.old start }
    ensures up { IfNone result
        ((last : ℕ) × IsWalkUp parents.now marks.old marks.new start last) }
    ensures round { IfSome result (λ at. (at < length parents.now)
        × IsWalk parents.now marks.old marks.new start at
        × IsRound parents.now marks.new start at) }
{
    let mut at = start;
    while is_unseen(marks[at]) {
        marks[at] = Mark::SeenFrom(start);
        match parents[at] {
            Some(parent) => at = parent,
            None => return None,
        }
    }
    if is_seen_from(marks[at], start) {
        Some(at)
    } else {
        None
    }
}

/// The first span, in the list, of the cycle that this one is on. The spans of the cycle, which
/// have the mark of this walk, get that of a cycle.
fn first_of_cycle(
    parents: &[Option<usize>],
    marks: &mut [Mark],
    start: usize,
    entry: usize,
) -> usize
    requires in_list { AreInList parents.now }
    requires same_length { length marks.old ≡ length parents.now }
    requires entry { entry < length parents.now }
    requires round { IsRound parents.now marks.old start entry }
    ensures opens { OpensCycle parents.now result }
    ensures in_list { result < length parents.now }
    ensures leads { LeadsTo parents.now entry result }
    ensures marks { IsRemarked marks.old marks.new start }
{
    let mut first = entry;
    let mut at = entry;
    while is_seen_from(marks[at], start) {
        marks[at] = Mark::OnCycle;
        first = first.min(at);
        match parents[at] {
            Some(parent) => at = parent,
            None => return first,
        }
    }
    first
}

/// Walks from one more span, and opens the cycle that the walk ends on, if it is a new one.
fn open_from(
    parents: &[Option<usize>],
    tree: &mut [Option<usize>],
    marks: &mut [Mark],
    start: usize,
)
    requires in_list { AreInList parents.now }
    requires start { start < length parents.now }
    requires before { AreOpenBefore parents.now tree.old marks.old start }
    ensures { AreOpenBefore parents.now tree.new marks.new (start + 1) }
{
    let Some(entry) = walk(parents, marks, start) else {
        return;
    };
    let first = first_of_cycle(parents, marks, start, entry);
    tree[first] = None;
}

/// Marks of this many spans that no walk came to.
fn unseen<A: Allocator>(alloc: A, count: usize) -> Result<Vec<Mark, A>, OutOfMemory>
    ensures { IfOk result (λ marks. marks.items ≡ replicate count Mark.Unseen) }
{
    let mut marks = Vec::with_capacity(alloc, count)?;
    for _ in 0..count {
        marks.push_reserved(Mark::Unseen);
    }
    Ok(marks)
}

/// The parents in the tree: those of the spans, but for the first span of each cycle, which has
/// none.
pub(crate) fn open_cycles<A: Allocator + Copy>(
    alloc: A,
    parents: &[Option<usize>],
) -> Result<Vec<Option<usize>, A>, OutOfMemory>
    requires { AreInList parents.now }
    ensures { IfOk result (λ tree. IsTree parents.now tree.items) }
{
    let mut tree = Vec::from_slice(alloc, parents)?;
    let mut marks = unseen(alloc, parents.len())?;
    for start in 0..parents.len() {
        open_from(parents, &mut tree, &mut marks, start);
    }
    Ok(tree)
}
