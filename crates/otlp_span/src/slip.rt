//! The name of a span that isn't delivered, and the memory in which it is kept.
ghost use Rattle.std.specs.Prelude.{◌≡◌, ◌≤◌, ◌∷◌, ◌++◌, [], IfOk, IsTrue, drop, length};
ghost use Rattle.std.specs.Prelude.{option_map, slice_get, take};
ghost use Rattle.std.specs.Option.{ForSome, option_copied};
ghost use Rattle.otlp_span.specs.Dropped.{entry_view};
ghost use Rattle.otlp_span.specs.Slips.{entries_of, is_named, slip_count};

use crate::reason::Reason;
use otlp_ids::{OutOfMemory, SpanId, TraceId};
use std::alloc::{Allocator, Global};
use std::iter::FusedIterator;
use std::marker::Model;
use std::{fmt, mem};

/// The name of a span that was dropped or lost (profile).
#[derive(Debug, Clone, Copy, PartialEq, Eq)]
pub struct Entry {
    /// The trace that the span belongs to.
    pub trace: TraceId,
    /// The span's own identifier.
    pub span: SpanId,
    /// Its number among the spans that were admitted, from 0 on.
    pub ticket: u64,
    /// Why it isn't delivered.
    pub reason: Reason,
}

/// The memory in which the name of a dropped or lost span is kept, taken when the span starts: to
/// name it takes none (profile). Slips that name spans are linked into a chain. In contracts a slip
/// is the list of the names from it on, the newest first, and is empty while it names nothing.
///
/// A chain that is freed is taken apart one slip at a time, so that a long one doesn't use up the
/// stack.
#[cycle(slip)]
pub struct Slip<A: Allocator = Global> {
    node: Box<SlipNode<A>, A>,
}

/// What is on a slip.
#[cycle(slip)]
#[derive(Drop)]
pub(crate) enum SlipNode<A: Allocator> {
    /// Nothing yet.
    Blank,
    /// A name, and what is linked below it.
    Named(Entry, Option<Slip<A>>),
}

impl<A: Allocator> Model for Slip<A> {
    ghost use Rattle.std.specs.Prelude.{List, length};
    ghost use Rattle.model_span.specs.Dropped.{Entry};

    ghost Value = { List Entry };

    ghost use Rattle.otlp_span.specs.Slips.{IsSlipNode, node_entries};

    ghost view = { λ s. node_entries s.node.value };

    ghost invariant = { λ s. IsSlipNode s.node.value };

    ghost size = { length };

    ghost use Rattle.otlp_span.specs.SlipFalls.{depth-le-length};

    ghost size_decreases = { λ s h. depth-le-length A A.Allocator s.node.value };
}

impl<A: Allocator> Slip<A> {
    /// A slip that names nothing.
    ///
    /// # Errors
    ///
    /// `OutOfMemory` where there is no room for it.
    pub(crate) fn blank(alloc: A) -> Result<Slip<A>, OutOfMemory>
        ensures { IfOk result (λ slip. slip ≡ []) }
    {
        let node = Box::new(alloc, SlipNode::Blank)?;
        Ok(Slip { node })
    }

    /// Names a span on a slip that names nothing yet, above those that are named below. It takes no
    /// memory.
    pub fn link(mut self, entry: Entry, below: Option<Slip<A>>) -> Slip<A>
        requires blank { self ≡ [] }
        requires below_named { ForSome below (λ slip. IsTrue (is_named slip)) }
        ensures { result ≡ entry_view entry ∷ entries_of below }
    {
        *self.node = SlipNode::Named(entry, below);
        self
    }

    /// The name that was given last, and what was linked below it. The slip's memory is freed.
    pub fn unlink(self) -> (Entry, Option<Slip<A>>)
        requires { IsTrue (is_named self) }
        ensures all { self ≡ entry_view result.0 ∷ entries_of result.1 }
        ensures below_named { ForSome result.1 (λ slip. IsTrue (is_named slip)) }
    {
        let Slip { node } = self;
        match Box::into_inner(node) {
            SlipNode::Named(entry, below) => (entry, below),
            SlipNode::Blank => unreachable!(),
        }
    }

    /// Links a slip that names a span above other ones, and gives back what was linked below it. No
    /// memory is taken or freed.
    pub fn relink(&mut self, below: Option<Slip<A>>) -> Option<Slip<A>>
        requires named { IsTrue (is_named self.old) }
        requires below_named { ForSome below (λ slip. IsTrue (is_named slip)) }
        ensures slip { self.new ≡ take 1 self.old ++ entries_of below }
        ensures below { entries_of result ≡ drop 1 self.old }
        ensures was_named { ForSome result (λ slip. IsTrue (is_named slip)) }
    {
        match &mut *self.node {
            SlipNode::Named(_, linked) => mem::replace(linked, below),
            SlipNode::Blank => unreachable!(),
        }
    }

    /// The name that was given last, if there is one.
    pub fn newest(&self) -> Option<&Entry>
        ensures { option_map (λ e. entry_view e.now) result ≡ slice_get self.now 0 }
    {
        match &*self.node {
            SlipNode::Named(entry, _) => Some(entry),
            SlipNode::Blank => None,
        }
    }

    /// The names from this slip on, the newest first.
    pub fn iter(&self) -> Entries<'_, A>
        ensures { result ≡ self.now }
    {
        Entries::new(Some(self))
    }

    /// What is linked below, if anything. The slip's memory is freed.
    fn into_below(self) -> Option<Slip<A>>
        ensures { slip_count result ≤ length self }
    {
        let Slip { node } = self;
        match Box::into_inner(node) {
            SlipNode::Named(_, below) => below,
            SlipNode::Blank => None,
        }
    }
}

impl<A: Allocator> Drop for Slip<A> {
    fn drop(self) {
        let mut below = self.into_below();
        while let Some(slip) = below {
            below = slip.into_below();
        }
    }
}

impl<A: Allocator> fmt::Debug for Slip<A> {
    fn fmt<W: fmt::Write>(&self, f: &mut fmt::Formatter<W>) -> fmt::Result {
        f.debug_list().entries(self.iter()).finish()
    }
}

/// The names of a chain of slips, the newest first.
#[derive(Drop)]
pub struct Entries<'a, A: Allocator = Global> {
    next: Option<&'a Slip<A>>,
}

impl<'a, A: Allocator> Model for Entries<'a, A> {
    ghost use Rattle.std.specs.Prelude.{List};
    ghost use Rattle.std.specs.Option.{ForSome, option_copied};
    ghost use Rattle.model_span.specs.Dropped.{Entry};

    ghost Value = { List Entry };

    ghost use Rattle.otlp_span.specs.Slips.{entries_of};

    ghost view = { λ it. entries_of (option_copied it.next) };
}

impl<'a, A: Allocator> Entries<'a, A> {
    /// The names from this slip on, or none.
    pub fn new(newest: Option<&'a Slip<A>>) -> Entries<'a, A>
        ensures { result ≡ entries_of (option_copied newest.entry) }
    {
        Entries { next: newest }
    }
}

impl<'a, A: Allocator> Iterator for Entries<'a, A> {
    type Item = &'a Entry;

    ghost use Rattle.std.specs.Iterator.{YieldsFirstBy, item_count};
    ghost use Rattle.otlp_span.specs.Dropped.{entry_view};

    ghost next_gives = { YieldsFirstBy (λ entry. entry_view entry.now) (λ rest. rest) };

    ghost remaining = { item_count (λ rest. rest) };

    fn next(&mut self) -> Option<&'a Entry> {
        let slip = self.next?;
        let SlipNode::Named(entry, below) = &*slip.node else {
            return None;
        };
        self.next = below.as_ref();
        Some(entry)
    }
}

impl<'a, A: Allocator> FusedIterator for Entries<'a, A> {}

impl<'a, A: Allocator> fmt::Debug for Entries<'a, A> {
    fn fmt<W: fmt::Write>(&self, f: &mut fmt::Formatter<W>) -> fmt::Result {
        f.debug_list().entries(Entries::new(self.next)).finish()
    }
}
