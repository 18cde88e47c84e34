//! A sink that keeps the newest names.
ghost use Rattle.std.specs.Prelude.{◌≡◌, ◌++◌, IfOk, length, map};
ghost use Rattle.std_alloc.specs.VecDeque.Iter.{deque_iter_rest};
ghost use Rattle.otlp_span.specs.Dropped.{entry_view};
ghost use Rattle.drop_ledger.specs.Named.{no_names, with_dropped, with_lost};
ghost use Rattle.drop_ledger.specs.Newest.{newest_of, older_of};
ghost use Rattle.drop_ledger.specs.ReasonCounts.{counts_of, reason_counts_view};

use crate::newest::Newest;
use crate::reason_counts::ReasonCounts;
use crate::sink::NameSink;
use otlp_ids::OutOfMemory;
use otlp_span::Entry;
use std::alloc::{Allocator, Global};
use std::collections::vec_deque::Iter;
use std::fmt;
use std::marker::Model;

/// How many names of dropped spans a sink keeps where nothing else is said, and as many of lost
/// ones (profile).
pub const DEFAULT_NAMES: usize = 65_536;

// No clause says the number itself.
const _: () = prove!(DEFAULT_NAMES == 65_536);

/// A sink that keeps the newest names of dropped spans, and the newest of lost ones, each within a
/// bound, and counts the older ones by reason (profile). All memory is taken by `new`: 40 bytes for
/// each name that may be kept.
#[derive(Drop)]
pub struct NewestNames<A: Allocator = Global> {
    dropped: Newest<Entry, A>,
    lost: Newest<Entry, A>,
    older: ReasonCounts,
}

impl<A: Allocator> Model for NewestNames<A> {
    ghost use Rattle.std.specs.Prelude.{◌≡◌, ◌++◌, map};
    ghost use Rattle.otlp_span.specs.Dropped.{entry_view};
    ghost use Rattle.drop_ledger.specs.Newest.{KeptNames, older_of};
    ghost use Rattle.drop_ledger.specs.ReasonCounts.{counts_of, reason_counts_view};

    ghost Value = { KeptNames };

    ghost view = { λ n. record {
      most = n.dropped.most;
      given = record {
        dropped = map entry_view n.dropped.given;
        lost = map entry_view n.lost.given;
      };
    } };

    ghost invariant = { λ n. (n.lost.most ≡ n.dropped.most)
        × (reason_counts_view n.older ≡ counts_of
        (older_of n.dropped.most (map entry_view n.dropped.given)
        ++ older_of n.dropped.most (map entry_view n.lost.given))) };
}

impl<A: Allocator + Copy> NewestNames<A> {
    /// A sink that was given nothing yet, and that keeps the `most` newest names of dropped spans,
    /// and as many of lost ones. With 0 it only counts.
    ///
    /// # Errors
    ///
    /// `OutOfMemory` if there is no room for twice as many names as `most`.
    pub fn new(alloc: A, most: usize) -> Result<NewestNames<A>, OutOfMemory>
        ensures { IfOk result (λ sink. sink ≡ record { most = most; given = no_names }) }
    {
        let dropped = Newest::new(alloc, most)?;
        let lost = Newest::new(alloc, most)?;
        Ok(NewestNames {
            dropped,
            lost,
            older: ReasonCounts::new(),
        })
    }
}

impl<A: Allocator> NewestNames<A> {
    /// How many names of dropped spans are kept at most, and how many of lost ones.
    pub fn most(&self) -> usize
        ensures { result ≡ self.now.most }
    {
        self.dropped.most()
    }

    /// How many names of dropped spans are kept.
    pub fn dropped_len(&self) -> usize
        ensures { result ≡ length (newest_of self.now.most self.now.given.dropped) }
    {
        self.dropped.len()
    }

    /// How many names of lost spans are kept.
    pub fn lost_len(&self) -> usize
        ensures { result ≡ length (newest_of self.now.most self.now.given.lost) }
    {
        self.lost.len()
    }

    /// The names of dropped spans that are kept, from the oldest to the newest.
    pub fn dropped(&self) -> Iter<'_, Entry>
        ensures { map entry_view (deque_iter_rest result)
            ≡ newest_of self.now.most self.now.given.dropped }
    {
        self.dropped.iter()
    }

    /// The names of lost spans that are kept, from the oldest to the newest.
    pub fn lost(&self) -> Iter<'_, Entry>
        ensures { map entry_view (deque_iter_rest result)
            ≡ newest_of self.now.most self.now.given.lost }
    {
        self.lost.iter()
    }

    /// How many names of both kinds are no longer kept, by reason.
    pub fn older(&self) -> ReasonCounts
        ensures { reason_counts_view result
            ≡ counts_of (older_of self.now.most self.now.given.dropped
            ++ older_of self.now.most self.now.given.lost) }
    {
        self.older
    }
}

impl<A: Allocator> NameSink for NewestNames<A> {
    ghost use Rattle.std.specs.Prelude.{Some};

    ghost named = { λ n. Some n.given };

    /// Keeps the name as the newest of a dropped span. If as many are kept as may be, the oldest of
    /// these goes, and is counted.
    fn take_dropped(&mut self, entry: Entry)
        ensures { self.new ≡ record self.old {
          given = with_dropped (entry_view entry) self.old.given;
        } }
    {
        match self.dropped.push(entry) {
            Some(older) => self.older.add(older.reason),
            None => {}
        }
    }

    /// Keeps the name as the newest of a lost span. If as many are kept as may be, the oldest of
    /// these goes, and is counted.
    fn take_lost(&mut self, entry: Entry)
        ensures { self.new ≡ record self.old {
          given = with_lost (entry_view entry) self.old.given;
        } }
    {
        match self.lost.push(entry) {
            Some(older) => self.older.add(older.reason),
            None => {}
        }
    }
}

impl<A: Allocator> fmt::Debug for NewestNames<A> {
    fn fmt<W: fmt::Write>(&self, f: &mut fmt::Formatter<W>) -> fmt::Result {
        f.debug_struct("NewestNames")
            .field("most", &self.most())
            .field("dropped", &self.dropped)
            .field("lost", &self.lost)
            .field("older", &self.older)
            .finish()
    }
}
