//! The newest items of those that were given, within a bound.
ghost use Rattle.std.specs.Prelude.{◌≡◌, ◌++◌, ◌∷◌, [], IfOk, length};
ghost use Rattle.std.specs.Option.{option_to_list};
ghost use Rattle.std_alloc.specs.VecDeque.Iter.{deque_iter_rest};
ghost use Rattle.drop_ledger.specs.Newest.{newest_of, older_of};

use crate::history::History;
use otlp_ids::OutOfMemory;
use std::alloc::Allocator;
use std::collections::VecDeque;
use std::collections::vec_deque::Iter;
use std::fmt;
use std::marker::Model;

/// The newest items, within a bound. All memory is taken by `new`.
#[derive(Drop)]
pub(crate) struct Newest<T, A: Allocator> {
    kept: VecDeque<T, A>,
    most: usize,
    given: History<T>,
}

impl<T, A: Allocator> Model for Newest<T, A> {
    ghost use Rattle.std.specs.Prelude.{◌≡◌, ◌≤◌};
    ghost use Rattle.std_alloc.specs.VecDeque.{deque_capacity};
    ghost use Rattle.drop_ledger.specs.Newest as model;
    ghost use Rattle.drop_ledger.specs.Newest.{newest_of};

    ghost Value = { model.Newest T };

    ghost view = { λ n. record { most = n.most; given = n.given.items } };

    ghost invariant = { λ n. (n.kept.items ≡ newest_of n.most n.given.items)
        × (n.most ≤ deque_capacity n.kept) };
}

impl<T, A: Allocator> Newest<T, A> {
    /// Keeps nothing yet, and has room for `most` items.
    ///
    /// # Errors
    ///
    /// `OutOfMemory` if this room can't be had.
    pub(crate) fn new(alloc: A, most: usize) -> Result<Newest<T, A>, OutOfMemory>
    where
        T: Drop,
        ensures { IfOk result (λ newest. newest ≡ record { most = most; given = [] }) }
    {
        let kept = VecDeque::with_capacity(alloc, most)?;
        Ok(Newest {
            kept,
            most,
            given: History::new(),
        })
    }

    /// How many items are kept at most.
    pub(crate) fn most(&self) -> usize
        ensures { result ≡ self.now.most }
    {
        self.most
    }

    /// How many items are kept.
    pub(crate) fn len(&self) -> usize
        ensures { result ≡ length (newest_of self.now.most self.now.given) }
    {
        self.kept.len()
    }

    /// The items that are kept, the oldest first.
    pub(crate) fn iter(&self) -> Iter<'_, T>
        ensures { deque_iter_rest result ≡ newest_of self.now.most self.now.given }
    {
        self.kept.iter()
    }

    /// Keeps the item, and answers the one that is no longer kept, if there is one: the oldest, or
    /// the item itself where none is to be kept.
    pub(crate) fn push(&mut self, item: T) -> Option<T>
        ensures given { self.new ≡ record self.old { given = self.old.given ++ item ∷ [] } }
        ensures older { older_of self.old.most (self.old.given ++ item ∷ [])
            ≡ older_of self.old.most self.old.given ++ option_to_list result }
    {
        self.given = self.given.and(&item);
        if self.kept.len() < self.most {
            self.kept.push_back_reserved(item);
            return None;
        }
        let Some(oldest) = self.kept.pop_front() else {
            return Some(item);
        };
        self.kept.push_back_reserved(item);
        Some(oldest)
    }
}

impl<T: fmt::Debug, A: Allocator> fmt::Debug for Newest<T, A> {
    fn fmt<W: fmt::Write>(&self, f: &mut fmt::Formatter<W>) -> fmt::Result {
        f.debug_list().entries(self.iter()).finish()
    }
}
