//! Items that left a ring together.
ghost use Rattle.std.specs.Prelude.{◌≡◌, ◌≤◌, ◌==◌, ◌++◌, [], length, option_to_list, IsNone, ◌↔◌};

use crate::places::Places;
use crate::room::{RoomOwner, attach};
use crate::segment::Segment;
use std::alloc::{Allocator, Global};
use std::fmt;
use std::marker::Model;

/// Items that left a ring together, in their order.
///
/// A run can't be dropped: it goes back to the ring by
/// [`SpanRing::give_back`](crate::SpanRing::give_back).
pub struct Run<T, A: Allocator = Global> {
    pub(crate) places: Places<T>,
    pub(crate) owner: RoomOwner<T, A>,
    // How many places have no item any more: the first ones.
    pub(crate) taken: usize,
    pub(crate) len: usize,
    pub(crate) room: usize,
}

impl<T, A: Allocator> Model for Run<T, A> {
    ghost use Rattle.std.specs.Prelude.{◌≡◌, ◌+◌, [], length, vec_capacity};
    ghost use Rattle.std.specs.Vec.{vec_ptr};
    ghost use Rattle.span_ring.specs.Run.{RunView};

    ghost Value = { RunView T };

    ghost view = { λ r. record { items = r.places.items; room = r.room } };

    ghost invariant = { λ r. (r.owner.items ≡ []) × (r.places.at ≡ vec_ptr r.owner)
        × (r.room ≡ vec_capacity r.owner) × (r.places.before ≡ r.taken)
        × (r.len ≡ length r.places.items) × (r.taken + r.len + r.places.after ≡ r.room) };
}

impl<T, A: Allocator> Run<T, A> {
    /// Drops the items, first to last.
    pub fn clear(&mut self)
    where
        T: Drop,
        ensures { self.new ≡ record self.old { items = [] } }
    {
        while let Some(item) = self.pop_front() {
            drop(item);
        }
    }

    /// The items, first to last.
    pub fn as_slice(&self) -> &[T]
        ensures { result.now ≡ self.now.items }
    {
        self.places.view(self.owner.base(), self.taken, self.len)
    }

    /// How many items the run has.
    pub fn len(&self) -> usize
        ensures { result ≡ length self.now.items }
    {
        self.len
    }

    /// Whether the run has no item.
    pub fn is_empty(&self) -> bool
        ensures { result ≡ (length self.now.items == 0) }
    {
        self.len == 0
    }

    /// How many items the run has room for: the size of a batch of its ring.
    pub fn room(&self) -> usize
        ensures room { result ≡ self.now.room }
        ensures within { length self.now.items ≤ result }
    {
        self.room
    }

    /// Takes the first item out, in constant time. `None` where there is none.
    pub fn pop_front(&mut self) -> Option<T>
        ensures none { IsNone result ↔ (self.old.items ≡ []) }
        ensures first { self.old.items ≡ option_to_list result ++ self.new.items }
        ensures room { self.new.room ≡ self.old.room }
    {
        if self.len == 0 {
            return None;
        }
        let base = self.owner.base();
        let item = self.places.read(base, self.taken);
        self.taken += 1;
        self.len -= 1;
        Some(item)
    }

    /// Drops the items that are left, and leaves a segment without items.
    pub(crate) fn into_spare(mut self) -> Segment<T, A>
    where
        T: Drop,
        ensures { result ≡ record self { items = [] } }
    {
        self.clear();
        let Run {
            places,
            owner,
            taken: _,
            len: _,
            room: _,
        } = self;
        Segment::of(attach(places, owner))
    }
}

impl<T: fmt::Debug, A: Allocator> fmt::Debug for Run<T, A> {
    fn fmt<W: fmt::Write>(&self, f: &mut fmt::Formatter<W>) -> fmt::Result {
        f.debug_list().entries(self.as_slice()).finish()
    }
}
