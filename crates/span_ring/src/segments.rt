//! The segments of a ring, but for the one that is out.
ghost use Rattle.std.specs.Prelude.{◌≡◌, ◌+◌, ◌<◌, ◌≤◌, ◌++◌, [], length, take, vec_capacity, IfOk};
ghost use Rattle.std.specs.VecDeque.{deque_capacity};
ghost use Rattle.span_ring.specs.Run.{empty_run};
ghost use Rattle.span_ring.specs.Segments.{AreFull, AreSpare, items_of};

use crate::segment::Segment;
use std::alloc::{AllocError, Allocator, Global};
use std::collections::VecDeque;
use std::{fmt, mem};

/// The segments of a ring, but for the one that is out.
#[derive(Drop)]
pub(crate) struct Segments<T, A: Allocator = Global> {
    /// Those with as many items as a batch, the oldest first.
    pub(crate) full: VecDeque<Segment<T, A>, A>,
    /// The one that takes the next item.
    pub(crate) filling: Segment<T, A>,
    /// Those without items.
    pub(crate) spare: Vec<Segment<T, A>, A>,
}

impl<T, A: Allocator + Copy> Segments<T, A> {
    /// One segment to be filled, and this many spare ones. It takes the memory for all.
    #[tactic(auto, using(crate::proofs::Lengths::segments))]
    pub(crate) fn with_room(
        alloc: A,
        spares: usize,
        batch: usize,
    ) -> Result<Segments<T, A>, AllocError>
    where
        T: Drop,
        ensures full { IfOk result (λ s. s.full.items ≡ []) }
        ensures filling { IfOk result (λ s. s.filling ≡ empty_run batch) }
        ensures spare { IfOk result (λ s. (length s.spare.items ≡ spares)
            × AreSpare batch s.spare.items) }
        ensures room { IfOk result (λ s. (deque_capacity s.full ≡ spares)
            × (vec_capacity s.spare ≡ spares)) }
    {
        let full = VecDeque::with_capacity(alloc, spares)?;
        let filling = Segment::with_room(alloc, batch)?;
        let mut spare = Vec::with_capacity(alloc, spares)?;
        for _ in 0..spares {
            spare.push_reserved(Segment::with_room(alloc, batch)?);
        }
        Ok(Segments {
            full,
            filling,
            spare,
        })
    }
}

impl<T, A: Allocator> Segments<T, A> {
    /// Where the segment that is being filled is full, puts it after the others that are, and a
    /// spare one in its place.
    #[tactic(auto, using(crate::proofs::Lengths::segments))]
    pub(crate) fn make_room(&mut self, batch: usize)
        requires batch { 0 < batch }
        requires all_full { AreFull batch self.old.full.items }
        requires filling { (length self.old.filling.items ≤ batch)
            × (self.old.filling.room ≡ batch) }
        requires all_spare { AreSpare batch self.old.spare.items }
        requires there { length self.old.filling.items ≡ batch → 0 < length self.old.spare.items }
        requires place { length self.old.filling.items ≡ batch
            → length self.old.full.items < deque_capacity self.old.full }
        ensures items { items_of self.new.full.items self.new.filling
            ≡ items_of self.old.full.items self.old.filling }
        ensures all_full { AreFull batch self.new.full.items }
        ensures filling { (length self.new.filling.items < batch)
            × (self.new.filling.room ≡ batch) }
        ensures all_spare { AreSpare batch self.new.spare.items }
        ensures count { length self.new.full.items + length self.new.spare.items
            ≡ length self.old.full.items + length self.old.spare.items }
        ensures full_capacity { deque_capacity self.new.full ≡ deque_capacity self.old.full }
        ensures spare_capacity { vec_capacity self.new.spare ≡ vec_capacity self.old.spare }
    {
        if self.filling.len() == batch {
            let next = self.spare.take_last();
            let filled = mem::replace(&mut self.filling, next);
            self.full.push_back_reserved(filled);
        }
    }

    /// Takes the first segment out that has items, where one has any.
    #[tactic(auto, using(crate::proofs::Lengths::segments))]
    pub(crate) fn detach_front(&mut self, batch: usize) -> Segment<T, A>
        requires all_full { AreFull batch self.old.full.items }
        requires filling { (length self.old.filling.items ≤ batch)
            × (self.old.filling.room ≡ batch) }
        requires all_spare { AreSpare batch self.old.spare.items }
        requires there { 0 < length self.old.spare.items }
        ensures items { items_of self.old.full.items self.old.filling
            ≡ result.items ++ items_of self.new.full.items self.new.filling }
        ensures front { result.items
            ≡ take batch (items_of self.old.full.items self.old.filling) }
        ensures room { result.room ≡ batch }
        ensures all_full { AreFull batch self.new.full.items }
        ensures filling { (length self.new.filling.items ≤ batch)
            × (self.new.filling.room ≡ batch) }
        ensures all_spare { AreSpare batch self.new.spare.items }
        ensures one_fewer { length self.new.full.items + length self.new.spare.items + 1
            ≡ length self.old.full.items + length self.old.spare.items }
        ensures full_capacity { deque_capacity self.new.full ≡ deque_capacity self.old.full }
        ensures spare_capacity { vec_capacity self.new.spare ≡ vec_capacity self.old.spare }
    {
        match self.full.pop_front() {
            Some(segment) => segment,
            None => {
                let next = self.spare.take_last();
                mem::replace(&mut self.filling, next)
            }
        }
    }
}

/// The items, first to last.
impl<T: fmt::Debug, A: Allocator> fmt::Debug for Segments<T, A> {
    fn fmt<W: fmt::Write>(&self, f: &mut fmt::Formatter<W>) -> fmt::Result {
        let mut list = f.debug_list();
        for segment in self.full.iter() {
            list.entries(segment.as_slice());
        }
        list.entries(self.filling.as_slice()).finish()
    }
}
