//! A segment of a ring: room for the items of one batch.
ghost use Rattle.std.specs.Prelude.{◌≡◌, ◌<◌, ◌++◌, ◌∷◌, [], length, vec_capacity, IfOk};
ghost use Rattle.span_ring.specs.Run.{empty_run};

use crate::places::Places;
use crate::room::{RoomOwner, attach, detach};
use crate::run::Run;
use std::alloc::{AllocError, Allocator, Global};
use std::marker::Model;

/// The room of a `Vec` without items, for as many as a batch has, used from the first place on: it
/// is taken once, and stays where it is.
pub(crate) struct Segment<T, A: Allocator = Global> {
    places: Places<T>,
    owner: RoomOwner<T, A>,
    len: usize,
    room: usize,
}

impl<T, A: Allocator> Model for Segment<T, A> {
    ghost use Rattle.std.specs.Prelude.{◌≡◌, ◌+◌, [], length, vec_capacity};
    ghost use Rattle.std.specs.Vec.{vec_ptr};
    ghost use Rattle.span_ring.specs.Run.{RunView};

    ghost Value = { RunView T };

    ghost view = { λ s. record { items = s.places.items; room = s.room } };

    ghost invariant = { λ s. (s.owner.items ≡ []) × (s.places.at ≡ vec_ptr s.owner)
        × (s.room ≡ vec_capacity s.owner) × (s.places.before ≡ 0)
        × (s.len ≡ length s.places.items) × (s.len + s.places.after ≡ s.room) };
}

impl<T, A: Allocator> Segment<T, A> {
    /// An empty segment. It takes the memory for this many items.
    pub(crate) fn with_room(alloc: A, room: usize) -> Result<Segment<T, A>, AllocError>
        ensures { IfOk result (λ segment. segment ≡ empty_run room) }
    {
        let vec = Vec::with_capacity(alloc, room)?;
        Ok(Segment::of(vec))
    }

    /// The room of the `Vec`, which has no items.
    pub(crate) fn of(vec: Vec<T, A>) -> Segment<T, A>
        requires { vec.items ≡ [] }
        ensures { result ≡ empty_run (vec_capacity vec) }
    {
        let room = vec.capacity();
        let (places, owner) = detach(vec);
        Segment {
            places,
            owner,
            len: 0,
            room,
        }
    }

    /// How many items it has.
    pub(crate) fn len(&self) -> usize
        ensures { result ≡ length self.now.items }
    {
        self.len
    }

    /// The items, first to last.
    pub(crate) fn as_slice(&self) -> &[T]
        ensures { result.now ≡ self.now.items }
    {
        self.places.view(self.owner.base(), 0, self.len)
    }

    /// Puts the item after the others.
    pub(crate) fn push(&mut self, item: T)
        requires { length self.old.items < self.old.room }
        ensures { self.new ≡ record self.old { items = self.old.items ++ item ∷ [] } }
    {
        let base = self.owner.base();
        self.places.write(base, self.len, item);
        self.len += 1;
    }

    /// The segment as a run, from which items are taken.
    pub(crate) fn into_run(self) -> Run<T, A>
        ensures { result ≡ self }
    {
        let Segment {
            places,
            owner,
            len,
            room,
        } = self;
        Run {
            places,
            owner,
            taken: 0,
            len,
            room,
        }
    }

    /// Frees the room of a segment without items.
    pub(crate) fn free(self)
        requires { self.items ≡ [] }
    {
        let Segment {
            places,
            owner,
            len: _,
            room: _,
        } = self;
        attach(places, owner).destroy_empty();
    }
}

impl<T: Drop, A: Allocator> Drop for Segment<T, A> {
    fn drop(self) {
        self.into_run().into_spare().free();
    }
}
