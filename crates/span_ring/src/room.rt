//! The room of an empty `Vec`, taken apart: its address, and the right to free it.
ghost use Rattle.std.specs.Prelude.{◌≡◌, ◌+◌, [], vec_capacity};
ghost use Rattle.std.specs.Vec.{vec_ptr};
ghost use Rattle.std_alloc.specs.declared.vec.Vec.{Vec as VecOf};
ghost use Rattle.span_ring.specs.Room.{Wrapped, vec_code};
ghost use denote.RawPtr.{block_of, count_of};

use crate::places::Places;
use std::alloc::Allocator;
use std::marker::{Move, Owns, PhantomData, Send, Sync};

/// A `Vec` without items whose room is out, as `Places`: it has the address of the room, and the
/// right to free it.
pub(crate) struct RoomOwner<T, A: Allocator> {
    vec: Vec<T, A>,
}

impl<T, A: Allocator> Owns for RoomOwner<T, A> {
    ghost Value = { VecOf T A };

    ghost coded = { vec_code T.code A.code };

    ghost shr_at = { λ v p. (Wrapped T.row A.row A.Allocator).shr_at (v, tt)
        (block_of p) (count_of p) };
}

impl<T, A: Allocator> Move for RoomOwner<T, A> {
    ghost own_val = { λ v vs. (Wrapped T.row A.row A.Allocator).own_val (v, tt) vs };
}

// `Send` and `Sync` where the allocator is: the items are not here.
unsafe impl<T, A: Allocator + Send> Send for RoomOwner<T, A> {}

unsafe impl<T, A: Allocator + Sync> Sync for RoomOwner<T, A> {}

impl<T, A: Allocator> RoomOwner<T, A> {
    /// The address of the first place.
    pub(crate) fn base(&self) -> *const T
        requires { self.now.items ≡ [] }
        ensures { result ≡ vec_ptr self.now }
    {
        self.vec.as_ptr()
    }
}

/// Takes the room out of a `Vec` without items.
pub(crate) fn detach<T, A: Allocator>(vec: Vec<T, A>) -> (Places<T>, RoomOwner<T, A>)
    requires { vec.items ≡ [] }
    ensures places { (result.0.at ≡ vec_ptr vec) × (result.0.before ≡ 0)
        × (result.0.items ≡ []) × (result.0.after ≡ vec_capacity vec) }
    ensures owner { result.1 ≡ vec }
{
    (Places { mark: PhantomData }, RoomOwner { vec })
}

/// Puts the room back, which has no items any more.
pub(crate) fn attach<T, A: Allocator>(places: Places<T>, owner: RoomOwner<T, A>) -> Vec<T, A>
    requires at { places.at ≡ vec_ptr owner }
    requires items { places.items ≡ [] }
    requires whole { places.before + places.after ≡ vec_capacity owner }
    requires empty { owner.items ≡ [] }
    ensures { result ≡ owner }
{
    let Places { mark: _ } = places;
    let RoomOwner { vec } = owner;
    vec
}
