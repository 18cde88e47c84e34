//! The places of a segment: how items are put into them, read and taken out.
ghost use Rattle.std.specs.Prelude.{◌≡◌, ℕ, ◌+◌, ◌-◌, ◌<◌, ◌++◌, ◌∷◌, [], List, length, drop};
ghost use denote.RawPtr.{Ptr};
ghost use Rattle.span_ring.specs.Places.{places_own, places_lent};

use std::marker::{Model, PhantomData, Send, Sync};
use std::slice;

/// The places of a segment: those whose items are gone, then items side by side, then empty ones.
///
/// It takes no memory, and has no pointer: each call is handed the address of the first place.
pub(crate) struct Places<T> {
    pub(crate) mark: PhantomData<*const T>,
    pub(crate) ghost at: { Ptr },
    pub(crate) ghost before: { ℕ },
    pub(crate) ghost items: { List T },
    pub(crate) ghost after: { ℕ },
}

impl<T> Model for Places<T> {
    ghost also_owns = { λ p. places_own T.row p.at p.before p.items p.after };

    ghost also_shares = { λ p _ κ. places_lent T.row p.at p.before p.items p.after κ };
}

// `Send` and `Sync` where the items are.
unsafe impl<T: Send> Send for Places<T> {}

unsafe impl<T: Sync> Sync for Places<T> {}

impl<T> Places<T> {
    /// Puts the item into the first empty place after the others.
    pub(crate) fn write(&mut self, base: *const T, index: usize, item: T)
        requires at { base ≡ self.old.at }
        requires index { index ≡ self.old.before + length self.old.items }
        requires room { 0 < self.old.after }
        ensures { self.new ≡ record self.old {
          items = self.old.items ++ item ∷ [];
          after = self.old.after - 1;
        } }
    {
        unsafe { base.cast_mut().add(index).write(item) }
    }

    /// Takes the first item out of its place.
    pub(crate) fn read(&mut self, base: *const T, index: usize) -> T
        requires at { base ≡ self.old.at }
        requires index { index ≡ self.old.before }
        requires some { 0 < length self.old.items }
        ensures item { self.old.items ≡ result ∷ drop 1 self.old.items }
        ensures rest { self.new ≡ record self.old {
          before = self.old.before + 1;
          items = drop 1 self.old.items;
        } }
    {
        unsafe { base.add(index).read() }
    }

    /// The items.
    pub(crate) fn view(&self, base: *const T, index: usize, len: usize) -> &[T]
        requires at { base ≡ self.now.at }
        requires index { index ≡ self.now.before }
        requires len { len ≡ length self.now.items }
        ensures { result.now ≡ self.now.items }
    {
        unsafe { slice::from_raw_parts(base.add(index), len) }
    }
}
