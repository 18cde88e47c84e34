//! What a value was given, which only proofs see.
ghost use Rattle.std.specs.Prelude.{◌≡◌, List, [], ◌∷◌, ◌++◌};
ghost use base.Fml.{ftrue};
ghost use base.Stored.{coded_list};

use std::marker::{Model, PhantomData, Send};

/// All that something was given, in order. It has no bytes and owns nothing, and its calls do
/// nothing when a program runs.
pub(crate) struct History<T> {
    marker: PhantomData<T>,
    pub(crate) ghost items: { List T } by { coded_list T.code },
}

impl<T> Model for History<T> {
    ghost also_owns = { λ _. ftrue };
}

impl<T> History<T> {
    /// Of nothing.
    pub(crate) fn new() -> History<T>
        ensures { result.items ≡ [] }
    {
        History {
            marker: PhantomData,
        }
    }

    /// With one item more, after the others.
    pub(crate) fn and(&self, item: &T) -> History<T>
        ensures { result.items ≡ self.now.items ++ item.now ∷ [] }
    {
        let _ = item;
        History {
            marker: PhantomData,
        }
    }
}

impl<T> Drop for History<T> {
    fn drop(self) {
        let Self { marker: _ } = self;
    }
}

unsafe impl<T> Send for History<T> {}
