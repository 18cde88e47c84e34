//! Rows of plain data, each with one holder. What is said of them lies in proofs alone.
ghost use Rattle.std.specs.Prelude.{◌≡◌, ℕ, List, [], ◌∷◌, ◌++◌, slice_set};
ghost use mathlib.Core.Option.{some};
ghost use lib.ListN.{get_elem?};
ghost use base.Share.{three_quarters};
ghost use base.Stored.{coded_list};
ghost use Rattle.atomic_table.specs.Seated.{seen, roster};

use std::marker::{Model, PhantomData};

/// What a new account says.
pub trait Opening<V> {
    ghost first: { V };
}

/// What an account says after a change that hears a value.
pub trait Change<V, T> {
    ghost after: { V → T → V };
}

/// All rows of a name, in the order in which they were made.
pub struct Rows<V> {
    marker: PhantomData<V>,
    pub ghost name: { ℕ },
    pub ghost rows: { List V } by { coded_list V.code },
}

impl<V> Model for Rows<V> {
    ghost also_owns = { λ b. roster V.row.coded.code b.name 0 b.rows };
}

/// The holder's side of one row.
pub struct Row<V> {
    marker: PhantomData<V>,
    pub ghost name: { ℕ },
    pub ghost number: { ℕ },
    pub ghost row: { V },
}

impl<V> Model for Row<V> {
    ghost also_owns = { λ a. seen V.row.coded.code a.name a.number three_quarters a.row };
}

impl<V> Rows<V> {
    /// No rows, under a name of their own.
    pub fn new<O: Opening<V>>() -> Rows<V>
        ensures { result.rows ≡ [] }
    {
        Rows {
            marker: PhantomData,
        }
    }

    /// Makes a row.
    pub fn open<O: Opening<V>>(&mut self) -> Row<V>
        ensures book { (self.new.name ≡ self.old.name)
            × (self.new.rows ≡ self.old.rows ++ O.first ∷ []) }
        ensures account { (result.name ≡ self.old.name) × (result.row ≡ O.first) }
    {
        Row {
            marker: PhantomData,
        }
    }

    /// Changes what a row says, here and on its holder's side.
    pub fn record<T, C: Change<V, T>>(&mut self, account: &mut Row<V>, told: &T)
        requires { account.old.name ≡ self.old.name }
        ensures held { get_elem? self.old.rows account.old.number ≡ some account.old.row }
        ensures book { (self.new.name ≡ self.old.name)
            × (self.new.rows ≡ slice_set self.old.rows account.old.number account.new.row) }
        ensures account { (account.new.name ≡ account.old.name)
            × (account.new.number ≡ account.old.number)
            × (account.new.row ≡ C.after account.old.row told.now) }
    {
        let _ = told;
    }
}

impl<V> Drop for Rows<V> {
    fn drop(self) {
        let Self { marker: _ } = self;
    }
}

impl<V> Drop for Row<V> {
    fn drop(self) {
        let Self { marker: _ } = self;
    }
}

unsafe impl<V> Send for Rows<V> {}

unsafe impl<V> Send for Row<V> {}
