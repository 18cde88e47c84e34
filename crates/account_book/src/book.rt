//! Accounts under a name, as what they say.
ghost use Rattle.std.specs.Prelude.{◌≡◌, ℕ, List, [], ◌∷◌, ◌++◌, Contains, IfOk, OnErr, true};
ghost use Rattle.std.specs.Prelude.{vec_len};
ghost use Rattle.std.specs.List.{AllByRecursion};
ghost use Rattle.account_book.specs.Accounts.{open_of, Removes, Replaces};

use crate::rows::{Change, Opening, Row, Rows};
use std::alloc::{AllocError, Allocator};
use std::fmt;
use std::marker::{Brand, Model, PhantomData};

/// Which book it is. A program picks the name where it calls, with `Brand`, the function that works
/// with the book: it is that of a `Blank`. A type that names one book's accounts fits no other's.
pub trait Naming {
    ghost name: { ℕ };
}

impl Naming for Brand {
    ghost name = { 0 };
}

/// An account that is opened says this, and that it is open.
struct Opened<O>(PhantomData<O>);

impl<V, O: Opening<V>> Opening<(bool, V)> for Opened<O> {
    ghost use Rattle.std.specs.Prelude.{true};

    ghost first = { (true, O.first) };
}

/// What an account says is changed, and not whether it is open.
struct Changed<C>(PhantomData<C>);

impl<V, T, C: Change<V, T>> Change<(bool, V), T> for Changed<C> {
    ghost after = { λ row told. (row.0, C.after row.1 told) };
}

/// An account is closed, with what it said last.
struct Closed;

impl<V> Change<(bool, V), ()> for Closed {
    ghost use Rattle.std.specs.Prelude.{false};

    ghost after = { λ row told. (false, row.1) };
}

/// An account says what it said.
struct Unchanged;

impl<V> Change<V, ()> for Unchanged {
    ghost after = { λ said told. said };
}

/// A new book that no type names yet. In contracts it is its name.
#[derive(Drop)]
pub struct Blank<V> {
    rows: Rows<(bool, V)>,
}

impl<V> Model for Blank<V> {
    ghost Value = { ℕ };

    ghost view = { λ b. b.rows.name };

    ghost invariant = { λ b. b.rows.rows ≡ [] };
}

/// Writes the name of the type alone, since a blank has no bytes.
impl<V> fmt::Debug for Blank<V> {
    fn fmt<W: fmt::Write>(&self, f: &mut fmt::Formatter<W>) -> fmt::Result {
        f.debug_struct("Blank").finish_non_exhaustive()
    }
}

impl<V: Opening<V>> Default for Blank<V> {
    /// As `Blank::new`.
    fn default() -> Blank<V> {
        Blank::new()
    }
}

impl<V: Opening<V>> Blank<V> {
    /// A book without accounts, under a name of its own. It takes no memory. That its accounts can
    /// say something at all is shown by what one may say first.
    pub fn new() -> Blank<V> {
        Blank {
            rows: Rows::new::<Opened<V>>(),
        }
    }
}

impl<V> Blank<V> {
    /// The book, as the one that `J` names.
    pub fn named<J: Naming>(self) -> Book<J, V>
        requires { self ≡ J.name }
        ensures { result ≡ [] }
    {
        let Blank { rows } = self;
        Book {
            rows,
            of: PhantomData,
        }
    }
}

/// All accounts of a name. In contracts it is the list of what the open ones say, in the order in
/// which they were opened.
#[derive(Drop)]
pub struct Book<J: Naming, V> {
    rows: Rows<(bool, V)>,
    of: PhantomData<J>,
}

impl<J: Naming, V> Model for Book<J, V> {
    ghost Value = { List V };

    ghost view = { λ b. open_of b.rows.rows };

    ghost invariant = { λ b. b.rows.name ≡ J.name };
}

/// An open account. In contracts it is what it says. One that is dropped stays open in its book.
#[derive(Drop)]
pub struct Account<J: Naming, V> {
    row: Row<(bool, V)>,
    of: PhantomData<J>,
}

impl<J: Naming, V> Model for Account<J, V> {
    ghost Value = { V };

    ghost view = { λ a. a.row.row.1 };

    ghost invariant = { λ a. (a.row.name ≡ J.name) × (a.row.row.0 ≡ true) };
}

impl<J: Naming, V> Book<J, V> {
    /// Opens an account.
    pub fn open<O: Opening<V>>(&mut self) -> Account<J, V>
        ensures book { self.new ≡ self.old ++ O.first ∷ [] }
        ensures account { result ≡ O.first }
    {
        Account {
            row: self.rows.open::<Opened<O>>(),
            of: PhantomData,
        }
    }

    /// Opens this number of accounts, which say the same.
    ///
    /// # Errors
    ///
    /// `AllocError` where memory was refused; none was opened then.
    pub fn open_all<O: Opening<V>, A: Allocator>(
        &mut self,
        alloc: A,
        count: usize,
    ) -> Result<Vec<Account<J, V>, A>, AllocError>
        ensures book { IfOk result (λ opened. self.new ≡ self.old ++ opened.items) }
        ensures count { IfOk result (λ opened. vec_len opened ≡ count) }
        ensures first { IfOk result
            (λ opened. AllByRecursion (λ v. v ≡ O.first) opened.items) }
        ensures refused { OnErr result (self.new ≡ self.old) }
    {
        let mut opened = Vec::with_capacity(alloc, count)?;
        for _account in 0..count {
            opened.push_reserved(self.open::<O>());
        }
        Ok(opened)
    }

    /// Changes what an account says, by what it hears. The account is one of the open ones.
    pub fn record<T, C: Change<V, T>>(&mut self, account: &mut Account<J, V>, told: &T)
        ensures book { Replaces self.old account.old account.new self.new }
        ensures account { account.new ≡ C.after account.old told.now }
    {
        self.rows.record::<T, Changed<C>>(&mut account.row, told);
    }

    /// Shows that an account is one of the open ones. Nothing changes.
    pub fn recognize(&mut self, account: &mut Account<J, V>)
        ensures there { Contains self.old account.old }
        ensures book { self.new ≡ self.old }
        ensures account { account.new ≡ account.old }
    {
        self.record::<(), Unchanged>(account, &());
    }

    /// Closes an account, which is one of the open ones.
    pub fn close(&mut self, account: Account<J, V>)
        ensures { Removes self.old account self.new }
    {
        let Account { mut row, of: _ } = account;
        self.rows.record::<(), Closed>(&mut row, &());
    }
}
