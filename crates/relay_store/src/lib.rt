//! What keeps a relay's bodies, for two threads under one lock (profile): the server's thread keeps
//! bodies, and the sender's thread hands them on.
//!
//! A [`Keeping`] is what is kept: a desk of bodies in memory, and a spool if there is one. Without
//! a spool bodies are kept at the desk. With one, a body is kept in the spool alone, and the desk
//! has the bodies of one file at most, which are read when it has none, however large the spool is.
//! Bodies that end are handed out ([`EndedBodies`]), and their spans are counted and named
//! ([`EndedSpans`]) before it is noted in the spool that they ended.
//!
//! The lock guards a `Keeping` with a book of accounts (`account_book`), as an [`Accounted`]. Three
//! share it, and each has an account of what it did: a [`SharedKeeper`] is what the server's service
//! calls, a [`RelaySender`] hands bodies on, and a [`Closer`] gives them up in the end. Nothing is
//! sent, named or freed under the lock. [`SharedKeeper::balance`] says what became of all bodies.
#![tactic(auto)]

mod account;
mod accounted;
mod closer;
mod counts;
mod holdings;
mod keeper;
mod keeping;
mod names;
mod parts;
mod sender;
mod waiting;
pub mod worked;

pub use account::{RelayBlank, SaidState};
pub use account_book::Naming;
pub use accounted::Accounted;
pub use closer::Closer;
pub use holdings::Holdings;
pub use keeper::{Poster, SharedKeeper};
pub use keeping::{EndedBodies, Keeping};
pub use names::{EndedSpans, MOST_NAMES};
pub use parts::RelayParts;
pub use sender::{RelaySender, Tried};
