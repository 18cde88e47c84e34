//! Accounts that a proof keeps (profile): a book knows what each open account says, and only a
//! caller that has both changes what it says. Neither has a byte, and their calls do nothing when a
//! program runs. So what lies under a lock, beside the book, is tied to what each thread knows of
//! it.
#![tactic(auto)]

mod book;
mod rows;

pub use book::{Account, Blank, Book, Naming};
pub use rows::{Change, Opening};
