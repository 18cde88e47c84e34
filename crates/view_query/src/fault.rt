//! Why a search can't be read.

use thiserror::Error;

/// What is wrong with a term.
#[derive(Debug, Clone, Copy, PartialEq, Eq, Error)]
pub enum Why {
    /// There is no word, or none before a sign.
    #[error("a word is missing: write TEXT, or KEY=VALUE")]
    Word,
    /// A quote that begins a text isn't closed.
    #[error("this quote isn't closed: write a second one at the end of the text")]
    Open,
    /// A quote is inside a word, or something comes after the quote that closes a text.
    #[error("a quote begins or ends a whole text, as after the sign of KEY=TEXT")]
    Quote,
    /// The sign isn't one of the field's.
    #[error("this sign isn't for this field: texts take = != or :, durations > >= < or <=")]
    Sign,
    /// A number is wanted.
    #[error("a whole number below 2^64 is wanted, as in KEY>=500")]
    Number,
    /// A duration is wanted.
    #[error("a whole number with its unit is wanted, as in duration>100ms: ns us ms s m or h")]
    Duration,
}

/// A term that can't be read.
#[derive(Debug, Clone, Copy, PartialEq, Eq)]
pub struct Mistake {
    /// Where the term begins in the text, in bytes from 0.
    pub at: usize,
    /// What is wrong with it.
    pub why: Why,
}

/// Why a search can't be read.
#[derive(Debug, Clone, Copy, PartialEq, Eq)]
pub enum SearchFault {
    /// Memory was refused.
    OutOfMemory,
    /// The first term that can't be read.
    Mistake(Mistake),
}

/// Why a term can't be read.
#[derive(Clone, Copy)]
pub(crate) enum TermFault {
    /// Memory was refused.
    OutOfMemory,
    /// This is wrong with it.
    Wrong(Why),
}
