//! What comes of an attempt, and of its judgement.
use crate::sending::Sending;
use retry_core::{Fate, Next, Outcome};
use std::alloc::{Allocator, Global};

/// What a call of [`Sending::attempt`] comes to.
#[derive(Clone, Copy, Debug, PartialEq, Eq)]
pub enum Attempted {
    /// The body was handed to the exporter.
    Sent {
        /// Which attempt of the batch this was, from 1 on.
        attempt: u32,
        /// What came of it.
        outcome: Outcome,
    },
    /// The batch is to be sent again, and the moment for it has not come.
    Early,
    /// The outcome of the last attempt is to be judged first.
    Unjudged,
}

/// What a call of [`Sending::judge`] comes to.
#[derive(Drop)]
#[derive_where(Debug)]
pub enum Judged<A: Allocator = Global> {
    /// There is no outcome to be judged: the sending, as it was.
    Nothing(Sending<A>),
    /// Another attempt follows.
    Again {
        /// What is to be sent again.
        sending: Sending<A>,
        /// The moment from which on it may be, in nanoseconds since 1970.
        from: u64,
    },
    /// No other attempt follows.
    Over {
        /// What follows in its place.
        next: Next,
        /// How the batch ends.
        fate: Fate,
    },
}
