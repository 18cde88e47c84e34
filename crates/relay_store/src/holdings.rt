//! What is kept, as a balance answers it.

/// What [`SharedKeeper::balance`](crate::SharedKeeper::balance) answers.
#[derive(Clone, Copy, Debug, PartialEq, Eq)]
pub struct Holdings {
    /// Whether bodies are kept in a spool.
    pub is_spooled: bool,
    /// Whether there is a spool that failed, also where it was opened again since.
    pub has_ever_failed: bool,
    /// How many bodies are kept. With a spool there may be fewer: a record that is damaged takes a
    /// number too, and before the first [`refill`](crate::RelaySender::refill) those of an earlier
    /// run count.
    pub kept: u64,
}
