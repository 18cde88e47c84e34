//! What becomes of a span that is handed to the queue.

/// What became of a span that was handed in. A ticket is its number among the spans that were
/// admitted, from 0 on (profile).
#[derive(Debug, Clone, Copy, PartialEq, Eq)]
pub enum Admitted {
    /// It waits, under this ticket.
    Queued(u64),
    /// The queue was full: it is dropped, and the ledger names it, under this ticket.
    Full(u64),
    /// It came after the shutdown: it has no ticket, and is only counted.
    Late,
}
