//! An attempt, as an exporter shows it.
use retry_core::Outcome;
use std::alloc::{Allocator, Global};

/// An attempt to send a batch, as an exporter shows it (Trace SDK, "Export(batch)"; numbers:
/// profile).
#[derive(Drop)]
#[derive_where(Debug, PartialEq, Eq)]
pub struct Handed<A: Allocator = Global> {
    /// The number of the batch.
    pub number: u64,
    /// Which attempt of this batch it is, from 1 on.
    pub attempt: u32,
    /// The body that was to be sent.
    pub body: Vec<u8, A>,
    /// Its outcome.
    pub outcome: Outcome,
}
