//! Counts of what became of bodies.

/// The counts of a desk. By default they are those of a desk at which nothing was done.
#[derive(Debug, Clone, Copy, Default, PartialEq, Eq)]
pub struct BodyCounts {
    /// Bodies that were admitted.
    pub admitted: u64,
    /// Bodies that a collector took, as a whole or in part.
    pub delivered: u64,
    /// Bodies that are lost: they were refused alone or given up, their reply could not be read,
    /// or nobody sends them any more.
    pub lost: u64,
    /// Bodies that are kept: they wait, or are in the batch that is out.
    pub kept: u64,
    /// How much memory those that are kept take, in bytes: their lengths, and 96 more each.
    pub memory: usize,
}
