//! The settings of a desk of bodies.

/// How large batches are, and how much memory the bodies may take that are kept (profile).
#[derive(Debug, Clone, Copy, PartialEq, Eq)]
pub struct BodyConfig {
    /// How many bytes a batch has at most, unless it is a single body.
    pub batch_bytes: usize,
    /// How much memory, in bytes, all bodies that are kept may take: each counts with its length
    /// and 96 bytes more.
    pub memory_bytes: usize,
}
