//! Spans and rows.

/// A span as the tree needs it.
#[derive(Clone, Copy)]
pub struct TreeSpan<'a> {
    /// The identifier of the span.
    pub span_id: &'a [u8],
    /// The identifier of its parent; empty where the span has none, as the root of a trace.
    pub parent_span_id: &'a [u8],
    /// What the span is called.
    pub name: &'a str,
    /// When it started, in nanoseconds since 1970.
    pub start_time_unix_nano: u64,
    /// When it ended, in nanoseconds since 1970.
    pub end_time_unix_nano: u64,
    /// Whether its status is an error.
    pub is_error: bool,
}

/// Why a span has its place in the tree.
#[derive(Debug, Clone, Copy, PartialEq, Eq)]
pub enum Place {
    /// At the top: it has no parent.
    Root,
    /// Under its parent.
    Child,
    /// At the top: its parent isn't in the list.
    Orphan,
    /// At the top: it is an ancestor of itself, and the first span of that cycle in the list.
    Cycle,
}

/// A row of the tree.
#[derive(Debug, Clone, Copy, PartialEq, Eq)]
pub struct Row {
    /// The place of the span in the list, counted from 0.
    pub index: usize,
    /// How many spans are above it: 0 at the top, and one more than its parent's otherwise.
    pub depth: usize,
    /// Why it has its place.
    pub place: Place,
}
