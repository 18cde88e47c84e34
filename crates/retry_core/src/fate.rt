//! How a batch ends.

/// How a batch that was handed to an exporter ended (OTLP Specification, "OTLP/HTTP Response").
#[derive(Debug, Clone, Copy, PartialEq, Eq)]
pub enum Fate {
    /// It was taken whole.
    Delivered,
    /// It was taken but for this number of spans, which were rejected ("Partial Success").
    Partial(i64),
    /// It was refused for good, with this HTTP status.
    Refused(u16),
    /// The reply could not be read.
    BadReply,
    /// No attempt succeeded, and it was the last one.
    GivenUp,
    /// The worker that was to hand it on has left (profile).
    Abandoned,
}
