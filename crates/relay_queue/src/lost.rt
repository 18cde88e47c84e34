//! Spans that are lost.

/// How a span was lost.
#[derive(Clone, Copy, Debug, PartialEq, Eq)]
pub enum Loss {
    /// The collector refused its body for good, with this HTTP status.
    Refused(u16),
    /// What the collector replied could not be read.
    BadReply,
    /// No attempt succeeded, and it was the last one.
    GivenUp,
    /// Nobody hands it on any more.
    Abandoned,
}

/// A span that is lost, by its name.
#[derive(Debug, Drop)]
pub struct LostSpan {
    /// Its trace id, as it was received: 16 bytes, where it is a valid one.
    pub trace: Vec<u8>,
    /// Its span id, as it was received: 8 bytes, where it is a valid one.
    pub span: Vec<u8>,
    /// How it was lost.
    pub loss: Loss,
}
