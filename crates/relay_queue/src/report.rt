//! What became of what a keeper kept.

/// How many were received, and what became of them.
#[derive(Clone, Copy, Debug, Default, PartialEq, Eq)]
pub struct Amounts {
    /// How many were received: their posts were answered 200.
    pub received: u64,
    /// How many of them are kept: they wait, or are being handed on.
    pub kept: u64,
    /// How many of them a collector took.
    pub delivered: u64,
    /// How many of them are lost.
    pub lost: u64,
}

/// What became of what a keeper kept.
#[derive(Clone, Copy, Debug, Default, PartialEq, Eq)]
pub struct Report {
    /// The bodies.
    pub bodies: Amounts,
    /// Their spans. Those that a collector rejected of a batch that it took are in none of the other
    /// numbers but `received`.
    pub spans: Amounts,
    /// How many spans a collector rejected of batches that it took (OTLP Specification, "Partial
    /// Success"). Which ones they are, no reply says.
    pub rejected_spans: u64,
    /// How many names of lost spans are not written where they are to be, since that failed.
    pub unwritten_names: u64,
    /// How many bytes the bodies take that are kept.
    pub waiting_bytes: u64,
    /// How often bodies were sent to a collector, with or without success.
    pub attempts: u64,
    /// How many requests in a row the collector refused whatever they had: none where the last one
    /// had another outcome.
    pub refusals: u64,
    /// Whether what keeps bodies has failed, as a disk may.
    pub has_failed: bool,
}
