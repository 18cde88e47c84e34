//! The outcome of an attempt to send a batch.

/// When a collector asks to be tried again. (RFC 9110, "Retry-After")
#[derive(Clone, Copy, Debug, PartialEq, Eq)]
pub enum RetryAfter {
    /// In this number of seconds.
    Seconds(u64),
    /// At this moment, in seconds since 1970.
    Date(u64),
}

/// The outcome of an attempt. (OTLP Specification, "OTLP/HTTP Response")
#[derive(Clone, Copy, Debug, PartialEq, Eq)]
pub enum Outcome {
    /// The collector took the whole batch, as far as it says. ("Full Success")
    Delivered,
    /// It took the batch, but rejected this number of spans. ("Partial Success")
    Partial(i64),
    /// A status after which the batch is to be sent again. ("Retryable Response Codes")
    Later {
        /// The HTTP status.
        status: u16,
        /// When it asked to be tried again, if it did.
        after: Option<RetryAfter>,
    },
    /// Any other status, after which the batch isn't sent again. ("All Other Responses")
    Refused(u16),
    /// No whole head of a reply came, or memory to keep it was refused. (profile)
    NoReply,
    /// What came in place of a head can't begin one, or the head is too large. (profile)
    Bad,
}
