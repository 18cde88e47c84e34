//! How many names there are for each reason.
ghost use Rattle.std.specs.Prelude.{◌≡◌, []};
ghost use Rattle.otlp_span.specs.Dropped.{reason_view};
ghost use Rattle.drop_ledger.specs.ReasonCounts.{counts_of, one_more, reason_counts_view};

use otlp_span::Reason;

/// How many names there are for each reason (profile). Each count stops at 2^64 - 1.
#[derive(Debug, Clone, Copy, Default, PartialEq, Eq)]
pub struct ReasonCounts {
    /// Of spans that were dropped: there was no room where ended spans wait.
    pub queue_full: u64,
    /// Of spans that were dropped: memory was refused while their batch was encoded.
    pub encode_memory: u64,
    /// Of spans that were dropped: their batch was larger than a body may be.
    pub too_large: u64,
    /// Of spans that were dropped: they were given up, since the worker that was to hand them on
    /// has left.
    pub abandoned: u64,
    /// Of spans that were lost: the collector refused their batch for good, with any status.
    pub refused: u64,
    /// Of spans that were lost: the reply to their batch could not be read.
    pub bad_reply: u64,
    /// Of spans that were lost: no attempt to send their batch succeeded.
    pub given_up: u64,
    /// Of spans that were lost: their batch was handed to the exporter, and the worker that was to
    /// send it again has left.
    pub left_handed: u64,
}

impl ReasonCounts {
    /// None for any.
    pub fn new() -> ReasonCounts
        ensures { reason_counts_view result ≡ counts_of [] }
    {
        ReasonCounts {
            queue_full: 0,
            encode_memory: 0,
            too_large: 0,
            abandoned: 0,
            refused: 0,
            bad_reply: 0,
            given_up: 0,
            left_handed: 0,
        }
    }

    /// Counts one more for this reason.
    pub(crate) fn add(&mut self, reason: Reason)
        ensures { reason_counts_view self.new
            ≡ one_more (reason_view reason) (reason_counts_view self.old) }
    {
        match reason {
            Reason::QueueFull => self.queue_full = self.queue_full.saturating_add(1),
            Reason::EncodeMemory => self.encode_memory = self.encode_memory.saturating_add(1),
            Reason::TooLarge => self.too_large = self.too_large.saturating_add(1),
            Reason::Abandoned => self.abandoned = self.abandoned.saturating_add(1),
            Reason::Refused(_) => self.refused = self.refused.saturating_add(1),
            Reason::BadReply => self.bad_reply = self.bad_reply.saturating_add(1),
            Reason::GivenUp => self.given_up = self.given_up.saturating_add(1),
            Reason::LeftHanded => self.left_handed = self.left_handed.saturating_add(1),
        }
    }
}
