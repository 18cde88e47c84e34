//! How many spans were dropped, by reason.
ghost use Rattle.std.specs.Prelude.{◌≡◌, ◌+◌, ◌^◌, ◌<◌, false};
ghost use Rattle.model_span.specs.Dropped.{is_lost};
ghost use Rattle.model_desk.specs.Desks.{no_drops, with_drops};
ghost use Rattle.otlp_span.specs.Dropped.{reason_view};
ghost use Rattle.drop_ledger.specs.Counts.{FitTogether, count_in, drop_counts_view, sum_of};

use otlp_span::Reason;

/// How many spans were dropped for each reason (profile). Lost spans, whose batch was handed to an
/// exporter, aren't counted here.
#[derive(Debug, Clone, Copy, Default, PartialEq, Eq)]
pub struct DropCounts {
    /// As many waited as the queue holds.
    pub queue_full: u64,
    /// Memory was refused while their batch was encoded.
    pub encode_memory: u64,
    /// Their batch was larger than a body may be.
    pub too_large: u64,
    /// They were given up: the worker that was to hand them on has left.
    pub abandoned: u64,
}

impl DropCounts {
    /// None for any.
    pub fn new() -> DropCounts
        ensures { drop_counts_view result ≡ no_drops }
    {
        DropCounts {
            queue_full: 0,
            encode_memory: 0,
            too_large: 0,
            abandoned: 0,
        }
    }

    /// How many were dropped for this reason: 0 where it is that of lost spans.
    pub fn of(&self, reason: Reason) -> u64
        ensures { result ≡ count_in (drop_counts_view self.now) (reason_view reason) }
    {
        match reason {
            Reason::QueueFull => self.queue_full,
            Reason::EncodeMemory => self.encode_memory,
            Reason::TooLarge => self.too_large,
            Reason::Abandoned => self.abandoned,
            _ => 0,
        }
    }

    /// Counts this many more for this reason: none where it is that of lost spans.
    pub fn add(&mut self, reason: Reason, count: u64)
        requires { count_in (drop_counts_view self.old) (reason_view reason) + count < 2 ^ 64 }
        ensures { drop_counts_view self.new
            ≡ with_drops (reason_view reason) count (drop_counts_view self.old) }
    {
        match reason {
            Reason::QueueFull => self.queue_full += count,
            Reason::EncodeMemory => self.encode_memory += count,
            Reason::TooLarge => self.too_large += count,
            Reason::Abandoned => self.abandoned += count,
            _ => {}
        }
    }

    /// Counts all that others count.
    pub(crate) fn add_all(&mut self, others: DropCounts)
        requires { FitTogether (drop_counts_view self.old) (drop_counts_view others) }
        ensures { drop_counts_view self.new
            ≡ sum_of (drop_counts_view self.old) (drop_counts_view others) }
    {
        self.queue_full += others.queue_full;
        self.encode_memory += others.encode_memory;
        self.too_large += others.too_large;
        self.abandoned += others.abandoned;
    }

    /// Counts one less for this reason, or nothing less where it is that of lost spans.
    pub(crate) fn remove(&mut self, reason: Reason)
        requires { is_lost (reason_view reason) ≡ false
            → 0 < count_in (drop_counts_view self.old) (reason_view reason) }
        ensures { drop_counts_view self.old
            ≡ with_drops (reason_view reason) 1 (drop_counts_view self.new) }
    {
        match reason {
            Reason::QueueFull => self.queue_full -= 1,
            Reason::EncodeMemory => self.encode_memory -= 1,
            Reason::TooLarge => self.too_large -= 1,
            Reason::Abandoned => self.abandoned -= 1,
            _ => {}
        }
    }
}
