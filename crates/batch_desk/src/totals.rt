//! Counts of what became of spans and batches.
ghost use Rattle.std.specs.Prelude.{◌≡◌, ◌+◌, ◌-◌, ◌^◌, ◌<◌};
ghost use Rattle.model_desk.specs.Desks.{no_fates, with_fate};
ghost use Rattle.retry_core.specs.Retries.{fate_view};
ghost use Rattle.batch_desk.specs.Counts.{fate_count};
ghost use Rattle.batch_desk.specs.Views.{fate_counts_view};

use drop_ledger::DropCounts;
use retry_core::Fate;

/// How many batches ended in each way, of those that were handed to an exporter.
#[derive(Debug, Clone, Copy, Default, PartialEq, Eq)]
pub struct FateCounts {
    /// They were taken whole.
    pub delivered: u64,
    /// They were taken in part.
    pub partial: u64,
    /// They were refused for good.
    pub refused: u64,
    /// Their reply could not be read.
    pub bad_reply: u64,
    /// No attempt succeeded.
    pub given_up: u64,
    /// The worker that was to hand them on has left.
    pub abandoned: u64,
}

impl FateCounts {
    /// None in any way.
    pub fn new() -> FateCounts
        ensures { fate_counts_view result ≡ no_fates }
    {
        FateCounts {
            delivered: 0,
            partial: 0,
            refused: 0,
            bad_reply: 0,
            given_up: 0,
            abandoned: 0,
        }
    }

    /// Counts one more batch that ended in this way.
    pub fn add(&mut self, fate: Fate)
        requires { fate_count (fate_counts_view self.old) < 2 ^ 64 - 1 }
        ensures { fate_counts_view self.new
            ≡ with_fate (fate_view fate) (fate_counts_view self.old) }
    {
        match fate {
            Fate::Delivered => self.delivered += 1,
            Fate::Partial(_) => self.partial += 1,
            Fate::Refused(_) => self.refused += 1,
            Fate::BadReply => self.bad_reply += 1,
            Fate::GivenUp => self.given_up += 1,
            Fate::Abandoned => self.abandoned += 1,
        }
    }
}

/// The counts of a desk. By default they are those of a desk at which nothing was done.
#[derive(Debug, Clone, Copy, Default, PartialEq, Eq)]
pub struct Totals {
    /// Spans that were queued.
    pub accepted: u64,
    /// Spans that were taken from the queue, in batches.
    pub taken: u64,
    /// Spans of batches that were handed to an exporter.
    pub handed: u64,
    /// Spans of handed batches that are lost: these were refused or given up, their reply could not
    /// be read, or the worker that was to send them again has left. Those whose entry was popped
    /// from the second ledger are counted too; spans that a partial success refused aren't.
    pub lost: u64,
    /// Spans that wait.
    pub left: u64,
    /// Spans that came after the shutdown. It stops at 2^64 - 1.
    pub late: u64,
    /// Spans that were dropped, by reason, those whose entry was popped from the ledger too.
    pub dropped: DropCounts,
    /// Batches that were handed and have ended, by how.
    pub fates: FateCounts,
    /// Whether the desk is closed: spans that end now are late.
    pub closed: bool,
}
