//! Counts of what became of bodies and spans.
ghost use Rattle.std.specs.Prelude.{◌≡◌};
ghost use Rattle.relay_store.specs.Kept.{with_attempt, with_desk, with_ended, with_received};

use relay_queue::BodyCounts;

/// Counts of what was done. A count stops at its greatest number.
#[derive(Clone, Copy, Debug, Default, PartialEq, Eq)]
pub(crate) struct Counts {
    /// Bodies that were delivered from desks before this one.
    pub(crate) delivered: u64,
    /// Bodies that were lost at desks before this one.
    pub(crate) lost: u64,
    /// Spans of bodies that were received.
    pub(crate) received_spans: u64,
    /// Spans of bodies that were delivered, but for those that were rejected.
    pub(crate) delivered_spans: u64,
    /// Spans that were rejected of bodies that were delivered.
    pub(crate) rejected_spans: u64,
    /// Spans of bodies that are lost.
    pub(crate) lost_spans: u64,
    /// Batches that were taken to be sent.
    pub(crate) attempts: u64,
    /// Names of lost spans that are not written, since that failed.
    pub(crate) unwritten_names: u64,
    /// Requests in a row that the collector refused whatever they had.
    pub(crate) refusals: u64,
}

impl Counts {
    /// So many more spans were received.
    pub(crate) fn receive(&mut self, spans: u64)
        ensures { self.new ≡ with_received spans self.old }
    {
        self.received_spans = self.received_spans.saturating_add(spans);
    }

    /// One more batch was taken to be sent.
    pub(crate) fn attempt(&mut self)
        ensures { self.new ≡ with_attempt self.old }
    {
        self.attempts = self.attempts.saturating_add(1);
    }

    /// Bodies with so many spans ended, of which so many were rejected if they were delivered.
    pub(crate) fn end(&mut self, is_loss: bool, spans: u64, rejected: u64)
        ensures { self.new ≡ with_ended is_loss spans rejected self.old }
    {
        if is_loss {
            self.lost_spans = self.lost_spans.saturating_add(spans);
            return;
        }
        let taken = spans.saturating_sub(rejected);
        self.delivered_spans = self.delivered_spans.saturating_add(taken);
        self.rejected_spans = self.rejected_spans.saturating_add(rejected);
    }

    /// A desk with these counts is no longer there.
    pub(crate) fn leave(&mut self, desk: BodyCounts)
        ensures { self.new ≡ with_desk desk.delivered desk.lost self.old }
    {
        self.delivered = self.delivered.saturating_add(desk.delivered);
        self.lost = self.lost.saturating_add(desk.lost);
    }
}
