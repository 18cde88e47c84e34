//! Desks that are driven by hand. Each call of a desk is in one function, which tests what the
//! call requires.
use crate::tests::equal::assert_equal;
use crate::tests::spans::Spans;
use batch_desk::{Admitted, Batch, Desk, DeskConfig};
use otlp_span::{Entry, Reason};
use retry_core::Fate;
use std::alloc::{Allocator, Global};
use std::ops::Range;
use std::process::Abort;

/// A desk, and what the spans share that it is given.
#[derive(Drop)]
pub(crate) struct Driver<A: Allocator = Global> {
    pub(crate) desk: Desk<A>,
    pub(crate) spans: Spans<A>,
}

impl<A: Allocator + Copy> Driver<A> {
    /// Drives a desk that is made at moment 0.
    pub(crate) fn new(rt: &impl Abort, alloc: A, config: DeskConfig) -> Driver<A> {
        Driver {
            desk: Desk::new(alloc, config, 0).expect(rt, "memory"),
            spans: Spans::new(rt, alloc),
        }
    }

    /// Drives a desk of these sizes, whose delay is 5000 ms.
    pub(crate) fn of_sizes(rt: &impl Abort, alloc: A, queue: usize, batch: usize) -> Driver<A> {
        let config = DeskConfig {
            queue,
            batch,
            delay_ms: 5000,
        };
        Driver::new(rt, alloc, config)
    }

    /// Ends a span with this number.
    pub(crate) fn admit(&mut self, rt: &impl Abort, number: u64) -> Admitted {
        self.desk.admit(self.spans.ended(rt, number))
    }

    /// Queues spans with these numbers, which are their tickets.
    pub(crate) fn queue(&mut self, rt: &impl Abort, numbers: Range<u64>) {
        for number in numbers {
            assert_equal(rt, self.admit(rt, number), Admitted::Queued(number));
        }
    }

    /// Takes a batch at moment 0, which is due.
    pub(crate) fn take(&mut self, rt: &impl Abort) -> Batch<A> {
        self.desk.take(0).expect(rt, "a batch is due")
    }

    /// Hands the batch over that is in hand.
    pub(crate) fn hand(&mut self, rt: &impl Abort, batch: &Batch<A>) {
        assert_eq!(rt; self.desk.out(), Some((batch.number(), false)));
        self.desk.handed(batch.number());
    }

    /// Ends the batch that is out, which was handed, and maybe cleared since.
    pub(crate) fn settle(&mut self, rt: &impl Abort, batch: Batch<A>, fate: Fate) {
        assert!(rt; self.desk.can_settle(&batch, fate));
        self.desk.settle(batch, fate);
    }

    /// Names the spans of the batch that is out, which was handed, and ends it as given up.
    pub(crate) fn give_up(&mut self, rt: &impl Abort, batch: Batch<A>) {
        let settled = batch.into_settled(Fate::GivenUp);
        assert!(rt; self.desk.can_settle_named(&settled));
        self.desk.settle_named(settled);
    }

    /// Drops the batch that is in hand.
    pub(crate) fn drop_batch(&mut self, rt: &impl Abort, batch: Batch<A>, reason: Reason) {
        assert!(rt; reason.can_drop_batch() && self.desk.is_in_hand(&batch));
        self.desk.drop_batch(batch, reason);
    }

    /// Names the spans of the batch that is in hand, and drops it as too large.
    pub(crate) fn drop_named(&mut self, rt: &impl Abort, batch: Batch<A>) {
        let named = batch.into_named(Reason::TooLarge);
        assert!(rt; self.desk.can_drop(&named));
        self.desk.drop_named(named);
    }

    /// Pops the newest name of a dropped span, which has to be this one.
    pub(crate) fn pop(&mut self, rt: &impl Abort, want: Option<Entry>) {
        assert_equal(rt, self.desk.pop_entry(), want);
    }

    /// The same of a lost span.
    pub(crate) fn pop_lost(&mut self, rt: &impl Abort, want: Option<Entry>) {
        assert_equal(rt, self.desk.pop_lost(), want);
    }
}
