//! Random calls of desks, each compared with plain lists.
ghost use Rattle.std.specs.Prelude.{◌<◌};

use crate::tests::driver::Driver;
use crate::tests::equal::assert_equal;
use crate::tests::plain_desk::{NUMBER, Plain};
use batch_desk::{Batch, DeskConfig, Mark};
use otlp_span::Reason;
use retry_core::Fate;
use std::alloc::Global;
use std::process::Abort;

/// Random numbers, the same in each run.
#[derive(Drop)]
struct Draws {
    state: u64,
}

impl Draws {
    /// A number below this limit.
    fn below(&mut self, limit: u64) -> u64
        requires { 0 < limit }
        ensures { result < limit }
    {
        let next = self.state.wrapping_mul(6_364_136_223_846_793_005);
        self.state = next.wrapping_add(1_442_695_040_888_963_407);
        (self.state >> 33) % limit
    }

    /// Why a batch is dropped.
    fn reason(&mut self) -> Reason {
        match self.below(3) {
            0 => Reason::EncodeMemory,
            1 => Reason::TooLarge,
            _ => Reason::Abandoned,
        }
    }

    fn fate(&mut self) -> Fate {
        match self.below(6) {
            0 => Fate::Delivered,
            1 => Fate::Partial(2),
            2 => Fate::Refused(400),
            3 => Fate::BadReply,
            4 => Fate::GivenUp,
            _ => Fate::Abandoned,
        }
    }

    fn config(&mut self) -> DeskConfig {
        let queue = self.below(8) + 1;
        let batch = self.below(queue) + 1;
        DeskConfig {
            queue: queue as usize,
            batch: batch as usize,
            delay_ms: self.below(4) as u32,
        }
    }
}

/// A desk and what it should be, at a moment, with the mark of the last flush.
#[derive(Drop)]
struct Pair {
    desk: Driver,
    plain: Plain,
    now: u64,
    mark: Mark,
    marked: u64,
}

impl Pair {
    fn new(rt: &impl Abort, alloc: Global, config: DeskConfig) -> Pair {
        let mut desk = Driver::new(rt, alloc, config);
        let mark = desk.desk.flush();
        Pair {
            desk,
            plain: Plain::new(alloc, config),
            now: 0,
            mark,
            marked: 0,
        }
    }

    fn admit(&mut self, rt: &impl Abort) {
        let answer = self.plain.admit(rt);
        assert_equal(rt, self.desk.admit(rt, NUMBER), answer);
    }

    fn flush(&mut self) {
        self.mark = self.desk.desk.flush();
        self.plain.flush();
        self.marked = self.plain.totals.accepted;
    }

    fn shutdown(&mut self) {
        self.mark = self.desk.desk.shutdown();
        self.plain.shutdown();
        self.marked = self.plain.totals.accepted;
    }

    fn pop(&mut self, rt: &impl Abort) {
        self.desk.pop(rt, self.plain.ledger.pop());
        self.desk.pop_lost(rt, self.plain.lost.pop());
    }

    /// Takes a batch, where one is due; none is out.
    fn take(&mut self, rt: &impl Abort) -> Option<Batch> {
        let taken = self.desk.desk.take(self.now);
        assert_equal(rt, taken.is_some(), self.plain.is_due(self.now));
        if let Some(batch) = &taken {
            self.plain.take(rt, self.now);
            assert_equal(rt, batch.spans().len(), self.plain.out.len());
            for (span, ticket) in batch.spans().iter().zip(&self.plain.out) {
                assert_equal(rt, span.ticket(), *ticket);
            }
        }
        taken
    }

    /// Hands the batch over that is out, unless it was handed.
    fn hand(&mut self, rt: &impl Abort, batch: &Batch) {
        if !self.plain.is_handed {
            self.desk.hand(rt, batch);
            self.plain.hand();
        }
    }

    /// Settles the batch that is out where it was handed, and else drops it.
    fn end(&mut self, rt: &impl Abort, draws: &mut Draws, batch: Batch) {
        if self.plain.is_handed {
            let fate = draws.fate();
            self.desk.settle(rt, batch, fate);
            self.plain.settle(rt, fate);
        } else {
            let reason = draws.reason();
            self.desk.drop_batch(rt, batch, reason);
            self.plain.drop_batch(rt, reason);
        }
    }

    /// A call at random, beside those of the batch that is out.
    fn call(&mut self, rt: &impl Abort, draws: &mut Draws) {
        match draws.below(100) {
            0 => self.shutdown(),
            1..15 => self.flush(),
            15..40 => self.pop(rt),
            _ => self.admit(rt),
        }
    }

    /// Takes a batch, or hands over or ends the one that is out.
    fn go_on(&mut self, rt: &impl Abort, draws: &mut Draws, out: Option<Batch>) -> Option<Batch> {
        let Some(batch) = out else {
            return self.take(rt);
        };
        if draws.below(3) > 0 {
            self.hand(rt, &batch);
            return Some(batch);
        }
        self.end(rt, draws, batch);
        None
    }

    /// The desk shows what the lists have.
    fn compare(&self, rt: &impl Abort) {
        let desk = &self.desk.desk;
        assert_equal(rt, desk.totals(), self.plain.totals);
        assert_equal(rt, desk.out(), self.plain.out_state());
        let answers = (desk.due(self.now), desk.flushed(self.mark));
        let want = (
            self.plain.is_due(self.now),
            self.plain.is_flushed(self.marked),
        );
        assert_equal(rt, answers, want);
        let newest = (desk.ledger().newest(), desk.lost().newest());
        assert_equal(
            rt,
            newest,
            (self.plain.ledger.last(), self.plain.lost.last()),
        );
    }
}

/// 500 random calls of one desk. Answers whether a span was late, one found the queue full, one was
/// dropped with its batch for each reason, and a batch had each fate.
fn run_desk(rt: &impl Abort, alloc: Global, draws: &mut Draws) -> [bool; 11] {
    let mut pair = Pair::new(rt, alloc, draws.config());
    let mut out = None;
    for _ in 0..500 {
        pair.now = pair.now.saturating_add(draws.below(1_000_000));
        if draws.below(3) == 0 {
            out = pair.go_on(rt, draws, out);
        } else {
            pair.call(rt, draws);
        }
        pair.compare(rt);
    }
    if let Some(batch) = out {
        pair.end(rt, draws, batch);
    }
    let totals = pair.plain.totals;
    let (dropped, fates) = (totals.dropped, totals.fates);
    [
        totals.late > 0,
        dropped.queue_full > 0,
        dropped.encode_memory > 0,
        dropped.too_large > 0,
        dropped.abandoned > 0,
        fates.delivered > 0,
        fates.partial > 0,
        fates.refused > 0,
        fates.bad_reply > 0,
        fates.given_up > 0,
        fates.abandoned > 0,
    ]
}

#[test]
fn desks_are_as_plain_lists(rt: HostRuntime) {
    let mut draws = Draws { state: 10 };
    let mut met = [false; 11];
    for _ in 0..200 {
        for (met, now) in met.iter_mut().zip(run_desk(&rt, rt.alloc(), &mut draws)) {
            *met = *met || now;
        }
    }
    assert_equal(&rt, met, [true; 11]);
}
