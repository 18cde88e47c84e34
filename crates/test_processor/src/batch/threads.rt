//! Other threads have the passes of a batch processor, while this one has its worker's pass.
ghost use Rattle.std.specs.Prelude.{◌≡◌, ◌^◌};
ghost use Rattle.batch_processor.specs.Working.{IsPrepared};

use crate::batch::cases::config;
use crate::batch::collector::Sent;
use crate::batch::neighbors::{close_out, make};
use crate::batch::tasks::{BEGUN, Call, DONE, LOOKS, Task, do_task, is_reached};
use crate::equal::assert_equal;
use batch_desk::Totals;
use batch_processor::{
    BatchBlank, BatchConfig, Clock as _, Naming, Parts, SystemClock, WorkEnd, WorkerPass,
};
use drop_ledger::DropCounts;
use otlp_ids::OutOfMemory;
use otlp_proto::DEFAULT_MAX_BODY;
use retry_core::Outcome;
use span_exporter::Exporter;
use std::alloc::Global;
use std::cell::Cell;
use std::marker::Brand;
use std::process::Abort;
use std::sync::Wait;
use std::sync::atomic::{AtomicU64, Ordering};
use std::thread::{self, Threads};
use std::time::{Clock, Duration};
use trace_api::WordsRng;

/// What is done: how many passes a processor has, how many spans its queue and a batch have, and
/// how many bytes a body has at most; what is done with the passes; the outcome of each attempt;
/// and how often an exporter looks whether what it holds its reply for is done.
#[derive(Clone, Copy)]
struct Plan {
    passes: usize,
    queue: usize,
    batch: usize,
    max_body: usize,
    task: Task,
    outcome: Outcome,
    looks: u32,
}

/// What came of it: what an exporter was handed, at how many attempts it saw that what it holds its
/// reply for was done, how long the worker had waited before the last one, in nanoseconds, and what
/// the totals say in the end, and how many names were left.
#[derive(Clone, Copy)]
struct Came {
    sent: Sent,
    seen: u32,
    waited: u64,
    totals: Totals,
    names: u64,
}

/// The clock of a worker, which is at 0. The worker looks at it before it waits, and when it takes
/// the next batch. It has when the last look was, and how long after the one before.
#[derive(Drop)]
struct Looks<R: Clock> {
    clock: SystemClock<R>,
    last: Cell<u64>,
    pause: Cell<u64>,
    stage: AtomicU64,
}

impl<R: Clock> batch_processor::Clock for Looks<R> {
    ghost use Rattle.std.specs.Prelude.{⊤};

    ghost tells = { λ clock at. ⊤ };

    fn now(&self) -> u64 {
        let now = self.clock.now();
        let last = self.last.replace(now);
        self.pause.set(now.saturating_sub(last));
        0
    }
}

/// An exporter that may hold its reply until other threads are done, and for a while after, so that
/// they wait; or its looks are used up.
#[derive(Drop)]
struct Watching<'a, R: Clock> {
    rt: R,
    alloc: Global,
    clock: &'a Looks<R>,
    outcome: Outcome,
    looks: u32,
    sent: Sent,
    seen: u32,
    waited: u64,
}

impl<'a, R: Clock> Exporter for Watching<'a, R> {
    ghost use Rattle.std.specs.Prelude.{◌^◌, None};

    ghost handed = { λ _. None };

    ghost room = { λ _ _. 2 ^ 32 };

    fn prepare(&mut self, _size: usize, _attempts: u32) -> Result<(), OutOfMemory> {
        Ok(())
    }

    fn export(&mut self, _number: u64, attempt: u32, body: &[u8]) -> Outcome {
        self.waited = self.clock.pause.get();
        self.clock.stage.fetch_max(BEGUN, Ordering::SeqCst);
        if is_reached(&self.rt, &self.clock.stage, DONE, self.looks) {
            self.seen = self.seen.saturating_add(1);
            thread::sleep(&self.rt, Duration::from_millis(5));
        }
        self.sent.count(self.alloc, attempt, body);
        self.outcome
    }
}

/// Works until all is drained, or leaves some milliseconds after a flush is asked for.
fn lead<J, R>(
    rt: R,
    alloc: Global,
    worker: &mut WorkerPass<J, R>,
    exporter: &mut Watching<'_, R>,
    clock: &Looks<R>,
    task: Task,
)
where
    J: Naming,
    R: Wait + Abort + Clock + Copy,
    requires { IsPrepared (λ _. 2 ^ 32) worker.old }
{
    if matches!(task, Task::FlushUntilItLeaves) {
        assert_equal(&rt, is_reached(&rt, &clock.stage, BEGUN, LOOKS), true);
        thread::sleep(&rt, Duration::from_millis(20));
        worker.leave();
        return;
    }
    let mut rng = WordsRng::new(Vec::new(alloc));
    let end = worker.work(exporter, clock, &mut rng, 100_000);
    assert_equal(&rt, end, WorkEnd::Drained);
}

/// Other threads do a task with the passes, while this one sends what they end. Then all is closed
/// out.
fn carry<J, R>(rt: R, alloc: Global, blank: BatchBlank, plan: Plan) -> Came
where
    J: Naming + Send + Sync + 'static,
    R: Threads + Wait + Abort + Clock + Copy + Send + Sync + 'static,
    requires { blank ≡ J.name }
{
    let config = BatchConfig {
        max_body: plan.max_body,
        ..config(plan.queue, plan.batch)
    };
    let made = make::<J, R, Global>(alloc, rt, blank, config, plan.passes, 0);
    let Parts {
        processor,
        passes,
        mut worker,
    } = made.expect(&rt, "a processor");
    let clock = Looks {
        clock: SystemClock::new(rt),
        last: Cell::new(0),
        pause: Cell::new(0),
        stage: AtomicU64::new(0),
    };
    let mut exporter = Watching {
        rt,
        alloc,
        clock: &clock,
        outcome: plan.outcome,
        looks: plan.looks,
        sent: Sent::NONE,
        seen: 0,
        waited: 0,
    };
    let (task, stage) = (plan.task, &clock.stage);
    let (passes, ()) = thread::join(
        &rt,
        move || do_task(rt, alloc, passes, task, stage),
        || lead(rt, alloc, &mut worker, &mut exporter, &clock, task),
    );
    let accounts = close_out(processor, passes, worker).ok();
    let desk = accounts.expect(&rt, "all passes are there").desk;
    Came {
        sent: exporter.sent,
        seen: exporter.seen,
        waited: exporter.waited,
        totals: desk.totals(),
        names: desk.ledger().len().saturating_add(desk.lost().len()),
    }
}

/// Carries a plan out, with a processor of its own.
fn carry_out<R>(rt: R, alloc: Global, plan: Plan) -> Came
where
    R: Threads + Wait + Abort + Clock + Copy + Send + Sync + 'static,
{
    carry::<Brand, R>(rt, alloc, BatchBlank::new(), plan)
}

/// A plan with this number of passes, whose queue has room for four batches.
fn with_passes(passes: usize, batch: usize, task: Task, looks: u32) -> Plan {
    Plan {
        passes,
        queue: batch.saturating_mul(4),
        batch,
        max_body: DEFAULT_MAX_BODY,
        task,
        outcome: Outcome::Delivered,
        looks,
    }
}

/// Asserts that each of this number of spans, and one after the shutdown, was handed over and sent,
/// or dropped by name since the queue was full, or late, and that none is left.
fn assert_balanced(rt: &impl Abort, came: Came, ended: u64) {
    let totals = came.totals;
    let full = totals.dropped.queue_full;
    let all = totals
        .handed
        .saturating_add(full)
        .saturating_add(totals.late);
    assert_equal(rt, (all, totals.left), (ended.saturating_add(1), 0));
    assert_equal(
        rt,
        (came.sent.spans as u64, came.names),
        (totals.handed, full),
    );
    let want = DropCounts {
        queue_full: full,
        ..DropCounts::default()
    };
    assert_equal(rt, totals.dropped, want);
}

/// Up to as many threads as there may be. No span is late that ended before the shutdown.
#[test]
fn all_spans_of_many_threads_are_sent_or_named(rt: HostRuntime) {
    for (passes, spans) in [(4, 100), (63, 1000)] {
        let came = carry_out(
            rt,
            rt.alloc(),
            with_passes(passes, 16, Task::EndMany(spans), 0),
        );
        assert_balanced(&rt, came, spans.saturating_mul(passes as u64));
        assert_equal(&rt, (came.totals.handed >= 64, came.totals.late), (true, 1));
    }
}

#[test]
fn a_shutdown_while_spans_end_loses_none(rt: HostRuntime) {
    for _ in 0..100u32 {
        let came = carry_out(rt, rt.alloc(), with_passes(5, 16, Task::EndLate(100), 0));
        assert_balanced(&rt, came, 400);
    }
}

/// Two threads end 10,000 spans each, and another one takes out their names, while the worker sends
/// their batches, each of which is refused: none of the names is left.
#[test]
fn each_of_20_000_lost_spans_is_popped_while_others_end(rt: HostRuntime) {
    let plan = Plan {
        queue: 20_000,
        outcome: Outcome::Refused(400),
        ..with_passes(3, 500, Task::LoseMany(10_000), 0)
    };
    let came = carry_out(rt, rt.alloc(), plan);
    let counts = (came.sent.attempts, came.sent.spans, came.totals.lost);
    assert_equal(&rt, (counts, came.names), ((40, 20_000, 20_000), 0));
}

/// What an exporter that holds its reply sees: of a span that ends while another one is sent, that
/// it is queued meanwhile; of a flush, that it isn't answered before the batch of another pass's
/// span is settled; and of two flushes, that both wait for one batch. Each flush is answered, though
/// no other batch ends, be the batch sent, or dropped, since its body of 70 bytes is too large.
#[test]
fn threads_are_answered_while_a_batch_is_sent_or_dropped(rt: HostRuntime) {
    for (times, plan, want) in [
        (
            1u32,
            with_passes(1, 1, Task::EndWhileSending, LOOKS),
            (2, 2, 0),
        ),
        (1, with_passes(2, 4, Task::Flush, 10_000), (1, 0, 0)),
        (20, with_passes(3, 4, Task::Flush, LOOKS), (1, 1, 0)),
        (
            20,
            Plan {
                max_body: 69,
                ..with_passes(3, 4, Task::Flush, LOOKS)
            },
            (0, 0, 1),
        ),
        (1, with_passes(1, 4, Task::FlushUntilItLeaves, 0), (0, 0, 0)),
    ] {
        for _ in 0..times {
            let came = carry_out(rt, rt.alloc(), plan);
            let too_large = came.totals.dropped.too_large;
            let found = (came.sent.attempts, came.seen, too_large);
            assert_equal(&rt, found, want);
        }
    }
}

/// A worker that waits finds what a call gives it to send: a flush and a shutdown wake it, so that
/// ten times its wait is shorter than the millisecond after which it looks by itself, and a batch
/// that an end fills it finds at the next look. A busy machine takes more tries for that, of which
/// there are a thousand.
#[test]
fn a_worker_that_waits_finds_its_work(rt: HostRuntime) {
    for (call, within_ns) in [
        (Call::End, 4_000_000),
        (Call::Flush, 900_000),
        (Call::Shutdown, 900_000),
        (Call::BeginShutdown, 900_000),
    ] {
        let mut woken = 0u32;
        for _ in 0..1000u32 {
            if woken < 10 {
                let came = carry_out(rt, rt.alloc(), with_passes(1, 4, Task::CallWorker(call), 0));
                if came.waited < within_ns {
                    woken = woken.saturating_add(1);
                }
            }
        }
        assert_equal(&rt, woken, 10);
    }
}
