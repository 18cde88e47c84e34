//! Whole runs in which memory, wires, replies and clocks fail at random.
use crate::tests::bodies::spans_in;
use crate::tests::book::{Book, EVENTS, Event, Runs};
use crate::tests::equal::assert_equal;
use crate::tests::far_side::{Attempt, FarSide};
use crate::tests::random_programs::{below, random_config, random_steps};
use batch_desk::Desk;
use linked_list_allocator::LocalHeap;
use otlp_ids::OutOfMemory;
use otlp_span::{Entry, Reason};
use rand_pcg::Pcg32;
use retry_core::Outcome;
use span_ring::MAX_QUEUE;
use std::alloc::{Allocator, Global};
use std::process::Abort;
use test_support::FailingAllocator;
use trace_run::{RunReport, Step, run};

/// How many runs there are.
const RUNS: u64 = 2_000;

/// How many steps a run has.
const STEPS: u32 = 60;

/// The first attempt of a batch, by its place, with its body.
fn first_of(attempts: &[Attempt], number: u64) -> Option<(usize, &[u8])> {
    for (place, attempt) in attempts.iter().enumerate() {
        if attempt.number == number {
            return Some((place, attempt.body.as_slice()));
        }
    }
    None
}

/// The spans of each body that was handed, once for each batch. The bodies of a batch are equal,
/// and so are those that the far side received.
fn handed(rt: &impl Abort, alloc: Global, attempts: &[Attempt]) -> Vec<u64> {
    let mut found = Vec::new(alloc);
    for (place, attempt) in attempts.iter().enumerate() {
        let (at, body) = first_of(attempts, attempt.number).expect(rt, "an attempt");
        assert_equal(rt, attempt.body.as_slice(), body);
        let received = attempt.received().unwrap_or(body);
        assert_equal(rt, received, body);
        if at == place {
            let spans = spans_in(rt, alloc, body);
            found.extend_from_slice(&spans).expect(rt, "memory");
        }
    }
    found
}

/// Counts what came of the attempts. A reply only comes where the body was received.
fn count_attempts(rt: &impl Abort, attempts: &[Attempt], runs: &mut Runs) {
    for attempt in attempts {
        let is_received = attempt.received().is_some();
        let is_answered = attempt.outcome != Outcome::NoReply;
        assert_equal(rt, is_received || !is_answered, true);
        runs.count_if(attempt.has_failed, Event::FailedWire);
        runs.count_if(is_received && !is_answered, Event::LostReply);
        runs.count_if(!is_received, Event::Unreceived);
    }
}

/// The spans of these batches, each with the reason for which its batch came to nothing.
fn lost_spans(
    rt: &impl Abort,
    alloc: Global,
    attempts: &[Attempt],
    batches: &[(u64, Reason)],
) -> Vec<(u64, Reason)> {
    let mut lost = Vec::new(alloc);
    for (number, reason) in batches {
        let (_, body) = first_of(attempts, *number).expect(rt, "an attempt");
        for span in &spans_in(rt, alloc, body) {
            lost.push((*span, *reason)).expect(rt, "memory");
        }
    }
    lost
}

/// Counts what a run leaves, and notes the batch that is out, where it was handed, as lost.
fn note_left<A: Allocator>(
    rt: &impl Abort,
    report: &RunReport<A>,
    book: &mut Book,
    runs: &mut Runs,
) {
    let out = report.desk().out();
    if let Some((batch, true)) = out {
        let lost = (batch, Reason::LeftHanded);
        book.lost.push(lost).expect(rt, "memory");
    }
    let is_handed = out.map(|(_, is_handed)| is_handed);
    runs.count_if(is_handed == Some(true), Event::BatchAbandoned);
    runs.count_if(is_handed == Some(false), Event::Abandoned);
    runs.count_if(report.desk().waiting() > 0, Event::LeftInQueue);
}

/// Drops all that waits, so that the ledger names it. No batch is out.
fn drop_waiting<A: Allocator>(rt: &impl Abort, desk: &mut Desk<A>) {
    desk.shutdown();
    for _batch in 0..desk.waiting() {
        if let Some(batch) = desk.take(0) {
            assert!(rt; desk.is_in_hand(&batch));
            desk.drop_batch(batch, Reason::Abandoned);
        }
    }
}

/// The span of an entry, and why it wasn't delivered.
fn named(entry: &Entry) -> (u64, Reason) {
    (u64::from_be_bytes(entry.span.0), entry.reason)
}

/// Asserts that the second ledger names these spans, the oldest last. Adds those that the first one
/// names, none of which is lost.
fn assert_named<A: Allocator>(
    rt: &impl Abort,
    desk: &Desk<A>,
    lost: &[(u64, Reason)],
    found: &mut Vec<u64>,
    seed: u64,
) {
    assert_equal(rt, (seed, desk.lost().len()), (seed, lost.len() as u64));
    for (entry, wanted) in desk.lost().iter().zip(lost.iter().rev()) {
        assert_equal(rt, (seed, named(entry)), (seed, *wanted));
    }
    for entry in desk.ledger().iter() {
        let (span, reason) = named(entry);
        assert_equal(rt, (seed, reason.is_lost()), (seed, false));
        found.push(span).expect(rt, "memory");
    }
}

/// Asserts that these are the same spans, in any order, each once.
fn assert_same(rt: &impl Abort, found: &mut Vec<u64>, wanted: &mut Vec<u64>, seed: u64) {
    found.sort().expect(rt, "memory");
    wanted.sort().expect(rt, "memory");
    assert_equal(rt, (seed, found.as_slice()), (seed, wanted.as_slice()));
    found.dedup();
    assert_equal(rt, (seed, found.len()), (seed, wanted.len()));
}

/// Asserts that each sampled span that ended before the shutdown was handed, or waits, or is named:
/// once; and which of those that were handed are lost.
fn assert_accounted<A: Allocator>(
    rt: &impl Abort,
    alloc: Global,
    steps: &[Step<A>],
    report: RunReport<A>,
    far_side: &FarSide,
    runs: &mut Runs,
) {
    let attempts = far_side.attempts.as_slice();
    let mut book = Book::new(alloc);
    book.read(rt, steps, report.answers(), runs);
    note_left(rt, &report, &mut book, runs);
    let counts = (report.answers().len(), far_side.lost);
    assert_equal(rt, (runs.seed, counts), (runs.seed, (steps.len(), 0)));
    count_attempts(rt, attempts, runs);
    let lost = lost_spans(rt, alloc, attempts, &book.lost);
    let mut found = handed(rt, alloc, attempts);
    let mut desk = report.close();
    drop_waiting(rt, &mut desk);
    assert_named(rt, &desk, &lost, &mut found, runs.seed);
    assert_same(rt, &mut found, &mut book.ended, runs.seed);
}

/// Runs a program on scarce memory, and asserts that its spans are accounted for. Nothing was
/// handed where there was no memory for the run.
fn run_random<A: Allocator + Copy>(
    rt: &impl Abort,
    alloc: Global,
    memory: (A, A),
    runs: &mut Runs,
) {
    let (ample, scarce) = memory;
    let steps = random_steps(rt, ample, runs.seed, STEPS);
    let config = random_config(rt, ample, runs.seed);
    let mut far_side = FarSide::new(rt, alloc, runs.seed);
    let (queue, batch) = (config.desk.queue, config.desk.batch);
    assert!(rt; 0 < batch && batch <= queue && queue <= MAX_QUEUE);
    match run(scarce, config, &steps, &mut far_side) {
        Ok(report) => assert_accounted(rt, alloc, &steps, report, &far_side, runs),
        Err(OutOfMemory) => {
            runs.count_if(true, Event::RunRefused);
            assert_equal(rt, far_side.attempts.len(), 0);
        }
    }
}

/// Makes a run on memory that is refused up to three times, at random calls.
fn run_once(rt: &impl Abort, alloc: Global, heap: &LocalHeap, runs: &mut Runs) {
    let mut rng = Pcg32::new(runs.seed, 4);
    let mut layer = |calls: u32| u64::from(below(&mut rng, calls));
    let ample = FailingAllocator::new(heap, u64::MAX);
    let ample = FailingAllocator::new(ample, u64::MAX);
    let scarce = FailingAllocator::new(heap, layer(150));
    let scarce = FailingAllocator::new(scarce, layer(150));
    run_random(rt, alloc, (&ample, &scarce), runs);
}

#[test]
fn random_failures_leave_all_spans_accounted_for(rt: HostRuntime) {
    let heap = LocalHeap::new(rt.alloc(), 262_144).expect(&rt, "memory");
    let mut runs = Runs {
        seed: 0,
        counts: [0; EVENTS],
    };
    for seed in 0..RUNS {
        runs.seed = seed;
        run_once(&rt, rt.alloc(), &heap, &mut runs);
        assert_equal(&rt, (seed, heap.used()), (seed, 0));
    }
    for (event, count) in runs.counts.iter().enumerate() {
        assert_equal(&rt, (event, *count >= 20), (event, true));
    }
}
