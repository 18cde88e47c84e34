//! Whole services, which are stopped once all is done or within a time.
use crate::tests::equal::assert_equal;
use crate::tests::requests::{Answers, Came, Names, Roots, config, ends};
use batch_processor::WorkEnd;
use batch_service::{Done, Served, serve, serve_within};
use otlp_span::{Entry, Reason};
use retry_core::{Outcome, RetryAfter};
use std::alloc::Global;
use std::process::Abort;
use std::random::RandomSource;
use std::sync::Wait;
use std::sync::atomic::AtomicU64;
use std::thread::Threads;
use std::time::Clock;

/// An outcome after which the batch is sent again in a day.
const TOMORROW: Outcome = Outcome::Later {
    status: 503,
    after: Some(RetryAfter::Seconds(86_400)),
};

/// How many threads a service has, how many roots each of them makes, and how many spans its queue
/// and a batch have.
type Size = (usize, u64, usize, usize);

/// What its exporter answers first, and then always, and after how many milliseconds.
type Replies = (&'static [Outcome], Outcome, u64);

const DELIVERED: Replies = (&[], Outcome::Delivered, 0);

/// What a service came to: of its threads' spans, how many were queued, dropped and not started;
/// how many were handed, lost, abandoned, dropped since the queue was full, and left; how the work
/// ended, after how many attempts, at how many of which a name was missing, and after how long; and
/// the names that the sink was given.
#[derive(Drop)]
struct End {
    spans: (u64, u64, u64),
    totals: (u64, u64, u64, u64, u64),
    end: WorkEnd,
    attempts: usize,
    unnamed: u64,
    took_ms: u64,
    names: Vec<Entry>,
}

/// The moment now, in milliseconds since the clock's start.
fn now_ms(rt: &(impl Abort + Clock)) -> u64 {
    let now = rt.monotonic().expect(rt, "a clock");
    u64::try_from(now.as_millis()).expect(rt, "a moment")
}

/// The sums of what became of the threads' spans. The outputs come in the threads' order, and the
/// threads work side by side.
fn sums(rt: &impl Abort, outputs: &[Option<(usize, Came)>]) -> (u64, u64, u64) {
    let (mut queued, mut dropped, mut not_started) = (0u64, 0u64, 0u64);
    for (place, output) in outputs.iter().enumerate() {
        let (thread, came) = output.expect(rt, "memory, and all threads");
        assert_equal(rt, thread, place);
        queued = queued.saturating_add(came.queued);
        dropped = dropped.saturating_add(came.dropped);
        not_started = not_started.saturating_add(came.not_started);
    }
    (queued, dropped, not_started)
}

/// What is left of a service.
fn end_of<R: Abort + Drop>(
    rt: &R,
    done: Done<Option<(usize, Came)>, Answers<R>, Names>,
    took_ms: u64,
) -> End {
    let Done { outputs, served } = done;
    let Served {
        desk,
        exporter,
        sink,
        end,
    } = served;
    let Names { names, given: _ } = sink;
    let totals = desk.totals();
    let in_ledgers = desk.ledger().len().saturating_add(desk.lost().len());
    assert_equal(rt, (in_ledgers, totals.closed), (0, true));
    let dropped = totals.dropped;
    End {
        spans: sums(rt, outputs.as_slice()),
        totals: (
            totals.handed,
            totals.lost,
            dropped.abandoned,
            dropped.queue_full,
            totals.left,
        ),
        end,
        attempts: exporter.attempts,
        unnamed: exporter.unnamed,
        took_ms,
        names,
    }
}

/// Runs a service, whose threads have words for all their roots or for fewer, and which is stopped
/// within so many milliseconds, or once all is done.
fn run<R>(
    rt: R,
    alloc: Global,
    (threads, roots, queue, batch): Size,
    has_all_words: bool,
    (first, rest, ms): Replies,
    stop_ms: Option<u64>,
) -> End
where
    R: Abort + Threads + Wait + RandomSource + Clock + Copy + Send + Sync + 'static,
{
    let (exporter, sink) = ends(&rt, alloc, first, rest, ms);
    let work = Roots {
        rt,
        alloc,
        threads: threads as u64,
        roots,
        has_all_words,
        begun: AtomicU64::new(0),
    };
    let config = config(&rt, queue, batch);
    let began = now_ms(&rt);
    let done = match stop_ms {
        None => serve(rt, alloc, exporter, sink, config, threads, &work),
        Some(ms) => serve_within(rt, alloc, exporter, sink, config, threads, &work, ms),
    };
    let took_ms = now_ms(&rt).saturating_sub(began);
    end_of(&rt, done.expect(&rt, "a service"), took_ms)
}

/// Names of tickets from one up to another, and why these spans aren't delivered.
type Named = (u64, u64, Reason);

/// A service, what its exporter answers, and within how many milliseconds it is stopped; how many
/// spans are handed, and which names its sink is given, in this order.
type Case = (Size, Replies, Option<u64>, u64, &'static [Named]);

const LOSES: [Outcome; 3] = [Outcome::Refused(400), Outcome::NoReply, Outcome::NoReply];

const LOST: [Named; 2] = [(0, 2, Reason::Refused(400)), (2, 4, Reason::GivenUp)];

const STOPPED: [Named; 2] = [(4, 11, Reason::Abandoned), (0, 4, Reason::LeftHanded)];

const LATE: [Named; 1] = [(4, 11, Reason::Abandoned)];

/// All is delivered, by several threads and by as many as there may be; two batches are lost; the
/// first batch waits to be sent again and the others wait in the queue, so that dropped spans are
/// named before lost ones, the oldest first; a stop ends early, since all is delivered; and a reply
/// that comes when the time is up counts.
const CASES: [Case; 6] = [
    ((4, 250, 1000, 10), DELIVERED, None, 1000, &[]),
    ((64, 1, 64, 1), DELIVERED, None, 64, &[]),
    (
        (1, 6, 6, 2),
        (&LOSES, Outcome::Delivered, 0),
        None,
        6,
        &LOST,
    ),
    ((1, 11, 11, 4), (&[], TOMORROW, 0), Some(200), 4, &STOPPED),
    ((2, 11, 22, 4), DELIVERED, Some(600_000), 22, &[]),
    (
        (1, 11, 11, 4),
        (&[], Outcome::Delivered, 3_000),
        Some(2_000),
        4,
        &LATE,
    ),
];

/// Asserts that these are the names of these spans, in this order: of how many lost spans, and of
/// how many dropped ones.
fn assert_names(rt: &impl Abort, names: &[Entry], wanted: &[Named]) -> (u64, u64) {
    let (mut lost, mut dropped) = (0u64, 0u64);
    let mut names = names.iter();
    for (first, end, reason) in wanted {
        for ticket in *first..*end {
            let named = names.next().map(|name| (name.ticket, name.reason));
            assert_equal(rt, named, Some((ticket, *reason)));
            if reason.is_lost() {
                lost = lost.saturating_add(1);
            } else {
                dropped = dropped.saturating_add(1);
            }
        }
    }
    assert_equal(rt, names.next().is_none(), true);
    (lost, dropped)
}

#[test]
fn each_service_ends_as_its_exporter_lets_it(rt: HostRuntime) {
    for (size, replies, stop_ms, handed, names) in CASES {
        let found = run(rt, rt.alloc(), size, true, replies, stop_ms);
        let (threads, roots, _, _) = size;
        assert_equal(
            &rt,
            found.spans,
            (roots.saturating_mul(threads as u64), 0, 0),
        );
        let (lost, abandoned) = assert_names(&rt, found.names.as_slice(), names);
        assert_equal(&rt, found.totals, (handed, lost, abandoned, 0, 0));
        let is_drained = found.end == WorkEnd::Drained;
        let least = if is_drained { 0 } else { stop_ms.unwrap_or(0) };
        let in_time = found.took_ms >= least && found.took_ms < 60_000;
        assert_equal(&rt, (is_drained, in_time), (abandoned == 0, true));
    }
}

/// Each batch is of one span.
#[test]
fn a_lost_span_is_named_before_the_next_batch_is_handed(rt: HostRuntime) {
    let refused: Replies = (&[], Outcome::Refused(400), 0);
    let found = run(rt, rt.alloc(), (1, 20, 20, 1), true, refused, None);
    assert_equal(&rt, (found.attempts, found.unnamed), (20, 0));
}

/// A hundred thousand spans of four threads, and 1,600 of eight, which have words for 280 of them:
/// each span is handed, dropped by name or not started.
#[test]
fn of_a_hundred_thousand_spans_each_is_handed_or_named(rt: HostRuntime) {
    for (size, has_all_words, all, without_words) in [
        ((4, 25_000, 64, 32), true, 100_000, 0),
        ((8, 200, 64, 16), false, 1600, 1320),
    ] {
        let found = run(rt, rt.alloc(), size, has_all_words, DELIVERED, None);
        let (queued, dropped, not_started) = found.spans;
        let ended = queued.saturating_add(dropped);
        let asked = ended.saturating_add(not_started);
        assert_equal(&rt, (asked, not_started), (all, without_words));
        assert_equal(&rt, found.totals, (queued, 0, 0, dropped, 0));
        assert_equal(&rt, found.names.len() as u64, dropped);
    }
}
