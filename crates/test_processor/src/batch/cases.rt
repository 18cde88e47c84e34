//! What is done with a batch processor on one thread, and what is answered.
use crate::batch::player::Step::{
    Count, Drain, End, EndLonger, Flush, Idle, Leave, Pop, PopLost, Shutdown, Sum, Word, Work,
    WorkOn,
};
use crate::batch::player::{Case, Step, place_of};
use batch_desk::DeskConfig;
use batch_processor::BatchConfig;
use linked_list_allocator::LocalHeap;
use retry_core::{Outcome, RetryAfter, RetryConfig};
use std::alloc::Global;
use std::process::Abort;
use std::sync::Wait;
use std::time::Clock;

/// A second, in nanoseconds.
const SECOND: u64 = 1_000_000_000;

const NONE: Outcome = Outcome::NoReply;

const LATER: Outcome = Outcome::Later {
    status: 503,
    after: None,
};

/// A collector that asks to be tried again in two seconds.
const IN_TWO_SECONDS: Outcome = Outcome::Later {
    status: 503,
    after: Some(RetryAfter::Seconds(2)),
};

/// At most `queue` spans wait, and a batch has `batch`. The delay is as long as it can be.
pub(crate) fn config(queue: usize, batch: usize) -> BatchConfig {
    BatchConfig {
        desk: DeskConfig {
            queue,
            batch,
            delay_ms: u32::MAX,
        },
        ..BatchConfig::default()
    }
}

/// These steps with a processor of these settings, whose attempts have these outcomes.
pub(crate) fn case<'a>(
    config: BatchConfig,
    outcomes: &'a [Outcome],
    steps: &'a [Step],
) -> Case<'a> {
    Case {
        config,
        made: 0,
        words: &[],
        outcomes,
        steps,
        after: None,
    }
}

/// Asserts what is answered in a case.
fn assert_answers<R: Wait + Abort + Clock + Copy>(
    rt: R,
    alloc: Global,
    case: &Case<'_>,
    want: &str,
) {
    let heap = LocalHeap::new(alloc, 64).expect(&rt, "memory");
    place_of(rt, &heap, alloc, alloc, case, &[want]);
}

/// Seven batches, one after another, of sixteen attempts: delivered; not answered; taken but for a
/// span; refused; answered badly; refused at the last attempt; and delivered at the second.
const MIX: [Outcome; 16] = [
    Outcome::Delivered,
    NONE,
    NONE,
    LATER,
    LATER,
    NONE,
    Outcome::Partial(1),
    Outcome::Refused(413),
    Outcome::Bad,
    LATER,
    LATER,
    NONE,
    LATER,
    Outcome::Refused(400),
    NONE,
    Outcome::Delivered,
];

/// Batches of two spans, whose names are drained, the oldest first. Those of a batch without its
/// last attempt are named once the processor is closed.
#[test]
fn a_batch_is_named_as_its_last_attempt_says(rt: HostRuntime) {
    let failed = [NONE, LATER, NONE, LATER];
    let rows: [(&[Outcome], &[Step], &str); 2] = [
        (
            &MIX,
            &[End(14), WorkOn(1, 46), Drain, Sum],
            concat!(
                " Queued(13) 16 (2, GivenUp) (3, GivenUp) (6, Refused(413)) (7, Refused(413))",
                " (8, BadReply) (9, BadReply) (10, Refused(400)) (11, Refused(400))",
                " (16, 7, 14, 903) accepted 14 taken 14 handed 14 lost 8 delivered 2 partial 1",
                " refused 2 bad 1 given up 1",
            ),
        ),
        (
            &failed,
            &[End(2), WorkOn(1, 10), Drain],
            concat!(
                " Queued(1) 4 accepted 2 taken 2 handed 2 lost 2 abandoned 1",
                " (1, LeftHanded) (0, LeftHanded)",
            ),
        ),
    ];
    for (outcomes, steps, want) in rows {
        assert_answers(rt, rt.alloc(), &case(config(16, 2), outcomes, steps), want);
    }
}

/// Outcomes of batches of three: the first one takes three attempts, and so eight turns, and each
/// other one four.
const MANY: [Outcome; 5] = [
    IN_TWO_SECONDS,
    NONE,
    Outcome::Partial(1),
    Outcome::Refused(400),
    Outcome::Bad,
];

const SENT_800: &str = concat!(
    " Queued(799) 251 (251, 249, 747, 47310) accepted 800 taken 747 handed 747 lost 6 left 53",
    " delivered 246 partial 1 refused 1 bad 1",
    " (8, BadReply) (7, BadReply) (6, BadReply) (5, Refused(400)) (4, Refused(400))",
    " (3, Refused(400))",
);

/// What is done with a processor whose queue and batches have so much room.
const RUNS: [(usize, usize, &[Outcome], &[Step], &str); 9] = [
    // Names of dropped spans are popped, the newest first, or drained, the oldest first. A popped
    // name is gone.
    (
        1,
        1,
        &[],
        &[End(1), End(1), Pop, Pop, End(3), Drain, Drain, Pop],
        concat!(
            " Queued(0) Dropped(1, QueueFull) (1, QueueFull) None Dropped(4, QueueFull)",
            " (2, QueueFull) (3, QueueFull) (4, QueueFull) None accepted 1 left 1 full 4",
        ),
    ),
    // Counts and a flush are those of their own call, not of an earlier one. The worker has left, so
    // a flush is answered at once, and no batch is sent.
    (
        8,
        1,
        &[],
        &[
            Leave,
            Count,
            Flush,
            End(1),
            Count,
            Flush,
            Shutdown,
            End(1),
            Work(0, 10),
        ],
        concat!(
            " 0 Ok(Flushed) Queued(0) 1 Err(WorkerLeft) Err(WorkerLeft) Late 0",
            " accepted 1 left 1 late 1 closed 1",
        ),
    ),
    // A worker that leaves after two, three or four turns: its batch is abandoned, or lost where it
    // was handed over. Spans that end after it wait.
    (
        2,
        2,
        &[NONE],
        &[End(2), Work(0, 2), Leave, End(2), Work(60 * SECOND, 10)],
        concat!(
            " Queued(1) 0 Queued(3) 0 accepted 4 taken 2 left 2 unsent 2",
            " (1, Abandoned) (0, Abandoned)",
        ),
    ),
    (
        2,
        2,
        &[NONE],
        &[End(2), Work(0, 3), Leave, Leave, Drain],
        concat!(
            " Queued(1) 1 (0, LeftHanded) (1, LeftHanded)",
            " accepted 2 taken 2 handed 2 lost 2 abandoned 1",
        ),
    ),
    (
        2,
        2,
        &[NONE],
        &[End(2), Work(0, 4), Leave, End(2), PopLost],
        concat!(
            " Queued(1) 1 Queued(3) (1, LeftHanded)",
            " accepted 4 taken 2 handed 2 lost 2 left 2 abandoned 1 (0, LeftHanded)",
        ),
    ),
    // One turn at a time sends the same as all at once.
    (800, 3, &MANY, &[End(800), WorkOn(1, 1000), Sum], SENT_800),
    (800, 3, &MANY, &[End(800), WorkOn(1000, 1), Sum], SENT_800),
    // Large batches.
    (
        4096,
        2048,
        &[],
        &[End(4096), Work(0, 8), Sum],
        " Queued(4095) 2 (2, 2, 4096, 241694) accepted 4096 taken 4096 handed 4096 delivered 2",
    ),
    // The spans of two resources are sent together.
    (
        8,
        4,
        &[],
        &[End(1), EndLonger(1), End(1), EndLonger(1), Work(0, 4), Sum],
        concat!(
            " Queued(0) Queued(1) Queued(2) Queued(3) 1 (1, 2, 4, 267)",
            " accepted 4 taken 4 handed 4 delivered 1",
        ),
    ),
];

#[test]
fn each_run_is_answered_as_it_is_written(rt: HostRuntime) {
    for (queue, batch, outcomes, steps, want) in RUNS {
        assert_answers(
            rt,
            rt.alloc(),
            &case(config(queue, batch), outcomes, steps),
            want,
        );
    }
}

/// The body of a batch of one span, which has 70 bytes, where they are too many by one, and where
/// they aren't. A longer one is dropped, and the next batch is sent.
#[test]
fn a_body_above_the_greatest_is_not_sent(rt: HostRuntime) {
    let rows: [(usize, &[Step], &str); 3] = [
        (
            69,
            &[End(1), Work(0, 4)],
            " Queued(0) 0 accepted 1 taken 1 too large 1 (0, TooLarge)",
        ),
        (
            70,
            &[End(1), Work(0, 4)],
            " Queued(0) 1 accepted 1 taken 1 handed 1 delivered 1",
        ),
        (
            70,
            &[EndLonger(1), End(1), Work(0, 6)],
            concat!(
                " Queued(0) Queued(1) 1",
                " accepted 2 taken 2 handed 1 too large 1 delivered 1 (0, TooLarge)",
            ),
        ),
    ];
    for (max_body, steps, want) in rows {
        let config = BatchConfig {
            max_body,
            ..config(2, 1)
        };
        assert_answers(rt, rt.alloc(), &case(config, &[], steps), want);
    }
}

/// Once the delay has passed since the processor was made, a batch that isn't full is due. It is
/// sent at this moment, no earlier than that, and again two seconds after the reply.
#[test]
fn a_batch_is_sent_again_after_the_wait(rt: HostRuntime) {
    for (made, sent) in [(SECOND, 2 * SECOND), (77 * SECOND + 5, 79 * SECOND + 3)] {
        let mut config = config(2, 2);
        config.desk.delay_ms = 1000;
        let due = made.saturating_add(SECOND);
        let again = sent.saturating_add(2 * SECOND);
        let steps = [
            End(1),
            Work(due.saturating_sub(1), 10),
            Work(sent, 10),
            Work(again.saturating_sub(1), 100),
            Work(again, 10),
            Word,
        ];
        let case = Case {
            made,
            words: &[11, 22, 33],
            ..case(config, &[IN_TWO_SECONDS], &steps)
        };
        assert_answers(
            rt,
            rt.alloc(),
            &case,
            " Queued(0) 0 1 1 2 33 accepted 1 taken 1 handed 1 delivered 1",
        );
    }
}

/// The first wait after no reply is of 1000 milliseconds, less the word modulo half of that and one
/// more, 501. The batch isn't sent a nanosecond earlier.
#[test]
fn a_batch_without_a_reply_waits_as_its_word_says(rt: HostRuntime) {
    let sent = 79 * SECOND + 3;
    for (word, wait_ms) in [(0, 1000), (7, 993), (1001, 500)] {
        let mut config = config(1, 1);
        config.retry = RetryConfig::new(2, 1000, 1000).expect(&rt, "a retry");
        let again = sent.saturating_add(wait_ms * 1_000_000);
        let steps = [
            End(1),
            Work(sent, 4),
            Work(again.saturating_sub(1), 10),
            Work(again, 10),
        ];
        let case = Case {
            words: &[word],
            ..case(config, &[NONE], &steps)
        };
        assert_answers(
            rt,
            rt.alloc(),
            &case,
            " Queued(0) 1 1 2 accepted 1 taken 1 handed 1 delivered 1",
        );
    }
}

/// A turn waits for a millisecond where no span waits or a batch isn't full, and for five once a
/// thousand looks found no further span, or where it isn't time yet to send a batch again. So turns
/// take about that, though some may be woken early: the worker takes no processor meanwhile.
#[test]
fn idle_turns_take_their_time(rt: HostRuntime) {
    let sent = " Queued(0) 1 1 true accepted 1 taken 1 handed 1 lost 1 abandoned 1 (0, LeftHanded)";
    let waits = " Queued(0) 0 0 true accepted 1 left 1";
    for (batch, spans, turns, least_ms, want) in [
        (4, 0, 20, 10, " Late 0 0 true"),
        (4, 1, 20, 10, waits),
        (4, 1, 1_500, 2_500, waits),
        (1, 1, 20, 50, sent),
    ] {
        let steps = [End(spans), Work(0, 4), Idle(SECOND, turns, least_ms)];
        let case = case(config(8, batch), &[IN_TWO_SECONDS], &steps);
        assert_answers(rt, rt.alloc(), &case, want);
    }
}

/// A batch of one span is in hand after this number of turns, and another span waits, while a pass
/// is missing. What was to be closed out is dropped, and so is the worker. The missing pass finds
/// the name of the span, and its flush is answered.
#[test]
fn what_is_discarded_is_named(rt: HostRuntime) {
    for (turns, want) in [
        (
            1,
            concat!(
                " Queued(1) 0 BatchProcessor { passes: 2, .. } Pass { .. } WorkerPass { .. }",
                " (0, Abandoned) None None None Err(WorkerLeft)",
            ),
        ),
        (
            3,
            concat!(
                " Queued(1) 1 BatchProcessor { passes: 2, .. } Pass { .. } WorkerPass { .. }",
                " None None (0, LeftHanded) None Err(WorkerLeft)",
            ),
        ),
    ] {
        let steps = [End(2), Work(0, turns)];
        let after = [Pop, Pop, PopLost, PopLost, Flush];
        let case = Case {
            after: Some(after.as_slice()),
            ..case(config(2, 1), &[], &steps)
        };
        assert_answers(rt, rt.alloc(), &case, want);
    }
}
