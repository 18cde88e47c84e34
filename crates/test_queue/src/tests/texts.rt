//! What is shown of rings, slips and sinks, and how bad settings are reported.
use crate::tests::equal::assert_equal;
use crate::tests::spans::{Spans, name};
use drop_ledger::{NameSink, NewestNames};
use otlp_span::Reason;
use retry_core::BadRetry;
use span_ring::SpanRing;
use std::alloc::Global;
use std::fmt::Debug;
use std::process::Abort;
use std::test::Fail;

/// Asserts what `Debug` shows.
fn assert_shown(rt: &impl Abort, alloc: Global, value: &impl Debug, text: &str) {
    let found = format!(in alloc; "{value:?}").expect(rt, "memory");
    assert_equal(rt, found.as_str(), text);
}

#[test]
fn a_ring_and_its_run_are_shown(rt: HostRuntime) -> Result<(), Fail> {
    let mut ring: SpanRing<u32> = SpanRing::new(rt.alloc(), 3, 2)?;
    for item in 0..4 {
        assert_equal(&rt, ring.push(item).is_ok(), item < 3);
    }
    assert!(rt; !ring.run_out());
    let run = ring.take_run().expect(&rt, "items wait");
    assert_shown(&rt, rt.alloc(), &run, "[0, 1]");
    let text = "SpanRing { items: [2], queue: 3, batch: 2, run_out: true }";
    assert_shown(&rt, rt.alloc(), &ring, text);
    assert!(rt; ring.run_out() && run.room() == ring.batch());
    ring.give_back(run);
    Ok(())
}

/// Two slips that are linked.
const CHAIN: &str = concat!(
    "[Entry { trace: TraceId([1, 1, 1, 1, 1, 1, 1, 1, 1, 1, 1, 1, 1, 1, 1, 1]), ",
    "span: SpanId([0, 0, 0, 0, 0, 0, 0, 2]), ticket: 2, reason: Abandoned }, ",
    "Entry { trace: TraceId([1, 1, 1, 1, 1, 1, 1, 1, 1, 1, 1, 1, 1, 1, 1, 1]), ",
    "span: SpanId([0, 0, 0, 0, 0, 0, 0, 1]), ticket: 1, reason: TooLarge }]",
);

#[test]
fn slips_that_are_linked_are_shown(rt: HostRuntime) {
    let spans = Spans::new(&rt, rt.alloc());
    let below = spans.ended(&rt, 1).into_slip();
    let below = below.link(name(1, Reason::TooLarge), None);
    let slip = spans.ended(&rt, 2).into_slip();
    let chain = slip.link(name(2, Reason::Abandoned), Some(below));
    assert_shown(&rt, rt.alloc(), &chain, CHAIN);
}

/// A sink that keeps one name of each kind, after two and three.
const SINK: &str = concat!(
    "NewestNames { most: 1, dropped: [Entry { trace: ",
    "TraceId([1, 1, 1, 1, 1, 1, 1, 1, 1, 1, 1, 1, 1, 1, 1, 1]), ",
    "span: SpanId([0, 0, 0, 0, 0, 0, 0, 2]), ticket: 2, reason: TooLarge }], ",
    "lost: [Entry { trace: ",
    "TraceId([1, 1, 1, 1, 1, 1, 1, 1, 1, 1, 1, 1, 1, 1, 1, 1]), ",
    "span: SpanId([0, 0, 0, 0, 0, 0, 0, 5]), ticket: 5, reason: GivenUp }], ",
    "older: ReasonCounts { queue_full: 0, encode_memory: 0, too_large: 1, abandoned: 0, ",
    "refused: 0, bad_reply: 0, given_up: 2, left_handed: 0 } }",
);

#[test]
fn a_sink_is_shown(rt: HostRuntime) -> Result<(), Fail> {
    let mut sink = NewestNames::new(rt.alloc(), 1)?;
    for number in 1..3 {
        sink.take_dropped(name(number, Reason::TooLarge));
    }
    for number in 3..6 {
        sink.take_lost(name(number, Reason::GivenUp));
    }
    assert_shown(&rt, rt.alloc(), &sink, SINK);
    Ok(())
}

/// How refused settings are reported.
const BAD_RETRY: &str =
    "bad retry settings: 1 to 5 attempts, a wait of 1 to 30000 ms, the longest to 300000 ms, \
     the least to the longest";

#[test]
fn bad_settings_are_reported(rt: HostRuntime) {
    let found = format!(in rt.alloc(); "{BadRetry}").expect(&rt, "memory");
    assert_equal(&rt, found.as_str(), BAD_RETRY);
}
