//! Each call for memory refused once: of a desk, a sender and an exporter, and of texts. And a text
//! of a thousand spans.
ghost use Rattle.std.specs.Prelude.{◌≡◌};
ghost use Rattle.relay_queue.specs.Senders.{to_send};

use crate::tests::equal::assert_equal;
use crate::tests::relay::FIRST;
use relay_queue::{BodyConfig, BodyDesk, BodySender, Loss, LostSpan, Report, SendConfig};
use relay_service::{write_lost, write_metrics, write_stats};
use retry_core::{Next, Outcome};
use span_exporter::MemoryExporter;
use std::alloc::{AllocError, Allocator, Global};
use test_support::FailingAllocator;

/// How many calls for memory there are: a body, the line, the room for the bodies of the batch, its
/// bytes, and three of the exporter.
const CALLS: u64 = 7;

/// Hands on the batch in hand, or the next one of a desk: 2 where it isn't taken, 3 where it isn't
/// sent, and 4 where it is delivered.
fn send<A: Allocator + Copy + Drop>(
    desk: &mut BodyDesk<A>,
    sender: &mut BodySender<A>,
    exporter: &mut MemoryExporter<A>,
) -> u64 {
    if sender.is_pending() {
        return 9;
    }
    if sender.has_batch() {
        return attempt(sender, exporter);
    }
    match sender.take(desk) {
        Ok(true) => attempt(sender, exporter),
        Ok(false) => 9,
        Err(_) => 2,
    }
}

/// Hands on the batch in hand: 3 where it isn't sent, and 4 where it is delivered.
fn attempt<A: Allocator + Copy + Drop>(
    sender: &mut BodySender<A>,
    exporter: &mut MemoryExporter<A>,
) -> u64
    requires { sender.old.stage ≡ to_send }
{
    match sender.attempt(exporter) {
        Ok(Outcome::Delivered) => 4,
        Ok(_) => 9,
        Err(_) => 3,
    }
}

/// How far a body comes: 0 where it can't be made, 1 where it isn't admitted, 2 where it isn't
/// taken, 3 where it isn't sent at first, and 4 where it is; and how many bodies are delivered
/// where the sender goes on until no memory is refused.
fn steps<A: Allocator + Copy + Drop>(alloc: A) -> (u64, u64) {
    let config = BodyConfig {
        batch_bytes: 10,
        memory_bytes: 1000,
    };
    let mut desk = BodyDesk::new(alloc, config);
    let mut sender = BodySender::new(alloc, SendConfig::default());
    let mut exporter = MemoryExporter::new(alloc, Vec::new(alloc));
    let Ok(body) = FIRST.to_vec(alloc) else {
        return (0, desk.counts().delivered);
    };
    if let Err((_, same)) = desk.admit(body) {
        return (u64::from(same.as_slice() == FIRST), desk.counts().delivered);
    }
    let far = send(&mut desk, &mut sender, &mut exporter);
    if far < 4 {
        send(&mut desk, &mut sender, &mut exporter);
    }
    if !sender.is_pending() {
        return (9, desk.counts().delivered);
    }
    let settled = sender.settle(&mut desk, 0, 0);
    let is_first = settled.next == Next::Done && sender.attempts() == 1;
    (if is_first { far } else { 9 }, desk.counts().delivered)
}

#[test]
fn each_call_of_a_sender_for_memory_is_refused_in_turn(rt: HostRuntime) {
    let wanted = [
        (0, 0),
        (1, 0),
        (2, 1),
        (2, 1),
        (3, 1),
        (3, 1),
        (3, 1),
        (4, 1),
    ];
    let mut fail_index: u64 = 0;
    for want in wanted {
        let scarce = FailingAllocator::new(rt.alloc(), fail_index);
        assert_equal(&rt, steps(&scarce), want);
        assert_equal(&rt, scarce.has_failed(), fail_index < CALLS);
        fail_index = fail_index.saturating_add(1);
    }
}

/// This many lost spans.
fn spans(alloc: Global, count: usize) -> Result<Vec<LostSpan>, AllocError> {
    let mut spans = Vec::new(alloc);
    for _ in 0..count {
        spans.push(LostSpan {
            trace: [7; 16].to_vec(alloc)?,
            span: [8; 8].to_vec(alloc)?,
            loss: Loss::Abandoned,
        })?;
    }
    Ok(spans)
}

/// Whether each text was written, where an allocator refuses one call.
fn are_written(alloc: &FailingAllocator<Global>, spans: &[LostSpan]) -> bool {
    let mut text = String::new(alloc);
    write_stats(alloc, &Report::default()).is_ok()
        && write_lost(alloc, spans).is_ok()
        && write_metrics(&mut text, &Report::default(), 3).is_ok()
}

#[test]
fn each_call_of_a_text_for_memory_is_refused_in_turn(rt: HostRuntime) {
    let spans = spans(rt.alloc(), 9).expect(&rt, "memory");
    for index in 0..1_000u64 {
        let alloc = FailingAllocator::new(rt.alloc(), index);
        let is_written = are_written(&alloc, &spans);
        assert_equal(&rt, is_written, !alloc.has_failed());
        if is_written {
            return;
        }
    }
    panic!(rt; "memory is refused at each call");
}

#[test]
fn a_thousand_lost_spans_are_written(rt: HostRuntime) {
    let alloc = rt.alloc();
    let spans = spans(alloc, 1_000).expect(&rt, "memory");
    let text = write_lost(alloc, &spans).expect(&rt, "memory");
    // Each has 32 and 16 digits and 47 more bytes, and a comma after it but for the last.
    assert_equal(&rt, text.len(), 9 + 1_000 * (48 + 47) + 999 + 2);
}
