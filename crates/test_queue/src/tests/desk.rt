//! Large desks. With the checks of `rt try` a million spans take minutes, more than it waits for:
//! `rt try --test --seconds 600`.
use crate::tests::driver::Driver;
use crate::tests::equal::assert_equal;
use crate::tests::spans::name;
use batch_desk::{FateCounts, Totals};
use linked_list_allocator::LocalHeap;
use otlp_span::Reason;
use span_ring::MAX_QUEUE;
use std::alloc::Allocator;
use std::process::Abort;
use test_support::FailingAllocator;

/// How many spans are in a batch of the largest queue.
const MANY: u64 = 2048;

#[test]
fn a_batch_of_thousands_is_named_and_a_desk_goes_with_what_it_has(rt: HostRuntime) {
    let mut desk = Driver::of_sizes(&rt, rt.alloc(), MAX_QUEUE, MANY as usize);
    desk.queue(&rt, 0..MANY);
    let batch = desk.take(&rt);
    desk.queue(&rt, MANY..MANY + 3);
    desk.drop_named(&rt, batch);
    for number in (2..MANY).rev() {
        desk.pop(&rt, Some(name(number, Reason::TooLarge)));
    }
    let left = (desk.desk.ledger().len(), desk.desk.waiting());
    assert_equal(&rt, left, (2, 3));
    drop(desk);
}

/// How many rounds there are, in each of which a batch is lost.
const ROUNDS: u64 = 15_625;

/// How many spans are in a batch.
const BATCH: u64 = 64;

/// Ends the spans of a round. After each end the next name of the batch before is popped, the
/// newest first.
fn end_and_pop<A: Allocator + Copy>(rt: &impl Abort, desk: &mut Driver<A>, round: u64) {
    let first = round.saturating_mul(BATCH);
    let mut lost = first;
    for number in first..first.saturating_add(BATCH) {
        desk.queue(rt, number..number.saturating_add(1));
        lost = lost.saturating_sub(1);
        let popped = (round > 0).then_some(name(lost, Reason::GivenUp));
        desk.pop_lost(rt, popped);
    }
}

/// Hands the next batch over, which is given up: that takes no memory, of which each call is
/// counted.
fn lose_next<A: Allocator + Copy, B: Allocator>(
    rt: &impl Abort,
    desk: &mut Driver<A>,
    counting: &FailingAllocator<B>,
) {
    let calls = counting.calls();
    let batch = desk.take(rt);
    desk.hand(rt, &batch);
    desk.give_up(rt, batch);
    assert_equal(rt, counting.calls(), calls);
}

/// The totals of a desk that has lost a million spans.
fn lost_totals() -> Totals {
    Totals {
        accepted: 1_000_000,
        taken: 1_000_000,
        handed: 1_000_000,
        lost: 1_000_000,
        fates: FateCounts {
            given_up: 15_625,
            ..FateCounts::default()
        },
        ..Totals::default()
    }
}

/// A million spans are lost. After each round as much memory is used as after the first one, and in
/// the end as much as before it.
fn lose_a_million<A: Allocator + Copy, B: Allocator>(
    rt: &impl Abort,
    heap: &LocalHeap,
    alloc: A,
    counting: &FailingAllocator<B>,
) {
    let mut desk = Driver::of_sizes(rt, alloc, BATCH as usize, BATCH as usize);
    let empty = heap.used();
    let mut used = 0;
    for round in 0..ROUNDS {
        end_and_pop(rt, &mut desk, round);
        lose_next(rt, &mut desk, counting);
        if round == 0 {
            used = heap.used();
        }
        assert_equal(rt, (round, heap.used()), (round, used));
    }
    for number in (999_936..1_000_000).rev() {
        desk.pop_lost(rt, Some(name(number, Reason::GivenUp)));
    }
    desk.pop_lost(rt, None);
    assert_equal(rt, heap.used(), empty);
    assert_equal(rt, desk.desk.totals(), lost_totals());
}

#[test]
fn a_million_lost_spans_are_popped_while_others_end(rt: HostRuntime) {
    // There is no room for as many names as there are.
    let heap = LocalHeap::new(rt.alloc(), 65_536).expect(&rt, "memory");
    let counting = FailingAllocator::new(&heap, u64::MAX);
    lose_a_million(&rt, &heap, &counting, &counting);
    assert_equal(&rt, heap.used(), 0);
}
