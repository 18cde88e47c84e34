//! The calls of a desk that are made under a lock neither take nor free memory.
use crate::tests::driver::Driver;
use crate::tests::equal::assert_equal;
use batch_desk::{Admitted, Batch};
use linked_list_allocator::LocalHeap;
use otlp_span::Reason;
use retry_core::Fate;
use std::alloc::Allocator;
use std::process::Abort;

/// Offers a span: who calls that frees what is left of a span that isn't queued.
fn offer<A: Allocator + Copy>(
    rt: &impl Abort,
    heap: &LocalHeap,
    desk: &mut Driver<A>,
    number: u64,
    want: Admitted,
) {
    let span = desk.spans.ended(rt, number);
    let used = heap.used();
    let (answer, remains) = desk.desk.offer(span);
    assert_equal(rt, (answer, heap.used()), (want, used));
    drop(remains);
    assert_equal(rt, heap.used() < used, want != Admitted::Queued(number));
}

fn take<A: Allocator + Copy>(rt: &impl Abort, heap: &LocalHeap, desk: &mut Driver<A>) -> Batch<A> {
    let used = heap.used();
    let batch = desk.take(rt);
    assert_equal(rt, heap.used(), used);
    batch
}

/// Drops the next batch: its spans are freed where they are named.
fn drop_next<A: Allocator + Copy>(rt: &impl Abort, heap: &LocalHeap, desk: &mut Driver<A>) {
    let batch = take(rt, heap, desk);
    let used = heap.used();
    let named = batch.into_named(Reason::TooLarge);
    let named_used = heap.used();
    assert_equal(rt, named_used < used, true);
    assert!(rt; desk.desk.can_drop(&named));
    desk.desk.drop_named(named);
    assert_equal(rt, heap.used(), named_used);
}

/// Settles the next batch, whose one span goes into room that is made for it.
fn settle_next<A: Allocator + Copy>(
    rt: &impl Abort,
    heap: &LocalHeap,
    desk: &mut Driver<A>,
    alloc: A,
) {
    let mut batch = take(rt, heap, desk);
    let mut spent = Vec::with_capacity(alloc, 1).expect(rt, "memory");
    let used = heap.used();
    desk.hand(rt, &batch);
    batch.clear_into(&mut spent);
    desk.settle(rt, batch, Fate::Delivered);
    assert_equal(rt, heap.used(), used);
    drop(spent);
    assert_equal(rt, heap.used() < used, true);
}

/// Fills a desk with room for two spans, drops its first batch, shuts it down and settles its
/// second one.
fn run<A: Allocator + Copy>(rt: &impl Abort, heap: &LocalHeap, alloc: A) {
    let mut desk = Driver::of_sizes(rt, alloc, 2, 2);
    offer(rt, heap, &mut desk, 0, Admitted::Queued(0));
    offer(rt, heap, &mut desk, 1, Admitted::Queued(1));
    offer(rt, heap, &mut desk, 2, Admitted::Full(2));
    drop_next(rt, heap, &mut desk);
    offer(rt, heap, &mut desk, 3, Admitted::Queued(3));
    desk.desk.shutdown();
    offer(rt, heap, &mut desk, 4, Admitted::Late);
    settle_next(rt, heap, &mut desk, alloc);
}

#[test]
fn no_call_under_a_lock_takes_or_frees_memory(rt: HostRuntime) {
    let heap = LocalHeap::new(rt.alloc(), 16_384).expect(&rt, "memory");
    run(&rt, &heap, &heap);
    assert_equal(&rt, heap.used(), 0);
}
