//! Rings, desks and sinks of names, made where memory is there, and with each call for memory
//! refused in turn.
use crate::tests::equal::assert_equal;
use batch_desk::{Desk, DeskConfig};
use drop_ledger::NewestNames;
use linked_list_allocator::LocalHeap;
use span_ring::{RingFault, SpanRing};
use std::alloc::{Allocator, Global};
use std::process::Abort;
use test_support::FailingAllocator;

/// What is made.
#[derive(Debug, Clone, Copy, PartialEq, Eq)]
enum Making {
    /// A ring with room for four, with runs of so many.
    Ring(usize),
    /// A desk with room for four, with batches of two.
    Desk,
    /// A sink for eight names of each kind.
    Sink,
}

fn ring_fault<A: Allocator + Copy>(alloc: A, batch: usize) -> Option<RingFault> {
    let made: Result<SpanRing<u32, A>, RingFault> = SpanRing::new(alloc, 4, batch);
    made.err()
}

fn desk_fault<A: Allocator + Copy>(alloc: A) -> Option<RingFault> {
    let config = DeskConfig {
        queue: 4,
        batch: 2,
        delay_ms: 0,
    };
    Desk::new(alloc, config, 0).err()
}

/// Want of memory is its only fault.
fn sink_fault<A: Allocator + Copy>(alloc: A) -> Option<RingFault> {
    NewestNames::new(alloc, 8)
        .is_err()
        .then_some(RingFault::OutOfMemory)
}

/// Makes this while the call for memory of this index is refused, which has to be the answer.
/// Answers whether there was such a call. Nothing is kept of what is made.
fn is_refused(rt: &impl Abort, alloc: Global, making: Making, fail_index: u64) -> bool {
    let heap = LocalHeap::new(alloc, 16_384).expect(rt, "memory");
    let scarce = FailingAllocator::new(&heap, fail_index);
    let fault = match making {
        Making::Ring(batch) => ring_fault(&scarce, batch),
        Making::Desk => desk_fault(&scarce),
        Making::Sink => sink_fault(&scarce),
    };
    let is_refused = scarce.has_failed();
    let want = is_refused.then_some(RingFault::OutOfMemory);
    let place = (making, fail_index);
    assert_equal(rt, (place, fault), (place, want));
    assert_equal(rt, (place, heap.used()), (place, 0));
    is_refused
}

/// How many calls for memory are refused, each in its turn, before this is made.
fn count_refused(rt: &impl Abort, alloc: Global, making: Making) -> u64 {
    for fail_index in 0..100u64 {
        if !is_refused(rt, alloc, making, fail_index) {
            return fail_index;
        }
    }
    100
}

#[test]
fn each_call_for_memory_is_refused_in_turn(rt: HostRuntime) {
    // A ring takes the list of segments that wait and that of spare ones, and each segment: as many
    // as the queue fills, and one more. A desk takes a ring, and a sink room for each kind of name.
    for (making, calls) in [
        (Making::Ring(4), 4),
        (Making::Ring(2), 5),
        (Making::Ring(1), 7),
        (Making::Desk, 5),
        (Making::Sink, 2),
    ] {
        let refused = count_refused(&rt, rt.alloc(), making);
        assert_equal(&rt, (making, refused), (making, calls));
    }
}
