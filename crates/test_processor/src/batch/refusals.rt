//! A processor to which memory is refused once, at each place in turn, and what takes no memory.
use crate::batch::cases::{case, config};
use crate::batch::player::Step::{Drain, End, Memory, Work};
use crate::batch::player::{Step, place_of};
use crate::equal::assert_equal;
use linked_list_allocator::LocalHeap;
use retry_core::Outcome;
use std::alloc::Global;
use std::process::Abort;
use std::sync::Wait;
use std::time::Clock;
use test_support::FailingAllocator;

/// Three batches of two spans, of which the first is settled while half a one waits: each of the
/// next two spans, at its end, has one of the first batch freed in its place, so that as much
/// memory is used as before.
const STEPS: [Step; 9] = [
    End(3),
    Work(0, 4),
    Memory,
    End(1),
    Memory,
    End(1),
    Memory,
    End(1),
    Work(0, 8),
];

/// What is answered where one call for memory is refused: nothing is reported of it, the processor
/// isn't made, or the spans of one of the batches are named.
const TEXTS: [&str; 5] = [
    concat!(
        " Queued(2) 1 (false, false) Queued(3) (false, true) Queued(4) (false, true) Queued(5) 3",
        " accepted 6 taken 6 handed 6 delivered 3",
    ),
    " OutOfMemory",
    concat!(
        " Queued(2) 0 (false, false) Queued(3) (false, false) Queued(4) (false, false) Queued(5) 2",
        " accepted 6 taken 6 handed 4 no memory 2 delivered 2 (1, EncodeMemory) (0, EncodeMemory)",
    ),
    concat!(
        " Queued(2) 1 (false, false) Queued(3) (false, true) Queued(4) (false, true) Queued(5) 2",
        " accepted 6 taken 6 handed 4 no memory 2 delivered 2 (3, EncodeMemory) (2, EncodeMemory)",
    ),
    concat!(
        " Queued(2) 1 (false, false) Queued(3) (false, true) Queued(4) (false, true) Queued(5) 2",
        " accepted 6 taken 6 handed 4 no memory 2 delivered 2 (5, EncodeMemory) (4, EncodeMemory)",
    ),
];

#[test]
fn each_refusal_of_memory_is_reported(rt: HostRuntime) {
    let heap = LocalHeap::new(rt.alloc(), 65_536).expect(&rt, "memory");
    let ample = FailingAllocator::new(&heap, u64::MAX);
    let case = case(config(4, 2), &[], &STEPS);
    let mut counts = [0u32; 5];
    let mut has_failed = true;
    for fail_index in 0..150 {
        let scarce = FailingAllocator::new(&heap, fail_index);
        let place = place_of(rt, &heap, &ample, &scarce, &case, &TEXTS);
        let count = counts.get_mut(place).expect(&rt, "a count");
        *count = count.saturating_add(1);
        assert_equal(&rt, heap.used(), 0);
        has_failed = scarce.has_failed();
    }
    // Each call for memory was refused once.
    assert_equal(&rt, has_failed, false);
    for count in counts {
        assert_equal(&rt, count > 4, true);
    }
}

/// How many calls for memory a processor makes, and what is handed over, in so many of these steps.
fn calls<R: Wait + Abort + Clock + Copy>(rt: R, alloc: Global, steps: usize, want: &str) -> u64 {
    let heap = LocalHeap::new(alloc, 65_536).expect(&rt, "memory");
    let ample = FailingAllocator::new(&heap, u64::MAX);
    let counting = FailingAllocator::new(&heap, u64::MAX);
    let all = [End(2), Work(0, 3), Work(0, 1), Drain];
    let steps = all.get(..steps).expect(&rt, "steps");
    let case = case(config(4, 2), &[Outcome::Refused(400)], steps);
    place_of(rt, &heap, &ample, &counting, &case, &[want]);
    counting.calls()
}

/// A batch is handed over and refused. To judge that, to name the spans, to free all else of them
/// and to drain their names takes no memory.
#[test]
fn a_batch_is_lost_without_memory(rt: HostRuntime) {
    let handed = concat!(
        " Queued(1) 1 accepted 2 taken 2 handed 2 lost 2 abandoned 1",
        " (1, LeftHanded) (0, LeftHanded)",
    );
    let drained = concat!(
        " Queued(1) 1 1 (0, Refused(400)) (1, Refused(400))",
        " accepted 2 taken 2 handed 2 lost 2 refused 1",
    );
    let before = calls(rt, rt.alloc(), 2, handed);
    assert_equal(&rt, calls(rt, rt.alloc(), 4, drained), before);
}

const SENT: &str = concat!(
    " Queued(1) (false, false) 1 (true, false) Queued(2) (false, false)",
    " accepted 3 taken 2 handed 2 left 1 delivered 1",
);

/// A batch is sent while no span waits: its spans and its body are freed at once, so that as much
/// memory is used as before they ended. The next end has none freed in its place.
#[test]
fn spans_that_were_sent_while_none_waits_are_freed(rt: HostRuntime) {
    let heap = LocalHeap::new(rt.alloc(), 65_536).expect(&rt, "memory");
    let ample = FailingAllocator::new(&heap, u64::MAX);
    let steps = [End(2), Memory, Work(0, 4), Memory, End(1), Memory];
    let case = case(config(4, 2), &[], &steps);
    place_of(rt, &heap, &ample, &ample, &case, &[SENT]);
}
