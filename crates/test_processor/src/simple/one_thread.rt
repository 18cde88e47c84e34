//! Spans that end on one thread: what is answered, written down, and each refusal of memory.
ghost use Rattle.std.specs.Prelude.{◌≡◌};

use crate::equal::assert_equal;
use crate::notes::{note, note_name, note_names, note_totals, place_in};
use crate::roots::end;
use crate::simple::neighbors::{close_out, make};
use linked_list_allocator::LocalHeap;
use otlp_proto::DEFAULT_MAX_BODY;
use retry_core::Outcome;
use simple_processor::{
    Naming, SimpleBlank, SimpleMissing, SimpleParts, SimplePass, SimpleProcessor,
};
use span_exporter::{Handed, MemoryExporter};
use std::alloc::{Allocator, Global};
use std::fmt::Write;
use std::marker::Brand;
use std::process::Abort;
use std::sync::Wait;
use test_support::FailingAllocator;

/// The body of a request with one root.
const BODY: &str = concat!(
    "0a440a0012400a030a0173",
    "1239",
    "0a100102030405060708090a0b0c0d0e0f1012081112131415161718",
    "2a01613001390100000000000000410200000000000000",
    "850101010000",
);

/// Roots end on a pass, and then so many names of each kind are taken out on another one.
#[derive(Clone, Copy)]
struct Case<'a> {
    outcomes: &'a [Outcome],
    spans: u32,
    pops: u32,
}

/// Asserts that each body that was handed over is that of one root.
fn assert_handed<A: Allocator + Copy>(rt: &impl Abort, alloc: A, handed: &[Handed<A>]) {
    for attempt in handed {
        let body = hex::encode(alloc, attempt.body.as_slice()).expect(rt, "memory");
        assert_equal(rt, body.as_str(), BODY);
    }
}

/// Takes so many names out, and shuts the processor down.
fn ask<J: Naming, R: Wait + Abort, A: Allocator + Copy>(
    rt: &R,
    pass: &mut SimplePass<J, MemoryExporter<A>, R, A>,
    pops: u32,
    notes: &mut String<A>,
) {
    for _ in 0..pops {
        note_name(rt, notes, pass.pop_entry());
        note_name(rt, notes, pass.pop_lost());
    }
    note(rt, notes, pass.shutdown());
}

/// Closes a processor out, first without a pass, and then with all.
fn close<J: Naming, R: Wait + Abort + Copy, A: Allocator + Copy>(
    rt: R,
    alloc: A,
    processor: SimpleProcessor<J, MemoryExporter<A>, R, A>,
    mut passes: Vec<SimplePass<J, MemoryExporter<A>, R, A>, A>,
    notes: &mut String<A>,
) {
    let last = passes.pop().expect(&rt, "a pass");
    let missing = close_out(processor, passes).err();
    let SimpleMissing {
        processor,
        mut passes,
    } = missing.expect(&rt, "a pass is missing");
    passes.push(last).expect(&rt, "room for a pass");
    let accounts = close_out(processor, passes).ok();
    let accounts = accounts.expect(&rt, "all passes are there");
    note_totals(&rt, notes, accounts.totals);
    note_names(&rt, notes, &accounts.ledger);
    note_names(&rt, notes, &accounts.lost);
    assert_handed(&rt, alloc, accounts.exporter.handed());
    note(&rt, notes, accounts.exporter.handed().len());
}

/// Does what a case says with a processor. It and the exporter are on scarce memory, and all else
/// is on ample one.
fn play<J, R, A>(rt: R, ample: A, scarce: A, blank: SimpleBlank, case: Case<'_>) -> String<A>
where
    J: Naming,
    R: Wait + Abort + Copy,
    A: Allocator + Copy,
    requires { blank ≡ J.name }
{
    let mut notes = String::new(ample);
    let outcomes = Vec::from_slice(ample, case.outcomes).expect(&rt, "memory");
    let exporter = MemoryExporter::new(scarce, outcomes);
    let SimpleParts {
        processor,
        mut passes,
    } = match make::<J, _, R, A>(scarce, rt, blank, exporter, 2, DEFAULT_MAX_BODY) {
        Ok(parts) => parts,
        Err(fault) => {
            note(&rt, &mut notes, fault);
            return notes;
        }
    };
    let first = passes.first_mut().expect(&rt, "a pass");
    for _ in 0..case.spans {
        note(&rt, &mut notes, end(&rt, ample, "", first));
    }
    note(&rt, &mut notes, first.force_flush());
    let last = passes.last_mut().expect(&rt, "a pass");
    ask(&rt, last, case.pops, &mut notes);
    let first = passes.first_mut().expect(&rt, "a pass");
    note(&rt, &mut notes, end(&rt, ample, "", first));
    write!(notes, " {processor:?}").expect(&rt, "memory");
    close(rt, ample, processor, passes, &mut notes);
    notes
}

/// Does what a case says. At which place of these texts is what is written down?
fn place_of<R, A>(rt: R, ample: A, scarce: A, case: Case<'_>, texts: &[&str]) -> usize
where
    R: Wait + Abort + Copy,
    A: Allocator + Copy,
{
    let notes = play::<Brand, R, A>(rt, ample, scarce, SimpleBlank::new(), case);
    place_in(&rt, texts, notes.as_str())
}

/// Each outcome is that of the one attempt to send a span.
#[test]
fn each_outcome_is_counted_and_named(rt: HostRuntime) {
    let outcomes = [
        Outcome::Delivered,
        Outcome::Partial(1),
        Outcome::Later {
            status: 503,
            after: None,
        },
        Outcome::Refused(400),
        Outcome::NoReply,
        Outcome::Bad,
    ];
    let case = Case {
        outcomes: &outcomes,
        spans: 6,
        pops: 3,
    };
    let heap = LocalHeap::new(rt.alloc(), 65_536).expect(&rt, "memory");
    let ample = FailingAllocator::new(&heap, u64::MAX);
    let want = concat!(
        " Handed(0) Handed(1) Handed(2) Handed(3) Handed(4) Handed(5) Flushed",
        " None (5, BadReply) None (4, GivenUp) None (3, Refused(400)) Flushed Late",
        " SimpleProcessor { passes: 2, .. } accepted 6 taken 6 handed 6 lost 4 late 1",
        " delivered 1 partial 1 refused 1 bad 1 given up 2 closed 1 (2, GivenUp) 6",
    );
    place_of(rt, &ample, &ample, case, &[want]);
}

/// Two spans end where one call for memory is refused: nothing is reported of that, the processor
/// isn't made, or one of the spans is named.
const TEXTS: [&str; 4] = [
    concat!(
        " Handed(0) Handed(1) Flushed None None Flushed Late SimpleProcessor { passes: 2, .. }",
        " accepted 2 taken 2 handed 2 late 1 delivered 2 closed 1 2",
    ),
    " OutOfMemory",
    concat!(
        " Dropped(0, EncodeMemory) Handed(1) Flushed (0, EncodeMemory) None Flushed Late",
        " SimpleProcessor { passes: 2, .. } accepted 1 taken 1 handed 1 late 1 no memory 1",
        " delivered 1 closed 1 1",
    ),
    concat!(
        " Handed(0) Dropped(1, EncodeMemory) Flushed (1, EncodeMemory) None Flushed Late",
        " SimpleProcessor { passes: 2, .. } accepted 1 taken 1 handed 1 late 1 no memory 1",
        " delivered 1 closed 1 1",
    ),
];

/// How often each of these texts was written down, where each call for memory is refused once.
#[test]
fn each_refusal_of_memory_is_reported(rt: HostRuntime) {
    let heap = LocalHeap::new(rt.alloc(), 65_536).expect(&rt, "memory");
    let ample = FailingAllocator::new(&heap, u64::MAX);
    let case = Case {
        outcomes: &[],
        spans: 2,
        pops: 1,
    };
    let mut counts = [0u32; 4];
    let mut has_failed = true;
    for fail_index in 0..150 {
        let scarce = FailingAllocator::new(&heap, fail_index);
        let place = place_of(rt, &ample, &scarce, case, &TEXTS);
        let count = counts.get_mut(place).expect(&rt, "a count");
        *count = count.saturating_add(1);
        assert_equal(&rt, heap.used(), 0);
        has_failed = scarce.has_failed();
    }
    assert_equal(&rt, has_failed, false);
    for count in counts {
        assert_equal(&rt, count > 2, true);
    }
}

/// How many calls for memory a processor makes, of which so many names are taken out.
fn calls<R: Wait + Abort + Copy>(rt: R, alloc: Global, pops: u32, want: &str) -> u64 {
    let heap = LocalHeap::new(alloc, 65_536).expect(&rt, "memory");
    let ample = FailingAllocator::new(&heap, u64::MAX);
    let counting = FailingAllocator::new(&heap, u64::MAX);
    let case = Case {
        outcomes: &[Outcome::Refused(400)],
        spans: 1,
        pops,
    };
    place_of(rt, &ample, &counting, case, &[want]);
    counting.calls()
}

#[test]
fn a_refused_span_is_popped_without_memory(rt: HostRuntime) {
    let kept = concat!(
        " Handed(0) Flushed Flushed Late SimpleProcessor { passes: 2, .. } accepted 1 taken 1",
        " handed 1 lost 1 late 1 refused 1 closed 1 (0, Refused(400)) 1",
    );
    let popped = concat!(
        " Handed(0) Flushed None (0, Refused(400)) None None Flushed Late",
        " SimpleProcessor { passes: 2, .. } accepted 1 taken 1 handed 1 lost 1 late 1 refused 1",
        " closed 1 1",
    );
    let before = calls(rt, rt.alloc(), 0, kept);
    assert_equal(&rt, calls(rt, rt.alloc(), 2, popped), before);
}
