//! Does what a case says with a batch processor, on one thread, and writes down what is answered.
ghost use Rattle.std.specs.Prelude.{◌≡◌, ◌^◌};
ghost use Rattle.batch_processor.specs.Working.{IsPrepared};

use crate::batch::collector::{Collector, Sent};
use crate::batch::neighbors::{close_out, make};
use crate::equal::assert_equal;
use crate::notes::{note, note_name, note_names, note_totals, place_in};
use crate::roots::end;
use batch_desk::DrainedNames;
use batch_processor::{
    BatchBlank, BatchConfig, BatchProcessor, Clock as _, Missing, Naming, Parts, Pass, SystemClock,
    WorkEnd, WorkerPass,
};
use linked_list_allocator::LocalHeap;
use rand_core::Rng;
use retry_core::Outcome;
use std::alloc::Allocator;
use std::cell::Cell;
use std::fmt::Write;
use std::marker::Brand;
use std::mem;
use std::process::Abort;
use std::sync::Wait;
use std::time::Clock;
use trace_api::{Ended, WordsRng};

/// A minute, in nanoseconds.
const MINUTE: u64 = 60_000_000_000;

/// What is done with a processor of two passes. All but the ends are done on the last pass.
#[derive(Clone, Copy)]
pub(crate) enum Step {
    /// This number of roots ends on the first pass: the last answer.
    End(u32),
    /// The same, of a resource with a schema, which makes a body longer.
    EndLonger(u32),
    /// Takes out the newest name of a dropped span.
    Pop,
    /// Takes out the newest name of a lost span.
    PopLost,
    /// Takes out all names.
    Drain,
    /// Asks for all spans.
    Flush,
    /// Asks for all spans, and shuts the processor down.
    Shutdown,
    /// How many spans were accepted.
    Count,
    /// The worker works at this moment, in this number of turns, and spends all of them: how many
    /// attempts there were so far.
    Work(u64, u64),
    /// It works so often, in this number of turns each time, while a minute passes between two
    /// looks at the clock.
    WorkOn(u32, u64),
    /// As `Work`, and whether all turns took no less than so many milliseconds.
    Idle(u64, u64, u64),
    /// The worker leaves.
    Leave,
    /// The next word of the generator from which waits are drawn.
    Word,
    /// Whether as much memory is used as at first, and as where this was last asked.
    Memory,
    /// What was sent: the attempts, and the resources, spans and bytes of all batches.
    Sum,
}

/// A processor, and what is done with it.
#[derive(Clone, Copy)]
pub(crate) struct Case<'a> {
    /// Its settings.
    pub(crate) config: BatchConfig,
    /// When it is made.
    pub(crate) made: u64,
    /// The words from which waits between attempts are drawn.
    pub(crate) words: &'a [u64],
    /// The outcomes of attempts. Later ones are delivered.
    pub(crate) outcomes: &'a [Outcome],
    pub(crate) steps: &'a [Step],
    /// In place of a close, all but the last pass is dropped, and these steps are done on it.
    pub(crate) after: Option<&'a [Step]>,
}

/// How much memory is used.
#[derive(Drop)]
struct Used<'a> {
    heap: &'a LocalHeap,
    first: usize,
    last: usize,
}

impl<'a> Used<'a> {
    /// Whether as much is used as at first, and as when this was last called.
    fn compared(&mut self) -> (bool, bool) {
        let now = self.heap.used();
        let last = mem::replace(&mut self.last, now);
        (now == self.first, now == last)
    }
}

/// A clock that stands still, or goes on at each look.
#[derive(Drop)]
struct Moments {
    now: Cell<u64>,
    pace: u64,
}

impl batch_processor::Clock for Moments {
    ghost use Rattle.std.specs.Prelude.{⊤};

    ghost tells = { λ clock at. ⊤ };

    fn now(&self) -> u64 {
        let now = self.now.get();
        self.now.set(now.saturating_add(self.pace));
        now
    }
}

/// This number of roots ends on the first pass. Answers how the last one did.
fn end_roots<J: Naming, R: Wait + Abort, A: Allocator + Copy>(
    rt: &R,
    alloc: A,
    schema: &str,
    passes: &mut [Pass<J, R, A>],
    count: u32,
) -> Ended {
    let pass = passes.first_mut().expect(rt, "a pass");
    let mut last = Ended::Late;
    for _ in 0..count {
        last = end(rt, alloc, schema, pass);
    }
    last
}

/// Does a step of the last pass.
fn ask<J: Naming, R: Wait + Abort, A: Allocator + Copy>(
    rt: &R,
    passes: &mut [Pass<J, R, A>],
    step: Step,
    notes: &mut String<A>,
) {
    let pass = passes.last_mut().expect(rt, "a pass");
    match step {
        Step::Pop => note_name(rt, notes, pass.pop_entry()),
        Step::PopLost => note_name(rt, notes, pass.pop_lost()),
        Step::Drain => {
            let DrainedNames { dropped, lost } = pass.drain_names();
            note_names(rt, notes, &dropped);
            note_names(rt, notes, &lost);
        }
        Step::Flush => note(rt, notes, pass.force_flush()),
        Step::Shutdown => note(rt, notes, pass.shutdown()),
        Step::Count => note(rt, notes, pass.totals().accepted),
        _ => {}
    }
}

/// Has the worker work, if that is the step: at which moment, by which pace, how often, and in how
/// many turns.
fn work_of(step: Step) -> Option<(u64, u64, u32, u64)> {
    match step {
        Step::Work(moment, turns) | Step::Idle(moment, turns, _) => Some((moment, 0, 1, turns)),
        Step::WorkOn(times, turns) => Some((MINUTE, MINUTE, times, turns)),
        _ => None,
    }
}

/// Does a step of the worker.
fn work<J, R, A>(
    rt: R,
    worker: &mut WorkerPass<J, R, A>,
    exporter: &mut Collector<'_, A>,
    rng: &mut WordsRng<A>,
    step: Step,
    notes: &mut String<A>,
)
where
    J: Naming,
    R: Wait + Abort + Clock + Copy,
    A: Allocator + Copy,
    requires { IsPrepared (λ _. 2 ^ 32) worker.old }
    ensures { IsPrepared (λ _. 2 ^ 32) worker.new }
{
    if matches!(step, Step::Leave) {
        worker.leave();
    }
    let Some((moment, pace, times, turns)) = work_of(step) else {
        return;
    };
    let clock = Moments {
        now: Cell::new(moment),
        pace,
    };
    for time in 0..times {
        let end = worker.work(exporter, &clock, rng, turns);
        if time == times - 1 {
            assert_equal(&rt, end, WorkEnd::TurnsSpent);
            note(&rt, notes, exporter.sent.attempts);
        }
    }
}

/// Does the steps of a case.
fn play_steps<J, R, A>(
    rt: R,
    alloc: A,
    case: &Case<'_>,
    passes: &mut [Pass<J, R, A>],
    worker: &mut WorkerPass<J, R, A>,
    exporter: &mut Collector<'_, A>,
    used: &mut Used<'_>,
    notes: &mut String<A>,
)
where
    J: Naming,
    R: Wait + Abort + Clock + Copy,
    A: Allocator + Copy,
    requires { IsPrepared (λ _. 2 ^ 32) worker.old }
{
    let mut rng = WordsRng::new(Vec::from_slice(alloc, case.words).expect(&rt, "memory"));
    for step in case.steps {
        match *step {
            Step::End(count) => note(&rt, notes, end_roots(&rt, alloc, "", passes, count)),
            Step::EndLonger(count) => {
                note(&rt, notes, end_roots(&rt, alloc, "schema", passes, count));
            }
            Step::Word => note(&rt, notes, rng.next_u64()),
            Step::Memory => note(&rt, notes, used.compared()),
            Step::Sum => note(&rt, notes, exporter.sent.sum()),
            _ => ask(&rt, passes, *step, notes),
        }
        let clock = SystemClock::new(rt);
        let began = clock.now();
        work(rt, worker, exporter, &mut rng, *step, notes);
        if let Step::Idle(_, _, least_ms) = *step {
            let took = clock.now().saturating_sub(began);
            note(&rt, notes, took >= least_ms.saturating_mul(1_000_000));
        }
    }
}

/// Closes a processor out, first without a pass, and then with all.
fn close<J: Naming, R: Wait + Abort + Copy, A: Allocator + Copy>(
    rt: R,
    processor: BatchProcessor<J, R, A>,
    mut passes: Vec<Pass<J, R, A>, A>,
    worker: WorkerPass<J, R, A>,
    notes: &mut String<A>,
) {
    let last = passes.pop().expect(&rt, "a pass");
    let missing = close_out(processor, passes, worker).err();
    let Missing {
        processor,
        mut passes,
        worker,
    } = missing.expect(&rt, "a pass is missing");
    passes.push(last).expect(&rt, "room for a pass");
    let accounts = close_out(processor, passes, worker).ok();
    let desk = accounts.expect(&rt, "all passes are there").desk;
    note_totals(&rt, notes, desk.totals());
    note_names(&rt, notes, desk.ledger());
    note_names(&rt, notes, desk.lost());
}

/// Drops all but the last pass, and does these steps on it.
fn discard<J: Naming, R: Wait + Abort + Copy, A: Allocator + Copy>(
    rt: R,
    alloc: A,
    processor: BatchProcessor<J, R, A>,
    mut passes: Vec<Pass<J, R, A>, A>,
    worker: WorkerPass<J, R, A>,
    steps: &[Step],
    notes: &mut String<A>,
) {
    let last = passes.pop().expect(&rt, "a pass");
    write!(notes, " {processor:?} {last:?} {worker:?}").expect(&rt, "memory");
    let missing = close_out(processor, passes, worker).err();
    missing.expect(&rt, "a pass is missing").discard();
    let mut rest = Vec::new(alloc);
    rest.push(last).expect(&rt, "memory");
    for step in steps {
        ask(&rt, rest.as_mut_slice(), *step, notes);
    }
}

/// Does what a case says with a processor of its own. The processor and the exporter are on scarce
/// memory, and all else on ample one.
fn play<J, R, A>(
    rt: R,
    heap: &LocalHeap,
    ample: A,
    scarce: A,
    blank: BatchBlank,
    case: &Case<'_>,
) -> String<A>
where
    J: Naming,
    R: Wait + Abort + Clock + Copy,
    A: Allocator + Copy,
    requires { blank ≡ J.name }
{
    let mut notes = String::with_capacity(ample, 1024).expect(&rt, "memory");
    let made = make::<J, R, A>(scarce, rt, blank, case.config, 2, case.made);
    let Parts {
        processor,
        mut passes,
        mut worker,
    } = match made {
        Ok(parts) => parts,
        Err(fault) => {
            note(&rt, &mut notes, fault);
            return notes;
        }
    };
    let mut exporter = Collector {
        ample,
        scarce,
        outcomes: case.outcomes,
        sent: Sent::NONE,
    };
    let mut used = Used {
        heap,
        first: heap.used(),
        last: heap.used(),
    };
    play_steps(
        rt,
        ample,
        case,
        passes.as_mut_slice(),
        &mut worker,
        &mut exporter,
        &mut used,
        &mut notes,
    );
    match case.after {
        None => close(rt, processor, passes, worker, &mut notes),
        Some(steps) => discard(rt, ample, processor, passes, worker, steps, &mut notes),
    }
    notes
}

/// Does what a case says. At which place of these texts is what is written down?
pub(crate) fn place_of<R, A>(
    rt: R,
    heap: &LocalHeap,
    ample: A,
    scarce: A,
    case: &Case<'_>,
    texts: &[&str],
) -> usize
where
    R: Wait + Abort + Clock + Copy,
    A: Allocator + Copy,
{
    let notes = play::<Brand, R, A>(rt, heap, ample, scarce, BatchBlank::new(), case);
    place_in(&rt, texts, notes.as_str())
}
