//! Threads that each work on a pass of their own.
ghost use Rattle.std.specs.Prelude.{◌≡◌, ◌≤◌, List, [], IfOk, IsSome, Result, vec_capacity};
ghost use Rattle.std.specs.Prelude.{vec_len};
ghost use Rattle.std.specs.List.{AllByRecursion};
ghost use Rattle.model_span.specs.Dropped.{Entry};
ghost use Rattle.batch_desk.specs.declared.totals.Totals.{Totals};
ghost use Rattle.batch_processor.specs.declared.fault.WorkerLeft.{WorkerLeft};
ghost use Rattle.batch_processor.specs.declared.pass.Flushed.{Flushed};
ghost use Rattle.batch_service.specs.Room.{IsRoomFor};

use crate::service::MAX_THREADS;
use batch_desk::{DrainedNames, Totals};
use batch_processor::{Flushed, Naming, Pass, WorkerLeft};
use otlp_span::SpanData;
use std::alloc::{AllocError, Global};
use std::sync::Wait;
use std::thread::{self, Threads};
use trace_api::EndPass;

/// A thread's way to a service: its spans end on it, and it may ask the processor.
pub trait ServicePass: EndPass<SpanData> {
    /// What a flush may answer: the answer, this value before, and this value after.
    ghost flushes: { Result Flushed WorkerLeft → Self → Self → Type 0 };

    /// What the counts may be at this value.
    ghost counts: { Totals → Self → Type 0 };

    /// What taking all names may do: those of dropped spans and those of lost ones, the oldest
    /// first, this value before, and this value after.
    ghost drains: { List Entry → List Entry → Self → Self → Type 0 };

    /// Waits until all spans that were accepted before, on any pass, are handed to the exporter
    /// and settled, or dropped (Trace SDK, "ForceFlush").
    ///
    /// # Errors
    ///
    /// `WorkerLeft` where the worker has left, which a service's worker doesn't while its threads
    /// work.
    fn flush(&mut self) -> Result<Flushed, WorkerLeft>
        ensures { flushes result self.old self.new };

    /// The counts of all that came so far, on any pass, with what the worker did: as they are in
    /// one hold of the lock.
    fn totals(&mut self) -> Totals
        ensures counts { counts result self.old }
        ensures unchanged { self.new ≡ self.old };

    /// Takes the names of all spans that aren't delivered, on any pass, out of the ledgers, in one
    /// hold of the lock, which is as short for many names as for one. It answers them the oldest
    /// first; their memory is freed where they are dropped. (profile)
    fn drain_names(&mut self) -> DrainedNames
        ensures { drains result.dropped result.lost self.old self.new };
}

impl<J: Naming, R: Wait> ServicePass for Pass<J, R> {
    ghost use Rattle.std.specs.Prelude.{◌≡◌};
    ghost use Rattle.model_processor.specs.Passes.{after_drain};
    ghost use Rattle.batch_processor.specs.Answers.{IsFlushed};
    ghost use Rattle.batch_processor.specs.Holds.{WasCounted};

    ghost flushes = { IsFlushed };

    ghost counts = { WasCounted };

    ghost drains = { λ dropped lost old new. new ≡ after_drain dropped lost old };

    fn flush(&mut self) -> Result<Flushed, WorkerLeft> {
        self.force_flush()
    }

    fn totals(&mut self) -> Totals {
        Pass::totals(self)
    }

    fn drain_names(&mut self) -> DrainedNames {
        Pass::drain_names(self)
    }
}

/// What each thread of a service does.
pub trait Work {
    /// What it gives back.
    type Output;

    /// Does the work of the thread with this number, from 0 on. The thread's spans end on the pass.
    fn work<P: ServicePass>(&self, thread: usize, pass: &mut P) -> Self::Output;
}

/// A thread's pass, and what its work gave, which isn't known before it is done.
#[derive(Drop)]
pub struct Lane<J: Naming, R, T> {
    pass: Pass<J, R>,
    output: Option<T>,
}

/// Room for what the threads of a service need, taken before any of them begins.
#[derive(Drop)]
pub struct Room<J: Naming, R, T> {
    lanes: Vec<Lane<J, R, T>>,
    passes: Vec<Pass<J, R>>,
    outputs: Vec<T>,
}

impl<J: Naming, R: Drop, T: Drop> Room<J, R, T> {
    /// Room for this number of threads.
    ///
    /// # Errors
    ///
    /// `AllocError` where memory for it is refused.
    pub fn new(alloc: Global, threads: usize) -> Result<Room<J, R, T>, AllocError>
        ensures { IfOk result (λ room. IsRoomFor threads room) }
    {
        Ok(Room {
            lanes: Vec::with_capacity(alloc, threads)?,
            passes: Vec::with_capacity(alloc, threads)?,
            outputs: Vec::with_capacity(alloc, threads)?,
        })
    }
}

/// Does the work of each pass on a thread of its own, one of which is the caller's. Where a thread
/// can't be made, the one that was to make it does its work too. Gives the passes back, and what
/// the work gave, both in the order of the passes. A program that does more than one such work on
/// the passes of a [`Service`](crate::Service), or something between two, calls this;
/// [`serve`](crate::serve) does all at once.
pub fn work_on_all<J, R, W>(
    rt: &R,
    room: Room<J, R, W::Output>,
    passes: Vec<Pass<J, R>>,
    work: &W,
) -> (Vec<Pass<J, R>>, Vec<W::Output>)
where
    J: Naming + Send + Sync + 'static,
    R: Threads + Wait + Copy + Send + Sync + 'static,
    W: Work + Sync,
    W::Output: Send + Drop,
    requires { IsRoomFor (vec_len passes) room }
    ensures passes { vec_len result.0 ≡ vec_len passes }
    ensures outputs { vec_len result.1 ≡ vec_len passes }
{
    let Room {
        mut lanes,
        passes: back,
        outputs,
    } = room;
    fill(&mut lanes, passes);
    thread::for_each_mut(
        rt,
        lanes.as_mut_slice(),
        MAX_THREADS,
        &|thread: usize, lane: &mut Lane<J, R, W::Output>|
            ensures { IsSome lane.new.output }
        {
            lane.output = Some(work.work(thread, &mut lane.pass));
        },
    );
    empty(lanes, back, outputs)
}

/// A lane for each pass, where there is room for them.
fn fill<J: Naming, R: Drop, T: Drop>(lanes: &mut Vec<Lane<J, R, T>>, passes: Vec<Pass<J, R>>)
    requires none { lanes.old.items ≡ [] }
    requires room { vec_len passes ≤ vec_capacity lanes.old }
    ensures { vec_len lanes.new ≡ vec_len passes }
{
    for pass in passes {
        let output = None;
        lanes.push_reserved(Lane { pass, output });
    }
}

/// The passes of all lanes, and what their work gave, where there is room for them.
fn empty<J: Naming, R: Drop, T: Drop>(
    lanes: Vec<Lane<J, R, T>>,
    mut passes: Vec<Pass<J, R>>,
    mut outputs: Vec<T>,
) -> (Vec<Pass<J, R>>, Vec<T>)
    requires done { AllByRecursion (λ l. IsSome l.output) lanes.items }
    requires no_pass { passes.items ≡ [] }
    requires no_output { outputs.items ≡ [] }
    requires passes { vec_len lanes ≤ vec_capacity passes }
    requires outputs { vec_len lanes ≤ vec_capacity outputs }
    ensures passes { vec_len result.0 ≡ vec_len lanes }
    ensures outputs { vec_len result.1 ≡ vec_len lanes }
{
    for lane in lanes {
        let Lane { pass, output } = lane;
        let Some(output) = output else { unreachable!() };
        passes.push_reserved(pass);
        outputs.push_reserved(output);
    }
    (passes, outputs)
}
