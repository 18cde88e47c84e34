//! A batch processor whose worker has a thread of its own.
ghost use Rattle.std.specs.Prelude.{◌≡◌, ◌≢◌, ◌+◌, ◌≤◌, ◌++◌, [], IfErr, IfOk};
ghost use Rattle.std.specs.Prelude.{IsErrOf, MatchResult, None, vec_capacity, vec_len};
ghost use Rattle.std.specs.List.{AllByRecursion};
ghost use Rattle.model_processor.specs.Passes.{new_account};
ghost use Rattle.batch_processor.specs.Answers.{IsFlushed};
ghost use Rattle.batch_processor.specs.Holds.{WasCounted};
ghost use Rattle.batch_service.specs.Refusals.{Answers, refusal_of};
ghost use Rattle.batch_service.specs.Service.{IsServed, IsStopped, new_service};
ghost use Rattle.batch_service.specs.Service.{new_work, origin_of};

use crate::fault::StartFault;
use crate::limit::{self, Limit, moment_after};
use crate::refusal::refusal_of;
use crate::rest::give_up;
use crate::thread::{self, Worked, WorkerThread};
use crate::worker::Worker;
use batch_desk::{Desk, Totals};
use batch_processor::{
    Accounts, BatchBlank, BatchConfig, BatchProcessor, Clock, Flushed, MAX_PASSES, Naming, Parts,
    Pass, SystemClock, WorkEnd, WorkerLeft,
};
use drop_ledger::NameSink;
use rand::make_rng;
use rand::rngs::StdRng;
use rand_core::Rng;
use span_exporter::Exporter;
use std::alloc::{AllocError, Global};
use std::marker::Model;
use std::random::RandomSource;
use std::sync::Wait;
use std::thread::Threads;
use std::{fmt, time};

/// The most passes that a service may have, beside the two of its own (profile).
pub const MAX_THREADS: usize = MAX_PASSES;

// No clause says the number itself.
const _: () = prove!(MAX_THREADS == 64);

/// A batch processor whose worker has a thread of its own (Trace SDK, "Batching processor"). A
/// service that is dropped stops nothing: its thread works until the program ends. So a program
/// calls [`Service::stop`].
#[derive(Drop)]
pub struct Service<J: Naming, R: Wait + Drop, E: Exporter, S: NameSink> {
    processor: BatchProcessor<J, R>,
    control: Pass<J, R>,
    thread: WorkerThread<J, R, E, S>,
    /// Room for the passes that come back, and the service's own.
    passes: Vec<Pass<J, R>>,
    /// How many passes others have.
    threads: usize,
    /// Up to when the worker may begin attempts.
    limit: Limit,
    rt: R,
}

impl<J: Naming, R: Wait + Drop, E: Exporter, S: NameSink> Model for Service<J, R, E, S> {
    ghost use Rattle.std.specs.Prelude.{◌≡◌, ◌+◌, ◌≤◌, [], vec_capacity};
    ghost use Rattle.model_processor.specs.Passes.{new_account};
    ghost use Rattle.batch_service.specs.Service.{ServiceView, EndsNone, new_work};

    ghost Value = { ServiceView };

    ghost view = { λ s. record {
      origin = s.processor;
      control = s.control;
      handed = E.handed s.thread.promise.worker.value.exporter;
      named = S.named s.thread.promise.worker.value.sink;
    } };

    ghost invariant = { λ s. EndsNone s.control
        × ((s.thread.promise.worker.value.worker ≡ new_work s.processor)
        × ((s.thread.promise.worker.value.names ≡ new_account)
        × ((s.passes.items ≡ []) × ((s.processor.passes ≡ s.threads + 2)
        × (s.threads + 2 ≤ vec_capacity s.passes))))) };
}

/// Writes how many passes others have. What a thread has isn't looked at.
impl<J: Naming, R: Wait + Drop, E: Exporter, S: NameSink> fmt::Debug for Service<J, R, E, S> {
    fn fmt<W: fmt::Write>(&self, f: &mut fmt::Formatter<W>) -> fmt::Result {
        f.debug_struct("Service")
            .field("passes", &self.threads)
            .finish_non_exhaustive()
    }
}

/// A service that has started, and its passes.
#[derive(Drop)]
pub struct Started<J: Naming, R: Wait + Drop, E: Exporter, S: NameSink> {
    /// The service.
    pub service: Service<J, R, E, S>,
    /// Its passes, for a thread each.
    pub passes: Vec<Pass<J, R>>,
}

/// The end of a service.
#[derive(Drop)]
pub struct Served<E, S> {
    /// What is left in the queue, the ledgers, and the counts.
    pub desk: Desk,
    /// What the batches were handed to.
    pub exporter: E,
    /// What the names were given to.
    pub sink: S,
    /// How the work ended: `Drained`, but where the time of [`Service::stop_within`] was up before,
    /// or after 2^64 - 1 turns.
    pub end: WorkEnd,
}

/// What a service takes memory for beside its processor.
#[derive(Drop)]
struct Reserved<J: Naming, R> {
    /// Room for its own passes, and those that come back.
    passes: Vec<Pass<J, R>>,
    /// Up to when the worker may begin attempts, for the service and for the worker.
    limit: Limit,
    of_worker: Limit,
}

impl<J: Naming, R: Drop> Reserved<J, R> {
    /// With room for this number of passes.
    fn new(alloc: Global, passes: usize) -> Result<Reserved<J, R>, AllocError>
        ensures none { IfOk result (λ reserved. reserved.passes.items ≡ []) }
        ensures room { IfOk result (λ reserved. passes ≤ vec_capacity reserved.passes) }
    {
        let limit = Limit::new(alloc)?;
        Ok(Reserved {
            passes: Vec::with_capacity(alloc, passes)?,
            of_worker: limit.try_clone()?,
            limit,
        })
    }
}

/// A pass is missing: all that was to be stopped, as it was.
#[derive(Drop)]
pub struct PassMissing<J: Naming, R: Wait + Drop, E: Exporter, S: NameSink> {
    /// The service, which works on.
    pub service: Service<J, R, E, S>,
    /// The passes that were handed in.
    pub passes: Vec<Pass<J, R>>,
}

impl<J, R, E, S> Service<J, R, E, S>
where
    J: Naming + Send + Sync + 'static,
    R: Threads + Wait + time::Clock + Copy + Send + Sync + 'static,
    E: Exporter + Send + Drop + 'static,
    S: NameSink + Send + Drop + 'static,
{
    /// Starts a service with this number of passes, 1 to [`MAX_THREADS`]. Its worker goes by the
    /// system's clock, and draws the waits between attempts from a generator that the system's
    /// random bytes seed. The blank becomes its accounts.
    ///
    /// # Errors
    ///
    /// Why it was not started: the first that holds of `BadPasses` and the faults of the queue,
    /// before any random byte is drawn, and else `NoRandomBytes`, `OutOfMemory` or `NoThread`.
    pub fn start(
        alloc: Global,
        rt: R,
        blank: BatchBlank,
        exporter: E,
        sink: S,
        config: BatchConfig,
        passes: usize,
    ) -> Result<Started<J, R, E, S>, StartFault>
    where
        R: RandomSource,
        requires { blank ≡ J.name }
        ensures service { IfOk result (λ started. started.service
            ≡ new_service (origin_of config passes) (E.handed exporter) (S.named sink)) }
        ensures count { IfOk result (λ started. vec_len started.passes ≡ passes) }
        ensures passes { IfOk result
            (λ started. AllByRecursion (λ a. a ≡ new_account) started.passes.items) }
        ensures fault { Answers (refusal_of config passes) result }
    {
        if let Some(fault) = refusal_of(&config, passes) {
            return Err(fault);
        }
        let Ok(rng) = make_rng::<StdRng, R>(&rt) else {
            return Err(StartFault::NoRandomBytes);
        };
        let clock = SystemClock::new(rt);
        Service::start_with(alloc, rt, blank, exporter, sink, config, passes, clock, rng)
    }

    /// Starts a service with this number of passes, 1 to [`MAX_THREADS`]. Its worker goes by this
    /// clock, and draws the waits between attempts from this generator. The blank becomes its
    /// accounts.
    ///
    /// # Errors
    ///
    /// Why it was not started: the first that holds of `BadPasses` and the faults of the queue, and
    /// else `OutOfMemory` or `NoThread`.
    pub fn start_with<C, G>(
        alloc: Global,
        rt: R,
        blank: BatchBlank,
        exporter: E,
        sink: S,
        config: BatchConfig,
        passes: usize,
        clock: C,
        rng: G,
    ) -> Result<Started<J, R, E, S>, StartFault>
    where
        C: Clock + Send + Drop + 'static,
        G: Rng + Send + Drop + 'static,
        requires { blank ≡ J.name }
        ensures service { IfOk result (λ started. started.service
            ≡ new_service (origin_of config passes) (E.handed exporter) (S.named sink)) }
        ensures count { IfOk result (λ started. vec_len started.passes ≡ passes) }
        ensures passes { IfOk result
            (λ started. AllByRecursion (λ a. a ≡ new_account) started.passes.items) }
        ensures fault { Answers (refusal_of config passes) result }
        ensures has_bytes { IsErrOf result StartFault.NoRandomBytes → ⊥ }
    {
        if let Some(fault) = refusal_of(&config, passes) {
            return Err(fault);
        }
        let now = clock.now();
        let parts = BatchProcessor::<J, R>::with_passes(alloc, rt, blank, config, passes + 2, now)?;
        let reserved = Reserved::new(alloc, passes + 2)?;
        Service::with_parts(rt, parts, exporter, sink, reserved, passes, clock, rng)
    }

    /// The service of these parts, with room for all passes.
    fn with_parts<C, G>(
        rt: R,
        parts: Parts<J, R>,
        exporter: E,
        sink: S,
        reserved: Reserved<J, R>,
        threads: usize,
        clock: C,
        rng: G,
    ) -> Result<Started<J, R, E, S>, StartFault>
    where
        C: Clock + Send + Drop + 'static,
        G: Rng + Send + Drop + 'static,
        requires count { vec_len parts.passes ≡ threads + 2 }
        requires origin { parts.processor.passes ≡ threads + 2 }
        requires passes { AllByRecursion (λ a. a ≡ new_account) parts.passes.items }
        requires worker { parts.worker ≡ new_work parts.processor }
        requires none { reserved.passes.items ≡ [] }
        requires room { threads + 2 ≤ vec_capacity reserved.passes }
        ensures service { IfOk result (λ started. started.service
            ≡ new_service parts.processor (E.handed exporter) (S.named sink)) }
        ensures count { IfOk result (λ started. vec_len started.passes ≡ threads) }
        ensures passes { IfOk result
            (λ started. AllByRecursion (λ a. a ≡ new_account) started.passes.items) }
        ensures fault { IfErr result (λ fault. fault ≡ StartFault.NoThread) }
    {
        let Parts {
            processor,
            mut passes,
            worker,
        } = parts;
        let (Some(control), Some(names)) = (passes.pop(), passes.pop()) else {
            unreachable!()
        };
        let Reserved {
            passes: room,
            limit,
            of_worker,
        } = reserved;
        let worker = Worker {
            worker,
            names,
            exporter,
            sink,
            limit: of_worker,
            rt,
        };
        let Some(thread) = thread::start(rt, worker, clock, rng) else {
            return Err(StartFault::NoThread);
        };
        let service = Service {
            processor,
            control,
            thread,
            passes: room,
            threads,
            limit,
            rt,
        };
        Ok(Started { service, passes })
    }

    /// Waits until all spans that were accepted before are handed to the exporter and settled, or
    /// dropped (Trace SDK, "ForceFlush").
    ///
    /// # Errors
    ///
    /// `WorkerLeft` where the worker has left, which a service's worker doesn't.
    pub fn flush(&mut self) -> Result<Flushed, WorkerLeft>
        ensures flushed { IsFlushed result self.old.control self.new.control }
        ensures service { self.new ≡ record self.old { control = self.new.control } }
    {
        self.control.force_flush()
    }

    /// The counts of all that came so far, on any pass, with what the worker did: as they are in
    /// one hold of the lock.
    pub fn totals(&mut self) -> Totals
        ensures counts { WasCounted result self.old.control }
        ensures unchanged { self.new ≡ self.old }
    {
        self.control.totals()
    }

    /// Stops the service: no span is admitted any more, all that wait are handed to the exporter
    /// and settled, or dropped, the worker's thread ends, and the processor is closed out. (Trace
    /// SDK, "Shutdown")
    ///
    /// It takes as long as the exporter does. [`Service::stop_within`] has an end.
    ///
    /// # Errors
    ///
    /// `PassMissing` exactly where not all its passes are handed in; it gives all back, as it was,
    /// and the service works on.
    pub fn stop(mut self, passes: Vec<Pass<J, R>>) -> Result<Served<E, S>, PassMissing<J, R, E, S>>
        ensures missing { MatchResult result
            (λ _. vec_len passes + 2 ≡ self.origin.passes)
            (λ _. vec_len passes + 2 ≢ self.origin.passes) }
        ensures given_back { IfErr result
            (λ m. (m.service ≡ self) × (m.passes ≡ passes)) }
        ensures served { IfOk result (λ s. IsServed self passes.items s.desk
            (E.handed s.exporter) (S.named s.sink) s.end) }
    {
        if passes.len() != self.threads {
            return Err(PassMissing {
                service: self,
                passes,
            });
        }
        // Whether the worker had left is known once its thread has ended.
        let _ = self.control.shutdown();
        Ok(self.end(passes))
    }

    /// Stops the service in a time: no span is admitted any more, and the worker goes on for `ms`
    /// milliseconds at most, by the runtime's monotonic clock; it ends sooner where all is drained.
    /// From then on no attempt is begun. One that is under way ends by its exporter's own time, so
    /// all ends in `ms` milliseconds, the time of one attempt and some milliseconds more. Where the
    /// clock can't be read, it is as for 0 milliseconds. (Trace SDK, "Shutdown", which may have a
    /// timeout; what becomes of the rest: profile)
    ///
    /// Where all was drained, it is as [`Service::stop`]. What isn't delivered by then is named,
    /// and the sink is given each name: the spans of a batch that was handed are lost, as
    /// `LeftHanded`, and those of one that wasn't, and those that wait, are dropped, as
    /// `Abandoned`. The queue and both ledgers are empty then.
    ///
    /// # Errors
    ///
    /// `PassMissing` exactly where not all its passes are handed in; it gives all back, as it was,
    /// and the service works on.
    pub fn stop_within(
        mut self,
        passes: Vec<Pass<J, R>>,
        ms: u64,
    ) -> Result<Served<E, S>, PassMissing<J, R, E, S>>
        ensures missing { MatchResult result
            (λ _. vec_len passes + 2 ≡ self.origin.passes)
            (λ _. vec_len passes + 2 ≢ self.origin.passes) }
        ensures given_back { IfErr result
            (λ m. (m.service ≡ self) × (m.passes ≡ passes)) }
        ensures stopped { IfOk result (λ s. IsStopped self passes.items s.desk
            (E.handed s.exporter) (S.named s.sink) s.end) }
    {
        if self.threads != passes.len() {
            let service = self;
            return Err(PassMissing { service, passes });
        }
        self.limit.set(moment_after(limit::now(&self.rt), ms));
        self.control.begin_shutdown();
        let mut served = self.end(passes);
        give_up(&mut served.desk, &mut served.sink);
        Ok(served)
    }

    /// Waits until the worker's thread has ended, and closes the processor out, which is shut down.
    fn end(self, passes: Vec<Pass<J, R>>) -> Served<E, S>
        requires all { vec_len passes + 2 ≡ self.origin.passes }
        requires shut { 1 ≤ self.control.shutdowns }
        ensures served { IsServed self passes.items result.desk
            (E.handed result.exporter) (S.named result.sink) result.end }
        ensures none_out { result.desk.out ≡ None }
        ensures room { 1 ≤ result.desk.config.batch }
    {
        let Service {
            processor,
            control,
            thread,
            passes: mut all,
            threads: _,
            limit: _,
            rt,
        } = self;
        let Worked { worker, end } = thread.join(&rt);
        let Worker {
            worker,
            names,
            exporter,
            sink,
            limit: _,
            rt: _,
        } = worker;
        gather(&mut all, passes);
        all.push_reserved(control);
        all.push_reserved(names);
        let Ok(Accounts { desk }) = processor.close_out(all, worker) else {
            unreachable!()
        };
        Served {
            desk,
            exporter,
            sink,
            end,
        }
    }
}

/// Moves all passes to where there is room for them.
fn gather<J: Naming, R: Wait + Drop>(all: &mut Vec<Pass<J, R>>, mut passes: Vec<Pass<J, R>>)
    requires { vec_len all.old + vec_len passes ≤ vec_capacity all.old }
    ensures items { all.new.items ≡ all.old.items ++ passes.items }
    ensures len { vec_len all.new ≡ vec_len all.old + vec_len passes }
    ensures capacity { vec_capacity all.old ≤ vec_capacity all.new }
{
    if all.append(&mut passes).is_err() {
        unreachable!()
    }
}
