//! The thread of a service's worker, and what it promises of what it gives back.
ghost use Rattle.std.specs.Prelude.{◌≡◌, IfSome};
ghost use Rattle.batch_processor.specs.Working.{IsPrepared};
ghost use Rattle.batch_service.specs.Working.{IsDrained, NoneSettles, WorksOn, state_of};

use crate::worker::Worker;
use batch_processor::{Clock, Naming, WorkEnd};
use drop_ledger::NameSink;
use rand_core::Rng;
use span_exporter::Exporter;
use std::marker::PhantomData;
use std::snapshot::Snapshot;
use std::sync::Wait;
use std::thread::{self, Promise, PromisedHandle, Threads};
use std::time;

/// What the thread gives back: what it had, and how the work ended.
#[derive(Drop)]
pub(crate) struct Worked<J: Naming, R: Wait + Drop, E, S> {
    pub(crate) worker: Worker<J, R, E, S>,
    pub(crate) end: WorkEnd,
}

/// What the thread had when it began. It promises that work went on from there.
#[derive(Drop)]
pub(crate) struct BeginsWith<J: Naming, R: Wait + Drop, E, S> {
    pub(crate) worker: Snapshot<Worker<J, R, E, S>>,
}

impl<J, R, E, S> Promise<Worked<J, R, E, S>> for BeginsWith<J, R, E, S>
where
    J: Naming,
    R: Wait + Drop,
    E: Exporter,
    S: NameSink,
{
    ghost use Rattle.std.specs.Prelude.{◌≡◌};
    ghost use Rattle.batch_processor.specs.declared.worker.WorkEnd.TheVariants as ends;
    ghost use Rattle.batch_service.specs.Working.{IsDrained, NoneSettles, WorksOn, state_of};

    ghost kept_by = { λ p worked.
        WorksOn
        (state_of (E.handed p.worker.value.exporter) (S.named p.worker.value.sink)
        p.worker.value.worker p.worker.value.names)
        (state_of (E.handed worked.worker.exporter) (S.named worked.worker.sink)
        worked.worker.worker worked.worker.names)
        × ((worked.end ≡ ends.Drained → IsDrained worked.worker.worker.account)
        × NoneSettles worked.worker.worker) };
}

/// The thread of a service's worker.
pub(crate) type WorkerThread<J, R, E, S> = PromisedHandle<
    Worked<J, R, E, S>,
    BeginsWith<J, R, E, S>,
>;

/// Starts the thread, which works until all is drained. `None` where no thread can be made.
pub(crate) fn start<J, R, E, S, C, G>(
    rt: R,
    mut worker: Worker<J, R, E, S>,
    clock: C,
    mut rng: G,
) -> Option<WorkerThread<J, R, E, S>>
where
    J: Naming + Send + Sync + 'static,
    R: Threads + Wait + time::Clock + Copy + Send + Sync + 'static,
    E: Exporter + Send + Drop + 'static,
    S: NameSink + Send + Drop + 'static,
    C: Clock + Send + Drop + 'static,
    G: Rng + Send + Drop + 'static,
    requires { IsPrepared (E.room worker.exporter) worker.worker }
    ensures { IfSome result (λ thread. thread.promise.worker.value ≡ worker) }
{
    let begins = BeginsWith {
        worker: Snapshot::of(&worker),
    };
    let started = thread::spawn_with(
        &rt,
        begins,
        move || -> Worked<J, R, E, S>
            requires { IsPrepared (E.room worker.exporter) worker.worker }
            ensures { WorksOn
                (state_of (E.handed worker.exporter) (S.named worker.sink) worker.worker
                worker.names)
                (state_of (E.handed result.worker.exporter) (S.named result.worker.sink)
                result.worker.worker result.worker.names)
                × ((result.end ≡ WorkEnd.Drained → IsDrained result.worker.worker.account)
                × NoneSettles result.worker.worker) }
        {
            let end = worker.work(&clock, &mut rng);
            Worked { worker, end }
        },
    );
    started.ok()
}
