//! A whole service: its threads, and what became of their spans.
ghost use Rattle.std.specs.Prelude.{◌≡◌, IfOk, vec_len};
ghost use Rattle.batch_service.specs.Refusals.{Answers, refusal_of};
ghost use Rattle.batch_service.specs.Service.{EndsServed, EndsStopped, new_service, origin_of};

use crate::fault::StartFault;
use crate::refusal::refusal_of;
use crate::service::{Served, Service, Started};
use crate::threads::{Room, Work, work_on_all};
use batch_processor::{BatchBlank, BatchConfig, Naming, Pass};
use drop_ledger::NameSink;
use span_exporter::Exporter;
use std::alloc::Global;
use std::marker::Brand;
use std::random::RandomSource;
use std::sync::Wait;
use std::thread::Threads;
use std::time;

/// What a service gave, and its end.
#[derive(Drop)]
pub struct Done<T, E, S> {
    /// What the work of each thread gave, in their order.
    pub outputs: Vec<T>,
    /// The end of the service.
    pub served: Served<E, S>,
}

/// A service whose threads' work is done.
#[derive(Drop)]
struct WorkDone<J: Naming, R: Wait + Drop, E: Exporter, S: NameSink, T> {
    service: Service<J, R, E, S>,
    passes: Vec<Pass<J, R>>,
    outputs: Vec<T>,
}

/// Starts a service, does the work of this number of threads, 1 to [`MAX_THREADS`], and stops it.
///
/// The stop takes as long as the exporter does. [`serve_within`] has an end.
///
/// # Errors
///
/// Why it was not started: the first that holds of `BadPasses` and the faults of the queue, and else
/// `NoRandomBytes`, `OutOfMemory` or `NoThread`.
pub fn serve<R, E, S, W>(
    rt: R,
    alloc: Global,
    exporter: E,
    sink: S,
    config: BatchConfig,
    threads: usize,
    work: &W,
) -> Result<Done<W::Output, E, S>, StartFault>
where
    R: Threads + Wait + RandomSource + time::Clock + Copy + Send + Sync + 'static,
    E: Exporter + Send + Drop + 'static,
    S: NameSink + Send + Drop + 'static,
    W: Work + Sync,
    W::Output: Send + Drop,
    ensures served { IfOk result (λ done. EndsServed threads
        (new_service (origin_of config threads) (E.handed exporter) (S.named sink))
        done.served.desk (E.handed done.served.exporter) (S.named done.served.sink)
        done.served.end) }
    ensures outputs { IfOk result (λ done. vec_len done.outputs ≡ threads) }
    ensures fault { Answers (refusal_of config threads) result }
{
    let blank = BatchBlank::new();
    serve_as::<Brand, R, E, S, W>(rt, alloc, blank, exporter, sink, config, threads, work)
}

/// As [`serve`], but once the work is done the service is stopped within `ms` milliseconds, as
/// [`Service::stop_within`] does: what isn't delivered by then is named, and the sink is given each
/// name.
///
/// # Errors
///
/// Why it was not started: the first that holds of `BadPasses` and the faults of the queue, and else
/// `NoRandomBytes`, `OutOfMemory` or `NoThread`.
pub fn serve_within<R, E, S, W>(
    rt: R,
    alloc: Global,
    exporter: E,
    sink: S,
    config: BatchConfig,
    threads: usize,
    work: &W,
    ms: u64,
) -> Result<Done<W::Output, E, S>, StartFault>
where
    R: Threads + Wait + RandomSource + time::Clock + Copy + Send + Sync + 'static,
    E: Exporter + Send + Drop + 'static,
    S: NameSink + Send + Drop + 'static,
    W: Work + Sync,
    W::Output: Send + Drop,
    ensures stopped { IfOk result (λ done. EndsStopped threads
        (new_service (origin_of config threads) (E.handed exporter) (S.named sink))
        done.served.desk (E.handed done.served.exporter) (S.named done.served.sink)
        done.served.end) }
    ensures outputs { IfOk result (λ done. vec_len done.outputs ≡ threads) }
    ensures fault { Answers (refusal_of config threads) result }
{
    let blank = BatchBlank::new();
    serve_within_as::<Brand, R, E, S, W>(
        rt, alloc, blank, exporter, sink, config, threads, work, ms,
    )
}

/// `serve`, by the name of the processor's accounts.
fn serve_as<J, R, E, S, W>(
    rt: R,
    alloc: Global,
    blank: BatchBlank,
    exporter: E,
    sink: S,
    config: BatchConfig,
    threads: usize,
    work: &W,
) -> Result<Done<W::Output, E, S>, StartFault>
where
    J: Naming + Send + Sync + 'static,
    R: Threads + Wait + RandomSource + time::Clock + Copy + Send + Sync + 'static,
    E: Exporter + Send + Drop + 'static,
    S: NameSink + Send + Drop + 'static,
    W: Work + Sync,
    W::Output: Send + Drop,
    requires { blank ≡ J.name }
    ensures served { IfOk result (λ done. EndsServed threads
        (new_service (origin_of config threads) (E.handed exporter) (S.named sink))
        done.served.desk (E.handed done.served.exporter) (S.named done.served.sink)
        done.served.end) }
    ensures outputs { IfOk result (λ done. vec_len done.outputs ≡ threads) }
    ensures fault { Answers (refusal_of config threads) result }
{
    let WorkDone {
        service,
        passes,
        outputs,
    } = work_as::<J, R, E, S, W>(rt, alloc, blank, exporter, sink, config, threads, work)?;
    let Ok(served) = service.stop(passes) else {
        unreachable!()
    };
    Ok(Done { outputs, served })
}

/// `serve_within`, by the name of the processor's accounts.
fn serve_within_as<J, R, E, S, W>(
    rt: R,
    alloc: Global,
    blank: BatchBlank,
    exporter: E,
    sink: S,
    config: BatchConfig,
    threads: usize,
    work: &W,
    ms: u64,
) -> Result<Done<W::Output, E, S>, StartFault>
where
    J: Naming + Send + Sync + 'static,
    R: Threads + Wait + RandomSource + time::Clock + Copy + Send + Sync + 'static,
    E: Exporter + Send + Drop + 'static,
    S: NameSink + Send + Drop + 'static,
    W: Work + Sync,
    W::Output: Send + Drop,
    requires { blank ≡ J.name }
    ensures stopped { IfOk result (λ done. EndsStopped threads
        (new_service (origin_of config threads) (E.handed exporter) (S.named sink))
        done.served.desk (E.handed done.served.exporter) (S.named done.served.sink)
        done.served.end) }
    ensures outputs { IfOk result (λ done. vec_len done.outputs ≡ threads) }
    ensures fault { Answers (refusal_of config threads) result }
{
    let WorkDone {
        service,
        passes,
        outputs,
    } = work_as::<J, R, E, S, W>(rt, alloc, blank, exporter, sink, config, threads, work)?;
    let Ok(served) = service.stop_within(passes, ms) else {
        unreachable!()
    };
    Ok(Done { served, outputs })
}

/// Starts a service, and does the work of its threads.
fn work_as<J, R, E, S, W>(
    rt: R,
    alloc: Global,
    blank: BatchBlank,
    exporter: E,
    sink: S,
    config: BatchConfig,
    threads: usize,
    work: &W,
) -> Result<WorkDone<J, R, E, S, W::Output>, StartFault>
where
    J: Naming + Send + Sync + 'static,
    R: Threads + Wait + RandomSource + time::Clock + Copy + Send + Sync + 'static,
    E: Exporter + Send + Drop + 'static,
    S: NameSink + Send + Drop + 'static,
    W: Work + Sync,
    W::Output: Send + Drop,
    requires { blank ≡ J.name }
    ensures service { IfOk result (λ done. done.service
        ≡ new_service (origin_of config threads) (E.handed exporter) (S.named sink)) }
    ensures passes { IfOk result (λ done. vec_len done.passes ≡ threads) }
    ensures outputs { IfOk result (λ done. vec_len done.outputs ≡ threads) }
    ensures fault { Answers (refusal_of config threads) result }
{
    if let Some(fault) = refusal_of(&config, threads) {
        return Err(fault);
    }
    let room = Room::<J, R, W::Output>::new(alloc, threads)?;
    let Started { service, passes } = Service::<J, R, E, S>::start(
        alloc, rt, blank, exporter, sink, config, threads,
    )?;
    let (passes, outputs) = work_on_all(&rt, room, passes, work);
    Ok(WorkDone {
        service,
        passes,
        outputs,
    })
}
