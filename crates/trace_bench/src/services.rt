//! Services whose threads end spans for a while.
use crate::exports::new_exporter;
use crate::figures::{Spread, nanos_since, spread_of};
use crate::load::{Load, Ran, run_load};
use crate::spans::new_provider;
use anyhow::Result;
use batch_desk::Totals;
use batch_processor::BatchConfig;
use batch_service::{Done, ServicePass, Work, serve};
use drop_ledger::NewestNames;
use otel_settings::Environment;
use otlp_sampler::AlwaysOn;
use otlp_span::Scope;
use rand::SeedableRng;
use rand::rngs::StdRng;
use std::io::Write;
use std::net::{Net, TcpListener, TcpStream};
use std::random::RandomSource;
use std::sync::{Arc, Wait};
use std::thread::Threads;
use std::time::{Clock, Instant};
use thread_tracer::{ThreadTrace, ThreadTracer};
use trace_api::{SystemClock, Tracer};
use traced_service::{TracedWork, serve_from_environment};

impl<R: Clock> TracedWork for Load<R> {
    type Output = Ran;

    fn work<T: ThreadTrace>(&self, _thread: usize, trace: &mut T) -> Ran {
        run_load(trace, self)
    }
}

/// Threads that share a tracer, and name nothing themselves.
#[derive(Drop)]
struct Plain<'t, R> {
    load: Load<R>,
    tracer: &'t Tracer<'t, AlwaysOn>,
}

impl<R: Clock + Copy> Work for Plain<'_, R> {
    type Output = Ran;

    fn work<P: ServicePass>(&self, thread: usize, pass: &mut P) -> Ran {
        let (rng, clock) = (
            StdRng::seed_from_u64(thread as u64),
            SystemClock::new(self.load.rt),
        );
        let mut trace = ThreadTracer::new(self.tracer, self.load.alloc, rng, clock, pass);
        run_load(&mut trace, &self.load)
    }
}

/// Runs a batch service of plain threads, each of whose batches goes over a new connection: what its
/// threads did, and what became of their spans.
pub fn run_plain<R>(threads: usize, load: Load<R>) -> Result<(Ran, Totals)>
where
    R: Threads + Wait + RandomSource + Clock + Environment + AllocGlobal,
    R: Net<Listener = TcpListener, Stream = TcpStream>,
    R: Copy + Send + Sync + 'static,
{
    let (rt, alloc) = (load.rt, load.alloc);
    let exporter = new_exporter(rt)?;
    let provider = new_provider(alloc)?;
    let tracer = provider.tracer(Arc::new(alloc, Scope::named(alloc, "bench")?)?);
    let tracer = &tracer;
    let work = Plain { load, tracer };
    let names = NewestNames::new(alloc, 0)?;
    let config = BatchConfig::default();
    let Done { outputs, served } = serve(rt, alloc, exporter, names, config, threads, &work)?;
    let mut all = Ran::new(alloc);
    for ran in &outputs {
        all.add(ran)?;
    }
    Ok((all, served.desk.totals()))
}

/// Runs a service by the environment, as [`serve_from_environment`], with this log: the same.
pub fn run_setup<R, L>(log: L, threads: usize, load: Load<R>) -> Result<(Ran, Totals)>
where
    R: Threads + Wait + RandomSource + Clock + Environment + AllocGlobal,
    R: Net<Listener = TcpListener, Stream = TcpStream>,
    R: Copy + Send + Sync + 'static,
    L: Write + Send + Drop + 'static,
{
    let rt = load.rt;
    let done = serve_from_environment(rt, log, "bench", threads, &load)?;
    let mut all = Ran::new(load.alloc);
    for thread in &done.threads {
        all.add(&thread.output)?;
    }
    Ok((all, done.totals()))
}

/// How many spans were dropped, for whatever reason.
fn all_drops(totals: Totals) -> u64 {
    let drops = totals.dropped;
    drops
        .queue_full
        .saturating_add(drops.encode_memory)
        .saturating_add(drops.too_large)
        .saturating_add(drops.abandoned)
}

/// Prints what became of the spans of a service that began at this moment: how many were delivered
/// in a second, what a span took its thread, and how long ends took, where they are timed. Those are
/// unnamed that were neither handed nor dropped, and aren't left.
pub fn print_came(rt: HostRuntime, ran: Ran, totals: Totals, start: Instant) -> Result<()> {
    let millis = (nanos_since(&rt, start)? / 1_000_000).max(1);
    let (ended, lost, left) = (ran.spans, totals.lost, totals.left);
    let (handed, dropped) = (totals.handed, all_drops(totals));
    let named = handed.saturating_add(dropped).saturating_add(left);
    let unnamed = ended.saturating_sub(named);
    let delivered = handed.saturating_sub(lost);
    let rate = delivered.saturating_mul(1_000) / millis;
    let span = ran.nanos / ended.max(1);
    let Spread { p50, p999, longest } = spread_of(ran.ends);
    print!(rt; "{rate} delivered a second, {span} ns a span, ")?;
    print!(rt; "{ended} ended, {delivered} delivered, {lost} lost, ")?;
    print!(rt; "{dropped} dropped, {left} left, {unnamed} unnamed, ")?;
    println!(rt; "ends {p50} {p999} {longest} ns")?;
    Ok(())
}
