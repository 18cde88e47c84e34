//! A first program to run: a made-up shop and the collector of its spans, in one process. Three
//! threads serve checkouts, whose spans end on passes of a service, and its worker posts them in
//! batches. Prints a trace as the collector read it, what became of all spans, the names of those
//! that were dropped, and how a batch was sent again.
//!
//! The identifiers of the spans and their moments are made up too, and the collector answers the
//! first post once the queue is full, so that it prints the same in each run.
#![tactic(auto)]

mod checkout;
mod collector;
mod gate;
mod report;
mod shop;

use anyhow::{Context, Result};
use collector::{Bodies, FirstPost};
use otlp_serve::Collector;
use report::write_report;
use shop::{SPANS, Shop, THREADS};
use std::sync::Arc;
use trace_kit::http::{DEFAULT_EXPORT_TIMEOUT_MS, DEFAULT_PATH, HttpExporter, Target};
use trace_kit::processor::{Done, serve};
use trace_kit::queue::{DEFAULT_NAMES, NewestNames};

fn main(rt: HostRuntime) -> Result<()> {
    let alloc = rt.alloc();
    let first_post = Arc::new(alloc, FirstPost::new())?;
    let bodies = Bodies::new(rt, alloc, Arc::try_clone(&first_post)?);
    let collector = Collector::start(&rt, alloc, bodies)?;
    let target = Target::new(alloc, "127.0.0.1", collector.port(), DEFAULT_PATH)?;
    let exporter = HttpExporter::new(alloc, rt, target, DEFAULT_EXPORT_TIMEOUT_MS);
    let names = NewestNames::new(alloc, DEFAULT_NAMES)?;
    let work = Shop::new(rt, alloc, first_post);
    let Done { outputs, served } = serve(
        rt,
        alloc,
        exporter,
        names,
        shop::config()?,
        THREADS,
        &work,
    )?;
    for output in outputs {
        output?;
    }
    let bodies = collector.stop(&rt)?;
    let totals = served.desk.totals();
    let output = &mut rt.stdout();
    write_report(
        output,
        alloc,
        SPANS,
        totals,
        &served.sink,
        &bodies.first,
        &bodies.taken,
    )
    .context("not all was printed")
}
