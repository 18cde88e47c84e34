//! What an export takes.
use crate::figures::{Rounds, Took, nanos_since};
use anyhow::Result;
use http_exporter::{DEFAULT_EXPORT_TIMEOUT_MS, HttpExporter, KeptExporter, ReportsFailure};
use otel_settings::{Environment, settings_of_environment};
use retry_core::Outcome;
use std::time::{Clock, Instant};

/// A small body.
const SMALL: [u8; 1000] = [0; 1000];

/// An exporter to the collector that the environment names, over a new connection each.
pub fn new_exporter<R: Environment + AllocGlobal + Copy>(rt: R) -> Result<HttpExporter<R>> {
    let target = settings_of_environment(&rt)?.target;
    Ok(HttpExporter::new(rt.alloc(), rt, target, DEFAULT_EXPORT_TIMEOUT_MS))
}

/// A round with an export of a small body, and 1 where it was delivered.
fn time_export<R: Clock, E: ReportsFailure>(rt: &R, exporter: &mut E) -> Result<Took> {
    let start = Instant::now(rt)?;
    let outcome = exporter.attempt(&SMALL);
    let nanos = nanos_since(rt, start)?;
    Ok((nanos, u64::from(outcome == Outcome::Delivered)))
}

/// Prints how long exports of a small body take by this exporter, and how many were delivered.
fn print_export<E: ReportsFailure>(
    rt: HostRuntime,
    exporter: &mut E,
    what: &str,
    rounds: u32,
) -> Result<()> {
    let mut all = Rounds::new(rt.alloc());
    for _round in 0..rounds {
        all.add(time_export(&rt, exporter)?)?;
    }
    all.print(rt, what, 1)
}

/// Prints how long an export takes over a new connection each, and over a kept one.
pub fn print_exports(rt: HostRuntime, rounds: u32) -> Result<()> {
    let mut exporter = new_exporter(rt)?;
    print!(rt; "an export of 1,000 bytes")?;
    print_export(rt, &mut exporter, "by a new connection", rounds)?;
    let mut kept = KeptExporter::new(exporter);
    print_export(rt, &mut kept, "by a kept one", rounds)?;
    println!(rt; "")?;
    Ok(())
}
