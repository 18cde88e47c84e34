//! A benchmark: how many spans of a service are delivered in a second, and what spans, their bodies
//! and exports take. It is called as
//!
//!     trace_bench plain|setup THREADS ATTRIBUTES MILLISECONDS IS_TIMED [A_SECOND]
//!
//! is a service whose threads end spans as fast as they can, or so many in a second together, and
//! that posts them to the collector that the environment names. `setup` is a `ServiceSetup`, whose
//! log is the standard error; `plain` a batch service whose threads share a tracer and name nothing
//! themselves, and each of whose batches goes over a new connection. It prints how many spans were
//! delivered in a second, from the start of the service until it has stopped; what a span took its
//! thread; what became of all; and, where IS_TIMED is 1, of their ends the middle one, the one that
//! a thousandth took longer than, and the longest.
//!
//!     trace_bench exports ROUNDS
//!
//! posts so many bodies of 1,000 bytes to that collector, over a new connection each, and over a
//! kept one.
//!
//!     trace_bench spans ROUNDS
//!
//! prints how long a span takes that is started, ended and kept, and the field of its context, as it
//! is written and read.
//!
//!     trace_bench bodies ROUNDS
//!
//! prints how long the spans of a batch take, over 1, 8 and 64 scopes: to be grouped, to be encoded,
//! as a part of a body that is copied, and to be read; the same of 5,120 and 51,200 spans; and how
//! long empty resources take to be read.
//!
//! Each time is that of the middle one of the rounds. Without arguments there is no round, and it
//! prints only how many spans are kept, and how many bytes their bodies have.
#![tactic(auto)]

mod bodies;
mod exports;
mod figures;
mod load;
mod services;
mod spans;

use anyhow::Result;
use bodies::{print_bodies, print_growth};
use exports::print_exports;
use load::Load;
use services::{print_came, run_plain, run_setup};
use spans::print_spans;
use std::env;
use std::process::ExitCode;
use std::time::Instant;

/// What is measured.
#[derive(Clone, Copy)]
enum Measure {
    /// A batch service of so many plain threads.
    Plain(usize, Load<HostRuntime>),
    /// A `ServiceSetup` of so many threads.
    Setup(usize, Load<HostRuntime>),
    /// Exports, in so many rounds.
    Exports(u32),
    /// Spans that are kept.
    Spans(u32),
    /// Bodies of spans.
    Bodies(u32),
    /// How many spans are kept, and how long their bodies are.
    Sizes,
}

/// The number at this place of a command line.
fn number(words: &[String], place: usize) -> Option<u64> {
    words.get(place)?.as_str().parse::<u64>().ok()
}

/// How many threads a command line asks for, and what each does.
fn load_of(rt: HostRuntime, words: &[String]) -> Option<(usize, Load<HostRuntime>)> {
    let threads = usize::try_from(number(words, 2)?).ok()?;
    let all_threads = (threads as u64).saturating_mul(1_000_000_000);
    let load = Load {
        rt,
        alloc: rt.alloc(),
        attributes: usize::try_from(number(words, 3)?).ok()?,
        nanos: number(words, 4)?.saturating_mul(1_000_000),
        is_timed: number(words, 5)? > 0,
        pace: number(words, 6).map_or(0, |a_second| all_threads / a_second.max(1)),
    };
    Some((threads, load))
}

/// What a command line asks for, the first word of which is the program's name.
fn measure_of(rt: HostRuntime, words: &[String]) -> Option<Measure> {
    let Some(word) = words.get(1) else {
        return Some(Measure::Sizes);
    };
    if let Some((threads, load)) = load_of(rt, words) {
        return match word.as_str() {
            "plain" => Some(Measure::Plain(threads, load)),
            "setup" => Some(Measure::Setup(threads, load)),
            _ => None,
        };
    }
    let rounds = u32::try_from(number(words, 2)?).ok()?;
    match word.as_str() {
        "exports" => Some(Measure::Exports(rounds)),
        "spans" => Some(Measure::Spans(rounds)),
        "bodies" => Some(Measure::Bodies(rounds)),
        _ => None,
    }
}

/// What the process's command line asks for.
fn read_measure(rt: HostRuntime) -> Result<Option<Measure>> {
    let mut words = Vec::new(rt.alloc());
    for word in env::args(&rt)? {
        words.push(word)?;
    }
    Ok(measure_of(rt, &words))
}

fn main(rt: HostRuntime) -> Result<ExitCode> {
    let start = Instant::now(&rt)?;
    match read_measure(rt)? {
        Some(Measure::Plain(threads, load)) => {
            let (ran, totals) = run_plain(threads, load)?;
            print_came(rt, ran, totals, start)?
        }
        Some(Measure::Setup(threads, load)) => {
            let (ran, totals) = run_setup(rt.stderr(), threads, load)?;
            print_came(rt, ran, totals, start)?
        }
        Some(Measure::Exports(rounds)) => print_exports(rt, rounds)?,
        Some(Measure::Spans(rounds)) => print_spans(rt, rounds)?,
        Some(Measure::Bodies(rounds)) => {
            print_bodies(rt, rounds)?;
            print_growth(rt, rounds)?
        }
        Some(Measure::Sizes) => {
            print_bodies(rt, 0)?;
            print_spans(rt, 0)?
        }
        None => return Ok(ExitCode::FAILURE),
    }
    Ok(ExitCode::SUCCESS)
}
