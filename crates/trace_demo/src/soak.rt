//! A soak: threads end spans round by round, a service's worker posts them over links that fail at
//! random, from a seed, and a collector is at their far side. In each round each span that ended
//! has to be found again, and memory has to stay flat.
ghost use Rattle.std.specs.Prelude.{◌≡◌, ◌≤◌};
ghost use Rattle.std.specs.Io.KnownBytes.{Keeps};

mod balance;
mod book;
mod course;
mod exporter;
mod findings;
mod losses;
mod memory;
mod names;
mod verdict;

use crate::args::DemoArgs;
use crate::ends::{EndedSpans, Ends};
use crate::soak::book::Book;
use crate::soak::exporter::RandomLinks;
use crate::soak::findings::Findings;
use crate::soak::memory::resident;
use crate::soak::names::{NotedNames, await_names};
use crate::sums::all_drops;
use batch_desk::DeskConfig;
use batch_processor::{BatchBlank, BatchConfig, Naming, Pass, SystemClock};
use batch_service::{Room, Service, Started, work_on_all};
use program_args::tell_unwritten;
use rand_core::SeedableRng;
use rand_pcg::Pcg64;
use retry_core::RetryConfig;
use std::alloc::Global;
use std::io::{Eprint, Write};
use std::marker::Brand;
use std::rt::Files;
use std::sync::{Arc, Mutex, Wait};
use std::thread::Threads;
use std::{mem, time};

/// How many spans end in a round, on all threads together. Some find the queue full, which has room
/// for 2,048.
const ROUND: u64 = 2_500;

/// The most spans of a batch: the standard's queue has room for eight.
const BATCH: usize = 256;

/// How often a batch is sent at most.
pub(crate) const ATTEMPTS: u32 = 4;

/// The most milliseconds between two attempts.
const WAIT_MS: u32 = 1;

/// What the service goes by.
fn config() -> Option<BatchConfig> {
    let desk = DeskConfig {
        batch: BATCH,
        ..DeskConfig::default()
    };
    let retry = RetryConfig::new(ATTEMPTS, WAIT_MS, WAIT_MS).ok()?;
    Some(BatchConfig {
        desk,
        retry,
        ..BatchConfig::default()
    })
}

/// Ends the spans of a soak, and balances each round. Prints how many spans ended, and what was
/// found, a line each with `yes` or `no`; counts that are asked for go to the standard error.
/// (profile)
///
/// The answer is the program's status: 0 where all that has to hold was found to, and else 1. It is
/// 1 too where a write fails, which is reported on `faults` as `cannot write`, and where a thread,
/// memory or the size of memory can't be had, or the worker has left, which is reported there, and
/// nothing is printed.
pub(crate) fn soak<R, W, F>(
    rt: R,
    alloc: Global,
    output: &mut W,
    faults: &mut F,
    args: &DemoArgs,
) -> u8
where
    R: Files + Threads + Wait + time::Clock + Eprint + Copy + Send + Sync + 'static,
    W: Write,
    F: Write,
    ensures least { result ≤ 1 }
    ensures untold { result ≡ 0 → Keeps (F.contents faults.old) (F.contents faults.new) }
{
    // `Brand` stands for the name of this one processor, which the types of its passes have.
    let blank = BatchBlank::new();
    let Some(findings) = run::<Brand, R>(rt, alloc, blank, args) else {
        let _ = writeln!(
            faults,
            "no thread, no memory, no size of memory, or no worker"
        );
        return 1;
    };
    if args.is_verbose && findings.print_counts(&rt).is_err() {
        return 1;
    }
    match findings.print(output) {
        Ok(()) => findings.verdict().status(),
        Err(_) => tell_unwritten(faults),
    }
}

/// A service whose worker posts over links that fail at random.
type Running<J, R> = Service<J, R, RandomLinks<R>, NotedNames<R>>;

/// Ends the spans of all rounds on passes of a service, and stops it: what the rounds came to.
/// `None` where something can't be had.
fn run<J, R>(rt: R, alloc: Global, blank: BatchBlank, args: &DemoArgs) -> Option<Findings>
where
    J: Naming + Send + Sync + 'static,
    R: Files + Threads + Wait + time::Clock + Eprint + Copy + Send + Sync + 'static,
    requires { blank ≡ J.name }
{
    let book = Arc::new(alloc, Mutex::new(Book::new(alloc))).ok()?;
    let links = RandomLinks::new(rt, alloc, args.seed, Arc::try_clone(&book).ok()?)?;
    let names = NotedNames::new(rt, Arc::try_clone(&book).ok()?);
    let (clock, rng) = (SystemClock::new(rt), Pcg64::seed_from_u64(0));
    let (config, threads) = (config()?, args.threads);
    let started = Running::<J, R>::start_with(
        alloc, rt, blank, links, names, config, threads, clock, rng,
    );
    let Started {
        mut service,
        mut passes,
    } = started.ok()?;
    let mut findings = Findings::new(alloc);
    let went = rounds(
        rt,
        alloc,
        &mut service,
        &mut passes,
        &book,
        args,
        &mut findings,
    );
    let served = service.stop(passes).ok()?;
    went?;
    findings.close(served.desk.totals(), args.slack);
    Some(findings)
}

/// Makes all rounds. `None` where something can't be had.
fn rounds<J, R>(
    rt: R,
    alloc: Global,
    service: &mut Running<J, R>,
    passes: &mut Vec<Pass<J, R>>,
    book: &Mutex<Book>,
    args: &DemoArgs,
    findings: &mut Findings,
) -> Option<()>
where
    J: Naming + Send + Sync + 'static,
    R: Files + Threads + Wait + time::Clock + Eprint + Copy + Send + Sync + 'static,
{
    let threads = args.threads as u64;
    let (mut left, mut seed, mut named) = (args.soak, args.seed, 0u64);
    for _round in 0..args.soak.div_ceil(ROUND) {
        let spans = left.min(ROUND);
        let ends = Ends {
            rt,
            alloc,
            threads,
            seed,
            spans,
            is_soak: true,
            watch: None,
        };
        let ended = end_on_all(&rt, alloc, passes, &ends)?;
        service.flush().ok()?;
        let totals = service.totals();
        let all = all_drops(totals).saturating_add(totals.lost);
        await_names(&rt, book, all.saturating_sub(named));
        balance_round(&rt, alloc, &ended.numbers, book, findings)?;
        findings.add_size(resident(&rt, alloc)?)?;
        named = all;
        left = left.saturating_sub(spans);
        seed = seed.wrapping_add(threads);
    }
    Some(())
}

/// Ends the spans of a round on these passes, and keeps the passes. `None` where memory was
/// refused.
fn end_on_all<J, R>(
    rt: &R,
    alloc: Global,
    passes: &mut Vec<Pass<J, R>>,
    ends: &Ends<R>,
) -> Option<EndedSpans>
where
    J: Naming + Send + Sync + 'static,
    R: Threads + Wait + time::Clock + Eprint + Copy + Send + Sync + 'static,
{
    let Ok(room) = Room::new(alloc, passes.len()) else {
        return None;
    };
    let lent = mem::replace(passes, Vec::new(alloc));
    let (back, outputs) = work_on_all(rt, room, lent, ends);
    *passes = back;
    EndedSpans::of_all(alloc, &outputs)
}

/// Balances a round in which spans with these numbers ended, after its flush, and lets go what was
/// noted. `None` where something can't be had.
fn balance_round<R: Wait>(
    rt: &R,
    alloc: Global,
    ended: &[u64],
    book: &Mutex<Book>,
    findings: &mut Findings,
) -> Option<()> {
    let book = book.lock(rt).take();
    if book.is_short {
        return None;
    }
    findings.add(alloc, ended, &book)
}
