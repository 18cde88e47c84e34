//! The program `trace-demo`.
ghost use Rattle.std.specs.Prelude.{◌≡◌, ◌≤◌, ◌⊎◌};
ghost use Rattle.std.specs.Io.KnownBytes.{Keeps};
ghost use Rattle.program_args.specs.Words.{AskForText};
ghost use Rattle.trace_demo.specs.Command.{AreMistaken, AskForRun, command};

use crate::args::DemoArgs;
use crate::batches::Batches;
use crate::ends::{EndedSpans, Ends};
use crate::soak::soak;
use crate::sums::Sums;
use batch_desk::DeskConfig;
use batch_processor::BatchConfig;
use batch_service::{Done, serve};
use drop_ledger::NewestNames;
use http_exporter::{DEFAULT_EXPORT_TIMEOUT_MS, HttpExporter, WatchedExporter};
use otlp_http::{DEFAULT_PATH, Target};
use otlp_serve::Collector;
use program_args::tell_unwritten;
use std::alloc::Global;
use std::io::{Eprint, Write};
use std::net::{Net, TcpListener, TcpStream};
use std::random::RandomSource;
use std::rt::Files;
use std::sync::Wait;
use std::thread::Threads;
use std::time;

/// The program `trace-demo`, whose words are those of its command line, the program's name first.
/// Where they ask for a run it is done, as by `demo`. Where they ask for help or the version it is
/// printed, with the status 0. A mistake is reported on `faults`, with the status 2, and refused
/// memory with 3.
pub fn trace_demo<R, W, F>(
    rt: R,
    alloc: Global,
    words: &[String],
    output: &mut W,
    faults: &mut F,
) -> u8
where
    R: Net<Listener = TcpListener, Stream = TcpStream> + time::Clock + Files + Eprint,
    R: Threads + Wait + RandomSource + Copy + Send + Sync + 'static,
    W: Write,
    F: Write,
    ensures status { result ≤ 3 }
    ensures asked { result ≡ 0 → AskForRun words.now ⊎ AskForText command words.now }
    ensures mistake { result ≡ 2 → AreMistaken words.now }
    ensures quiet { result ≡ 2 → Keeps (W.contents output.old) (W.contents output.new) }
    ensures untold { result ≡ 0 → Keeps (F.contents faults.old) (F.contents faults.new) }
{
    match DemoArgs::read(alloc, words) {
        Ok(args) => demo(rt, alloc, output, faults, &args),
        Err(fault) => fault.tell(output, faults),
    }
}

/// Ends the spans of a soak, as `soak`, where one is asked for. Else it ends spans on threads, one
/// of which is the caller's, while a worker posts them in batches to a collector on loopback, whose
/// replies to good bodies are 200, 502, 429 and 200 over and over; after 502 and 429 it may be
/// tried again at once. Then the processor is shut down and closed out, and the collector is ended.
/// Prints a line for each, with its number: `ended` (the ends that were answered `Queued` or
/// `Dropped`), `delivered` (spans that were handed to the exporter and aren't lost), `lost`,
/// `dropped`, `left`, `sum` (of the last four), `balanced` with `yes` or `no` (whether the sum is
/// what ended), and `collected` (the spans of the distinct bodies that the collector could read,
/// whatever it replied). Counts that are asked for go to the runtime's standard error. (profile)
///
/// The answer is the program's status: 0 where they are balanced and as many are collected as were
/// handed, and else 1. As many are collected where each body came, also where its batch is lost,
/// since no reply said that it was taken. The status is 1 too where a write fails, which is
/// reported on `faults` as `cannot write`, and where a port, a thread, random bytes or memory can't
/// be had, which is reported there, and nothing is printed.
pub fn demo<R, W, F>(rt: R, alloc: Global, output: &mut W, faults: &mut F, args: &DemoArgs) -> u8
where
    R: Net<Listener = TcpListener, Stream = TcpStream> + time::Clock + Files + Eprint,
    R: Threads + Wait + RandomSource + Copy + Send + Sync + 'static,
    W: Write,
    F: Write,
    ensures least { result ≤ 1 }
    ensures untold { result ≡ 0 → Keeps (F.contents faults.old) (F.contents faults.new) }
{
    if args.soak > 0 {
        return soak(rt, alloc, output, faults, args);
    }
    let Some(sums) = run(rt, alloc, args) else {
        let _ = writeln!(faults, "no port, no thread, or no memory");
        return 1;
    };
    match sums.print(output) {
        Ok(()) => sums.status(),
        Err(_) => tell_unwritten(faults),
    }
}

/// What becomes of the spans of all threads, and how many the collector has. `None` where
/// something can't be had.
fn run<R>(rt: R, alloc: Global, args: &DemoArgs) -> Option<Sums>
where
    R: Net<Listener = TcpListener, Stream = TcpStream> + time::Clock + Eprint,
    R: Threads + Wait + RandomSource + Copy + Send + Sync + 'static,
{
    let collector = Collector::start(&rt, alloc, Batches::new(alloc)).ok()?;
    let traced = trace(rt, alloc, collector.port(), args);
    let collected = collector.stop(&rt).ok()?.spans()?;
    let Done { outputs, served } = traced?;
    if args.is_verbose {
        eprintln!(rt; "").ok()?;
    }
    let ended = EndedSpans::of_all(alloc, &outputs)?.count;
    Some(Sums::new(ended, served.desk.totals(), collected))
}

/// What the threads ended, and what the service came to that posted it.
type Traced<R> = Done<Option<EndedSpans>, WatchedExporter<HttpExporter<R>, R>, NewestNames>;

/// Ends the spans on threads of a service that posts to the collector at this port, and counts
/// the names of those that are dropped or lost. `None` where something can't be had.
fn trace<R>(rt: R, alloc: Global, port: u16, args: &DemoArgs) -> Option<Traced<R>>
where
    R: Net<Listener = TcpListener, Stream = TcpStream> + time::Clock + Eprint,
    R: Threads + Wait + RandomSource + Copy + Send + Sync + 'static,
{
    let target = Target::new(alloc, "127.0.0.1", port, DEFAULT_PATH).ok()?;
    let exporter = HttpExporter::new(alloc, rt, target, DEFAULT_EXPORT_TIMEOUT_MS);
    let (exporter, watch) = WatchedExporter::new(alloc, rt, exporter).ok()?;
    let names = NewestNames::new(alloc, 0).ok()?;
    let watch = if args.is_verbose { Some(watch) } else { None };
    let ends = Ends {
        rt,
        alloc,
        threads: args.threads as u64,
        seed: args.seed,
        spans: args.spans.saturating_mul(args.threads as u64),
        is_soak: false,
        watch,
    };
    let config = config_of(args);
    serve(rt, alloc, exporter, names, config, args.threads, &ends).ok()
}

/// The queue and the batches that are asked for, with the standard's retries.
fn config_of(args: &DemoArgs) -> BatchConfig {
    let desk = DeskConfig {
        queue: args.queue,
        batch: args.batch,
        ..DeskConfig::default()
    };
    BatchConfig {
        desk,
        ..BatchConfig::default()
    }
}
