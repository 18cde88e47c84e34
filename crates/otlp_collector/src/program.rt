//! The program `otlp-collector`, over a runtime and writers.

ghost use Rattle.std.specs.Prelude.{◌≡◌, ◌≢◌, ◌≤◌, ◌⊎◌, IfOk, OnOk, codes};
ghost use Rattle.std.specs.Io.KnownBytes.{Appends, Keeps};
ghost use Rattle.program_args.specs.Words.{AskForText, IsTaken, number_in};
ghost use Rattle.otlp_collector.specs.Command.{command};
ghost use Rattle.otlp_collector.specs.Served.{PrintsAll, PrintsConnections};
ghost use Rattle.otlp_collector.specs.Served.{collector_limits, listening_line};

use crate::args::CollectorArgs;
use crate::failure::{Failure, tell};
use crate::link::text_of_next;
use http_wire::HeadLimits;
use std::alloc::Global;
use std::io::{Read, Write};
use std::net::{Ipv4Addr, Net, OpenListener, OpenStream, TcpListener};
use std::time::Clock;

/// The program `otlp-collector`, whose words are those of its command line, the program's name
/// first: it serves as they ask for, as [`collect`] does. Where they ask for help or the version it
/// is printed, with the status 0. A mistake is reported on `faults`, with the status 2, and nothing
/// is printed.
///
/// The answer is the program's status: 0, or 1 where the port can't be listened at or a write
/// failed, 2 where the words are bad, 3 where memory was refused.
pub fn run_collector<R: Net + Clock, W: Write, F: Write>(
    rt: &R,
    alloc: Global,
    words: &[String],
    output: &mut W,
    faults: &mut F,
) -> u8
    ensures status { result ≤ 3 }
    ensures asked { result ≡ 0 → IsTaken command words.now ⊎ AskForText command words.now }
    ensures printed { IsTaken command words.now → result ≡ 0 → PrintsAll
        (number_in command (codes "port") 4318 words.now)
        (number_in command (codes "count") 1 words.now)
        (number_in command (codes "max-body") 16_777_216 words.now)
        (W.contents output.old) (W.contents output.new) }
    ensures refused { IsTaken command words.now → result ≢ 2 }
    ensures quiet { result ≡ 2 → Keeps (W.contents output.old) (W.contents output.new) }
    ensures untold { result ≡ 0 → Keeps (F.contents faults.old) (F.contents faults.new) }
{
    match CollectorArgs::read(alloc, words) {
        Ok(args) => collect(rt, alloc, args, output, faults),
        Err(fault) => fault.tell(output, faults),
    }
}

/// Listens at a port of 127.0.0.1, prints `listening PORT`, and serves this many connections,
/// one after another, each with one request; where one isn't accepted, that is a connection without
/// a reply. For each it prints `connection NUMBER STATUS`, with `none` where there was no whole
/// reply, and the lines of the spans of its request, if one was taken. What is printed of a
/// connection is flushed before the next one is accepted. A client that is silent for 10 seconds
/// is not waited for. What a client still sends after its reply, as the rest of a body that was
/// refused, is read for 2 seconds or 16 MiB at most, so that the reply arrives. (profile)
///
/// The answer is the program's status: 0, or 1 where the port can't be listened at, which is
/// reported with the cause on `faults`, or a write failed, which is reported as `cannot write`;
/// 3 where memory to print was refused, reported as `out of memory`. Lines may have gone out then.
/// Where the fault itself can't be reported it is 1.
pub fn collect<R: Net + Clock, W: Write, F: Write>(
    rt: &R,
    alloc: Global,
    args: CollectorArgs,
    output: &mut W,
    faults: &mut F,
) -> u8
    ensures status { (result ≡ 0) ⊎ ((result ≡ 1) ⊎ (result ≡ 3)) }
    ensures printed { result ≡ 0 → PrintsAll args.port args.count args.max_body
        (W.contents output.old) (W.contents output.new) }
    ensures untold { result ≡ 0 → Keeps (F.contents faults.old) (F.contents faults.new) }
{
    match listen_and_serve(rt, alloc, args, output) {
        Ok(()) => 0,
        Err(failure) => tell(faults, failure),
    }
}

/// Listens, prints the port, and serves the connections.
fn listen_and_serve<R: Net + Clock, W: Write>(
    rt: &R,
    alloc: Global,
    args: CollectorArgs,
    output: &mut W,
) -> Result<(), Failure>
    ensures { OnOk result (PrintsAll args.port args.count args.max_body
        (W.contents output.old) (W.contents output.new)) }
{
    let listener = match TcpListener::bind(rt, (Ipv4Addr::LOCALHOST, args.port)) {
        Ok(listener) => listener,
        Err(cause) => return Err(Failure::Listen(args.port, cause.kind())),
    };
    let port = port_of(&listener, args.port)?;
    print_port(alloc, port, output)?;
    serve_connections(
        rt,
        alloc,
        &listener,
        args.count,
        &limits_of(args.max_body),
        output,
    )
}

/// What is read of a request whose body has at most this many bytes.
fn limits_of(max_body: u64) -> HeadLimits
    ensures { result ≡ collector_limits max_body }
{
    HeadLimits {
        body: max_body as usize,
        ..HeadLimits::default()
    }
}

/// The port that is listened at, where 0 was a free one.
fn port_of<L: OpenListener>(listener: &L, port: u16) -> Result<u16, Failure>
    ensures { IfOk result (λ told. port ≢ 0 → told ≡ port) }
{
    if port != 0 {
        return Ok(port);
    }
    match listener.local_addr() {
        Ok(address) => Ok(address.port()),
        Err(cause) => Err(Failure::Listen(port, cause.kind())),
    }
}

/// Prints the port.
fn print_port<W: Write>(alloc: Global, port: u16, output: &mut W) -> Result<(), Failure>
    ensures { OnOk result (Appends (W.contents output.old) (W.contents output.new)
        (listening_line port)) }
{
    let Ok(line) = format!(in alloc; "listening {port}\n") else {
        return Err(Failure::OutOfMemory);
    };
    print(output, line.as_bytes())
}

/// Writes a text, and flushes.
fn print<W: Write>(output: &mut W, text: &[u8]) -> Result<(), Failure>
    ensures { OnOk result (Appends (W.contents output.old) (W.contents output.new) text.now) }
{
    if output.write_all(text).is_err() {
        return Err(Failure::Write);
    }
    match output.flush() {
        Ok(()) => Ok(()),
        Err(_) => Err(Failure::Write),
    }
}

/// Serves this many connections, the first of which has the number 1, and prints each.
fn serve_connections<L: OpenListener, W: Write>(
    clock: &impl Clock,
    alloc: Global,
    listener: &L,
    count: u64,
    limits: &HeadLimits,
    output: &mut W,
) -> Result<(), Failure>
where
    L::Stream: Read + Write + OpenStream,
    requires { limits.now.fields ≤ 64 }
    ensures { OnOk result (PrintsConnections limits.now count
        (W.contents output.old) (W.contents output.new)) }
{
    for served in 0..count {
        // A text in memory fails only where memory is refused.
        let Ok(text) = text_of_next(clock, alloc, served + 1, listener, limits) else {
            return Err(Failure::OutOfMemory);
        };
        print(output, text.as_slice())?;
    }
    Ok(())
}
