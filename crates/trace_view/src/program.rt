//! The program `trace-view`, over a runtime and writers.

ghost use Rattle.std.specs.Prelude.{◌≡◌, ◌≤◌, ◌*◌, ◌/◌, min};
ghost use Rattle.std.specs.Io.KnownBytes.{Keeps};

use crate::args::ViewArgs;
use crate::failure::{Failure, tell};
use crate::report::{report, report_strays};
use http_listener::{Complaints, Cors, Dated, End, Origins, Peers, Settings, listen};
use std::alloc::Global;
use std::hash::RandomState;
use std::io::Write;
use std::mem;
use std::net::{Net, SocketAddr, TcpListener, TcpStream};
use std::random::RandomSource;
use std::sync::{Arc, Wait};
use std::time::Clock;
use trace_store::{TraceDigest, TraceStore, ViewSpan};
use view_service::{Hosts, Pages, Strays, TraceKeeper, ViewService};

/// The bytes of a MiB.
const MIB: u64 = 1_048_576;

/// Where pages of other origins may post, if they may (OTLP Specification, "OTLP/HTTP Request").
const EXPORT_PATH: &str = "/v1/traces";

/// The program `trace-view`, whose words are those of its command line, the program's name first.
/// It receives and shows spans until it is stopped. Where the words ask for help or the version it
/// is printed, with the status 0. A mistake is reported on `faults`, with the status 2.
///
/// All connections are served by turns, on one thread: a client that is silent or drips holds up no
/// other one.
///
/// The answer is the program's status: 0 after help or the version, 1 where it can't listen at the
/// address, wait for connections, write a line or get random numbers, 2 where the words are bad, 3
/// where memory was refused.
pub fn run_view<R, P, W, F>(
    rt: R,
    alloc: Global,
    pages: P,
    words: &[String],
    output: &mut W,
    faults: &mut F,
) -> u8
where
    R: Net<Listener = TcpListener, Stream = TcpStream> + Wait + RandomSource + Clock + Copy,
    P: Pages<Arc<ViewSpan>, TraceDigest> + Drop,
    W: Write,
    F: Write,
    ensures status { result ≤ 3 }
    ensures quiet { result ≡ 2 → Keeps (W.contents output.old) (W.contents output.new) }
{
    let args = match ViewArgs::read(alloc, words) {
        Ok(args) => args,
        Err(fault) => return fault.tell(output, faults),
    };
    let failure = view(rt, alloc, pages, args, output, faults);
    tell(faults, failure)
}

/// Listens, prints the address, and serves until no more can be.
fn view<R, P, W, F>(
    rt: R,
    alloc: Global,
    pages: P,
    mut args: ViewArgs,
    output: &mut W,
    faults: &mut F,
) -> Failure
where
    R: Net<Listener = TcpListener, Stream = TcpStream> + Wait + RandomSource + Clock + Copy,
    P: Pages<Arc<ViewSpan>, TraceDigest> + Drop,
    W: Write,
    F: Write,
{
    let asked = SocketAddr::new(args.address, args.port);
    let (listener, address) = match listen(&rt, asked) {
        Ok(listening) => listening,
        Err(fault) => return Failure::Listen(asked, fault),
    };
    let origins = Origins::new(mem::replace(&mut args.origins, Vec::new(alloc)));
    let mut service = match service_of(&rt, alloc, pages, &args, address) {
        Ok(service) => Dated::new(alloc, Cors::new(alloc, service, origins, EXPORT_PATH), rt),
        Err(failure) => return failure,
    };
    if let Err(failure) = print_address(alloc, address, output) {
        return failure;
    }
    match Peers::new(rt, alloc, listener, settings_of(&args)) {
        Ok(peers) => serve(rt, alloc, peers, &mut service, faults),
        Err(end) => failure_of(end),
    }
}

/// What keeps the spans.
type Store = TraceStore<Arc<ViewSpan>, TraceDigest, RandomState, Global>;

/// How many bytes a body may have, and what it means.
fn max_body_of(args: &ViewArgs) -> usize
    ensures { result ≡ args.now.max_body }
{
    usize::try_from(args.max_body).unwrap_or(usize::MAX)
}

/// How many bytes of requests and answers may be pending.
fn pending_of(args: &ViewArgs) -> u64
    ensures { args.now.pending_mb ≤ 1_048_576 → result ≡ args.now.pending_mb * 1_048_576 }
{
    args.pending_mb.saturating_mul(MIB)
}

/// The service, which listens at this address, and has kept nothing.
fn service_of<R, P>(
    rt: &R,
    alloc: Global,
    pages: P,
    args: &ViewArgs,
    address: SocketAddr,
) -> Result<ViewService<Store, P>, Failure>
where
    R: RandomSource,
    P: Drop,
{
    let Ok(hasher) = RandomState::new(rt) else {
        return Err(Failure::Random);
    };
    let Ok(hosts) = Hosts::new(alloc, address.ip(), address.port(), args.hosts.as_slice()) else {
        return Err(Failure::OutOfMemory);
    };
    match TraceStore::new(alloc, hasher, limits_of(args)) {
        Ok(store) => {
            let service = ViewService::new(alloc, store, pages, hosts, max_body_of(args));
            let pending = usize::try_from(pending_of(args)).unwrap_or(usize::MAX);
            Ok(service.with_max_pending(pending))
        }
        Err(_) => Err(Failure::OutOfMemory),
    }
}

/// Serves peers, round after round, and reports what was refused, until no more can be.
fn serve<R, K, P, F>(
    rt: R,
    alloc: Global,
    mut peers: Peers<R, P::Page>,
    service: &mut Dated<Cors<ViewService<K, P>>, R>,
    faults: &mut F,
) -> Failure
where
    R: Net + Wait + RandomSource + Clock + Copy,
    K: TraceKeeper<Arc<ViewSpan>, TraceDigest>,
    P: Pages<Arc<ViewSpan>, TraceDigest>,
    F: Write,
{
    let mut complaints = Complaints::new(alloc);
    let mut told = Strays::new();
    for _ in rt.forever() {
        let round = match peers.round(service) {
            Ok(round) => round,
            Err(end) => return failure_of(end),
        };
        let view = &mut service.service.service;
        for _ in 0..round.accepted {
            view.count_connection();
        }
        report_strays(&mut told, view.strays(), faults);
        report(&mut complaints, view.tallies(), faults, round.at_ms);
    }
    unreachable!()
}

/// Why no peer can be served any more.
fn failure_of(end: End) -> Failure {
    match end {
        End::Wait => Failure::Wait,
        End::OutOfMemory => Failure::OutOfMemory,
    }
}

/// How peers are served.
fn settings_of(args: &ViewArgs) -> Settings
    ensures idle { args.now.idle_seconds ≤ 86_400
        → result.times.idle_ms ≡ args.now.idle_seconds * 1_000 }
    ensures request { args.now.request_seconds ≤ 86_400
        → result.times.request_ms ≡ args.now.request_seconds * 1_000 }
    ensures answer { result.times.answer_ms ≡ result.times.request_ms }
    ensures discard { result.times.discard_ms ≡ 2_000 }
    ensures close { result.times.close_ms ≡ 1_000 }
    ensures most { result.most ≡ 8_192 }
    ensures max_body { result.limits.max_body ≡ min args.now.max_body (result.pending / 2) }
    ensures pending { args.now.pending_mb ≤ 1_048_576
        → result.pending ≡ args.now.pending_mb * 1_048_576 }
{
    Settings::new(
        args.idle_seconds.saturating_mul(1_000),
        args.request_seconds.saturating_mul(1_000),
        max_body_of(args),
        pending_of(args),
    )
}

/// How much is kept.
fn limits_of(args: &ViewArgs) -> trace_store::Limits
    ensures spans { result.max_spans ≡ args.now.keep_spans }
    ensures bytes { args.now.keep_mb ≤ 1_048_576
        → result.max_bytes ≡ args.now.keep_mb * 1_048_576 }
{
    trace_store::Limits {
        max_spans: args.keep_spans,
        max_bytes: args.keep_mb.saturating_mul(MIB),
    }
}

/// Prints where the program listens.
fn print_address<W: Write>(
    alloc: Global,
    address: SocketAddr,
    output: &mut W,
) -> Result<(), Failure> {
    let Ok(line) = format!(in alloc; "listening on http://{address}\n") else {
        return Err(Failure::OutOfMemory);
    };
    if output.write_all(line.as_bytes()).is_err() || output.flush().is_err() {
        return Err(Failure::Write);
    }
    Ok(())
}
