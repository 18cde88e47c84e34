//! The program `otlp-relay`, over a runtime and writers.

ghost use Rattle.std.specs.Prelude.{◌≡◌, ◌≤◌};
ghost use Rattle.std.specs.Io.KnownBytes.{Keeps};

use crate::args::RelayArgs;
use crate::balance::print_balance;
use crate::collector::collector;
use crate::course::{Course, Phase};
use crate::failure::{Failure, tell};
use crate::folder::Folders;
use crate::keeping::{Kept, Mender, Place, open_first, place_of};
use crate::lost::lost_names;
use crate::moments::now_ms;
use crate::sending::Sending;
use crate::serving::{Relay, failure_of, serve};
use crate::settings::{
    config_of, enough_of, max_body_of, pending_of, refused_after_of, sends_of, settings_of,
    stop_ms_of,
};
use crate::told::Told;
use http_listener::{Dated, Peers, listen};
use relay_queue::{BodyKeeper, BodySender, LostSink};
use relay_service::{Hosts, NoPieces, RelayService};
use relay_store::{
    Closer, Keeping, Naming, Poster, RelayBlank, RelayParts, RelaySender, SharedKeeper,
};
use spool::{SpoolError, SpoolFolder};
use std::alloc::Global;
use std::fs::File;
use std::io::{Input, Write};
use std::net::{Net, SocketAddr, TcpListener, TcpStream};
use std::os::fd::RawFd;
use std::random::RandomSource;
use std::rt::Files;
use std::sync::{Arc, Mutex, Wait};
use std::thread::{self, JoinHandle, Threads};
use std::time::{Clock, Duration};
use timely_log::{CountedLines, Log};

/// The program's name, as its lines begin.
const PROGRAM: &str = "otlp-relay";

/// How long it is waited between two looks at the thread that sends, in milliseconds.
const LOOK_MS: u64 = 10;

/// What the program is given of what is outside of it.
#[derive(Drop)]
pub struct Outside<L> {
    /// What opens the folder of a spool.
    pub folders: Folders,
    /// The descriptor of standard input, whose bytes, or whose end, stop the program.
    pub input: RawFd,
    /// Where both threads report, and where the names of lost spans go.
    pub log: L,
}

/// The program `otlp-relay`, whose words are those of its command line, the program's name first.
/// It receives spans and hands them on until it is stopped, and then prints what became of them.
/// Where the words ask for help or the version it is printed. A mistake is reported on `faults`.
///
/// All connections are served by turns, on this thread: a client that is silent or drips holds up no
/// other one. A second thread sends, and opens the spool again where it has failed.
///
/// The answer is the program's status: 0 where it was stopped, and after help or the version, 1 where
/// it can't listen at the address, open the spool or the file of names, start the thread, wait for
/// connections or write a line, or names of lost spans could not be written, 2 where the words are
/// bad, 3 where memory was refused.
///
/// The blank becomes the accounts of this relay, whose name `J` has: a program calls this with
/// `Brand`.
pub fn run_relay<J, R, L, W, F>(
    rt: R,
    alloc: Global,
    blank: RelayBlank,
    outside: Outside<L>,
    words: &[String],
    output: &mut W,
    faults: &mut F,
) -> u8
where
    J: Naming + Send + Sync + 'static,
    R: Net<Listener = TcpListener, Stream = TcpStream> + Files<File = File> + Threads + Wait,
    R: RandomSource + Clock + Input + Copy + Send + Sync + 'static,
    L: Log + Drop + Send + 'static,
    W: Write,
    F: Write,
    requires { blank ≡ J.name }
    ensures status { result ≤ 3 }
    ensures quiet { result ≡ 2 → Keeps (W.contents output.old) (W.contents output.new) }
{
    let args = match RelayArgs::read(alloc, words) {
        Ok(args) => args,
        Err(fault) => return fault.tell(output, faults),
    };
    match relay::<J, R, L, W, F>(rt, alloc, blank, outside, args, output, faults) {
        Ok(()) => 0,
        Err(failure) => tell(faults, failure),
    }
}

/// Listens, prints the address, serves and sends until it is stopped, and prints the balance.
fn relay<J, R, L, W, F>(
    rt: R,
    alloc: Global,
    blank: RelayBlank,
    outside: Outside<L>,
    mut args: RelayArgs,
    output: &mut W,
    faults: &mut F,
) -> Result<(), Failure>
where
    J: Naming + Send + Sync + 'static,
    R: Net<Listener = TcpListener, Stream = TcpStream> + Files<File = File> + Threads + Wait,
    R: RandomSource + Clock + Input + Copy + Send + Sync + 'static,
    L: Log + Drop + Send + 'static,
    W: Write,
    F: Write,
    requires { blank ≡ J.name }
{
    let asked = SocketAddr::new(args.address, args.port);
    let (listener, address) = match listen(&rt, asked) {
        Ok(listening) => listening,
        Err(fault) => return Err(Failure::Listen(asked, fault)),
    };
    let Outside {
        folders,
        input,
        log,
    } = outside;
    let place = place_of(folders, &mut args);
    let LockedParts {
        kept,
        poster,
        sender,
        closer,
        damaged_bytes,
    } = open_parts::<J, R, F>(&rt, alloc, blank, place.as_ref(), &args, faults)?;
    let service = service_of(rt, alloc, &kept, poster, place.is_some(), &args, address)?;
    let peers = match Peers::new(rt, alloc, listener, settings_of(&args)) {
        Ok(peers) => peers,
        Err(end) => return Err(failure_of(end)),
    };
    // Where it can't be waited for, as where it is a file, nothing but the system stops the program.
    let _ = peers.watch(input);
    print_address(alloc, address, output)?;
    let mender = Mender::new(alloc, place, damaged_bytes);
    let outgoing = Outgoing {
        sender,
        closer,
        mender,
    };
    let run = Run {
        rt,
        alloc,
        kept,
        log,
    };
    run.serve_and_send(args, outgoing, peers, service, output)
}

/// What hands on what is kept, what gives it up in the end, and what opens the spool again.
#[derive(Drop)]
struct Outgoing<J: Naming> {
    sender: RelaySender<J>,
    closer: Closer<J>,
    mender: Mender,
}

/// What a run has all the time.
#[derive(Drop)]
struct Run<J: Naming, R, L> {
    rt: R,
    alloc: Global,
    kept: Kept<J>,
    log: L,
}

impl<J, R, L> Run<J, R, L>
where
    J: Naming + Send + Sync + 'static,
    R: Net<Listener = TcpListener, Stream = TcpStream> + Files<File = File> + Threads + Wait,
    R: RandomSource + Clock + Input + Copy + Send + Sync + 'static,
    L: Log + Drop + Send + 'static,
{
    /// Starts the thread that sends, and serves until the program is to stop. Then it ends the
    /// thread, names what is lost, and prints the balance.
    fn serve_and_send<W>(
        self,
        args: RelayArgs,
        outgoing: Outgoing<J>,
        peers: Peers<R, NoPieces>,
        mut service: Relay<SharedKeeper<J, R, SpoolFolder>, R>,
        output: &mut W,
    ) -> Result<(), Failure>
    where
        W: Write,
    {
        let (rt, alloc) = (self.rt, self.alloc);
        let stop_ms = stop_ms_of(&args);
        let mut names = lost_names(&rt, alloc, args.names.as_ref(), self.log()?)?;
        let mut lines = CountedLines::new(self.log()?, PROGRAM);
        let Ok(course) = Course::new(alloc) else {
            return Err(Failure::OutOfMemory);
        };
        let Outgoing {
            sender,
            mut closer,
            mender,
        } = outgoing;
        let thread = self.start(args, sender, mender, &course)?;
        let served = serve(rt, alloc, peers, &mut service, &mut lines, stop_ms);
        let end_ms = match &served {
            Ok(end_ms) => *end_ms,
            Err(_) => 0,
        };
        course.enter(Phase::Emptying);
        wait_for_end(&rt, &course, end_ms);
        course.enter(Phase::Over);
        self.end_sending(thread, &course, &mut closer, &mut names);
        let report = service.service.keeper().report();
        print_balance(output, &report)?;
        if let Err(failure) = served {
            return Err(failure);
        }
        match report
            .unwritten_names
            .saturating_add(names.take_unwritten())
            .saturating_add(names.take_unread())
        {
            0 => Ok(()),
            unwritten => Err(Failure::Unwritten(unwritten)),
        }
    }

    /// Where it is reported, for a thread.
    fn log(&self) -> Result<L, Failure> {
        match self.log.try_clone() {
            Ok(log) => Ok(log),
            Err(_) => Err(Failure::OutOfMemory),
        }
    }

    /// Starts the thread that sends.
    fn start(
        &self,
        args: RelayArgs,
        sender: RelaySender<J>,
        mender: Mender,
        course: &Course,
    ) -> Result<JoinHandle<()>, Failure> {
        let (rt, alloc) = (self.rt, self.alloc);
        let names = lost_names(&rt, alloc, args.names.as_ref(), self.log()?)?;
        let told = Told::new(CountedLines::new(self.log()?, PROGRAM));
        let (Ok(kept), Ok(course)) = (Arc::try_clone(&self.kept), course.try_clone()) else {
            return Err(Failure::OutOfMemory);
        };
        let (linger_ms, enough) = (args.linger_ms, enough_of(&args, mender.is_spooled()));
        let refused_after = refused_after_of(&args);
        let RelayArgs {
            target,
            timeout_ms,
            ..
        } = args;
        let sending = Sending {
            rt,
            kept,
            sender,
            exporter: collector(rt, alloc, target, timeout_ms, refused_after),
            names,
            told,
            mender,
            course,
            linger_ms,
            enough,
            received: 0,
            bytes: 0,
            refusals: 0,
            unwritten: 0,
            unread: 0,
        };
        sending.start(&rt)
    }

    /// Ends the thread that sends, once the run is over, and names what is lost. A batch that is
    /// with the exporter isn't waited for: without a spool it is lost, and with one it is sent
    /// again, so what comes of it is noted nowhere.
    fn end_sending<S: LostSink>(
        &self,
        thread: JoinHandle<()>,
        course: &Course,
        closer: &mut Closer<J>,
        names: &mut S,
    ) {
        let rt = self.rt;
        if !course.is_sending() {
            thread.join(&rt);
            closer.drain(&rt, &self.kept, names);
            return;
        }
        closer.drain(&rt, &self.kept, names);
        if course.is_sending() {
            drop(thread);
        } else {
            thread.join(&rt);
        }
    }
}

/// The parts of a relay, what is kept under its lock, and how many bytes of the spool can't be read.
#[derive(Drop)]
struct LockedParts<J: Naming> {
    kept: Kept<J>,
    poster: Poster<J>,
    sender: RelaySender<J>,
    closer: Closer<J>,
    damaged_bytes: u64,
}

/// Opens the spool, if there is one: the parts of the relay then. The first bodies that wait have
/// to have room in memory.
fn open_parts<J, R, F>(
    rt: &R,
    alloc: Global,
    blank: RelayBlank,
    place: Option<&Place>,
    args: &RelayArgs,
    faults: &mut F,
) -> Result<LockedParts<J>, Failure>
where
    J: Naming,
    R: Wait,
    F: Write,
    requires { blank ≡ J.name }
{
    let (spool, damaged_bytes) = open_first(alloc, place, faults)?;
    let keeping = Keeping::new(alloc, config_of(args), spool);
    let sender = BodySender::new(alloc, sends_of(args));
    let RelayParts {
        kept,
        poster,
        mut sender,
        closer,
    } = RelayParts::<J, SpoolFolder>::new(blank, keeping, sender);
    let Ok(kept) = Arc::new(alloc, Mutex::new(kept)) else {
        return Err(Failure::OutOfMemory);
    };
    let refilled = sender.refill(rt, &kept);
    match refilled {
        Err(SpoolError::Full) => Err(Failure::LargeBody),
        // (what can't be read now is read when it is to be sent)
        _ => Ok(LockedParts {
            kept,
            poster,
            sender,
            closer,
            damaged_bytes,
        }),
    }
}

/// The service, which listens at this address. The posts of a round are kept with one sync, where
/// they are kept in a spool.
fn service_of<J, R>(
    rt: R,
    alloc: Global,
    kept: &Kept<J>,
    poster: Poster<J>,
    is_spooled: bool,
    args: &RelayArgs,
    address: SocketAddr,
) -> Result<Relay<SharedKeeper<J, R, SpoolFolder>, R>, Failure>
where
    J: Naming,
    R: Copy,
{
    let Ok(kept) = Arc::try_clone(kept) else {
        return Err(Failure::OutOfMemory);
    };
    let Ok(hosts) = Hosts::new(alloc, address.ip(), address.port(), args.hosts.as_slice()) else {
        return Err(Failure::OutOfMemory);
    };
    let keeper = SharedKeeper::new(rt, alloc, kept, poster, is_spooled);
    let pending = usize::try_from(pending_of(args)).unwrap_or(usize::MAX);
    let service = RelayService::new(alloc, keeper, hosts, max_body_of(args)).with_max_pending(
        pending,
    );
    Ok(Dated::new(alloc, service, rt))
}

/// Waits until the thread that sends has nothing to do any more, or this moment has come, in
/// milliseconds.
fn wait_for_end<R: Clock>(rt: &R, course: &Course, end_ms: u64) {
    let left = end_ms.saturating_sub(now_ms(rt));
    for _ in 0..left.div_ceil(LOOK_MS) {
        if course.has_ended() {
            return;
        }
        thread::sleep(rt, Duration::from_millis(LOOK_MS));
    }
}

/// Prints where the program listens.
fn print_address<W: Write>(
    alloc: Global,
    address: SocketAddr,
    output: &mut W,
) -> Result<(), Failure> {
    let Ok(line) = format!(in alloc; "listening on http://{address}\n") else {
        return Err(Failure::OutOfMemory);
    };
    if output.write_all(line.as_bytes()).is_err() || output.flush().is_err() {
        return Err(Failure::Write);
    }
    Ok(())
}
