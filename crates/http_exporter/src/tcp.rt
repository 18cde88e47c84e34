//! Links over TCP.

ghost use Rattle.std.specs.Prelude.{◌≡◌, ◌≤◌, ℕ, false, None};

use crate::buffer::Buffered;
use crate::deadline::{Countdown, Deadline, IdleStream, RuntimeClock, TimedStream};
use crate::dial::Dial;
use crate::exporter::LinkExporter;
use otlp_http::{Coding, DeviceFailed, Target};
use std::alloc::{Allocator, Global};
use std::fmt;
use std::io::{ErrorKind, Read, Write};
use std::marker::Model;
use std::net::{Net, OpenStream, TcpStream, ToSocketAddrs};
use std::time::{Clock, Duration};

/// A time for [`LinkExporter::new`] in a program that reads no settings, in milliseconds: the
/// default of `exportTimeoutMillis` (OpenTelemetry Trace SDK, "Batching processor"). The settings
/// have the default of `OTEL_EXPORTER_OTLP_TIMEOUT`, 10 seconds.
pub const DEFAULT_EXPORT_TIMEOUT_MS: u64 = 30_000;

const _: () = prove!(DEFAULT_EXPORT_TIMEOUT_MS == 30_000);

/// A socket, whose timeout is set before each call. What a system's sockets give and take no
/// contract says.
#[derive(Drop)]
pub struct Socket<S> {
    stream: S,
}

impl<S: Read + Write + OpenStream> TimedStream for Socket<S> {
    ghost remaining = { λ s. S.remaining s.stream };

    ghost contents = { λ s. S.contents s.stream };

    fn read_within(&mut self, buf: &mut [u8], timeout: Duration) -> Result<usize, DeviceFailed> {
        if self.stream.set_read_timeout(Some(timeout)).is_err() {
            return Err(DeviceFailed);
        }
        match self.stream.read(buf) {
            Ok(n) => Ok(n),
            Err(_) => Err(DeviceFailed),
        }
    }

    fn write_within(&mut self, buf: &[u8], timeout: Duration) -> Result<usize, DeviceFailed> {
        if self.stream.set_write_timeout(Some(timeout)).is_err() {
            return Err(DeviceFailed);
        }
        match self.stream.write(buf) {
            Ok(n) => Ok(n),
            Err(_) => Err(DeviceFailed),
        }
    }
}

impl<S: Read + Write + OpenStream> IdleStream for Socket<S> {
    fn is_idle(&mut self) -> bool {
        if self.stream.set_nonblocking(true).is_err() {
            return false;
        }
        let peeked = self.stream.peek(&mut [0]);
        let is_idle = matches!(&peeked, Err(e) if e.kind() == ErrorKind::WouldBlock);
        self.stream.set_nonblocking(false).is_ok() && is_idle
    }
}

/// Dials over TCP: a connection of its own for each attempt, without Nagle's delay, which is read
/// through a buffer. An attempt ends: its time goes by the runtime's monotonic clock, which is
/// asked before each connection, read and write. In contracts it is a `TcpDialing`.
#[derive(Drop)]
pub struct TcpDial<R> {
    rt: R,
    timeout_ms: u64,
    attempt_ms: u64,
}

impl<R> Model for TcpDial<R> {
    ghost use Rattle.std.specs.Prelude.{◌≤◌};
    ghost use Rattle.http_exporter.specs.Tcp.{TcpDialing};

    ghost Value = { TcpDialing R };

    ghost view = { λ d. record {
      runtime = d.rt;
      timeout_ms = d.timeout_ms;
      attempt_ms = d.attempt_ms;
    } };

    ghost invariant = { λ d. (1 ≤ d.timeout_ms) × (1 ≤ d.attempt_ms) };
}

/// Writes how long it waits, and leaves out the runtime's value.
impl<R> fmt::Debug for TcpDial<R> {
    fn fmt<W: fmt::Write>(&self, f: &mut fmt::Formatter<W>) -> fmt::Result {
        f.debug_struct("TcpDial")
            .field("timeout_ms", &self.timeout_ms)
            .field("attempt_ms", &self.attempt_ms)
            .finish_non_exhaustive()
    }
}

/// The clock by which an attempt over TCP ends.
type Time<R> = Countdown<RuntimeClock<R>>;

impl<R> TcpDial<R> {
    /// Dials by this runtime. A connection that isn't made in `timeout_ms` milliseconds, which are
    /// at least 1, is given up, and so is each read and each write that waits longer. The attempt
    /// as a whole ends in this time too, unless [`TcpDial::within_ms`] gives it another.
    pub fn new(rt: R, timeout_ms: u64) -> TcpDial<R>
        requires { 1 ≤ timeout_ms }
        ensures { result ≡ record {
          runtime = rt;
          timeout_ms = timeout_ms;
          attempt_ms = timeout_ms;
        } }
    {
        TcpDial {
            rt,
            timeout_ms,
            attempt_ms: timeout_ms,
        }
    }

    /// The same dial, for attempts of which each ends in `ms` milliseconds, which are at least 1,
    /// from when its host's name is looked up: then what it waits for fails. The look-up takes as
    /// long as the system lets it, and counts.
    pub fn within_ms(mut self, ms: u64) -> TcpDial<R>
        requires { 1 ≤ ms }
        ensures { result ≡ record self { attempt_ms = ms } }
    {
        self.attempt_ms = ms;
        self
    }
}

/// A host as it is looked up: an IPv6 address without its brackets, and any other as it is.
fn without_brackets(host: &str) -> &str {
    match host.strip_prefix("[") {
        Some(rest) => rest.strip_suffix("]").unwrap_or(host),
        None => host,
    }
}

impl<R: Net + Clock + Copy> TcpDial<R> {
    /// A connection to the first of the host's addresses that takes one in the time that is left.
    fn connect(&self, host: &str, port: u16, time: &mut Time<R>) -> Option<R::Stream> {
        let name = without_brackets(host);
        for address in (name, port).to_socket_addrs(&self.rt).ok()? {
            let left = time.left();
            if left == 0 {
                return None;
            }
            let timeout = Duration::from_nanos(left);
            if let Ok(stream) = TcpStream::connect_timeout(&self.rt, &address, timeout) {
                return Some(stream);
            }
        }
        None
    }
}

impl<R: Net + Clock + Copy> Dial for TcpDial<R> {
    type Link = Buffered<Deadline<Socket<R::Stream>, RuntimeClock<R>>>;

    fn dial(&mut self, host: &str, port: u16) -> Option<Self::Link> {
        let clock = RuntimeClock::new(self.rt);
        let mut time = Countdown::start(clock, self.timeout_ms, self.attempt_ms)?;
        let stream = self.connect(host, port, &mut time)?;
        stream.set_nodelay(true).ok()?;
        Some(Buffered::new(Deadline::new(Socket { stream }, time)))
    }
}

/// An exporter over TCP (OTLP Specification, "OTLP/HTTP").
pub type HttpExporter<R> = LinkExporter<TcpDial<R>>;

impl<R> LinkExporter<TcpDial<R>> {
    /// An exporter that posts to this target over TCP: one connection an attempt, which is closed
    /// after it. A connection that isn't made in `timeout_ms` milliseconds, which are at least 1,
    /// is given up, and so is each read and each write that waits longer. The attempt as a whole
    /// ends in this time too, unless [`LinkExporter::within_ms`] gives it another.
    ///
    /// The host's name is looked up at each attempt. It takes no memory but while a reply is read.
    pub fn new(alloc: Global, rt: R, target: Target, timeout_ms: u64) -> HttpExporter<R>
        requires { 1 ≤ timeout_ms }
        ensures { result ≡ record {
          dial = record { runtime = rt; timeout_ms = timeout_ms; attempt_ms = timeout_ms };
          target = target;
          coding = Coding.Identity;
          limits = record { head = 16_384; fields = 64; body = 65_536 };
          reads_after_a_stop = false;
          last_failure = None;
        } }
    {
        LinkExporter::over(alloc, alloc, TcpDial::new(rt, timeout_ms), target)
    }
}

impl<R, A: Allocator> LinkExporter<TcpDial<R>, A> {
    /// The same exporter, for attempts of which each ends in `ms` milliseconds, which are at least
    /// 1 (see [`TcpDial::within_ms`]). What it waits for then fails, so the outcome is `NoReply`,
    /// or by the status alone where the head of a reply has come.
    pub fn within_ms(mut self, ms: u64) -> LinkExporter<TcpDial<R>, A>
        requires { 1 ≤ ms }
        ensures { result ≡ record self { dial = record self.dial { attempt_ms = ms } } }
    {
        self.dial.attempt_ms = ms;
        self
    }
}
