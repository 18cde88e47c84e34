//! The far side of a client: connections that give one reply after another, and what came.
use super::clock::Steps;
use http_exporter::{Buffered, Countdown, Deadline, Dial, IdleStream, Monotonic, TimedStream};
use otlp_http::DeviceFailed;
use std::cell::{Cell, RefCell};
use std::io::Read;
use std::time::Duration;
use trace_api::Clock;

/// A clock whose time doesn't pass.
#[derive(Clone, Copy)]
pub(crate) struct Stopped;

impl Monotonic for Stopped {
    fn now(&mut self) -> Option<u64> {
        Some(7)
    }
}

/// What a connection does after its last reply.
#[derive(Clone, Copy, PartialEq, Eq)]
pub(crate) enum After {
    /// It closes, which the client can see before it sends.
    Closes,
    /// It closes, which shows only when nothing of a reply comes.
    Ends,
    /// It takes no byte.
    Stops,
}

/// A connection of the far side: the reply to each request on it, and what it does then.
pub(crate) type Line = (&'static [&'static [u8]], After);

/// What came to the far side.
#[derive(Drop)]
pub(crate) struct Log {
    pub(crate) bytes: RefCell<Vec<u8>>,
    pub(crate) dials: Cell<usize>,
    pub(crate) requests: Cell<usize>,
}

/// One end of a connection.
#[derive(Drop)]
pub(crate) struct LineEnd<'a> {
    line: Line,
    given: usize,
    log: &'a Log,
}

impl TimedStream for LineEnd<'_> {
    ghost use Rattle.std.specs.Prelude.{None};

    ghost remaining = { λ _. None };

    ghost contents = { λ _. None };

    fn read_within(&mut self, buf: &mut [u8], _timeout: Duration) -> Result<usize, DeviceFailed> {
        let Some(reply) = self.line.0.get(self.given) else {
            return Ok(0);
        };
        self.given += 1;
        let mut reply = *reply;
        match reply.read(buf) {
            Ok(count) => Ok(count),
            Err(_) => Err(DeviceFailed),
        }
    }

    fn write_within(&mut self, buf: &[u8], _timeout: Duration) -> Result<usize, DeviceFailed> {
        if self.given == self.line.0.len() && self.line.1 == After::Stops {
            return Err(DeviceFailed);
        }
        let Ok(mut bytes) = self.log.bytes.try_borrow_mut() else {
            return Err(DeviceFailed);
        };
        if buf.ends_with(b"\r\n\r\n") {
            let requests = self.log.requests.get();
            self.log.requests.set(requests.saturating_add(1));
        }
        match bytes.extend_from_slice(buf) {
            Ok(()) => Ok(buf.len()),
            Err(_) => Err(DeviceFailed),
        }
    }
}

impl IdleStream for LineEnd<'_> {
    fn is_idle(&mut self) -> bool {
        self.given < self.line.0.len() || self.line.1 == After::Ends
    }
}

/// A dial of a host, whose far side has these connections, one after another.
#[derive(Drop)]
pub(crate) struct FarSide<'a> {
    pub(crate) lines: &'static [Line],
    /// The client's clock, which it reads when it is dialed.
    pub(crate) clock: &'a Steps,
    pub(crate) log: &'a Log,
}

impl<'a> Dial for FarSide<'a> {
    type Link = Buffered<Deadline<LineEnd<'a>, Stopped>>;

    fn dial(&mut self, host: &str, _port: u16) -> Option<Self::Link> {
        self.clock.now();
        let at = self.log.dials.get();
        let line = *self.lines.get(at)?;
        if host != "shop.example" {
            return None;
        }
        self.log.dials.set(at.saturating_add(1));
        let time = Countdown::start(Stopped, 1000, 1000)?;
        let stream = LineEnd {
            line,
            given: 0,
            log: self.log,
        };
        Some(Buffered::new(Deadline::new(stream, time)))
    }
}
