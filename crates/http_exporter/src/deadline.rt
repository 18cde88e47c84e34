//! Links whose calls end by a moment.

ghost use Rattle.std.specs.Prelude.{◌≡◌, ◌<◌, ◌≤◌, ℕ, Bool, List, Option, Some, None, ⊤, IfSome};
ghost use Rattle.std.specs.Prelude.{IfOk, MatchOption, length};
ghost use Rattle.std.specs.Duration.{as_nanos};
ghost use Rattle.std.specs.Io.{ReadsAtMost, WritesAtMost};
ghost use Rattle.std.specs.Io.KnownBytes.{ReadConsumes, WriteAppends};
ghost use Rattle.http_wire.specs.Devices.{CountsFailure, one_more};
ghost use Rattle.http_exporter.specs.Deadlines.{IsTimedCall, RestartsTime, moment_after};
ghost use Rattle.http_exporter.specs.Deadlines.{nanos_of_millis, time_left};

use crate::kept_link::KeptLink;
use otlp_http::{DeviceFailed, FaultRead, FaultWrite};
use std::marker::Model;
use std::time::{self, Duration};

/// A clock that never goes back, by which a deadline goes. Its start is of its own.
pub trait Monotonic {
    // From this state, a reading may say this moment, or that there is none, and leave that state.
    ghost reads: { Self → Option ℕ → Self → Type 0 } = { λ _ _ _. ⊤ };

    /// The moment now, in nanoseconds since the clock's start, or none where it can't be read.
    fn now(&mut self) -> Option<u64>
        ensures { reads self.old result self.new };
}

/// The monotonic clock of a runtime. What it reads no contract says.
#[derive(Debug, Clone, Copy)]
pub struct RuntimeClock<R> {
    rt: R,
}

impl<R> RuntimeClock<R> {
    /// The clock of this runtime.
    pub fn new(rt: R) -> RuntimeClock<R> {
        RuntimeClock { rt }
    }
}

impl<R: time::Clock> Monotonic for RuntimeClock<R> {
    fn now(&mut self) -> Option<u64> {
        let since_start = self.rt.monotonic().ok()?;
        u64::try_from(since_start.as_nanos()).ok()
    }
}

/// The time that is left to a row of calls: each has a longest time, and all end by one moment. In
/// contracts it is a `CountedDown`.
#[derive(Debug, Drop)]
pub struct Countdown<C> {
    clock: C,
    longest: u64,
    all: u64,
    end: u64,
}

impl<C> Model for Countdown<C> {
    ghost use Rattle.http_exporter.specs.Deadlines.{CountedDown};

    ghost Value = { CountedDown C };

    ghost view = { λ c. record {
      clock = c.clock;
      longest = c.longest;
      all = c.all;
      end = c.end;
    } };
}

impl<C: Monotonic + Drop> Countdown<C> {
    /// Starts it: each call may take `longest_ms` milliseconds, and all together `all_ms`. There is
    /// none where the clock can't be read.
    pub fn start(mut clock: C, longest_ms: u64, all_ms: u64) -> Option<Countdown<C>>
        ensures { MatchOption result ((left : C) × C.reads clock None left) (λ time. (now : ℕ)
            × C.reads clock (Some now) time.clock × (time ≡ record {
              clock = time.clock;
              longest = nanos_of_millis longest_ms;
              all = nanos_of_millis all_ms;
              end = moment_after now (nanos_of_millis all_ms);
            })) }
    {
        let now = clock.now()?;
        let all = all_ms.saturating_mul(1_000_000);
        Some(Countdown {
            clock,
            longest: longest_ms.saturating_mul(1_000_000),
            all,
            end: now.saturating_add(all),
        })
    }
}

impl<C: Monotonic> Countdown<C> {
    /// Starts it again, with as much time as at first. It is left as it is where the clock can't be
    /// read.
    pub fn restart(&mut self) -> bool
        ensures { RestartsTime C.reads self.old result self.new }
    {
        match self.clock.now() {
            Some(now) => {
                self.end = now.saturating_add(self.all);
                true
            }
            None => false,
        }
    }

    /// How long a call may take that begins now, in nanoseconds: none where no time is left, or the
    /// clock can't be read. The clock is asked once.
    pub fn left(&mut self) -> u64
        ensures left { (now : Option ℕ) × C.reads self.old.clock now self.new.clock
            × (result ≡ time_left self.old.longest self.old.end now) }
        ensures others { self.new ≡ record self.old { clock = self.new.clock } }
    {
        match self.clock.now() {
            Some(now) => self.end.saturating_sub(now).min(self.longest),
            None => 0,
        }
    }
}

/// A stream each of whose calls is given a time.
pub trait TimedStream {
    // The bytes that it has left to give, where it shows them.
    ghost remaining: { Self → Option (List ℕ) };

    // The bytes that it holds, where it shows them.
    ghost contents: { Self → Option (List ℕ) };

    // From this state, a call that is given this number of nanoseconds may leave that state.
    ghost takes: { Self → ℕ → Self → Type 0 } = { λ _ _ _. ⊤ };

    /// Reads some bytes to the front of `buf`, and answers how many: none only at the end, or where
    /// `buf` has no room. It waits no longer than it is given.
    ///
    /// # Errors
    ///
    /// Where the read failed, or nothing came in time. No byte of those that are left is lost.
    fn read_within(&mut self, buf: &mut [u8], timeout: Duration) -> Result<usize, DeviceFailed>
        ensures bound { ReadsAtMost result buf.new }
        ensures bytes { ReadConsumes (remaining self.old) (remaining self.new) result buf.new }
        ensures timed { takes self.old (as_nanos timeout) self.new };

    /// Writes a front of `buf`, and answers its length. It waits no longer than it is given.
    ///
    /// # Errors
    ///
    /// Where the write failed, or nothing could be written in time. Nothing was written then.
    fn write_within(&mut self, buf: &[u8], timeout: Duration) -> Result<usize, DeviceFailed>
        ensures bound { WritesAtMost result buf.now }
        ensures bytes { WriteAppends (contents self.old) (contents self.new) result buf.now }
        ensures timed { takes self.old (as_nanos timeout) self.new };
}

/// A stream that can say whether it is idle.
pub trait IdleStream: TimedStream {
    // From this state, it may say so, or not, and leave that state.
    ghost idles: { Self → Bool → Self → Type 0 } = { λ _ _ _. ⊤ };

    /// Whether the other end hasn't closed it, and nothing has come that no read gave. It doesn't
    /// wait, and nothing is read.
    fn is_idle(&mut self) -> bool
        ensures { idles self.old result self.new };
}

/// A link whose calls end by a moment: before each it asks a clock, and gives the stream the time
/// that is left, so that an attempt ends even where the other end gives and takes a byte now and
/// then. Where none is left, the call fails and the stream isn't called. It counts its failures,
/// and shows the bytes that the stream shows. In contracts it is a `TimedLink`.
#[derive(Debug, Drop)]
pub struct Deadline<S, C> {
    stream: S,
    time: Countdown<C>,
    failures: u64,
}

impl<S, C> Model for Deadline<S, C> {
    ghost use Rattle.http_exporter.specs.Deadlines.{TimedLink};

    ghost Value = { TimedLink S C };

    ghost view = { λ d. record { stream = d.stream; time = d.time; failures = d.failures } };
}

impl<S, C> Deadline<S, C> {
    /// A link over this stream, with this time. It hasn't failed yet.
    pub fn new(stream: S, time: Countdown<C>) -> Deadline<S, C>
        ensures { result ≡ record { stream = stream; time = time; failures = 0 } }
    {
        Deadline {
            stream,
            time,
            failures: 0,
        }
    }

    /// The stream.
    pub fn stream(&self) -> &S
        ensures { result.now ≡ self.now.stream }
    {
        &self.stream
    }

    /// Counts a failure.
    fn fail(&mut self) -> DeviceFailed
        ensures { self.new ≡ record self.old { failures = one_more self.old.failures } }
    {
        self.failures = self.failures.saturating_add(1);
        DeviceFailed
    }
}

impl<S: TimedStream, C: Monotonic> FaultRead for Deadline<S, C> {
    ghost remaining = { λ d. S.remaining d.stream };

    ghost failures = { λ d. d.failures };

    fn failures(&self) -> u64 {
        self.failures
    }

    /// Reads as the stream does in the time that is left.
    ///
    /// # Errors
    ///
    /// Where no time is left, and where the stream's read failed; each is counted.
    fn read(&mut self, buf: &mut [u8]) -> Result<usize, DeviceFailed>
        ensures bound { ReadsAtMost result buf.new }
        ensures bytes { ReadConsumes (S.remaining self.old.stream) (S.remaining self.new.stream)
            result buf.new }
        ensures counted { CountsFailure result self.old.failures self.new.failures }
        ensures timed { (now : Option ℕ) × C.reads self.old.time.clock now self.new.time.clock
            × IsTimedCall S.takes (time_left self.old.time.longest self.old.time.end now)
            self.old.stream self.new.stream result }
        ensures others { self.new.time
            ≡ record self.old.time { clock = self.new.time.clock } }
    {
        let left = self.time.left();
        if left == 0 {
            return Err(self.fail());
        }
        match self.stream.read_within(buf, Duration::from_nanos(left)) {
            Ok(n) => Ok(n),
            Err(_) => Err(self.fail()),
        }
    }
}

impl<S: TimedStream, C: Monotonic> FaultWrite for Deadline<S, C> {
    ghost contents = { λ d. S.contents d.stream };

    ghost failures = { λ d. d.failures };

    fn failures(&self) -> u64 {
        self.failures
    }

    /// Writes as the stream does in the time that is left.
    ///
    /// # Errors
    ///
    /// Where no time is left, and where the stream's write failed, or took no byte; each is
    /// counted.
    fn write(&mut self, buf: &[u8]) -> Result<usize, DeviceFailed>
        ensures some { IfOk result (λ n. 1 ≤ n) }
        ensures bound { WritesAtMost result buf.now }
        ensures bytes { WriteAppends (S.contents self.old.stream) (S.contents self.new.stream)
            result buf.now }
        ensures counted { CountsFailure result self.old.failures self.new.failures }
        ensures timed { (now : Option ℕ) × C.reads self.old.time.clock now self.new.time.clock
            × IsTimedCall S.takes (time_left self.old.time.longest self.old.time.end now)
            self.old.stream self.new.stream result }
        ensures others { self.new.time
            ≡ record self.old.time { clock = self.new.time.clock } }
    {
        let left = self.time.left();
        if left == 0 {
            return Err(self.fail());
        }
        match self.stream.write_within(buf, Duration::from_nanos(left)) {
            Ok(0) => Err(self.fail()),
            Ok(n) => Ok(n),
            Err(_) => Err(self.fail()),
        }
    }
}

impl<S: IdleStream, C: Monotonic> KeptLink for Deadline<S, C> {
    ghost use Rattle.http_exporter.specs.Deadlines.{RenewsDeadline};

    ghost renews = { RenewsDeadline C.reads S.idles };

    fn renew(&mut self) -> bool {
        self.time.restart() && self.stream.is_idle()
    }
}
