//! What gives the time: the system's clock, one that is set, or a program's own.
ghost use Rattle.std.specs.Prelude.{ℕ};

use std::sync::atomic::{AtomicU64, Ordering};
use std::time;

/// How far a clock goes on where the system's clock has no later moment, in nanoseconds.
const STEP_NS: u64 = 1_000_000;

/// Gives the time.
pub trait Clock {
    /// The moments that the clock may give.
    ghost tells: { Self → ℕ → Type 0 };

    /// The moment now, in nanoseconds since 1970.
    fn now(&self) -> u64
        ensures { tells self.now result };
}

impl<'a, C: Clock> Clock for &'a C {
    ghost tells = { λ clock at. C.tells clock.now at };

    fn now(&self) -> u64 {
        C::now(*self)
    }
}

/// The system's clock, over the runtime's value. It never goes back, and a caller that reads it
/// again and again comes to any moment: where the system's clock can't be read, is before 1970, is
/// past 2^64 - 1 nanoseconds or was set back, it goes on from its last answer, or from 1970, by a
/// millisecond with each reading (profile).
#[derive(Debug, Drop)]
pub struct SystemClock<R> {
    rt: R,
    last: AtomicU64,
}

impl<R: time::Clock> SystemClock<R> {
    /// The clock of this runtime. It isn't read yet.
    pub fn new(rt: R) -> SystemClock<R> {
        SystemClock {
            rt,
            last: AtomicU64::new(0),
        }
    }
}

impl<R: time::Clock> Clock for SystemClock<R> {
    ghost use Rattle.std.specs.Prelude.{⊤};

    ghost tells = { λ clock at. ⊤ };

    fn now(&self) -> u64 {
        let last = self.last.load(Ordering::SeqCst);
        let now = match nanos_since_1970(&self.rt) {
            Some(now) if now >= last => now,
            _ => last.saturating_add(STEP_NS),
        };
        self.last.store(now, Ordering::SeqCst);
        now
    }
}

/// The moment that the system's clock gives, if it can be read and fits.
fn nanos_since_1970<R: time::Clock>(rt: &R) -> Option<u64> {
    let since = rt.since_1970().ok()?;
    u64::try_from(since.as_nanos()).ok()
}

/// A clock that stays until it is set: for tests, and for programs that call a worker's turns one
/// by one. Threads may share it.
#[derive(Debug, Drop)]
pub struct ManualClock {
    now: AtomicU64,
}

impl ManualClock {
    /// A clock that is at this moment, in nanoseconds since 1970.
    pub fn new(now: u64) -> ManualClock {
        ManualClock {
            now: AtomicU64::new(now),
        }
    }

    /// Sets the clock to this moment, in nanoseconds since 1970. It may go back.
    pub fn set(&self, now: u64) {
        self.now.store(now, Ordering::SeqCst);
    }
}

impl Clock for ManualClock {
    ghost use Rattle.std.specs.Prelude.{⊤};

    ghost tells = { λ clock at. ⊤ };

    fn now(&self) -> u64 {
        self.now.load(Ordering::SeqCst)
    }
}
