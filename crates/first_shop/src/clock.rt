//! The clock by which the spans of the shop start and end.
use std::alloc::{AllocError, Global};
use std::sync::Arc;
use std::sync::atomic::{AtomicU64, Ordering};
use std::time;
use trace_kit::processor::{Clock, SystemClock};

/// The moment at which a clock of steps begins, in nanoseconds since 1970.
const FIRST_AT: u64 = 1_790_000_000_000_000_000;

/// How far it goes on with each reading, in nanoseconds.
const STEP_NS: u64 = 1_300_000;

/// How the time is told.
#[derive(Drop)]
enum Time<R> {
    /// It goes on by its readings, so that what is drawn is the same in each run.
    Steps(AtomicU64),
    /// The system's, as a service of your own has it.
    System(SystemClock<R>),
}

/// A clock that all threads of both services share.
#[derive(Drop)]
pub struct ShopClock<R> {
    time: Arc<Time<R>>,
}

impl<R> ShopClock<R> {
    /// A clock of steps that was not read yet.
    pub fn of_steps(alloc: Global) -> Result<ShopClock<R>, AllocError>
    where
        R: Drop,
    {
        let time = Arc::new(alloc, Time::Steps(AtomicU64::new(FIRST_AT)))?;
        Ok(ShopClock { time })
    }

    /// The system's clock.
    pub fn system(alloc: Global, rt: R) -> Result<ShopClock<R>, AllocError>
    where
        R: time::Clock + Drop,
    {
        let time = Arc::new(alloc, Time::System(SystemClock::new(rt)))?;
        Ok(ShopClock { time })
    }

    /// The same clock once more.
    pub fn share(&self) -> Result<ShopClock<R>, AllocError> {
        let time = Arc::try_clone(&self.time)?;
        Ok(ShopClock { time })
    }
}

impl<R: time::Clock> Clock for ShopClock<R> {
    ghost use Rattle.std.specs.Prelude.{⊤};

    ghost tells = { λ clock at. ⊤ };

    fn now(&self) -> u64 {
        match &*self.time {
            Time::Steps(now) => now.fetch_add(STEP_NS, Ordering::SeqCst),
            Time::System(clock) => clock.now(),
        }
    }
}
