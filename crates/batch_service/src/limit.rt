//! Up to when a service's worker may begin attempts.
ghost use Rattle.std.specs.Prelude.{◌≡◌};
ghost use Rattle.batch_service.specs.Limits.{is_time_up, moment_after};

use std::alloc::{AllocError, Global};
use std::sync::Arc;
use std::sync::atomic::{AtomicU64, Ordering};
use std::time::Clock;

/// How long a millisecond is, in nanoseconds.
const MS: u64 = 1_000_000;

/// What is kept where no moment is set.
const NEVER: u64 = u64::MAX;

/// Up to when a worker may begin attempts: a moment of the runtime's monotonic clock, which a stop
/// sets, and which the worker's thread looks at before each turn.
#[derive(Drop)]
pub(crate) struct Limit {
    moment: Arc<AtomicU64>,
}

impl Limit {
    /// No moment is set.
    pub(crate) fn new(alloc: Global) -> Result<Limit, AllocError> {
        let moment = Arc::new(alloc, AtomicU64::new(NEVER))?;
        Ok(Limit { moment })
    }

    /// The same limit, for another thread.
    pub(crate) fn try_clone(&self) -> Result<Limit, AllocError> {
        let moment = Arc::try_clone(&self.moment)?;
        Ok(Limit { moment })
    }

    /// Sets the moment, in nanoseconds since the clock's start.
    pub(crate) fn set(&self, moment: u64) {
        let moment = moment.min(NEVER - 1);
        self.moment.store(moment, Ordering::SeqCst);
    }

    /// The moment, if one is set.
    pub(crate) fn get(&self) -> Option<u64> {
        match self.moment.load(Ordering::SeqCst) {
            NEVER => None,
            moment => Some(moment),
        }
    }
}

/// The moment now of the runtime's monotonic clock, in nanoseconds since its start, if it can be
/// read.
pub(crate) fn now<R: Clock>(rt: &R) -> Option<u64> {
    let since_start = rt.monotonic().ok()?;
    u64::try_from(since_start.as_nanos()).ok()
}

/// The moment this number of milliseconds from now on. Where the clock can't be read, it is the
/// first one.
pub(crate) fn moment_after(now: Option<u64>, ms: u64) -> u64
    ensures { result ≡ moment_after now ms }
{
    match now {
        Some(now) => now.saturating_add(ms.saturating_mul(MS)),
        None => 0,
    }
}

/// Whether the time is up: a moment is set, and the clock says that one or a later one, or can't
/// be read.
pub(crate) fn is_time_up(limit: Option<u64>, now: Option<u64>) -> bool
    ensures { result ≡ is_time_up limit now }
{
    match (limit, now) {
        (None, _) => false,
        (Some(_), None) => true,
        (Some(limit), Some(now)) => limit <= now,
    }
}
