//! Moments of the runtime's clocks.

use std::time::Clock;

/// The moment now, in milliseconds since a start of the clock's own. It is 0 where the clock can't
/// be read.
pub(crate) fn now_ms<R: Clock>(rt: &R) -> u64 {
    match rt.monotonic() {
        Ok(since_start) => u64::try_from(since_start.as_millis()).unwrap_or(u64::MAX),
        Err(_) => 0,
    }
}

/// The same moment, in nanoseconds. Waits go by it, so that they don't change where the clock of the
/// day is set.
pub(crate) fn now_ns<R: Clock>(rt: &R) -> u64 {
    match rt.monotonic() {
        Ok(since_start) => u64::try_from(since_start.as_nanos()).unwrap_or(u64::MAX),
        Err(_) => 0,
    }
}
