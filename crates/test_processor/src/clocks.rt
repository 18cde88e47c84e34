//! The clock of the system, over readings that fail, go back, and don't fit.
use crate::equal::assert_equal;
use batch_processor::{Clock, ManualClock, SystemClock};
use std::cell::Cell;
use std::time::Duration;
use std::{io, time};

/// A runtime's clock with such readings.
#[derive(Drop)]
struct Readings {
    count: Cell<usize>,
}

impl time::Clock for Readings {
    fn monotonic(&self) -> io::Result<Duration> {
        Ok(Duration::from_secs(0))
    }

    fn since_1970(&self) -> io::Result<Duration> {
        let count = self.count.get();
        self.count.set(count.saturating_add(1));
        match count {
            0 => Err(io::Error::from(io::ErrorKind::Unsupported)),
            1 => Ok(Duration::new(5, 7)),
            2 => Ok(Duration::new(5, 6)),
            3 => Ok(Duration::from_secs(1 << 40)),
            _ => Ok(Duration::from_nanos(u64::MAX)),
        }
    }
}

#[test]
fn a_clock_never_goes_back(rt: HostRuntime) {
    let clock = SystemClock::new(Readings {
        count: Cell::new(0),
    });
    for want in [
        1_000_000,
        5_000_000_007,
        5_001_000_007,
        5_002_000_007,
        u64::MAX,
    ] {
        assert_equal(&rt, clock.now(), want);
    }
    let clock = SystemClock::new(rt);
    assert_equal(&rt, clock.now() > 1_700_000_000_000_000_000, true);
    let clock = ManualClock::new(3);
    assert_equal(&rt, clock.now(), 3);
    clock.set(2);
    assert_equal(&rt, clock.now(), 2);
}
