//! Figures of what is measured.
use anyhow::Result;
use std::alloc::Global;
use std::io;
use std::time::{Clock, Instant};

/// What a round came to: the nanoseconds that it took, and a number by what came out of it, so that
/// all of it has to be done.
pub type Took = (u64, u64);

/// The nanoseconds since a moment.
pub fn nanos_since(clock: &impl Clock, start: Instant) -> io::Result<u64> {
    let elapsed = start.elapsed(clock)?.as_nanos();
    Ok(u64::try_from(elapsed).unwrap_or(u64::MAX))
}

/// How long something took each time, in nanoseconds: 0 where nothing was timed.
#[derive(Clone, Copy)]
pub struct Spread {
    /// The middle one.
    pub p50: u64,
    /// The one that a thousandth of them took longer than.
    pub p999: u64,
    /// The longest.
    pub longest: u64,
}

/// How these times spread.
pub fn spread_of(mut nanos: Vec<u64>) -> Spread {
    nanos.sort_unstable();
    let count = nanos.len();
    let late = count.saturating_sub(count / 1000 + 1);
    Spread {
        p50: nanos.get(count / 2).copied().unwrap_or(0),
        p999: nanos.get(late).copied().unwrap_or(0),
        longest: nanos.last().copied().unwrap_or(0),
    }
}

/// What some rounds came to.
#[derive(Drop)]
pub struct Rounds {
    times: Vec<u64>,
    sum: u64,
}

impl Rounds {
    /// No round.
    pub fn new(alloc: Global) -> Rounds {
        Rounds {
            times: Vec::new(alloc),
            sum: 0,
        }
    }

    /// Adds a round.
    pub fn add(&mut self, took: Took) -> Result<()> {
        let (nanos, out) = took;
        self.times.push(nanos)?;
        self.sum = self.sum.wrapping_add(out);
        Ok(())
    }

    /// Prints how long each of so many things takes in the middle one, and the sum of what came out
    /// of all. Without rounds it prints nothing.
    pub fn print(self, rt: HostRuntime, what: &str, things: usize) -> Result<()> {
        if self.times.is_empty() {
            return Ok(());
        }
        let (nanos, sum) = (spread_of(self.times).p50, self.sum);
        let tenths = nanos.saturating_mul(10) / (things as u64).max(1);
        print!(rt; ", {what} {}.{} ns ({sum})", tenths / 10, tenths % 10)?;
        Ok(())
    }
}
