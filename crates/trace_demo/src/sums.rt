//! What became of the spans, in sums.
ghost use Rattle.std.specs.Prelude.{◌≡◌, ◌≤◌, ◌↔◌, IsTrue};
ghost use Rattle.trace_demo.specs.Balance.{Balances, accounted_for};

use batch_desk::Totals;
use std::io;
use std::io::Write;

/// What became of the spans of all threads.
#[derive(Debug, Clone, Copy, PartialEq, Eq)]
pub(crate) struct Sums {
    /// How many ends were answered that they were queued or dropped.
    pub(crate) ended: u64,
    /// How many were handed to the exporter: delivered, or lost.
    pub(crate) handed: u64,
    /// How many of these are lost: their batch came to nothing.
    pub(crate) lost: u64,
    /// How many were dropped.
    pub(crate) dropped: u64,
    /// How many are left in the queue.
    pub(crate) left: u64,
    /// How many the collector has, whatever it replied: those of lost batches too.
    pub(crate) collected: u64,
}

/// How many spans a processor counted as dropped, for whatever reason.
pub(crate) fn all_drops(totals: Totals) -> u64 {
    let drops = totals.dropped;
    let by_worker = drops.encode_memory.saturating_add(drops.too_large);
    let by_worker = by_worker.saturating_add(drops.abandoned);
    drops.queue_full.saturating_add(by_worker)
}

impl Sums {
    /// From what the processor counted, and what the collector has.
    pub(crate) fn new(ended: u64, totals: Totals, collected: u64) -> Sums {
        Sums {
            ended,
            handed: totals.handed,
            lost: totals.lost,
            dropped: all_drops(totals),
            left: totals.left,
            collected,
        }
    }

    /// How many were handed, dropped or left.
    fn sum(&self) -> u64
        ensures { result ≡ accounted_for self.now }
    {
        let gone = self.handed.saturating_add(self.dropped);
        gone.saturating_add(self.left)
    }

    /// Whether each span that ended was handed, dropped or left.
    fn is_balanced(&self) -> bool
        ensures { IsTrue result ↔ (self.now.ended ≡ accounted_for self.now) }
    {
        self.ended == self.sum()
    }

    /// The program's status: 0 where they are balanced and the collector has as many as were
    /// handed, and else 1.
    pub(crate) fn status(&self) -> u8
        ensures least { result ≤ 1 }
        ensures balanced { (result ≡ 0) ↔ Balances self.now }
    {
        if self.is_balanced() && self.collected == self.handed {
            0
        } else {
            1
        }
    }

    /// Writes a line for each, and flushes.
    pub(crate) fn print<W: Write>(&self, output: &mut W) -> io::Result<()> {
        writeln!(output, "ended {}", self.ended)?;
        let delivered = self.handed.saturating_sub(self.lost);
        writeln!(output, "delivered {delivered}")?;
        writeln!(output, "lost {}", self.lost)?;
        writeln!(output, "dropped {}", self.dropped)?;
        writeln!(output, "left {}", self.left)?;
        writeln!(output, "sum {}", self.sum())?;
        let balanced = if self.is_balanced() { "yes" } else { "no" };
        writeln!(output, "balanced {balanced}")?;
        writeln!(output, "collected {}", self.collected)?;
        output.flush()
    }
}
