//! An exporter that shows what it met while it works on another thread.

ghost use Rattle.std.specs.Prelude.{◌≡◌, ◌≢◌, IfOk, IsSome};
ghost use Rattle.http_exporter.specs.Attempts.{NeedsNothing};
ghost use Rattle.retry_core.specs.Retries.{outcome_view};
ghost use Rattle.model_desk.specs.Retries.{delivered};

use crate::failure::Failure;
use crate::reports::ReportsFailure;
use otlp_ids::OutOfMemory;
use retry_core::Outcome;
use span_exporter::Exporter;
use std::alloc::{AllocError, Global};
use std::fmt;
use std::marker::Model;
use std::sync::{Arc, Mutex, Wait};

/// Where an exporter puts its last failure.
type Cell = Arc<Mutex<Option<Failure>>, Global>;

/// Shows what a [`WatchedExporter`] met, wherever that works.
#[derive(Drop)]
pub struct FailureWatch {
    cell: Cell,
}

impl FailureWatch {
    /// What [`ReportsFailure::last_failure`] was after the exporter's last attempt that has ended.
    /// There is none before one has failed.
    pub fn last(&self, rt: &impl Wait) -> Option<Failure> {
        self.cell.lock(rt).as_ref().map(Failure::copy)
    }
}

/// An exporter whose last failure a [`FailureWatch`] shows while it works, as on the thread of a
/// service's worker. It does what the exporter does that it was made of, a
/// [`LinkExporter`](crate::LinkExporter) or a [`KeptExporter`](crate::KeptExporter). In contracts
/// it is that exporter; what the watch shows no clause says.
#[derive(Drop)]
pub struct WatchedExporter<E, R> {
    exporter: E,
    cell: Cell,
    rt: R,
}

impl<E, R> Model for WatchedExporter<E, R> {
    ghost Value = { E };

    ghost view = { λ w. w.exporter };
}

/// Writes the exporter that it was made of.
impl<E: fmt::Debug, R> fmt::Debug for WatchedExporter<E, R> {
    fn fmt<W: fmt::Write>(&self, f: &mut fmt::Formatter<W>) -> fmt::Result {
        fmt::Debug::fmt(&self.exporter, f)
    }
}

impl<E: Drop, R: Drop> WatchedExporter<E, R> {
    /// Watches this exporter. The runtime's value is for the lock that the two share.
    ///
    /// # Errors
    ///
    /// `AllocError` where memory for what they share is refused.
    pub fn new(
        alloc: Global,
        rt: R,
        exporter: E,
    ) -> Result<(WatchedExporter<E, R>, FailureWatch), AllocError>
        ensures { IfOk result (λ made. made.0 ≡ exporter) }
    {
        let cell = Arc::new(alloc, Mutex::new(None))?;
        let watch = FailureWatch {
            cell: Arc::try_clone(&cell)?,
        };
        Ok((WatchedExporter { exporter, cell, rt }, watch))
    }

    /// The exporter that it was made of.
    pub fn exporter(&self) -> &E
        ensures { result.now ≡ self.now }
    {
        &self.exporter
    }
}

impl<E: ReportsFailure, R: Wait> Exporter for WatchedExporter<E, R> {
    ghost use Rattle.std.specs.Prelude.{None, ◌^◌, ◌-◌};

    ghost handed = { λ _. None };

    ghost room = { λ _ _. 2 ^ 32 - 1 };

    /// Nothing has to be made ready, as by the exporter that it was made of.
    fn prepare(&mut self, size: usize, attempts: u32) -> Result<(), OutOfMemory>
        ensures ready { NeedsNothing result self.old self.new size attempts }
    {
        Ok(())
    }

    /// Attempts to send the body, as the exporter does that it was made of, and then shows its last
    /// failure.
    fn export(&mut self, _number: u64, _attempt: u32, body: &[u8]) -> Outcome
        ensures outcome { E.attempts self.old body.now (outcome_view result) self.new }
        ensures failed { outcome_view result ≢ delivered → IsSome (E.reported self.new) }
    {
        let outcome = self.exporter.attempt(body);
        *self.cell.lock(&self.rt) = self.exporter.last_failure().map(Failure::copy);
        outcome
    }
}
