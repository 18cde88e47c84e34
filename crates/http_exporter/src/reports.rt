//! Exporters that report why their last attempt failed that did.

ghost use Rattle.std.specs.Prelude.{◌≡◌, ◌≢◌, ℕ, List, Option, IsSome};
ghost use Rattle.std.specs.Option.{option_copied};
ghost use Rattle.retry_core.specs.Retries.{outcome_view};
ghost use Rattle.model_desk.specs.Retries as model;
ghost use Rattle.model_desk.specs.Retries.{delivered};
ghost use Rattle.http_exporter.specs.declared.failure.Failure as failure;

use crate::failure::Failure;
use retry_core::Outcome;

/// An exporter that reports what its last attempt met that failed. For an attempt nothing has to be
/// made ready.
///
/// An `impl` says by its ghost member `attempts` which outcome an attempt may have, and by
/// `reported` which failure it reports.
pub trait ReportsFailure {
    // From this state, an attempt to send this body may have this outcome, and leave that state.
    ghost attempts: { Self → List ℕ → model.Outcome → Self → Type 0 };

    // What the last attempt met that failed, if one did.
    ghost reported: { Self → Option failure.Failure };

    /// Attempts to send a body.
    fn attempt(&mut self, body: &[u8]) -> Outcome
        ensures outcome { attempts self.old body.now (outcome_view result) self.new }
        ensures failed { outcome_view result ≢ delivered → IsSome (reported self.new) };

    /// What the last attempt met that failed. There is none before one has failed.
    fn last_failure(&self) -> Option<&Failure>
        ensures { option_copied result ≡ reported self.now };
}
