//! How far a sender is.
ghost use Rattle.std.specs.Prelude.{◌≡◌};
ghost use Rattle.retry_core.specs.Retries.{next_view};
ghost use Rattle.relay_queue.specs.Senders.{stage_by};
ghost use Rattle.relay_queue.specs.Views.{stage_view};

use retry_core::{Next, Outcome};

/// How far a sender is.
#[derive(Clone, Copy, Debug, PartialEq, Eq)]
pub(crate) enum Stage {
    /// It has no batch.
    NoBatch,
    /// Its batch is to be sent.
    ToSend,
    /// Its batch was sent, with this outcome, which is to be judged.
    ToJudge(Outcome),
    /// Its last batch is to be sent again from this moment on.
    ToRetry(u64),
}

/// How far it is once this follows.
pub(crate) fn stage_after(next: Next) -> Stage
    ensures { stage_view result ≡ stage_by (next_view next) }
{
    match next {
        Next::Again(from) => Stage::ToRetry(from),
        _ => Stage::NoBatch,
    }
}
