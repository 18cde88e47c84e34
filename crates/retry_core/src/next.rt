//! What follows from an outcome.

ghost use Rattle.std.specs.Prelude.{◌≡◌, ◌≤◌, option_map};
ghost use Rattle.model_desk.specs.Retries.{fate_of, next_of};
ghost use Rattle.model_desk.specs.Waits.{next_after, retried};
ghost use Rattle.retry_core.specs.Retries.{fate_view, next_view, outcome_view, retry_after_view};

use crate::config::RetryConfig;
use crate::fate::Fate;
use crate::outcome::{Outcome, RetryAfter};
use crate::wait::wait_ns;

/// Why a batch is given up. (profile)
#[derive(Clone, Copy, Debug, PartialEq, Eq)]
pub enum Cause {
    /// The collector refused it with this HTTP status.
    Refused(u16),
    /// What came was no reply of HTTP.
    BadReply,
    /// It was sent as often as is allowed.
    Attempts,
}

/// What follows from an attempt. (profile)
#[derive(Clone, Copy, Debug, PartialEq, Eq)]
pub enum Next {
    /// Nothing: the batch was taken.
    Done,
    /// Nothing: the batch was taken, but this number of its spans were rejected.
    Partial(i64),
    /// Another attempt, not before this moment, in nanoseconds since 1970.
    Again(u64),
    /// The batch is not sent again.
    GiveUp(Cause),
}

impl Next {
    /// How the batch ends by this, if it does: where another attempt follows, it doesn't.
    /// (profile)
    pub fn fate(self) -> Option<Fate>
        ensures { option_map fate_view result ≡ fate_of (next_view self) }
    {
        match self {
            Next::Done => Some(Fate::Delivered),
            Next::Partial(rejected) => Some(Fate::Partial(rejected)),
            Next::Again(_) => None,
            Next::GiveUp(Cause::Refused(status)) => Some(Fate::Refused(status)),
            Next::GiveUp(Cause::BadReply) => Some(Fate::BadReply),
            Next::GiveUp(Cause::Attempts) => Some(Fate::GivenUp),
        }
    }
}

/// Whether an outcome is to be tried again, and what its reply asks for.
fn retried(outcome: &Outcome) -> Option<Option<RetryAfter>>
    ensures { option_map (option_map retry_after_view) result ≡ retried (outcome_view outcome.now) }
{
    match *outcome {
        Outcome::Later { after, .. } => Some(after),
        Outcome::NoReply => Some(None),
        _ => None,
    }
}

/// What follows from the last attempt that a batch has.
fn last_next(outcome: &Outcome) -> Next
    ensures { next_view result ≡ next_of (outcome_view outcome.now) }
{
    match *outcome {
        Outcome::Delivered => Next::Done,
        Outcome::Partial(rejected) => Next::Partial(rejected),
        Outcome::Later { .. } | Outcome::NoReply => Next::GiveUp(Cause::Attempts),
        Outcome::Refused(status) => Next::GiveUp(Cause::Refused(status)),
        Outcome::Bad => Next::GiveUp(Cause::BadReply),
    }
}

/// What follows from the outcome of an attempt, which are numbered from 1 on, at the moment `now`,
/// in nanoseconds since 1970. `word` is a random word, by which a wait is shortened that the
/// collector didn't ask for. It takes no memory. (OTLP Specification, "OTLP/HTTP Response",
/// "OTLP/HTTP Throttling")
///
/// `Later` and `NoReply` are followed by another attempt, unless this one was the last. The wait
/// before it is `initial_ms` after the first attempt, and twice as long after each later one, up
/// to `max_ms`; the word, modulo half of that and one more, is the number of milliseconds that are
/// taken off, which are half of the wait at most. What a reply asks for is in place of it, up to
/// 300 seconds: a number of seconds, or until a date, so at once where that has passed. No wait is
/// shorter than `least_ms`. The moment is 2^64 - 1 where it would be later. The last attempt is
/// followed by `GiveUp(Attempts)`. At every attempt `Delivered` gives `Done`, `Partial` itself, and
/// `Refused` and `Bad` give up. (profile)
///
/// The attempt is one of 1 to `config.attempts()`.
pub fn decide(config: &RetryConfig, attempt: u32, outcome: &Outcome, now: u64, word: u64) -> Next
    requires first { 1 ≤ attempt }
    requires last { attempt ≤ config.now.attempts }
    ensures next { next_view result ≡
        next_after config.now attempt (outcome_view outcome.now) now word }
{
    if attempt >= config.attempts() {
        return last_next(outcome);
    }
    match retried(outcome) {
        None => last_next(outcome),
        Some(after) => Next::Again(now.saturating_add(wait_ns(config, attempt, after, now, word))),
    }
}
