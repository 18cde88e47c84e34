//! What an outcome says of a body and of a collector.
ghost use Rattle.std.specs.Prelude.{◌≡◌};
ghost use Rattle.retry_core.specs.Retries.{outcome_view};
ghost use Rattle.relay_exporter.specs.Outages.{in_seconds, is_of_collector, is_taken, kind_of};
ghost use Rattle.relay_exporter.specs.Outages.{kind_of_status, waiting};

use retry_core::{Outcome, RetryAfter};

/// What an outcome says of a body and of the collector that it was sent to.
#[derive(Clone, Copy, Debug, PartialEq, Eq)]
pub(crate) enum Kind {
    /// The collector took it.
    Taken,
    /// Nothing is known of the body: the collector can't be reached, or it is to be asked later.
    Outage,
    /// The collector refuses whatever it is sent.
    Refusing,
    /// The body is refused, or whatever is sent: the outcome doesn't say which.
    Doubtful,
    /// The body is refused.
    OfBody,
}

/// Whether a collector that answers this refuses whatever it is sent: it wants other credentials,
/// another path, another method or another address (RFC 9110, sections 15.4, 15.5.2 and 15.5.4 to
/// 15.5.6; profile).
fn is_of_collector(status: u16) -> bool
    ensures { result ≡ is_of_collector status }
{
    (300..=399).contains(&status)
        || status == 401
        || status == 403
        || status == 404
        || status == 405
}

/// What a status says that isn't to be tried again.
fn kind_of_status(status: u16) -> Kind
    ensures { result ≡ kind_of_status status }
{
    if is_of_collector(status) {
        return Kind::Refusing;
    }
    if status == 413 {
        return Kind::OfBody;
    }
    Kind::Doubtful
}

/// What an outcome says.
pub(crate) fn kind_of(outcome: &Outcome) -> Kind
    ensures { result ≡ kind_of (outcome_view outcome.now) }
{
    match *outcome {
        Outcome::Delivered | Outcome::Partial(_) => Kind::Taken,
        Outcome::Later { .. } | Outcome::NoReply => Kind::Outage,
        Outcome::Refused(status) => kind_of_status(status),
        Outcome::Bad => Kind::Doubtful,
    }
}

/// Whether the collector took what it was sent.
pub(crate) fn is_taken(outcome: &Outcome) -> bool
    ensures { result ≡ is_taken (outcome_view outcome.now) }
{
    matches!(*outcome, Outcome::Delivered | Outcome::Partial(_))
}

/// The outcome in place of a refusal that isn't of the body: it is to be sent again.
pub(crate) fn waiting(outcome: &Outcome) -> Outcome
    ensures { outcome_view result ≡ waiting (outcome_view outcome.now) }
{
    match *outcome {
        Outcome::Refused(status) => Outcome::Later {
            status,
            after: None,
        },
        _ => Outcome::NoReply,
    }
}

/// The same outcome, in which a moment to be tried again, in seconds since 1970, is a number of
/// seconds from `now` on. So no later change of the clock changes a wait.
pub(crate) fn in_seconds(outcome: Outcome, now: u64) -> Outcome
    ensures { outcome_view result ≡ in_seconds now (outcome_view outcome) }
{
    match outcome {
        Outcome::Later {
            status,
            after: Some(RetryAfter::Date(date)),
        } => Outcome::Later {
            status,
            after: Some(RetryAfter::Seconds(date.saturating_sub(now))),
        },
        other => other,
    }
}
