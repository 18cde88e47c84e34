//! Whose fault a refusal is.
ghost use Rattle.std.specs.Prelude.{◌≡◌, ◌+◌};
ghost use Rattle.retry_core.specs.Retries.{outcome_view};
ghost use Rattle.relay_exporter.specs.Outages.{asks, capped_64, is_spent, judge_after, judged};
ghost use Rattle.relay_exporter.specs.Outages.{new_judge, verdict};

use crate::kind::{Kind, kind_of, waiting};
use retry_core::Outcome;

/// What is known of a collector: whether it took a request since it last did anything else, and how
/// many requests in a row it refused whatever they had; and after how many of these they are lost.
#[derive(Clone, Copy, Debug, PartialEq, Eq)]
pub(crate) struct Judge {
    pub(crate) has_taken: bool,
    pub(crate) refusals: u64,
    pub(crate) most: Option<u64>,
}

/// What an outcome says, where a doubtful one is of the body if the collector takes other requests.
fn verdict(kind: Kind, takes_others: bool) -> Kind
    ensures { result ≡ verdict kind takes_others }
{
    match kind {
        Kind::Doubtful if takes_others => Kind::OfBody,
        Kind::Doubtful => Kind::Refusing,
        other => other,
    }
}

/// Whether so many refusals in a row are as many as are waited for.
fn is_spent(most: Option<u64>, refusals: u64) -> bool
    ensures { result ≡ is_spent most refusals }
{
    match most {
        None => false,
        Some(most) => most <= refusals,
    }
}

impl Judge {
    /// Of a collector that was sent nothing. After so many refusals in a row what is refused is
    /// lost, if there is such a number.
    pub(crate) fn new(most: Option<u64>) -> Judge
        ensures { result ≡ new_judge most }
    {
        Judge {
            has_taken: false,
            refusals: 0,
            most,
        }
    }

    /// Whether the collector is to be asked if it takes other requests.
    pub(crate) fn asks(&self, met: &Outcome) -> bool
        ensures { result ≡ asks self.now (outcome_view met.now) }
    {
        kind_of(met) == Kind::Doubtful && !self.has_taken
    }

    /// What the outcome of an attempt comes to, where this is known of whether the collector takes
    /// other requests.
    pub(crate) fn judge(&mut self, met: Outcome, takes_others: bool) -> Outcome
        ensures outcome { outcome_view result
            ≡ judged self.old (outcome_view met) takes_others }
        ensures judge { self.new ≡ judge_after self.old (outcome_view met) takes_others }
    {
        let found = verdict(kind_of(&met), takes_others);
        self.has_taken = found == Kind::Taken;
        if found != Kind::Refusing {
            self.refusals = 0;
            return met;
        }
        self.refusals = self.refusals.saturating_add(1);
        if is_spent(self.most, self.refusals) {
            return met;
        }
        waiting(&met)
    }
}
