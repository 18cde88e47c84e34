//! The outcomes of later attempts.
ghost use Rattle.std.specs.Prelude.{◌≡◌, drop, map};
ghost use Rattle.retry_core.specs.Retries.{outcome_view};
ghost use Rattle.span_exporter.specs.Memory.{next_outcome};

use retry_core::Outcome;
use std::alloc::Allocator;
use std::marker::Model;

/// Outcomes of attempts, one after the other, and after the last one that all was taken. In
/// contracts it is the list of those that are left.
#[derive(Drop)]
#[derive_where(Debug)]
pub(crate) struct ListedOutcomes<A: Allocator> {
    outcomes: Vec<Outcome, A>,
    given: usize,
}

impl<A: Allocator> Model for ListedOutcomes<A> {
    ghost use Rattle.std.specs.Prelude.{◌≤◌, List, drop, length, map};
    ghost use Rattle.model_desk.specs.Retries as model;
    ghost use Rattle.retry_core.specs.Retries.{outcome_view};

    ghost Value = { List model.Outcome };

    ghost view = { λ a. drop a.given (map outcome_view a.outcomes.items) };

    ghost invariant = { λ a. a.given ≤ length a.outcomes.items };
}

impl<A: Allocator> ListedOutcomes<A> {
    pub(crate) fn new(outcomes: Vec<Outcome, A>) -> ListedOutcomes<A>
        ensures { result ≡ map outcome_view outcomes.items }
    {
        ListedOutcomes { outcomes, given: 0 }
    }

    /// The next outcome.
    pub(crate) fn next(&mut self) -> Outcome
        ensures outcome { outcome_view result ≡ next_outcome self.old }
        ensures rest { self.new ≡ drop 1 self.old }
    {
        match self.outcomes.get(self.given) {
            Some(outcome) => {
                self.given += 1;
                *outcome
            }
            None => Outcome::Delivered,
        }
    }
}
