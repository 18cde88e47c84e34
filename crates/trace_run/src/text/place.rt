//! Where a step is among those of a run.
ghost use Rattle.std.specs.Prelude.{◌≡◌, ◌-◌, ◌^◌, ◌<◌, List, ◌∷◌, ◌++◌, [], is_some};
ghost use Rattle.model_run.specs.Headline.{attempt_by};
ghost use Rattle.model_run.specs.Runs.{Answered};
ghost use Rattle.trace_run.specs.Answers.{answer_view};
ghost use Rattle.trace_run.specs.Steps.{step_view};
ghost use Rattle.trace_run.specs.Lines.{is_start as begins};
ghost use Rattle.trace_run.specs.Places.{IsAfter};

use crate::{Answer, Step};
use std::alloc::Allocator;

/// What the steps before the next one are for its line.
#[derive(Clone, Copy)]
pub(crate) struct Place {
    /// How many of them are starts, which is the number of the next one.
    pub(crate) starts: usize,
    /// How many attempts were made.
    pub(crate) sent: usize,
}

impl Place {
    /// The place of the first step.
    pub(crate) fn first() -> Place
        ensures { IsAfter [] result }
    {
        Place { starts: 0, sent: 0 }
    }

    /// The place after a step in this one.
    pub(crate) fn after<A: Allocator>(self, step: &Step<A>, answer: &Answer) -> Place
        requires starts { self.starts < 2 ^ 64 - 1 }
        requires sent { self.sent < 2 ^ 64 - 1 }
        ensures { (before : List Answered) → IsAfter before self → IsAfter
            (before ++ record { step = step_view step.now; answer = answer_view answer.now } ∷ [])
            result }
    {
        Place {
            starts: self.starts + usize::from(is_start(step)),
            sent: self.sent + usize::from(is_sent(answer)),
        }
    }
}

/// Whether the step starts a span.
fn is_start<A: Allocator>(step: &Step<A>) -> bool
    ensures { result ≡ begins (step_view step.now) }
{
    matches!(step, Step::Start { .. })
}

/// Whether an attempt was made.
fn is_sent(answer: &Answer) -> bool
    ensures { result ≡ is_some (attempt_by (answer_view answer.now)) }
{
    matches!(answer, Answer::Sent { .. })
}
