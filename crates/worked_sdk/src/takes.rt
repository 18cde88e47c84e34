//! When a take gives a batch (OpenTelemetry Trace SDK, "Batching processor", "ForceFlush",
//! "Shutdown"; at most one batch is out: profile).

ghost use Rattle.std.specs.Prelude.{◌≡◌, [], ◌∷◌, ◌++◌};
ghost use Rattle.model_desk.specs.Retries.{Outcome, Next};
ghost use Rattle.model_run.specs.Steps.{Step};
ghost use Rattle.model_run.specs.Runs.{Answer, taken, not_taken};
ghost use Rattle.worked_sdk.specs.Worked.{queue_of, single, first, child, family, ends, sends};
ghost use Rattle.worked_sdk.specs.Worked.{answers_from, queued, full, delivers};

/// A batch is due where there are enough spans for it, where a flush asked for some of those that
/// wait, and after a shutdown.
#[tactic(auto, unfolding(crate::specs::Worked::answers_from))]
pub fn asked()
    ensures enough { answers_from 2 (queue_of 4)
        (family 1 ++ ends 0 ∷ Step.take 0 ∷ ends 1 ∷ Step.take 0 ∷ []) ≡
        queued 0 ∷ not_taken ∷ queued 1 ∷ taken 1 2 ∷ [] }
    ensures flush { answers_from 1 (queue_of 4) (first ∷ ends 0 ∷ Step.flush ∷ Step.take 0 ∷ []) ≡
        queued 0 ∷ Answer.flush ∷ taken 1 1 ∷ [] }
    ensures ended_after_the_flush { answers_from 1 (queue_of 4)
        (first ∷ Step.flush ∷ ends 0 ∷ Step.take 0 ∷ []) ≡
        Answer.flush ∷ queued 0 ∷ not_taken ∷ [] }
    ensures shutdown { answers_from 1 (queue_of 4)
        (first ∷ ends 0 ∷ Step.shutdown ∷ Step.take 0 ∷ []) ≡
        queued 0 ∷ Answer.shutdown ∷ taken 1 1 ∷ [] }
    ensures none_waits { answers_from 0 (queue_of 4)
        (Step.take 5000000000 ∷ Step.flush ∷ Step.take 0 ∷ Step.shutdown ∷ Step.take 0 ∷ []) ≡
        not_taken ∷ Answer.flush ∷ not_taken ∷ Answer.shutdown ∷ not_taken ∷ [] }
{}

/// A batch is due once the delay has passed since the last take that gave one, or since moment 0.
#[tactic(auto, unfolding(crate::specs::Worked::answers_from))]
pub fn delay()
    ensures passed { answers_from 1 (queue_of 4)
        (first ∷ ends 0 ∷ Step.take 4999999999 ∷ Step.take 5000000000 ∷ []) ≡
        queued 0 ∷ not_taken ∷ taken 1 1 ∷ [] }
    ensures passed_again { answers_from 2 (queue_of 4)
        (family 1 ++ ends 0 ∷ Step.take 6000000000 ∷ sends ++ ends 1 ∷ Step.take 10999999999 ∷
        Step.take 11000000000 ∷ []) ≡
        queued 0 ∷ taken 1 1 ∷ delivers 1 70 ++ queued 1 ∷ not_taken ∷ taken 2 1 ∷ [] }
    // The moment of that take may be before others.
    ensures earlier_moment { answers_from 3 (queue_of 4)
        (family 2 ++ ends 0 ∷ Step.take 6000000000 ∷ sends ++ ends 1 ∷ Step.flush ∷ Step.take 1 ∷
        sends ++ ends 2 ∷ Step.take 5000000000 ∷ Step.take 5000000001 ∷ []) ≡
        queued 0 ∷ taken 1 1 ∷ delivers 1 70 ++ queued 1 ∷ Answer.flush ∷ taken 2 1 ∷
        delivers 2 80 ++ queued 2 ∷ not_taken ∷ taken 3 1 ∷ [] }
{}

/// No batch is taken while one is out.
#[tactic(auto, unfolding(crate::specs::Worked::answers_from))]
pub fn one_out()
    ensures four_spans { answers_from 8 (queue_of 4)
        (family 3 ++ ends 0 ∷ ends 1 ∷ ends 2 ∷ ends 3 ∷ Step.take 0 ∷ Step.take 0 ∷ Step.encode ∷
        Step.take 0 ∷ Step.attempt 0 ∷ Step.take 0 ∷ Step.reply 0 0 ∷ Step.take 0 ∷ []) ≡
        taken 1 2 ∷ not_taken ∷ Answer.encoded 1 141 ∷ not_taken ∷
        Answer.sent 1 1 Outcome.delivered ∷ not_taken ∷ Answer.replied 1 Next.done ∷
        taken 2 2 ∷ [] }
{}

/// A queue of one and batches of one: it has room again while the batch is out.
#[tactic(auto, unfolding(crate::specs::Worked::answers_from))]
pub fn queue_of_one()
    ensures full { answers_from 2 single (family 1 ++ ends 0 ∷ ends 1 ∷ []) ≡
        queued 0 ∷ full 1 ∷ [] }
    ensures room_again { answers_from 2 single
        (family 1 ++ ends 0 ∷ Step.take 0 ∷ ends 1 ∷ Step.take 0 ∷ []) ≡
        queued 0 ∷ taken 1 1 ∷ queued 1 ∷ not_taken ∷ [] }
{}

/// A queue of four: the fifth span finds it full, and the others are sent, two by two.
#[tactic(auto, unfolding(crate::specs::Worked::answers_from))]
pub fn queue_of_four()
    ensures five_ends { answers_from 5 (queue_of 4)
        (family 4 ++ ends 0 ∷ ends 1 ∷ ends 2 ∷ ends 3 ∷ ends 4 ∷ Step.take 0 ∷ sends ++
        Step.take 0 ∷ sends ++ Step.take 0 ∷ []) ≡
        queued 0 ∷ queued 1 ∷ queued 2 ∷ queued 3 ∷ full 4 ∷ taken 1 2 ∷ delivers 1 141 ++
        taken 2 2 ∷ delivers 2 151 ++ not_taken ∷ [] }
{}

/// A queue of five: a flush asks for the three that wait, and the last of them alone is a batch.
/// While it is out five more fill the queue. Of these the last waits in the end.
#[tactic(auto, unfolding(crate::specs::Worked::answers_from))]
pub fn queue_of_five()
    ensures nine_ends { answers_from 9 (queue_of 5)
        (family 8 ++ ends 0 ∷ ends 1 ∷ ends 2 ∷ Step.flush ∷ Step.take 0 ∷ sends ++ Step.take 0 ∷
        ends 3 ∷ ends 4 ∷ ends 5 ∷ ends 6 ∷ ends 7 ∷ ends 8 ∷ sends ++
        Step.take 0 ∷ sends ++ Step.take 0 ∷ sends ++ Step.take 0 ∷ []) ≡
        queued 0 ∷ queued 1 ∷ queued 2 ∷ Answer.flush ∷ taken 1 2 ∷ delivers 1 141 ++ taken 2 1 ∷
        queued 3 ∷ queued 4 ∷ queued 5 ∷ queued 6 ∷ queued 7 ∷ full 8 ∷ delivers 2 80 ++
        taken 3 2 ∷ delivers 3 151 ++ taken 4 2 ∷ delivers 4 151 ++ not_taken ∷ [] }
{}
