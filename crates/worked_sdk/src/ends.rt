//! What ends and other calls answer, and the spans that end (OpenTelemetry Trace API, "End"; Trace
//! SDK, "OnEnd", "Shutdown").

ghost use Rattle.std.specs.Prelude.{◌≡◌, [], ◌∷◌, ◌++◌, codes, pos, true, Some, None};
ghost use Rattle.model_span.specs.Sampling.{always_on, always_off, as_parent, record_only};
ghost use Rattle.model_span.specs.Spans.{Call, error, ok, set_status, unset};
ghost use Rattle.model_run.specs.Steps.{given, Step};
ghost use Rattle.model_run.specs.Runs.{Answer, done, no_span, out_of_memory};
ghost use Rattle.worked_sdk.specs.Worked.{id, queue_of, run_with, starts, first, child, family};
ghost use Rattle.worked_sdk.specs.Worked.{calls, ends, context, set, pair, answers_from};
ghost use Rattle.worked_sdk.specs.Worked.{answers_without, ended_without, started, queued, full};
ghost use Rattle.worked_sdk.specs.Worked.{late, not_sampled, already_ended, ended_span, first_span};
ghost use Rattle.worked_sdk.specs.Worked.{child_span};

/// Tickets are given in the order of the ends, from 0 on. The queue has room for four spans.
#[tactic(auto, unfolding(crate::specs::Worked::answers_from))]
pub fn tickets()
    ensures five { answers_from 5 (queue_of 4)
        (family 4 ++ ends 0 ∷ ends 1 ∷ ends 2 ∷ ends 3 ∷ ends 4 ∷ []) ≡
        queued 0 ∷ queued 1 ∷ queued 2 ∷ queued 3 ∷ full 4 ∷ [] }
    ensures other_order { answers_from 2 (queue_of 4) (family 1 ++ ends 1 ∷ ends 0 ∷ []) ≡
        queued 0 ∷ queued 1 ∷ [] }
    // A ticket that found the queue full is spent.
    ensures after_a_full_one { answers_from 4 (queue_of 2)
        (family 3 ++ ends 0 ∷ ends 1 ∷ ends 2 ∷ Step.take 0 ∷ ends 3 ∷ []) ≡
        queued 0 ∷ queued 1 ∷ full 2 ∷ Answer.taken 1 2 ∷ queued 3 ∷ [] }
    ensures second_end { answers_from 1 (queue_of 4) (first ∷ ends 0 ∷ ends 0 ∷ []) ≡
        queued 0 ∷ already_ended ∷ [] }
    // The end of a span that starts later, and of one that never does.
    ensures before_its_start { answers_from 0 (queue_of 4) (ends 0 ∷ first ∷ ends 0 ∷ ends 7 ∷ []) ≡
        no_span ∷ started 3 ∷ queued 0 ∷ no_span ∷ [] }
{}

/// Spans that aren't sampled have no ticket, and are never late.
#[tactic(auto, unfolding(crate::specs::Worked::answers_from))]
pub fn unsampled()
    ensures dropped { answers_from 1 (run_with always_off (1 ∷ 2 ∷ 3 ∷ []))
        (first ∷ ends 0 ∷ ends 0 ∷ []) ≡ not_sampled ∷ already_ended ∷ [] }
    ensures only_recorded { answers_from 1 (run_with (λ _. record_only) (1 ∷ 2 ∷ 3 ∷ []))
        (first ∷ ends 0 ∷ ends 0 ∷ []) ≡ not_sampled ∷ already_ended ∷ [] }
    ensures after_the_shutdown { answers_from 2 (run_with always_off (1 ∷ 2 ∷ 3 ∷ []))
        (first ∷ Step.shutdown ∷ ends 0 ∷ ends 0 ∷ []) ≡ not_sampled ∷ already_ended ∷ [] }
    // A root that is dropped, and the child of a sampled parent of elsewhere.
    ensures one_of_two { answers_from 2 (run_with (as_parent always_off) (1 ∷ 2 ∷ 3 ∷ 4 ∷ []))
        (first ∷ starts 0 (given (context true 1 "")) ∷ ends 0 ∷ ends 1 ∷ []) ≡
        not_sampled ∷ queued 0 ∷ [] }
{}

/// A sampled span whose first end comes after a shutdown is late, also where the queue is full.
#[tactic(auto, unfolding(crate::specs::Worked::answers_from))]
pub fn shutdown()
    ensures late { answers_from 2 (queue_of 4)
        (family 1 ++ ends 0 ∷ Step.shutdown ∷ ends 1 ∷ ends 1 ∷ ends 0 ∷ []) ≡
        queued 0 ∷ Answer.shutdown ∷ late ∷ already_ended ∷ already_ended ∷ [] }
    ensures late_and_full { answers_from 3 (queue_of 2)
        (family 2 ++ ends 0 ∷ ends 1 ∷ Step.shutdown ∷ ends 2 ∷ []) ≡
        queued 0 ∷ queued 1 ∷ Answer.shutdown ∷ late ∷ [] }
    ensures started_later { answers_from 0 (queue_of 4) (Step.shutdown ∷ first ∷ ends 0 ∷ []) ≡
        Answer.shutdown ∷ started 3 ∷ late ∷ [] }
    // A flush closes nothing.
    ensures flush { answers_from 1 (queue_of 4) (first ∷ Step.flush ∷ ends 0 ∷ []) ≡
        Answer.flush ∷ queued 0 ∷ [] }
{}

/// What calls answer. A call that is ignored takes no memory; nor does an end, or a status without
/// a description.
#[tactic(auto, unfolding(crate::specs::Worked::answers_from, crate::specs::Worked::answers_without))]
pub fn calls()
    ensures done { answers_from 1 (queue_of 4) (first ∷ calls 0 (set "k" (pos 1)) ∷ []) ≡
        done ∷ [] }
    ensures refused { answers_without (1 ∷ []) 1 (queue_of 4)
        (first ∷ calls 0 (set "k" (pos 1)) ∷ []) ≡ out_of_memory ∷ [] }
    // A status without a description has no text to copy.
    ensures status { answers_without (1 ∷ 2 ∷ 3 ∷ []) 1 (queue_of 4)
        (first ∷ calls 0 (set_status ok) ∷ calls 0 (set_status unset) ∷
        calls 0 (set_status (error (codes "e"))) ∷ []) ≡
        done ∷ done ∷ out_of_memory ∷ [] }
    ensures no_span { answers_without (0 ∷ []) 0 (queue_of 4) (calls 0 (set "k" (pos 1)) ∷ []) ≡
        no_span ∷ [] }
    ensures end { answers_without (1 ∷ []) 1 (queue_of 4) (first ∷ ends 0 ∷ []) ≡ queued 0 ∷ [] }
    ensures after_the_end { answers_without (2 ∷ 3 ∷ []) 1 (queue_of 4)
        (first ∷ ends 0 ∷ calls 0 (set "k" (pos 1)) ∷ ends 0 ∷ []) ≡
        queued 0 ∷ done ∷ already_ended ∷ [] }
    ensures after_a_late_end { answers_without (3 ∷ []) 2 (queue_of 4)
        (first ∷ Step.shutdown ∷ ends 0 ∷ calls 0 (set "k" (pos 1)) ∷ []) ≡ late ∷ done ∷ [] }
    ensures dropped { answers_without (1 ∷ []) 1 (run_with always_off (1 ∷ 2 ∷ 3 ∷ []))
        (first ∷ calls 0 (set "k" (pos 1)) ∷ []) ≡ done ∷ [] }
{}

/// The sampled spans that end before the shutdown, with their values.
#[tactic(auto, unfolding(crate::specs::Worked::ended_without))]
pub fn values()
    ensures call { ended_without [] (queue_of 4) (first ∷ calls 0 (set "k" (pos 1)) ∷ ends 0 ∷ []) ≡
        ended_span 0 3 None "a" (pair "k" (pos 1) ∷ []) ∷ [] }
    // A refused call counts for nothing.
    ensures refused_call { ended_without (1 ∷ []) (queue_of 4)
        (first ∷ calls 0 (set "k" (pos 1)) ∷ calls 0 (set "l" (pos 2)) ∷ ends 0 ∷ []) ≡
        ended_span 0 3 None "a" (pair "l" (pos 2) ∷ []) ∷ [] }
    // Nor does a call after the end.
    ensures after_the_end { ended_without [] (queue_of 4)
        (first ∷ ends 0 ∷ calls 0 (set "k" (pos 1)) ∷ calls 0 (Call.end 9) ∷ []) ≡
        first_span 0 ∷ [] }
    ensures other_order { ended_without [] (queue_of 4) (family 2 ++ ends 2 ∷ ends 0 ∷ []) ≡
        child_span 0 5 ∷ first_span 1 ∷ [] }
    // One that ended where the queue was full is one of them, and a late one isn't.
    ensures full { ended_without [] (queue_of 2)
        (family 2 ++ ends 0 ∷ ends 1 ∷ ends 2 ∷ []) ≡
        first_span 0 ∷ child_span 1 4 ∷ child_span 2 5 ∷ [] }
    ensures late { ended_without [] (queue_of 4)
        (family 1 ++ ends 0 ∷ Step.shutdown ∷ ends 1 ∷ []) ≡ first_span 0 ∷ [] }
    ensures dropped { ended_without [] (run_with always_off (1 ∷ 2 ∷ 3 ∷ []))
        (first ∷ ends 0 ∷ []) ≡ [] }
    // The span of a refused start can't end.
    ensures refused_start { ended_without (0 ∷ []) (queue_of 4)
        (first ∷ ends 0 ∷ starts 0 (given (context true 1 "")) ∷ ends 1 ∷ []) ≡
        ended_span 0 4 (Some (record { id = id 9; remote = true })) "a" [] ∷ [] }
{}
