//! What starts answer (OpenTelemetry Trace API, "Span Creation"; Trace SDK, "Id Generators").

ghost use Rattle.std.specs.Prelude.{◌≡◌, [], ◌∷◌, ◌++◌, replicate, true, false};
ghost use Rattle.model_span.specs.Sampling.{always_on, always_off, as_parent};
ghost use Rattle.model_run.specs.Steps.{root, numbered, given, Step};
ghost use Rattle.model_run.specs.Runs.{Answer, no_randomness, no_span, out_of_memory};
ghost use Rattle.worked_sdk.specs.Worked.{id, queue_of, run_with, starts, first, child, family};
ghost use Rattle.worked_sdk.specs.Worked.{ends, context, answers_from, answers_without, started};
ghost use Rattle.worked_sdk.specs.Worked.{queued, not_sampled};

/// A start answers with the identifiers of its span: a child has the trace of its parent.
#[tactic(auto, unfolding(crate::specs::Worked::answers_from))]
pub fn identifiers()
    ensures family { answers_from 0 (queue_of 4) (family 2) ≡
        started 3 ∷ started 4 ∷ started 5 ∷ [] }
    // Zeros are passed over.
    ensures zeros_first { answers_from 0 (run_with always_on (0 ∷ 0 ∷ 1 ∷ 2 ∷ 0 ∷ 3 ∷ []))
        (first ∷ []) ≡ started 3 ∷ [] }
    // A parent that has ended, and one that was dropped.
    ensures ended_parent { answers_from 0 (queue_of 4) (first ∷ ends 0 ∷ child ∷ []) ≡
        started 3 ∷ queued 0 ∷ started 4 ∷ [] }
    ensures dropped_parent { answers_from 0 (run_with (as_parent always_off) (1 ∷ 2 ∷ 3 ∷ 4 ∷ []))
        (first ∷ child ∷ ends 1 ∷ []) ≡ started 3 ∷ started 4 ∷ not_sampled ∷ [] }
    // A parent of elsewhere: no trace is drawn.
    ensures given_parent { answers_from 0 (run_with always_on (7 ∷ []))
        (starts 0 (given (context true 1 "k=v")) ∷ []) ≡ started 7 ∷ [] }
    // One that is invalid is none.
    ensures invalid_parent { answers_from 0 (queue_of 4)
        (starts 0 (given (record (context true 1 "k=v") { span = replicate 8 0 })) ∷ []) ≡
        started 3 ∷ [] }
    // After a shutdown spans start as before.
    ensures after_the_shutdown { answers_from 0 (queue_of 4)
        (Step.shutdown ∷ first ∷ []) ≡ Answer.shutdown ∷ started 3 ∷ [] }
{}

/// A start without a scope or a parent gives no span, and takes no words.
#[tactic(auto, unfolding(crate::specs::Worked::answers_from, crate::specs::Worked::answers_without))]
pub fn no_scope_or_parent()
    ensures scope { answers_from 0 (queue_of 4) (starts 1 root ∷ first ∷ []) ≡
        no_span ∷ started 3 ∷ [] }
    // Neither a span that starts later, nor the span itself.
    ensures parent { answers_from 0 (queue_of 4)
        (starts 0 (numbered 2) ∷ starts 0 (numbered 1) ∷ first ∷ []) ≡
        no_span ∷ no_span ∷ started 3 ∷ [] }
    // A parent whose start failed.
    ensures failed_parent { answers_from 0 (queue_of 4) (starts 1 root ∷ child ∷ first ∷ []) ≡
        no_span ∷ no_span ∷ started 3 ∷ [] }
    // It is so where memory is refused, too.
    ensures scarce { answers_without (0 ∷ []) 0 (queue_of 4) (starts 1 root ∷ first ∷ []) ≡
        no_span ∷ started 3 ∷ [] }
{}

/// Eight draws of zeros, and there is no identifier. The words are spent.
#[tactic(auto, unfolding(crate::specs::Worked::answers_from, crate::specs::Worked::answers_without))]
pub fn no_words()
    ensures no_trace { answers_from 0
        (run_with always_on (replicate 16 0 ++ 1 ∷ 2 ∷ 3 ∷ [])) (first ∷ child ∷ first ∷ []) ≡
        no_randomness ∷ no_span ∷ started 3 ∷ [] }
    ensures no_id { answers_from 0
        (run_with always_on (7 ∷ 7 ∷ replicate 8 0 ++ 1 ∷ 2 ∷ 3 ∷ [])) (first ∷ first ∷ []) ≡
        no_randomness ∷ started 3 ∷ [] }
    ensures no_id_of_a_child { answers_from 0 (run_with always_on (replicate 8 0 ++ 1 ∷ 2 ∷ 3 ∷ []))
        (starts 0 (given (context true 1 "")) ∷ first ∷ []) ≡ no_randomness ∷ started 3 ∷ [] }
    // Identifiers are drawn before anything takes memory.
    ensures scarce { answers_without (0 ∷ []) 0 (run_with always_on []) (first ∷ []) ≡
        no_randomness ∷ [] }
{}

/// A start to which memory is refused gives no span, but has its number, and its words are spent.
#[tactic(auto, unfolding(crate::specs::Worked::answers_without))]
pub fn refused()
    ensures words { answers_without (0 ∷ []) 0 (queue_of 4)
        (first ∷ first ∷ child ∷ ends 0 ∷ ends 1 ∷ []) ≡
        out_of_memory ∷ Answer.started (record { trace = id 4 ++ id 5; span = id 6 }) ∷
        no_span ∷ no_span ∷ queued 0 ∷ [] }
    // What isn't recorded takes memory for a trace state alone.
    ensures dropped { answers_without (0 ∷ []) 0 (run_with always_off (1 ∷ 2 ∷ 3 ∷ []))
        (first ∷ []) ≡ started 3 ∷ [] }
    ensures dropped_child { answers_without (0 ∷ []) 0 (run_with always_off (7 ∷ []))
        (starts 0 (given (context true 1 "")) ∷ []) ≡ started 7 ∷ [] }
    ensures dropped_with_state { answers_without (0 ∷ []) 0 (run_with always_off (7 ∷ []))
        (starts 0 (given (context true 1 "k=v")) ∷ []) ≡ out_of_memory ∷ [] }
{}
