//! A batch that is sent again (OTLP Specification, "Retryable Response Codes", "OTLP/HTTP
//! Throttling"), at most five times.

ghost use Rattle.std.specs.Prelude.{◌≡◌, [], ◌∷◌, ◌++◌, pos, Some};
ghost use Rattle.model_desk.specs.Retries.{Outcome, later, no_reply, seconds, Next, again};
ghost use Rattle.model_desk.specs.Retries.{give_up, Cause, attempts};
ghost use Rattle.model_run.specs.Steps.{Step};
ghost use Rattle.model_run.specs.Runs.{Answer, taken, not_taken, encoded, sent, early, replied};
ghost use Rattle.model_run.specs.Runs.{nothing};
ghost use Rattle.worked_sdk.specs.Worked.{queue_of, first, child, family, ends, sends, answers_by};
ghost use Rattle.worked_sdk.specs.Worked.{queued, delivers};

/// The collector asks for two seconds: an attempt before that moment is early and takes no outcome
/// from the exporter, one at it is the second.
#[tactic(auto, unfolding(crate::specs::Worked::answers_by))]
pub fn asked_to_wait()
    ensures waits { answers_by (later 503 (Some (seconds 2)) ∷ Outcome.partial (pos 1) ∷ []) 3
        (queue_of 4)
        (first ∷ ends 0 ∷ Step.shutdown ∷ Step.take 10 ∷ Step.encode ∷ Step.attempt 10 ∷
        Step.reply 1000000000 0 ∷ Step.attempt 2999999999 ∷ Step.attempt 3000000000 ∷
        Step.reply 3000000000 0 ∷ []) ≡
        taken 1 1 ∷ encoded 1 70 ∷ sent 1 1 (later 503 (Some (seconds 2))) ∷
        replied 1 (again 3000000000) ∷ early ∷ sent 1 2 (Outcome.partial (pos 1)) ∷
        replied 1 (Next.partial (pos 1)) ∷ [] }
{}

/// Without a reply each wait is twice as long as the one before it, and the fifth attempt is the
/// last.
#[tactic(auto, unfolding(crate::specs::Worked::answers_by))]
pub fn never_answered()
    ensures five { answers_by (no_reply ∷ no_reply ∷ no_reply ∷ no_reply ∷ no_reply ∷ []) 5
        (queue_of 4)
        (first ∷ ends 0 ∷ Step.shutdown ∷ Step.take 10 ∷ Step.encode ∷
        Step.attempt 0 ∷ Step.reply 0 0 ∷ Step.attempt 1000000000 ∷ Step.reply 1000000000 500 ∷
        Step.attempt 2500000000 ∷ Step.reply 3000000000 0 ∷
        Step.attempt 7000000000 ∷ Step.reply 7000000000 0 ∷
        Step.attempt 15000000000 ∷ Step.reply 15000000000 0 ∷ []) ≡
        sent 1 1 no_reply ∷ replied 1 (again 1000000000) ∷
        sent 1 2 no_reply ∷ replied 1 (again 2500000000) ∷
        sent 1 3 no_reply ∷ replied 1 (again 7000000000) ∷
        sent 1 4 no_reply ∷ replied 1 (again 15000000000) ∷
        sent 1 5 no_reply ∷ replied 1 (give_up attempts) ∷ [] }
{}

/// While it waits it is out: no other batch is taken, and there is nothing to encode or to judge.
/// The next batch has attempts of its own.
#[tactic(auto, unfolding(crate::specs::Worked::answers_by))]
pub fn stays_out()
    ensures nothing_else { answers_by (no_reply ∷ []) 6 (queue_of 4)
        (family 1 ++ ends 0 ∷ Step.flush ∷ Step.take 0 ∷ Step.encode ∷ Step.attempt 0 ∷
        Step.attempt 0 ∷ Step.reply 0 0 ∷ ends 1 ∷ Step.flush ∷ Step.take 0 ∷ Step.encode ∷
        Step.reply 0 0 ∷ Step.attempt 1000000000 ∷ Step.reply 0 0 ∷ Step.take 0 ∷ sends) ≡
        sent 1 1 no_reply ∷ nothing ∷ replied 1 (again 1000000000) ∷ queued 1 ∷ Answer.flush ∷
        not_taken ∷ nothing ∷ nothing ∷ sent 1 2 Outcome.delivered ∷ replied 1 Next.done ∷
        taken 2 1 ∷ delivers 2 80 }
{}
