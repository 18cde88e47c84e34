//! What becomes of a batch that was taken (OTLP Specification, "OTLP/HTTP Response"). Of bodies the
//! lengths are here.

ghost use Rattle.std.specs.Prelude.{◌≡◌, [], ◌∷◌, ◌++◌, pos, Some, None};
ghost use Rattle.model_span.specs.Dropped.{encode_memory, too_large, refused, bad_reply, given_up};
ghost use Rattle.model_span.specs.Sampling.{always_on};
ghost use Rattle.model_desk.specs.Retries.{Outcome, later, no_reply, bad, seconds, Next, give_up};
ghost use Rattle.model_desk.specs.Retries.{Cause, attempts};
ghost use Rattle.model_run.specs.Steps.{Step};
ghost use Rattle.model_run.specs.Runs.{Answer, taken, encoded, sent, replied, nothing};
ghost use Rattle.worked_sdk.specs.Worked.{queue_of, once_of, bodies_of, run_with, first, child};
ghost use Rattle.worked_sdk.specs.Worked.{family, ends, sends, answers_from, answers_without};
ghost use Rattle.worked_sdk.specs.Worked.{answers_by, named_by, dropped_entry, queued, delivers};
ghost use Rattle.worked_sdk.specs.Worked.{lost_by};

/// A batch is encoded once, then sent once, and then that is judged once.
#[tactic(auto, unfolding(crate::specs::Worked::answers_from))]
pub fn in_order()
    ensures once { answers_from 1 (queue_of 4)
        (first ∷ ends 0 ∷ Step.shutdown ∷ Step.take 10 ∷ sends) ≡
        queued 0 ∷ Answer.shutdown ∷ taken 1 1 ∷ delivers 1 70 }
    ensures each_twice { answers_from 4 (queue_of 4)
        (first ∷ ends 0 ∷ Step.shutdown ∷ Step.take 10 ∷ Step.encode ∷ Step.encode ∷
        Step.attempt 0 ∷ Step.attempt 0 ∷ Step.reply 0 0 ∷ Step.reply 0 0 ∷ []) ≡
        encoded 1 70 ∷ nothing ∷ sent 1 1 Outcome.delivered ∷ nothing ∷
        replied 1 Next.done ∷ nothing ∷ [] }
    // Steps that come too early or too late.
    ensures no_batch { answers_from 2 (queue_of 4) (first ∷ ends 0 ∷ sends) ≡
        nothing ∷ nothing ∷ nothing ∷ [] }
    ensures not_encoded { answers_from 4 (queue_of 4)
        (first ∷ ends 0 ∷ Step.shutdown ∷ Step.take 10 ∷ Step.reply 0 0 ∷ Step.attempt 0 ∷
        Step.reply 0 0 ∷ sends) ≡ nothing ∷ nothing ∷ nothing ∷ delivers 1 70 }
    ensures not_sent { answers_from 4 (queue_of 4)
        (first ∷ ends 0 ∷ Step.shutdown ∷ Step.take 10 ∷ Step.encode ∷ Step.reply 0 0 ∷ []) ≡
        encoded 1 70 ∷ nothing ∷ [] }
    ensures judged { answers_from 7 (queue_of 4)
        (first ∷ ends 0 ∷ Step.shutdown ∷ Step.take 10 ∷ sends ++ sends) ≡
        nothing ∷ nothing ∷ nothing ∷ [] }
    // Two spans with the same identifiers are two spans, in one body.
    ensures equal_spans { answers_from 2 (run_with always_on (1 ∷ 2 ∷ 3 ∷ 1 ∷ 2 ∷ 3 ∷ []))
        (first ∷ first ∷ ends 0 ∷ ends 1 ∷ Step.take 0 ∷ sends) ≡
        queued 0 ∷ queued 1 ∷ taken 1 2 ∷ delivers 1 129 }
{}

/// Where memory is refused to an encoding, the batch is dropped, and its spans are named.
#[tactic(auto, unfolding(crate::specs::Worked::answers_without, crate::specs::Worked::named_by))]
pub fn refused()
    ensures dropped { answers_without (4 ∷ []) 3 (queue_of 4)
        (first ∷ ends 0 ∷ Step.shutdown ∷ Step.take 10 ∷ Step.encode ∷ Step.attempt 0 ∷
        Step.reply 0 0 ∷ Step.encode ∷ []) ≡
        taken 1 1 ∷ Answer.dropped 1 encode_memory ∷ nothing ∷ nothing ∷ nothing ∷ [] }
    ensures named { named_by (4 ∷ []) (queue_of 4)
        (first ∷ ends 0 ∷ Step.shutdown ∷ Step.take 10 ∷ Step.encode ∷ []) ≡
        dropped_entry encode_memory 0 3 ∷ [] }
    // The next batch is no longer concerned.
    ensures next_batch { answers_without (5 ∷ []) 5 (queue_of 4)
        (family 1 ++ ends 0 ∷ Step.flush ∷ Step.take 0 ∷ Step.encode ∷ ends 1 ∷ Step.flush ∷
        Step.take 0 ∷ sends) ≡
        Answer.dropped 1 encode_memory ∷ queued 1 ∷ Answer.flush ∷ taken 2 1 ∷ delivers 2 80 }
    // Where there is nothing to encode, none is wanted; nor do other steps want any.
    ensures nothing_to_encode { answers_without (0 ∷ []) 0 (queue_of 4) (Step.encode ∷ []) ≡
        nothing ∷ [] }
    ensures others { answers_without (2 ∷ 3 ∷ 5 ∷ 6 ∷ []) 2 (queue_of 4)
        (first ∷ ends 0 ∷ Step.flush ∷ Step.take 0 ∷ sends) ≡
        Answer.flush ∷ taken 1 1 ∷ delivers 1 70 }
{}

/// A body may have as many bytes as the greatest, and no more: a batch of a larger one is dropped,
/// and its spans are named.
#[tactic(auto, unfolding(crate::specs::Worked::answers_from, crate::specs::Worked::answers_without, crate::specs::Worked::named_by))]
pub fn greatest()
    ensures fits { answers_from 2 (bodies_of 70) (first ∷ ends 0 ∷ Step.take 5000000000 ∷ sends) ≡
        taken 1 1 ∷ delivers 1 70 }
    ensures too_large { answers_from 2 (bodies_of 69)
        (first ∷ ends 0 ∷ Step.take 5000000000 ∷ sends) ≡
        taken 1 1 ∷ Answer.dropped 1 too_large ∷ nothing ∷ nothing ∷ [] }
    // Two spans with the same identifiers are named each.
    ensures names_each { let run = record (run_with always_on (1 ∷ 2 ∷ 3 ∷ 1 ∷ 2 ∷ 3 ∷ [])) {
      max_body = 128;
    } in
        named_by [] run
        (first ∷ first ∷ ends 0 ∷ ends 1 ∷ Step.take 0 ∷ Step.encode ∷ []) ≡
        dropped_entry too_large 1 3 ∷ dropped_entry too_large 0 3 ∷ [] }
    // Want of memory is reported first.
    ensures memory_first { answers_without (3 ∷ []) 3 (bodies_of 69)
        (first ∷ ends 0 ∷ Step.take 5000000000 ∷ Step.encode ∷ []) ≡
        Answer.dropped 1 encode_memory ∷ [] }
{}

/// What follows from the outcome of an attempt that is the last.
#[tactic(auto, unfolding(crate::specs::Worked::answers_by))]
pub fn outcomes()
    ensures partial { answers_by (Outcome.partial (pos 2) ∷ []) 5 (once_of 4)
        (first ∷ ends 0 ∷ Step.flush ∷ Step.take 0 ∷ sends) ≡
        sent 1 1 (Outcome.partial (pos 2)) ∷ replied 1 (Next.partial (pos 2)) ∷ [] }
    ensures bad_request { answers_by (Outcome.refused 400 ∷ []) 5 (once_of 4)
        (first ∷ ends 0 ∷ Step.flush ∷ Step.take 0 ∷ sends) ≡
        sent 1 1 (Outcome.refused 400) ∷ replied 1 (give_up (Cause.refused 400)) ∷ [] }
    ensures unavailable { answers_by (later 503 (Some (seconds 2)) ∷ []) 5 (once_of 4)
        (first ∷ ends 0 ∷ Step.flush ∷ Step.take 0 ∷ sends) ≡
        sent 1 1 (later 503 (Some (seconds 2))) ∷ replied 1 (give_up attempts) ∷ [] }
    ensures bad { answers_by (bad ∷ []) 5 (once_of 4)
        (first ∷ ends 0 ∷ Step.flush ∷ Step.take 0 ∷ sends) ≡
        sent 1 1 bad ∷ replied 1 (give_up Cause.bad_reply) ∷ [] }
    // The next batch is no longer concerned.
    ensures next_batch { answers_by (no_reply ∷ []) 7 (once_of 4)
        (family 1 ++ ends 0 ∷ Step.flush ∷ Step.take 0 ∷ sends ++ ends 1 ∷ Step.flush ∷
        Step.take 0 ∷ sends) ≡
        replied 1 (give_up attempts) ∷ queued 1 ∷ Answer.flush ∷ taken 2 1 ∷ delivers 2 80 }
{}

/// The second ledger names the spans of a batch that was lost.
#[tactic(auto, unfolding(crate::specs::Worked::lost_by))]
pub fn losses()
    ensures refused { lost_by (Outcome.refused 400 ∷ []) (once_of 4)
        (first ∷ ends 0 ∷ Step.flush ∷ Step.take 0 ∷ sends) ≡
        dropped_entry (refused 400) 0 3 ∷ [] }
    ensures bad { lost_by (bad ∷ []) (once_of 4)
        (first ∷ ends 0 ∷ Step.flush ∷ Step.take 0 ∷ sends) ≡ dropped_entry bad_reply 0 3 ∷ [] }
    ensures no_reply { lost_by (no_reply ∷ []) (once_of 4)
        (first ∷ ends 0 ∷ Step.flush ∷ Step.take 0 ∷ sends) ≡ dropped_entry given_up 0 3 ∷ [] }
    // It isn't known which spans were refused.
    ensures partial { lost_by (Outcome.partial (pos 1) ∷ []) (once_of 4)
        (first ∷ ends 0 ∷ Step.flush ∷ Step.take 0 ∷ sends) ≡ [] }
    // There is another attempt.
    ensures again { lost_by (no_reply ∷ []) (bodies_of 70)
        (first ∷ ends 0 ∷ Step.flush ∷ Step.take 0 ∷ sends) ≡ [] }
{}
