//! Wrong reports of the whole run (OpenTelemetry Trace SDK, "Batching processor"; tickets and the
//! ledger: profile). Each breaks one of the conditions that the right one meets.

ghost use Rattle.std.specs.Prelude.{◌≡◌, [], ◌∷◌, ◌++◌, None};
ghost use Rattle.model_span.specs.Dropped.{too_large};
ghost use Rattle.model_desk.specs.Retries.{Outcome};
ghost use Rattle.model_run.specs.Runs.{Answer, not_taken, nothing};
ghost use Rattle.model_run.specs.Answers.{AreAnswers};
ghost use Rattle.model_run.specs.Headline.{EachOnce, attempts};
ghost use Rattle.worked_sdk.specs.Worked.{queue_of, worked, worked_desk, worked_out, with_answer};
ghost use Rattle.worked_sdk.specs.Worked.{end_of_2, end_of_3, end_of_late, second_take};
ghost use Rattle.worked_sdk.specs.Worked.{first_encode, first_attempt, child_span, queued, full};
ghost use Rattle.worked_sdk.specs.Worked.{late};

/// A span is nowhere, or in two places.
pub fn accounts()
    // The dropped span is named nowhere.
    ensures nowhere { ¬ (EachOnce (queue_of 2).setup (with_answer end_of_2 late)) }
    // It is named, and in a batch.
    ensures twice { ¬ (EachOnce (queue_of 2).setup (with_answer end_of_3 (queued 2))) }
    // It is named twice.
    ensures named_twice { ¬ (EachOnce (queue_of 2).setup (with_answer end_of_3 (full 2))) }
    // A span that was handed to the exporter is named.
    ensures handed_and_named { ¬ (EachOnce (queue_of 2).setup (with_answer end_of_3 (full 0))) }
    // The late span is in the queue, under the ticket of another.
    ensures late_queued { ¬ (EachOnce (queue_of 2).setup (with_answer end_of_late (queued 4))) }
{}

/// A step that answers another thing than it should.
pub fn answers()
    ensures late_before { ¬ (AreAnswers (queue_of 2) (with_answer end_of_2 late)) }
    ensures full_while_room { ¬ (AreAnswers (queue_of 2) (with_answer end_of_3 (full 3))) }
    ensures queued_while_full { ¬ (AreAnswers (queue_of 2) (with_answer end_of_2 (queued 2))) }
    ensures late_has_ticket { ¬ (AreAnswers (queue_of 2) (with_answer end_of_late (queued 5))) }
    ensures take_refused { ¬ (AreAnswers (queue_of 2) (with_answer second_take not_taken)) }
    ensures too_few { ¬ (AreAnswers (queue_of 2) (with_answer second_take (Answer.taken 2 0))) }
    ensures same_number { ¬ (AreAnswers (queue_of 2) (with_answer second_take (Answer.taken 1 1))) }
    ensures other_length { ¬ (AreAnswers (queue_of 2)
        (with_answer first_encode (Answer.encoded 1 140))) }
    ensures too_large_though_it_fits { ¬ (AreAnswers (queue_of 2)
        (with_answer first_encode (Answer.dropped 1 too_large))) }
    ensures second_attempt { ¬ (AreAnswers (queue_of 2)
        (with_answer first_attempt (Answer.sent 1 2 Outcome.delivered))) }
    ensures not_sent { ¬ (AreAnswers (queue_of 2) (with_answer first_attempt nothing)) }
{}

/// What is left is not another thing.
#[tactic(auto, unfolding(crate::specs::Worked::worked_desk, crate::specs::Worked::worked_out))]
pub fn left()
    ensures nobody_named { ¬ (worked_desk.ledger ≡ []) }
    ensures nobody_waits { ¬ (worked_desk.waiting ≡ []) }
    // The span that is in the batch waits, too.
    ensures batch_waits { ¬ (worked_desk.waiting ≡ child_span 3 6 ∷ child_span 4 7 ∷ []) }
    // One waits with the value of another.
    ensures other_value { ¬ (worked_desk.waiting ≡ child_span 4 6 ∷ []) }
    ensures none_late { ¬ (worked_desk.late ≡ 0) }
    ensures none_out { ¬ (worked_out ≡ None) }
    ensures no_attempt { ¬ (attempts worked ≡ []) }
    ensures two_attempts { ¬ (attempts worked ≡
        record { number = 1; attempt = 1; outcome = Outcome.delivered } ∷
        record { number = 1; attempt = 2; outcome = Outcome.delivered } ∷ []) }
{}
