//! A history in which a batch is sent again, with what it makes of its spans (OTLP Specification,
//! "Retryable Response Codes", "OTLP/HTTP Throttling"; tickets: profile). A batch of one span is
//! out from its take to the reply to its second attempt, and its span is handed over once.

ghost use Rattle.std.specs.Prelude.{◌≡◌, [], ◌∷◌, Some, true};
ghost use Rattle.model_desk.specs.Retries.{Outcome, Fate};
ghost use Rattle.model_desk.specs.Queue as desk;
ghost use Rattle.model_run.specs.Answers.{to_retry, AreAnswers};
ghost use Rattle.model_run.specs.Headline.{EachOnce, attempts};
ghost use Rattle.worked_sdk.specs.Worked.{queue_of, first_span, child_span};
ghost use Rattle.worked_sdk.specs.Retried.{busy, retried, retried_history, waiting_desk};
ghost use Rattle.worked_sdk.specs.Retried.{waiting_out, retried_events, retried_spans};
ghost use Rattle.worked_sdk.specs.Retried.{retried_places};

/// Its answers are the right ones.
#[tactic(auto, unfolding(crate::specs::Retried::retried_history))]
pub fn answers()
    ensures are { retried_history ≡ retried }
    ensures right { AreAnswers (queue_of 4) retried }
{}

/// While the batch waits to be sent again it is out, handed over, and neither queued nor ended.
#[tactic(auto, unfolding(crate::specs::Retried::waiting_desk, crate::specs::Retried::waiting_out))]
pub fn while_it_waits()
    ensures out { waiting_out ≡
        Some (record {
          number = 1;
          spans = first_span 0 ∷ [];
          progress = to_retry 3000000000;
          attempts = 1;
        }) }
    ensures at_the_desk { waiting_desk.out ≡
        Some (record { number = 1; size = 1; is_handed = true }) }
    ensures queued { waiting_desk.waiting ≡ child_span 1 4 ∷ [] }
    ensures not_ended { waiting_desk.fates.delivered ≡ 0 }
{}

/// The second attempt hands nothing over once more, and the reply to it ends the batch.
#[tactic(auto, unfolding(crate::specs::Retried::retried_events, crate::specs::Retried::retried_spans, crate::specs::Retried::retried_places))]
pub fn at_the_end()
    ensures attempts { attempts retried ≡
        record { number = 1; attempt = 1; outcome = busy } ∷
        record { number = 1; attempt = 2; outcome = Outcome.delivered } ∷ [] }
    ensures events { retried_events ≡
        desk.queued (first_span 0) ∷ desk.flush ∷ desk.taken 10 1 ∷ desk.handed ∷
        desk.queued (child_span 1 4) ∷ desk.settled Fate.delivered ∷ [] }
    ensures handed { retried_spans ≡ first_span 0 ∷ [] }
    ensures places { retried_places ≡ 1 ∷ 0 ∷ [] }
    ensures once { EachOnce (queue_of 4).setup retried }
{}
