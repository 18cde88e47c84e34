//! A whole run, with what it makes of its spans (OpenTelemetry Trace SDK, "Batching processor";
//! tickets and the ledger: profile). Six spans end at a queue of two: two are sent, one finds the
//! queue full, one is in a batch that is out, one waits, and one is late.

ghost use Rattle.std.specs.Prelude.{◌≡◌, [], ◌∷◌, ◌++◌, Some, None, true, false};
ghost use Rattle.model_span.specs.Dropped.{queue_full};
ghost use Rattle.model_desk.specs.Retries.{Outcome, Fate};
ghost use Rattle.model_desk.specs.Queue as desk;
ghost use Rattle.model_run.specs.Answers.{not_out, to_encode, to_send, to_judge, AreAnswers};
ghost use Rattle.model_run.specs.Headline.{EachOnce, attempts, batch_numbers, AreNumbered};
ghost use Rattle.worked_sdk.specs.Worked.{desk_of_size, queue_of, history, worked, worked_steps};
ghost use Rattle.worked_sdk.specs.Worked.{worked_spans, worked_events, worked_desk, worked_out};
ghost use Rattle.worked_sdk.specs.Worked.{worked_places, worked_batch, progress_after, first_span};
ghost use Rattle.worked_sdk.specs.Worked.{child_span, dropped_entry, tried};

/// Its answers are the right ones.
#[tactic(auto, unfolding(crate::specs::Worked::history))]
pub fn answers()
    ensures are { history (queue_of 2) worked_steps ≡ worked }
    ensures right { AreAnswers (queue_of 2) worked }
{}

/// The spans that end, and what is done at the queue. The late one is none of them.
#[tactic(auto, unfolding(crate::specs::Worked::worked_spans, crate::specs::Worked::worked_events))]
pub fn events()
    ensures spans { worked_spans ≡
        first_span 0 ∷ child_span 1 4 ∷ child_span 2 5 ∷ child_span 3 6 ∷ child_span 4 7 ∷ [] }
    ensures events { worked_events ≡
        desk.queued (first_span 0) ∷ desk.queued (child_span 1 4) ∷ desk.full (child_span 2 5) ∷
        desk.taken 0 2 ∷ desk.handed ∷ desk.settled Fate.delivered ∷
        desk.queued (child_span 3 6) ∷ desk.flush ∷ desk.taken 7 1 ∷
        desk.queued (child_span 4 7) ∷ desk.shutdown ∷ desk.late ∷ [] }
{}

/// What is left of it: the queue and the ledger, the batch that is out, and the attempts.
#[tactic(auto, unfolding(crate::specs::Worked::worked_desk, crate::specs::Worked::worked_out, crate::specs::Worked::progress_after))]
pub fn left()
    ensures desk { worked_desk ≡ record {
      config = desk_of_size 2;
      waiting = child_span 4 7 ∷ [];
      out = Some (record { number = 2; size = 1; is_handed = false });
      ledger = dropped_entry queue_full 2 5 ∷ [];
      lost = [];
      next_ticket = 5;
      taken = 3;
      batches = 2;
      asked = 4;
      closed = true;
      last_moment = 7;
      handed = 2;
      lost_count = 0;
      late = 1;
      dropped = record { queue_full = 1; encode_memory = 0; too_large = 0; abandoned = 0 };
      fates = record {
        delivered = 1;
        partial = 0;
        refused = 0;
        bad_reply = 0;
        given_up = 0;
        abandoned = 0;
      };
    } }
    ensures out { worked_out ≡
        Some (record {
          number = 2;
          spans = child_span 3 6 ∷ [];
          progress = to_encode;
          attempts = 0;
        }) }
    ensures attempts { attempts worked ≡
        record { number = 1; attempt = 1; outcome = Outcome.delivered } ∷ [] }
    // Before the first take and after it, after the encoding, the attempt and the reply.
    ensures not_taken { progress_after 9 ≡ not_out }
    ensures taken { progress_after 10 ≡ to_encode }
    ensures encoded { progress_after 11 ≡ to_send }
    ensures sent { progress_after 12 ≡ to_judge Outcome.delivered }
    ensures replied { progress_after 13 ≡ not_out }
{}

/// Each ticket that was given is in one place, and no other ticket is: one waits, one is in
/// the batch that is out, two were handed over, and one was dropped.
#[tactic(auto, unfolding(crate::specs::Worked::worked_places))]
pub fn places()
    ensures tickets { worked_places ≡ 4 ∷ 3 ∷ 0 ∷ 1 ∷ 2 ∷ [] }
    ensures once { EachOnce (queue_of 2).setup worked }
{}

/// The spans of the batches, by number: none has the number 0 or 3.
#[tactic(auto, unfolding(crate::specs::Worked::worked_batch))]
pub fn batches()
    ensures first { worked_batch 1 ≡ first_span 0 ∷ child_span 1 4 ∷ [] }
    ensures second { worked_batch 2 ≡ child_span 3 6 ∷ [] }
    ensures none { worked_batch 0 ≡ [] }
    ensures no_third { worked_batch 3 ≡ [] }
{}

/// The distinct batches of some attempts, in the order of their first ones, and how they are
/// numbered: batch 1 is sent twice, and batch 2 between.
pub fn numbers()
    ensures of_worked { batch_numbers (attempts worked) ≡ 1 ∷ [] }
    ensures distinct { batch_numbers (tried 1 1 ∷ tried 2 1 ∷ tried 1 2 ∷ []) ≡ 1 ∷ 2 ∷ [] }
    ensures numbered { AreNumbered (attempts worked) }
    ensures skips { ¬ (AreNumbered (tried 1 1 ∷ tried 1 3 ∷ [])) }
    ensures begins_at_two { ¬ (AreNumbered (tried 1 2 ∷ [])) }
    ensures backwards { ¬ (AreNumbered (tried 1 2 ∷ tried 1 1 ∷ [])) }
{}
