//! Which spans wait and which batches have them (OpenTelemetry Trace SDK, Batching processor).

ghost use Rattle.std.specs.Prelude.{◌≡◌, [], ◌∷◌, ◌++◌, None, true, false};
ghost use Rattle.model_desk.specs.Queue.{taken, handed, tickets};
ghost use Rattle.worked_sdk.specs.Histories.{four, five, five_ends, all_sent, flushed_once};
ghost use Rattle.worked_sdk.specs.Histories.{nine_ends, nine_sent, waiting_tickets, batch_tickets};
ghost use Rattle.worked_sdk.specs.Histories.{ledger_tickets, is_due_after, is_flushed_after, shown};
ghost use Rattle.worked_sdk.specs.Histories.{AllAllowed, in_hand_batch};

/// A queue of 4 spans and batches of 2: the fifth span finds it full.
#[tactic(auto, unfolding(crate::specs::Histories::is_due_after, crate::specs::Histories::shown, crate::specs::Histories::AllAllowed))]
pub fn queue_of_four()
    ensures tickets { tickets five_ends ≡ 0 ∷ 1 ∷ 2 ∷ 3 ∷ 4 ∷ [] }
    ensures waiting { waiting_tickets five_ends ≡ 0 ∷ 1 ∷ 2 ∷ 3 ∷ [] }
    ensures ledger { ledger_tickets five_ends ≡ 4 ∷ [] }
    // There are enough for a batch.
    ensures due { is_due_after four five_ends 0 ≡ true }
    ensures first { batch_tickets all_sent 1 ≡ 0 ∷ 1 ∷ [] }
    ensures second { batch_tickets all_sent 2 ≡ 2 ∷ 3 ∷ [] }
    ensures no_third { batch_tickets all_sent 3 ≡ [] }
    ensures none_waits { waiting_tickets all_sent ≡ [] }
    ensures none_is_due { is_due_after four all_sent 5000000020 ≡ false }
    ensures out { (shown four (five_ends ++ taken 10 2 ∷ [])).out ≡ in_hand_batch 1 2 }
    ensures none_out { (shown four all_sent).out ≡ None }
    ensures allowed { AllAllowed four all_sent }
{}

/// A queue of 5 spans and batches of 2: a flush asks for the three that wait, the last of them
/// alone is a batch, and what ends while it is out waits.
#[tactic(auto, unfolding(crate::specs::Histories::is_due_after, crate::specs::Histories::is_flushed_after, crate::specs::Histories::AllAllowed))]
pub fn queue_of_five()
    ensures due_by_the_flush { is_due_after five flushed_once 10 ≡ true }
    ensures alone { batch_tickets nine_ends 2 ≡ 2 ∷ [] }
    ensures waiting { waiting_tickets nine_ends ≡ 3 ∷ 4 ∷ 5 ∷ 6 ∷ 7 ∷ [] }
    ensures full { ledger_tickets nine_ends ≡ 8 ∷ [] }
    ensures third { batch_tickets nine_sent 3 ≡ 3 ∷ 4 ∷ [] }
    ensures fourth { batch_tickets nine_sent 4 ≡ 5 ∷ 6 ∷ [] }
    // The flush asked for none of those that wait.
    ensures one_left { waiting_tickets nine_sent ≡ 7 ∷ [] }
    ensures none_is_due { is_due_after five nine_sent 41 ≡ false }
    // Three spans had been accepted at the flush. The first two are settled before the third.
    ensures third_waits { is_flushed_after five flushed_once 3 ≡ false }
    ensures third_is_out { is_flushed_after five (nine_ends ++ handed ∷ []) 3 ≡ false }
    ensures two_are_settled { is_flushed_after five (nine_ends ++ handed ∷ []) 2 ≡ true }
    ensures all_are_settled { is_flushed_after five nine_sent 3 ≡ true }
    ensures allowed { AllAllowed five nine_sent }
{}
