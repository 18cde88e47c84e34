//! What is kept of spans that are dropped and of those that are lost, and all that a desk shows
//! (profile).

ghost use Rattle.std.specs.Prelude.{◌≡◌, [], ◌∷◌, ◌++◌, pos, None, true, false};
ghost use Rattle.model_span.specs.Dropped.{queue_full, too_large, encode_memory, refused};
ghost use Rattle.model_span.specs.Dropped.{bad_reply, given_up, left_handed};
ghost use Rattle.model_desk.specs.Retries.{Fate};
ghost use Rattle.model_desk.specs.Queue.{flush, shutdown, late, taken, handed, dropped, settled};
ghost use Rattle.model_desk.specs.Queue.{popped, popped_lost, drops, ledger_entries};
ghost use Rattle.model_desk.specs.Queue.{popped_entries, losses, lost_entries, popped_lost_entries};
ghost use Rattle.model_desk.specs.Desks.{no_drops, no_fates};
ghost use Rattle.worked_sdk.specs.Histories.{four, ends, two_handed, ends_full, named, five_ends};
ghost use Rattle.worked_sdk.specs.Histories.{ledger_tickets, popped_tickets, span_at, shown};
ghost use Rattle.worked_sdk.specs.Histories.{AllAllowed};

/// The ledger names the dropped spans, the newest first, and a pop takes the newest.
pub fn ledgers()
    ensures full { ledger_entries five_ends ≡ named queue_full 4 ∷ [] }
    // A dropped batch names its spans in the order of the queue.
    ensures batch { drops (five_ends ++ taken 10 2 ∷ dropped too_large ∷ []) ≡
        named queue_full 4 ∷ named too_large 0 ∷ named too_large 1 ∷ [] }
    ensures newest_first { ledger_entries (five_ends ++ taken 10 2 ∷ dropped too_large ∷ []) ≡
        named too_large 1 ∷ named too_large 0 ∷ named queue_full 4 ∷ [] }
    ensures pop { ledger_tickets (five_ends ++ taken 10 2 ∷ dropped too_large ∷ popped ∷ []) ≡
        0 ∷ 4 ∷ [] }
    ensures popped { popped_tickets (five_ends ++ taken 10 2 ∷ dropped too_large ∷ popped ∷ []) ≡
        1 ∷ [] }
    // What is dropped after a pop is above what was left.
    ensures above { ledger_tickets (five_ends ++ ends_full 5 ++ popped ∷ ends_full 6) ≡
        6 ∷ 4 ∷ [] }
    ensures none_to_pop { popped_entries (popped ∷ five_ends) ≡ [] }
    // A settled batch is not named there.
    ensures settled { ledger_tickets
        (ends (0 ∷ 1 ∷ []) ++ taken 10 2 ∷ handed ∷ settled Fate.given_up ∷ []) ≡ [] }
{}

/// The second ledger names the spans of a batch that was handed and lost, the newest first, each
/// with the reason.
pub fn losses_of_batches()
    ensures given_up { lost_entries (two_handed ++ settled Fate.given_up ∷ []) ≡
        named given_up 1 ∷ named given_up 0 ∷ [] }
    ensures refused { lost_entries (two_handed ++ settled (Fate.refused 400) ∷ []) ≡
        named (refused 400) 1 ∷ named (refused 400) 0 ∷ [] }
    ensures bad_reply { lost_entries (two_handed ++ settled Fate.bad_reply ∷ []) ≡
        named bad_reply 1 ∷ named bad_reply 0 ∷ [] }
    ensures left { lost_entries (two_handed ++ settled Fate.abandoned ∷ []) ≡
        named left_handed 1 ∷ named left_handed 0 ∷ [] }
    ensures delivered { lost_entries (two_handed ++ settled Fate.delivered ∷ []) ≡ [] }
    // It isn't known which spans were refused.
    ensures partial { lost_entries (two_handed ++ settled (Fate.partial (pos 1)) ∷ []) ≡ [] }
    // All that were lost, in order, be it that one was popped.
    ensures all { losses (two_handed ++ settled Fate.given_up ∷ popped_lost ∷ []) ≡
        named given_up 0 ∷ named given_up 1 ∷ [] }
    ensures pop { lost_entries (two_handed ++ settled Fate.given_up ∷ popped_lost ∷ []) ≡
        named given_up 0 ∷ [] }
    ensures popped { popped_lost_entries
        (two_handed ++ settled Fate.given_up ∷ popped_lost ∷ popped_lost ∷ popped_lost ∷ []) ≡
        named given_up 1 ∷ named given_up 0 ∷ [] }
    // A pop takes from its own ledger.
    ensures other { lost_entries (two_handed ++ settled Fate.given_up ∷ popped ∷ []) ≡
        named given_up 1 ∷ named given_up 0 ∷ [] }
{}

/// All that a desk shows after some events.
#[tactic(auto, unfolding(crate::specs::Histories::shown, crate::specs::Histories::AllAllowed))]
pub fn desks()
    // One batch is refused in part, the other one dropped, and one more span ends.
    ensures shown { shown four
        (five_ends ++ taken 10 2 ∷ handed ∷ settled (Fate.partial (pos 1)) ∷ taken 20 2 ∷
        dropped encode_memory ∷ ends (5 ∷ []) ++ flush ∷ []) ≡ record {
          config = four;
          waiting = span_at 5 ∷ [];
          out = None;
          ledger = named encode_memory 3 ∷ named encode_memory 2 ∷ named queue_full 4 ∷ [];
          lost = [];
          next_ticket = 6;
          taken = 4;
          batches = 2;
          asked = 5;
          closed = false;
          last_moment = 20;
          handed = 2;
          lost_count = 0;
          late = 0;
          dropped = record no_drops { queue_full = 1; encode_memory = 2 };
          fates = record no_fates { partial = 1 };
        } }
    // One batch is refused.
    ensures lost { (shown four (two_handed ++ settled (Fate.refused 400) ∷ popped_lost ∷ [])).lost ≡
        named (refused 400) 0 ∷ [] }
    ensures lost_count { (shown four (two_handed ++ settled (Fate.refused 400) ∷ popped_lost ∷ [])).lost_count ≡ 2 }
    ensures allowed { AllAllowed four
        (five_ends ++ taken 10 2 ∷ handed ∷ settled (Fate.partial (pos 1)) ∷ taken 20 2 ∷
        dropped encode_memory ∷ ends (5 ∷ []) ++ flush ∷ []) }
{}
