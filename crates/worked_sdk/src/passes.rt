//! What passes know (profile).

ghost use Rattle.std.specs.Prelude.{◌≡◌, ◌-◌, ◌^◌, [], ◌∷◌, Some, None, true, false};
ghost use Rattle.model_span.specs.Dropped.{abandoned, left_handed, queue_full};
ghost use Rattle.worked_sdk.specs.Histories.{named, span_at};
ghost use Rattle.model_processor.specs.Passes.{after_pop_lost, all_dropped, all_popped};
ghost use Rattle.model_processor.specs.Passes.{all_popped_lost, all_accepted, all_tickets, drops};
ghost use Rattle.model_processor.specs.Passes.{late_count, shutdown_count, tickets};
ghost use Rattle.model_processor.specs.PassClauses.{CountsLate, NamesDrops, NamesLosses, is_closed};
ghost use Rattle.model_processor.specs.PassClauses.{numbers_below};
ghost use Rattle.model_processor.specs.Batches.{abandon};
ghost use Rattle.model_processor.specs.WorkerClauses.{FlushesAreKept, QueuedAreAccounted};
ghost use Rattle.model_processor.specs.WorkerClauses.{TicketsAreGiven, ToldOnlyWhereLeft};
ghost use Rattle.model_processor.specs.WorkerClauses.{all_entries, count_between, tickets_of};
ghost use Rattle.model_processor.specs.AnyAccounts.{after_flush, after_flushed, after_left};
ghost use Rattle.model_processor.specs.AnyAccounts.{after_told_left};
ghost use Rattle.model_processor.specs.Worker.{new_worker, worker_losses};
ghost use Rattle.worked_sdk.specs.Accounts.{both, drop_of_2, first, out_with, second, worker_with};

/// What two passes know together.
pub fn together()
    ensures queued { all_accepted both ≡ span_at 0 ∷ span_at 1 ∷ span_at 3 ∷ [] }
    ensures dropped { all_dropped both ≡ named queue_full 2 ∷ [] }
    ensures popped { all_popped both ≡ named queue_full 2 ∷ [] }
    ensures late { late_count both ≡ 1 }
    ensures shutdowns { shutdown_count both ≡ 1 }
{}

/// Tickets, and how a full queue is reported.
pub fn tickets()
    ensures first { tickets first ≡ 0 ∷ 1 ∷ 2 ∷ [] }
    ensures all { all_tickets both ≡ 0 ∷ 1 ∷ 2 ∷ 3 ∷ [] }
    ensures below { numbers_below 4 ≡ 0 ∷ 1 ∷ 2 ∷ 3 ∷ [] }
    ensures drop { drops first ≡ drop_of_2 ∷ [] }
    // Two queued tickets are from the floor 0 up to 2, as many as the queue holds.
    ensures full { count_between 0 2 (all_accepted both) ≡ 2 }
    // From the floor 1 there is one: a drop there would have found room.
    ensures room { count_between 1 2 (all_accepted both) ≡ 1 }
    ensures not_itself { count_between 3 3 (all_accepted both) ≡ 0 }
    ensures of_spans { tickets_of (all_accepted both) ≡ 0 ∷ 1 ∷ 3 ∷ [] }
{}

/// A flush that asked when ticket 5 was the next one, and what it was answered.
pub fn answers()
    ensures flushed { (after_flushed (after_flush 5 4 first)).floor ≡ 5 }
    ensures left { (after_told_left (after_flush 5 4 first)).floor ≡ 3 }
    ensures told { ToldOnlyWhereLeft (after_told_left first ∷ second ∷ []) (after_left new_worker) }
    ensures not_told { ToldOnlyWhereLeft both new_worker }
{}

/// Whether spans are admitted.
pub fn closings()
    ensures shut { is_closed 4 both ≡ true }
    ensures open { is_closed 4 (first ∷ []) ≡ false }
    // Without a shutdown a processor closes where there is no ticket left.
    ensures last { is_closed (2 ^ 64 - 1) (first ∷ []) ≡ true }
{}

/// The end of a processor of a queue of 2 spans, where ticket 3's batch was not handed and is
/// abandoned: nothing is left, and 4 is the next ticket.
pub fn accounts()
    ensures spans { QueuedAreAccounted [] both (abandon (worker_with (out_with None []))) }
    ensures tickets { TicketsAreGiven 2 4 both }
    ensures late { CountsLate 1 4 true both }
    ensures flushes { FlushesAreKept [] both (abandon (worker_with (out_with None []))) }
    // The entry of ticket 2 was popped, that of ticket 3 is left in the ledger.
    ensures names { NamesDrops (named abandoned 3 ∷ [])
        (record { queue_full = 1; encode_memory = 0; too_large = 0; abandoned = 1 })
        (all_entries both (abandon (worker_with (out_with None [])))) (all_popped both) }
{}

/// The same where ticket 3's batch was handed: its name is in the ledger of lost spans, or popped
/// from it.
pub fn losses()
    ensures names { NamesLosses (named left_handed 3 ∷ []) 1
        (worker_losses (abandon (worker_with (out_with (Some (8 ∷ [])) []))))
        (all_popped_lost both) }
    ensures popped { NamesLosses [] 1
        (worker_losses (abandon (worker_with (out_with (Some (8 ∷ [])) []))))
        (all_popped_lost (after_pop_lost (named left_handed 3) first ∷ second ∷ [])) }
{}
