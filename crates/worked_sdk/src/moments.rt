//! When spans that wait are due (OpenTelemetry Trace SDK, Batching processor: scheduledDelayMillis,
//! ForceFlush, Shutdown).

ghost use Rattle.std.specs.Prelude.{◌≡◌, [], ◌∷◌, ◌++◌, true, false};
ghost use Rattle.model_desk.specs.Queue.{flush, shutdown, late, taken, late_count};
ghost use Rattle.worked_sdk.specs.Histories.{four, ends, delivers, is_due_after, shown, AllAllowed};

/// The delay of 5000 milliseconds counts from when the desk was made, and then from the last take.
#[tactic(auto, unfolding(crate::specs::Histories::is_due_after))]
pub fn delay()
    ensures before { is_due_after four (ends (0 ∷ [])) 4999999999 ≡ false }
    ensures after { is_due_after four (ends (0 ∷ [])) 5000000000 ≡ true }
    ensures empty { is_due_after four [] 5000000000 ≡ false }
    ensures before_the_next { is_due_after four
        (ends (0 ∷ []) ++ (taken 6000000000 1 ∷ delivers) ++ ends (1 ∷ [])) 10999999999 ≡ false }
    ensures after_the_last { is_due_after four
        (ends (0 ∷ []) ++ (taken 6000000000 1 ∷ delivers) ++ ends (1 ∷ [])) 11000000000 ≡ true }
    // A moment before the last take.
    ensures early { is_due_after four
        (ends (0 ∷ []) ++ (taken 6000000000 1 ∷ delivers) ++ ends (1 ∷ [])) 0 ≡ false }
{}

/// A shutdown and a flush make due what waits. After a shutdown no span is admitted.
#[tactic(auto, unfolding(crate::specs::Histories::is_due_after, crate::specs::Histories::shown, crate::specs::Histories::AllAllowed))]
pub fn flush_and_shutdown()
    ensures after_a_flush { is_due_after four (ends (0 ∷ []) ++ flush ∷ []) 0 ≡ true }
    ensures after_a_shutdown { is_due_after four (ends (0 ∷ []) ++ shutdown ∷ []) 0 ≡ true }
    ensures nothing_waits { is_due_after four (shutdown ∷ []) 5000000000 ≡ false }
    ensures ended_after_the_flush { is_due_after four (flush ∷ ends (0 ∷ [])) 0 ≡ false }
    ensures late { late_count (ends (0 ∷ []) ++ shutdown ∷ late ∷ late ∷ []) ≡ 2 }
    ensures closed { (shown four (ends (0 ∷ []) ++ shutdown ∷ late ∷ [])).closed ≡ true }
    ensures open { (shown four (ends (0 ∷ []) ++ flush ∷ [])).closed ≡ false }
    ensures allowed { AllAllowed four (ends (0 ∷ []) ++ shutdown ∷ late ∷ []) }
{}
