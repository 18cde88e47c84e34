//! What a worker knows (profile), and what its outcomes lead to (OTLP Specification, OTLP/HTTP
//! Response).

ghost use Rattle.std.specs.Prelude.{◌≡◌, [], ◌∷◌, pos, Some, None};
ghost use Rattle.model_span.specs.Dropped as names;
ghost use Rattle.model_desk.specs.Retries.{Fate, Outcome, given_up, later, no_reply};
ghost use Rattle.worked_sdk.specs.Histories.{named};
ghost use Rattle.model_processor.specs.Worker.{dropped_spans, fates, handed_spans, numbers};
ghost use Rattle.model_processor.specs.Worker.{taken_spans, worker_entries, worker_losses};
ghost use Rattle.model_processor.specs.WorkerClauses.{EachLeadsOn, LeadsTo, abandon, tickets_of};
ghost use Rattle.model_processor.specs.AnyAccounts.{after_drop, after_left, after_settle};
ghost use Rattle.worked_sdk.specs.Accounts.{out_with, twice, worker_with};

/// Two batches, of which one is out.
pub fn two()
    ensures numbers { numbers (worker_with (out_with None [])) ≡ 1 ∷ 2 ∷ [] }
    ensures taken { tickets_of (taken_spans (worker_with (out_with None []))) ≡ 0 ∷ 1 ∷ 3 ∷ [] }
    // A batch that is out has no fate yet.
    ensures fates { fates (worker_with (out_with None [])) ≡ Fate.delivered ∷ [] }
    // The one that was delivered has no lost span.
    ensures none_lost { worker_losses (worker_with (out_with None [])) ≡ [] }
{}

/// The batch that is out is abandoned, before it was handed and after that.
pub fn abandoned()
    ensures named { worker_entries (abandon (worker_with (out_with None []))) ≡
        named names.abandoned 3 ∷ [] }
    ensures dropped { tickets_of (dropped_spans (abandon (worker_with (out_with None [])))) ≡
        3 ∷ [] }
    ensures unnamed { worker_entries
        (abandon (worker_with (out_with (Some (8 ∷ [])) (no_reply ∷ [])))) ≡ [] }
    ensures handed { tickets_of
        (handed_spans (abandon (worker_with (out_with (Some (8 ∷ [])) (no_reply ∷ []))))) ≡
        0 ∷ 1 ∷ 3 ∷ [] }
    ensures settled { fates
        (abandon (worker_with (out_with (Some (8 ∷ [])) (no_reply ∷ [])))) ≡
        Fate.delivered ∷ Fate.abandoned ∷ [] }
    ensures lost { worker_losses
        (abandon (worker_with (out_with (Some (8 ∷ [])) (no_reply ∷ [])))) ≡
        named names.left_handed 3 ∷ [] }
    ensures none_lost { worker_losses (abandon (worker_with (out_with None []))) ≡ [] }
    ensures still_numbered { numbers (abandon (worker_with (out_with None []))) ≡ 1 ∷ 2 ∷ [] }
{}

/// The batch that is out is dropped, since its body would be longer than it may be. None is left to
/// be abandoned.
pub fn too_large()
    ensures named { worker_entries (after_drop names.too_large (worker_with (out_with None [])))
        ≡ named names.too_large 3 ∷ [] }
    ensures dropped { tickets_of
        (dropped_spans (after_drop names.too_large (worker_with (out_with None []))))
        ≡ 3 ∷ [] }
    ensures none_out { abandon (after_drop names.too_large (worker_with (out_with None [])))
        ≡ after_drop names.too_large (worker_with (out_with None [])) }
    ensures still_numbered { numbers
        (after_drop names.too_large (worker_with (out_with None []))) ≡ 1 ∷ 2 ∷ [] }
{}

/// The worker leaves, and leaves again.
pub fn left()
    ensures named { worker_entries (after_left (abandon (worker_with (out_with None []))))
        ≡ named names.abandoned 3 ∷ [] }
    ensures none_out { (after_left (abandon (worker_with (out_with None [])))).out ≡ None }
    ensures again { after_left (abandon (after_left (abandon (worker_with (out_with None [])))))
        ≡ after_left (abandon (worker_with (out_with None []))) }
{}

/// The batch that is out is settled as given up, as refused, or with a partial success.
pub fn lost()
    ensures given_up { worker_losses (after_settle (no_reply ∷ []) given_up
        (worker_with (out_with (Some (8 ∷ [])) []))) ≡ named names.given_up 3 ∷ [] }
    ensures refused { worker_losses (after_settle (Outcome.refused 400 ∷ []) (Fate.refused 400)
        (worker_with (out_with (Some (8 ∷ [])) []))) ≡ named (names.refused 400) 3 ∷ [] }
    // A partial success doesn't say which spans were refused.
    ensures partial { worker_losses (after_settle (Outcome.partial (pos 1) ∷ [])
        (Fate.partial (pos 1)) (worker_with (out_with (Some (8 ∷ [])) []))) ≡ [] }
{}

/// What outcomes lead to, where there are two attempts.
pub fn outcomes()
    ensures again { LeadsTo twice 1 (later 503 None) None }
    ensures last { LeadsTo twice 2 (later 503 None) (Some given_up) }
    ensures no_reply { LeadsTo twice 2 no_reply (Some given_up) }
    ensures delivered { LeadsTo twice 2 Outcome.delivered (Some Fate.delivered) }
    ensures refused { LeadsTo twice 1 (Outcome.refused 400) (Some (Fate.refused 400)) }
    ensures bad { LeadsTo twice 1 Outcome.bad (Some Fate.bad_reply) }
    ensures each { EachLeadsOn twice 1 (no_reply ∷ []) }
{}
