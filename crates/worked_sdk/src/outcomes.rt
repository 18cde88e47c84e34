//! What replies mean for the batch that was sent (OTLP Specification, "OTLP/HTTP Response").

ghost use Rattle.std.specs.Prelude.{◌≡◌, ◌∷◌, ◌++◌, [], Err, None, Ok, Some, pos, replicate};
ghost use Rattle.model_desk.specs.Retries.{bad, delivered, later, no_reply, seconds};
ghost use Rattle.model_desk.specs.Retries.Outcome.{partial, refused};
ghost use Rattle.retry_core.specs.declared.outcome.RetryAfter.TheVariants.{Seconds};
ghost use Rattle.http_wire.specs.declared.fault.HttpFault.TheVariants as faults;
ghost use Rattle.otlp_http.specs.Outcomes.{outcome_of, outcome_of_body};
ghost use Rattle.worked_sdk.specs.Meanings.{outcome_at, outcome_by};

/// Statuses of replies.
#[tactic(auto, unfolding(crate::specs::Meanings::outcome_at))]
pub fn statuses()
    ensures below_success { outcome_at 199 ≡ refused 199 }
    ensures success { outcome_at 200 ≡ delivered }
    ensures no_content { outcome_at 204 ≡ delivered }
    ensures last_success { outcome_at 299 ≡ delivered }
    ensures above_success { outcome_at 300 ≡ refused 300 }
    ensures bad_request { outcome_at 400 ≡ refused 400 }
    ensures too_many { outcome_at 429 ≡ later 429 None }
    ensures bad_gateway { outcome_at 502 ≡ later 502 None }
    ensures busy { outcome_of (Ok (record {
      status = 503;
      retry_after = Some (Seconds 7);
      body = Err faults.Ended;
    })) ≡ later 503 (Some (seconds 7)) }
    ensures gateway_timeout { outcome_at 504 ≡ later 504 None }
    ensures version { outcome_at 505 ≡ refused 505 }
{}

/// Bodies of replies with a status from 200 to 299.
#[tactic(auto, unfolding(crate::specs::Meanings::outcome_by))]
pub fn bodies()
    ensures rejected { outcome_by (10 ∷ 5 ∷ 8 ∷ 2 ∷ 18 ∷ 1 ∷ 120 ∷ [])
        ≡ partial (pos 2) }
    ensures negative { outcome_by (10 ∷ 11 ∷ 8 ∷ (replicate 9 255 ++ 1 ∷ []))
        ≡ delivered }
    ensures truncated { outcome_by (10 ∷ 5 ∷ 8 ∷ 2 ∷ 18 ∷ 1 ∷ []) ≡ delivered }
    ensures not_utf8 { outcome_by (10 ∷ 5 ∷ 8 ∷ 2 ∷ 18 ∷ 1 ∷ 255 ∷ []) ≡ delivered }
    ensures cut { outcome_of_body (Err faults.Ended) ≡ delivered }
{}

/// Faults in the place of a reply.
pub fn faults()
    ensures ended { outcome_of (Err faults.Ended) ≡ no_reply }
    ensures device { outcome_of (Err faults.Device) ≡ no_reply }
    ensures out_of_memory { outcome_of (Err faults.OutOfMemory) ≡ no_reply }
    ensures head { outcome_of (Err faults.BadHead) ≡ bad }
    ensures length { outcome_of (Err faults.BadLength) ≡ bad }
    ensures chunk { outcome_of (Err faults.BadChunk) ≡ bad }
    ensures size { outcome_of (Err faults.TooLarge) ≡ bad }
{}
