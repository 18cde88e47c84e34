//! A batch on its way to an exporter (Trace SDK, "Export(batch)"; OTLP Specification, "OTLP/HTTP
//! Response", "OTLP/HTTP Throttling"): the seventh one, which has three bytes and five attempts.

ghost use Rattle.std.specs.Prelude.{◌≡◌, [], ◌∷◌, Some, false, true};
ghost use Rattle.model_desk.specs.Retries.{delivered, no_reply};
ghost use Rattle.retry_core.specs.declared.next.Cause.TheVariants as causes;
ghost use Rattle.retry_core.specs.declared.next.Next.TheVariants as next;
ghost use Rattle.retry_core.specs.declared.fate.Fate.TheVariants as fates;
ghost use Rattle.retry_core.specs.declared.outcome.Outcome.TheVariants as outcomes;
ghost use Rattle.span_exporter.specs.Handed.{handing};
ghost use Rattle.batch_sending.specs.Sendings.{HasRoom, IsCountedAt, attempts_at, is_pending_at};
ghost use Rattle.batch_sending.specs.Sendings.{is_sent_at, to_judge, to_retry, to_send};
ghost use Rattle.batch_sending.specs.Answers.{IsAgain, IsEarly, IsOver, IsSent, MayBeSentAt};
ghost use Rattle.worked_sdk.specs.Sent.{seventh};
ghost use Rattle.worked_sdk.specs.Settings.{usual};

/// How many attempts were made, whether one was, and whether its outcome is to be judged.
pub fn stages()
    ensures none { attempts_at to_send ≡ 0 }
    ensures unsent { is_sent_at to_send ≡ false }
    ensures second { attempts_at (to_judge 2 no_reply) ≡ 2 }
    ensures sent { is_sent_at (to_judge 2 no_reply) ≡ true }
    ensures pending { is_pending_at (to_judge 2 no_reply) ≡ true }
    ensures waited { attempts_at (to_retry 2 9) ≡ 2 }
    ensures waits { is_sent_at (to_retry 2 9) ≡ true }
    ensures judged { is_pending_at (to_retry 2 9) ≡ false }
{}

/// The first attempt may be made at any moment, a later one not before its own, and none while an
/// outcome is to be judged.
pub fn moments()
    ensures first { MayBeSentAt 0 to_send }
    ensures early { ¬ (MayBeSentAt 8 (to_retry 1 9)) }
    ensures at_it { MayBeSentAt 9 (to_retry 1 9) }
    ensures unjudged { ¬ (MayBeSentAt 9 (to_judge 1 delivered)) }
{}

/// Five attempts are the first to the fifth, and no other follows the fifth. The exporter has room
/// for those that are left.
pub fn counts()
    ensures zeroth { ¬ (IsCountedAt usual (to_judge 0 no_reply)) }
    ensures fifth { IsCountedAt usual (to_judge 5 no_reply) }
    ensures sixth { ¬ (IsCountedAt usual (to_judge 6 no_reply)) }
    ensures fourth { IsCountedAt usual (to_retry 4 9) }
    ensures after_the_last { ¬ (IsCountedAt usual (to_retry 5 9)) }
    ensures all { HasRoom (λ _. 5) (seventh to_send) }
    ensures too_few { ¬ (HasRoom (λ _. 4) (seventh to_send)) }
    ensures left { HasRoom (λ _. 3) (seventh (to_retry 2 9)) }
{}

/// An attempt hands over its number, which attempt it is, and the body; an early one nothing.
pub fn attempts()
    ensures first { IsSent 0 1 outcomes.NoReply (seventh to_send) (seventh (to_judge 1 no_reply))
        (Some []) (Some (handing 7 1 (1 ∷ 2 ∷ 3 ∷ []) no_reply)) }
    ensures second { IsSent 9 2 outcomes.Delivered (seventh (to_retry 1 9))
        (seventh (to_judge 2 delivered)) (Some []) (Some (handing 7 2 (1 ∷ 2 ∷ 3 ∷ []) delivered)) }
    ensures same_number { ¬ (IsSent 9 1 outcomes.Delivered (seventh (to_retry 1 9))
        (seventh (to_judge 1 delivered)) (Some []) (Some (handing 7 1 (1 ∷ 2 ∷ 3 ∷ []) delivered))) }
    ensures another_byte { ¬ (IsSent 9 2 outcomes.Delivered (seventh (to_retry 1 9))
        (seventh (to_judge 2 delivered)) (Some []) (Some (handing 7 2 (1 ∷ 2 ∷ 4 ∷ []) delivered))) }
    ensures early { IsEarly 8 (seventh (to_retry 1 9)) (seventh (to_retry 1 9)) (Some []) (Some []) }
{}

/// Without a reply, and with the word 0, a second goes by before the second attempt; the fifth is
/// the last.
pub fn outcomes()
    ensures again { IsAgain 9 0 (seventh (to_judge 1 no_reply)) (seventh (to_retry 1 1000000009))
        1000000009 }
    ensures no_sixth { ¬ (IsAgain 9 0 (seventh (to_judge 5 no_reply))
        (seventh (to_retry 5 1000000009)) 1000000009) }
    ensures taken { IsOver 9 0 (seventh (to_judge 1 delivered)) next.Done fates.Delivered }
    ensures last { IsOver 9 0 (seventh (to_judge 5 no_reply))
        (next.GiveUp causes.Attempts) fates.GivenUp }
{}
