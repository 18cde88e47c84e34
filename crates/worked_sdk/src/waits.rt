//! What follows from an attempt to send a batch (OTLP Specification, "OTLP/HTTP Response",
//! "OTLP/HTTP Throttling"; RFC 9110, "Retry-After").

ghost use Rattle.std.specs.Prelude.{◌≡◌, pos, Some, None};
ghost use Rattle.model_desk.specs.Retries.{Outcome, later, no_reply, bad, seconds, date, done};
ghost use Rattle.model_desk.specs.Retries.{Next, Cause, again, give_up, attempts, Fate, next_of};
ghost use Rattle.model_desk.specs.Retries.{fate_of};
ghost use Rattle.model_desk.specs.Waits.{IsRetryConfig, next_after};
ghost use Rattle.worked_sdk.specs.Settings.{usual, patient, silence, asked};

/// Statuses after which a batch would be sent again end it, as a missing reply does.
pub fn one_attempt()
    ensures unavailable { next_of (later 503 (Some (seconds 7))) ≡ give_up attempts }
    ensures silent { next_of no_reply ≡ give_up attempts }
    ensures bad_request { next_of (Outcome.refused 400) ≡ give_up (Cause.refused 400) }
    ensures partial { next_of (Outcome.partial (pos 3)) ≡ Next.partial (pos 3) }
{}

/// What settles a batch, and how.
pub fn fates()
    ensures delivered { fate_of (next_of Outcome.delivered) ≡ Some Fate.delivered }
    ensures given_up { fate_of (next_of (later 429 None)) ≡ Some Fate.given_up }
    ensures bad_reply { fate_of (next_of bad) ≡ Some Fate.bad_reply }
    ensures another { fate_of (again 9) ≡ None }
{}

/// Without a reply the waits double, and a random word takes off up to a half.
pub fn backoffs()
    ensures whole { silence 1 0 0 ≡ again 1000000000 }
    ensures half { silence 1 0 500 ≡ again 500000000 }
    ensures whole_again { silence 1 0 501 ≡ again 1000000000 }
    // At most 8 seconds after the fourth attempt.
    ensures fourth { silence 4 0 4000 ≡ again 4000000000 }
    ensures last { silence 5 0 0 ≡ give_up attempts }
    ensures last_moment { silence 1 18446744073709551000 0 ≡ again 18446744073709551615 }
    // 30 seconds, doubled, are above the greatest wait.
    ensures greatest { next_after (record usual { initial_ms = 30000; max_ms = 50000 })
        2 no_reply 0 0 ≡ again 50000000000 }
    // A status that asks for nothing.
    ensures throttled { next_after usual 1 (later 429 None) 0 0 ≡ again 1000000000 }
{}

/// What the collector asks for, up to 300 seconds. The date is 1994-11-06 08:49:37 UTC.
pub fn asked_waits()
    ensures in_seconds { asked (seconds 7) 5 ≡ again 7000000005 }
    ensures too_long { asked (seconds 301) 0 ≡ again 300000000000 }
    ensures at_a_date { asked (date 784111777) 784111775000000000 ≡ again 784111777000000000 }
    ensures after_it { asked (date 784111777) 784111777000000001 ≡ again 784111777000000001 }
    ensures long_before_it { asked (date 784111777) 0 ≡ again 300000000000 }
    ensures at_the_last { next_after usual 5 (later 503 (Some (seconds 7))) 0 0 ≡
        give_up attempts }
{}

/// Where no wait is to be below 2 seconds, a shorter one lasts 2 seconds, whoever asked for it.
pub fn least_waits()
    ensures at_once { next_after patient 1 (later 503 (Some (seconds 0))) 5 0 ≡
        again 2000000005 }
    ensures date_after { next_after patient 1 (later 503 (Some (date 1))) 3000000000 0 ≡
        again 5000000000 }
    ensures backoff { next_after patient 1 no_reply 0 0 ≡ again 2000000000 }
    ensures longer { next_after patient 1 (later 429 (Some (seconds 7))) 5 0 ≡
        again 7000000005 }
    ensures longer_backoff { next_after patient 3 no_reply 0 0 ≡ again 4000000000 }
    ensures last_moment { next_after patient 1 no_reply 18446744073709551000 0 ≡
        again 18446744073709551615 }
{}

/// Each other outcome is followed by its own next one, at each attempt.
pub fn first_attempt()
    ensures delivered { next_after usual 1 Outcome.delivered 0 0 ≡ done }
    ensures partial { next_after usual 1 (Outcome.partial (pos 3)) 0 0 ≡ Next.partial (pos 3) }
    ensures refused { next_after usual 1 (Outcome.refused 400) 0 0 ≡
        give_up (Cause.refused 400) }
    ensures bad { next_after usual 1 bad 0 0 ≡ give_up Cause.bad_reply }
{}

/// Which numbers may be set.
pub fn settings()
    ensures usual { IsRetryConfig usual }
    ensures one_attempt { IsRetryConfig (record usual { attempts = 1 }) }
    ensures greatest { IsRetryConfig
        (record { attempts = 5; initial_ms = 30000; max_ms = 300000; least_ms = 300000 }) }
    ensures no_attempt { ¬ IsRetryConfig (record usual { attempts = 0 }) }
    ensures six_attempts { ¬ IsRetryConfig (record usual { attempts = 6 }) }
    ensures no_wait { ¬ IsRetryConfig (record usual { initial_ms = 0 }) }
    ensures unordered { ¬ IsRetryConfig (record usual { max_ms = 999 }) }
    ensures too_long { ¬ IsRetryConfig (record usual { max_ms = 300001 }) }
    ensures least { IsRetryConfig (record usual { least_ms = 30000 }) }
    ensures least_above_the_longest { ¬ IsRetryConfig (record usual { least_ms = 30001 }) }
{}
