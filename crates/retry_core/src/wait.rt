//! How long the waits between the attempts of a batch are.

ghost use Rattle.std.specs.Prelude.{◌≡◌, ◌≤◌, min, option_map};
ghost use Rattle.model_desk.specs.Waits.{asked_ns, backoff_ms, greatest_wait, wait_ns};
ghost use Rattle.retry_core.specs.Retries.{retry_after_view};

use crate::config::RetryConfig;
use crate::outcome::RetryAfter;

/// A millisecond, in nanoseconds.
const MILLISECOND: u64 = 1_000_000;

/// A second, in nanoseconds.
const SECOND: u128 = 1_000_000_000;

/// The most that a reply is waited for, in nanoseconds. (profile)
const GREATEST_WAIT: u128 = 300_000_000_000;

/// The wait after this attempt, in milliseconds, where the collector asks for none.
fn backoff_ms(config: &RetryConfig, attempt: u32, word: u64) -> u64
    requires first { 1 ≤ attempt }
    requires last { attempt ≤ config.now.attempts }
    ensures value { result ≡ backoff_ms config.now attempt word }
    ensures bounded { result ≤ 300000 }
{
    let longest = config.longest_ms(attempt);
    longest - word % (longest / 2 + 1)
}

/// This wait, or the greatest where it is longer, in nanoseconds.
fn capped(wait: u128) -> u64
    ensures { result ≡ min wait greatest_wait }
{
    wait.min(GREATEST_WAIT) as u64
}

/// What is asked for after this attempt, from `now` on, in nanoseconds: what the collector asks
/// for, or else the backoff.
fn asked_ns(
    config: &RetryConfig,
    attempt: u32,
    after: Option<RetryAfter>,
    now: u64,
    word: u64,
) -> u64
    requires first { 1 ≤ attempt }
    requires last { attempt ≤ config.now.attempts }
    ensures { result ≡ asked_ns config.now attempt (option_map retry_after_view after) now word }
{
    match after {
        None => backoff_ms(config, attempt, word) * MILLISECOND,
        Some(RetryAfter::Seconds(seconds)) => capped(u128::from(seconds) * SECOND),
        Some(RetryAfter::Date(date)) => {
            let asked = u128::from(date) * SECOND;
            capped(asked.saturating_sub(u128::from(now)))
        }
    }
}

/// The wait after this attempt, from `now` on, in nanoseconds: what is asked for, or the least.
pub(crate) fn wait_ns(
    config: &RetryConfig,
    attempt: u32,
    after: Option<RetryAfter>,
    now: u64,
    word: u64,
) -> u64
    requires first { 1 ≤ attempt }
    requires last { attempt ≤ config.now.attempts }
    ensures { result ≡ wait_ns config.now attempt (option_map retry_after_view after) now word }
{
    let least = u64::from(config.least_ms()) * MILLISECOND;
    least.max(asked_ns(config, attempt, after, now, word))
}
