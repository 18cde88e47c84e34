//! How often a batch is sent, and how long the waits between are.

ghost use Rattle.std.specs.Prelude.{◌≡◌, ◌≤◌, ◌↔◌, IfOk, IsErr};
ghost use Rattle.model_desk.specs.Waits.{IsRetryConfig, longest_ms};
ghost use Rattle.retry_core.specs.Retries.{default_retry, without_least};

use std::marker::Model;
use thiserror::Error;

/// Why settings of retries are refused: a number is out of its range.
#[derive(Error, Debug, Clone, Copy, PartialEq, Eq)]
#[error("bad retry settings: 1 to 5 attempts, a wait of 1 to 30000 ms, the longest to 300000 ms, \
     the least to the longest")]
pub struct BadRetry;

/// How often a batch is sent, and how long the waits between its attempts are (OpenTelemetry
/// Protocol Exporter, "Retry": exponential backoff with jitter; the numbers: profile). In
/// contracts it is the model's `RetryConfig`.
#[derive(Debug, Clone, Copy, PartialEq, Eq)]
pub struct RetryConfig {
    attempts: u32,
    initial_ms: u32,
    max_ms: u32,
    least_ms: u32,
}

impl Model for RetryConfig {
    ghost use Rattle.model_desk.specs.Waits as waits;
    ghost use Rattle.model_desk.specs.Waits.{IsRetryConfig};

    ghost Value = { waits.RetryConfig };

    ghost view = { λ c. record {
      attempts = c.attempts;
      initial_ms = c.initial_ms;
      max_ms = c.max_ms;
      least_ms = c.least_ms;
    } };

    ghost inverse = { λ v. record {
      attempts = v.attempts;
      initial_ms = v.initial_ms;
      max_ms = v.max_ms;
      least_ms = v.least_ms;
    } };

    ghost invariant = { λ c. IsRetryConfig (record {
      attempts = c.attempts;
      initial_ms = c.initial_ms;
      max_ms = c.max_ms;
      least_ms = c.least_ms;
    }) };
}

impl RetryConfig {
    /// A batch is sent at most `attempts` times, 1 to 5. The wait after its first attempt is
    /// `initial_ms` milliseconds at most, 1 to 30,000, after each later one at most twice as long
    /// as after the one before it, and never above `max_ms`, which is from `initial_ms` to
    /// 300,000, where the collector asks for none. There is no least wait. (profile)
    ///
    /// # Errors
    ///
    /// `BadRetry` where a number is out of its range.
    pub fn new(attempts: u32, initial_ms: u32, max_ms: u32) -> Result<RetryConfig, BadRetry>
        ensures value { IfOk result (λ config. config ≡ without_least attempts initial_ms max_ms) }
        ensures valid { IfOk result (λ config. IsRetryConfig config) }
        ensures refused { IsErr result ↔
            ¬ IsRetryConfig (without_least attempts initial_ms max_ms) }
    {
        if !(1..=5).contains(&attempts) {
            return Err(BadRetry);
        }
        if !(1..=30_000).contains(&initial_ms) {
            return Err(BadRetry);
        }
        if !(initial_ms..=300_000).contains(&max_ms) {
            return Err(BadRetry);
        }
        Ok(RetryConfig {
            attempts,
            initial_ms,
            max_ms,
            least_ms: 0,
        })
    }

    /// No wait is shorter than `least_ms` milliseconds, which are `max_ms` at most: neither one
    /// that a random word shortens nor one that the collector asks for, which may be none at all
    /// (`Retry-After: 0`) and would make all attempts at one moment. (profile)
    ///
    /// # Errors
    ///
    /// `BadRetry` where it is above `max_ms`.
    pub fn with_least_wait(self, least_ms: u32) -> Result<RetryConfig, BadRetry>
        ensures value { IfOk result (λ config. config ≡ record self { least_ms = least_ms }) }
        ensures valid { IfOk result (λ config. IsRetryConfig config) }
        ensures refused { IsErr result ↔ ¬ IsRetryConfig (record self { least_ms = least_ms }) }
    {
        if least_ms > self.max_ms {
            return Err(BadRetry);
        }
        Ok(RetryConfig { least_ms, ..self })
    }

    /// A batch is sent once. The waits, of which there is none, are those of the default.
    pub fn single_attempt() -> RetryConfig
        ensures { result ≡ record default_retry { attempts = 1 } }
    {
        RetryConfig {
            attempts: 1,
            initial_ms: 1000,
            max_ms: 30_000,
            least_ms: 0,
        }
    }

    /// How often a batch is sent at most: 1 to 5.
    pub fn attempts(&self) -> u32
        ensures value { result ≡ self.now.attempts }
        ensures valid { IsRetryConfig self.now }
    {
        self.attempts
    }

    /// How long the wait after the first attempt is at most, in milliseconds: 1 to 30,000.
    pub fn initial_ms(&self) -> u32
        ensures { result ≡ self.now.initial_ms }
    {
        self.initial_ms
    }

    /// How long a wait is at most where the collector asks for none, in milliseconds: from
    /// `initial_ms` to 300,000.
    pub fn max_ms(&self) -> u32
        ensures { result ≡ self.now.max_ms }
    {
        self.max_ms
    }

    /// How long a wait is at least, in milliseconds: 0 to `max_ms`.
    pub fn least_ms(&self) -> u32
        ensures value { result ≡ self.now.least_ms }
        ensures bounded { result ≤ 300000 }
    {
        self.least_ms
    }

    /// The most that is waited after this attempt, in milliseconds, where the collector asks for
    /// no wait.
    pub(crate) fn longest_ms(&self, attempt: u32) -> u64
        requires first { 1 ≤ attempt }
        requires last { attempt ≤ self.now.attempts }
        ensures value { result ≡ longest_ms self.now attempt }
        ensures bounded { result ≤ 300000 }
    {
        let longest = u64::from(self.initial_ms) * 2_u64.pow(attempt - 1);
        longest.min(u64::from(self.max_ms))
    }
}

impl Default for RetryConfig {
    ghost use Rattle.std.specs.Prelude.{◌≡◌};
    ghost use Rattle.retry_core.specs.Retries.{default_retry};

    ghost is_default = { λ config. config ≡ default_retry };

    /// Five attempts; the first wait is 1000 ms at most, none is above 30,000 ms that the
    /// collector doesn't ask for, and there is no least wait. (profile)
    fn default() -> RetryConfig {
        RetryConfig {
            attempts: 5,
            initial_ms: 1000,
            max_ms: 30_000,
            least_ms: 0,
        }
    }
}
