//! How often a batch is sent.
ghost use Rattle.std.specs.Prelude.{◌≡◌, ◌≤◌};
ghost use Rattle.retry_core.specs.Retries.{next_view, outcome_view};
ghost use Rattle.relay_queue.specs.Senders.{GoesOn, is_last, next_by};
ghost use Rattle.relay_queue.specs.Views.{config_view};

use retry_core::{Next, Outcome, RetryConfig, decide};

/// How often a batch is sent, and how long the waits between its attempts are (OTLP Specification,
/// "Retry"; profile).
#[derive(Debug, Clone, Copy, PartialEq, Eq)]
pub struct SendConfig {
    /// The waits between attempts. After as many attempts as it allows, but one, they get no
    /// longer. It ends no batch, unless it allows a single attempt: then there is no other.
    pub retry: RetryConfig,
    /// How often a batch is sent at most: after so many attempts it is given up. `None` where it is
    /// sent until it ends. 0 is as 1.
    pub attempts: Option<u32>,
}

impl SendConfig {
    /// Whether the attempt after which there were so many is the last one.
    fn is_last(&self, made: u32) -> bool
        ensures { result ≡ is_last (config_view self.now) made }
    {
        if self.retry.attempts() <= 1 {
            return true;
        }
        match self.attempts {
            None => false,
            Some(most) => most <= made,
        }
    }

    /// What follows from the outcome of the attempt after which there were so many.
    pub(crate) fn next(&self, made: u32, outcome: &Outcome, now: u64, word: u64) -> Next
        requires { 1 ≤ made }
        ensures next { next_view result
            ≡ next_by (config_view self.now) made (outcome_view outcome.now) now word }
        ensures goes_on { GoesOn (config_view self.now) (next_view result) }
    {
        if self.is_last(made) {
            return decide(&self.retry, self.retry.attempts(), outcome, now, word);
        }
        let attempt = made.min(self.retry.attempts() - 1);
        decide(&self.retry, attempt, outcome, now, word)
    }
}

impl Default for SendConfig {
    ghost use Rattle.std.specs.Prelude.{◌≡◌, None};
    ghost use Rattle.retry_core.specs.Retries.{default_retry};
    ghost use Rattle.relay_queue.specs.Views.{config_view};

    ghost is_default = { λ config. config_view config
        ≡ record { retry = default_retry; attempts = None } };

    /// The waits of `RetryConfig::default`, and no last attempt.
    fn default() -> SendConfig {
        SendConfig {
            retry: RetryConfig::default(),
            attempts: None,
        }
    }
}
