//! What follows from an attempt to send a batch of spans, and when it is sent again (OTLP
//! Specification, "OTLP/HTTP Response", "OTLP/HTTP Throttling"). Nothing here takes memory.
#![tactic(auto)]

mod config;
mod fate;
mod next;
mod outcome;
mod wait;

pub use config::{BadRetry, RetryConfig};
pub use fate::Fate;
pub use next::{Cause, Next, decide};
pub use outcome::{Outcome, RetryAfter};
