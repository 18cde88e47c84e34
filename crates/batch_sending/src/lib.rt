//! How a batch is sent (OpenTelemetry Trace SDK, "Span Exporter"; OTLP Specification, "OTLP/HTTP
//! Response", "Retry"): its body is prepared once, handed to an exporter in attempts, and each
//! attempt is judged by its outcome, until no other follows. A [`Sending`] knows neither queues nor
//! threads nor clocks: whoever has the batch says when to go on.
#![tactic(auto)]

mod answers;
mod sending;

pub use answers::{Attempted, Judged};
pub use sending::Sending;
