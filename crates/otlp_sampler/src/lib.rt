//! Samplers, which decide at a span's start whether it is recorded and whether it is exported
//! (OpenTelemetry Trace SDK, "Sampling"). Nothing here takes memory.
//!
//! [`AlwaysOn`] and [`AlwaysOff`] decide alike for all spans, [`ParentBased`] by the parent, and
//! [`TraceIdRatio`] samples a given share of all traces, without floating numbers (OpenTelemetry
//! Trace SDK, "TraceIdRatioBased"; W3C Trace Context level 2, "random-trace-id flag").
//!
//! # A ratio
//!
//! The last 7 bytes of a trace id are a number of 56 bits, the random part of the id. A span is
//! sampled exactly where this number is at least the sampler's threshold, from 0 to 2^56. So a
//! threshold `t` samples `2^56 - t` of the 2^56 numbers, and all spans of a trace get one answer in
//! each service that goes by this rule: what a smaller ratio samples, a greater one samples, too.
//!
//! # Beside other SDKs
//!
//! This is the comparison of W3C Trace Context level 2 and of OpenTelemetry's consistent sampling:
//! a random trace id has 56 random bits, its rightmost ones, and is kept where they are at least
//! the rejection threshold. The samplers by a ratio of the Go and of the Python SDK go by the low
//! 64 bits of the id (Go without the last one), and sample what is below an upper bound. Those
//! rules also read 8 bits of which W3C doesn't ask that they be random. A service with such an SDK
//! samples the same share of traces, but other ones: let roots alone be sampled by a ratio, and all
//! others by their parent (`ParentBased`), and each trace has one decision.
#![tactic(auto)]

mod decimal;
mod fault;
pub mod laws;
mod parents;
mod ratio;
mod sampling;

pub use fault::RatioFault;
pub use parents::ParentBased;
pub use ratio::TraceIdRatio;
pub use sampling::{AlwaysOff, AlwaysOn, Decision, Sampler};
