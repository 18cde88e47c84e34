//! Requests of HTTP with spans (OpenTelemetry Semantic Conventions, "HTTP spans"): [`server`] answers
//! each request within a span, [`client`] sends each within one.
#![tactic(auto)]

pub mod client;
mod method;
mod query;
pub mod server;
mod span;

pub use method::KnownMethods;
