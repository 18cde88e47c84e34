//! Traces and counts for programs, as JSON.
//!
//! `TraceJson` writes a trace as OTLP's JSON has it (opentelemetry-proto, "JSON Protobuf
//! Encoding"), in pieces; `write_traces` writes a list of traces, and `write_stats` what is
//! counted. What a reader of JSON sees of them is what the definitions say.
#![tactic(auto)]

mod list;
mod part;
mod pieces;
mod span;
mod trace;
mod value;
mod worked;

pub use list::{Stats, write_stats, write_traces};
pub use pieces::TraceJson;
