//! Runs: a program's steps, from the start of a span to the fate of its batch, over a queue and an
//! exporter (OpenTelemetry Trace API; Trace SDK, "Batching processor").
//!
//! A list of [`Step`]s is all that such a program does, each with its [`Answer`] (`model_run` says
//! what it means). It comes from a script, or from whatever else says a program's calls.
#![tactic(auto)]

mod answer;
mod config;
mod queue;
mod report;
mod running;
mod sending;
mod step;
mod table;
mod text;
mod whole;

pub use answer::Answer;
pub use config::RunConfig;
pub use report::RunReport;
pub use step::{Parent, Step};
pub use table::SpanTable;
pub use text::{write_answers, write_report};
pub use whole::run;
