//! A whole service from the environment: its settings, its exporter over HTTP, its threads, and for
//! each thread what it makes its spans with (OpenTelemetry Specification, "Environment Variable
//! Specification"). [`serve_from_environment`] does all at once, a [`ServiceSetup`] in two steps.
#![tactic(auto)]

mod counts;
mod log;
mod names;
mod setup;
mod source;
mod work;

pub use counts::TracedDone;
pub use log::ServiceLog;
pub use setup::{ServiceSetup, serve_from_environment};
pub use work::{ThreadDone, TracedWork};
