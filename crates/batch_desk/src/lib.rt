//! The queue of a batch processor (OpenTelemetry Trace SDK, "Batching processor"): the sampled
//! spans that have ended and wait, the batch that is out, the names of those that were dropped,
//! and counts of all of them.
//!
//! A [`Desk`] is what threads share under a lock, but it knows of neither: each of its calls is
//! one step, which the caller takes alone. [`Desk::new`] takes all the memory that it ever needs.
#![tactic(auto)]

mod admitted;
mod batch;
mod config;
mod desk;
mod drained;
mod mark;
mod named;
mod settled;
mod totals;

pub use admitted::Admitted;
pub use batch::Batch;
pub use config::DeskConfig;
pub use desk::Desk;
pub use drained::DrainedNames;
pub use mark::Mark;
pub use named::NamedBatch;
pub use settled::{SettledBatch, loss_reason};
pub use totals::{FateCounts, Totals};
