//! A batch processor (OpenTelemetry Trace SDK, "Batching processor"): threads end their spans on
//! passes of their own, which queue them under one lock; a worker takes them in batches, encodes
//! each once, and hands it to an exporter, again as the replies ask.
#![tactic(auto)]

mod account;
mod config;
mod fault;
mod lock;
mod pass;
mod processor;
mod steps;
mod worker;

pub use account::BatchBlank;
pub use account_book::Naming;
pub use config::BatchConfig;
pub use fault::{NewFault, WorkerLeft};
pub use pass::{Flushed, Pass};
pub use processor::{Accounts, BatchProcessor, Missing, Parts};
pub use processor_account::MAX_PASSES;
pub use trace_api::{Clock, ManualClock, SystemClock};
pub use worker::{WorkEnd, WorkerPass};
