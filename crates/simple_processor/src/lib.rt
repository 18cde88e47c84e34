//! A simple processor (OpenTelemetry Trace SDK, "Simple processor"): each sampled span is encoded
//! alone at its end, and handed at once to an exporter that threads share under a lock.
//!
//! [`SimpleProcessor::new`] gives a processor and its passes. Each thread ends its spans on a
//! [`SimplePass`] of its own; [`SimpleProcessor::close_out`] takes all passes back, and its
//! contract says what was handed and dropped through them.
#![tactic(auto)]

mod account;
mod export;
mod fault;
mod pass;
mod processor;
mod sender;
mod shared;

pub use account::SimpleBlank;
pub use account_book::Naming;
pub use fault::SimpleFault;
pub use pass::{Flushed, SimplePass};
pub use processor::{SimpleAccounts, SimpleMissing, SimpleParts, SimpleProcessor};
pub use processor_account::MAX_PASSES;
