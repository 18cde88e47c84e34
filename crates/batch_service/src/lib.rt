//! A batch processor whose worker has a thread of its own (OpenTelemetry Trace SDK, "Batching
//! processor").
#![tactic(auto)]

mod fault;
mod give;
mod limit;
mod naming;
mod refusal;
mod rest;
mod service;
mod serving;
mod thread;
mod threads;
mod worker;

pub use fault::StartFault;
pub use naming::{NAMED_TOGETHER, NamingPass};
pub use refusal::refusal_of;
pub use service::{MAX_THREADS, PassMissing, Served, Service, Started};
pub use serving::{Done, serve, serve_within};
pub use threads::{Room, ServicePass, Work, work_on_all};
