//! What ended spans go to: a batch processor or a simple one, with a pass for each thread.
//!
//! A [`BatchProcessor`] (OpenTelemetry Trace SDK, "Batching processor") queues spans, which the
//! [`WorkerPass`] of one thread hands to an exporter in batches. A [`SimpleProcessor`] ("Simple
//! processor") encodes each span alone and hands it over at once, under a lock. Either has at most
//! [`MAX_PASSES`] passes.
//!
//! The short way is [`serve`]: it starts a [`Service`], a batch processor whose worker has a thread
//! of its own, does the [`Work`] of each thread, and stops the service. [`serve_within`] stops it
//! in a time, whatever its exporter meets. The names of dropped and lost spans go to a
//! [`NameSink`](crate::queue::NameSink).
pub use batch_processor::{
    Accounts, BatchBlank, BatchConfig, BatchProcessor, Clock, Flushed, MAX_PASSES, ManualClock,
    Missing, Naming, NewFault, Parts, Pass, SystemClock, WorkEnd, WorkerLeft, WorkerPass,
};
pub use batch_service::{
    Done, MAX_THREADS, NamingPass, PassMissing, Room, Served, Service, ServicePass, StartFault,
    Started, Work, refusal_of, serve, serve_within, work_on_all,
};
pub use simple_processor::{
    Flushed as SimpleFlushed, SimpleAccounts, SimpleBlank, SimpleFault, SimpleMissing, SimpleParts,
    SimplePass, SimpleProcessor,
};
