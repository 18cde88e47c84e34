//! Worked examples of what an SDK does with ended spans and of what goes over HTTP, with texts and
//! values that were written out by hand. The checker computes what the definitions make of each,
//! and compares.
//!
//! - Queues, processors and whole runs (crates `model_desk`, `model_processor` and `model_run`);
//!   batches on their way (`batch_sending`); what keeps a service from being started
//!   (`batch_service`).
//! - Requests and replies of OTLP over HTTP (`http_wire`, `otlp_http` and `otlp_serve`), and the
//!   context of a trace in a request (`trace_context`).
//! - Requests with spans (`http_client`, `traced_http`): their texts, what their spans say, and the
//!   queries of URLs without their secrets.
//! - Settings, the texts of resource attributes and of headers (`otel_settings`).
//! - What the bodies of posts of spans mean as bytes (`otlp_receiver`), and what reading them takes
//!   (`otlp_read`).
//! - Sampling by a ratio (`otlp_sampler`): thresholds, trace ids and texts.
//!
//! Each function without an argument is a group of examples. Its clauses are the examples, and it
//! does nothing when it is called.
//!
//! In the examples of the queue and of processors (`drops`, `moments`, `passes`, `queues`, `waits`,
//! `workers`) spans are named by their tickets, and queues are made at moment 0. In those of runs
//! spans are named a, of scope s and of kind internal, from 1 to 2. The first one is a root, whose
//! trace has the words 1 and 2, and its own word is 3; the others are its children, of the words 4,
//! 5 and so on. Batches have two spans, and the delay is 5000 ms.
#![tactic(auto)]

pub mod batches;
pub mod chunks;
pub mod client;
pub mod contents;
pub mod contexts;
pub mod devices;
pub mod drops;
pub mod ends;
pub mod fields;
pub mod headers;
pub mod moments;
pub mod outcomes;
pub mod passes;
pub mod places;
pub mod posts;
pub mod queries;
pub mod queues;
pub mod ratios;
pub mod readings;
pub mod refusals;
pub mod replies;
pub mod requests;
pub mod resources;
pub mod retried;
pub mod retries;
pub mod sendings;
pub mod server;
pub mod settings;
pub mod starts;
pub mod takes;
pub mod targets;
pub mod waits;
pub mod whole;
pub mod workers;
pub mod wrong;
