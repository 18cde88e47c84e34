//! The context of a trace as a request carries it (W3C Trace Context; OpenTelemetry Specification,
//! "Propagators API"): a service reads that of its caller, and hands its own on.
#![tactic(auto)]

mod carrier;
mod digits;
mod keys;
mod pairs;
mod read;
mod state;
mod write;

pub use carrier::{
    Extractor, Injector, TRACEPARENT, TRACESTATE, contexts_are_read_back, extract, fields, inject,
};
pub use read::read_traceparent;
pub use state::read_tracestate;
pub use write::{traceparents_are_read_back, write_traceparent};
