//! The context of a trace in the fields of a request (W3C Trace Context; OpenTelemetry
//! Specification, "Propagators API"): [`extract`] reads that of the caller, [`inject`] hands one
//! on.
pub use trace_context::{
    Extractor, Injector, TRACEPARENT, TRACESTATE, contexts_are_read_back, extract, fields, inject,
    read_traceparent, read_tracestate, traceparents_are_read_back, write_traceparent,
};
