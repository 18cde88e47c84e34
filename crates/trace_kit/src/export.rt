//! The messages of OTLP's trace exports (opentelemetry-proto: trace_service.proto), written by
//! [`body_of`] and read by [`read_response`]; the [`Exporter`] that each batch is handed to; and
//! what follows from an attempt to send it (OTLP Specification, "OTLP/HTTP Response").
pub use otlp_proto::{
    DEFAULT_MAX_BODY, EncodeFault, ResourceGroup, ScopeGroup, body_of, encode, group,
};
pub use otlp_wire::{
    PartialSuccess, ReadFault, Response, WireFault, read_rejected_spans, read_response,
};
pub use retry_core::{BadRetry, Cause, Next, Outcome, RetryAfter, RetryConfig, decide};
pub use span_exporter::{Exporter, Handed, MemoryExporter};
