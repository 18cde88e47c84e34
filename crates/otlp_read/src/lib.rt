//! Requests of OTLP's trace exports that are read from what Protocol Buffers have on the wire
//! ("Encoding"; opentelemetry-proto, trace_service.proto). What doesn't count is not looked into:
//! fields that are unknown or of another wire type, and the texts that a later one replaces.
//! [`request_size`] says beforehand how much memory the reading of a request takes.
#![tactic(auto)]

mod any_value;
mod memory;
mod request;
mod resource;
mod span;
mod triple;

pub use any_value::AnyValue;
pub use memory::request_size;
pub use otlp_wire::ReadFault;
pub use request::{Request, ResourceSpans, ScopeSpans, read_request};
pub use resource::{InstrumentationScope, Resource};
pub use span::{Event, Link, Span, Status};
pub use triple::Triple;
