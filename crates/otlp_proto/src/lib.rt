//! The messages of OTLP's trace exports, as Protocol Buffers write them (opentelemetry-proto:
//! trace_service.proto, trace.proto, common.proto, resource.proto). Spans come by resource and
//! scope, as a request has them (ResourceSpans, ScopeSpans).
#![tactic(auto)]

mod body;
mod encoder;
mod groups;
mod keyed;

pub use body::body_of;
pub use encoder::{DEFAULT_MAX_BODY, EncodeFault, encode};
pub use groups::{ResourceGroup, ScopeGroup, group};
