//! A server of HTTP whose requests have spans (OpenTelemetry Semantic Conventions, "HTTP spans"): each
//! request that a [`Handler`] answers gets one span of the kind server, a child of what the request
//! carried, which the handler is lent as a [`RequestSpan`]. [`TracedService`] is the service that
//! `http_server::serve` takes.

mod attributes;
mod carrier;
mod handler;
mod lending;
mod name;
mod request_span;
mod service;
mod start;

pub use handler::Handler;
pub use request_span::{Origin, RequestSpan};
pub use service::TracedService;
pub use start::{ServerName, Tracing};
