//! What a relay hands its batches to: an exporter over another one, which tells a body that a
//! collector refuses from a collector that refuses whatever it is sent (OTLP Specification,
//! "OTLP/HTTP Response"; profile).
//!
//! The first is lost, by name. The second is an outage: nothing is lost, and what waits is sent
//! again once the collector takes requests.
#![tactic(auto)]

mod exporter;
mod judge;
mod kind;

pub use exporter::OutageExporter;
