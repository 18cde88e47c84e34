//! Spans while they are recorded, and when they have ended (OpenTelemetry Trace API, "Span"; Trace
//! SDK, "Span Limits").
#![tactic(auto)]

mod body;
mod calls;
mod data;
mod kept;
mod pairs;
mod parts;
mod reason;
mod record;
mod resource;
mod slip;

pub use calls::replay;
pub use data::{SpanData, SpanRemains};
pub use parts::{Event, Kind, Link, Open, Resource, Scope, SpanCall, SpanLimits, Status};
pub use reason::Reason;
pub use record::SpanRecord;
pub use slip::{Entries, Entry, Slip};
