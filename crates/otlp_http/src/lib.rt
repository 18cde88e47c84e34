//! Requests and replies of OTLP over HTTP (OTLP Specification, "OTLP/HTTP"; RFC 9110, RFC 9112), as
//! a client has them: where requests go, a request that is written to a device, a reply that is
//! read from one, and what it means. The devices, and how much of a reply is read, are lent by
//! `http_wire`. Only [`Target::new`], [`HeaderFields::push`] and [`read_reply`] take memory, and the
//! [`FailingWire`] of tests where it is written to.
#![tactic(auto)]

mod head;
mod headers;
mod outcome;
mod persistence;
mod reply;
mod request;
mod target;
mod wait;

pub use headers::{HeaderFault, HeaderFields, MOST_HEADER_BYTES};
pub use http_wire::{
    Counted, DeviceFailed, FailingCalls, FailingWire, FaultRead, FaultWrite, HeadLimits, HttpFault,
    MOST_FIELDS, Stopped,
};
pub use outcome::outcome_of;
pub use reply::{LastingReply, Reply, read_lasting_reply, read_reply};
pub use request::{Coding, Connection, write_request, write_request_for, write_request_in};
pub use target::{DEFAULT_PATH, DEFAULT_PORT, Target, TargetFault};
