//! Requests and replies of OTLP over HTTP (OTLP Specification, "OTLP/HTTP"; RFC 9110, RFC 9112), as
//! a collector has them: a request that is read from a device, what it is answered, and a reply
//! that is written to one. The devices, and how much of a request is read, are lent by `http_wire`.
//! Of these only [`read_post`] takes memory. A [`Collector`] does it all, over TCP.
#![tactic(auto)]

mod answer;
mod coding;
mod collector;
mod fault;
mod head;
mod post;
mod reply;
mod status;

pub use answer::{coding_of, refusal_of, refusal_with_gzip};
pub use coding::ContentCoding;
pub use collector::{Collector, TakeBody};
pub use fault::PostFault;
pub use http_wire::{
    Counted, DeviceFailed, FaultRead, FaultWrite, HeadLimits, HttpFault, MOST_FIELDS, Stopped,
};
pub use post::{Post, read_post};
pub use reply::{PostReply, write_reply};
pub use status::ReplyStatus;
