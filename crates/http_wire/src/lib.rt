//! What both sides of OTLP over HTTP share (RFC 9110, RFC 9112). The client's side is `otlp_http`,
//! the collector's `otlp_serve`; each lends its users what they name of this crate.
//!
//! - [`FaultRead`] and [`FaultWrite`] are devices that count their failures.
//! - [`read_head`] reads the head of a message, of whatever kind implements [`ParseHead`] (RFC
//!   9112, sections 2 to 5). [`HeadPlace`] says where a head is parsed, [`HeadLimits`] how much of
//!   it is read, and [`HttpFault`] why there is none.
//! - [`keep_fields`] and [`content_length`] read the fields of a head, [`is_digits`] and
//!   [`read_length`] a number in one, and [`read_body`] reads the body.
//! - [`write_pieces`] writes a text piece by piece, and [`Front`] gathers its beginning for one
//!   write.
#![tactic(auto)]

mod body;
mod chunk;
mod device;
mod fault;
mod fields;
mod front;
mod head;
mod limits;
mod place;
mod transfer;
mod wire;

pub use body::{Framing, framing_by_fields, read_body, request_framing};
pub use device::{Counted, DeviceFailed, FaultRead, FaultWrite};
pub use fault::HttpFault;
pub use fields::{content_length, is_digits, keep_fields, read_length};
pub use front::{FRONT_ROOM, Front};
pub use head::{ParseHead, read_head};
pub use limits::{HeadLimits, MOST_FIELDS};
pub use place::HeadPlace;
pub use transfer::{Stopped, read_byte, write_pieces};
pub use wire::{FailingCalls, FailingWire};
