//! One server connection of HTTP/1.1 with no IO of its own (RFC 9112): requests are judged by their
//! head before their body is taken, long bodies of responses go out in pieces, and what is refused
//! is answered so that the answer arrives.
//!
//! A [`Connection`] reads what a [`Service`] has to answer from bytes that the caller reads, and
//! keeps the bytes that the caller is to write. [`say_date`] gives a response the field
//! `Date`, which a server with a clock sends.
#![tactic(auto)]

mod connection;
mod date;
mod encode;
mod input;
mod limits;
mod output;
mod service;
mod steps;

pub use connection::Connection;
pub use date::say_date;
pub use limits::{Limits, Phase, Refusal};
pub use service::{Gathers, Pieces, Service};
