//! OTLP's JSON (opentelemetry-proto, "JSON Protobuf Encoding"; Protocol Buffers, "ProtoJSON
//! Format"): what the text of an `ExportTraceServiceRequest` means, as the bytes that a message
//! means in Protocol Buffers.
//!
//! [`read_body`] gives these bytes. So whoever reads bytes reads JSON too: a member of an object is
//! a field, under its number, and what fields mean is said for bytes alone.
//!
//! - Names are in lowerCamelCase. A member of another name is skipped, and so is one that is null.
//! - Identifiers of traces and spans are in hexadecimal, in either case. Other bytes are in Base64,
//!   of either alphabet, with or without padding.
//! - A number is a number or, but for an enumeration, a text that has one. A whole number may have
//!   a point or an exponent, as `1e3`.
//! - A surrogate that is alone, as in `"Ann\ud83d"`, is read as U+FFFD.
//! - A name that comes again in an object means what a field means that comes again in bytes: of
//!   numbers, texts and kinds of values the last counts, messages are merged, lists are joined.
//!
//! The module [`field`] writes members of objects of JSON.
#![tactic(auto)]

mod body;
mod fault;
pub mod field;
mod leaf;
mod mend;
mod names;
mod number;
mod walk;
mod worked;

pub use body::read_body;
pub use fault::{JsonError, JsonFault};
