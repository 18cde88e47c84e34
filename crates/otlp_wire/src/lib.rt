//! Messages of OTLP as Protocol Buffers have them on the wire ("Encoding"): what writes the
//! payloads of their fields, and what reads any message by its table.
//!
//! - The writers append a payload to a vector, which is unchanged if it can't grow, or put it at a
//!   place of a slice that has room.
//! - [`Fields`] reads the fields of a message one by one. [`gather_all`] reads the whole of one
//!   into a type that implements [`GatherFields`].
//! - [`read_response`] and [`write_response`] have the answer of a collector to a trace export
//!   (opentelemetry-proto, trace_service.proto), [`read_status_message`] the message of one that
//!   refuses it (google/rpc/status.proto).
//!
//! The `take` of a [`GatherFields`] keeps what counts of the fields: a number by [`last_varint`],
//! [`last_fixed64`] or [`last_fixed32`], a text or bytes by [`last_bytes`], a message by
//! [`gather_in`], and the messages of a repeated field by [`push_message`]. What doesn't count is
//! not looked into: fields that are unknown or of another wire type, and texts that a later one
//! replaces.
#![tactic(auto)]

mod content;
mod fault;
mod gather;
mod payloads;
mod places;
mod reader;
mod response;
mod response_writer;

ghost use Rattle.std.specs.Prelude.{◌≡◌, ◌+◌, ◌-◌, ◌≤◌, ◌<◌, ◌++◌, length, OnOk, OnErr, IsOk};
ghost use Rattle.std.specs.Prelude.{vec_len, vec_capacity};
ghost use Rattle.model_message.specs.Wire;
ghost use Rattle.model_message.specs.Canon.{shortest, payload_bytes};
ghost use Rattle.otlp_wire.specs.Writing.{Appends, FitsCapacity, IsLeastSize, IsReachedSize};

pub use content::{copy_bytes, read_text};
pub use fault::ReadFault;
pub use gather::{GatherFields, gather_all, gather_in, push_message};
use otlp_ids::OutOfMemory;
pub use payloads::{bytes_in, last_bytes, last_fixed32, last_fixed64, last_varint, low_32_bits};
pub use places::{put_bytes, put_fixed32, put_fixed64, put_varint};
pub use reader::{Field, Fields, Payload, WireFault};
pub use response::{
    PartialSuccess, Response, read_partial_bytes, read_rejected_spans, read_response,
    read_status_message,
};
pub use response_writer::write_response;
use std::alloc::Allocator;

/// How many bytes the shortest varint of the value has, 1 to 10 (Protocol Buffers, Encoding, "Base
/// 128 Varints").
pub fn varint_size(value: u64) -> usize
    ensures least { IsLeastSize value result }
    ensures reached { IsReachedSize value result }
    ensures size { result ≡ length (shortest value) }
    ensures positive { 0 < result }
    ensures at_most_ten { result ≤ 10 }
{
    let mut size = 1;
    let mut uncounted = value;
    while uncounted >= 128 {
        uncounted /= 128;
        size += 1;
    }
    size
}

/// Appends the payload of a field of wire type VARINT, in `varint_size(value)` bytes, the fewest
/// that spell it (Protocol Buffers, Encoding, "Base 128 Varints").
///
/// # Errors
///
/// `OutOfMemory` where there was no room and the vector could not grow. It then holds what it held.
#[tactic(auto, unfolding(model_message::specs::Canon::payload_bytes))]
pub fn write_varint<A: Allocator>(out: &mut Vec<u8, A>, value: u64) -> Result<(), OutOfMemory>
    ensures spelled { OnOk result (Appends (Wire.varint value) out.old.items out.new.items) }
    ensures canonical { OnOk result
        (out.new.items ≡ out.old.items ++ payload_bytes (Wire.varint value)) }
    ensures size { OnOk result (vec_len out.new ≡ vec_len out.old + length (shortest value)) }
    ensures least { OnOk result (IsLeastSize value (vec_len out.new - vec_len out.old)) }
    ensures unchanged { OnErr result (out.new.items ≡ out.old.items) }
    ensures in_room { FitsCapacity (Wire.varint value) out.old → IsOk result }
    ensures capacity { vec_capacity out.old ≤ vec_capacity out.new }
{
    out.reserve(varint_size(value))?;
    push_varint(out, value);
    Ok(())
}

// Appends the shortest varint of the value, where there is room for it.
fn push_varint<A: Allocator>(out: &mut Vec<u8, A>, value: u64)
    requires { FitsCapacity (Wire.varint value) out.old }
    ensures canonical { out.new.items ≡ out.old.items ++ payload_bytes (Wire.varint value) }
    ensures capacity { vec_capacity out.new ≡ vec_capacity out.old }
{
    let mut unwritten = value;
    while unwritten >= 128 {
        out.push_reserved((unwritten % 128) as u8 + 128);
        unwritten /= 128;
    }
    out.push_reserved(unwritten as u8);
}

/// Appends the payload of a field of wire type I64: 8 bytes, the lowest first (Protocol Buffers,
/// Encoding, "Non-varint Numbers").
///
/// # Errors
///
/// `OutOfMemory` where there was no room and the vector could not grow. It then holds what it held.
#[tactic(auto, unfolding(model_message::specs::Canon::payload_bytes))]
pub fn write_fixed64<A: Allocator>(out: &mut Vec<u8, A>, value: u64) -> Result<(), OutOfMemory>
    ensures spelled { OnOk result (Appends (Wire.i64 value) out.old.items out.new.items) }
    ensures canonical { OnOk result
        (out.new.items ≡ out.old.items ++ payload_bytes (Wire.i64 value)) }
    ensures unchanged { OnErr result (out.new.items ≡ out.old.items) }
    ensures in_room { FitsCapacity (Wire.i64 value) out.old → IsOk result }
    ensures capacity { vec_capacity out.old ≤ vec_capacity out.new }
{
    let bytes: [u8; 8] = value.to_le_bytes();
    out.extend_from_slice(&bytes)?;
    Ok(())
}

/// Appends the payload of a field of wire type I32: 4 bytes, the lowest first (Protocol Buffers,
/// Encoding, "Non-varint Numbers").
///
/// # Errors
///
/// `OutOfMemory` where there was no room and the vector could not grow. It then holds what it held.
#[tactic(auto, unfolding(model_message::specs::Canon::payload_bytes))]
pub fn write_fixed32<A: Allocator>(out: &mut Vec<u8, A>, value: u32) -> Result<(), OutOfMemory>
    ensures spelled { OnOk result (Appends (Wire.i32 value) out.old.items out.new.items) }
    ensures canonical { OnOk result
        (out.new.items ≡ out.old.items ++ payload_bytes (Wire.i32 value)) }
    ensures unchanged { OnErr result (out.new.items ≡ out.old.items) }
    ensures in_room { FitsCapacity (Wire.i32 value) out.old → IsOk result }
    ensures capacity { vec_capacity out.old ≤ vec_capacity out.new }
{
    let bytes: [u8; 4] = value.to_le_bytes();
    out.extend_from_slice(&bytes)?;
    Ok(())
}

/// Appends the payload of a field of wire type LEN: how many bytes there are, as the shortest
/// varint, and the bytes (Protocol Buffers, Encoding, "Length-Delimited Records").
///
/// # Errors
///
/// `OutOfMemory` where there was no room and the vector could not grow. It then holds what it held.
#[tactic(auto, unfolding(model_message::specs::Canon::payload_bytes))]
pub fn write_len<A: Allocator>(out: &mut Vec<u8, A>, bytes: &[u8]) -> Result<(), OutOfMemory>
    ensures spelled { OnOk result (Appends (Wire.len bytes.now) out.old.items out.new.items) }
    ensures canonical { OnOk result
        (out.new.items ≡ out.old.items ++ payload_bytes (Wire.len bytes.now)) }
    ensures unchanged { OnErr result (out.new.items ≡ out.old.items) }
    ensures in_room { FitsCapacity (Wire.len bytes.now) out.old → IsOk result }
    ensures capacity { vec_capacity out.old ≤ vec_capacity out.new }
{
    let length = bytes.len() as u64;
    out.reserve(varint_size(length) + bytes.len())?;
    push_varint(out, length);
    out.extend_from_slice(bytes)?;
    Ok(())
}
