//! A reader of the fields of a message (Protocol Buffers, "Encoding").

ghost use Rattle.std.specs.Prelude.{◌≡◌, ◌<◌};
ghost use Rattle.model_message.specs.Wire;
ghost use Rattle.model_message.specs.Wire.{row};
ghost use Rattle.otlp_wire.specs.Fields.{front_of, payload_of, field_of, ArePartsOf};

use std::iter::FusedIterator;
use std::marker::Model;
use thiserror::Error;

/// What is in the place of a field where none does (Protocol Buffers, Encoding, "Message
/// Structure"). A tag's number is reported before its wire type, and both before a payload's fault.
#[derive(Error, Debug, Clone, Copy, PartialEq, Eq)]
pub enum WireFault {
    /// A proper beginning of a field, which the end of the bytes cuts off.
    #[error("a field runs past the end")]
    Truncated,
    /// Ten bytes of at least 128 where a varint should be.
    #[error("a varint has more than ten bytes")]
    LongVarint,
    /// A tag whose field number is 0 or above 2^29 - 1.
    #[error("a field number is out of range")]
    BadNumber,
    /// A tag of wire type 3 or 4: groups are not read. (profile)
    #[error("a group begins or ends")]
    Group,
    /// A tag of wire type 6 or 7, which there are not.
    #[error("a wire type is unknown")]
    BadWireType,
}

/// What a field holds, named by its wire type (Protocol Buffers, Encoding, "Message Structure").
#[derive(Debug, Clone, Copy, PartialEq, Eq)]
pub enum Payload<'a> {
    /// Wire type 0: the low 64 bits of a varint.
    Varint(u64),
    /// Wire type 1: 8 bytes, the lowest first.
    I64(u64),
    /// Wire type 2: the bytes after their length.
    Len(&'a [u8]),
    /// Wire type 5: 4 bytes, the lowest first.
    I32(u32),
}

/// A field of a message (Protocol Buffers, Encoding, "Message Structure").
#[derive(Debug, Clone, Copy, PartialEq, Eq)]
pub struct Field<'a> {
    /// The field's number, 1 to 2^29 - 1.
    pub number: u32,
    /// What it holds.
    pub payload: Payload<'a>,
}

/// The varint at the front, of ten bytes at most, and the bytes after it. One of a single byte,
/// which most are, is read in place.
#[inline(always)]
fn read_varint(bytes: &[u8]) -> Result<(u64, &[u8]), WireFault>
    ensures { front_of (λ n. n) result ≡ Wire.number bytes.now }
{
    match bytes.split_first() {
        Some((byte, rest)) if *byte < 128 => Ok((u64::from(*byte), rest)),
        _ => read_groups(bytes),
    }
}

/// The same, a group of seven bits after the other.
fn read_groups(bytes: &[u8]) -> Result<(u64, &[u8]), WireFault>
    ensures { front_of (λ n. n) result ≡ Wire.number bytes.now }
{
    let mut value: u128 = 0;
    let mut scale: u128 = 1;
    for i in 0..10 {
        let Some(byte) = bytes.get(i) else {
            return Err(WireFault::Truncated);
        };
        value += u128::from(*byte % 128) * scale;
        scale *= 128;
        if *byte < 128 {
            return Ok(((value % (1 << 64)) as u64, &bytes[i + 1..]));
        }
    }
    Err(WireFault::LongVarint)
}

/// So many bytes after their length, and the bytes after them.
fn read_counted(bytes: &[u8]) -> Result<(&[u8], &[u8]), WireFault>
    ensures { front_of (λ content. content.now) result ≡ Wire.counted_bytes bytes.now }
{
    let (count, rest) = read_varint(bytes)?;
    rest.split_at_checked(count as usize)
        .ok_or(WireFault::Truncated)
}

/// The payload of the wire type, and the bytes after it.
#[tactic(auto, unfolding(model_message::specs::Wire::payload))]
fn read_payload(wire_type: u64, bytes: &[u8]) -> Result<(Payload<'_>, &[u8]), WireFault>
    requires { wire_type < 8 }
    ensures { front_of payload_of result ≡ Wire.payload wire_type bytes.now }
{
    match wire_type {
        0 => {
            let (value, rest) = read_varint(bytes)?;
            Ok((Payload::Varint(value), rest))
        }
        1 => {
            let (value, rest) = bytes.split_first_chunk().ok_or(WireFault::Truncated)?;
            Ok((Payload::I64(u64::from_le_bytes(*value)), rest))
        }
        2 => {
            let (content, rest) = read_counted(bytes)?;
            Ok((Payload::Len(content), rest))
        }
        5 => {
            let (value, rest) = bytes.split_first_chunk().ok_or(WireFault::Truncated)?;
            Ok((Payload::I32(u32::from_le_bytes(*value)), rest))
        }
        3 | 4 => Err(WireFault::Group),
        _ => Err(WireFault::BadWireType),
    }
}

/// The field at the front, and the bytes after it.
#[inline(always)]
#[tactic(auto, unfolding(model_message::specs::Wire::field))]
fn read_field(bytes: &[u8]) -> Result<(Field<'_>, &[u8]), WireFault>
    ensures { front_of field_of result ≡ Wire.field bytes.now }
{
    let (tag, rest) = read_varint(bytes)?;
    let number = tag / 8;
    if number == 0 || number >= 1 << 29 {
        return Err(WireFault::BadNumber);
    }
    let (payload, rest) = read_payload(tag % 8, rest)?;
    let number = number as u32;
    Ok((Field { number, payload }, rest))
}

/// The fields of a message, in order, each read where it is asked for (Protocol Buffers, Encoding,
/// "Message Structure"). It takes no memory, and what a field holds is a part of the bytes.
///
/// # Errors
///
/// A `WireFault` in the place of the first field that can't be read. Nothing comes after it.
#[derive(Debug, Drop)]
pub struct Fields<'a> {
    unread: &'a [u8],
}

impl<'a> Model for Fields<'a> {
    ghost use Rattle.std.specs.Prelude.{List};
    ghost use Rattle.model_message.specs.Reading.{Reading};
    ghost use Rattle.model_message.specs.Wire.{Field, row};

    ghost Value = { Reading (List Field) };

    ghost view = { λ fields. row fields.unread.now };
}

impl<'a> Fields<'a> {
    /// The fields of these bytes.
    pub fn new(source: &'a [u8]) -> Fields<'a>
        ensures whole { result ≡ row source.now }
        ensures parts { ArePartsOf source.now result.value }
    {
        Fields { unread: source }
    }
}

impl<'a> Iterator for Fields<'a> {
    type Item = Result<Field<'a>, WireFault>;

    ghost use Rattle.otlp_wire.specs.Fields.{GivesField, outcome_count};

    ghost next_gives = { GivesField };

    ghost remaining = { outcome_count };

    fn next(&mut self) -> Option<Result<Field<'a>, WireFault>> {
        if self.unread.is_empty() {
            return None;
        }
        match read_field(self.unread) {
            Ok((field, rest)) => {
                self.unread = rest;
                Some(Ok(field))
            }
            Err(fault) => {
                self.unread = &self.unread[..0];
                Some(Err(fault))
            }
        }
    }
}

impl<'a> FusedIterator for Fields<'a> {}
