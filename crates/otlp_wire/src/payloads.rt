//! The payload of a field, where it is this one of a table.

ghost use Rattle.std.specs.Prelude.{◌≡◌, ◌%◌, ◌^◌, ◌++◌, List, [], ◌∷◌};
ghost use Rattle.std.specs.Option.{option_map, option_to_list};
ghost use Rattle.model_message.specs.Wire;
ghost use Rattle.model_message.specs.Tables.{Shape};
ghost use Rattle.model_message.specs.Messages as messages;
ghost use Rattle.model_message.specs.Messages.{wire, payloads};
ghost use Rattle.otlp_wire.specs.Fields.{field_of};

use crate::{Field, Payload};

/// The number of the field, where it has this number and is a varint.
pub(crate) fn varint_in(field: Field<'_>, number: u32) -> Option<u64>
    ensures { (s : Shape) → wire s ≡ 0 →
        payloads number s (field_of field.entry ∷ []) ≡
        option_to_list (option_map Wire.varint result) }
{
    let Payload::Varint(value) = field.payload else {
        return None;
    };
    if field.number != number {
        return None;
    }
    Some(value)
}

/// The bytes of the field, where it has this number and is length-delimited: a text, bytes or a
/// message (Protocol Buffers, Encoding, "Length-Delimited Records").
pub fn bytes_in<'a>(field: Field<'a>, number: u32) -> Option<&'a [u8]>
    ensures { (s : Shape) → wire s ≡ 2 →
        payloads number s (field_of field.entry ∷ []) ≡
        option_to_list (option_map (λ bytes. Wire.len bytes.now) result) }
{
    let Payload::Len(bytes) = field.payload else {
        return None;
    };
    if field.number != number {
        return None;
    }
    Some(bytes)
}

/// The last bytes under this number, where those before the field are these, which are empty before
/// the first one (Protocol Buffers, Encoding, "Last One Wins").
pub fn last_bytes<'a>(before: &'a [u8], field: Field<'a>, number: u32) -> &'a [u8]
    ensures { (s : Shape) → wire s ≡ 2 → (fields : List Wire.Field) →
        before.now ≡ messages.last_bytes (payloads number s fields) →
        result.now ≡ messages.last_bytes (payloads number s (fields ++ field_of field.entry ∷ [])) }
{
    bytes_in(field, number).unwrap_or(before)
}

/// The last varint under this number, where the one before the field is this, which is 0 before the
/// first one (Protocol Buffers, Encoding, "Last One Wins").
pub fn last_varint(before: u64, field: Field<'_>, number: u32) -> u64
    ensures { (s : Shape) → wire s ≡ 0 → (fields : List Wire.Field) →
        before ≡ messages.last_number (payloads number s fields) →
        result ≡ messages.last_number (payloads number s (fields ++ field_of field.entry ∷ [])) }
{
    varint_in(field, number).unwrap_or(before)
}

/// The number of the field, where it has this number and is 8 bytes.
fn fixed64_in(field: Field<'_>, number: u32) -> Option<u64>
    ensures { (s : Shape) → wire s ≡ 1 →
        payloads number s (field_of field.entry ∷ []) ≡
        option_to_list (option_map Wire.i64 result) }
{
    let Payload::I64(value) = field.payload else {
        return None;
    };
    if field.number != number {
        return None;
    }
    Some(value)
}

/// The last number of 8 bytes under this number, where the one before the field is this, which is 0
/// before the first one (Protocol Buffers, Encoding, "Last One Wins").
pub fn last_fixed64(before: u64, field: Field<'_>, number: u32) -> u64
    ensures { (s : Shape) → wire s ≡ 1 → (fields : List Wire.Field) →
        before ≡ messages.last_number (payloads number s fields) →
        result ≡ messages.last_number (payloads number s (fields ++ field_of field.entry ∷ [])) }
{
    fixed64_in(field, number).unwrap_or(before)
}

/// The number of the field, where it has this number and is 4 bytes.
fn fixed32_in(field: Field<'_>, number: u32) -> Option<u32>
    ensures { (s : Shape) → wire s ≡ 5 →
        payloads number s (field_of field.entry ∷ []) ≡
        option_to_list (option_map Wire.i32 result) }
{
    let Payload::I32(value) = field.payload else {
        return None;
    };
    if field.number != number {
        return None;
    }
    Some(value)
}

/// The last number of 4 bytes under this number, where the one before the field is this, which is 0
/// before the first one (Protocol Buffers, Encoding, "Last One Wins").
pub fn last_fixed32(before: u32, field: Field<'_>, number: u32) -> u32
    ensures { (s : Shape) → wire s ≡ 5 → (fields : List Wire.Field) →
        before ≡ messages.last_number (payloads number s fields) →
        result ≡ messages.last_number (payloads number s (fields ++ field_of field.entry ∷ [])) }
{
    fixed32_in(field, number).unwrap_or(before)
}

/// The low 32 bits of the number: what a varint means in a field of 32 bits (Protocol Buffers,
/// Language Guide, "Updating A Message Type").
pub fn low_32_bits(number: u64) -> u32
    ensures { result ≡ number % 2 ^ 32 }
{
    (number % (1 << 32)) as u32
}
