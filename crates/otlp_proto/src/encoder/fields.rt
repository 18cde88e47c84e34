//! Fields of messages (Protocol Buffers, "Encoding").
ghost use Rattle.std.specs.Prelude.{◌≡◌, ◌+◌, ◌*◌, ◌<◌, pos};
ghost use Rattle.model_message.specs.Wire;
ghost use Rattle.model_message.specs.Tables;
ghost use Rattle.model_message.specs.Canon.{field_bytes, shortest};
ghost use Rattle.otlp_proto.specs.Encode.{Lays, Puts};
ghost use Rattle.otlp_proto.specs.WireTypes.{wire_type_number};

use crate::encoder::sink::Sink;

/// How the payload of a field is spelled (Protocol Buffers, Encoding, "Message Structure").
#[derive(Clone, Copy)]
pub enum WireType {
    /// A varint.
    Varint,
    /// Eight bytes.
    SixtyFourBit,
    /// A length, and that number of bytes.
    LengthDelimited,
    /// Four bytes.
    ThirtyTwoBit,
}

impl WireType {
    /// Its number in a tag.
    fn number(self) -> u64
        ensures value { result ≡ wire_type_number self }
        ensures small { result < 8 }
    {
        match self {
            WireType::Varint => 0,
            WireType::SixtyFourBit => 1,
            WireType::LengthDelimited => 2,
            WireType::ThirtyTwoBit => 5,
        }
    }
}

/// Puts the tag of a field: its number and its wire type.
pub fn put_key<S: Sink>(sink: &mut S, number: u32, wire_type: WireType)
    ensures { Lays (shortest (number * 8 + wire_type_number wire_type))
        (S.cursor sink.old) (S.cursor sink.new) }
{
    sink.put_varint(number as u64 * 8 + wire_type.number());
}

/// Puts a field that holds a number, whatever number it is.
pub fn put_varint<S: Sink>(sink: &mut S, number: u32, value: u64)
    ensures { Lays (field_bytes (record { number = number; payload = Wire.varint value }))
        (S.cursor sink.old) (S.cursor sink.new) }
{
    put_key(sink, number, WireType::Varint);
    sink.put_varint(value);
}

/// Puts a field that holds bytes, also where there are none.
pub fn put_len<S: Sink>(sink: &mut S, number: u32, bytes: &[u8])
    ensures { Lays (field_bytes (record { number = number; payload = Wire.len bytes.now }))
        (S.cursor sink.old) (S.cursor sink.new) }
{
    put_key(sink, number, WireType::LengthDelimited);
    sink.put_varint(bytes.len() as u64);
    sink.put_bytes(bytes);
}

/// Puts a text, unless it is empty.
pub fn put_text<S: Sink>(sink: &mut S, number: u32, text: &str)
    ensures { Puts number Tables.text text.now (S.cursor sink.old) (S.cursor sink.new) }
{
    if !text.is_empty() {
        put_len(sink, number, text.as_bytes());
    }
}

/// Puts bytes, unless there are none.
pub fn put_bytes<S: Sink>(sink: &mut S, number: u32, bytes: &[u8])
    ensures { Puts number Tables.bytes bytes.now (S.cursor sink.old) (S.cursor sink.new) }
{
    if !bytes.is_empty() {
        put_len(sink, number, bytes);
    }
}

/// Puts a number of 32 bits, unless it is 0.
pub fn put_uint32<S: Sink>(sink: &mut S, number: u32, value: u32)
    ensures { Puts number Tables.uint32 value (S.cursor sink.old) (S.cursor sink.new) }
{
    if value != 0 {
        put_varint(sink, number, value as u64);
    }
}

/// Puts the number of an enumeration's case, unless it is 0.
pub fn put_enum<S: Sink>(sink: &mut S, number: u32, value: u8)
    ensures { Puts number Tables.enum (pos value) (S.cursor sink.old) (S.cursor sink.new) }
{
    if value != 0 {
        put_varint(sink, number, value as u64);
    }
}

/// Puts a number of 64 bits in eight bytes, unless it is 0.
pub fn put_fixed64<S: Sink>(sink: &mut S, number: u32, value: u64)
    ensures { Puts number Tables.fixed64 value (S.cursor sink.old) (S.cursor sink.new) }
{
    if value != 0 {
        put_key(sink, number, WireType::SixtyFourBit);
        sink.put_fixed64(value);
    }
}

/// Puts a number of 32 bits in four bytes, unless it is 0.
pub fn put_fixed32<S: Sink>(sink: &mut S, number: u32, value: u32)
    ensures { Puts number Tables.fixed32 value (S.cursor sink.old) (S.cursor sink.new) }
{
    if value != 0 {
        put_key(sink, number, WireType::ThirtyTwoBit);
        sink.put_fixed32(value);
    }
}
