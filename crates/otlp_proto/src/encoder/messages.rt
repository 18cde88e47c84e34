//! Messages in fields of others (Protocol Buffers, Encoding, "Submessages").
ghost use Rattle.std.specs.Prelude.{ℕ, List, map};
ghost use Rattle.std.specs.List.{AllByRecursion};
ghost use Rattle.model_message.specs.Canon.{field_bytes, row_bytes, bytes_field};
ghost use Rattle.otlp_proto.specs.Encode.{Carries, Measures};

use crate::encoder::fields::{WireType, put_key};
use crate::encoder::sink::{Length, Sink};

/// What is written as a message in a field of another.
pub trait Submessage {
    ghost viewed: { Type 0 };

    ghost view: { Self → viewed };

    ghost bytes: { viewed → List ℕ };

    ghost is_whole: { viewed → Type 0 };

    /// Puts the fields of its message.
    fn put<S: Sink>(&self, sink: &mut S)
        ensures { Carries (bytes (view self.now)) (is_whole (view self.now))
            (S.cursor sink.old) (S.cursor sink.new) };
}

/// How many bytes its message has; 2^64 - 1 means that many and more.
pub fn encoded_len<T: Submessage>(item: &T) -> usize
    ensures { Measures (T.bytes (T.view item.now)) (T.is_whole (T.view item.now)) result }
{
    let mut length = Length::new();
    item.put(&mut length);
    length.len()
}

/// Puts a message of this length as a field.
pub fn put_sized<T: Submessage, S: Sink>(sink: &mut S, number: u32, item: &T, len: usize)
    requires { Measures (T.bytes (T.view item.now)) (T.is_whole (T.view item.now)) len }
    ensures { Carries (field_bytes (bytes_field number (T.bytes (T.view item.now))))
        (T.is_whole (T.view item.now)) (S.cursor sink.old) (S.cursor sink.new) }
{
    put_key(sink, number, WireType::LengthDelimited);
    sink.put_varint(len as u64);
    if !sink.skip(len) {
        item.put(sink);
    }
}

/// Puts a message as a field, also where it has no byte.
pub fn put_one<T: Submessage, S: Sink>(sink: &mut S, number: u32, item: &T)
    ensures { Carries (field_bytes (bytes_field number (T.bytes (T.view item.now))))
        (T.is_whole (T.view item.now)) (S.cursor sink.old) (S.cursor sink.new) }
{
    let len = encoded_len(item);
    put_sized(sink, number, item, len);
}

/// Puts each message as a field of this number.
pub fn put_each<T: Submessage, S: Sink>(sink: &mut S, number: u32, items: &[T])
    ensures { Carries
        (row_bytes (map (λ v. bytes_field number (T.bytes v)) (map T.view items.now)))
        (AllByRecursion T.is_whole (map T.view items.now))
        (S.cursor sink.old) (S.cursor sink.new) }
{
    for item in items {
        put_one(sink, number, item);
    }
}
