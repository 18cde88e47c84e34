//! What takes the bytes of a message: a count of them, or a buffer.
ghost use Rattle.std.specs.Prelude.{◌≡◌, ◌+◌, ◌<◌, ◌≤◌, true, false, ◌^◌, ℕ, List, [], IfOk};
ghost use Rattle.model_message.specs.Wire;
ghost use Rattle.model_message.specs.Canon.{payload_bytes};
ghost use Rattle.otlp_proto.specs.Encode.{Cursor, Lays, Skips, saturated};

use otlp_ids::OutOfMemory;
use std::alloc::Allocator;
use std::marker::Model;

/// What takes bytes, one after the other.
pub trait Sink {
    ghost cursor: { Self → Cursor };

    /// Takes a number as the shortest varint.
    fn put_varint(&mut self, value: u64)
        ensures { Lays (payload_bytes (Wire.varint value)) (cursor self.old) (cursor self.new) };

    /// Takes a number as eight bytes, the lowest first.
    fn put_fixed64(&mut self, value: u64)
        ensures { Lays (payload_bytes (Wire.i64 value)) (cursor self.old) (cursor self.new) };

    /// Takes a number as four bytes, the lowest first.
    fn put_fixed32(&mut self, value: u32)
        ensures { Lays (payload_bytes (Wire.i32 value)) (cursor self.old) (cursor self.new) };

    /// Takes these bytes.
    fn put_bytes(&mut self, bytes: &[u8])
        ensures { Lays bytes.now (cursor self.old) (cursor self.new) };

    /// Counts bytes that needn't be made for it, and answers whether it does. Where it does not, it
    /// is unchanged.
    fn skip(&mut self, len: usize) -> bool
        ensures { Skips len result (cursor self.old) (cursor self.new) };
}

/// A count of bytes; 2^64 - 1 means that many and more.
#[derive(Drop)]
pub struct Length(usize);

impl Length {
    /// A count of no bytes.
    pub fn new() -> Length
        ensures { result.0 ≡ 0 }
    {
        Length(0)
    }

    /// How many bytes it was given.
    pub fn len(&self) -> usize
        ensures value { result ≡ self.now.0 }
        ensures small { result < 2 ^ 64 }
    {
        self.0
    }

    /// Counts this number of bytes more.
    fn add(&mut self, len: usize)
        ensures { self.new.0 ≡ saturated (self.old.0 + len) }
    {
        self.0 = self.0.saturating_add(len);
    }
}

impl Sink for Length {
    ghost use Rattle.otlp_proto.specs.Encode.{Cursor};

    ghost cursor = { λ length. Cursor.counted length.0 };

    fn put_varint(&mut self, value: u64) {
        self.add(otlp_wire::varint_size(value));
    }

    fn put_fixed64(&mut self, _value: u64) {
        self.add(8);
    }

    fn put_fixed32(&mut self, _value: u32) {
        self.add(4);
    }

    fn put_bytes(&mut self, bytes: &[u8]) {
        self.add(bytes.len());
    }

    fn skip(&mut self, len: usize) -> bool {
        self.add(len);
        true
    }
}

/// A buffer that is filled from its front. What has no room is left out.
#[derive(Drop)]
pub struct Buffer<A: Allocator> {
    bytes: Vec<u8, A>,
    at: usize,
}

impl<A: Allocator> Model for Buffer<A> {
    ghost use Rattle.std.specs.Prelude.{◌-◌, ◌≤◌, take, length};
    ghost use Rattle.otlp_proto.specs.Encode.{Cursor};

    ghost Value = { Cursor };

    ghost view = { λ b. Cursor.filled (take b.at b.bytes.items) (length b.bytes.items - b.at) };

    ghost invariant = { λ b. b.at ≤ length b.bytes.items };
}

impl<A: Allocator> Buffer<A> {
    /// A buffer of this length, of which nothing is filled.
    pub fn new(alloc: A, len: usize) -> Result<Buffer<A>, OutOfMemory>
        ensures { IfOk result (λ buffer. (buffer ≡ Cursor.filled [] len) × (len < 2 ^ 63)) }
    {
        let bytes = vec![in alloc; 0; len]?;
        Ok(Buffer { bytes, at: 0 })
    }

    /// Whether there is room for this number of bytes more.
    fn has_room(&self, len: usize) -> bool
        ensures { (front : List ℕ) (room : ℕ) → self.now ≡ Cursor.filled front room →
            (result ≡ true → len ≤ room) × (result ≡ false → room < len) }
    {
        len <= self.bytes.len() - self.at
    }

    /// The bytes, where all of them are filled.
    pub fn into_bytes(self) -> Vec<u8, A>
        ensures { (bytes : List ℕ) → self ≡ Cursor.filled bytes 0 → result.items ≡ bytes }
    {
        self.bytes
    }
}

impl<A: Allocator> Sink for Buffer<A> {
    ghost cursor = { λ buffer. buffer };

    fn put_varint(&mut self, value: u64) {
        if self.has_room(otlp_wire::varint_size(value)) {
            self.at = otlp_wire::put_varint(self.bytes.as_mut_slice(), self.at, value);
        }
    }

    fn put_fixed64(&mut self, value: u64) {
        if self.has_room(8) {
            self.at = otlp_wire::put_fixed64(self.bytes.as_mut_slice(), self.at, value);
        }
    }

    fn put_fixed32(&mut self, value: u32) {
        if self.has_room(4) {
            self.at = otlp_wire::put_fixed32(self.bytes.as_mut_slice(), self.at, value);
        }
    }

    fn put_bytes(&mut self, bytes: &[u8]) {
        if self.has_room(bytes.len()) {
            self.at = otlp_wire::put_bytes(self.bytes.as_mut_slice(), self.at, bytes);
        }
    }

    fn skip(&mut self, _len: usize) -> bool {
        false
    }
}
