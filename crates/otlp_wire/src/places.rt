//! Writers of payloads into a slice, at a place of it (Protocol Buffers, "Encoding"). They take no
//! memory, and each answers the place after what it wrote.

ghost use Rattle.std.specs.Prelude.{◌≡◌, ◌+◌, ◌≤◌, length};
ghost use Rattle.model_message.specs.Wire;
ghost use Rattle.model_message.specs.Canon.{payload_bytes};
ghost use Rattle.otlp_wire.specs.Writing.{FitsAt, PutsAt};

/// Writes the payload of a field of wire type VARINT at the place `at`, in `varint_size(value)`
/// bytes, the fewest that spell it, and answers the place after them (Protocol Buffers, Encoding,
/// "Base 128 Varints").
pub fn put_varint(out: &mut [u8], at: usize, value: u64) -> usize
    requires { FitsAt (payload_bytes (Wire.varint value)) at out.old }
    ensures { PutsAt (payload_bytes (Wire.varint value)) at out.old out.new result }
{
    let mut next = at;
    let mut unwritten = value;
    while unwritten >= 128 {
        out[next] = (unwritten % 128) as u8 + 128;
        unwritten /= 128;
        next += 1;
    }
    out[next] = unwritten as u8;
    next + 1
}

/// Writes the payload of a field of wire type I64 at the place `at`: 8 bytes, the lowest first. It
/// answers the place after them (Protocol Buffers, Encoding, "Non-varint Numbers").
pub fn put_fixed64(out: &mut [u8], at: usize, value: u64) -> usize
    requires { FitsAt (payload_bytes (Wire.i64 value)) at out.old }
    ensures { PutsAt (payload_bytes (Wire.i64 value)) at out.old out.new result }
{
    put_bytes(out, at, &value.to_le_bytes())
}

/// Writes the payload of a field of wire type I32 at the place `at`: 4 bytes, the lowest first. It
/// answers the place after them (Protocol Buffers, Encoding, "Non-varint Numbers").
pub fn put_fixed32(out: &mut [u8], at: usize, value: u32) -> usize
    requires { FitsAt (payload_bytes (Wire.i32 value)) at out.old }
    ensures { PutsAt (payload_bytes (Wire.i32 value)) at out.old out.new result }
{
    put_bytes(out, at, &value.to_le_bytes())
}

/// Writes these bytes at the place `at`, and answers the place after them.
pub fn put_bytes(out: &mut [u8], at: usize, bytes: &[u8]) -> usize
    requires { FitsAt bytes.now at out.old }
    ensures { PutsAt bytes.now at out.old out.new result }
{
    let next = at + bytes.len();
    out[at..next].copy_from_slice(bytes);
    next
}
