//! What a body has, read without the code that wrote it.
use std::alloc::Global;
use std::process::Abort;

/// The number that is first, and what comes after it (Protocol Buffers, "Base 128 Varints").
fn read_number(bytes: &[u8]) -> Option<(u64, &[u8])> {
    let mut number = 0u64;
    for place in 0..10u32 {
        let byte = *bytes.get(place as usize)?;
        number |= u64::from(byte & 127).wrapping_shl(place.wrapping_mul(7));
        if byte < 128 {
            return Some((number, bytes.get(place.wrapping_add(1) as usize..)?));
        }
    }
    None
}

/// The number of the field that is first, what it holds, which is left empty where that is a
/// number, and what comes after it (Protocol Buffers, "Message Structure").
fn read_field(bytes: &[u8]) -> Option<(u64, &[u8], &[u8])> {
    let (key, rest) = read_number(bytes)?;
    let (size, rest) = match key % 8 {
        1 => (8, rest),
        2 => read_number(rest)?,
        5 => (4, rest),
        0 => (0, read_number(rest)?.1),
        _ => return None,
    };
    let held = rest.get(..size as usize)?;
    Some((key / 8, held, rest.get(size as usize..)?))
}

/// Adds what the fields of this number hold, in a message that is read whole.
fn add_fields<'a>(rt: &impl Abort, message: &'a [u8], number: u64, found: &mut Vec<&'a [u8]>) {
    let mut rest = message;
    for _field in 0..message.len() {
        if rest.is_empty() {
            return;
        }
        let (key, held, after) = read_field(rest).expect(rt, "a field");
        if key == number {
            found.push(held).expect(rt, "memory");
        }
        rest = after;
    }
}

/// What the fields of this number hold, in all of these messages.
fn fields<'a>(rt: &impl Abort, alloc: Global, messages: &[&'a [u8]], number: u64) -> Vec<&'a [u8]> {
    let mut found = Vec::new(alloc);
    for message in messages {
        add_fields(rt, message, number, &mut found);
    }
    found
}

/// The identifiers of the spans of a body: of each resource, each of its scopes and each of theirs
/// (opentelemetry-proto, trace_service.proto).
pub(crate) fn spans_in(rt: &impl Abort, alloc: Global, body: &[u8]) -> Vec<u64> {
    let resources = fields(rt, alloc, &[body], 1);
    let scopes = fields(rt, alloc, resources.as_slice(), 2);
    let spans = fields(rt, alloc, scopes.as_slice(), 2);
    let mut found = Vec::new(alloc);
    for identifier in &fields(rt, alloc, spans.as_slice(), 2) {
        let identifier = identifier.as_array().expect(rt, "eight bytes");
        let identifier = u64::from_be_bytes(*identifier);
        found.push(identifier).expect(rt, "memory");
    }
    found
}
