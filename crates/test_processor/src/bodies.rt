//! How many resources and spans are in a body.
use otlp_wire::{Field, Fields, Payload};
use std::alloc::Allocator;

/// What the fields with this number hold, of all these messages (Protocol Buffers, "Encoding").
/// `None` where memory is refused or a field can't be read.
fn held_by<'a, A: Allocator + Copy>(
    alloc: A,
    messages: &[&'a [u8]],
    wanted: u32,
) -> Option<Vec<&'a [u8], A>> {
    let mut held = Vec::new(alloc);
    for message in messages {
        for field in Fields::new(message) {
            let Field { number, payload } = field.ok()?;
            if let Payload::Len(bytes) = payload {
                if number == wanted {
                    held.push(bytes).ok()?;
                }
            }
        }
    }
    Some(held)
}

/// How many resources and how many spans are in a body (opentelemetry-proto,
/// "ExportTraceServiceRequest": the resources are its fields 1, their scopes the fields 2 of these,
/// and spans the fields 2 of a scope's).
pub(crate) fn count_body<A: Allocator + Copy>(alloc: A, body: &[u8]) -> Option<(usize, usize)> {
    let resources = held_by(alloc, &[body], 1)?;
    let scopes = held_by(alloc, resources.as_slice(), 2)?;
    let spans = held_by(alloc, scopes.as_slice(), 2)?;
    Some((resources.len(), spans.len()))
}
