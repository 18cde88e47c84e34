//! Whole texts.

ghost use Rattle.otlp_json.specs.Bodies as spec;
ghost use Rattle.otlp_json.specs.Bodies.{body_bytes};
ghost use Rattle.otlp_json.specs.Mended.{mended};
ghost use Rattle.otlp_json.specs.Posted.{posted_bytes};
ghost use Rattle.otlp_json.specs.Writing.{Leaves, Reads};

use crate::fault::{JsonError, JsonFault, Stop};
use crate::leaf::mismatch;
use crate::mend::mend;
use crate::names::Message;
use crate::walk::{next, object};
use json::{Reader, Scratch, Token};
use std::alloc::Allocator;

/// How deep objects may nest.
const MAX_OBJECTS: usize = 200;

/// Appends the fields of the request that the reader's text is.
fn request<A: Allocator + Copy>(
    alloc: A,
    reader: &mut Reader<'_>,
    out: &mut Vec<u8, A>,
) -> Result<(), Stop>
    ensures { Leaves result out.new.items
        (spec.bytes_after out.old.items (spec.whole reader.old)) }
{
    let token = next(reader)?;
    let Token::BeginObject = token else {
        return Err(Stop::Fault(mismatch(token)));
    };
    object(alloc, reader, out, MAX_OBJECTS, Message::Request)?;
    if reader.next().is_some() {
        return Err(Stop::Fault(JsonFault::Malformed));
    }
    Ok(())
}

/// The bytes of the request that a text is, where it is JSON.
#[tactic(auto, unfolding(crate::specs::Bodies::request_fields))]
fn read_json<A: Allocator + Copy>(alloc: A, text: &[u8]) -> Result<Vec<u8, A>, JsonError>
    ensures { Reads result (body_bytes text.now) }
{
    let Ok(text) = str::from_utf8(text) else {
        return Err(JsonError::Fault {
            fault: JsonFault::NotUtf8,
            offset: 0,
        });
    };
    let mut scratch = Scratch::new(alloc);
    let Ok(mut reader) = Reader::new(text, &mut scratch) else {
        return Err(JsonError::OutOfMemory);
    };
    let mut out = Vec::new(alloc);
    match request(alloc, &mut reader, &mut out) {
        Ok(()) => Ok(out),
        Err(Stop::OutOfMemory) => Err(JsonError::OutOfMemory),
        Err(Stop::Fault(fault)) => Err(JsonError::Fault {
            fault,
            offset: reader.offset(),
        }),
    }
}

/// The same with U+FFFD for each surrogate that is alone.
fn read_mended<A: Allocator + Copy>(alloc: A, text: &[u8]) -> Result<Vec<u8, A>, JsonError>
    ensures { Reads result (body_bytes (mended text.now)) }
{
    match mend(alloc, text) {
        Ok(mended) => read_json(alloc, mended.as_slice()),
        Err(_) => Err(JsonError::OutOfMemory),
    }
}

/// The bytes of the request that a text of OTLP's JSON is (opentelemetry-proto, "JSON Protobuf
/// Encoding"): fields in the order of the text's members, lengths as the shortest varints. A
/// surrogate that is alone, as in `"Ann\ud83d"`, is read as U+FFFD. (profile) Reading takes as much
/// memory as the text has bytes, twice as much where it is no JSON as it came, and the output.
///
/// # Errors
///
/// `Fault` with the first fault of the text, and about where it is. `OutOfMemory` where memory was
/// refused.
pub fn read_body<A: Allocator + Copy>(alloc: A, text: &[u8]) -> Result<Vec<u8, A>, JsonError>
    ensures { Reads result (posted_bytes text.now) }
{
    match read_json(alloc, text) {
        Err(
            JsonError::Fault {
                fault: JsonFault::Malformed,
                ..
            },
        ) => read_mended(alloc, text),
        read => read,
    }
}
