//! The answer of a collector to a trace export, as bytes.

ghost use Rattle.std.specs.Prelude.{◌≡◌, ◌≢◌, ◌==◌, ◌&&◌, ◌++◌, [], length, pos, IfOk, OnErr, OnOk};
ghost use Rattle.model_message.specs.Reading.{Reads};
ghost use Rattle.model_message.specs.Tables;
ghost use Rattle.model_message.specs.Tables.{◌▸◌};
ghost use Rattle.model_message.specs.Messages.{meaning};
ghost use Rattle.model_message.specs.Canon.{bytes_field, canon, field_bytes, number_field};
ghost use Rattle.model_message.specs.Canon.{row_bytes, unless_empty};
ghost use Rattle.otlp_wire.specs.Response.{partial_fields};

use crate::response::{PartialSuccess, Response};
use crate::{write_len, write_varint};
use otlp_ids::OutOfMemory;
use std::alloc::Allocator;

/// Appends the field of this number that holds these bytes, also where there are none.
fn put_len<A: Allocator>(out: &mut Vec<u8, A>, number: u8, bytes: &[u8]) -> Result<(), OutOfMemory>
    ensures { OnOk result
        (out.new.items ≡ out.old.items ++ field_bytes (bytes_field number bytes.now)) }
{
    // (wire type 2: a length, and that number of bytes)
    write_varint(out, number as u64 * 8 + 2)?;
    write_len(out, bytes)
}

/// Appends the number of rejected spans, which is in two's complement, unless it is 0.
fn put_rejected_spans<A: Allocator>(out: &mut Vec<u8, A>, rejected: u64) -> Result<(), OutOfMemory>
    ensures { OnOk result
        (out.new.items ≡ out.old.items ++ row_bytes (number_field 1 rejected)) }
{
    if rejected != 0 {
        // (field 1, wire type 0: a varint)
        write_varint(out, 8)?;
        write_varint(out, rejected)?;
    }
    Ok(())
}

/// Appends the message, unless it is empty.
fn put_error_message<A: Allocator>(out: &mut Vec<u8, A>, message: &str) -> Result<(), OutOfMemory>
    ensures { OnOk result
        (out.new.items ≡ out.old.items ++ row_bytes (unless_empty 2 message.now)) }
{
    if !message.is_empty() {
        put_len(out, 2, message.as_bytes())?;
    }
    Ok(())
}

/// The bytes of what was taken in part.
fn partial_bytes<A: Allocator>(
    alloc: A,
    rejected: u64,
    message: &str,
) -> Result<Vec<u8, A>, OutOfMemory>
    ensures { IfOk result (λ out. out.items ≡ row_bytes (partial_fields rejected message.now)) }
{
    let mut out = Vec::new(alloc);
    put_rejected_spans(&mut out, rejected)?;
    put_error_message(&mut out, message)?;
    Ok(out)
}

/// Whether all was taken, without a word.
fn is_default(rejected: u64, message: &str) -> bool
    ensures { result ≡ (rejected == 0) && (length message.now == 0) }
{
    rejected == 0 && message.is_empty()
}

/// Writes a response (Protocol Buffers, "Encoding"): its fields in the order of their numbers, and
/// none that has its default, so that the response of a collector that took all has no byte. It is
/// read again as it was. (profile: which of the ways that Protocol Buffers allow)
///
/// # Errors
///
/// `OutOfMemory` where memory was refused. A response with the defaults takes none.
pub fn write_response<A: Allocator + Copy, B: Allocator>(
    alloc: A,
    response: &Response<B>,
) -> Result<Vec<u8, A>, OutOfMemory>
    ensures canonical { IfOk result (λ out. out.items ≡ canon Tables.response response.now) }
    ensures meaning { IfOk result (λ out. Reads (meaning Tables.response out.items) response.now) }
    ensures refused { OnErr result (response.now ≢ ((pos 0 ▸ [] ▸ tt) ▸ tt)) }
{
    let partial = response.partial_success();
    let rejected = partial.rejected_spans().cast_unsigned();
    let message = partial.error_message();
    let mut out = Vec::new(alloc);
    if is_default(rejected, message) {
        return Ok(out);
    }
    put_len(&mut out, 1, &partial_bytes(alloc, rejected, message)?)?;
    Ok(out)
}
