//! What is kept of a payload, on memory of its own.

ghost use Rattle.std.specs.Prelude.{◌≡◌, ◌≢◌, IfOk, IfErr, OnErr, string_bytes};
ghost use Rattle.model_message.specs.Reading.{Reads};
ghost use Rattle.model_message.specs.Messages.{utf8};
ghost use Rattle.otlp_wire.specs.Faults.{NamesOne};

use crate::fault::ReadFault;
use otlp_ids::{OutOfMemory, copy_text};
use std::alloc::Allocator;
use std::str;

/// The text of these bytes. An empty one takes no memory.
///
/// # Errors
///
/// `BadUtf8` where they are not UTF-8 (Protocol Buffers, Language Guide, "Scalar Value Types"), and
/// `OutOfMemory` where the text could not be stored.
pub fn read_text<A: Allocator>(alloc: A, bytes: &[u8]) -> Result<String<A>, ReadFault>
    ensures ok { IfOk result (λ text. Reads (utf8 bytes.now) (string_bytes text)) }
    ensures err { IfErr result (λ fault. NamesOne (utf8 bytes.now).faults fault) }
{
    match str::from_utf8(bytes) {
        Ok(text) => Ok(copy_text(alloc, text)?),
        Err(_) => Err(ReadFault::BadUtf8),
    }
}

/// Equal bytes. Where there are none they take no memory.
///
/// # Errors
///
/// `OutOfMemory` where they could not be stored.
pub fn copy_bytes<A: Allocator>(alloc: A, bytes: &[u8]) -> Result<Vec<u8, A>, OutOfMemory>
    ensures { IfOk result (λ copied. copied.items ≡ bytes.now) }
{
    if bytes.is_empty() {
        return Ok(Vec::new(alloc));
    }
    Ok(Vec::from_slice(alloc, bytes)?)
}
