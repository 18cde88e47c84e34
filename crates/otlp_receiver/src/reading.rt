//! What the content of a post means, and what reading it takes.

ghost use Rattle.std.specs.Prelude.{◌≡◌, IfErr, IfOk};
ghost use Rattle.model_message.specs.Messages.{meaning};
ghost use Rattle.model_message.specs.Reading.{Reads};
ghost use Rattle.model_message.specs.Tables;
ghost use Rattle.otlp_read.specs.Requests.{request_view};
ghost use Rattle.otlp_receiver.specs.Reads as spec;
ghost use Rattle.otlp_receiver.specs.Reads.{IsUnread, is_above, size_of_content, unread_by};

use crate::reply::Denial;
use otlp_read::{ReadFault, Request, read_request, request_size};
use std::alloc::Allocator;

/// Why a body isn't read.
#[derive(Clone, Copy, Debug, PartialEq, Eq)]
pub enum Unread {
    /// It has a fault.
    Fault,
    /// Memory was refused.
    OutOfMemory,
}

/// Why a body isn't read that has this fault.
fn unread_by(fault: ReadFault) -> Unread
    ensures { result ≡ unread_by fault }
{
    match fault {
        ReadFault::OutOfMemory => Unread::OutOfMemory,
        ReadFault::Wire(_) | ReadFault::BadUtf8 | ReadFault::TooDeep => Unread::Fault,
    }
}

/// The request that a content means, in memory of this allocator, or why it isn't read.
///
/// # Errors
///
/// `Unread` where the content has a fault, or memory was refused.
pub fn read_content<A: Allocator + Copy>(alloc: A, content: &[u8]) -> Result<Request<A>, Unread>
    ensures read { IfOk result (λ request.
        Reads (meaning Tables.request content.now) (request_view request)) }
    ensures unread { IfErr result (IsUnread content.now) }
{
    match read_request(alloc, content) {
        Ok(request) => Ok(request),
        Err(fault) => Err(unread_by(fault)),
    }
}

/// How many bytes of memory the reading of a content takes.
pub fn size_of_content(content: &[u8]) -> u64
    ensures { result ≡ size_of_content content.now }
{
    request_size(content)
}

/// The reading of a content takes at most this many bytes of memory for each byte of the content.
/// A span takes most beside what is kept of its fields: 768 bytes, and its field in the content
/// takes two bytes at least, a tag and a length.
const MOST_FOR_BYTE: u64 = 384;

/// Whether the reading of a content takes more bytes of memory than may still be pending.
///
/// Where there is room for the most that a content of this length takes, it isn't looked into.
/// Otherwise this goes over the content once.
pub fn is_above(content: &[u8], room: usize) -> bool
    ensures { result ≡ is_above content.now room }
{
    let most = (content.len() as u64).saturating_mul(MOST_FOR_BYTE);
    if most <= room as u64 {
        return false;
    }
    size_of_content(content) > room as u64
}

/// What bounds the content of a post.
#[derive(Clone, Copy, Debug, PartialEq, Eq)]
pub struct Bounds {
    /// How many bytes it may have.
    pub max_content: usize,
    /// How many bytes of requests and answers may be pending, those of all connections together.
    pub max_pending: usize,
}

/// A connection holds at most this many bytes beside the body of a request: its head, and what is
/// read and written. (profile)
const BESIDE_BODY: usize = 131_072;

/// How many bytes of memory the reading of a content may take where the request with this body is
/// the only one, and so many bytes may be pending in all. The body counts twice, since what holds
/// it grows by doubling.
pub fn room_alone(max_pending: usize, body: &[u8]) -> usize
    ensures { result ≡ spec.room_alone max_pending body.now }
{
    let beside = max_pending.saturating_sub(BESIDE_BODY);
    beside.saturating_sub(body.len()).saturating_sub(body.len())
}

/// Why a content isn't read for which there is no room now, where reading it may take `alone` bytes
/// when nothing else is pending: with 413 it never fits, and with 503 it fits later.
pub fn size_denial(content: &[u8], alone: usize) -> Denial
    ensures { result ≡ spec.size_denial content.now alone }
{
    if is_above(content, alone) {
        Denial::ReadTooLarge
    } else {
        Denial::NoRoom
    }
}
