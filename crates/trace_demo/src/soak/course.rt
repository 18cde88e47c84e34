//! What becomes of an attempt to send a body.
use http_wire::{Counted, FailingCalls};
use otlp_serve::{PostReply, ReplyStatus, write_reply};
use rand_core::Rng;
use std::alloc::{AllocError, Global};

/// What becomes of an attempt to send a body.
#[derive(Debug, Clone, Copy, PartialEq, Eq)]
pub(crate) enum Course {
    /// No link can be had.
    NoLink,
    /// The call with this number fails, from 0 on, and all after it: a write of the request, or a
    /// read of the reply, so that there is none. The body may have been taken.
    Cut(u64),
    /// The body is refused with 400, and not kept.
    Refused,
    /// The body is kept, and a reply says that two of its spans were rejected.
    Partial,
    /// The body is kept, and the reply is 503.
    Busy,
    /// The body is kept, and the reply is 429.
    TooMany,
    /// The body is kept, and the reply is 200.
    Good,
}

/// How many kinds of courses there are.
pub(crate) const COURSES: usize = 8;

/// Below which number the first call is that fails: some of these are writes, the others reads.
const CALLS: u32 = 48;

/// A reply that rejects two spans (OTLP Specification, "Partial Success").
const PARTIAL: &str = "HTTP/1.1 200 OK\r\nContent-Length: 7\r\n\r\n\x0a\x05\x08\x02\x12\x01x";

impl Course {
    /// The next course of a generator: six of sixteen are good.
    pub(crate) fn draw(rng: &mut impl Rng) -> Course {
        let call = u64::from(rng.next_u32() % CALLS);
        match rng.next_u32() % 16 {
            0 => Course::NoLink,
            1..=4 => Course::Cut(call),
            5 => Course::Refused,
            6 => Course::Partial,
            7 | 8 => Course::Busy,
            9 => Course::TooMany,
            _ => Course::Good,
        }
    }

    /// Its place among the kinds of courses, where the request came whole or didn't.
    pub(crate) fn place(self, is_whole: bool) -> usize {
        match self {
            Course::NoLink => 0,
            Course::Cut(_) if !is_whole => 1,
            Course::Cut(_) => 2,
            Course::Refused => 3,
            Course::Partial => 4,
            Course::Busy => 5,
            Course::TooMany => 6,
            Course::Good => 7,
        }
    }

    /// Which calls of the link fail.
    pub(crate) fn failing(self) -> FailingCalls {
        match self {
            Course::Cut(call) => FailingCalls::From(call),
            _ => FailingCalls::Never,
        }
    }

    /// The reply to a request that comes whole. Who is to try again may do so at once.
    pub(crate) fn reply(self, alloc: Global) -> Result<Vec<u8>, AllocError> {
        let (status, retry_after) = match self {
            Course::Partial => return Vec::from_slice(alloc, PARTIAL.as_bytes()),
            Course::Refused => (ReplyStatus::BadRequest, None),
            Course::Busy => (ReplyStatus::ServiceUnavailable, Some(0)),
            Course::TooMany => (ReplyStatus::TooManyRequests, Some(0)),
            _ => (ReplyStatus::Ok, None),
        };
        let mut writer = Counted::new(Vec::new(alloc));
        let reply = PostReply {
            status,
            retry_after,
        };
        match write_reply(&mut writer, reply) {
            Ok(()) => Ok(writer.into_inner()),
            Err(_) => Err(AllocError),
        }
    }
}
