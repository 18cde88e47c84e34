//! What a request is answered.

ghost use Rattle.std.specs.Prelude.{◌≡◌, ◌≤◌, option_map};
ghost use Rattle.otlp_read.specs.Requests.{request_view};
ghost use Rattle.otlp_collector.specs.Answering.{reply_to_unread, Judges};

use crate::canned::{Canned, canned_reply};
use otlp_read::{ReadFault, Request, read_request};
use otlp_serve::{FaultRead, HeadLimits, PostReply, ReplyStatus, read_post};
use std::alloc::{Allocator, Global};

/// What a connection is answered, if anything, and the request that was taken, if any.
#[derive(Drop)]
pub(crate) struct Verdict<A: Allocator> {
    pub(crate) reply: Option<PostReply>,
    pub(crate) request: Option<Request<A>>,
}

/// The reply to a request whose body isn't read.
fn reply_to_unread(fault: ReadFault) -> PostReply
    ensures { result ≡ reply_to_unread fault }
{
    match fault {
        ReadFault::OutOfMemory => PostReply {
            status: ReplyStatus::ServiceUnavailable,
            retry_after: Some(1),
        },
        ReadFault::Wire(_) | ReadFault::BadUtf8 | ReadFault::TooDeep => PostReply {
            status: ReplyStatus::BadRequest,
            retry_after: None,
        },
    }
}

/// Reads a request, and says what it is answered.
pub(crate) fn judge<R: FaultRead, A: Allocator + Copy>(
    alloc: A,
    global: Global,
    reader: &mut R,
    limits: &HeadLimits,
    canned: Option<Canned>,
) -> Verdict<A>
    requires { limits.now.fields ≤ 64 }
    ensures { Judges limits.now canned (R.remaining reader.old) (R.remaining reader.new)
        (R.failures reader.old) (R.failures reader.new)
        result.reply (option_map request_view result.request) }
{
    let post = match read_post(alloc, global, reader, limits) {
        Ok(post) => post,
        Err(fault) => {
            return Verdict {
                reply: fault.reply(),
                request: None,
            };
        }
    };
    if let Some(reply) = post.refusal() {
        return Verdict {
            reply: Some(reply),
            request: None,
        };
    }
    match read_request(alloc, &post.body) {
        Ok(request) => Verdict {
            reply: Some(canned_reply(canned)),
            request: Some(request),
        },
        Err(fault) => Verdict {
            reply: Some(reply_to_unread(fault)),
            request: None,
        },
    }
}
