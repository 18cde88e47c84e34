//! Which posts of spans are refused before their body is read.

ghost use Rattle.std.specs.Prelude.{◌≡◌, ◌&&◌, is_some};
ghost use Rattle.otlp_serve.specs.Answers.{refusal_with_gzip};
ghost use Rattle.otlp_receiver.specs.Contents.{coding_in, is_json_post};
ghost use Rattle.otlp_receiver.specs.Posts.{denial_by_reply, post_of, refusal_of_post, unless_type};

use crate::reply::{Denial, is_json};
use bytes::Bytes;
use http::Request;
use otlp_serve::{PostReply, ReplyStatus, coding_of, refusal_with_gzip};

/// Why a request is refused that a collector answers so.
pub(crate) fn denial_by_reply(reply: PostReply) -> Denial
    ensures { result ≡ denial_by_reply reply }
{
    match reply.status {
        ReplyStatus::NotFound => Denial::NoPath,
        ReplyStatus::MethodNotAllowed => Denial::ExportMethod,
        _ => Denial::MediaType,
    }
}

/// The reply, if it isn't for the type or the coding of a body alone.
fn unless_type(reply: Option<PostReply>) -> Option<PostReply>
    ensures { result ≡ unless_type reply }
{
    match reply {
        Some(
            PostReply {
                status: ReplyStatus::UnsupportedMediaType,
                ..
            },
        ) => None,
        _ => reply,
    }
}

/// Whether a body is of JSON, in a coding that is read.
fn is_json_in_coding(request: &Request<Bytes>) -> bool
    ensures { result ≡ is_json_post (post_of request.now) && is_some (coding_in (post_of request.now)) }
{
    is_json(request) && coding_of(request.headers()).is_some()
}

/// What a request is answered that isn't for a collector that doesn't read JSON, if it isn't.
fn binary_refusal(request: &Request<Bytes>) -> Option<PostReply>
    ensures { result ≡ refusal_with_gzip (post_of request.now) }
{
    let (method, path) = (request.method().as_str(), request.uri().path());
    refusal_with_gzip(method, path.as_bytes(), request.headers())
}

/// What a request is answered that isn't for a collector, if it isn't: it has another path or
/// another method, or its body is of another type or in another coding. Bodies of Protocol Buffers
/// and of JSON are taken, as they are and in gzip (OTLP Specification, "OTLP/HTTP Request").
pub(crate) fn refusal_in(request: &Request<Bytes>) -> Option<PostReply>
    ensures { result ≡ refusal_of_post (post_of request.now) }
{
    let reply = binary_refusal(request);
    if is_json_in_coding(request) {
        unless_type(reply)
    } else {
        reply
    }
}
