//! The content of a post of spans, if a collector takes that.

ghost use Rattle.std.specs.Prelude.{IfErr, IfOk};
ghost use Rattle.otlp_receiver.specs.Contents.{content_or};
ghost use Rattle.otlp_receiver.specs.Posts.{HasContent, IsTurnedAway, post_of};

use crate::content::{Undecoded, decode};
use crate::refusal::{denial_by_reply, refusal_in};
use bytes::Bytes;
use http::Request;
use std::alloc::Global;

/// The content of a post of spans (OTLP Specification, "OTLP/HTTP Request"), where it isn't its body
/// as that came: what this means as a gzip file, if these are at most `most` bytes (RFC 9110, section
/// 8.4.1.3), and of a text of JSON the bytes that it means (OTLP Specification, "JSON Protobuf
/// Encoding"). None where it is the body itself.
///
/// # Errors
///
/// `Undecoded::Denied` where the request has another path or another method, its body is of another
/// type or in another coding, or its body means nothing; `Undecoded::OutOfMemory` where memory was
/// refused.
pub fn content_in(
    alloc: Global,
    request: &Request<Bytes>,
    most: usize,
) -> Result<Option<Vec<u8>>, Undecoded>
    ensures content { IfOk result (λ content. HasContent most (post_of request.now)
        (content_or (post_of request.now).body content)) }
    ensures none { IfErr result (IsTurnedAway most (post_of request.now)) }
{
    if let Some(reply) = refusal_in(request) {
        return Err(Undecoded::Denied(denial_by_reply(reply)));
    }
    match decode(alloc, request, most) {
        Ok(content) => Ok(content),
        Err(why) => Err(why),
    }
}
