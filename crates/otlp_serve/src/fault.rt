//! Why a request isn't read.

ghost use Rattle.std.specs.Prelude.{◌≡◌};
ghost use Rattle.otlp_serve.specs.Answers.{reply_to_fault};

use crate::answer::reply_by;
use crate::reply::PostReply;
use crate::status::ReplyStatus;
use http_wire::HttpFault;
use thiserror::Error;

/// Why a request isn't read, and where.
#[derive(Error, Debug, Clone, Copy, PartialEq, Eq)]
pub enum PostFault {
    /// In its head, or in the place of one.
    #[error("request head: {0}")]
    Head(HttpFault),
    /// In its body.
    #[error("request body: {0}")]
    Body(HttpFault),
}

impl PostFault {
    /// What a request is answered that has this fault (OTLP Specification, "OTLP/HTTP Response";
    /// RFC 9110, section 15.5; RFC 6585, section 5; profile): nothing where the bytes ended or the
    /// device failed; 503 and to try again in a second where memory was refused; 431 where the head
    /// is too large, and 413 where the body is; else 400.
    pub fn reply(self) -> Option<PostReply>
        ensures { result ≡ reply_to_fault self }
    {
        match self {
            PostFault::Head(fault) => reply_by(ReplyStatus::RequestHeaderFieldsTooLarge, fault),
            PostFault::Body(fault) => reply_by(ReplyStatus::ContentTooLarge, fault),
        }
    }
}
