//! Why a request has no reply.

ghost use Rattle.std.specs.Prelude.{◌≡◌};
ghost use Rattle.http_client.specs.Faults.{error_type};

use otlp_http::HttpFault;
use thiserror::Error;

/// Why a request has no reply.
#[derive(Debug, Clone, Copy, PartialEq, Eq, Error)]
pub enum SendFault {
    /// The method is no token, or it is `CONNECT` (RFC 9110, section 9.1). Nothing was sent.
    #[error("bad method: a method is a token, and not CONNECT")]
    BadMethod,
    /// The name of a field is no token, or that of a field which the client sets itself, or a value
    /// has a control byte (RFC 9110, section 5). Nothing was sent.
    #[error("bad field: a name that is no token or is the client's own, or a bad value")]
    BadField,
    /// A `TRACE` has a body (RFC 9110, section 9.3.8). Nothing was sent.
    #[error("bad body: a TRACE has none")]
    BadBody,
    /// Memory for the request was refused, and nothing was sent.
    #[error("out of memory")]
    OutOfMemory,
    /// No connection could be had.
    #[error("no connection")]
    NoConnection,
    /// The request didn't go out whole.
    #[error("the request was not sent whole")]
    NotSent,
    /// What came back is no reply.
    #[error("no reply: {0}")]
    NoReply(HttpFault),
}

impl SendFault {
    /// The word for it (Semantic Conventions, "error.type"; which words: profile), which the span
    /// of the request has. A request that is refused as bad has no span.
    pub fn error_type(self) -> &'static str
        ensures { result.now ≡ error_type self }
    {
        match self {
            SendFault::BadMethod => "bad_method",
            SendFault::BadField => "bad_field",
            SendFault::BadBody => "bad_body",
            SendFault::OutOfMemory => "out_of_memory",
            SendFault::NoConnection => "no_connection",
            SendFault::NotSent => "not_sent",
            SendFault::NoReply(_) => "no_reply",
        }
    }
}
