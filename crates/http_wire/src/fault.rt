//! Why a message isn't read.

use thiserror::Error;

/// Why a message, or its body, isn't read.
#[derive(Error, Debug, Clone, Copy, PartialEq, Eq)]
pub enum HttpFault {
    /// The bytes ended within it.
    #[error("the message ended early")]
    Ended,
    /// A read failed: the count of failures rose, or was at its last value.
    #[error("the device failed")]
    Device,
    /// The bytes can't begin a head, the head has a field that can't be kept, or too many interim
    /// heads came.
    #[error("bad head: what came begins no head of HTTP/1.1, or has a bad field")]
    BadHead,
    /// Transfer-Encoding is not one field that says `chunked`, a request has that field and
    /// Content-Length too, or Content-Length isn't one number of digits that fits 64 bits (RFC
    /// 9112, section 6).
    #[error("bad length: a body has one Content-Length of digits, or comes in chunks")]
    BadLength,
    /// Of a body in chunks, a line or the trailers are none or pass the limits of a head, or no CR
    /// LF comes after a chunk's data (RFC 9112, section 7.1; the limits: profile).
    #[error("bad chunk: a chunk is a line with its size, its data, and the end of a line")]
    BadChunk,
    /// The head or the body passes its limit: of a body in chunks, the sum of the sizes does.
    #[error("too large: the head or the body passes the limit that is set for it")]
    TooLarge,
    /// Memory was refused.
    #[error("out of memory")]
    OutOfMemory,
}
