//! The limits of a connection, why it refuses, and where it is.

ghost use Rattle.std.specs.Prelude.{◌≡◌};

use http::StatusCode;
use http1::ReadError;

/// A head or a trailer section may have this many fields. (profile)
pub(crate) const MAX_FIELDS: usize = 64;

/// While this many bytes wait to be written, no request is read and no piece is asked for.
/// (profile)
pub(crate) const MAX_PENDING: usize = 64 * 1024;

/// The bounds of a connection.
#[derive(Clone, Copy, Debug, PartialEq, Eq)]
pub struct Limits {
    /// The most bytes of a request's body; a longer one is refused with 413.
    pub max_body: usize,
    /// The most bytes of a refused request that are read and thrown away, so that the answer
    /// arrives (RFC 9112, section 9.6).
    pub max_discard: u64,
}

impl Default for Limits {
    ghost is_default = { λ l. (l.max_body ≡ 16_777_216) × (l.max_discard ≡ 16_777_216) };

    /// 16 MiB each.
    fn default() -> Limits {
        Limits {
            max_body: 16 * 1024 * 1024,
            max_discard: 16 * 1024 * 1024,
        }
    }
}

/// Why the connection itself refuses a request.
#[derive(Clone, Copy, Debug, PartialEq, Eq)]
pub enum Refusal {
    /// It can't be read: 400.
    BadRequest,
    /// Its first line hasn't ended at the limit of a head, or its target is too long: 414.
    UriTooLong,
    /// Its head is longer than 16 KiB or has more than 64 fields: 431.
    FieldsTooLarge,
    /// Its body is longer than the limit: 413.
    BodyTooLarge,
    /// Its body doesn't fit into the room that is left for what is pending: 503.
    NoRoom,
    /// It has a transfer coding other than `chunked` (RFC 9112, section 6.1): 501.
    UnknownCoding,
    /// It has a version other than HTTP/1.0 and HTTP/1.1: 505.
    UnknownVersion,
}

impl Refusal {
    ghost use Rattle.http_connection.specs.Limits.{status_of};

    /// The status that answers it.
    pub fn status(self) -> StatusCode
        ensures { result ≡ status_of self }
    {
        match self {
            Refusal::BadRequest => StatusCode::BAD_REQUEST,
            Refusal::UriTooLong => StatusCode::URI_TOO_LONG,
            Refusal::FieldsTooLarge => StatusCode::REQUEST_HEADER_FIELDS_TOO_LARGE,
            Refusal::BodyTooLarge => StatusCode::PAYLOAD_TOO_LARGE,
            Refusal::NoRoom => StatusCode::SERVICE_UNAVAILABLE,
            Refusal::UnknownCoding => StatusCode::NOT_IMPLEMENTED,
            Refusal::UnknownVersion => StatusCode::HTTP_VERSION_NOT_SUPPORTED,
        }
    }

    /// What a head or a body is refused for that can't be read.
    pub(crate) fn of_unreadable(error: ReadError) -> Refusal {
        match error {
            ReadError::UriTooLong => Refusal::UriTooLong,
            ReadError::Parse(httparse::Error::Version) => Refusal::UnknownVersion,
            _ => {
                if error.status() == 431 {
                    Refusal::FieldsTooLarge
                } else {
                    Refusal::BadRequest
                }
            }
        }
    }

    /// What a head is refused for of which `http` can't hold a part.
    pub(crate) fn of_part(error: http::Error) -> Refusal {
        match error {
            http::Error::HeaderName | http::Error::MaxSizeReached => Refusal::FieldsTooLarge,
            http::Error::Uri(e) if e.is_too_long() => Refusal::UriTooLong,
            _ => Refusal::BadRequest,
        }
    }
}

/// Where a connection is.
#[derive(Clone, Copy, Debug, PartialEq, Eq)]
pub enum Phase {
    /// No byte of a next request has come, and nothing waits to be written.
    Idle,
    /// A part of a request has come.
    Receiving,
    /// An answer waits to be written, or more pieces of it follow.
    Answering,
    /// A request was refused: the rest of its body is read and thrown away, beside the writing of
    /// the answer.
    Discarding,
    /// All is written: shut down writing. What still comes is thrown away (RFC 9112, section 9.6).
    Closing,
    /// Close it.
    Done,
}
