//! The statuses that a collector answers.

ghost use Rattle.std.specs.Prelude.{◌≡◌, ◌≤◌, length};
ghost use Rattle.otlp_serve.specs.Replies.{code_of, reason_of};

/// A status that a collector answers (RFC 9110, section 15; RFC 6585, sections 4 and 5; which ones:
/// OTLP Specification, "OTLP/HTTP Response", and profile).
#[derive(Clone, Copy, Debug, PartialEq, Eq)]
pub enum ReplyStatus {
    /// 200: the request was taken.
    Ok,
    /// 400: it isn't a request, or its body can't be read.
    BadRequest,
    /// 404: it doesn't go to the path of traces.
    NotFound,
    /// 405: its method isn't POST.
    MethodNotAllowed,
    /// 413: its body is too large.
    ContentTooLarge,
    /// 415: its body is of another type, or encoded.
    UnsupportedMediaType,
    /// 429: too many came.
    TooManyRequests,
    /// 431: its head is too large.
    RequestHeaderFieldsTooLarge,
    /// 502: what comes after the collector failed.
    BadGateway,
    /// 503: it can't be taken now.
    ServiceUnavailable,
    /// 504: what comes after the collector didn't answer in time.
    GatewayTimeout,
}

impl ReplyStatus {
    /// Its three digits.
    pub fn code(self) -> u16
        ensures { result ≡ code_of self }
    {
        match self {
            ReplyStatus::Ok => 200,
            ReplyStatus::BadRequest => 400,
            ReplyStatus::NotFound => 404,
            ReplyStatus::MethodNotAllowed => 405,
            ReplyStatus::ContentTooLarge => 413,
            ReplyStatus::UnsupportedMediaType => 415,
            ReplyStatus::TooManyRequests => 429,
            ReplyStatus::RequestHeaderFieldsTooLarge => 431,
            ReplyStatus::BadGateway => 502,
            ReplyStatus::ServiceUnavailable => 503,
            ReplyStatus::GatewayTimeout => 504,
        }
    }

    /// Its reason phrase.
    pub fn reason(self) -> &'static str
        ensures { result.now ≡ reason_of self }
    {
        match self {
            ReplyStatus::Ok => "OK",
            ReplyStatus::BadRequest => "Bad Request",
            ReplyStatus::NotFound => "Not Found",
            ReplyStatus::MethodNotAllowed => "Method Not Allowed",
            ReplyStatus::ContentTooLarge => "Content Too Large",
            ReplyStatus::UnsupportedMediaType => "Unsupported Media Type",
            ReplyStatus::TooManyRequests => "Too Many Requests",
            ReplyStatus::RequestHeaderFieldsTooLarge => "Request Header Fields Too Large",
            ReplyStatus::BadGateway => "Bad Gateway",
            ReplyStatus::ServiceUnavailable => "Service Unavailable",
            ReplyStatus::GatewayTimeout => "Gateway Timeout",
        }
    }
}
