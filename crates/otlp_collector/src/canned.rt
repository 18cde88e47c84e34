//! Replies that are in place of a 200.

ghost use Rattle.std.specs.Prelude.{◌≡◌};
ghost use Rattle.otlp_collector.specs.Answering.{canned_reply, canned_status};

use otlp_serve::{PostReply, ReplyStatus};

/// A status of a reply that is canned: that of a collector that takes a request, or of one that
/// takes it and fails after it (OTLP Specification, "Retryable Response Codes").
#[derive(Clone, Copy, Debug, PartialEq, Eq)]
pub enum CannedStatus {
    /// 200.
    Ok,
    /// 429.
    TooManyRequests,
    /// 502.
    BadGateway,
    /// 503.
    ServiceUnavailable,
    /// 504.
    GatewayTimeout,
}

/// What is in place of a 200, so that clients can be tried: a status, and after how many
/// seconds they may try again, if the reply says so. The request is taken all the same. (profile)
#[derive(Clone, Copy, Debug, PartialEq, Eq)]
pub struct Canned {
    /// The status.
    pub status: CannedStatus,
    /// The seconds of Retry-After (RFC 9110, section 10.2.3).
    pub retry_after: Option<u64>,
}

impl CannedStatus {
    /// The status of the reply.
    fn status(self) -> ReplyStatus
        ensures { result ≡ canned_status self }
    {
        match self {
            CannedStatus::Ok => ReplyStatus::Ok,
            CannedStatus::TooManyRequests => ReplyStatus::TooManyRequests,
            CannedStatus::BadGateway => ReplyStatus::BadGateway,
            CannedStatus::ServiceUnavailable => ReplyStatus::ServiceUnavailable,
            CannedStatus::GatewayTimeout => ReplyStatus::GatewayTimeout,
        }
    }
}

/// The reply to a request that is taken.
pub(crate) fn canned_reply(canned: Option<Canned>) -> PostReply
    ensures { result ≡ canned_reply canned }
{
    match canned {
        Some(
            Canned {
                status,
                retry_after,
            },
        ) => PostReply {
            status: status.status(),
            retry_after,
        },
        None => PostReply {
            status: ReplyStatus::Ok,
            retry_after: None,
        },
    }
}
