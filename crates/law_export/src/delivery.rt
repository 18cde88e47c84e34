//! One batch, end to end: what a collector takes of the request that carries a body of spans.
ghost use Rattle.law_export.specs.Delivery.{BatchArrives, BrokenReplyIsOneOfTwo};
ghost use Rattle.law_export.specs.Delivery.{BytesAfterAreLeft, UnavailableWantsMemory};

use crate::requests::bytes_mean_one_request;

/// A batch arrives. Whatever spans a body carries (`otlp_proto`'s `body_of` makes such a one),
/// where the request that carries it, as `otlp_http`'s `write_request` writes it, comes whole to
/// the path `/v1/traces` and is within the limits, `otlp_collector`'s `answer` without a canned
/// reply answers 200 and hands out a request that has exactly these spans, each under its resource
/// and scope, or 503 and none, for want of memory. (OTLP Specification, "OTLP/HTTP Request" and
/// "OTLP/HTTP Response"; the limits: profile)
///
/// Where a write failed, what went out is the beginning of one of these two replies. Where the
/// request is taken, no byte after it was read.
pub fn a_batch_arrives()
    ensures whole { BatchArrives }
    ensures broken_off { BrokenReplyIsOneOfTwo }
    ensures appended { BytesAfterAreLeft }
    ensures unavailable { UnavailableWantsMemory }
{
    bytes_mean_one_request();
}
