//! What a reply means for the batch that was sent.

ghost use Rattle.std.specs.Prelude.{◌≡◌};
ghost use Rattle.std.specs.Result.{result_map_both};
ghost use Rattle.retry_core.specs.Retries.{outcome_view};
ghost use Rattle.otlp_http.specs.Outcomes as model;
ghost use Rattle.otlp_http.specs.Outcomes.{reply_view};

use crate::reply::Reply;
use http_wire::HttpFault;
use otlp_wire::read_rejected_spans;
use retry_core::Outcome;
use std::alloc::Allocator;

/// What the body of a reply says that was taken.
fn outcome_of_body<A: Allocator>(body: &Result<Vec<u8, A>, HttpFault>) -> Outcome
    ensures { outcome_view result ≡
        model.outcome_of_body (result_map_both (λ v. v.items) (λ fault. fault) body.now) }
{
    let Ok(body) = body else {
        return Outcome::Delivered;
    };
    match read_rejected_spans(body) {
        Ok(rejected) if rejected > 0 => Outcome::Partial(rejected),
        _ => Outcome::Delivered,
    }
}

/// What came of an attempt, by the collector's reply or by why there is none (OTLP Specification,
/// "OTLP/HTTP Response"). It takes no memory.
///
/// A status from 200 to 299 is `Partial` where the body could be had and, read as a response, says
/// that spans were rejected, and else `Delivered`. 429, 502, 503 and 504 are `Later`, with what the
/// reply asks for, and any other status is `Refused`. Where the bytes ended or the device failed
/// before a whole head had come, or memory for it was refused, it is `NoReply`; any other fault is
/// `Bad`. (profile)
pub fn outcome_of<A: Allocator>(reply: &Result<Reply<A>, HttpFault>) -> Outcome
    ensures { outcome_view result ≡
        model.outcome_of (result_map_both reply_view (λ fault. fault) reply.now) }
{
    match reply {
        Ok(reply) => match reply.status {
            200..=299 => outcome_of_body(&reply.body),
            429 | 502 | 503 | 504 => Outcome::Later {
                status: reply.status,
                after: reply.retry_after,
            },
            status => Outcome::Refused(status),
        },
        Err(HttpFault::Ended | HttpFault::Device | HttpFault::OutOfMemory) => Outcome::NoReply,
        Err(_) => Outcome::Bad,
    }
}
