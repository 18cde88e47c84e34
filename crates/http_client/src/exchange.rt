//! A request over a link.

ghost use Rattle.std.specs.Prelude.{◌≡◌, ◌++◌, ◌&&◌, not, OnErr, OnOk};
ghost use Rattle.std.specs.Result.{result_map_both};
ghost use Rattle.http_exporter.specs.Attempts.{shown, IsSent, IsStopped};
ghost use Rattle.otlp_http.specs.Outcomes.{reply_view};
ghost use Rattle.http_client.specs.Exchanges as spec;
ghost use Rattle.http_client.specs.Exchanges.{IsAnswered, IsExchange};
ghost use Rattle.http_client.specs.KeptLinks.{ComesAfter, ComesTo};
ghost use Rattle.http_client.specs.Requests.{request_view};

use crate::fault::SendFault;
use crate::request::ClientRequest;
use http_exporter::PeekLink;
use http_wire::write_pieces;
use otlp_http::{
    FaultRead, FaultWrite, HeadLimits, HttpFault, LastingReply, Reply, Stopped, read_lasting_reply,
};
use std::alloc::Global;

/// Whether this is `HEAD`.
pub(crate) fn is_head(method: &str) -> bool
    ensures { result ≡ spec.is_head method.now }
{
    method == "HEAD"
}

/// How much of a reply is read.
fn limits_for(method: &str) -> HeadLimits
    ensures { result ≡ spec.limits_for method.now }
{
    let limits = HeadLimits::default();
    if is_head(method) {
        HeadLimits { body: 0, ..limits }
    } else {
        limits
    }
}

/// The reply to a request of this method.
fn reply_to(alloc: Global, method: &str, reply: Reply) -> Reply
    ensures { reply_view result ≡ spec.reply_to method.now (reply_view reply) }
{
    if is_head(method) {
        Reply {
            body: Ok(Vec::new(alloc)),
            ..reply
        }
    } else {
        reply
    }
}

/// Whether a link may carry another request after the reply to a request of this method, by which it
/// lasts or doesn't.
fn may_last(method: &str, lasts: bool) -> bool
    ensures { result ≡ (not (spec.is_head method.now) && lasts) }
{
    !is_head(method) && lasts
}

/// Reads the reply to a request of this method. Whether the link may carry another request after it.
fn read_answer<L: FaultRead + FaultWrite>(
    alloc: Global,
    link: &mut L,
    method: &str,
) -> (Result<Reply, SendFault>, bool)
    ensures { IsAnswered
        (shown L.contents L.remaining L.FaultWrite.failures L.FaultRead.failures)
        method.now link.old link.new
        (result_map_both reply_view (λ fault. fault) result.0) result.1 }
{
    let limits = limits_for(method);
    match read_lasting_reply(alloc, alloc, link, &limits) {
        Ok(read) => {
            let LastingReply { reply, lasts } = read;
            let lasts = may_last(method, lasts);
            (Ok(reply_to(alloc, method, reply)), lasts)
        }
        Err(fault) => (Err(SendFault::NoReply(fault)), false),
    }
}

/// Sends the head and the body over this link.
///
/// # Errors
///
/// Where a write failed: a beginning of them went out, and not all.
fn send_text<L: FaultRead + FaultWrite>(
    link: &mut L,
    head: &[u8],
    request: &ClientRequest<'_>,
) -> Result<(), Stopped>
    ensures sent { OnOk result (IsSent
        (shown L.contents L.remaining L.FaultWrite.failures L.FaultRead.failures)
        (head.now ++ (request_view request.now).body) link.old link.new) }
    ensures stopped { OnErr result (IsStopped
        (shown L.contents L.remaining L.FaultWrite.failures L.FaultRead.failures)
        (head.now ++ (request_view request.now).body) link.old link.new) }
{
    match write_pieces(link, &[head, request.body]) {
        Ok(()) => Ok(()),
        Err(stopped) => Err(stopped),
    }
}

/// Sends the head and the body over this link, and reads the reply. Whether the link may carry
/// another request after it.
///
/// # Errors
///
/// `NotSent` where a write failed, and `NoReply` where what came back is no reply.
pub(crate) fn exchange<L: FaultRead + FaultWrite>(
    alloc: Global,
    link: &mut L,
    head: &[u8],
    request: &ClientRequest<'_>,
) -> (Result<Reply, SendFault>, bool)
    ensures { IsExchange
        (shown L.contents L.remaining L.FaultWrite.failures L.FaultRead.failures)
        (request_view request.now).method (head.now ++ (request_view request.now).body)
        link.old link.new (result_map_both reply_view (λ fault. fault) result.0) result.1 }
{
    match send_text(link, head, request) {
        Ok(()) => read_answer(alloc, link, request.method),
        Err(_) => (Err(SendFault::NotSent), false),
    }
}

/// What comes of a request that goes over a link which was kept.
#[derive(Drop)]
pub(crate) enum Came {
    /// Nothing of a reply, for this cause.
    Nothing(SendFault),
    /// The beginning of a reply at least: the reply, or why there is none, and whether the link may
    /// carry another request after it.
    Answer(Result<Reply, SendFault>, bool),
}

/// Reads the reply to a request of this method, if one begins.
fn answer_if_any<L: PeekLink>(alloc: Global, link: &mut L, method: &str) -> Came
    ensures { ComesAfter
        (shown L.contents L.remaining L.FaultWrite.failures L.FaultRead.failures)
        method.now link.old link.new result }
{
    let begins = match link.peek() {
        Ok(begins) => begins,
        Err(_) => return Came::Nothing(SendFault::NoReply(HttpFault::Device)),
    };
    if !begins {
        return Came::Nothing(SendFault::NoReply(HttpFault::Ended));
    }
    let (result, lasts) = read_answer(alloc, link, method);
    Came::Answer(result, lasts)
}

/// Sends the head and the body over a link that was kept, and reads the reply, if one begins.
pub(crate) fn exchange_kept<L: PeekLink>(
    alloc: Global,
    link: &mut L,
    head: &[u8],
    request: &ClientRequest<'_>,
) -> Came
    ensures { ComesTo
        (shown L.contents L.remaining L.FaultWrite.failures L.FaultRead.failures)
        (request_view request.now).method (head.now ++ (request_view request.now).body)
        link.old link.new result }
{
    match send_text(link, head, request) {
        Ok(()) => answer_if_any(alloc, link, request.method),
        Err(_) => Came::Nothing(SendFault::NotSent),
    }
}
