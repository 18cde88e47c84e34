//! Which requests a service refuses by their head, and what it says where the connection refuses
//! one.

ghost use Rattle.std.specs.Prelude.{◌≡◌};
ghost use Rattle.http.specs.Request.{head_of};
ghost use Rattle.otlp_receiver.specs.Judged as spec;

use crate::reply::denial::Denial;
use crate::reply::hosts::Hosts;
use crate::reply::request::path_of;
use bytes::Bytes;
use http::Request;
use http_connection::Refusal;

/// Whether a request may ask a service under these hosts: it is for one of them, or for `/healthz`,
/// which what probes a service asks under an address of its own, or without one. What is answered
/// there says no more than whether the service is well.
pub fn may_ask(hosts: &Hosts, head: &Request<Bytes>) -> bool
    ensures { result ≡ spec.may_ask hosts.now (head_of head.now) }
{
    hosts.allow_request(head) || path_of(head) == "/healthz"
}

/// Why a service refuses a request by its head, if it does, where this many bytes may still be
/// pending and the head says that the body has so many: it may not ask under these hosts, or there
/// is no room for it.
pub fn head_denial(
    hosts: &Hosts,
    head: &Request<Bytes>,
    body: Option<u64>,
    room: usize,
) -> Option<Denial>
    ensures { result ≡ spec.head_denial hosts.now (head_of head.now) body room }
{
    if !may_ask(hosts, head) {
        return Some(Denial::Host);
    }
    if room == 0 || body.unwrap_or(0) > room as u64 {
        return Some(Denial::NoRoom);
    }
    None
}

/// What a service says where the connection refuses a request.
pub fn denial_by(refusal: Refusal) -> Denial
    ensures { result ≡ spec.denial_by refusal }
{
    match refusal {
        Refusal::BadRequest => Denial::BadRequest,
        Refusal::UriTooLong => Denial::UriTooLong,
        Refusal::FieldsTooLarge => Denial::FieldsTooLarge,
        Refusal::BodyTooLarge => Denial::BodyTooLarge,
        Refusal::NoRoom => Denial::NoRoom,
        Refusal::UnknownCoding => Denial::UnknownCoding,
        Refusal::UnknownVersion => Denial::UnknownVersion,
    }
}
