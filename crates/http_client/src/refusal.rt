//! Which requests are refused.

ghost use Rattle.std.specs.Prelude.{◌≡◌};
ghost use Rattle.std.specs.List.{list_all, list_any};
ghost use Rattle.httparse.specs.Grammar.{is_value_byte};
ghost use Rattle.trace_context.specs.Carriers.{is_same_name};
ghost use Rattle.http_client.specs.Refusals as spec;
ghost use Rattle.http_client.specs.Requests.{lent_fields, request_view};

use crate::fault::SendFault;
use crate::request::ClientRequest;
use httparse::is_token;

/// The names of the fields that the client sets itself, or that say otherwise how long a body is.
const OWN_NAMES: [&str; 6] = [
    "host",
    "connection",
    "content-length",
    "transfer-encoding",
    "traceparent",
    "tracestate",
];

/// Whether two names are the same, in letters of either case.
fn is_same_name(name: &str, other: &str) -> bool
    ensures { result ≡ is_same_name name.now other.now }
{
    name.as_bytes().eq_ignore_ascii_case(other.as_bytes())
}

/// Whether one of these names is this one.
fn is_among(names: &[&str], name: &str) -> bool
    ensures { result ≡ list_any (λ other. is_same_name name.now other.now) names.now }
{
    names.iter().any(|other| is_same_name(name, other))
}

/// Whether this is the name of a field of the client's own.
fn is_own(name: &str) -> bool
    ensures { result ≡ spec.is_own name.now }
{
    is_among(&OWN_NAMES, name)
}

/// Whether this is a method that a request may have.
fn is_method(method: &str) -> bool
    ensures { result ≡ spec.is_method method.now }
{
    is_token(method.as_bytes()) && method != "CONNECT"
}

/// Whether each byte may be in a value.
fn is_value(value: &[u8]) -> bool
    ensures { result ≡ list_all is_value_byte value.now }
{
    value
        .iter()
        .all(|b| *b == b'\t' || (*b >= b' ' && *b != 127))
}

/// Whether this is a field that a request may have.
fn is_field(name: &str, value: &[u8]) -> bool
    ensures { result ≡ spec.is_field (name.now, value.now) }
{
    is_token(name.as_bytes()) && !is_own(name) && is_value(value)
}

/// Whether each that is lent is one.
fn are_lent(fields: &[(&str, &[u8])]) -> bool
    ensures { result ≡ list_all (λ f. spec.is_field (f.0.now, f.1.now)) fields.now }
{
    fields.iter().all(|f| is_field(f.0, f.1))
}

/// Whether each is one.
#[tactic(auto, using(crate::proofs::Fields::all_viewed))]
fn are_fields(fields: &[(&str, &[u8])]) -> bool
    ensures { result ≡ list_all spec.is_field (lent_fields fields.now) }
{
    are_lent(fields)
}

/// Whether a request of this method may have this body.
fn is_body(method: &str, body: &[u8]) -> bool
    ensures { result ≡ spec.is_body method.now body.now }
{
    !(method == "TRACE" && !body.is_empty())
}

/// Why a request isn't sent, if it isn't: the first that holds of `BadMethod`, where the method is no
/// token or is `CONNECT`; `BadField`, where the name of a field is no token, or is that of a field
/// which the client sets itself or `Transfer-Encoding`, or a value has a control byte that is no tab;
/// and `BadBody`, where a `TRACE` has a body (RFC 9110, sections 5, 9.1 and 9.3.8).
#[tactic(auto, unfolding(crate::specs::Refusals::refusal))]
pub fn refusal_of(request: &ClientRequest<'_>) -> Option<SendFault>
    ensures { result ≡ spec.refusal (request_view request.now) }
{
    if !is_method(request.method) {
        return Some(SendFault::BadMethod);
    }
    if !are_fields(request.fields) {
        return Some(SendFault::BadField);
    }
    if !is_body(request.method, request.body) {
        return Some(SendFault::BadBody);
    }
    None
}
