//! What the head of a request says of its answer.

ghost use Rattle.std.specs.Prelude.{◌≡◌, codes, option_copied};
ghost use Rattle.http.specs.Request.{head_of};
ghost use Rattle.http_header.specs.HeaderMap.{get_all};
ghost use Rattle.http_uri.specs.Uri.{uri_path};
ghost use Rattle.http_connection.specs.Heads.{head_in};
ghost use Rattle.otlp_receiver.specs.Requests as spec;

use crate::reply::denial::Denial;
use crate::reply::format::Format;
use crate::reply::hosts::is_same_word;
use bytes::Bytes;
use http::Request;

/// The path of a request, without its query.
pub fn path_of(request: &Request<Bytes>) -> &str
    ensures { result.now ≡ uri_path (head_of request.now).uri }
{
    request.uri().path()
}

/// Whether exporters of OTLP post to this path.
pub fn is_export_path(path: &str) -> bool
    ensures { result ≡ spec.is_export_path path.now }
{
    path == "/v1/traces" || path == "/v1/metrics" || path == "/v1/logs"
}

/// Why a request for this path is refused, where exporters of OTLP post another signal than traces
/// there (OTLP Specification, "OTLP/HTTP Request").
#[tactic(auto, unfolding(crate::specs::Requests::other_signal))]
pub fn other_signal(path: &str) -> Option<Denial>
    ensures { result ≡ spec.other_signal path.now }
{
    match path {
        "/v1/metrics" => Some(Denial::NoMetrics),
        "/v1/logs" => Some(Denial::NoLogs),
        _ => None,
    }
}

/// Whether a request is an export, or is answered as one: a post, or a request for a path of
/// exports (OTLP Specification, "OTLP/HTTP Request"; profile).
pub fn is_export(request: &Request<Bytes>) -> bool
    ensures { result ≡ spec.is_export (head_of request.now) }
{
    is_export_path(request.uri().path()) || request.method().as_str() == "POST"
}

/// Whether a type ends here.
fn ends_type(rest: &[u8]) -> bool
    ensures { result ≡ spec.ends_type rest.now }
{
    match rest {
        [] => true,
        [byte, ..] => *byte == b';' || *byte == b' ' || *byte == b'\t',
    }
}

/// Whether a type is that of JSON.
fn is_json_type(kind: &[u8]) -> bool
    ensures { result ≡ spec.is_json_type kind.now }
{
    let (front, rest) = kind.split_at(16usize.min(kind.len()));
    is_same_word(front, b"application/json") && ends_type(rest)
}

/// Whether the body of a request is of JSON, by its first Content-Type (RFC 9110, section 8.3).
pub fn is_json(request: &Request<Bytes>) -> bool
    ensures { result ≡ spec.is_json (get_all (head_of request.now).headers (codes "content-type")) }
{
    match request.headers().get_all("content-type").iter().next() {
        Some(kind) => is_json_type(kind.as_bytes()),
        None => false,
    }
}

/// In what a request is refused: an export in its own type (OTLP Specification, "OTLP/HTTP
/// Response"), any other by a text. A request whose head isn't known is taken for an export.
pub fn denial_format(request: Option<&Request<Bytes>>) -> Format
    ensures { result ≡ spec.denial_format (head_in (option_copied request.entry)) }
{
    let Some(request) = request else {
        return Format::Protobuf;
    };
    if !is_export(request) {
        return Format::Text;
    }
    if is_json(request) {
        Format::Json
    } else {
        Format::Protobuf
    }
}
