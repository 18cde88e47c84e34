//! What a server's span says of its request (Semantic Conventions, "HTTP spans", "HTTP server").

ghost use Rattle.std.specs.Prelude.{◌≡◌, IfOk, option_map, string_bytes};
ghost use Rattle.std.specs.Option.{option_copied};
ghost use Rattle.http.specs.Request.{head_of};
ghost use Rattle.trace_api.specs.Lent.{lent_pairs};
ghost use Rattle.traced_http.specs.Attributes as spec;

use crate::method::KnownMethods;
use crate::query::redacted_query;
use crate::server::start::ServerName;
use crate::span::push_text;
use bytes::Bytes;
use http::{HeaderMap, HeaderValue, Request, Version};
use otlp_ids::OutOfMemory;
use std::alloc::Global;
use std::str;
use trace_api::{KeyValue, ValueRef, int_value, text_pair};

/// The version of HTTP, without its name.
fn version_text(version: Version) -> &'static str
    ensures { result.now ≡ spec.version_text version }
{
    if version == Version::HTTP_10 {
        "1.0"
    } else {
        "1.1"
    }
}

/// The bytes as a text, if they are one.
fn text_of(bytes: &[u8]) -> Option<&str>
    ensures { option_copied result ≡ spec.text_of bytes.now }
{
    match str::from_utf8(bytes) {
        Ok(text) => Some(text),
        Err(_) => None,
    }
}

/// What the client calls itself, if it says so in text.
fn user_agent(headers: &HeaderMap<HeaderValue>) -> Option<&str>
    ensures { option_copied result ≡ spec.user_agent headers.now }
{
    match headers.get("user-agent") {
        Some(value) => text_of(value.as_bytes()),
        None => None,
    }
}

/// The query of a request's target without its secrets, if it has one.
///
/// # Errors
///
/// `OutOfMemory` where memory was refused.
pub(crate) fn shown_query(
    alloc: Global,
    request: &Request<Bytes>,
) -> Result<Option<String>, OutOfMemory>
    ensures { IfOk result (λ query. option_map string_bytes query
        ≡ spec.shown_query (head_of request.now)) }
{
    match request.uri().query() {
        Some(query) => Ok(Some(redacted_query(alloc, query)?)),
        None => Ok(None),
    }
}

/// The attributes that a span starts with.
///
/// # Errors
///
/// `OutOfMemory` where memory was refused.
pub(crate) fn request_pairs<'a>(
    alloc: Global,
    known: &KnownMethods,
    request: &'a Request<Bytes>,
    query: Option<&'a str>,
    route: Option<&'a str>,
    server: &ServerName<'a>,
) -> Result<Vec<KeyValue<'a>>, OutOfMemory>
    requires { option_copied query ≡ spec.shown_query (head_of request.now) }
    ensures { IfOk result (λ pairs. lent_pairs pairs.items
        ≡ spec.request_pairs (head_of request.now) (option_copied route.entry)
        (spec.server_view server.now known.now)) }
{
    let method = request.method().as_str();
    let mut pairs = vec![in alloc;
        text_pair("http.request.method", known.shown(method)),
        text_pair("url.path", request.uri().path()),
        text_pair("url.scheme", "http"),
        text_pair("server.address", server.address),
        KeyValue {
            key: "server.port",
            value: ValueRef::Int(int_value(server.port))
        },
        text_pair("network.protocol.version", version_text(request.version())),
    ]?;
    push_text(&mut pairs, "url.query", query)?;
    push_text(&mut pairs, "http.route", route)?;
    push_text(
        &mut pairs,
        "http.request.method_original",
        known.original(method),
    )?;
    push_text(
        &mut pairs,
        "user_agent.original",
        user_agent(request.headers()),
    )?;
    Ok(pairs)
}
