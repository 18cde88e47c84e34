//! A request, and its text.

ghost use Rattle.std.specs.Prelude.{◌≡◌, ◌++◌, IfOk, OnOk, flat_map, string_bytes};
ghost use Rattle.trace_context.specs.Pairs.{fields_view};
ghost use Rattle.http_client.specs.Requests as spec;

use itoa::Buffer;
use otlp_http::{Connection, Target};
use otlp_ids::OutOfMemory;
use std::alloc::Global;

/// A request (RFC 9110, section 6). All of it is lent.
#[derive(Debug, Clone, Copy)]
pub struct ClientRequest<'a> {
    /// Its method, as `POST`: a token, and not `CONNECT`.
    pub method: &'a str,
    /// Its fields, names and values, beside those that the client sets: `Host`, `Connection`,
    /// `Content-Length`, `traceparent` and `tracestate`.
    pub fields: &'a [(&'a str, &'a [u8])],
    /// Its body. Where it is empty, the request has none.
    pub body: &'a [u8],
}

/// A field that carries a context: its name and its value.
pub(crate) type Field = (String, Vec<u8>);

/// Adds the request line (RFC 9112, section 3).
fn push_request_line(text: &mut Vec<u8>, method: &[u8], path: &[u8]) -> Result<(), OutOfMemory>
    ensures { OnOk result (text.new.items
        ≡ text.old.items ++ spec.request_line method.now path.now) }
{
    text.extend_from_slice(method)?;
    text.extend_from_slice(b" ")?;
    text.extend_from_slice(path)?;
    text.extend_from_slice(b" HTTP/1.1\r\n")?;
    Ok(())
}

/// Adds the field that says for which host a request is (RFC 9112, section 3.2).
fn push_host_line(text: &mut Vec<u8>, host: &[u8], port: &[u8]) -> Result<(), OutOfMemory>
    ensures { OnOk result (text.new.items ≡ text.old.items ++ spec.host_line host.now port.now) }
{
    text.extend_from_slice(b"Host: ")?;
    text.extend_from_slice(host)?;
    text.extend_from_slice(b":")?;
    text.extend_from_slice(port)?;
    text.extend_from_slice(b"\r\n")?;
    Ok(())
}

/// Adds the request line and the field that each request has (RFC 9112, sections 3 and 3.2).
fn push_first_lines(text: &mut Vec<u8>, method: &[u8], target: &Target) -> Result<(), OutOfMemory>
    ensures { OnOk result (text.new.items
        ≡ text.old.items ++ spec.first_lines method.now target.now) }
{
    let mut port = Buffer::new();
    let port = port.format(target.port());
    push_request_line(text, method, target.path().as_bytes())?;
    push_host_line(text, target.host().as_bytes(), port.as_bytes())
}

/// Adds the line of a field (RFC 9112, section 5).
fn push_field(text: &mut Vec<u8>, name: &[u8], value: &[u8]) -> Result<(), OutOfMemory>
    ensures { OnOk result (text.new.items ≡ text.old.items
        ++ spec.field_line (name.now, value.now)) }
{
    text.extend_from_slice(name)?;
    text.extend_from_slice(b": ")?;
    text.extend_from_slice(value)?;
    text.extend_from_slice(b"\r\n")?;
    Ok(())
}

/// Adds the lines of the fields that carry a context.
fn push_carried(text: &mut Vec<u8>, fields: &[Field]) -> Result<(), OutOfMemory>
    ensures { OnOk result (text.new.items ≡ text.old.items
        ++ flat_map spec.field_line (fields_view fields.now)) }
{
    for (name, value) in fields {
        push_field(text, name.as_bytes(), value.as_slice())?;
    }
    Ok(())
}

/// Adds the lines of a request's own fields.
fn push_lent(text: &mut Vec<u8>, fields: &[(&str, &[u8])]) -> Result<(), OutOfMemory>
    ensures { OnOk result (text.new.items ≡ text.old.items
        ++ flat_map spec.field_line (spec.lent_fields fields.now)) }
{
    for (name, value) in fields {
        push_field(text, name.as_bytes(), value)?;
    }
    Ok(())
}

/// Whether a request of this method is expected to have a body (RFC 9110, section 8.6).
#[tactic(auto, unfolding(crate::specs::Requests::expects_body))]
fn expects_body(method: &str) -> bool
    ensures { result ≡ spec.expects_body method.now }
{
    matches!(method, "PATCH" | "POST" | "PUT")
}

/// Adds the line that says how long the body is, where a request says it.
fn push_length(text: &mut Vec<u8>, method: &str, body: &[u8]) -> Result<(), OutOfMemory>
    ensures { OnOk result (text.new.items
        ≡ text.old.items ++ spec.length_lines method.now body.now) }
{
    if body.is_empty() && !expects_body(method) {
        return Ok(());
    }
    let mut digits = Buffer::new();
    let digits = digits.format(body.len());
    push_field(text, b"Content-Length", digits.as_bytes())
}

/// The head of a request that asks this of its connection, with these fields that carry a context
/// (RFC 9112, sections 3 and 5).
///
/// # Errors
///
/// `OutOfMemory` where memory was refused.
#[tactic(auto, unfolding(crate::specs::Requests::request_head))]
pub(crate) fn request_head(
    alloc: Global,
    connection: Connection,
    target: &Target,
    carried: &[Field],
    request: &ClientRequest<'_>,
) -> Result<Vec<u8>, OutOfMemory>
    ensures { IfOk result (λ text. text.items
        ≡ spec.request_head connection target.now (fields_view carried.now)
        (spec.request_view request.now)) }
{
    let mut text = Vec::new(alloc);
    push_first_lines(&mut text, request.method.as_bytes(), target)?;
    push_carried(&mut text, carried)?;
    push_lent(&mut text, request.fields)?;
    push_length(&mut text, request.method, request.body)?;
    text.extend_from_slice(connection.line())?;
    text.extend_from_slice(b"\r\n")?;
    Ok(text)
}
