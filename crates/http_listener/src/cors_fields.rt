//! The fields of an answer that let a page of another origin post.

ghost use Rattle.std.specs.Prelude.{◌≡◌, ◌∷◌, ◌++◌, [], IfOk, IsTrue, OnOk, option_copied};
ghost use Rattle.http.specs.Request.{head_of};
ghost use Rattle.http_listener.specs.CorsFields as spec;
ghost use Rattle.http_listener.specs.CorsFields.{AllowsOrigin, allow_fields, asked_fields};
ghost use Rattle.http_listener.specs.CorsFields.{posting_fields, preflight_fields};
ghost use Rattle.http_header.specs.FieldName.{is_header_name};
ghost use Rattle.http_header.specs.FieldValue.{is_visible_text};
ghost use Rattle.http_header.specs.Token.{lowercase};
ghost use Rattle.http_server.specs.Response.{fields};

use crate::origins::Origins;
use bytes::Bytes;
use http::{HeaderName, HeaderValue, Request};
use http_server::Response;
use std::alloc::{AllocError, Global};

/// Fields of an answer.
type Fields = Vec<(HeaderName, HeaderValue)>;

/// The value of a field that a request has once.
fn value_in<'a>(name: &str, request: &'a Request<Bytes>) -> Option<&'a HeaderValue>
    ensures { option_copied result
        ≡ spec.value_in (lowercase name.now) (head_of request.now) }
{
    let mut values = request.headers().get_all(name).iter();
    match (values.next(), values.next()) {
        (Some(value), None) => Some(value),
        _ => None,
    }
}

/// Adds a field with a value that is always the same.
fn add(list: &mut Fields, name: &'static str, value: &'static str) -> Result<(), AllocError>
    requires name { IsTrue (is_header_name name.now) }
    requires value { IsTrue (is_visible_text value.now) }
    ensures { OnOk result (fields list.new.items
        ≡ fields list.old.items ++ (name.now, value.now) ∷ []) }
{
    let value = HeaderValue::from_static(value);
    Ok(list.push((HeaderName::from_static(name), value))?)
}

/// Adds a field with a value that a request has.
fn add_copy(list: &mut Fields, name: &'static str, value: &HeaderValue) -> Result<(), AllocError>
    requires { IsTrue (is_header_name name.now) }
    ensures { OnOk result (fields list.new.items
        ≡ fields list.old.items ++ (name.now, value.now.bytes) ∷ []) }
{
    let value = value.clone()?;
    Ok(list.push((HeaderName::from_static(name), value))?)
}

/// Adds the field that allows all fields for which a browser asks, if it does.
fn add_asked(list: &mut Fields, names: Option<&HeaderValue>) -> Result<(), AllocError>
    ensures { OnOk result (fields list.new.items
        ≡ fields list.old.items ++ asked_fields (option_copied names.entry)) }
{
    match names {
        Some(names) => add_copy(list, "access-control-allow-headers", names),
        None => Ok(()),
    }
}

/// Adds the fields with which a browser posts.
fn add_posting(list: &mut Fields, request: &Request<Bytes>) -> Result<(), AllocError>
    ensures { OnOk result (fields list.new.items
        ≡ fields list.old.items ++ posting_fields (head_of request.now)) }
{
    add(list, "access-control-allow-methods", "POST")?;
    add(list, "access-control-max-age", "600")?;
    add_asked(list, value_in("access-control-request-headers", request))?;
    Ok(())
}

/// Adds the fields with which a browser posts, where it asks before it does.
fn add_preflight(list: &mut Fields, request: &Request<Bytes>) -> Result<(), AllocError>
    ensures { OnOk result (fields list.new.items
        ≡ fields list.old.items ++ preflight_fields (head_of request.now)) }
{
    if request.method().as_str() == "OPTIONS" {
        return add_posting(list, request);
    }
    Ok(())
}

/// Adds the fields that let a page of this origin post, and read the answer.
fn add_allow(
    list: &mut Fields,
    origin: &HeaderValue,
    request: &Request<Bytes>,
) -> Result<(), AllocError>
    ensures { OnOk result (fields list.new.items
        ≡ fields list.old.items ++ allow_fields origin.now.bytes (head_of request.now)) }
{
    add_copy(list, "access-control-allow-origin", origin)?;
    add(list, "access-control-allow-credentials", "true")?;
    add(list, "vary", "origin")?;
    add_preflight(list, request)?;
    Ok(())
}

/// The fields for a request, where pages of these origins may post to this path.
fn fields_of(
    alloc: Global,
    origins: &Origins,
    path: &str,
    request: &Request<Bytes>,
) -> Result<Fields, AllocError>
    ensures { IfOk result (λ list. fields list.items
        ≡ spec.cors_fields origins.now path.now (head_of request.now)) }
{
    let mut list = Vec::new(alloc);
    if request.uri().path() != path {
        return Ok(list);
    }
    let Some(origin) = value_in("origin", request) else {
        return Ok(list);
    };
    if origins.has(origin.as_bytes()) {
        add_allow(&mut list, origin, request)?;
    }
    Ok(list)
}

/// Adds the fields for a request to the answer, where pages of these origins may post to this path.
/// Where memory is refused, it adds none.
pub(crate) fn allow_origin(
    alloc: Global,
    origins: &Origins,
    path: &str,
    request: &Request<Bytes>,
    response: &mut Response,
)
    ensures { AllowsOrigin origins.now path.now (head_of request.now) response.old response.new }
{
    let Ok(mut list) = fields_of(alloc, origins, path, request) else {
        return;
    };
    let _ = response.headers.append(&mut list);
}
