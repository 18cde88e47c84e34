//! Pages of a service.

ghost use Rattle.std.specs.Prelude.{◌≡◌, OnOk};
ghost use Rattle.http_server.specs.Response.{IsBlank};
ghost use Rattle.otlp_receiver.specs.Pages as spec;
ghost use Rattle.otlp_receiver.specs.Pages.{IsPage};

use crate::reply::format::{Format, add_format};
use bytes::Bytes;
use http::StatusCode;
use http_server::Response;
use std::alloc::AllocError;

/// Whether pages have a method: GET or HEAD (RFC 9110, sections 9.3.1 and 9.3.2).
#[tactic(auto, unfolding(crate::specs::Pages::is_read))]
pub fn is_read(method: &str) -> bool
    ensures { result ≡ spec.is_read method.now }
{
    matches!(method, "GET" | "HEAD")
}

/// Makes a blank response a page: this status, the fields of this format, and this body.
///
/// # Errors
///
/// `AllocError` where memory was refused. The response is then unfinished.
pub fn fill_page(
    response: &mut Response,
    status: StatusCode,
    format: Format,
    body: Vec<u8>,
) -> Result<(), AllocError>
    requires { IsBlank response.old }
    ensures { OnOk result (IsPage status format body.items response.new) }
{
    response.status = status;
    add_format(response, format)?;
    let body = Bytes::from_vec(body)?;
    response.body.push(body)
}
