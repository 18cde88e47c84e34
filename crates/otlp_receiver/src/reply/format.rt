//! In what answers are written.

ghost use Rattle.std.specs.Prelude.{◌≡◌, ◌∷◌, ◌++◌, [], IsTrue, OnOk};
ghost use Rattle.http_header.specs.FieldName.{is_header_name};
ghost use Rattle.http_header.specs.FieldValue.{is_visible_text};
ghost use Rattle.http_server.specs.Response.{fields_of};
ghost use Rattle.otlp_receiver.specs.Formats.{format_fields, safety_fields, type_of};

use http::{HeaderName, HeaderValue};
use http_server::Response;
use std::alloc::AllocError;

/// In what an answer is written.
#[derive(Clone, Copy, Debug, PartialEq, Eq)]
pub enum Format {
    /// A page of HTML.
    Html,
    /// A style sheet.
    Css,
    /// A script.
    JavaScript,
    /// Plain text.
    Text,
    /// JSON.
    Json,
    /// The text format of Prometheus.
    Prometheus,
    /// A message of Protocol Buffers.
    Protobuf,
}

impl Format {
    /// Its media type.
    fn media_type(self) -> &'static str
        ensures value { result.now ≡ type_of self }
        ensures visible { IsTrue (is_visible_text result.now) }
    {
        match self {
            Format::Html => "text/html; charset=utf-8",
            Format::Css => "text/css; charset=utf-8",
            Format::JavaScript => "text/javascript; charset=utf-8",
            Format::Text => "text/plain; charset=utf-8",
            Format::Json => "application/json",
            Format::Prometheus => "text/plain; version=0.0.4; charset=utf-8",
            Format::Protobuf => "application/x-protobuf",
        }
    }
}

/// What the pages may load and do. Their own markup places bars by `style` attributes.
const POLICY: &str = "default-src 'none'; style-src 'self' 'unsafe-inline'; script-src 'self'; \
    form-action 'self'; frame-ancestors 'none'; base-uri 'none'";

/// Adds a field.
pub(crate) fn add_field(
    response: &mut Response,
    name: &'static str,
    value: &'static str,
) -> Result<(), AllocError>
    requires name { IsTrue (is_header_name name.now) }
    requires value { IsTrue (is_visible_text value.now) }
    ensures fields { OnOk result (fields_of response.new
        ≡ fields_of response.old ++ (name.now, value.now) ∷ []) }
    ensures status { response.new.status ≡ response.old.status }
    ensures body { response.new.body ≡ response.old.body }
{
    response.add_header(
        HeaderName::from_static(name),
        HeaderValue::from_static(value),
    )
}

/// Adds the fields that say what a browser may do with an answer.
fn add_safety(response: &mut Response) -> Result<(), AllocError>
    ensures fields { OnOk result (fields_of response.new
        ≡ fields_of response.old ++ safety_fields) }
    ensures status { response.new.status ≡ response.old.status }
    ensures body { response.new.body ≡ response.old.body }
{
    add_field(response, "x-content-type-options", "nosniff")?;
    add_field(response, "content-security-policy", POLICY)?;
    add_field(response, "referrer-policy", "no-referrer")?;
    Ok(())
}

/// Adds the fields of an answer in a format: its type, and what a browser may do with it.
///
/// # Errors
///
/// `AllocError` where memory was refused. The response is then unfinished.
pub fn add_format(response: &mut Response, format: Format) -> Result<(), AllocError>
    ensures fields { OnOk result (fields_of response.new
        ≡ fields_of response.old ++ format_fields format) }
    ensures status { response.new.status ≡ response.old.status }
    ensures body { response.new.body ≡ response.old.body }
{
    add_field(response, "content-type", format.media_type())?;
    match format {
        Format::Protobuf => {}
        _ => add_safety(response)?,
    }
    Ok(())
}
