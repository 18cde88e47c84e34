//! Why requests are refused, and how a response says so.

ghost use Rattle.std.specs.Prelude.{◌≡◌, ◌<◌, ◌∷◌, ◌++◌, [], IfOk, OnOk, length};
ghost use Rattle.http_server.specs.Response.{IsBlank, fields_of};
ghost use Rattle.otlp_receiver.specs.Denials as spec;
ghost use Rattle.otlp_receiver.specs.Denials.{IsDenial, IsOptions, IsSuccess, allow_fields};
ghost use Rattle.otlp_receiver.specs.Denials.{denial_body, message_of, success_body, wait_fields};

use crate::reply::format::{Format, add_field, add_format};
use bytes::BufMut;
use http::StatusCode;
use http_server::{Response, Rope};
use std::alloc::{AllocError, Global};

/// Why a request is refused.
#[derive(Clone, Copy, Debug, PartialEq, Eq)]
pub enum Denial {
    /// 400: it can't be read as HTTP/1.1.
    BadRequest,
    /// 400: its body can't be read.
    BadBody,
    /// 400: its body isn't the gzip file that it is said to be.
    BadCoding,
    /// 400: a trace id in its body hasn't 16 bytes, or a span id hasn't 8.
    BadIds,
    /// 403: it is for a host that isn't one of the service's.
    Host,
    /// 404: nothing is at its path.
    NoPath,
    /// 404: its path is that of metrics.
    NoMetrics,
    /// 404: its path is that of logs.
    NoLogs,
    /// 405: its path is that of exports, and it isn't posted.
    ExportMethod,
    /// 405: its path is that of a page, and it has a method that pages don't have.
    PageMethod,
    /// 413: its body, or what that means as a gzip file, is larger than the service takes.
    BodyTooLarge,
    /// 413: with its spans, their traces would be larger than all that is kept.
    TracesTooLarge,
    /// 413: reading its body takes more memory than may ever be pending.
    ReadTooLarge,
    /// 414: its target is too long.
    UriTooLong,
    /// 415: its body is of another type, or is encoded otherwise than by gzip.
    MediaType,
    /// 431: the fields of its head are too many, or too large.
    FieldsTooLarge,
    /// 501: its body has a transfer coding that isn't known.
    UnknownCoding,
    /// 503: what keeps spans has failed, as a disk may.
    KeepFailed,
    /// 503: memory was refused.
    OutOfMemory,
    /// 503: with it more would be pending than may be.
    NoRoom,
    /// 505: it is of another version of HTTP.
    UnknownVersion,
}

impl Denial {
    /// The status of the answer.
    pub fn status(self) -> StatusCode
        ensures { result ≡ spec.code_of self }
    {
        match self {
            Denial::BadRequest | Denial::BadBody | Denial::BadCoding | Denial::BadIds => {
                StatusCode::BAD_REQUEST
            }
            Denial::Host => StatusCode::FORBIDDEN,
            Denial::NoPath | Denial::NoMetrics | Denial::NoLogs => StatusCode::NOT_FOUND,
            Denial::ExportMethod | Denial::PageMethod => StatusCode::METHOD_NOT_ALLOWED,
            Denial::BodyTooLarge | Denial::TracesTooLarge | Denial::ReadTooLarge => {
                StatusCode::PAYLOAD_TOO_LARGE
            }
            Denial::UriTooLong => StatusCode::URI_TOO_LONG,
            Denial::MediaType => StatusCode::UNSUPPORTED_MEDIA_TYPE,
            Denial::FieldsTooLarge => StatusCode::REQUEST_HEADER_FIELDS_TOO_LARGE,
            Denial::UnknownCoding => StatusCode::NOT_IMPLEMENTED,
            Denial::KeepFailed | Denial::OutOfMemory | Denial::NoRoom => {
                StatusCode::SERVICE_UNAVAILABLE
            }
            Denial::UnknownVersion => StatusCode::HTTP_VERSION_NOT_SUPPORTED,
        }
    }

    /// What the answer says to the client: what is wrong, and what to do.
    pub fn message(self) -> &'static str
        ensures value { result.now ≡ message_of self }
        ensures short { length result.now < 128 }
    {
        match self {
            Denial::BadRequest => "the request can't be read as HTTP/1.1",
            Denial::BadBody => "the body can't be read as an ExportTraceServiceRequest of its type",
            Denial::BadCoding => "the body can't be read as a gzip file, as Content-Encoding says",
            Denial::BadIds => {
                "a span's trace id hasn't 16 bytes, or its span id hasn't 8: collectors refuse it"
            }
            Denial::Host => "this host isn't one of the service's: start it with --host NAME",
            Denial::NoPath => "no such path: post traces to /v1/traces",
            Denial::NoMetrics => "only traces are taken here: set OTEL_METRICS_EXPORTER=none",
            Denial::NoLogs => "only traces are taken here: set OTEL_LOGS_EXPORTER=none",
            Denial::ExportMethod => "post traces with the method POST",
            Denial::PageMethod => {
                "post traces to /v1/traces: this path is read with the method GET"
            }
            Denial::BodyTooLarge => {
                "the body is too large: export smaller batches, or raise --max-body or --pending-mb"
            }
            Denial::TracesTooLarge => {
                "more than is kept: export smaller batches, or raise --keep-spans or --keep-mb"
            }
            Denial::ReadTooLarge => {
                "reading it takes more than may be pending: export smaller batches, or raise \
                --pending-mb"
            }
            Denial::UriTooLong => "the target of the request is too long",
            Denial::MediaType => {
                "set the exporter's protocol to http/protobuf or http/json, its compression to \
                gzip or none"
            }
            Denial::FieldsTooLarge => "the fields of the request are too large",
            Denial::UnknownCoding => "a transfer coding other than chunked isn't known",
            Denial::KeepFailed => "traces can't be kept: the service's disk has failed",
            Denial::OutOfMemory => "out of memory: try again in a second",
            Denial::NoRoom => "too much is pending: try again in a second",
            Denial::UnknownVersion => {
                "gRPC isn't taken: set OTEL_EXPORTER_OTLP_PROTOCOL=http/protobuf; requests come \
                by HTTP/1.1"
            }
        }
    }
}

/// Adds the field that says which methods are allowed, where the answer has it.
fn add_allow(response: &mut Response, denial: Denial) -> Result<(), AllocError>
    ensures fields { OnOk result (fields_of response.new
        ≡ fields_of response.old ++ allow_fields denial) }
    ensures status { response.new.status ≡ response.old.status }
    ensures body { response.new.body ≡ response.old.body }
{
    match denial {
        Denial::ExportMethod => add_field(response, "allow", "OPTIONS, POST"),
        Denial::PageMethod => add_field(response, "allow", "GET, HEAD"),
        _ => Ok(()),
    }
}

/// Adds the field that says when to try again, where the answer has it.
fn add_wait(response: &mut Response, denial: Denial) -> Result<(), AllocError>
    ensures fields { OnOk result (fields_of response.new
        ≡ fields_of response.old ++ wait_fields denial) }
    ensures status { response.new.status ≡ response.old.status }
    ensures body { response.new.body ≡ response.old.body }
{
    match denial {
        Denial::OutOfMemory | Denial::NoRoom => add_field(response, "retry-after", "1"),
        _ => Ok(()),
    }
}

/// Appends a message of google.rpc.Status.
fn put_status(body: &mut Rope, message: &str) -> Result<(), AllocError>
    requires { length message.now < 128 }
    ensures { OnOk result (body.new.items
        ≡ body.old.items ++ spec.status_message message.now) }
{
    body.put_u8(18)?;
    body.put_u8(message.len() as u8)?;
    body.put_slice(message.as_bytes())
}

/// Appends the same in JSON.
fn put_json(body: &mut Rope, message: &str) -> Result<(), AllocError>
    ensures { OnOk result (body.new.items ≡ body.old.items ++ spec.status_json message.now) }
{
    body.put_slice(b"{\"message\":\"")?;
    body.put_slice(message.as_bytes())?;
    body.put_slice(b"\"}")?;
    Ok(())
}

/// Appends a line.
fn put_line(body: &mut Rope, message: &str) -> Result<(), AllocError>
    ensures { OnOk result (body.new.items ≡ body.old.items ++ (message.now ++ 10 ∷ [])) }
{
    body.put_slice(message.as_bytes())?;
    body.put_u8(b'\n')
}

/// Appends a message in a format.
fn put_message(body: &mut Rope, message: &str, format: Format) -> Result<(), AllocError>
    requires { length message.now < 128 }
    ensures { OnOk result (body.new.items
        ≡ body.old.items ++ denial_body message.now format) }
{
    match format {
        Format::Protobuf => put_status(body, message),
        Format::Json => put_json(body, message),
        _ => put_line(body, message),
    }
}

/// Makes a blank response the answer to a request that is refused: the status, and why, in words.
///
/// # Errors
///
/// `AllocError` where memory was refused. The response is then unfinished.
pub fn fill_denial(
    response: &mut Response,
    denial: Denial,
    format: Format,
) -> Result<(), AllocError>
    requires { IsBlank response.old }
    ensures { OnOk result (IsDenial denial format response.new) }
{
    response.status = denial.status();
    add_format(response, format)?;
    add_allow(response, denial)?;
    add_wait(response, denial)?;
    put_message(&mut response.body, denial.message(), format)
}

/// An answer that refuses a request.
///
/// # Errors
///
/// `AllocError` where memory was refused.
pub fn denial_response(
    alloc: Global,
    denial: Denial,
    format: Format,
) -> Result<Response, AllocError>
    ensures { IfOk result (IsDenial denial format) }
{
    let mut response = Response::new(alloc);
    fill_denial(&mut response, denial, format)?;
    Ok(response)
}

/// Appends what an export whose spans were taken is answered, in a format.
fn put_success(body: &mut Rope, format: Format) -> Result<(), AllocError>
    ensures { OnOk result (body.new.items ≡ body.old.items ++ success_body format) }
{
    match format {
        Format::Json => body.put_slice(b"{}"),
        _ => Ok(()),
    }
}

/// Makes a blank response the answer to an export whose spans were taken, in the format of the
/// export (OTLP Specification, "OTLP/HTTP Response").
///
/// # Errors
///
/// `AllocError` where memory was refused. The response is then unfinished.
pub fn fill_taken(response: &mut Response, format: Format) -> Result<(), AllocError>
    requires { IsBlank response.old }
    ensures { OnOk result (IsSuccess format response.new) }
{
    add_format(response, format)?;
    put_success(&mut response.body, format)
}

/// Makes a blank response the answer to `OPTIONS` at the path of exports: which methods it has (RFC
/// 9110, section 9.3.7).
///
/// # Errors
///
/// `AllocError` where memory was refused. The response is then unfinished.
pub fn fill_options(response: &mut Response) -> Result<(), AllocError>
    requires { IsBlank response.old }
    ensures { OnOk result (IsOptions response.new) }
{
    response.status = StatusCode::NO_CONTENT;
    add_allow(response, Denial::ExportMethod)
}
