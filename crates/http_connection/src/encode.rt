//! From responses to bytes.

ghost use Rattle.std.specs.Prelude.{◌≡◌, ◌++◌, [], length, IfOk, OnOk, if◌then◌else◌};
ghost use Rattle.http1.specs.Conn.{after_data, data_text, finish_text};
ghost use Rattle.http1.specs.Head.{pairs};
ghost use Rattle.http1.specs.Server.{after_response, planned_response, with_writing, writing};
ghost use Rattle.http1_typed.specs.Parts.{reason_of};
ghost use Rattle.http_server.specs.Encoding.{final_text, size_of};
ghost use Rattle.http_server.specs.Response.{fields, fields_of};
ghost use Rattle.http_connection.specs.Outputs.{waiting};
ghost use Rattle.http_connection.specs.Texts.{continue_text, refusal_text, refusing};

use crate::output::Output;
use bytes::BufMut;
use http::{HeaderName, HeaderValue, StatusCode};
use http_server::Response;
use http1::{BodySize, Header, Limits, Server, WriteError};
use std::alloc::{AllocError, Global};

/// The fields of a response, as `http1` takes them.
fn header_list<'a>(
    alloc: Global,
    headers: &'a [(HeaderName, HeaderValue)],
) -> Result<Vec<Header<'a>>, AllocError>
    ensures { IfOk result (λ list. pairs list.items ≡ fields headers.now) }
{
    let mut list = Vec::with_capacity(alloc, headers.len())?;
    for header in headers {
        list.push(Header {
            name: header.0.as_bytes(),
            value: header.1.as_bytes(),
        })?;
    }
    Ok(list)
}

fn reason(status: StatusCode) -> &'static [u8]
    ensures { result.now ≡ reason_of status }
{
    status.canonical_reason().unwrap_or("").as_bytes()
}

/// Appends the head of a response, whose body has this size.
pub(crate) fn write_head(
    alloc: Global,
    server: &mut Server,
    output: &mut Output,
    response: &Response,
    size: BodySize,
) -> Result<(), WriteError>
    ensures text { OnOk result (waiting output.new ≡ waiting output.old
        ++ planned_response server.old response.now.status (reason_of response.now.status) size
        (fields_of response.now)) }
    ensures next { OnOk result (server.new
        ≡ after_response server.old response.now.status size (fields_of response.now)) }
{
    let headers = header_list(alloc, &response.headers)?;
    let status = response.status.as_u16();
    let reason = reason(response.status);
    server.write_response(output, status, reason, &headers, size)
}

fn size_of(response: &Response) -> BodySize
    ensures { result ≡ size_of response.now }
{
    match response.body.len() {
        0 => BodySize::Empty,
        len => BodySize::Known(len as u64),
    }
}

/// Appends the body of a response, and takes it.
fn write_body(
    server: &mut Server,
    output: &mut Output,
    response: &mut Response,
) -> Result<(), WriteError>
    ensures text { OnOk result (waiting output.new
        ≡ waiting output.old ++ data_text (writing server.old) response.old.body.items) }
    ensures counted { OnOk result (server.new ≡ with_writing server.old
        (after_data (writing server.old) (length response.old.body.items))) }
{
    let frame = server.frame_data(response.body.len())?;
    output.put_slice(frame.prefix())?;
    output.put_from(&mut response.body)?;
    Ok(output.put_slice(frame.suffix())?)
}

/// Appends a whole response to a request that was read. To `HEAD` no body goes out.
pub(crate) fn write_whole(
    alloc: Global,
    server: &mut Server,
    output: &mut Output,
    response: &mut Response,
    is_head: bool,
) -> Result<(), WriteError>
    ensures { OnOk result (waiting output.new
        ≡ waiting output.old ++ final_text is_head server.old response.old) }
{
    let size = size_of(response);
    write_head(alloc, server, output, response, size)?;
    if !is_head {
        write_body(server, output, response)?;
    }
    server.write_end(output, &[])
}

/// A server that has failed to read, which ends the connection by its next answer.
fn refusing_server() -> Server
    ensures { result ≡ refusing }
{
    let mut server = Server::new(Limits::default());
    let _ = server.read_eof(b"-");
    server
}

/// Appends the response to a request that is refused, which says that the connection ends. To
/// `HEAD` no body goes out.
pub(crate) fn write_refusal(
    alloc: Global,
    output: &mut Output,
    response: &mut Response,
    is_head: bool,
) -> Result<(), WriteError>
    ensures { OnOk result (waiting output.new
        ≡ waiting output.old ++ refusal_text is_head response.old) }
{
    let mut server = refusing_server();
    let size = size_of(response);
    write_head(alloc, &mut server, output, response, size)?;
    if is_head {
        return Ok(());
    }
    write_body(&mut server, output, response)
}

/// Appends the response that says that the request's body may come (RFC 9110, section 10.1.1).
pub(crate) fn write_continue(server: &mut Server, output: &mut Output) -> Result<(), WriteError>
    ensures { OnOk result (waiting output.new ≡ waiting output.old ++ continue_text) }
{
    server.write_informational(output, 100, b"Continue", &[])
}
