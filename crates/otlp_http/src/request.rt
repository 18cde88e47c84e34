//! Requests.

ghost use Rattle.std.specs.Prelude.{◌≡◌, ◌+◌, ◌^◌, ◌<◌, ◌≤◌, length, take, map, decimal, IfErr, OnOk};
ghost use Rattle.std.specs.Io.KnownBytes.{Appends};
ghost use Rattle.std.specs.List.{concat};
ghost use Rattle.http_wire.specs.Devices.{CountsFailure};
ghost use Rattle.otlp_http.specs.Fields.{field_lines};
ghost use Rattle.otlp_http.specs.Request.{coding_line, connection_line, request_text, text_for};
ghost use Rattle.otlp_http.specs.Request.{text_in};

use crate::target::Target;
use http_wire::{FaultWrite, Stopped, write_pieces};
use itoa::Buffer;
use std::alloc::Allocator;

/// What a request asks of its connection (RFC 9110, section 7.6.1; RFC 9112, sections 9.3 and 9.6).
#[derive(Clone, Copy, Debug, PartialEq, Eq)]
pub enum Connection {
    /// That it be closed after the reply.
    Close,
    /// That it be kept for further requests.
    KeepAlive,
}

impl Connection {
    /// The line of the field of this name in a head, with its end.
    pub fn line(self) -> &'static [u8]
        ensures { result.now ≡ connection_line self }
    {
        match self {
            Connection::Close => b"Connection: close\r\n",
            Connection::KeepAlive => b"Connection: keep-alive\r\n",
        }
    }
}

/// In which coding a request has its body (RFC 9110, section 8.4).
#[derive(Clone, Copy, Debug, PartialEq, Eq)]
pub enum Coding {
    /// As it is.
    Identity,
    /// As a gzip file (RFC 9110, section 8.4.1.3).
    Gzip,
}

impl Coding {
    /// The line of the field `Content-Encoding` in a head, with its end: none where the body is as
    /// it is.
    pub fn line(self) -> &'static [u8]
        ensures { result.now ≡ coding_line self }
    {
        match self {
            Coding::Identity => b"",
            Coding::Gzip => b"Content-Encoding: gzip\r\n",
        }
    }
}

/// The pieces of the request's text, with the port and the body's length in decimal digits, and the
/// lines that say in which coding the body is and what it asks of its connection.
fn request_pieces<'a, A: Allocator>(
    target: &'a Target<A>,
    port: &'a str,
    digits: &'a str,
    coded: &'a [u8],
    asked: &'a [u8],
    body: &'a [u8],
) -> [&'a [u8]; 14]
    requires port { port.now ≡ decimal target.now.port }
    requires digits { digits.now ≡ decimal (length body.now) }
    ensures whole { (coding : Coding) (connection : Connection) → coded.now ≡ coding_line coding
        → asked.now ≡ connection_line connection
        → concat (map (λ p. p.now) result) ≡ text_in coding connection target.now body.now }
    ensures short { length target.now.host + length target.now.path < 2 ^ 62 }
    ensures few { length (field_lines target.now.fields) ≤ 8192 }
{
    [
        b"POST ",
        target.path().as_bytes(),
        b" HTTP/1.1\r\nHost: ",
        target.host().as_bytes(),
        b":",
        port.as_bytes(),
        b"\r\nContent-Type: application/x-protobuf\r\nContent-Length: ",
        digits.as_bytes(),
        b"\r\n",
        coded,
        asked,
        target.headers().lines(),
        b"\r\n",
        body,
    ]
}

/// Writes the request that carries `body` to the target, and asks that the connection be closed
/// after the reply: a POST with its head and the body, and nothing else (RFC 9112, sections 3 and
/// 5; OTLP Specification, "OTLP/HTTP Request"; which fields it has: profile). The target's own
/// fields are the last ones of the head. It takes no memory, and doesn't wait for a reply.
///
/// # Errors
///
/// `Stopped` where a write failed: exactly the first `sent` bytes of the request went out, which
/// are less than all, and the writer has counted one failure more.
pub fn write_request<W: FaultWrite, A: Allocator>(
    writer: &mut W,
    target: &Target<A>,
    body: &[u8],
) -> Result<(), Stopped>
    ensures ok { OnOk result (Appends (W.contents writer.old) (W.contents writer.new)
        (request_text target.now body.now)) }
    ensures within { IfErr result (λ stopped.
        stopped.sent < length (request_text target.now body.now)) }
    ensures stopped { IfErr result (λ stopped.
        Appends (W.contents writer.old) (W.contents writer.new)
        (take stopped.sent (request_text target.now body.now))) }
    ensures counted { CountsFailure result (W.failures writer.old) (W.failures writer.new) }
{
    write_request_for(writer, target, Connection::Close, body)
}

/// Writes the request that carries `body` to the target, as [`write_request`] does, and asks this
/// of its connection.
///
/// # Errors
///
/// As of [`write_request`].
pub fn write_request_for<W: FaultWrite, A: Allocator>(
    writer: &mut W,
    target: &Target<A>,
    connection: Connection,
    body: &[u8],
) -> Result<(), Stopped>
    ensures ok { OnOk result (Appends (W.contents writer.old) (W.contents writer.new)
        (text_for connection target.now body.now)) }
    ensures within { IfErr result (λ stopped.
        stopped.sent < length (text_for connection target.now body.now)) }
    ensures stopped { IfErr result (λ stopped.
        Appends (W.contents writer.old) (W.contents writer.new)
        (take stopped.sent (text_for connection target.now body.now))) }
    ensures counted { CountsFailure result (W.failures writer.old) (W.failures writer.new) }
{
    write_request_in(writer, target, Coding::Identity, connection, body)
}

/// Writes the request that carries a body in this coding to the target, as [`write_request_for`]
/// does, with a field that says the coding, unless the body is as it is.
///
/// # Errors
///
/// As of [`write_request`].
pub fn write_request_in<W: FaultWrite, A: Allocator>(
    writer: &mut W,
    target: &Target<A>,
    coding: Coding,
    connection: Connection,
    body: &[u8],
) -> Result<(), Stopped>
    ensures ok { OnOk result (Appends (W.contents writer.old) (W.contents writer.new)
        (text_in coding connection target.now body.now)) }
    ensures within { IfErr result (λ stopped.
        stopped.sent < length (text_in coding connection target.now body.now)) }
    ensures stopped { IfErr result (λ stopped.
        Appends (W.contents writer.old) (W.contents writer.new)
        (take stopped.sent (text_in coding connection target.now body.now))) }
    ensures counted { CountsFailure result (W.failures writer.old) (W.failures writer.new) }
{
    let mut port = Buffer::new();
    let mut digits = Buffer::new();
    let port = port.format(target.port());
    let digits = digits.format(body.len());
    let coded = coding.line();
    let asked = connection.line();
    let pieces = request_pieces(target, port, digits, coded, asked, body);
    write_pieces(writer, &pieces)
}
