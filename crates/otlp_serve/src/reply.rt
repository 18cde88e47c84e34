//! Replies.

ghost use Rattle.std.specs.Prelude.{◌≡◌, ◌+◌, ◌^◌, ◌<◌, ◌≤◌, [], length, take, map, codes, decimal};
ghost use Rattle.std.specs.Prelude.{if◌then◌else◌, is_some, IfErr, MatchOption, None, OnOk};
ghost use Rattle.std.specs.Io.KnownBytes.{Appends};
ghost use Rattle.std.specs.List.{concat};
ghost use Rattle.http_wire.specs.Devices.{CountsFailure};
ghost use Rattle.otlp_serve.specs.Replies.{allow_line, code_of, reason_of, reply_text};

use crate::status::ReplyStatus;
use http_wire::{FaultWrite, Front, Stopped, write_pieces};
use itoa::Buffer;

/// What a request is answered. No reply has a body: the message that would be in it has all
/// defaults, and so no bytes (OTLP Specification, "OTLP/HTTP Response").
#[derive(Clone, Copy, Debug, PartialEq, Eq)]
pub struct PostReply {
    /// Its status.
    pub status: ReplyStatus,
    /// After how many seconds the client may try again, if the reply says so (RFC 9110, section
    /// 10.2.3).
    pub retry_after: Option<u64>,
}

impl PostReply {
    /// A reply with this status, which doesn't say when to try again.
    pub fn of(status: ReplyStatus) -> PostReply
        ensures { result ≡ record { status = status; retry_after = None } }
    {
        PostReply {
            status,
            retry_after: None,
        }
    }
}

/// The reason phrase, lent for as long as the other pieces.
fn reason_text<'a>(status: ReplyStatus) -> &'a str
    ensures { result.now ≡ reason_of status }
{
    status.reason()
}

/// The line that says which methods are allowed, where the reply has it.
fn allow_line<'a>(status: ReplyStatus) -> &'a str
    ensures { result.now ≡ allow_line status }
{
    match status {
        ReplyStatus::MethodNotAllowed => "Allow: POST\r\n",
        _ => "",
    }
}

/// What comes before the number in the line that says when to try again.
fn wait_name<'a>(seconds: Option<u64>) -> &'a str
    ensures { result.now ≡ (if is_some seconds then codes "Retry-After: " else []) }
{
    if seconds.is_some() {
        "Retry-After: "
    } else {
        ""
    }
}

/// What comes after it.
fn wait_end<'a>(seconds: Option<u64>) -> &'a str
    ensures { result.now ≡ (if is_some seconds then codes "\r\n" else []) }
{
    if seconds.is_some() { "\r\n" } else { "" }
}

/// The pieces of the reply's text, with its status in decimal digits, and the seconds where it has
/// some.
fn reply_pieces<'a>(reply: PostReply, code: &'a str, digits: &'a str) -> [&'a [u8]; 10]
    requires code { code.now ≡ decimal (code_of reply.status) }
    requires digits { MatchOption reply.retry_after
        (digits.now ≡ [])
        (λ n. digits.now ≡ decimal n) }
    requires short { length code.now + length digits.now ≤ 80 }
    ensures whole { concat (map (λ p. p.now) result) ≡ reply_text reply }
    ensures short { length (reply_text reply) < 2 ^ 64 }
{
    [
        b"HTTP/1.1 ",
        code.as_bytes(),
        b" ",
        reason_text(reply.status).as_bytes(),
        b"\r\nContent-Type: application/x-protobuf\r\nContent-Length: 0\r\nConnection: close\r\n",
        allow_line(reply.status).as_bytes(),
        wait_name(reply.retry_after).as_bytes(),
        digits.as_bytes(),
        wait_end(reply.retry_after).as_bytes(),
        b"\r\n",
    ]
}

/// Writes a reply: its status line, its fields and an empty line, and nothing else (RFC 9112,
/// sections 2 and 4; OTLP Specification, "OTLP/HTTP Response"). It goes out in one write where the
/// writer takes all of it, and takes no memory.
///
/// After Content-Type, Content-Length and Connection comes `Allow: POST` with 405 (RFC 9110,
/// section 15.5.6), and Retry-After where the reply has one. (which fields: profile)
///
/// # Errors
///
/// `Stopped` where a write failed: exactly the first `sent` bytes of the reply went out, which are
/// less than all, and the writer has counted one failure more.
pub fn write_reply<W: FaultWrite>(writer: &mut W, reply: PostReply) -> Result<(), Stopped>
    ensures ok { OnOk result (Appends (W.contents writer.old) (W.contents writer.new)
        (reply_text reply)) }
    ensures within { IfErr result (λ stopped. stopped.sent < length (reply_text reply)) }
    ensures stopped { IfErr result (λ stopped.
        Appends (W.contents writer.old) (W.contents writer.new)
        (take stopped.sent (reply_text reply))) }
    ensures counted { CountsFailure result (W.failures writer.old) (W.failures writer.new) }
{
    let mut code = Buffer::new();
    let mut digits = Buffer::new();
    let code = code.format(reply.status.code());
    let digits = match reply.retry_after {
        Some(seconds) => digits.format(seconds),
        None => "",
    };
    let pieces = reply_pieces(reply, code, digits);
    let mut front = Front::new();
    match write_pieces(&mut front, &pieces) {
        Ok(()) => write_pieces(writer, &[front.taken()]),
        // There is room for every reply.
        Err(_) => write_pieces(writer, &pieces),
    }
}
