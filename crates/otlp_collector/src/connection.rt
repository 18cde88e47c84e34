//! Connections, of one request each.

ghost use Rattle.std.specs.Prelude.{◌≡◌, ◌≤◌, IfErr, IfOk, option_map};
ghost use Rattle.http_wire.specs.Devices.{CountsFailure};
ghost use Rattle.otlp_read.specs.Requests.{request_view};
ghost use Rattle.otlp_collector.specs.Answering.{Breaks, Serves};

use crate::canned::Canned;
use crate::judge::{Verdict, judge};
use otlp_read::Request;
use otlp_serve::{FaultRead, FaultWrite, HeadLimits, Stopped, write_reply};
use std::alloc::{Allocator, Global};

/// What became of a connection.
#[derive(Drop)]
#[derive_where(Debug)]
pub struct Answered<A: Allocator = Global> {
    /// The status that was answered. `None` where the connection ended or failed before its
    /// request was there, so that nothing was.
    pub status: Option<u16>,
    /// The request, where its body was read: it was answered 200, or what is canned.
    pub request: Option<Request<A>>,
}

/// Serves a connection: reads one request, and no byte after it, and writes one reply (OTLP
/// Specification, "OTLP/HTTP Request", "OTLP/HTTP Response").
///
/// The reply is the first of these that holds (the order: profile): none where the connection ended
/// or failed before the request was there; 503, and to try again in a second, where memory was
/// refused; 400 where what came is no request, its body's chunks too; 431 where its head is above
/// the limits, 413 where its body is, before a byte of it is read, or of one in chunks, before a
/// byte after the line by which they pass the limit; 404 where its target up to a `?` isn't
/// `/v1/traces`; 405 where its method isn't POST; 415 where it has no Content-Type, the first one
/// isn't `application/x-protobuf`, or a Content-Encoding isn't `identity`; 400 where its body can't
/// be read as a request of traces, or 503 as before where memory was refused; what is canned; 200.
/// The order of want of memory is that in which it was wanted.
///
/// The head, lines of chunks and trailers are read byte by byte: from a socket without a buffer
/// below, each of their bytes costs a call of the system.
///
/// The limits allow 64 fields at most. Those of `HeadLimits::default()` are meant for replies: a
/// collector allows bodies of 16,777,216 bytes. The request is kept by `alloc`, and so are, while
/// the call lasts, the text of the head, the method, the target and the body; the fields of the
/// head are kept by `global` so long.
///
/// # Errors
///
/// `Stopped` where a write failed: exactly the first `sent` bytes of the reply went out, which are
/// less than all. A request that was read is freed.
pub fn answer<R: FaultRead, W: FaultWrite, A: Allocator + Copy>(
    alloc: A,
    global: Global,
    reader: &mut R,
    writer: &mut W,
    limits: &HeadLimits,
    canned: Option<Canned>,
) -> Result<Answered<A>, Stopped>
    requires { limits.now.fields ≤ 64 }
    ensures served { IfOk result (λ a. Serves limits.now canned
        (R.remaining reader.old) (R.remaining reader.new)
        (R.failures reader.old) (R.failures reader.new)
        (W.contents writer.old) (W.contents writer.new)
        a.status (option_map request_view a.request)) }
    ensures stopped { IfErr result (λ stopped. Breaks limits.now canned
        (R.remaining reader.old) (R.remaining reader.new)
        (R.failures reader.old) (R.failures reader.new)
        (W.contents writer.old) (W.contents writer.new) stopped.sent) }
    ensures counted { CountsFailure result (W.failures writer.old) (W.failures writer.new) }
{
    let Verdict { reply, request } = judge(alloc, global, reader, limits, canned);
    let Some(reply) = reply else {
        return Ok(Answered {
            status: None,
            request,
        });
    };
    match write_reply(writer, reply) {
        Ok(()) => Ok(Answered {
            status: Some(reply.status.code()),
            request,
        }),
        Err(stopped) => Err(stopped),
    }
}
