//! A request that goes out in two writes where it can: its head goes together with as much of the
//! body as there is room for, and then the rest of the body.

ghost use Rattle.std.specs.Prelude.{◌≡◌, ◌<◌, ◌⊎◌, length, take, OnErr, OnOk};
ghost use Rattle.otlp_http.specs.Request.{head_in, text_in};
ghost use Rattle.http_exporter.specs.Attempts.{shown, IsSent, IsStopped};

use http_wire::{FRONT_ROOM, Front, write_pieces};
use itoa::Buffer;
use otlp_http::{
    Coding, Connection, DeviceFailed, FaultRead, FaultWrite, Target, write_request_in,
};
use std::alloc::Allocator;

/// The bytes of a head that no target, no coding, no length and nothing asked of the connection
/// change.
const FIXED: usize = concat!(
    "POST  HTTP/1.1\r\n",
    "Host: :\r\n",
    "Content-Type: application/x-protobuf\r\n",
    "Content-Length: \r\n",
    "\r\n",
)
.len();

/// As much of the beginning of the request as there is room for.
fn front_of<A: Allocator>(
    target: &Target<A>,
    coding: Coding,
    connection: Connection,
    body: &[u8],
) -> Front
    ensures beginning { result.taken
        ≡ take (length result.taken) (text_in coding connection target.now body.now) }
    ensures whole { (result.taken ≡ text_in coding connection target.now body.now)
        ⊎ (0 < result.failures) }
{
    let mut front = Front::new();
    match write_request_in(&mut front, target, coding, connection, body) {
        Ok(()) => front,
        Err(_) => front,
    }
}

/// How long the head of a request is, with a body of this size.
fn head_length<A: Allocator>(
    target: &Target<A>,
    coding: Coding,
    connection: Connection,
    size: usize,
) -> usize
    ensures { result ≡ length (head_in coding connection target.now size) }
{
    let mut port = Buffer::new();
    let mut digits = Buffer::new();
    let port = port.format(target.port());
    let digits = digits.format(size);
    let lines = coding.line().len() + connection.line().len() + target.headers().lines().len();
    FIXED + target.path().len() + target.host().len() + port.len() + digits.len() + lines
}

/// Writes the request that carries `body`, in this coding, to the target and asks this of its
/// connection. Where the head fits [`FRONT_ROOM`] and the link takes all that it is given, that is
/// two writes, and one where the request is small; a longer head goes out piece by piece.
///
/// # Errors
///
/// Where a write failed, which is counted: a beginning of the request went out, and not all of it.
pub(crate) fn send<L: FaultRead + FaultWrite, A: Allocator>(
    link: &mut L,
    target: &Target<A>,
    coding: Coding,
    connection: Connection,
    body: &[u8],
) -> Result<(), DeviceFailed>
    ensures sent { OnOk result (IsSent
        (shown L.contents L.remaining L.FaultWrite.failures L.FaultRead.failures)
        (text_in coding connection target.now body.now) link.old link.new) }
    ensures stopped { OnErr result (IsStopped
        (shown L.contents L.remaining L.FaultWrite.failures L.FaultRead.failures)
        (text_in coding connection target.now body.now) link.old link.new) }
{
    let head = head_length(target, coding, connection, body.len());
    if head > FRONT_ROOM {
        return match write_request_in(link, target, coding, connection, body) {
            Ok(()) => Ok(()),
            Err(_) => Err(DeviceFailed),
        };
    }
    let front = front_of(target, coding, connection, body);
    let front = front.taken();
    let rest = &body[front.len() - head..];
    match write_pieces(link, &[front, rest]) {
        Ok(()) => Ok(()),
        Err(_) => Err(DeviceFailed),
    }
}
