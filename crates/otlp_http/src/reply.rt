//! Replies.

ghost use Rattle.std.specs.Prelude.{◌≡◌, ◌≤◌, ◌||◌, ◌==◌, List, IfErr, IfOk, OnOk};
ghost use Rattle.std.specs.Result.{result_map_both};
ghost use Rattle.http_wire.specs.Bodies.{framing_view};
ghost use Rattle.http_wire.specs.Devices.{HasFailed};
ghost use Rattle.http_wire.specs.Faults.{CountsAtHead, CountsFailedRead};
ghost use Rattle.http_wire.specs.Fields.{KeepsFields, NameAndValue};
ghost use Rattle.otlp_http.specs.Parses.{HasKeptHead};
ghost use Rattle.otlp_http.specs.Outcomes.{reply_view};
ghost use Rattle.otlp_http.specs.Persistence.{lasts_after};
ghost use Rattle.otlp_http.specs.Replies.{framing_of, HasNoReply, IsReply};

use crate::head::read_final_head;
use crate::persistence::lasts_with;
use crate::wait::retry_after;
use http_header::HeaderMap;
use http_wire::{
    FaultRead, Framing, HeadLimits, HttpFault, MOST_FIELDS, framing_by_fields, keep_fields,
    read_body,
};
use httparse::spans::HeaderSpan;
use retry_core::RetryAfter;
use std::alloc::{Allocator, Global};

/// A reply of HTTP, without the interim ones before it (RFC 9110, section 15; RFC 9112, section 4).
#[derive(Drop)]
#[derive_where(Debug)]
pub struct Reply<A: Allocator = Global> {
    /// Its status, from 200 to 999 or below 100.
    pub status: u16,
    /// When it asks to be tried again, if it does: what its first Retry-After says (RFC 9110,
    /// section 10.2.3). A number of seconds above `u64::MAX` counts as that, a date is reported in
    /// seconds since 1970, and any other value counts as none. (profile)
    pub retry_after: Option<RetryAfter>,
    /// Its body, or why that can't be had.
    pub body: Result<Vec<u8, A>, HttpFault>,
}

/// A reply, and whether its connection may carry another request.
#[derive(Drop)]
#[derive_where(Debug)]
pub struct LastingReply<A: Allocator = Global> {
    /// The reply.
    pub reply: Reply<A>,
    /// Whether the connection may carry another request: the reply was read to an end of its own,
    /// and its head keeps the connection (RFC 9112, section 9.3).
    pub lasts: bool,
}

/// The minor version, the status and the fields of the first head that isn't interim.
fn read_fields<R: FaultRead, A: Allocator>(
    global: Global,
    reader: &mut R,
    limits: &HeadLimits,
    text: &mut Vec<u8, A>,
) -> Result<(u8, u16, HeaderMap), HttpFault>
    requires { limits.now.fields ≤ 64 }
    ensures head { IfOk result (λ head. HasKeptHead limits.now (R.remaining reader.old)
        (R.remaining reader.new) head.0 head.1 head.2) }
    ensures none { IfErr result (HasNoReply limits.now (R.remaining reader.old)
        (R.remaining reader.new) (HasFailed (R.failures reader.old) (R.failures reader.new))) }
    ensures counted { IfErr result (λ fault.
        CountsAtHead fault (R.failures reader.old) (R.failures reader.new)) }
    ensures kept { OnOk result (R.failures reader.new ≡ R.failures reader.old) }
{
    let mut room = [HeaderSpan::default(); MOST_FIELDS];
    let spans = &mut room[..limits.fields];
    let head = match read_final_head(reader, limits, text, spans) {
        Ok(head) => head,
        Err(fault) => return Err(fault),
    };
    match keep_fields(global, text, &spans[..head.headers]) {
        Ok(kept) => Ok((head.version, head.code, kept)),
        Err(fault) => Err(fault),
    }
}

/// Whether a status has no body.
fn has_no_body(status: u16) -> bool
    ensures { result ≡ (status == 204 || status == 304) }
{
    status == 204 || status == 304
}

/// How far the body goes that a head with this status and these fields has.
fn framing_of(status: u16, kept: &HeaderMap) -> Framing
    ensures { (fields : List NameAndValue) → KeepsFields kept.now fields
        → framing_view result ≡ framing_of status fields }
{
    if has_no_body(status) {
        return Framing::Empty;
    }
    framing_by_fields(kept, Framing::ToEnd)
}

/// Reads a reply, and no byte after it (RFC 9112, sections 2.2, 4, 5 and 6.3). Heads are what
/// `httparse` reads by default. Heads with a status from 100 to 199 are skipped, 16 at most
/// (profile). A reply with status 204 or 304 has no body. With Transfer-Encoding, the body
/// comes in chunks if that is one field, `chunked` in any case of letters, and else its length
/// isn't known (profile); without it, the length is what Content-Length says, and where
/// there is none, the body goes to the end of the bytes. Of chunks, extensions and trailers are not
/// kept (RFC 9112, section 7.1). A read that failed is not tried again.
///
/// Heads, lines of chunks and trailers are read byte by byte: from a socket without a buffer below,
/// each of their bytes costs a call of the system. A head is parsed after its first line, at its
/// end and where the reading stops, so its time goes by its length. (profile)
///
/// The text of the heads, while the call lasts, and the body are kept by `alloc`, and the fields,
/// while the call lasts, by `global`.
///
/// # Errors
///
/// Where there is no whole head that can be used: `Ended` where the bytes ended before; `Device`
/// where a read failed; `BadHead` where what came can't begin a head, also where it then ended, a
/// read then failed or memory was then refused, where a field is one that `http_header` refuses, or
/// at a seventeenth interim head; `TooLarge` where a head has more bytes or fields than the limits
/// allow; `OutOfMemory` where memory for it was refused. The reader is left where it was read up
/// to, at most at the end of a head: of one whose first line is bad, at the end of that.
///
/// After the head, the body's error is in [`Reply::body`]: `Ended` where the bytes ended before as
/// many had come as Content-Length says, or within chunks; `Device` where a read failed;
/// `BadLength` where Transfer-Encoding is anything but `chunked`, or where Content-Length isn't one
/// number of digits that fits 64 bits, in one field or in several of equal text; `BadChunk` where a
/// chunk's line or the trailers are bad or longer than a head may be, the trailers have more fields
/// than a head may have, or no CR LF comes after a chunk's data; `TooLarge` where the body has
/// more bytes than the limit, by Content-Length before any of them is read, and by a chunk's
/// line before any of its data; `OutOfMemory` where memory for it was refused.
pub fn read_reply<R: FaultRead, A: Allocator + Copy>(
    alloc: A,
    global: Global,
    reader: &mut R,
    limits: &HeadLimits,
) -> Result<Reply<A>, HttpFault>
    requires fields { limits.now.fields ≤ 64 }
    ensures reply { IfOk result (λ reply. IsReply limits.now (R.remaining reader.old)
        (R.remaining reader.new) (HasFailed (R.failures reader.old) (R.failures reader.new))
        (record {
          status = reply.status;
          retry_after = reply.retry_after;
          body = result_map_both (λ v. v.items) (λ fault. fault) reply.body;
        })) }
    ensures counted { IfOk result (λ reply.
        CountsFailedRead reply.body (R.failures reader.old) (R.failures reader.new)) }
    ensures no_reply { IfErr result (HasNoReply limits.now (R.remaining reader.old)
        (R.remaining reader.new) (HasFailed (R.failures reader.old) (R.failures reader.new))) }
    ensures failed { IfErr result (λ fault.
        CountsAtHead fault (R.failures reader.old) (R.failures reader.new)) }
{
    match read_lasting_reply(alloc, global, reader, limits) {
        Ok(LastingReply { reply, lasts: _ }) => Ok(reply),
        Err(fault) => Err(fault),
    }
}

/// Reads a reply, as [`read_reply`] does, and says whether its connection may carry another request
/// (RFC 9112, sections 6.1, 6.3 and 9.3): its body was had, and has an end of its own; where it
/// comes by Transfer-Encoding, the version is HTTP/1.1, and there is no Content-Length; and the
/// version is HTTP/1.1, or there is a Connection, each of which says `keep-alive`, in any case of
/// letters. A list of options in one Connection is none that keeps (profile).
///
/// # Errors
///
/// As of [`read_reply`]. The connection carries no other request then.
pub fn read_lasting_reply<R: FaultRead, A: Allocator + Copy>(
    alloc: A,
    global: Global,
    reader: &mut R,
    limits: &HeadLimits,
) -> Result<LastingReply<A>, HttpFault>
    requires fields { limits.now.fields ≤ 64 }
    ensures reply { IfOk result (λ read. (is : IsReply limits.now (R.remaining reader.old)
        (R.remaining reader.new) (HasFailed (R.failures reader.old) (R.failures reader.new))
        (reply_view read.reply))
        × (read.lasts ≡ lasts_after is.head (reply_view read.reply).body)) }
    ensures counted { IfOk result (λ read.
        CountsFailedRead read.reply.body (R.failures reader.old) (R.failures reader.new)) }
    ensures no_reply { IfErr result (HasNoReply limits.now (R.remaining reader.old)
        (R.remaining reader.new) (HasFailed (R.failures reader.old) (R.failures reader.new))) }
    ensures failed { IfErr result (λ fault.
        CountsAtHead fault (R.failures reader.old) (R.failures reader.new)) }
{
    let mut text = Vec::new(alloc);
    let (minor, status, kept) = match read_fields(global, reader, limits, &mut text) {
        Ok(head) => head,
        Err(fault) => return Err(fault),
    };
    let framing = framing_of(status, &kept);
    let body = read_body(alloc, reader, framing, limits);
    let lasts = lasts_with(minor, framing, &kept, &body);
    let reply = Reply {
        status,
        retry_after: retry_after(&kept),
        body,
    };
    Ok(LastingReply { reply, lasts })
}
