//! Requests.

ghost use Rattle.std.specs.Prelude.{◌≡◌, ◌≤◌, string_bytes, IfErr, IfOk, OnOk, IsUtf8, List};
ghost use Rattle.http_wire.specs.Bodies.{framing_view, request_framing};
ghost use Rattle.http_wire.specs.Devices.{HasFailed};
ghost use Rattle.http_wire.specs.Faults.{CountsAtHead};
ghost use Rattle.http_wire.specs.Fields.{KeepsFields, NameAndValue};
ghost use Rattle.otlp_serve.specs.Answers.{refusal_of};
ghost use Rattle.otlp_serve.specs.Parses.{HasKeptRequest};
ghost use Rattle.otlp_serve.specs.Posts.{post_view, CountsAtPost, HasNoPost, HasNoPostHead, IsPost};

use crate::answer::refusal_of;
use crate::fault::PostFault;
use crate::head::RequestHeads;
use crate::reply::PostReply;
use http_header::HeaderMap;
use http_wire::{
    FaultRead, HeadLimits, HttpFault, MOST_FIELDS, keep_fields, read_body, read_head,
    request_framing,
};
use httparse::spans::HeaderSpan;
use std::alloc::{Allocator, Global};
use std::str;

/// A request of HTTP (RFC 9110, section 6; RFC 9112, section 3).
#[derive(Drop)]
#[derive_where(Debug)]
pub struct Post<A: Allocator = Global> {
    /// Its method, as it came: letters count in their case.
    pub method: String<A>,
    /// Its target, as it came, with a query where it has one.
    pub target: String<A>,
    /// The fields of its head, under their names in lower case, each value without spaces and tabs
    /// at both ends.
    pub fields: HeaderMap,
    /// Its body, which is empty where the head announces none.
    pub body: Vec<u8, A>,
}

impl<A: Allocator> Post<A> {
    /// What a request is answered that a collector refuses, and none where it is for it: the first
    /// that holds of 404 where the target up to a `?` isn't `/v1/traces`; 405 where the method
    /// isn't POST; 415 where the first Content-Type, up to a `;` and the spaces and tabs before it
    /// and in any case of letters, isn't `application/x-protobuf`, or where a Content-Encoding is
    /// other than `identity` in any case of letters. (OTLP Specification, "OTLP/HTTP Request"; RFC
    /// 9110, section 15.5; the order: profile)
    pub fn refusal(&self) -> Option<PostReply>
        ensures { result ≡ refusal_of (post_view self.now) }
    {
        refusal_of(self.method.as_str(), self.target.as_bytes(), &self.fields)
    }
}

/// What is kept of a request's head.
#[derive(Drop)]
struct PostHead<A: Allocator> {
    method: String<A>,
    target: String<A>,
    fields: HeaderMap,
}

/// Copies a text.
fn copy_text<A: Allocator>(alloc: A, text: &[u8]) -> Result<String<A>, HttpFault>
    requires { IsUtf8 text.now }
    ensures value { IfOk result (λ copy. string_bytes copy ≡ text.now) }
    ensures only { IfErr result (λ fault. fault ≡ HttpFault.OutOfMemory) }
{
    match str::from_utf8(text) {
        Ok(text) => match String::from_str(alloc, text) {
            Ok(copy) => Ok(copy),
            Err(_) => Err(HttpFault::OutOfMemory),
        },
        Err(_) => unreachable!(),
    }
}

/// Reads a request's head, and keeps its parts.
fn read_post_head<R: FaultRead, A: Allocator + Copy>(
    alloc: A,
    global: Global,
    reader: &mut R,
    limits: &HeadLimits,
) -> Result<PostHead<A>, HttpFault>
    requires { limits.now.fields ≤ 64 }
    ensures head { IfOk result (λ head. HasKeptRequest limits.now (R.remaining reader.old)
        (R.remaining reader.new) (string_bytes head.method) (string_bytes head.target)
        head.fields) }
    ensures none { IfErr result (HasNoPostHead limits.now (R.remaining reader.old)
        (R.remaining reader.new) (HasFailed (R.failures reader.old) (R.failures reader.new))) }
    ensures counted { IfErr result (λ fault.
        CountsAtHead fault (R.failures reader.old) (R.failures reader.new)) }
    ensures kept { OnOk result (R.failures reader.new ≡ R.failures reader.old) }
{
    let mut text = Vec::new(alloc);
    let mut room = [HeaderSpan::default(); MOST_FIELDS];
    let spans = &mut room[..limits.fields];
    let head = match read_head::<RequestHeads, R, A>(reader, limits, &mut text, spans) {
        Ok(head) => head,
        Err(fault) => return Err(fault),
    };
    let fields = match keep_fields(global, &text, &spans[..head.headers]) {
        Ok(fields) => fields,
        Err(fault) => return Err(fault),
    };
    let method = match copy_text(alloc, head.method.of(&text)) {
        Ok(method) => method,
        Err(fault) => return Err(fault),
    };
    let target = match copy_text(alloc, head.path.of(&text)) {
        Ok(target) => target,
        Err(fault) => return Err(fault),
    };
    Ok(PostHead {
        method,
        target,
        fields,
    })
}

/// Reads a request, and no byte after it (RFC 9112, sections 2.2, 3, 5, 6.3 and 7.1). A head is
/// what `httparse` reads by default. Its body comes in chunks where Transfer-Encoding is one field,
/// `chunked` in any case of letters; else it has the length that Content-Length says, and there is
/// none where neither field is there. Of chunks, extensions and trailers are not kept. A read that
/// failed is not tried again.
///
/// The head, lines of chunks and trailers are read byte by byte: from a socket without a buffer
/// below, each of their bytes costs a call of the system. The head is parsed after its first line,
/// at its end and where the reading stops, so its time goes by its length. (profile)
///
/// The text of the head, while the call lasts, the method, the target and the body are kept by
/// `alloc`, and the fields by `global`.
///
/// # Errors
///
/// `Head` where there is no whole head that can be used: `Ended` where the bytes ended before;
/// `Device` where a read failed; `BadHead` where what came can't begin a head, also where it then
/// ended, a read then failed or memory was then refused (but a target that isn't UTF-8 is reported
/// only after its end), or where a field is one that `http_header` refuses; `TooLarge` where it has
/// more bytes or fields than the limits allow; `OutOfMemory` where memory for it was refused. The
/// reader is left where it was read up to, at most at the end of the head: of one whose first line
/// is bad, at the end of that.
///
/// `Body` after the head: `BadLength` where Transfer-Encoding is anything but `chunked` (profile),
/// or is beside a Content-Length, or where that isn't one number of digits that fits 64 bits,
/// in one field or in several of equal text; `BadChunk` where a chunk's line or the trailers are
/// bad or longer than a head may be, the trailers have more fields than a head may have, or no CR
/// LF comes after a chunk's data; `TooLarge` where Content-Length or the sum of the chunks is
/// above the limit, before any of the bytes that it counts is read; `Ended` where the
/// bytes ended before all had come; `Device` where a read failed; `OutOfMemory` where memory for it
/// was refused.
pub fn read_post<R: FaultRead, A: Allocator + Copy>(
    alloc: A,
    global: Global,
    reader: &mut R,
    limits: &HeadLimits,
) -> Result<Post<A>, PostFault>
    requires fields { limits.now.fields ≤ 64 }
    ensures post { IfOk result (λ post. IsPost limits.now (R.remaining reader.old)
        (R.remaining reader.new) (HasFailed (R.failures reader.old) (R.failures reader.new))
        (post_view post)) }
    ensures kept { OnOk result (R.failures reader.new ≡ R.failures reader.old) }
    ensures no_post { IfErr result (HasNoPost limits.now (R.remaining reader.old)
        (R.remaining reader.new) (HasFailed (R.failures reader.old) (R.failures reader.new))) }
    ensures failed { IfErr result (λ fault.
        CountsAtPost fault (R.failures reader.old) (R.failures reader.new)) }
{
    let head = match read_post_head(alloc, global, reader, limits) {
        Ok(head) => head,
        Err(fault) => return Err(PostFault::Head(fault)),
    };
    let framing = request_framing(&head.fields);
    let body = match read_body(alloc, reader, framing, limits) {
        Ok(body) => body,
        Err(fault) => return Err(PostFault::Body(fault)),
    };
    let PostHead {
        method,
        target,
        fields,
    } = head;
    Ok(Post {
        method,
        target,
        fields,
        body,
    })
}
