//! Texts, the wires that they come over, and what is read of a message in plain values.

use otlp_http::{
    FailingCalls, FailingWire, FaultRead, HeadLimits, HttpFault, Reply, Target, TargetFault,
    read_reply,
};
use otlp_serve::{Post, PostFault, read_post};
use std::alloc::{Allocator, Global};
use std::process::Abort;

/// A text: a piece so many times between two others.
pub(crate) type Text<'a> = (&'a [u8], &'a [u8], usize, &'a [u8]);

/// The bytes of a text.
pub(crate) fn bytes_of(rt: &impl Abort, alloc: Global, text: Text<'_>) -> Vec<u8> {
    let (front, piece, count, end) = text;
    let mut bytes = Vec::from_slice(alloc, front).expect(rt, "memory");
    for _copy in 0..count {
        bytes.extend_from_slice(piece).expect(rt, "memory");
    }
    bytes.extend_from_slice(end).expect(rt, "memory");
    bytes
}

/// A target at a collector on this machine.
pub(crate) fn target<A: Allocator + Copy>(alloc: A) -> Result<Target<A>, TargetFault> {
    Target::new(alloc, "127.0.0.1", 4318, "/v1/traces")
}

/// A wire that gives these bytes, at most so many a call, and fails these calls.
pub(crate) fn wire(
    rt: &impl Abort,
    alloc: Global,
    text: &[u8],
    most: usize,
    failing: FailingCalls,
) -> FailingWire {
    assert!(rt; most >= 1);
    let input = Vec::from_slice(alloc, text).expect(rt, "memory");
    FailingWire::new(input, Vec::new(alloc), most, failing)
}

/// Why there is no body, if there is none: whether that lies in the head, and what it is.
pub(crate) type Lack = Option<(bool, HttpFault)>;

/// What was read of a message: its body, why there is none, how many bytes the wire has yet to give,
/// and how often it failed.
pub(crate) type Found = (Vec<u8>, Lack, usize, u64);

/// The body of a reply, or why there is none.
fn in_reply<A: Allocator>(answer: &Result<Reply<A>, HttpFault>) -> (&[u8], Lack) {
    match answer {
        Ok(reply) => match &reply.body {
            Ok(body) => (body.as_slice(), None),
            Err(fault) => (&[], Some((false, *fault))),
        },
        Err(fault) => (&[], Some((true, *fault))),
    }
}

/// The body of a request, or why there is none.
fn in_post<A: Allocator>(answer: &Result<Post<A>, PostFault>) -> (&[u8], Lack) {
    match answer {
        Ok(post) => (post.body.as_slice(), None),
        Err(PostFault::Head(fault)) => (&[], Some((true, *fault))),
        Err(PostFault::Body(fault)) => (&[], Some((false, *fault))),
    }
}

/// What is read of a reply in this memory.
fn read_as_reply<A: Allocator + Copy>(
    rt: &impl Abort,
    alloc: A,
    global: Global,
    wire: &mut FailingWire,
) -> (Vec<u8>, Lack) {
    let answer = read_reply(alloc, global, wire, &HeadLimits::default());
    let (body, lack) = in_reply(&answer);
    (Vec::from_slice(global, body).expect(rt, "memory"), lack)
}

/// What is read of a request in this memory.
fn read_as_post<A: Allocator + Copy>(
    rt: &impl Abort,
    alloc: A,
    global: Global,
    wire: &mut FailingWire,
) -> (Vec<u8>, Lack) {
    let answer = read_post(alloc, global, wire, &HeadLimits::default());
    let (body, lack) = in_post(&answer);
    (Vec::from_slice(global, body).expect(rt, "memory"), lack)
}

/// What is read of a message in this memory: of a request, or of a reply.
pub(crate) fn read<A: Allocator + Copy>(
    rt: &impl Abort,
    alloc: A,
    wire: &mut FailingWire,
    global: Global,
    is_post: bool,
) -> Found {
    let (body, lack) = if is_post {
        read_as_post(rt, alloc, global, wire)
    } else {
        read_as_reply(rt, alloc, global, wire)
    };
    (body, lack, wire.left().len(), FaultRead::failures(wire))
}

/// What is read of a text over a wire that gives at most so many bytes a call, and fails these calls.
pub(crate) fn found(
    rt: &impl Abort,
    alloc: Global,
    text: &[u8],
    is_post: bool,
    how: (usize, FailingCalls),
) -> Found {
    let (most, failing) = how;
    let mut wire = wire(rt, alloc, text, most, failing);
    read(rt, alloc, &mut wire, alloc, is_post)
}

/// A message: whether it is a request, the size of its head, and its text.
pub(crate) type Message = (bool, usize, &'static [u8]);

/// The body that each of them has: a response that rejects two spans, and says `x`.
pub(crate) const BODY: &[u8] = b"\x0a\x05\x08\x02\x12\x01\x78";

/// A reply whose body has a length.
pub(crate) const REPLY: &[u8] =
    b"HTTP/1.1 200 OK\r\nContent-Length: 7\r\n\r\n\x0a\x05\x08\x02\x12\x01\x78";

/// Messages whose bodies have a length, the reply after an interim head, and messages whose bodies come in chunks, with an extension,
/// blanks, leading zeros and trailers.
pub(crate) const MESSAGES: [Message; 4] = [
    (
        false,
        81,
        b"HTTP/1.1 100 Continue\r\n\r\n\
        HTTP/1.1 503 Busy\r\nRetry-After: 7\r\nContent-Length: 7\r\n\r\n\x0a\x05\x08\x02\x12\x01\x78",
    ),
    (
        true,
        69,
        b"POST /v1/traces HTTP/1.1\r\nHost: 127.0.0.1:4318\r\nContent-Length: 7\r\n\r\n\
        \x0a\x05\x08\x02\x12\x01\x78",
    ),
    (
        false,
        47,
        b"HTTP/1.1 200 OK\r\nTransfer-Encoding: chunked\r\n\r\n\
        3;a=\"b\"\r\n\x0a\x05\x08\r\n0004 \t\r\n\x02\x12\x01\x78\r\n000;z\r\nA: b\nC:\r\n\r\n",
    ),
    (
        true,
        65,
        b"POST /v1/traces HTTP/1.1\r\nHost: a\r\nTransfer-Encoding: chunked\r\n\r\n\
        3;a=\"b\"\r\n\x0a\x05\x08\r\n0004 \t\r\n\x02\x12\x01\x78\r\n000;z\r\nA: b\nC:\r\n\r\n",
    ),
];
