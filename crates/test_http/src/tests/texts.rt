//! Texts for a person: how faults are reported, and what is shown; and what goes out in one write.

use crate::tests::equal::assert_equal;
use crate::tests::fixture::{target, wire};
use http_exporter::{Failure, LinkExporter};
use otlp_http::{
    Coding, Connection, Counted, DeviceFailed, FailingCalls, HeaderFault, HeaderFields, HttpFault,
    Stopped, TargetFault, write_request_in,
};
use otlp_serve::{PostFault, PostReply, ReplyStatus, write_reply};
use std::alloc::Global;
use std::fmt::Display;
use std::process::Abort;

/// Checks how faults are reported.
fn assert_displayed<T: Display>(rt: &impl Abort, alloc: Global, rows: &[(T, &str)]) {
    for (fault, text) in rows {
        let plain = format!(in alloc; "{fault}").expect(rt, "memory");
        assert_equal(rt, plain.as_str(), *text);
    }
}

const MESSAGES: [(HttpFault, &str); 7] = [
    (HttpFault::Ended, "the message ended early"),
    (HttpFault::Device, "the device failed"),
    (
        HttpFault::BadHead,
        "bad head: what came begins no head of HTTP/1.1, or has a bad field",
    ),
    (
        HttpFault::BadLength,
        "bad length: a body has one Content-Length of digits, or comes in chunks",
    ),
    (
        HttpFault::BadChunk,
        "bad chunk: a chunk is a line with its size, its data, and the end of a line",
    ),
    (
        HttpFault::TooLarge,
        "too large: the head or the body passes the limit that is set for it",
    ),
    (HttpFault::OutOfMemory, "out of memory"),
];

const POSTS: [(PostFault, &str); 2] = [
    (
        PostFault::Head(HttpFault::Ended),
        "request head: the message ended early",
    ),
    (
        PostFault::Body(HttpFault::Device),
        "request body: the device failed",
    ),
];

const TARGETS: [(TargetFault, &str); 3] = [
    (
        TargetFault::BadHost,
        "bad host: a host is letters, digits, dots, dashes and underscores, or [IPv6 address]",
    ),
    (
        TargetFault::BadPath,
        "bad path: a path is a slash and visible characters",
    ),
    (TargetFault::OutOfMemory, "out of memory"),
];

const FIELDS: [(HeaderFault, &str); 6] = [
    (
        HeaderFault::BadName,
        "bad name: a name is letters, digits and any of !#$%&'*+-.^_`|~",
    ),
    (
        HeaderFault::ReservedName,
        "reserved name: the kit sets this field itself",
    ),
    (
        HeaderFault::Repeated,
        "repeated name: a field of this name is there already",
    ),
    (
        HeaderFault::BadValue,
        "bad value: a value is visible ASCII, with spaces and tabs between",
    ),
    (
        HeaderFault::TooLong,
        "too long: all fields have 8192 bytes at most",
    ),
    (HeaderFault::OutOfMemory, "out of memory"),
];

#[test]
fn faults_are_displayed(rt: HostRuntime) {
    let alloc = rt.alloc();
    assert_displayed(&rt, alloc, &MESSAGES);
    assert_displayed(&rt, alloc, &POSTS);
    assert_displayed(&rt, alloc, &TARGETS);
    assert_displayed(&rt, alloc, &FIELDS);
    assert_displayed(&rt, alloc, &[(DeviceFailed, "the device failed")]);
    let stopped = Stopped { sent: 2 };
    assert_displayed(&rt, alloc, &[(stopped, "the device failed after 2 bytes")]);
    let refused = Failure::NoReply(HttpFault::OutOfMemory);
    assert_displayed(
        &rt,
        alloc,
        &[(refused, "no memory for the head of the reply")],
    );
}

#[test]
fn own_fields_go_out_and_are_not_shown(rt: HostRuntime) {
    let alloc = rt.alloc();
    let mut fields = HeaderFields::new(alloc);
    assert_equal(&rt, fields.push("api-key", "s3cret"), Ok(()));
    let target = target(alloc).expect(&rt, "a target").with_headers(fields);
    let mut output = Counted::new(Vec::new(alloc));
    let (coding, connection) = (Coding::Gzip, Connection::KeepAlive);
    let answer = write_request_in(&mut output, &target, coding, connection, b"xy");
    assert_equal(&rt, answer, Ok(()));
    let text = output.into_inner();
    let wanted = concat!(
        "POST /v1/traces HTTP/1.1\r\nHost: 127.0.0.1:4318\r\n",
        "Content-Type: application/x-protobuf\r\nContent-Length: 2\r\n",
        "Content-Encoding: gzip\r\nConnection: keep-alive\r\napi-key: s3cret\r\n\r\nxy",
    );
    assert_equal(&rt, text.as_slice(), wanted.as_bytes());
    let exporter = LinkExporter::over(alloc, alloc, (), target);
    let text = format!(in alloc; "{exporter:?}").expect(&rt, "memory");
    let wanted = concat!(
        "LinkExporter { target: Target { host: \"127.0.0.1\", port: 4318, path: \"/v1/traces\", ",
        "headers: HeaderFields(1) }, ",
        "limits: HeadLimits { head: 16384, fields: 64, body: 65536 }, ",
        "reads_after_a_stop: false, .. }",
    );
    assert_equal(&rt, text.as_str(), wanted);
}

#[test]
fn a_reply_goes_out_in_one_write(rt: HostRuntime) {
    let reply = PostReply {
        status: ReplyStatus::MethodNotAllowed,
        retry_after: Some(u64::MAX),
    };
    let mut wire = wire(&rt, rt.alloc(), b"", 1_000, FailingCalls::From(1));
    assert_equal(&rt, write_reply(&mut wire, reply), Ok(()));
    let wanted = concat!(
        "HTTP/1.1 405 Method Not Allowed\r\nContent-Type: application/x-protobuf\r\n",
        "Content-Length: 0\r\nConnection: close\r\nAllow: POST\r\n",
        "Retry-After: 18446744073709551615\r\n\r\n",
    );
    assert_equal(&rt, wire.taken(), wanted.as_bytes());
}
