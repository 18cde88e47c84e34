//! Connections over the system's sockets.

use crate::tests::equal::assert_equal;
use crate::tests::fixture::bytes_of;
use http_exporter::{Dial, HttpExporter, KeptLink, TcpDial};
use otlp_http::{FaultRead, FaultWrite, Target};
use retry_core::Outcome;
use std::io::{Read, Write};
use std::net::{OpenListener, TcpListener};
use std::process::Abort;
use std::time::{Duration, Instant};

/// Sends a request of one byte and its reply, and checks that each comes to the other end.
fn assert_exchange<L: FaultRead + FaultWrite, O: Read + Write>(
    rt: &impl Abort,
    link: &mut L,
    other: &mut O,
) {
    let mut came = [0; 8];
    assert_equal(rt, link.write(b"q").ok(), Some(1));
    assert_equal(rt, (other.read(&mut came).ok(), came[0]), (Some(1), b'q'));
    assert_equal(rt, other.write(b"a").ok(), Some(1));
    assert_equal(rt, (link.read(&mut came).ok(), came[0]), (Some(1), b'a'));
}

/// A connection is ready while nothing has come, and not once a byte has or the other end has closed
/// it; to ask reads nothing. One that is asked carries a request and its reply, and once more; and it
/// waits for a reply that doesn't come until its time is up.
#[test]
fn a_connection_that_was_asked_carries_a_request_and_waits_for_the_reply(rt: HostRuntime) {
    let listener = TcpListener::bind(&rt, "127.0.0.1:0").expect(&rt, "a listener");
    let port = listener.local_addr().expect(&rt, "a port").port();
    let mut dial = TcpDial::new(rt, 500).within_ms(60_000);
    let link = dial.dial("127.0.0.1", port);
    let (mut other, _) = listener.accept().expect(&rt, "a connection");
    let Some(mut link) = link else {
        assert!(rt; false);
        return;
    };
    assert_equal(&rt, link.renew(), true);
    assert_equal(&rt, other.write(b"x").ok(), Some(1));
    assert_equal(&rt, link.renew(), false);
    assert_equal(&rt, link.read(&mut [0; 8]).ok(), Some(1));
    for _exchange in 0..2 {
        assert_equal(&rt, link.renew(), true);
        assert_exchange(&rt, &mut link, &mut other);
    }
    assert_equal(&rt, link.renew(), true);
    let began = Instant::now(&rt).expect(&rt, "a moment");
    assert_equal(&rt, link.read(&mut [0; 8]).is_err(), true);
    let waited = began.elapsed(&rt).expect(&rt, "a moment");
    assert!(rt; waited >= Duration::from_millis(400));
    drop(other);
    assert_equal(&rt, link.renew(), false);
}

/// A listener takes a connection and never reads: the request fills the system's buffers, and then
/// a write waits until the attempt ends.
#[test]
fn an_attempt_ends_where_a_server_never_reads(rt: HostRuntime) {
    let alloc = rt.alloc();
    let listener = TcpListener::bind(&rt, "127.0.0.1:0").expect(&rt, "a listener");
    let port = listener.local_addr().expect(&rt, "a port").port();
    let target = Target::new(alloc, "127.0.0.1", port, "/").expect(&rt, "a target");
    let mut exporter = HttpExporter::new(alloc, rt, target, 30_000).within_ms(300);
    let body = bytes_of(&rt, alloc, (b"", &[7; 1024], 16_384, b""));
    assert_equal(&rt, exporter.attempt(&body), Outcome::NoReply);
}
