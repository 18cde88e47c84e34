//! Attempts over links of the test's own: in how many writes and reads, and what a watch shows.

use crate::tests::equal::assert_equal;
use crate::tests::fixture::{Text, bytes_of, target, wire};
use http_exporter::{Buffered, Dial, Failure, FailureWatch, LinkExporter, WatchedExporter};
use otlp_http::{FailingCalls, FailingWire, FaultRead};
use retry_core::Outcome;
use span_exporter::Exporter;
use std::alloc::Global;
use std::process::Abort;
use std::sync::Wait;

/// A reply that says that all was taken.
const GOOD: &[u8] = b"HTTP/1.1 200 OK\r\nContent-Length: 0\r\n\r\n";

/// A reply that refuses a large body.
const TOO_LARGE: &[u8] = b"HTTP/1.1 413 Content Too Large\r\nContent-Length: 0\r\n\r\n";

/// A dial that gives listed links, the last one first.
#[derive(Drop)]
struct ListedLinks {
    links: Vec<Option<FailingWire>>,
}

impl Dial for ListedLinks {
    type Link = FailingWire;

    fn dial(&mut self, _host: &str, _port: u16) -> Option<FailingWire> {
        self.links.pop()?
    }
}

/// A link that gives this reply, takes all that it is given, and fails these calls.
fn link(rt: &impl Abort, alloc: Global, reply: &[u8], failing: FailingCalls) -> FailingWire {
    wire(rt, alloc, reply, 1_000_000, failing)
}

/// An exporter over these links, the last one first.
fn exporter(
    rt: &impl Abort,
    alloc: Global,
    links: Vec<Option<FailingWire>>,
) -> LinkExporter<ListedLinks> {
    let target = target(alloc).expect(rt, "a target");
    LinkExporter::over(alloc, alloc, ListedLinks { links }, target)
}

/// Checks that a body of so many times these 62 bytes goes out whole in so many writes, by a link
/// whose calls fail after them.
fn assert_writes(rt: &impl Abort, alloc: Global, times: usize, writes: u64) {
    let piece = b"0123456789abcdefghijklmnopqrstuvwxyzABCDEFGHIJKLMNOPQRSTUVWXYZ";
    let text: Text<'_> = (b"\r\n\r\n", piece, times, b"");
    let text = bytes_of(rt, alloc, text);
    let mut link = link(rt, alloc, GOOD, FailingCalls::From(writes));
    let exporter = exporter(rt, alloc, Vec::new(alloc));
    let body = text.get(4..).unwrap_or(&[]);
    assert_equal(rt, exporter.post(&mut link, body), Outcome::NoReply);
    assert_equal(rt, (times, link.taken().ends_with(&text)), (times, true));
}

#[test]
fn a_request_goes_out_in_one_write_or_two(rt: HostRuntime) {
    for (times, writes) in [(0, 1), (1, 1), (81, 2), (1130, 2)] {
        assert_writes(&rt, rt.alloc(), times, writes);
    }
}

/// The same exporter, which reads a reply where a write failed.
fn asking(plain: LinkExporter<ListedLinks>) -> LinkExporter<ListedLinks> {
    plain.reading_after_a_stop()
}

#[test]
fn a_reply_after_a_stopped_write_is_read_where_that_is_asked_for(rt: HostRuntime) {
    let alloc = rt.alloc();
    let mut link = link(&rt, alloc, TOO_LARGE, FailingCalls::Once(1));
    let exporter = asking(exporter(&rt, alloc, Vec::new(alloc)));
    let outcome = exporter.post(&mut link, &[7; 5_000]);
    assert_equal(&rt, outcome, Outcome::Refused(413));
}

/// How many bytes are read of this wire by a link with a buffer, byte by byte.
fn read_through(wire: FailingWire) -> usize {
    let mut link = Buffered::new(wire);
    for count in 0..usize::MAX {
        if link.read(&mut [0]) != Ok(1) {
            return count;
        }
    }
    0
}

#[test]
fn bytes_that_are_read_one_by_one_come_by_few_reads(rt: HostRuntime) {
    let text = bytes_of(&rt, rt.alloc(), (b"", b"x", 10_000, b""));
    // A buffer has room for 4,096 bytes.
    for (reads, count) in [(3, 10_000), (2, 8_192)] {
        let wire = link(&rt, rt.alloc(), &text, FailingCalls::From(reads));
        assert_equal(&rt, read_through(wire), count);
    }
}

/// Attempts one after the other, each with what comes of it and what a watch then shows: the last
/// one is delivered, and leaves what was there.
const WATCHED: [(Outcome, &str); 7] = [
    (Outcome::Delivered, "none"),
    (Outcome::NoReply, "no connection to the collector"),
    (
        Outcome::NoReply,
        "no reply came in time, or it could not be read",
    ),
    (Outcome::NoReply, "the request could not be sent whole"),
    (Outcome::Refused(400), "the collector answered 400: bad"),
    (
        Outcome::Partial(2),
        "the collector rejected 2 of the spans: x",
    ),
    (
        Outcome::Delivered,
        "the collector rejected 2 of the spans: x",
    ),
];

/// What a failure says, and `none` where there is none.
fn text_of(rt: &impl Abort, alloc: Global, failure: Option<&Failure>) -> String {
    let text = match failure {
        Some(failure) => format!(in alloc; "{failure}"),
        None => format!(in alloc; "none"),
    };
    text.expect(rt, "memory")
}

/// What a watch shows.
fn watched_text<R: Abort + Wait>(rt: &R, alloc: Global, watch: &FailureWatch) -> String {
    let last = watch.last(rt);
    text_of(rt, alloc, last.as_ref())
}

#[test]
fn a_watch_shows_what_the_last_attempt_met_that_failed(rt: HostRuntime) {
    let alloc = rt.alloc();
    let (never, rejected) = (
        FailingCalls::Never,
        b"HTTP/1.1 200 OK\r\n\r\n\x0a\x05\x08\x02\x12\x01x",
    );
    let links = vec![in alloc;
        Some(link(&rt, alloc, GOOD, never)),
        Some(link(&rt, alloc, rejected, never)),
        Some(link(&rt, alloc, b"HTTP/1.1 400 Bad\r\n\r\nbad", never)),
        Some(link(&rt, alloc, GOOD, FailingCalls::Once(0))),
        Some(link(&rt, alloc, GOOD, FailingCalls::Once(1))),
        None,
        Some(link(&rt, alloc, GOOD, never)),
    ];
    let plain = exporter(&rt, alloc, links.expect(&rt, "memory"));
    let made = WatchedExporter::new(alloc, rt, plain);
    let (mut exporter, watch) = made.expect(&rt, "memory");
    for (wanted, text) in WATCHED {
        assert!(rt; exporter.prepare(3, 1).is_ok());
        assert_equal(&rt, exporter.export(1, 1, b"abc"), wanted);
        assert_equal(&rt, watched_text(&rt, alloc, &watch).as_str(), text);
    }
}
