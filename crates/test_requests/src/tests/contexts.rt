//! The fields `traceparent` and `tracestate`: the cases of the standard's own test suite and a few
//! more, and what a carrier has where memory is refused. The texts are by the standard's grammar
//! (W3C Trace Context level 2, "Traceparent Header", "Tracestate Header"), by which a key may begin
//! with a digit and have any number of `@` after its first byte.
use super::equal::assert_equal;
use otlp_ids::{OutOfMemory, SpanContext, SpanId, TraceFlags, TraceId};
use std::alloc::{Allocator, Global};
use std::process::Abort;
use test_support::FailingAllocator;
use trace_context::{
    extract, fields, inject, read_traceparent, read_tracestate, write_traceparent,
};

/// Each is a `traceparent`, of which these flags go out again.
const PARENTS_READ: [(&str, &str); 12] = [
    (
        "00-4bf92f3577b34da6a3ce929d0e0e4736-00f067aa0ba902b7-01",
        "01",
    ),
    (
        "00-12345678901234567890123456789012-1234567890123456-00",
        "00",
    ),
    (
        "cc-12345678901234567890123456789012-1234567890123456-01",
        "01",
    ),
    (
        "cc-12345678901234567890123456789012-1234567890123456-01-what-the-future",
        "01",
    ),
    (
        "cc-12345678901234567890123456789012-1234567890123456-01-",
        "01",
    ),
    (
        "01-12345678901234567890123456789012-1234567890123456-02",
        "02",
    ),
    (
        "fe-12345678901234567890123456789012-1234567890123456-03",
        "03",
    ),
    (
        "00-12345678901234567890123456789012-1234567890123456-ff",
        "03",
    ),
    (
        "00-12345678901234567890123456789012-1234567890123456-fc",
        "00",
    ),
    (
        "00-00000000000000000000000000000001-1234567890123456-fe",
        "02",
    ),
    (
        "00-12345678901234567890123456789012-0000000000000001-01",
        "01",
    ),
    (
        "00-ffffffffffffffffffffffffffffffff-ffffffffffffffff-01",
        "01",
    ),
];

/// None is one.
const PARENTS_REFUSED: [&str; 42] = [
    // Its version, and what follows it.
    "00-12345678901234567890123456789012-1234567890123456-01-what-the-future",
    "00-12345678901234567890123456789012-1234567890123456-01.what-the-future",
    "00-12345678901234567890123456789012-1234567890123456-01-",
    "00-12345678901234567890123456789012-1234567890123456-010",
    "cc-12345678901234567890123456789012-1234567890123456-01.what-the-future",
    "cc-12345678901234567890123456789012-1234567890123456-010",
    "ff-12345678901234567890123456789012-1234567890123456-01",
    ".0-12345678901234567890123456789012-1234567890123456-01",
    "0.-12345678901234567890123456789012-1234567890123456-01",
    "CC-12345678901234567890123456789012-1234567890123456-01",
    "0g-12345678901234567890123456789012-1234567890123456-01",
    "000-12345678901234567890123456789012-1234567890123456-01",
    "0000-12345678901234567890123456789012-1234567890123456-01",
    "0-12345678901234567890123456789012-1234567890123456-01",
    "-12345678901234567890123456789012-1234567890123456-01",
    // Its trace.
    "00-00000000000000000000000000000000-1234567890123456-01",
    "00-.2345678901234567890123456789012-1234567890123456-01",
    "00-1234567890123456789012345678901.-1234567890123456-01",
    "00-1234567890123456789012345678901A-1234567890123456-01",
    "00-123456789012345678901234567890123-1234567890123456-01",
    "00-1234567890123456789012345678901-1234567890123456-01",
    "00--1234567890123456-01",
    // Its span.
    "00-12345678901234567890123456789012-0000000000000000-01",
    "00-12345678901234567890123456789012-.234567890123456-01",
    "00-12345678901234567890123456789012-123456789012345.-01",
    "00-12345678901234567890123456789012-123456789012345F-01",
    "00-12345678901234567890123456789012-12345678901234567-01",
    "00-12345678901234567890123456789012-123456789012345-01",
    "00-12345678901234567890123456789012--01",
    // Its flags.
    "00-12345678901234567890123456789012-1234567890123456-.0",
    "00-12345678901234567890123456789012-1234567890123456-0.",
    "00-12345678901234567890123456789012-1234567890123456-0A",
    "00-12345678901234567890123456789012-1234567890123456-001",
    "00-12345678901234567890123456789012-1234567890123456-1",
    "00-12345678901234567890123456789012-1234567890123456-",
    // Blanks, dashes and ends.
    " 00-12345678901234567890123456789012-1234567890123456-01",
    "00-12345678901234567890123456789012-1234567890123456-01\t",
    "0012345678901234567890123456789012-1234567890123456-01",
    "00-12345678901234567890123456789012_1234567890123456-01",
    "00-12345678901234567890123456789012-1234567890123456_01",
    "00-12345678901234567890123456789012-1234567890123456-01\r\n",
    "",
];

/// Values of `tracestate`, and what goes out of them where that isn't the same: without blanks
/// around members and without empty ones, or nothing.
const STATES: [(&str, Option<&str>); 60] = [
    ("foo=1,bar=2", None),
    ("f0o1=1", None),
    ("a0123456789_-*/abcdefghijklmnopqrstuvwxyz=1", None),
    (
        "0123456789_-*/abcdefghijklmnopqrstuvwxyz@a-z0-9_-*/=1",
        None,
    ),
    (
        "foo=!\"#$%&'()*+-./0123456789:;<>?@ABCDEFGHIJKLMNOPQRSTUVWXYZ[\\]^_`",
        None,
    ),
    ("foo=abcdefghijklmnopqrstuvwxyz{|}~", None),
    ("foo=1 2", None),
    ("foo= 1", None),
    ("0t@v=1", None),
    ("foo=1,bar=1", None),
    ("foo=1,foo1=2,fo=3", None),
    ("t@v=1,t@w=2", None),
    ("0foo=1", None),
    ("foo@=1", None),
    ("foo@@bar=1", None),
    ("foo@bar@baz=1", None),
    ("foo@1v=1", None),
    ("t@vvvvvvvvvvvvvvv=1", None),
    // Blanks and empty members.
    ("foo=1 \t , \t bar=2, \t baz=3", Some("foo=1,bar=2,baz=3")),
    ("\t foo=1", Some("foo=1")),
    ("foo=1 \t", Some("foo=1")),
    (" foo=1\t", Some("foo=1")),
    ("foo=1,,bar=2,", Some("foo=1,bar=2")),
    ("foo=1, \t ,bar=2", Some("foo=1,bar=2")),
    (",,,", Some("")),
    (" \t ", Some("")),
    ("", None),
    // Keys that come twice.
    ("foo=1,foo=1", Some("")),
    ("foo=1,foo=2", Some("")),
    ("foo=1,bar=2,foo=3", Some("")),
    ("t@v=1,t@v=2", Some("")),
    // No member, no key, no value.
    ("foo", Some("")),
    ("foo=1,bar", Some("")),
    ("=1", Some("")),
    ("foo=", Some("")),
    ("foo= ", Some("")),
    ("foo=1=2", Some("")),
    ("foo=1;bar=2=3", Some("")),
    // Bytes that a key hasn't.
    ("foo =1", Some("")),
    ("FOO=1", Some("")),
    ("fOo=1", Some("")),
    ("foo.bar=1", Some("")),
    ("foo:bar=1", Some("")),
    ("foo;bar=1", Some("")),
    ("_foo=1", Some("")),
    ("-foo=1", Some("")),
    ("*foo=1", Some("")),
    ("/foo=1", Some("")),
    ("fo\to=1", Some("")),
    ("föo=1", Some("")),
    ("@foo=1", Some("")),
    ("foo@Bar=1", Some("")),
    ("Foo@bar=1", Some("")),
    // Bytes that a value hasn't.
    ("foo=é", Some("")),
    ("foo=\x7f", Some("")),
    ("foo=\x01", Some("")),
    ("foo=1\t2", Some("")),
    ("foo=1\r\n", Some("")),
    ("foo=1,BAR=2", Some("")),
    ("rojo=00f067aa0ba902b7,congo=t61rcWkgMzE", None),
];

/// A member of `tracestate`, with a letter so many times between two texts, and whether it counts: a
/// key has 256 bytes at most, and so has a value.
const LENGTHS: [(&str, char, usize, &str, bool); 8] = [
    ("", 'z', 256, "=1", true),
    ("", 't', 241, "@v=1", true),
    ("", 't', 242, "@v=1", true),
    ("", 't', 241, "@vvvvvvvvvvvvvv=1", true),
    ("foo=", 'v', 256, "", true),
    ("", 'z', 257, "=1", false),
    ("", 't', 242, "@vvvvvvvvvvvvvv=1", false),
    ("foo=", 'v', 257, "", false),
];

/// What is written of the context that a text gives, if it gives one.
fn written<A: Allocator>(alloc: A, text: &str) -> Option<[u8; 55]> {
    let context = read_traceparent(alloc, text.as_bytes())?;
    let mut out = [0; 55];
    write_traceparent(&context, &mut out);
    Some(out)
}

/// Asserts what is written of the context that a text gives: the same by version 00, up to the flags.
fn assert_written(rt: &impl Abort, alloc: Global, text: &str, flags: &str) {
    let out = written(alloc, text).expect(rt, "a context");
    let same = text.as_bytes().get(2..53).unwrap_or(&[]);
    let mut wanted = Vec::from_slice(alloc, b"00").expect(rt, "memory");
    wanted.extend_from_slice(same).expect(rt, "memory");
    wanted
        .extend_from_slice(flags.as_bytes())
        .expect(rt, "memory");
    assert_equal(rt, (text, out.as_slice()), (text, wanted.as_slice()));
}

#[test]
fn traceparents_of_the_standards_suite(rt: HostRuntime) {
    for (text, flags) in PARENTS_READ {
        assert_written(&rt, rt.alloc(), text, flags);
    }
    for text in PARENTS_REFUSED {
        let is_read = written(rt.alloc(), text).is_some();
        assert_equal(&rt, (text, is_read), (text, false));
    }
}

/// Asserts what is read of a value of `tracestate`.
fn assert_state(rt: &impl Abort, alloc: impl Allocator + Copy, text: &str, wanted: &str) {
    let state = read_tracestate(alloc, &[text.as_bytes()]).expect(rt, "memory");
    assert_equal(rt, (text, state.as_str()), (text, wanted));
}

/// So many entries, with a comma after each.
fn entries<A: Allocator + Copy>(rt: &impl Abort, alloc: A, count: u32) -> String<A> {
    let mut text = String::new(alloc);
    for number in 0..count {
        let entry = format!(in alloc; "k{number}=v,").expect(rt, "memory");
        text.push_str(&entry).expect(rt, "memory");
    }
    text
}

#[test]
fn tracestates_of_the_standards_suite(rt: HostRuntime) {
    let alloc = rt.alloc();
    for (text, wanted) in STATES {
        assert_state(&rt, alloc, text, wanted.unwrap_or(text));
    }
    for (front, letter, count, end, counts) in LENGTHS {
        let mut text = String::from_str(alloc, front).expect(&rt, "memory");
        for _letter in 0..count {
            text.push(letter).expect(&rt, "memory");
        }
        text.push_str(end).expect(&rt, "memory");
        if counts {
            assert_state(&rt, alloc, &text, &text);
        } else {
            assert_state(&rt, alloc, &text, "");
        }
    }
    let most = entries(&rt, alloc, 32);
    assert_state(&rt, alloc, &most, most.as_str().trim_end_matches(','));
    for count in [33, 10_000] {
        assert_state(&rt, alloc, &entries(&rt, alloc, count), "");
    }
}

/// A context with these flags and this state.
fn context<A: Allocator>(
    alloc: A,
    flags: TraceFlags,
    state: &str,
) -> Result<SpanContext<A>, OutOfMemory> {
    Ok(SpanContext {
        trace: TraceId([0x4b; 16]),
        span: SpanId([1; 8]),
        flags,
        remote: true,
        state: String::from_str(alloc, state)?,
    })
}

/// Whether the context that is added to the fields of a request is read again as it was, as a remote
/// one, and how many fields there are.
fn comes_back<A: Allocator + Copy>(
    alloc: A,
    flags: TraceFlags,
    state: &str,
) -> Result<(bool, usize), OutOfMemory> {
    let context = context(alloc, flags, state)?;
    let mut request: Vec<(String<A>, Vec<u8, A>), A> = Vec::new(alloc);
    inject(alloc, &context, &mut request)?;
    let found = extract(alloc, &request)?;
    Ok((found == Some(context), request.len()))
}

#[test]
fn what_is_injected_is_extracted_whatever_memory_is_refused(rt: HostRuntime) {
    for flags in [TraceFlags(0), TraceFlags::SAMPLED] {
        for (state, count) in [("", 1), ("rojo=00f067aa0ba902b7,congo=t61rcWkgMzE", 2)] {
            let found = comes_back(rt.alloc(), flags, state).ok();
            assert_equal(&rt, found, Some((true, count)));
        }
    }
    let names = ["traceparent", "tracestate"];
    assert_equal(&rt, fields().as_slice(), names.as_slice());
    let mut refused = 0u32;
    for fail_index in 0..64u64 {
        let scarce = FailingAllocator::new(rt.alloc(), fail_index);
        // A vector that is refused room for more asks once more, for what it needs.
        match comes_back(&scarce, TraceFlags::SAMPLED, "a=1,b=2") {
            Ok(found) => assert_equal(&rt, (fail_index, found), (fail_index, (true, 2))),
            Err(OutOfMemory) => {
                assert_equal(&rt, (fail_index, scarce.has_failed()), (fail_index, true));
                refused = refused.saturating_add(1);
            }
        }
    }
    assert_equal(&rt, refused > 8, true);
}
