//! Large messages, messages in which a seeded generator has changed bytes, and readers that fail.

use crate::tests::equal::assert_equal;
use crate::tests::fixture::{BODY, Lack, MESSAGES, Message, REPLY, Text, bytes_of, found};
use otlp_http::{FailingCalls, HttpFault};
use rand_core::Rng;
use rand_pcg::Pcg32;
use std::alloc::Global;
use std::process::Abort;

/// All bytes a call, as many as are wanted.
const AT_ONCE: (usize, FailingCalls) = (65_536, FailingCalls::Never);

/// Large messages, of which some are requests: their text, and how many of their bytes are left where
/// the body is too large. Else it is 65,536 times `b`.
const LARGE: [(bool, Text<'static>, usize); 3] = [
    (
        false,
        (
            b"HTTP/1.1 200 OK\r\nTransfer-Encoding: chunked\r\n\r\n",
            b"1\r\nb\r\n",
            65_536,
            b"0\r\n\r\n",
        ),
        0,
    ),
    (
        true,
        (
            b"POST / HTTP/1.1\r\nTransfer-Encoding: Chunked\r\n\r\n",
            b"1\r\nb\r\n",
            65_537,
            b"0\r\n\r\n",
        ),
        8,
    ),
    (false, (b"HTTP/1.1 200 OK\r\n\r\n", b"b", 65_536, b""), 0),
];

#[test]
fn bodies_of_64_kib_are_read_and_larger_ones_are_not(rt: HostRuntime) {
    for (is_post, text, left) in LARGE {
        let text = bytes_of(&rt, rt.alloc(), text);
        let (body, lack, rest, _) = found(&rt, rt.alloc(), &text, is_post, AT_ONCE);
        let (size, wanted) = if left == 0 {
            (65_536, None)
        } else {
            (0, Some((false, HttpFault::TooLarge)))
        };
        assert_equal(&rt, (lack, rest), (wanted, left));
        let wanted = bytes_of(&rt, rt.alloc(), (b"", b"b", size, b""));
        assert_equal(&rt, body.as_slice(), wanted.as_slice());
    }
}

#[test]
fn interim_heads_may_come_after_many_empty_lines(rt: HostRuntime) {
    let alloc = rt.alloc();
    let interim = bytes_of(&rt, alloc, (b"", b"\n", 16_366, b"HTTP/1.1 100 N\r\n\r\n"));
    let text = bytes_of(&rt, alloc, (b"", &interim, 16, REPLY));
    let (body, lack, rest, _) = found(&rt, alloc, &text, false, AT_ONCE);
    assert_equal(&rt, (body.as_slice(), lack, rest), (BODY, None, 0));
}

/// Checks what a message comes to where each read of one byte fails in turn.
fn assert_stops(rt: &impl Abort, alloc: Global, message: Message) {
    let (is_post, head, text) = message;
    for at in 0..text.len() {
        let stopped = found(rt, alloc, text, is_post, (1, FailingCalls::Once(at as u64)));
        let (_, lack, rest, failures) = stopped;
        let wanted = (Some((at < head, HttpFault::Device)), text.len() - at, 1);
        assert_equal(rt, (lack, rest, failures), wanted);
    }
    let end = FailingCalls::Once(text.len() as u64);
    let (body, lack, rest, failures) = found(rt, alloc, text, is_post, (1, end));
    assert_equal(
        rt,
        (body.as_slice(), lack, rest, failures),
        (BODY, None, 0, 0),
    );
}

#[test]
fn a_message_stops_at_each_read_that_fails(rt: HostRuntime) {
    for message in MESSAGES {
        assert_stops(&rt, rt.alloc(), message);
    }
}

/// Puts other bytes in one to four places of a text, from this one on.
fn change(rt: &impl Abort, rng: &mut Pcg32, text: &mut Vec<u8>, from: u32) {
    assert!(rt; (from as usize) < text.len() && text.len() <= 1_000);
    let count = text.len() as u32 - from;
    for _change in 0..=rng.next_u32() % 4 {
        let at = from + rng.next_u32() % count;
        let byte = (rng.next_u32() % 256) as u8;
        if let Some(place) = text.get_mut(at as usize) {
            *place = byte;
        }
    }
}

/// Why there is no body in a text, which has to be read the same at once and in parts of three bytes.
fn lack_in_parts(rt: &impl Abort, alloc: Global, text: &[u8], is_post: bool) -> Lack {
    let whole = found(rt, alloc, text, is_post, AT_ONCE);
    let parts = found(rt, alloc, text, is_post, (3, FailingCalls::Never));
    let (_, lack, _, _) = &whole;
    let lack = *lack;
    assert_equal(rt, parts, whole);
    lack
}

/// From which byte on each of the messages is changed.
const CHANGES: [u32; 4] = [0, 0, 47, 26];

#[test]
fn changed_messages_are_read_the_same_in_parts(rt: HostRuntime) {
    let alloc = rt.alloc();
    let mut rng = Pcg32::new(1, 1);
    for turn in 0..20_000usize {
        let ((is_post, _, text), from) = (MESSAGES[turn % 4], CHANGES[turn % 4]);
        let mut changed = Vec::from_slice(alloc, text).expect(&rt, "memory");
        change(&rt, &mut rng, &mut changed, from);
        let lack = lack_in_parts(&rt, alloc, &changed, is_post);
        let is_memory = matches!(lack, Some((_, HttpFault::OutOfMemory | HttpFault::Device)));
        assert_equal(&rt, is_memory, false);
    }
}
