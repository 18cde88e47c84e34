//! Large bodies and requests, and values in one another.
use crate::tests::equal::assert_equal;
use crate::tests::samples::{FIRST, SPAN_FIELD, spans_of};
use linked_list_allocator::LocalHeap;
use otlp_proto::body_of;
use otlp_read::{ReadFault, read_request};
use otlp_wire::{read_response, write_response};
use std::alloc::{Allocator, Global};
use std::process::Abort;

/// The body of 4,096 equal spans, up to the first.
const MANY_FRONT: &str = "0a8be00e0a001285e00e0a030a0173";

#[test]
fn a_body_of_4096_spans_is_written(rt: HostRuntime) {
    let alloc = rt.alloc();
    let samples = vec![in alloc; FIRST; 4_096].expect(&rt, "memory");
    let spans = spans_of(alloc, &samples).expect(&rt, "memory");
    let body = body_of(alloc, &spans, 241_679).expect(&rt, "memory");
    let found = hex::encode(alloc, body.as_slice()).expect(&rt, "memory");
    let fields = SPAN_FIELD.repeat(alloc, 4_096).expect(&rt, "memory");
    let want = [MANY_FRONT, &fields].concat(alloc).expect(&rt, "memory");
    assert_equal(&rt, found.as_str(), want.as_str());
}

/// How many resources the request of a body has, and how many spans.
fn counted<A: Allocator + Copy>(alloc: A, body: &[u8]) -> Result<(usize, usize), ReadFault> {
    let request = read_request(alloc, body)?;
    let spans = request.triples()?.len();
    Ok((request.resource_spans.len(), spans))
}

#[test]
fn a_million_resources_are_read(rt: HostRuntime) {
    let body = b"\x0a\x00"
        .repeat(rt.alloc(), 1_000_000)
        .expect(&rt, "memory");
    let found = counted(rt.alloc(), &body);
    assert_equal(&rt, found, Ok((1_000_000, 0)));
}

/// Puts a tag and a length of four bytes in front of what is here from its end on.
fn wrap(rt: &impl Abort, reversed: &mut Vec<u8>, tag: u8) {
    let size = reversed.len();
    let last = (size / 2_097_152 % 128) as u8;
    let third = (size / 16_384 % 128) as u8 | 0x80;
    let second = (size / 128 % 128) as u8 | 0x80;
    let first = (size % 128) as u8 | 0x80;
    let front = [last, third, second, first, tag];
    reversed.extend_from_slice(&front).expect(rt, "memory");
}

/// A request of a resource with an attribute, whose value is half a million arrays, one in the
/// other.
fn deep_body(rt: &impl Abort, alloc: Global) -> Vec<u8> {
    let mut body = Vec::new(alloc);
    for _array in 0..500_000u32 {
        wrap(rt, &mut body, 0x0a);
        wrap(rt, &mut body, 0x2a);
    }
    for tag in [0x12, 0x0a, 0x0a, 0x0a] {
        wrap(rt, &mut body, tag);
    }
    body.reverse();
    body
}

#[test]
fn half_a_million_arrays_in_one_another_nest_too_deep(rt: HostRuntime) {
    let body = deep_body(&rt, rt.alloc());
    let heap = LocalHeap::new(rt.alloc(), 65_536).expect(&rt, "memory");
    assert_equal(&rt, counted(&heap, &body), Err(ReadFault::TooDeep));
}

#[test]
fn a_response_with_a_long_message_is_read_and_written(rt: HostRuntime) {
    let alloc = rt.alloc();
    let message = "x".repeat(alloc, 70_000).expect(&rt, "memory");
    let front = b"\x0a\xf4\xa2\x04\x12\xf0\xa2\x04".as_slice();
    let parts = [front, message.as_bytes()];
    let body = parts.concat(alloc).expect(&rt, "memory");
    let response = read_response(alloc, &body).expect(&rt, "a response");
    assert_equal(&rt, response.partial_success().error_message(), &message);
    let written = write_response(alloc, &response).expect(&rt, "memory");
    assert_equal(&rt, written.as_slice(), body.as_slice());
}
