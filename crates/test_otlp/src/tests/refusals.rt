//! All that takes memory, made where it is there, and with each call for memory refused in turn.
use crate::tests::bodies::{RICH, RICH_TEXT};
use crate::tests::equal::{assert_equal, shown};
use crate::tests::gzip_files::{OVERLAP, written};
use crate::tests::samples::{FIRST, TWO, TWO_RESOURCES, spans_of, spans_of_remote};
use crate::tests::settings::{PAIRS, PAIRS_SET};
use crate::tests::trees::{REQUEST, request, text_of};
use gzip::Gunzip;
use linked_list_allocator::LocalHeap;
use otel_settings::{resource_attributes, resource_pairs, settings_of};
use otlp_json::read_body;
use otlp_proto::{body_of, encode, group};
use otlp_read::read_request;
use otlp_wire::{
    PartialSuccess, Response, read_response, write_fixed32, write_fixed64, write_len,
    write_response, write_varint,
};
use std::alloc::{Allocator, Global};
use std::process::Abort;
use test_support::FailingAllocator;

/// What is made.
#[derive(Debug, Clone, Copy, PartialEq, Eq)]
enum Making {
    /// A payload of each kind.
    Payloads,
    /// A response that is read.
    Response,
    WrittenResponse,
    /// A request of all fields that is read, and how many spans it has.
    Request,
    /// The body of a span whose parent is remote, with a link to a remote context.
    Body,
    /// The body of spans under two resources, which are grouped.
    Encoding,
    /// The bytes of a text of JSON.
    Json,
    /// What a gzip file means.
    Gunzip,
    Gzip,
    /// The attributes of a resource, by their text.
    Attributes,
    Settings,
    /// The text of a tree.
    Tree,
}

/// Bytes in hexadecimal digits.
fn digits(rt: &impl Abort, alloc: Global, bytes: &[u8]) -> String {
    hex::encode(alloc, bytes).expect(rt, "memory")
}

fn payloads<A: Allocator + Copy>(rt: &impl Abort, alloc: Global, scarce: A) -> Option<String> {
    let mut out = Vec::new(scarce);
    write_varint(&mut out, 150).ok()?;
    write_fixed64(&mut out, 1).ok()?;
    write_fixed32(&mut out, 1).ok()?;
    write_len(&mut out, b"testing").ok()?;
    Some(digits(rt, alloc, &out))
}

/// A response of two spans that were rejected, for the cause `x`.
const RESPONSE: &[u8] = b"\x0a\x05\x08\x02\x12\x01x";

fn response<A: Allocator + Copy>(rt: &impl Abort, alloc: Global, scarce: A) -> Option<String> {
    let response = read_response(scarce, RESPONSE).ok()?;
    let partial = response.partial_success();
    let said = (partial.rejected_spans(), partial.error_message());
    Some(shown(rt, alloc, &said))
}

fn written_response<A: Allocator + Copy>(
    rt: &impl Abort,
    alloc: Global,
    (ample, scarce): (A, A),
) -> Option<String> {
    let message = String::from_str(ample, "x").expect(rt, "memory");
    let response = Response::new(PartialSuccess::new(2, message));
    let written = write_response(scarce, &response).ok()?;
    Some(digits(rt, alloc, &written))
}

fn rich_request<A: Allocator + Copy>(rt: &impl Abort, alloc: Global, scarce: A) -> Option<String> {
    let request = read_request(scarce, RICH).ok()?;
    let spans = request.triples().ok()?.len();
    Some(shown(rt, alloc, &(spans, &request)))
}

fn body<A: Allocator + Copy>(
    rt: &impl Abort,
    alloc: Global,
    (ample, scarce): (A, A),
) -> Option<String> {
    let spans = spans_of_remote(ample, FIRST).expect(rt, "memory");
    let body = body_of(scarce, &spans, 115).ok()?;
    Some(digits(rt, alloc, &body))
}

fn encoding<A: Allocator + Copy>(
    rt: &impl Abort,
    alloc: Global,
    (ample, scarce): (A, A),
) -> Option<String> {
    let spans = spans_of(ample, TWO).expect(rt, "memory");
    let groups = group(scarce, &spans).ok()?;
    let body = encode(scarce, &groups, 149).ok()?;
    Some(digits(rt, alloc, &body))
}

/// A text with identifiers, numbers in both forms, escapes, bytes, a number that is none and half a
/// character, so that it is read once more.
const JSON: &str = concat!(
    "{\"resourceSpans\":[{\"scopeSpans\":[{\"spans\":[{",
    "\"traceId\":\"5B8EFFF798038103D269B633813fc60c\",\"name\":\"a\\u00e9\\ud83d\\ude00\",",
    "\"kind\":2,\"endTimeUnixNano\":1.5e3,\"flags\":\"257\",",
    "\"attributes\":[{\"value\":{\"bytesValue\":\"-_8=\"}},{\"value\":{\"doubleValue\":\"NaN\"}}],",
    "\"status\":{\"code\":2,\"message\":\"\\ud83d\"},\"unknown\":{\"a\":[1]}}]}]}]}",
);

/// What it means.
const JSON_BYTES: &str = concat!(
    "0a4e124c124a",
    "0a105b8efff798038103d269b633813fc60c",
    "2a0761c3a9f09f9880",
    "3002",
    "41dc05000000000000",
    "850101010000",
    "4a0612043a02fbff",
    "4a0b120921000000000000f87f",
    "7a0718021203efbfbd",
);

fn json<A: Allocator + Copy>(rt: &impl Abort, alloc: Global, scarce: A) -> Option<String> {
    let bytes = read_body(scarce, JSON.as_bytes()).ok()?;
    Some(digits(rt, alloc, &bytes))
}

/// A gzip file of dynamic codes, by zlib.
const DYNAMIC: [u8; 35] = [
    0x1f, 0x8b, 8, 0, 0, 0, 0, 0, 2, 3, 0x05, 0xc1, 0x01, 0x01, 0, 0, 0, 0x80, 0x90, 0xad, 0xf9,
    0x3f, 0x22, 0x4a, 0x50, 0x22, 0xca, 0xcb, 0xe3, 0xbb, 0xad, 20, 0, 0, 0,
];

fn gunzipped<A: Allocator + Copy + Drop>(
    rt: &impl Abort,
    alloc: Global,
    scarce: A,
) -> Option<String> {
    let mut reader = Gunzip::new(scarce).ok()?;
    let mut out = Vec::new(scarce);
    reader.read(&DYNAMIC, 20, &mut out).ok()?;
    Some(digits(rt, alloc, &out))
}

fn gzipped<A: Allocator + Copy + Drop>(
    rt: &impl Abort,
    alloc: Global,
    scarce: A,
) -> Option<String> {
    let file = written(scarce, b"aaaaaaaa").ok()?;
    Some(digits(rt, alloc, &file))
}

/// The standard's form, with W3C Baggage's example of percent-encoding.
const ATTRIBUTES: &[u8] = b"k=v,service.name=shop , userId=Am%C3%A9lie,empty=,k=w";

fn attributes<A: Allocator + Copy>(rt: &impl Abort, alloc: Global, scarce: A) -> Option<String> {
    let pairs = resource_pairs(scarce, ATTRIBUTES).ok()?;
    let attributes = resource_attributes(scarce, &pairs).ok()?;
    Some(shown(rt, alloc, &attributes))
}

fn settings<A: Allocator + Copy>(rt: &impl Abort, alloc: Global, scarce: A) -> Option<String> {
    let settings = settings_of(scarce, &PAIRS).ok()?;
    let (desk, sampler) = (settings.desk, settings.sampler);
    let sampled = (sampler.name.name(), sampler.ratio.threshold());
    let queue = (desk.queue, desk.batch, desk.delay_ms);
    let limits = settings.limits;
    let kept = (
        limits.max_events_per_span,
        limits.max_attribute_value_length,
    );
    let target = &settings.target;
    let place = (target.host(), target.port(), target.path());
    let sent = (place, target.headers().len(), settings.timeout_ms);
    let service = (settings.disabled, &settings.resource);
    let methods = settings.known_methods.as_str();
    let numbers = (queue, kept, settings.faults.len());
    Some(shown(rt, alloc, &(service, sampled, numbers, sent, methods)))
}

fn tree<A: Allocator + Copy>(rt: &impl Abort, alloc: Global, scarce: A) -> Option<String> {
    let text = text_of(scarce, &request(), 20).ok()?;
    Some(String::from_str(alloc, &text).expect(rt, "memory"))
}

/// Makes this on scarce memory, of what is on ample memory, and shows it, unless that is refused
/// memory.
fn made<A: Allocator + Copy + Drop>(
    rt: &impl Abort,
    alloc: Global,
    (ample, scarce): (A, A),
    making: Making,
) -> Option<String> {
    match making {
        Making::Payloads => payloads(rt, alloc, scarce),
        Making::Response => response(rt, alloc, scarce),
        Making::WrittenResponse => written_response(rt, alloc, (ample, scarce)),
        Making::Request => rich_request(rt, alloc, scarce),
        Making::Body => body(rt, alloc, (ample, scarce)),
        Making::Encoding => encoding(rt, alloc, (ample, scarce)),
        Making::Json => json(rt, alloc, scarce),
        Making::Gunzip => gunzipped(rt, alloc, scarce),
        Making::Gzip => gzipped(rt, alloc, scarce),
        Making::Attributes => attributes(rt, alloc, scarce),
        Making::Settings => settings(rt, alloc, scarce),
        Making::Tree => tree(rt, alloc, scarce),
    }
}

/// Makes this while the call for memory of this index is refused. Nothing is kept of what is made.
/// Answers whether it was refused memory, and how many calls for memory there were.
fn outcome(
    rt: &impl Abort,
    alloc: Global,
    (making, text): (Making, &str),
    fail_index: u64,
) -> (bool, u64) {
    let heap = LocalHeap::new(alloc, 524_288).expect(rt, "memory");
    let ample = FailingAllocator::new(&heap, u64::MAX);
    let scarce = FailingAllocator::new(&heap, fail_index);
    let made = made(rt, alloc, (&ample, &scarce), making);
    let is_refused = made.is_none() && scarce.has_failed();
    let want = (!is_refused).then_some(text);
    let place = (making, fail_index);
    assert_equal(rt, (place, made.as_deref()), (place, want));
    assert_equal(rt, (place, heap.used()), (place, 0));
    (is_refused, scarce.calls())
}

/// How many calls for memory are refused, each in its turn, before this is made.
fn count_refused(rt: &impl Abort, alloc: Global, row: (Making, &str)) -> u64 {
    let (_, calls) = outcome(rt, alloc, row, u64::MAX);
    let mut count = 0u64;
    for fail_index in 0..calls {
        let (is_refused, others) = outcome(rt, alloc, row, fail_index);
        // A vector or a text that is refused room for more asks once more, for what it needs.
        let place = (row.0, fail_index);
        let is_answered = is_refused || others > calls;
        assert_equal(rt, (place, is_answered), (place, true));
        count = count.saturating_add(u64::from(is_refused));
    }
    count
}

/// The body of a span whose parent is remote, with a link to a remote context.
const OF_REMOTE: &str = concat!(
    "0a710a00",
    "126d",
    "0a030a0173",
    "1266",
    "0a100102030405060708090a0b0c0d0e0f1012081112131415161718",
    "22082122232425262728", // the parent
    "2a01613001390100000000000000410200000000000000",
    "6a21",
    "0a100102030405060708090a0b0c0d0e0f1012081112131415161718",
    "3501030000",   // flags of the link: sampled, remote
    "850101030000", // flags of the span: sampled, of a remote parent
);

/// What is made, how many calls for memory are refused at least, and what it is.
const MADE: [(Making, u64, &str); 12] = [
    (
        Making::Payloads,
        1,
        "9601010000000000000001000000\
         0774657374696e67",
    ),
    (Making::Response, 1, "(2, \"x\")"),
    (Making::WrittenResponse, 2, "0a050802120178"),
    (Making::Request, 24, RICH_TEXT),
    (Making::Body, 5, OF_REMOTE),
    // Of the encoding itself, the table of lengths and the buffer.
    (Making::Encoding, 10, TWO_RESOURCES),
    (Making::Json, 7, JSON_BYTES),
    // Four tables of codes, that of the check, and the output.
    (
        Making::Gunzip,
        6,
        "6161626162626262616162616262616262616162",
    ),
    (Making::Gzip, 4, OVERLAP),
    (
        Making::Attributes,
        8,
        "[(\"k\", Text(\"w\")), (\"service.name\", Text(\"shop\")), \
         (\"userId\", Text(\"Am\u{e9}lie\")), (\"empty\", Text(\"\"))]",
    ),
    (Making::Settings, 10, PAIRS_SET),
    (Making::Tree, 10, REQUEST),
];

#[test]
fn each_call_for_memory_is_refused_in_turn(rt: HostRuntime) {
    for (making, least, text) in MADE {
        let refused = count_refused(&rt, rt.alloc(), (making, text));
        let found = (making, refused, refused >= least);
        assert_equal(&rt, found, (making, refused, true));
    }
}
