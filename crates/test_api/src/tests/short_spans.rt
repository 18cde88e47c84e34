//! A start with attributes and a link, and the calls after it by number, all by `SpanExt`.
use crate::tests::spans::{START, provider, remote, scope};
use otlp_ids::{OutOfMemory, SpanContext};
use otlp_span::{Kind, SpanLimits};
use std::alloc::Allocator;
use std::process::Abort;
use trace_api::{
    KeyValue, LinkRef, Span, SpanExt, SpanRequest, StartFault, ValueRef, WordsRng, start_span,
};

const MISS: u64 = 1_500;

/// Starts a child of a remote span on this memory, with two attributes and a link. What it is
/// started with is on ample memory.
pub(crate) fn start<A: Allocator + Copy>(
    rt: &impl Abort,
    ample: A,
    alloc: A,
    words: &mut WordsRng<A>,
) -> Result<Span<A>, StartFault> {
    let provider = provider(rt, ample, SpanLimits::default());
    let tracer = provider.tracer(scope(rt, ample));
    let parent = remote(rt, ample);
    let request = SpanRequest {
        kind: Kind::Client,
        parent: Some(&parent),
        attributes: &[
            KeyValue::new("db.system", &"postgresql"),
            KeyValue::new("db.rows", &0),
        ],
        links: &[LinkRef {
            context: &parent,
            attributes: &[KeyValue::new("messaging.batch", &7)],
        }],
        ..SpanRequest::named("SELECT")
    };
    start_span(&tracer, alloc, words, &request, START)
}

/// Makes some calls, one after the other.
fn call_in_turn<A: Allocator + Copy>(query: &mut Span<A>) -> Result<(), OutOfMemory> {
    query.set("db.rows", 3)?;
    query.set("db.shards", ["eu", "us"].as_slice())?;
    query.set_error("no connection")?;
    query.event("cache miss", MISS, &[KeyValue::new("cache.key", &"cart:7")])
}

/// How many calls `call` makes.
pub(crate) const CALLS: u32 = 14;

/// Makes the call of this number.
pub(crate) fn call<A: Allocator + Copy, B: Allocator>(
    span: &mut Span<A>,
    to: &SpanContext<B>,
    number: u32,
) -> Result<(), OutOfMemory> {
    match number {
        0 => call_in_turn(span),
        1..8 => set(span, number),
        8 => span.set_all(&[KeyValue::new("c", &2), KeyValue::new("text", &"y")]),
        9 => span.event("miss", 5, &[]),
        10 => span.exception("E", "x", "", 6, &[KeyValue::new("n", &7)]),
        11 => span.link(to, &[]),
        12 => span.set_error("bad"),
        _ => span.rename("SELECT cart"),
    }
}

/// Sets the attribute of this number.
fn set<A: Allocator + Copy>(span: &mut Span<A>, number: u32) -> Result<(), OutOfMemory> {
    match number {
        1 => span.set("text", "t"),
        2 => span.set("truth", true),
        3 => span.set("number", -1i64),
        4 => span.set("empty", ""),
        5 => span.set("truths", [true, false].as_slice()),
        6 => span.set("numbers", [1i64, -2].as_slice()),
        _ => span.set("lent", ValueRef::Int(4)),
    }
}
