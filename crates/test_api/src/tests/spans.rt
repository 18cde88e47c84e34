//! What the tests start spans with, and what they show of one that has ended.
use otlp_ids::{SpanContext, SpanId, TraceFlags, TraceId};
use otlp_sampler::AlwaysOn;
use otlp_span::{Kind, Open, Resource, Scope, SpanCall, SpanData, SpanLimits, Status};
use otlp_value::Value;
use std::alloc::Allocator;
use std::process::Abort;
use std::sync::Arc;
use trace_api::{BodyPass, Provider, WordsRng};

pub(crate) const START: u64 = 1_000;

pub(crate) const END: u64 = 2_000;

/// The word of a span's identifier.
pub(crate) const WORD: u64 = 0x1112131415161718;

const PARENT: SpanId = SpanId([25, 26, 27, 28, 29, 30, 31, 32]);

pub(crate) fn text<A: Allocator>(rt: &impl Abort, alloc: A, text: &str) -> String<A> {
    String::from_str(alloc, text).expect(rt, "memory")
}

/// A generator that gives this word and then zeros.
pub(crate) fn words<A: Allocator>(rt: &impl Abort, alloc: A, word: u64) -> WordsRng<A> {
    WordsRng::new(Vec::from_slice(alloc, &[word]).expect(rt, "memory"))
}

/// A resource without attributes.
fn resource<A: Allocator + Copy>(rt: &impl Abort, alloc: A) -> Arc<Resource<A>, A> {
    let resource = Resource {
        attributes: Vec::new(alloc),
        schema_url: text(rt, alloc, "urn:resource"),
    };
    Arc::new(alloc, resource).expect(rt, "memory")
}

/// A scope of the name `library`.
pub(crate) fn scope<A: Allocator + Copy>(rt: &impl Abort, alloc: A) -> Arc<Scope<A>, A> {
    let scope = Scope::named(alloc, "library").expect(rt, "memory");
    Arc::new(alloc, scope).expect(rt, "memory")
}

/// Limits by which spans keep one attribute.
pub(crate) fn limits() -> SpanLimits {
    SpanLimits {
        max_attributes_per_span: 1,
        ..SpanLimits::default()
    }
}

/// A provider whose spans are all sampled and have these limits.
pub(crate) fn provider<A: Allocator + Copy>(
    rt: &impl Abort,
    alloc: A,
    limits: SpanLimits,
) -> Provider<AlwaysOn, A> {
    Provider::new(AlwaysOn, resource(rt, alloc), limits)
}

/// The context of a remote parent that is sampled, with a trace state.
pub(crate) fn remote<A: Allocator>(rt: &impl Abort, alloc: A) -> SpanContext<A> {
    SpanContext {
        trace: TraceId([7; 16]),
        span: PARENT,
        flags: TraceFlags(1),
        remote: true,
        state: text(rt, alloc, "k=v"),
    }
}

/// What a child of that parent is opened with.
pub(crate) fn opening<A: Allocator + Copy>(rt: &impl Abort, alloc: A) -> Open<A> {
    Open {
        context: remote(rt, alloc),
        parent: Some(PARENT),
        parent_remote: true,
        resource: resource(rt, alloc),
        scope: scope(rt, alloc),
        name: text(rt, alloc, "GET /"),
        kind: Kind::Server,
        start: START,
    }
}

/// How many calls `call` gives.
pub(crate) const CALLS: u32 = 7;

/// A call by its number: an attribute, an event, an exception and a link, and then an attribute
/// beyond the limit, a status and a name.
pub(crate) fn call<A: Allocator + Copy>(rt: &impl Abort, alloc: A, number: u32) -> SpanCall<A> {
    match number {
        0 => SpanCall::SetAttribute(text(rt, alloc, "a"), Value::Int(1)),
        1 => SpanCall::AddEvent {
            name: text(rt, alloc, "x"),
            timestamp: 5,
            attributes: pairs(rt, alloc),
        },
        2 => exception(rt, alloc),
        3 => SpanCall::AddLink {
            span_context: remote(rt, alloc),
            attributes: pairs(rt, alloc),
        },
        4 => SpanCall::SetAttribute(text(rt, alloc, "b"), Value::Int(2)),
        5 => SpanCall::SetStatus(Status::Error(text(rt, alloc, "x"))),
        _ => SpanCall::UpdateName(text(rt, alloc, "x")),
    }
}

/// An attribute.
fn pairs<A: Allocator + Copy>(rt: &impl Abort, alloc: A) -> Vec<(String<A>, Value<A>), A> {
    let mut all = Vec::new(alloc);
    let value = Value::Text(text(rt, alloc, "long"));
    all.push((text(rt, alloc, "k"), value)).expect(rt, "memory");
    all
}

/// An exception of the type `E`.
fn exception<A: Allocator + Copy>(rt: &impl Abort, alloc: A) -> SpanCall<A> {
    SpanCall::RecordException {
        exception_type: text(rt, alloc, "E"),
        message: text(rt, alloc, "x"),
        stacktrace: String::new(alloc),
        timestamp: 6,
        attributes: Vec::new(alloc),
    }
}

/// The span that a pass has, which is its only one.
pub(crate) fn only_span<'a, A: Allocator>(
    rt: &impl Abort,
    pass: &'a BodyPass<A>,
) -> &'a SpanData<A> {
    let spans = pass.spans();
    assert_eq!(rt; spans.len(), 1);
    &spans[0]
}
