//! The spans that the tests end, and their names.
use crate::equal::assert_equal;
use otlp_ids::{SpanContext, SpanId, TraceId};
use otlp_sampler::AlwaysOn;
use otlp_span::{Entry, Kind, Reason, Resource, Scope, SpanData, SpanLimits};
use std::alloc::Allocator;
use std::process::Abort;
use std::sync::Arc;
use trace_api::{EndPass, Ended, Provider, Span, WordsRng};

/// The words of the identifiers of each span.
const WORDS: [u64; 3] = [0x0102030405060708, 0x090a0b0c0d0e0f10, 0x1112131415161718];

const TRACE: TraceId = TraceId([1, 2, 3, 4, 5, 6, 7, 8, 9, 10, 11, 12, 13, 14, 15, 16]);

const SPAN: SpanId = SpanId([17, 18, 19, 20, 21, 22, 23, 24]);

/// Starts a root of the name `a` in the scope `s` of a resource with this schema, at 1. `None` is
/// answered where memory is refused.
fn root<A: Allocator + Copy>(alloc: A, schema: &str) -> Option<Span<A>> {
    let name = String::from_str(alloc, "a").ok()?;
    let scope = Arc::new(alloc, Scope::named(alloc, "s").ok()?).ok()?;
    let mut words = WordsRng::new(Vec::from_slice(alloc, &WORDS).ok()?);
    let resource = Resource {
        attributes: Vec::new(alloc),
        schema_url: String::from_str(alloc, schema).ok()?,
    };
    let resource = Arc::new(alloc, resource).ok()?;
    let provider = Provider::new(AlwaysOn, resource, SpanLimits::default());
    let tracer = provider.tracer(scope);
    let parent: Option<SpanContext<A>> = None;
    let started = tracer.start(alloc, &mut words, parent.as_ref(), name, Kind::Internal, 1);
    started.ok()
}

/// The answer to the end of such a root on a pass, at 2.
pub(crate) fn end<A: Allocator + Copy, P: EndPass<SpanData<A>>>(
    rt: &impl Abort,
    alloc: A,
    schema: &str,
    pass: &mut P,
) -> Ended {
    let mut span = root(alloc, schema).expect(rt, "a root starts");
    span.end(pass, 2)
}

/// The ticket of such a root, and why it isn't delivered.
pub(crate) fn named(rt: &impl Abort, entry: Entry) -> (u64, Reason) {
    assert_equal(rt, (entry.trace, entry.span), (TRACE, SPAN));
    (entry.ticket, entry.reason)
}
