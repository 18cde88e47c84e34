//! Spans that are made without a provider, and bodies of them that were written out by hand.

use otlp_ids::{OutOfMemory, SpanContext, SpanId, TraceFlags, TraceId};
use otlp_span::{Kind, Open, Resource, Scope, SpanData, SpanLimits, SpanRecord};
use std::alloc::Allocator;
use std::sync::Arc;

fn text<A: Allocator>(alloc: A, text: &str) -> Result<String<A>, OutOfMemory> {
    Ok(String::from_str(alloc, text)?)
}

fn context<A: Allocator>(alloc: A, remote: bool) -> SpanContext<A> {
    SpanContext {
        trace: TraceId([1, 2, 3, 4, 5, 6, 7, 8, 9, 10, 11, 12, 13, 14, 15, 16]),
        span: SpanId([17, 18, 19, 20, 21, 22, 23, 24]),
        flags: TraceFlags::SAMPLED,
        remote,
        state: String::new(alloc),
    }
}

/// What a span is under, that is named `a`, starts at the moment 1 and ends at 2.
#[derive(Clone, Copy)]
pub(crate) struct Sample<'a> {
    /// The resource's schema.
    pub(crate) resource: &'a str,
    /// The scope's name, its version and its schema.
    pub(crate) scope: [&'a str; 3],
}

/// A resource with this schema.
fn resource<A: Allocator + Copy>(alloc: A, schema_url: &str) -> Result<Resource<A>, OutOfMemory> {
    Ok(Resource {
        attributes: Vec::new(alloc),
        schema_url: text(alloc, schema_url)?,
    })
}

/// A scope of this name, this version and this schema.
fn scope<A: Allocator + Copy>(
    alloc: A,
    [name, version, schema_url]: [&str; 3],
) -> Result<Scope<A>, OutOfMemory> {
    Ok(Scope {
        name: text(alloc, name)?,
        version: text(alloc, version)?,
        attributes: Vec::new(alloc),
        schema_url: text(alloc, schema_url)?,
    })
}

/// How a root of this sample starts.
fn opening<A: Allocator + Copy>(alloc: A, sample: Sample<'_>) -> Result<Open<A>, OutOfMemory> {
    Ok(Open {
        context: context(alloc, false),
        parent: None,
        parent_remote: false,
        resource: Arc::new(alloc, resource(alloc, sample.resource)?)?,
        scope: Arc::new(alloc, scope(alloc, sample.scope)?)?,
        name: text(alloc, "a")?,
        kind: Kind::Internal,
        start: 1,
    })
}

fn span<A: Allocator + Copy>(alloc: A, sample: Sample<'_>) -> Result<SpanData<A>, OutOfMemory> {
    let opening = opening(alloc, sample)?;
    Ok(SpanRecord::open(alloc, opening, &SpanLimits::default())?.close(2))
}

/// One span of this sample, whose parent is remote, with a link to a remote context.
pub(crate) fn spans_of_remote<A: Allocator + Copy>(
    alloc: A,
    sample: Sample<'_>,
) -> Result<Vec<SpanData<A>, A>, OutOfMemory> {
    let opening = Open {
        parent: Some(SpanId([33, 34, 35, 36, 37, 38, 39, 40])),
        parent_remote: true,
        ..opening(alloc, sample)?
    };
    let mut record = SpanRecord::open(alloc, opening, &SpanLimits::default())?;
    record.add_link(context(alloc, true), Vec::new(alloc))?;
    let mut spans = Vec::new(alloc);
    spans.push(record.close(2))?;
    Ok(spans)
}

/// The spans of these samples.
pub(crate) fn spans_of<A: Allocator + Copy>(
    alloc: A,
    samples: &[Sample<'_>],
) -> Result<Vec<SpanData<A>, A>, OutOfMemory> {
    let mut spans = Vec::new(alloc);
    for sample in samples {
        spans.push(span(alloc, *sample)?)?;
    }
    Ok(spans)
}

pub(crate) const FIRST: Sample<'_> = Sample {
    resource: "",
    scope: ["s", "", ""],
};

/// That sample, and one under another resource, in a scope of which all is filled.
pub(crate) const TWO: &[Sample<'_>] = &[
    FIRST,
    Sample {
        resource: "r",
        scope: ["t", "1", "u"],
    },
];

/// The body of the two.
pub(crate) const TWO_RESOURCES: &str = concat!(
    "0a440a00",
    "1240",
    "0a030a0173",
    "1239",
    "0a100102030405060708090a0b0c0d0e0f1012081112131415161718",
    "2a01613001390100000000000000410200000000000000",
    "850101010000", // flags of the span
    "0a4d0a00",
    "1246",
    "0a060a017412",
    "0131",
    "1239",
    "0a100102030405060708090a0b0c0d0e0f1012081112131415161718",
    "2a01613001390100000000000000410200000000000000",
    "850101010000", // flags of the span
    "1a0175",       // schema URL of the scope
    "1a0172",       // schema URL of the resource
);

/// A span, as a field of its scope.
pub(crate) const SPAN_FIELD: &str = concat!(
    "1239",
    "0a100102030405060708090a0b0c0d0e0f1012081112131415161718",
    "2a01613001390100000000000000410200000000000000",
    "850101010000", // flags of the span
);
