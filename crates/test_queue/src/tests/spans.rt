//! Spans of one resource and one scope, each with its number as its identifier, and their names.
use otlp_ids::{SpanContext, SpanId, TraceFlags, TraceId};
use otlp_span::{Entry, Kind, Open, Reason, Resource, Scope, SpanData, SpanLimits, SpanRecord};
use std::alloc::{Allocator, Global};
use std::process::Abort;
use std::sync::Arc;

const TRACE: TraceId = TraceId([1; 16]);

/// What the spans share.
#[derive(Drop)]
pub(crate) struct Spans<A: Allocator = Global> {
    pub(crate) alloc: A,
    resource: Arc<Resource<A>, A>,
    scope: Arc<Scope<A>, A>,
}

impl<A: Allocator + Copy> Spans<A> {
    pub(crate) fn new(rt: &impl Abort, alloc: A) -> Spans<A> {
        let resource = Resource::new(alloc, Vec::new(alloc));
        let scope = Scope::named(alloc, "").expect(rt, "memory");
        Spans {
            alloc,
            resource: Arc::new(alloc, resource).expect(rt, "memory"),
            scope: Arc::new(alloc, scope).expect(rt, "memory"),
        }
    }

    /// A span that has ended.
    pub(crate) fn ended(&self, rt: &impl Abort, number: u64) -> SpanData<A> {
        let context = SpanContext {
            trace: TRACE,
            span: span_id(number),
            flags: TraceFlags(1),
            remote: false,
            state: String::new(self.alloc),
        };
        let opening = Open {
            context,
            parent: None,
            parent_remote: false,
            resource: self.resource.clone().expect(rt, "memory"),
            scope: self.scope.clone().expect(rt, "memory"),
            name: String::new(self.alloc),
            kind: Kind::Internal,
            start: 1,
        };
        let record = SpanRecord::open(self.alloc, opening, &SpanLimits::default());
        record.expect(rt, "memory").close(2)
    }
}

/// The identifier of the span with this number.
pub(crate) fn span_id(number: u64) -> SpanId {
    SpanId(number.to_be_bytes())
}

/// The name of the span with this number, which is its ticket.
pub(crate) fn name(number: u64, reason: Reason) -> Entry {
    Entry {
        trace: TRACE,
        span: span_id(number),
        ticket: number,
        reason,
    }
}
