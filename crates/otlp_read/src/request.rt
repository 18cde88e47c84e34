//! Requests as they were received (opentelemetry-proto, trace_service.proto:
//! ExportTraceServiceRequest; trace.proto: ResourceSpans, ScopeSpans).

ghost use Rattle.std.specs.Prelude.{◌≡◌, ◌≢◌, [], IfOk, IfErr, IsErrOf, IsOk};
ghost use Rattle.model_message.specs.Reading.{Reads};
ghost use Rattle.model_message.specs.Wire;
ghost use Rattle.model_message.specs.Tables;
ghost use Rattle.model_message.specs.Tables.{message};
ghost use Rattle.model_message.specs.Messages.{max_depth, meaning, value};
ghost use Rattle.otlp_wire.specs.Faults.{NamesOne};
ghost use Rattle.otlp_wire.specs.Gathering.{finished, nothing};
ghost use Rattle.otlp_read.specs.Requests.{scope_spans_view};
ghost use Rattle.otlp_read.specs.Requests.{scope_spans_gathered, resource_spans_view};
ghost use Rattle.otlp_read.specs.Requests.{resource_spans_gathered};
ghost use Rattle.otlp_read.specs.Requests.{request_view, request_gathered};

use crate::resource::{InstrumentationScope, InstrumentationScopeParts, Resource, ResourceParts};
use crate::span::{Span, SpanParts};
use otlp_wire::{
    Field, GatherFields, ReadFault, gather_all, gather_in, last_bytes, push_message, read_text,
};
use std::alloc::{Allocator, Global};

/// The spans of a scope (opentelemetry-proto, trace.proto: ScopeSpans).
#[derive(Drop)]
#[derive_where(Debug)]
pub struct ScopeSpans<A: Allocator = Global> {
    /// The scope.
    pub scope: InstrumentationScope<A>,
    /// Its spans, in order.
    pub spans: Vec<Span<A>, A>,
    /// The schema URL of the scope and its spans.
    pub schema_url: String<A>,
}

/// The spans of a resource (opentelemetry-proto, trace.proto: ResourceSpans).
#[derive(Drop)]
#[derive_where(Debug)]
pub struct ResourceSpans<A: Allocator = Global> {
    /// The resource.
    pub resource: Resource<A>,
    /// Its scopes with their spans, in order.
    pub scope_spans: Vec<ScopeSpans<A>, A>,
    /// The schema URL of the resource.
    pub schema_url: String<A>,
}

/// What a trace export carries (opentelemetry-proto, trace_service.proto:
/// ExportTraceServiceRequest).
#[derive(Drop)]
#[derive_where(Debug)]
pub struct Request<A: Allocator = Global> {
    /// Its resources with their spans, in order.
    pub resource_spans: Vec<ResourceSpans<A>, A>,
}

/// What is gathered of the fields of a scope's spans.
#[derive(Drop)]
pub(crate) struct ScopeSpansParts<'a, A: Allocator> {
    alloc: A,
    scope: InstrumentationScopeParts<'a, A>,
    spans: Vec<Span<A>, A>,
    schema_url: &'a [u8],
}

impl<'a, A: Allocator + Copy> ScopeSpansParts<'a, A> {
    /// Where there is no field yet.
    pub(crate) fn new(alloc: A) -> ScopeSpansParts<'a, A>
        ensures { scope_spans_gathered result ≡ nothing Tables.scope_spans }
    {
        ScopeSpansParts {
            alloc,
            scope: InstrumentationScopeParts::new(alloc),
            spans: Vec::new(alloc),
            schema_url: b"",
        }
    }
}

impl<'a, A: Allocator + Copy> GatherFields<'a> for ScopeSpansParts<'a, A> {
    ghost use Rattle.model_message.specs.Tables;
    ghost use Rattle.otlp_read.specs.Requests.{scope_spans_gathered, scope_spans_view};

    type Output = ScopeSpans<A>;

    ghost table = { Tables.scope_spans };

    ghost gathered = { scope_spans_gathered };

    ghost shown = { scope_spans_view };

    fn take(&mut self, field: Field<'a>) -> Result<(), ReadFault> {
        self.scope.take_in(field, 1)?;
        push_message(SpanParts::new(self.alloc), &mut self.spans, field, 2)?;
        self.schema_url = last_bytes(self.schema_url, field, 3);
        Ok(())
    }

    fn finish(self) -> Result<ScopeSpans<A>, ReadFault> {
        let alloc = self.alloc;
        Ok(ScopeSpans {
            scope: self.scope.finish()?,
            spans: self.spans,
            schema_url: read_text(alloc, self.schema_url)?,
        })
    }
}

/// What is gathered of the fields of a resource's spans.
#[derive(Drop)]
pub(crate) struct ResourceSpansParts<'a, A: Allocator> {
    alloc: A,
    resource: ResourceParts<A>,
    scope_spans: Vec<ScopeSpans<A>, A>,
    schema_url: &'a [u8],
}

impl<'a, A: Allocator + Copy> ResourceSpansParts<'a, A> {
    /// Where there is no field yet.
    pub(crate) fn new(alloc: A) -> ResourceSpansParts<'a, A>
        ensures { resource_spans_gathered result ≡ nothing Tables.resource_spans }
    {
        ResourceSpansParts {
            alloc,
            resource: ResourceParts::new(alloc),
            scope_spans: Vec::new(alloc),
            schema_url: b"",
        }
    }
}

impl<'a, A: Allocator + Copy> GatherFields<'a> for ResourceSpansParts<'a, A> {
    ghost use Rattle.model_message.specs.Tables;
    ghost use Rattle.otlp_read.specs.Requests.{resource_spans_gathered, resource_spans_view};

    type Output = ResourceSpans<A>;

    ghost table = { Tables.resource_spans };

    ghost gathered = { resource_spans_gathered };

    ghost shown = { resource_spans_view };

    fn take(&mut self, field: Field<'a>) -> Result<(), ReadFault> {
        gather_in(&mut self.resource, field, 1)?;
        push_message(
            ScopeSpansParts::new(self.alloc),
            &mut self.scope_spans,
            field,
            2,
        )?;
        self.schema_url = last_bytes(self.schema_url, field, 3);
        Ok(())
    }

    fn finish(self) -> Result<ResourceSpans<A>, ReadFault> {
        let alloc = self.alloc;
        Ok(ResourceSpans {
            resource: self.resource.finish()?,
            scope_spans: self.scope_spans,
            schema_url: read_text(alloc, self.schema_url)?,
        })
    }
}

/// What is gathered of the fields of a request.
#[derive(Drop)]
pub(crate) struct RequestParts<A: Allocator> {
    alloc: A,
    resource_spans: Vec<ResourceSpans<A>, A>,
}

impl<A: Allocator + Copy> RequestParts<A> {
    /// Where there is no field yet.
    pub(crate) fn new(alloc: A) -> RequestParts<A>
        ensures { request_gathered result ≡ nothing Tables.request }
    {
        RequestParts {
            alloc,
            resource_spans: Vec::new(alloc),
        }
    }
}

impl<'a, A: Allocator + Copy> GatherFields<'a> for RequestParts<A> {
    ghost use Rattle.model_message.specs.Tables;
    ghost use Rattle.otlp_read.specs.Requests.{request_gathered, request_view};

    type Output = Request<A>;

    ghost table = { Tables.request };

    ghost gathered = { request_gathered };

    ghost shown = { request_view };

    fn take(&mut self, field: Field<'a>) -> Result<(), ReadFault> {
        push_message(
            ResourceSpansParts::new(self.alloc),
            &mut self.resource_spans,
            field,
            1,
        )?;
        Ok(())
    }

    fn finish(self) -> Result<Request<A>, ReadFault>
        ensures ok { IfOk result (λ x. Reads (finished (value max_depth) (message Tables.request)
            (request_gathered self)) (request_view x)) }
        ensures err { IfErr result (λ fault. NamesOne (finished (value max_depth)
            (message Tables.request) (request_gathered self)).faults fault) }
        ensures whole { IsOk result }
    {
        Ok(Request {
            resource_spans: self.resource_spans,
        })
    }
}

/// Reads a request (Protocol Buffers, "Encoding"): fields in any order, the parts of a message
/// joined, of several payloads of a scalar or a text the last, and what is absent by its default.
/// Unknown fields, and those of another wire type, are skipped. What doesn't count is not looked
/// into. It takes time in proportion to the length of the body.
///
/// # Errors
///
/// A `ReadFault` that the body has, or `OutOfMemory` where what is kept of it could not be stored;
/// a body of no bytes takes no memory.
pub fn read_request<A: Allocator + Copy>(alloc: A, body: &[u8]) -> Result<Request<A>, ReadFault>
    ensures ok { IfOk result (λ request.
        Reads (meaning Tables.request body.now) (request_view request)) }
    ensures err { IfErr result (λ fault.
        NamesOne (meaning Tables.request body.now).faults fault) }
    ensures memory { IsErrOf result ReadFault.OutOfMemory → body.now ≢ [] }
{
    let parts = gather_all(RequestParts::new(alloc), body)?;
    parts.finish()
}
