//! A span that has ended, and what is left of one that was dropped.
ghost use Rattle.std.specs.Prelude.{◌≡◌, [], map, option_map};
ghost use Rattle.model_span.specs.Dropped.{entry_of};
ghost use Rattle.model_span.specs.Spans.{has_remote_parent, with_ticket};
ghost use Rattle.otlp_ids.specs.SpanContext.{context_view};
ghost use Rattle.otlp_value.specs.Value.{attributes_view};
ghost use Rattle.otlp_span.specs.Dropped.{entry_view, reason_view};
ghost use Rattle.otlp_span.specs.Parts.{event_view, kind_view, link_view, parent_id_view};
ghost use Rattle.otlp_span.specs.Parts.{resource_view, scope_view, status_view};

use crate::body::{BlankSlip, SpanBody};
use crate::parts::{Event, Kind, Link, Resource, Scope, Status};
use crate::reason::Reason;
use crate::slip::{Entry, Slip};
use otlp_ids::{SpanContext, SpanId};
use otlp_value::Value;
use std::alloc::{Allocator, Global};
use std::marker::Model;

/// A span that has ended, with its resource and its scope (Trace SDK, "Additional Span
/// Interfaces"): only its ticket may still be set. With an allocator of no size, as `Global`, it is
/// two words large.
#[derive(Drop)]
#[derive_where(Debug)]
pub struct SpanData<A: Allocator = Global> {
    pub(crate) body: Box<SpanBody<A>, A>,
    pub(crate) ticket: u64,
}

/// What is left of a span that was dropped, in its memory: it is only to be given up, which frees
/// that memory, where it suits (profile). With an allocator of no size, as `Global`, it is as large
/// as a pointer.
#[derive(Drop)]
#[derive_where(Debug)]
pub struct SpanRemains<A: Allocator = Global> {
    body: Box<SpanBody<A>, A>,
}

impl<A: Allocator> Model for SpanData<A> {
    ghost use Rattle.model_span.specs.Spans as spans;

    ghost Value = { spans.SpanData };

    ghost use Rattle.otlp_span.specs.Body.{HasSlip, ended_view};

    ghost view = { λ s. ended_view s.ticket s.body.value };

    ghost invariant = { λ s. HasSlip s.body.value };
}

impl<A: Allocator> SpanData<A> {
    /// The span's context (Trace API, "Get Context").
    pub fn context(&self) -> &SpanContext<A>
        ensures { context_view result.now ≡ self.now.span.context }
    {
        &self.body.context
    }

    /// The identifier of the span's parent; a root has none.
    pub fn parent_span_id(&self) -> Option<SpanId>
        ensures { parent_id_view result ≡ option_map (λ p. p.id) self.now.span.parent }
    {
        self.body.parent
    }

    /// Whether the span has a parent that came from elsewhere (Trace API, "SpanContext", IsRemote;
    /// trace.proto, Span.flags, bits 8 and 9); false for a root.
    pub fn has_remote_parent(&self) -> bool
        ensures { result ≡ has_remote_parent self.now.span.parent }
    {
        self.body.parent.is_some() && self.body.parent_remote
    }

    /// What made the span (Resource SDK).
    pub fn resource(&self) -> &Resource<A>
        ensures { resource_view result.now ≡ self.now.resource }
    {
        &self.body.resource
    }

    /// The part of the program that made the span (Common, "Instrumentation Scope").
    pub fn scope(&self) -> &Scope<A>
        ensures { scope_view result.now ≡ self.now.scope }
    {
        &self.body.scope
    }

    /// The span's name.
    pub fn name(&self) -> &str
        ensures { result.now ≡ self.now.span.name }
    {
        self.body.name.as_str()
    }

    /// What the span is to the spans round it (Trace API, "SpanKind").
    pub fn kind(&self) -> Kind
        ensures { kind_view result ≡ self.now.span.kind }
    {
        self.body.kind
    }

    /// When it started, in nanoseconds since 1970.
    pub fn start_time(&self) -> u64
        ensures { result ≡ self.now.span.start }
    {
        self.body.start
    }

    /// When it ended, in nanoseconds since 1970. It may be before the start (profile).
    pub fn end_time(&self) -> u64
        ensures { result ≡ self.now.span.end }
    {
        self.body.end
    }

    /// The attributes that were kept, each with its last value, in the order in which their keys
    /// were first set.
    pub fn attributes(&self) -> &[(String<A>, Value<A>)]
        ensures { attributes_view result.now ≡ self.now.span.attributes.items }
    {
        self.body.attributes.pairs()
    }

    /// How many times an attribute was discarded, since its key was new and as many keys were kept
    /// as the limit allows (Trace SDK, "Span Limits"). It stops at 2^32 - 1 (profile).
    pub fn dropped_attributes_count(&self) -> u32
        ensures { result ≡ self.now.span.attributes.dropped }
    {
        self.body.attributes.dropped()
    }

    /// The events that were kept, in the order in which they were added (Trace API, "Add Events").
    pub fn events(&self) -> &[Event<A>]
        ensures { map event_view result.now ≡ self.now.span.events.items }
    {
        self.body.events.items()
    }

    /// How many events were discarded, since as many were kept as the limit allows (Trace SDK,
    /// "Span Limits"). It stops at 2^32 - 1 (profile).
    pub fn dropped_events_count(&self) -> u32
        ensures { result ≡ self.now.span.events.dropped }
    {
        self.body.events.dropped()
    }

    /// The links that were kept, in the order in which they were added (Trace API, "Link").
    pub fn links(&self) -> &[Link<A>]
        ensures { map link_view result.now ≡ self.now.span.links.items }
    {
        self.body.links.items()
    }

    /// How many links were discarded, since as many were kept as the limit allows (Trace SDK, "Span
    /// Limits"). It stops at 2^32 - 1 (profile).
    pub fn dropped_links_count(&self) -> u32
        ensures { result ≡ self.now.span.links.dropped }
    {
        self.body.links.dropped()
    }

    /// The number of the span among those that a pass admitted, and 0 until it is admitted
    /// (profile).
    pub fn ticket(&self) -> u64
        ensures { result ≡ self.now.ticket }
    {
        self.ticket
    }

    /// Gives the span its ticket, for whoever admits it (profile). Nothing else changes.
    pub fn set_ticket(&mut self, ticket: u64)
        ensures { self.new ≡ with_ticket ticket self.old }
    {
        self.ticket = ticket;
    }

    /// The span's name, should it be dropped for this reason (profile).
    pub fn entry(&self, reason: Reason) -> Entry
        ensures { entry_view result ≡ entry_of (reason_view reason) self.now }
    {
        let context = &self.body.context;
        Entry {
            trace: context.trace,
            span: context.span,
            ticket: self.ticket,
            reason,
        }
    }

    /// The memory in which the span is named once it is dropped: it names nothing yet. All else
    /// that the span has is dropped (profile).
    pub fn into_slip(self) -> Slip<A>
        ensures { result ≡ [] }
    {
        let (slip, _) = self.split();
        slip
    }

    /// The memory in which the span is named once it is dropped, which names nothing yet, and all
    /// else that the span has: nothing is dropped yet, and no memory is freed (profile).
    pub fn split(self) -> (Slip<A>, SpanRemains<A>)
        ensures { result.0 ≡ [] }
    {
        let SpanData {
            mut body,
            ticket: _,
        } = self;
        let BlankSlip { slip } = body.slip.take().unwrap();
        (slip, SpanRemains { body })
    }

    /// All that the span has, only to be dropped (profile).
    pub fn into_remains(self) -> SpanRemains<A> {
        SpanRemains { body: self.body }
    }

    /// What came of the operation (Trace API, "Set Status").
    pub fn status(&self) -> &Status<A>
        ensures { status_view result.now ≡ self.now.span.status }
    {
        &self.body.status
    }
}
