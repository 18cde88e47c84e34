//! The parts of a span: kind, status, scope, resource, events and links.
ghost use Rattle.std.specs.Prelude.{◌≡◌, None};

use otlp_ids::{OutOfMemory, SpanContext, SpanId, copy_text};
use otlp_value::{AttributeList, Limits, Value};
use std::alloc::{Allocator, Global};
use std::sync::Arc;

/// What a span is to the spans round it (Trace API, "SpanKind").
#[derive(Debug, Clone, Copy, PartialEq, Eq)]
pub enum Kind {
    /// An operation inside a program, with no remote parent or child. It is the default.
    Internal,
    /// The handling of a request from elsewhere, whose client waits for the reply.
    Server,
    /// A request to elsewhere, which waits for the reply.
    Client,
    /// The start of work that is done later, as the sending of a message; it doesn't wait for the
    /// outcome.
    Producer,
    /// The handling of what a producer sent.
    Consumer,
}

impl Default for Kind {
    ghost use Rattle.model_span.specs.Spans.{internal};
    ghost use Rattle.otlp_span.specs.Parts.{kind_view};

    ghost is_default = { λ kind. kind_view kind ≡ internal };

    /// The standard's default, an operation inside a program (Trace API, "SpanKind").
    fn default() -> Kind {
        Kind::Internal
    }
}

/// How much a span keeps (Trace SDK, "Span Limits"). With a limit of 0 it keeps none of that kind,
/// and of a text that is a value nothing.
#[derive(Debug, Clone, Copy, PartialEq, Eq)]
pub struct SpanLimits {
    /// How many attributes, by distinct keys (`AttributeCountLimit`).
    pub max_attributes_per_span: u32,
    /// How many events (`EventCountLimit`).
    pub max_events_per_span: u32,
    /// How many links (`LinkCountLimit`).
    pub max_links_per_span: u32,
    /// How many attributes of an event, by distinct keys (`AttributePerEventCountLimit`).
    pub max_attributes_per_event: u32,
    /// How many attributes of a link, by distinct keys (`AttributePerLinkCountLimit`).
    pub max_attributes_per_link: u32,
    /// How many Unicode scalar values of a text that is the value of an attribute, or one of an
    /// array, of the span, of its events and of its links (`AttributeValueLengthLimit`). Without it
    /// texts are kept whole.
    pub max_attribute_value_length: Option<u32>,
}

impl SpanLimits {
    ghost use Rattle.otlp_value.specs.Value as values;
    ghost use Rattle.model_span.specs.Spans.{attribute_limits, event_limits, link_limits};
    ghost use Rattle.otlp_span.specs.Parts.{limits_view};

    /// Those of the attributes of the span.
    pub(crate) fn of_span(&self) -> Limits
        ensures { values.limits_view result ≡ attribute_limits (limits_view self.now) }
    {
        Limits {
            count: self.max_attributes_per_span,
            value_length: self.max_attribute_value_length,
        }
    }

    /// Those of the attributes of an event.
    pub(crate) fn of_event(&self) -> Limits
        ensures { values.limits_view result ≡ event_limits (limits_view self.now) }
    {
        Limits {
            count: self.max_attributes_per_event,
            value_length: self.max_attribute_value_length,
        }
    }

    /// Those of the attributes of a link.
    pub(crate) fn of_link(&self) -> Limits
        ensures { values.limits_view result ≡ link_limits (limits_view self.now) }
    {
        Limits {
            count: self.max_attributes_per_link,
            value_length: self.max_attribute_value_length,
        }
    }
}

impl Default for SpanLimits {
    ghost use Rattle.std.specs.Prelude.{◌≡◌};
    ghost use Rattle.model_span.specs.Spans.{default_limits};
    ghost use Rattle.otlp_span.specs.Parts.{limits_view};

    ghost is_default = { λ limits. limits_view limits ≡ default_limits };

    /// The standard's limits (Trace SDK, "Span Limits"; Common, "Attribute Limits"): 128 of each
    /// kind, and texts of any length.
    fn default() -> SpanLimits {
        SpanLimits {
            max_attributes_per_span: 128,
            max_events_per_span: 128,
            max_links_per_span: 128,
            max_attributes_per_event: 128,
            max_attributes_per_link: 128,
            max_attribute_value_length: None,
        }
    }
}

/// What makes telemetry, as a service or a host (Resource SDK).
#[derive(Drop)]
#[derive_where(Debug, PartialEq, Eq, Hash)]
pub struct Resource<A: Allocator = Global> {
    /// Its attributes, with distinct keys. They are kept as they are: no limit holds for them.
    pub attributes: Vec<(String<A>, Value<A>), A>,
    /// The schema that the attributes follow, or an empty text.
    pub schema_url: String<A>,
}

impl<A: Allocator> Resource<A> {
    ghost use Rattle.std.specs.Prelude.{[]};
    ghost use Rattle.otlp_value.specs.Value.{attributes_view};
    ghost use Rattle.otlp_span.specs.Parts.{resource_view};

    /// A resource with these attributes, whose keys are distinct, and without a schema. It takes no
    /// memory.
    pub fn new(alloc: A, attributes: Vec<(String<A>, Value<A>), A>) -> Resource<A>
        ensures { resource_view result
            ≡ record { attributes = attributes_view attributes.items; schema = [] } }
    {
        Resource {
            attributes,
            schema_url: String::new(alloc),
        }
    }
}

/// The part of a program that makes spans (Common, "Instrumentation Scope").
#[derive(Drop)]
#[derive_where(Debug, PartialEq, Eq, Hash)]
pub struct Scope<A: Allocator = Global> {
    /// Its name.
    pub name: String<A>,
    /// Its version, or an empty text.
    pub version: String<A>,
    /// Its attributes, with distinct keys. They are kept as they are: no limit holds for them
    /// (profile).
    pub attributes: Vec<(String<A>, Value<A>), A>,
    /// The schema that its telemetry follows, or an empty text.
    pub schema_url: String<A>,
}

impl<A: Allocator + Copy> Scope<A> {
    ghost use Rattle.std.specs.Prelude.{[], IfOk, OnErr, false};
    ghost use Rattle.model_span.specs.Attributes.{is_empty};
    ghost use Rattle.otlp_span.specs.Parts.{scope_view};

    /// A scope with this name, on memory of its own, and without a version, attributes or a schema.
    /// An empty name takes no memory.
    ///
    /// # Errors
    ///
    /// `OutOfMemory` where the name could not be stored.
    pub fn named(alloc: A, name: &str) -> Result<Scope<A>, OutOfMemory>
        ensures value { IfOk result (λ scope. scope_view scope ≡ record {
          name = name.now;
          version = [];
          attributes = [];
          schema = [];
        }) }
        ensures refused { OnErr result (is_empty name.now ≡ false) }
    {
        Ok(Scope {
            name: copy_text(alloc, name)?,
            version: String::new(alloc),
            attributes: Vec::new(alloc),
            schema_url: String::new(alloc),
        })
    }
}

/// How a span starts (Trace API, "Span Creation").
#[derive(Drop)]
#[derive_where(Debug, PartialEq, Eq)]
pub struct Open<A: Allocator = Global> {
    /// The span's own context.
    pub context: SpanContext<A>,
    /// The identifier of its parent; a root has none.
    pub parent: Option<SpanId>,
    /// Whether the parent came from elsewhere (Trace API, "SpanContext", IsRemote; trace.proto,
    /// Span.flags, bits 8 and 9). A root has false; without a parent it says nothing.
    pub parent_remote: bool,
    /// What makes the span, shared with its other spans.
    pub resource: Arc<Resource<A>, A>,
    /// The part of the program that makes the span, shared with its other spans.
    pub scope: Arc<Scope<A>, A>,
    /// The span's name.
    pub name: String<A>,
    /// What the span is to the spans round it.
    pub kind: Kind,
    /// When it starts, in nanoseconds since 1970.
    pub start: u64,
}

/// The outcome of the operation that a span describes (Trace API, "Set Status").
#[derive(Drop)]
#[derive_where(Debug, PartialEq, Eq)]
pub enum Status<A: Allocator = Global> {
    /// Nothing was said.
    Unset,
    /// It was declared a success.
    Ok,
    /// It failed; with a description, which may be empty.
    Error(String<A>),
}

impl<A: Allocator> Status<A> {
    ghost use Rattle.model_span.specs.Spans.{is_ok_status};
    ghost use Rattle.otlp_span.specs.Parts.{is_unset_status, status_view};

    /// Whether no other status replaces it.
    pub(crate) fn is_final(&self) -> bool
        ensures { result ≡ is_ok_status (status_view self.now) }
    {
        matches!(self, Status::Ok)
    }

    /// Whether it says nothing.
    pub(crate) fn is_unset(&self) -> bool
        ensures { result ≡ is_unset_status (status_view self.now) }
    {
        matches!(self, Status::Unset)
    }
}

/// Something that happened at a moment of a span (Trace API, "Add Events").
#[derive(Drop)]
#[derive_where(Debug, PartialEq, Eq)]
pub struct Event<A: Allocator = Global> {
    /// When it happened, in nanoseconds since 1970.
    pub timestamp: u64,
    /// Its name.
    pub name: String<A>,
    /// The attributes that were kept, each with its last value, in the order in which their keys
    /// were first set.
    pub attributes: Vec<(String<A>, Value<A>), A>,
    /// How many times an attribute was discarded; it stops at 2^32 - 1 (profile).
    pub dropped_attributes_count: u32,
}

impl<A: Allocator> Event<A> {
    ghost use Rattle.std.specs.Prelude.{string_bytes};
    ghost use Rattle.otlp_span.specs.Parts.{event_view};

    /// An event with what is kept of its attributes.
    pub(crate) fn new(timestamp: u64, name: String<A>, attributes: AttributeList<A>) -> Event<A>
        ensures { event_view result ≡ record {
          at = timestamp;
          name = string_bytes name;
          attributes = attributes.kept;
        } }
    {
        let dropped_attributes_count = attributes.dropped();
        Event {
            timestamp,
            name,
            attributes: attributes.into_pairs(),
            dropped_attributes_count,
        }
    }
}

/// A span that another one refers to, in the same trace or in another (Trace API, "Link").
#[derive(Drop)]
#[derive_where(Debug, PartialEq, Eq)]
pub struct Link<A: Allocator = Global> {
    /// The context of the span that is referred to.
    pub span_context: SpanContext<A>,
    /// The attributes that were kept, each with its last value, in the order in which their keys
    /// were first set.
    pub attributes: Vec<(String<A>, Value<A>), A>,
    /// How many times an attribute was discarded; it stops at 2^32 - 1 (profile).
    pub dropped_attributes_count: u32,
}

impl<A: Allocator> Link<A> {
    ghost use Rattle.otlp_ids.specs.SpanContext.{context_view};
    ghost use Rattle.otlp_span.specs.Parts.{link_view};

    /// A link with what is kept of its attributes.
    pub(crate) fn new(span_context: SpanContext<A>, attributes: AttributeList<A>) -> Link<A>
        ensures { link_view result ≡ record {
          context = context_view span_context;
          attributes = attributes.kept;
        } }
    {
        let dropped_attributes_count = attributes.dropped();
        Link {
            span_context,
            attributes: attributes.into_pairs(),
            dropped_attributes_count,
        }
    }
}

/// A call on a span (Trace API, "Span operations").
#[derive(Drop)]
#[derive_where(Debug, PartialEq, Eq)]
pub enum SpanCall<A: Allocator = Global> {
    /// Sets the attribute under a key to a value, as `SpanRecord::set_attribute`.
    SetAttribute(String<A>, Value<A>),
    /// Adds an event, as `SpanRecord::add_event`.
    AddEvent {
        /// Its name.
        name: String<A>,
        /// When it happened, in nanoseconds since 1970.
        timestamp: u64,
        /// Its attributes, in the order in which they are set.
        attributes: Vec<(String<A>, Value<A>), A>,
    },
    /// Adds an event for an exception, as `SpanRecord::record_exception`.
    RecordException {
        /// The type of the exception.
        exception_type: String<A>,
        /// What it says.
        message: String<A>,
        /// Where it came from.
        stacktrace: String<A>,
        /// When it happened, in nanoseconds since 1970.
        timestamp: u64,
        /// Further attributes of the event, in the order in which they are set.
        attributes: Vec<(String<A>, Value<A>), A>,
    },
    /// Links the span to another one, as `SpanRecord::add_link`.
    AddLink {
        /// The context of the other span.
        span_context: SpanContext<A>,
        /// The attributes of the link, in the order in which they are set.
        attributes: Vec<(String<A>, Value<A>), A>,
    },
    /// Sets the status, as `SpanRecord::set_status`.
    SetStatus(Status<A>),
    /// Gives the span another name, as `SpanRecord::update_name`.
    UpdateName(String<A>),
    /// Ends the span at a moment, in nanoseconds since 1970, as `SpanRecord::close`.
    End(u64),
}
