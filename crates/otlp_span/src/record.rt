//! A span while it is recorded.
ghost use Rattle.std.specs.Prelude.{◌≡◌, IfOk, OnErr, OnOk, false, length, nat_lt, string_bytes};
ghost use Rattle.model_span.specs.Spans as model;
ghost use Rattle.model_span.specs.Spans.{Adds, Ends, is_ignored};
ghost use Rattle.otlp_ids.specs.SpanContext.{context_view};
ghost use Rattle.otlp_value.specs.AttributeList.{TakesPlace};
ghost use Rattle.otlp_value.specs.Value.{attribute_view, attributes_view};
ghost use Rattle.otlp_span.specs.Parts.{attributes_of, opened_recording, status_view};
ghost use Rattle.otlp_span.specs.Recording.{KeepsOneMore};

use crate::body::{BlankSlip, SpanBody};
use crate::data::SpanData;
use crate::kept::Kept;
use crate::pairs::{exception_attributes, kept_attributes};
use crate::parts::{Event, Link, Open, SpanLimits, Status};
use crate::slip::Slip;
use otlp_ids::{OutOfMemory, SpanContext};
use otlp_value::{AttributeList, Value};
use std::alloc::{Allocator, Global};
use std::marker::Model;

/// A span while it is recorded (Trace API, "Span"): calls on it count until it is closed. One that
/// is given up without that has ended nowhere. With an allocator of no size, as `Global`, it is as
/// large as a pointer.
#[derive(Drop)]
#[derive_where(Debug)]
pub struct SpanRecord<A: Allocator = Global> {
    body: Box<SpanBody<A>, A>,
}

impl<A: Allocator> Model for SpanRecord<A> {
    ghost use Rattle.model_span.specs.Spans as spans;

    ghost Value = { spans.SpanRecord };

    ghost use Rattle.otlp_span.specs.Body.{HasSlip, IsLimited, recording_view};

    ghost view = { λ r. recording_view r.body.value };

    ghost invariant = { λ r. IsLimited r.body.value × HasSlip r.body.value };
}

impl<A: Allocator + Copy> SpanRecord<A> {
    /// Starts a record that keeps as much as the limits allow (Trace API, "Span Creation"). No
    /// attribute is set yet. The memory in which the span is named, should it be dropped, is taken
    /// too.
    ///
    /// # Errors
    ///
    /// `OutOfMemory` where there is no room for the record; what it was to start from is then
    /// dropped.
    pub fn open(
        alloc: A,
        opening: Open<A>,
        limits: &SpanLimits,
    ) -> Result<SpanRecord<A>, OutOfMemory>
        ensures { IfOk result (λ r. r ≡ opened_recording limits.now opening) }
    {
        let Open {
            context,
            parent,
            parent_remote,
            resource,
            scope,
            name,
            kind,
            start,
        } = opening;
        let slip = BlankSlip {
            slip: Slip::blank(alloc)?,
        };
        let body = Box::new(
            alloc,
            SpanBody {
                limits: *limits,
                context,
                parent,
                parent_remote,
                resource,
                scope,
                name,
                kind,
                start,
                end: start,
                attributes: AttributeList::new(alloc, limits.of_span()),
                events: Kept::new(alloc),
                links: Kept::new(alloc),
                status: Status::Unset,
                slip: Some(slip),
            },
        )?;
        Ok(SpanRecord { body })
    }
}

impl<A: Allocator> SpanRecord<A> {
    /// Sets an attribute (Trace API, "Set Attributes"; Trace SDK, "Span Limits"). A key that is
    /// there keeps its place and gets the value; a new one is appended. A pair with an empty key is
    /// ignored, and one with a new key is discarded and counted where as many keys are kept as the
    /// limit allows (profile). Texts of the value are cut to the limit on their length.
    ///
    /// # Errors
    ///
    /// `OutOfMemory` where a new key that is to be kept could not be stored; the record is then
    /// unchanged.
    pub fn set_attribute(&mut self, key: String<A>, value: Value<A>) -> Result<(), OutOfMemory>
        ensures ok { let call = model.set_attribute (attribute_view (key, value)) in
            OnOk result (Adds call self.old self.new) }
        ensures err { OnErr result (self.new ≡ self.old) }
        ensures refused_only_where_kept { OnErr result
            (TakesPlace (string_bytes key) (attributes_of self.old)) }
    {
        self.body.attributes.set(key, value)
    }

    /// Updates the name (Trace API, "UpdateName"). It takes no memory.
    pub fn update_name(&mut self, name: String<A>)
        ensures { Adds (model.update_name (string_bytes name)) self.old self.new }
    {
        self.body.name = name;
    }

    /// Sets the status (Trace API, "Set Status"): Ok is final, Unset is ignored, and an error
    /// replaces an earlier one. It takes no memory.
    pub fn set_status(&mut self, status: Status<A>)
        ensures { Adds (model.set_status (status_view status)) self.old self.new }
    {
        if !self.body.status.is_final() && !status.is_unset() {
            self.body.status = status;
        }
    }

    /// Ends the span at a moment, in nanoseconds since 1970 (Trace API, "End"). The moment is kept
    /// as it is, also where it is before the start (profile). It takes no memory.
    pub fn close(self, end: u64) -> SpanData<A>
        ensures { Ends end self result }
    {
        let SpanRecord { mut body } = self;
        body.end = end;
        SpanData { body, ticket: 0 }
    }
}

impl<A: Allocator + Copy> SpanRecord<A> {
    /// Adds an event at a moment, in nanoseconds since 1970 (Trace API, "Add Events"; Trace SDK,
    /// "Span Limits"). It has the first of its attributes, by distinct keys, up to the limit, each
    /// with its last value, whose texts are cut. Where as many events are kept as the limit allows,
    /// it is discarded and counted, and takes no memory (that the first are kept: profile).
    ///
    /// # Errors
    ///
    /// `OutOfMemory` where an event that is to be kept could not be stored; the record is then
    /// unchanged.
    pub fn add_event(
        &mut self,
        name: String<A>,
        timestamp: u64,
        attributes: Vec<(String<A>, Value<A>), A>,
    ) -> Result<(), OutOfMemory>
        ensures ok { let call =
            model.add_event (string_bytes name) timestamp (attributes_view attributes.items) in
            OnOk result (Adds call self.old self.new) }
        ensures err { OnErr result (self.new ≡ self.old) }
        ensures refused_only_where_kept { OnErr result
            (KeepsOneMore self.old.limits.events self.old.span.events) }
    {
        if !self
            .body
            .events
            .has_room(self.body.limits.max_events_per_span)
        {
            self.body.events.count();
            return Ok(());
        }
        let alloc = *Box::allocator(&self.body);
        let limits = self.body.limits.of_event();
        let attributes = kept_attributes(alloc, limits, attributes)?;
        self.body
            .events
            .push(Event::new(timestamp, name, attributes))
    }

    /// Adds an event for an exception, at a moment in nanoseconds since 1970 (Trace API, "Record
    /// Exception"; Semantic Conventions, "Exceptions"). It is named `exception` and has the
    /// attributes `exception.type`, `exception.message` and `exception.stacktrace`, those with an
    /// empty text left out (profile); then the others are set, which replace them under the same
    /// keys. The limits are those of `add_event`.
    ///
    /// # Errors
    ///
    /// `OutOfMemory` where an event that is to be kept could not be stored; the record is then
    /// unchanged.
    pub fn record_exception(
        &mut self,
        exception_type: String<A>,
        message: String<A>,
        stacktrace: String<A>,
        timestamp: u64,
        attributes: Vec<(String<A>, Value<A>), A>,
    ) -> Result<(), OutOfMemory>
        ensures ok { let call =
            model.record_exception (string_bytes exception_type) (string_bytes message)
            (string_bytes stacktrace) timestamp (attributes_view attributes.items) in
            OnOk result (Adds call self.old self.new) }
        ensures err { OnErr result (self.new ≡ self.old) }
        ensures refused_only_where_kept { OnErr result
            (KeepsOneMore self.old.limits.events self.old.span.events) }
    {
        if !self
            .body
            .events
            .has_room(self.body.limits.max_events_per_span)
        {
            self.body.events.count();
            return Ok(());
        }
        let alloc = *Box::allocator(&self.body);
        let limits = self.body.limits.of_event();
        let attributes = exception_attributes(
            alloc,
            limits,
            exception_type,
            message,
            stacktrace,
            attributes,
        )?;
        let name = String::from_str(alloc, "exception")?;
        self.body
            .events
            .push(Event::new(timestamp, name, attributes))
    }

    /// Links the span to another one (Trace API, "Add Link"; Trace SDK, "Span Limits"). The link
    /// has the first of its attributes, by distinct keys, up to the limit, each with its last
    /// value, whose texts are cut. One to an invalid context, without attributes and with an empty
    /// trace state is ignored. Where as many links are kept as the limit allows, another one is
    /// discarded and counted. Neither takes memory. (That an ignored link isn't counted, and that
    /// the first are kept: profile.)
    ///
    /// # Errors
    ///
    /// `OutOfMemory` where a link that is to be kept could not be stored; the record is then
    /// unchanged.
    pub fn add_link(
        &mut self,
        span_context: SpanContext<A>,
        attributes: Vec<(String<A>, Value<A>), A>,
    ) -> Result<(), OutOfMemory>
        ensures ok { let call =
            model.add_link (context_view span_context) (attributes_view attributes.items) in
            OnOk result (Adds call self.old self.new) }
        ensures err { OnErr result (self.new ≡ self.old) }
        ensures refused_only_where_kept { OnErr result
            (KeepsOneMore self.old.limits.links self.old.span.links) }
        ensures says_something { OnErr result
            (is_ignored (context_view span_context) (attributes_view attributes.items) ≡ false) }
    {
        if is_ignored_link(&span_context, &attributes) {
            return Ok(());
        }
        if !self
            .body
            .links
            .has_room(self.body.limits.max_links_per_span)
        {
            self.body.links.count();
            return Ok(());
        }
        let alloc = *Box::allocator(&self.body);
        let limits = self.body.limits.of_link();
        let attributes = kept_attributes(alloc, limits, attributes)?;
        self.body.links.push(Link::new(span_context, attributes))
    }
}

/// Whether a link says nothing: its context is invalid, and it has neither attributes nor a trace
/// state.
fn is_ignored_link<A: Allocator>(
    span_context: &SpanContext<A>,
    attributes: &[(String<A>, Value<A>)],
) -> bool
    ensures { result ≡ is_ignored (context_view span_context.now) (attributes_view attributes.now) }
{
    !span_context.is_valid() && attributes.is_empty() && span_context.state.is_empty()
}
