//! Spans as they were received, and what belongs to one (opentelemetry-proto, trace.proto: Span,
//! Status).

ghost use Rattle.std.specs.Prelude.{◌≡◌, List, [], IfErr, OnOk};
ghost use Rattle.model_message.specs.Wire;
ghost use Rattle.model_message.specs.Wire.{row};
ghost use Rattle.model_message.specs.Tables;
ghost use Rattle.model_message.specs.Tables.{message, repeated};
ghost use Rattle.model_message.specs.Messages.{max_depth, value};
ghost use Rattle.otlp_wire.specs.Fields.{field_of};
ghost use Rattle.otlp_wire.specs.Faults.{NamesOne};
ghost use Rattle.otlp_wire.specs.Gathering.{GathersRow, KeepsField, part_faults, field_faults};
ghost use Rattle.otlp_wire.specs.Gathering.{nothing};
ghost use Rattle.otlp_read.specs.Spans.{status_view, status_gathered, event_view};
ghost use Rattle.otlp_read.specs.Spans.{event_gathered, link_view, link_gathered};
ghost use Rattle.otlp_read.specs.Spans.{span_view, span_gathered};

use crate::any_value::{AnyValue, push_attribute};
use otlp_wire::{
    Field, Fields, GatherFields, ReadFault, bytes_in, copy_bytes, last_bytes, last_fixed32,
    last_fixed64, last_varint, low_32_bits, push_message, read_text,
};
use std::alloc::{Allocator, Global};

/// Whether the operation that the span describes went well (opentelemetry-proto, trace.proto:
/// Status). An absent one has the defaults.
#[derive(Drop)]
#[derive_where(Debug)]
pub struct Status<A: Allocator = Global> {
    /// A description, empty by default.
    pub message: String<A>,
    /// 0 is Unset, the default, 1 is Ok, 2 is Error; others are as they were received.
    pub code: i32,
}

/// An event of a span (opentelemetry-proto, trace.proto: Span.Event).
#[derive(Drop)]
#[derive_where(Debug)]
pub struct Event<A: Allocator = Global> {
    /// When it was, in nanoseconds since 1970.
    pub time_unix_nano: u64,
    /// Its name.
    pub name: String<A>,
    /// Its attributes, in order, with each repeated key.
    pub attributes: Vec<(String<A>, AnyValue<A>), A>,
    /// How many attributes were dropped.
    pub dropped_attributes_count: u32,
}

/// A link of a span to another (opentelemetry-proto, trace.proto: Span.Link).
#[derive(Drop)]
#[derive_where(Debug)]
pub struct Link<A: Allocator = Global> {
    /// The trace's identifier, of any length.
    pub trace_id: Vec<u8, A>,
    /// The span's identifier, of any length.
    pub span_id: Vec<u8, A>,
    /// The trace state.
    pub trace_state: String<A>,
    /// Its attributes, in order, with each repeated key.
    pub attributes: Vec<(String<A>, AnyValue<A>), A>,
    /// How many attributes were dropped.
    pub dropped_attributes_count: u32,
    /// The flags of its context in the low 8 bits, whether it is known that the context is remote
    /// in bit 8, and whether it is in bit 9 (trace.proto: SpanFlags); 0 where the field is absent,
    /// and other bits as they were received.
    pub flags: u32,
}

/// A span (opentelemetry-proto, trace.proto: Span).
#[derive(Drop)]
#[derive_where(Debug)]
pub struct Span<A: Allocator = Global> {
    /// The trace's identifier, of any length.
    pub trace_id: Vec<u8, A>,
    /// The span's identifier, of any length.
    pub span_id: Vec<u8, A>,
    /// The trace state.
    pub trace_state: String<A>,
    /// The parent's identifier, of any length; empty for a root.
    pub parent_span_id: Vec<u8, A>,
    /// Its name.
    pub name: String<A>,
    /// 0 is unspecified, 1 internal, 2 server, 3 client, 4 producer, 5 consumer; others are as they
    /// were received.
    pub kind: i32,
    /// When it began, in nanoseconds since 1970.
    pub start_time_unix_nano: u64,
    /// When it ended, in nanoseconds since 1970.
    pub end_time_unix_nano: u64,
    /// Its attributes, in order, with each repeated key.
    pub attributes: Vec<(String<A>, AnyValue<A>), A>,
    /// How many attributes were dropped.
    pub dropped_attributes_count: u32,
    /// Its events, in order.
    pub events: Vec<Event<A>, A>,
    /// How many events were dropped.
    pub dropped_events_count: u32,
    /// Its links, in order.
    pub links: Vec<Link<A>, A>,
    /// How many links were dropped.
    pub dropped_links_count: u32,
    /// Its status.
    pub status: Status<A>,
    /// The flags of its context in the low 8 bits, whether it is known that its parent is remote in
    /// bit 8, and whether it is in bit 9 (trace.proto: SpanFlags); 0 where the field is absent, and
    /// other bits as they were received.
    pub flags: u32,
}

/// What is gathered of the fields of a status.
#[derive(Drop)]
pub(crate) struct StatusParts<'a, A: Allocator> {
    alloc: A,
    message: &'a [u8],
    code: u64,
}

impl<'a, A: Allocator + Copy> StatusParts<'a, A> {
    /// Where there is no field yet.
    pub(crate) fn new(alloc: A) -> StatusParts<'a, A>
        ensures { status_gathered result ≡ nothing Tables.status }
    {
        StatusParts {
            alloc,
            message: b"",
            code: 0,
        }
    }

    /// Takes the fields of these bytes.
    fn take_all(&mut self, content: &'a [u8]) -> Result<(), ReadFault>
        ensures ok { OnOk result (GathersRow (value max_depth) Tables.status
            (status_gathered self.old) (status_gathered self.new) content.now) }
        ensures whole { OnOk result ((row content.now).faults ≡ []) }
        ensures err { IfErr result (λ fault. (before after : List Wire.Field) → NamesOne
            (part_faults (value max_depth) Tables.status before content.now after) fault) }
    {
        for field in Fields::new(content) {
            self.take(field?)?;
        }
        Ok(())
    }

    /// Takes the fields of the status that the field is, where it has this number.
    pub(crate) fn take_in(&mut self, field: Field<'a>, number: u32) -> Result<(), ReadFault>
        ensures ok { OnOk result (KeepsField (message Tables.status) number
            (status_gathered self.old) (status_gathered self.new) (field_of field.entry)) }
        ensures err { IfErr result (λ fault. (before after : List Wire.Field) → NamesOne
            (field_faults (message Tables.status) number before (field_of field.entry) after)
            fault) }
    {
        let Some(content) = bytes_in(field, number) else {
            return Ok(());
        };
        self.take_all(content)
    }
}

impl<'a, A: Allocator + Copy> GatherFields<'a> for StatusParts<'a, A> {
    ghost use Rattle.model_message.specs.Tables;
    ghost use Rattle.otlp_read.specs.Spans.{status_gathered, status_view};

    type Output = Status<A>;

    ghost table = { Tables.status };

    ghost gathered = { status_gathered };

    ghost shown = { status_view };

    fn take(&mut self, field: Field<'a>) -> Result<(), ReadFault> {
        self.message = last_bytes(self.message, field, 2);
        self.code = last_varint(self.code, field, 3);
        Ok(())
    }

    fn finish(self) -> Result<Status<A>, ReadFault> {
        let alloc = self.alloc;
        Ok(Status {
            message: read_text(alloc, self.message)?,
            code: low_32_bits(self.code).cast_signed(),
        })
    }
}

/// What is gathered of the fields of an event.
#[derive(Drop)]
pub(crate) struct EventParts<'a, A: Allocator> {
    alloc: A,
    time_unix_nano: u64,
    name: &'a [u8],
    attributes: Vec<(String<A>, AnyValue<A>), A>,
    dropped_attributes_count: u64,
}

impl<'a, A: Allocator + Copy> EventParts<'a, A> {
    /// Where there is no field yet.
    pub(crate) fn new(alloc: A) -> EventParts<'a, A>
        ensures { event_gathered result ≡ nothing Tables.event }
    {
        EventParts {
            alloc,
            time_unix_nano: 0,
            name: b"",
            attributes: Vec::new(alloc),
            dropped_attributes_count: 0,
        }
    }
}

impl<'a, A: Allocator + Copy> GatherFields<'a> for EventParts<'a, A> {
    ghost use Rattle.model_message.specs.Tables;
    ghost use Rattle.otlp_read.specs.Spans.{event_gathered, event_view};

    type Output = Event<A>;

    ghost table = { Tables.event };

    ghost gathered = { event_gathered };

    ghost shown = { event_view };

    fn take(&mut self, field: Field<'a>) -> Result<(), ReadFault> {
        self.time_unix_nano = last_fixed64(self.time_unix_nano, field, 1);
        self.name = last_bytes(self.name, field, 2);
        push_attribute(self.alloc, &mut self.attributes, field, 3)?;
        self.dropped_attributes_count = last_varint(self.dropped_attributes_count, field, 4);
        Ok(())
    }

    fn finish(self) -> Result<Event<A>, ReadFault> {
        let alloc = self.alloc;
        Ok(Event {
            time_unix_nano: self.time_unix_nano,
            name: read_text(alloc, self.name)?,
            attributes: self.attributes,
            dropped_attributes_count: low_32_bits(self.dropped_attributes_count),
        })
    }
}

/// What is gathered of the fields of a link.
#[derive(Drop)]
pub(crate) struct LinkParts<'a, A: Allocator> {
    alloc: A,
    trace_id: &'a [u8],
    span_id: &'a [u8],
    trace_state: &'a [u8],
    attributes: Vec<(String<A>, AnyValue<A>), A>,
    dropped_attributes_count: u64,
    flags: u32,
}

impl<'a, A: Allocator + Copy> LinkParts<'a, A> {
    /// Where there is no field yet.
    pub(crate) fn new(alloc: A) -> LinkParts<'a, A>
        ensures { link_gathered result ≡ nothing Tables.link }
    {
        LinkParts {
            alloc,
            trace_id: b"",
            span_id: b"",
            trace_state: b"",
            attributes: Vec::new(alloc),
            dropped_attributes_count: 0,
            flags: 0,
        }
    }
}

impl<'a, A: Allocator + Copy> GatherFields<'a> for LinkParts<'a, A> {
    ghost use Rattle.model_message.specs.Tables;
    ghost use Rattle.otlp_read.specs.Spans.{link_gathered, link_view};

    type Output = Link<A>;

    ghost table = { Tables.link };

    ghost gathered = { link_gathered };

    ghost shown = { link_view };

    fn take(&mut self, field: Field<'a>) -> Result<(), ReadFault> {
        self.trace_id = last_bytes(self.trace_id, field, 1);
        self.span_id = last_bytes(self.span_id, field, 2);
        self.trace_state = last_bytes(self.trace_state, field, 3);
        push_attribute(self.alloc, &mut self.attributes, field, 4)?;
        self.dropped_attributes_count = last_varint(self.dropped_attributes_count, field, 5);
        self.flags = last_fixed32(self.flags, field, 6);
        Ok(())
    }

    fn finish(self) -> Result<Link<A>, ReadFault> {
        let alloc = self.alloc;
        Ok(Link {
            trace_id: copy_bytes(alloc, self.trace_id)?,
            span_id: copy_bytes(alloc, self.span_id)?,
            trace_state: read_text(alloc, self.trace_state)?,
            attributes: self.attributes,
            dropped_attributes_count: low_32_bits(self.dropped_attributes_count),
            flags: self.flags,
        })
    }
}

/// What is gathered of the fields of a span.
#[derive(Drop)]
pub(crate) struct SpanParts<'a, A: Allocator> {
    alloc: A,
    trace_id: &'a [u8],
    span_id: &'a [u8],
    trace_state: &'a [u8],
    parent_span_id: &'a [u8],
    name: &'a [u8],
    kind: u64,
    start_time_unix_nano: u64,
    end_time_unix_nano: u64,
    attributes: Vec<(String<A>, AnyValue<A>), A>,
    dropped_attributes_count: u64,
    events: Vec<Event<A>, A>,
    dropped_events_count: u64,
    links: Vec<Link<A>, A>,
    dropped_links_count: u64,
    status: StatusParts<'a, A>,
    flags: u32,
}

impl<'a, A: Allocator + Copy> SpanParts<'a, A> {
    /// Where there is no field yet.
    pub(crate) fn new(alloc: A) -> SpanParts<'a, A>
        ensures { span_gathered result ≡ nothing Tables.span }
    {
        SpanParts {
            alloc,
            trace_id: b"",
            span_id: b"",
            trace_state: b"",
            parent_span_id: b"",
            name: b"",
            kind: 0,
            start_time_unix_nano: 0,
            end_time_unix_nano: 0,
            attributes: Vec::new(alloc),
            dropped_attributes_count: 0,
            events: Vec::new(alloc),
            dropped_events_count: 0,
            links: Vec::new(alloc),
            dropped_links_count: 0,
            status: StatusParts::new(alloc),
            flags: 0,
        }
    }
}

impl<'a, A: Allocator + Copy> GatherFields<'a> for SpanParts<'a, A> {
    ghost use Rattle.model_message.specs.Tables;
    ghost use Rattle.otlp_read.specs.Spans.{span_gathered, span_view};

    type Output = Span<A>;

    ghost table = { Tables.span };

    ghost gathered = { span_gathered };

    ghost shown = { span_view };

    fn take(&mut self, field: Field<'a>) -> Result<(), ReadFault> {
        match field.number {
            1 => self.trace_id = last_bytes(self.trace_id, field, 1),
            2 => self.span_id = last_bytes(self.span_id, field, 2),
            3 => self.trace_state = last_bytes(self.trace_state, field, 3),
            4 => self.parent_span_id = last_bytes(self.parent_span_id, field, 4),
            5 => self.name = last_bytes(self.name, field, 5),
            6 => self.kind = last_varint(self.kind, field, 6),
            7 => self.start_time_unix_nano = last_fixed64(self.start_time_unix_nano, field, 7),
            8 => self.end_time_unix_nano = last_fixed64(self.end_time_unix_nano, field, 8),
            9 => push_attribute(self.alloc, &mut self.attributes, field, 9)?,
            10 => self.dropped_attributes_count = last_varint(
                self.dropped_attributes_count,
                field,
                10,
            ),
            11 => push_message(EventParts::new(self.alloc), &mut self.events, field, 11)?,
            12 => self.dropped_events_count = last_varint(self.dropped_events_count, field, 12),
            13 => push_message(LinkParts::new(self.alloc), &mut self.links, field, 13)?,
            14 => self.dropped_links_count = last_varint(self.dropped_links_count, field, 14),
            15 => self.status.take_in(field, 15)?,
            16 => self.flags = last_fixed32(self.flags, field, 16),
            _ => {}
        }
        Ok(())
    }

    fn finish(self) -> Result<Span<A>, ReadFault> {
        let alloc = self.alloc;
        Ok(Span {
            trace_id: copy_bytes(alloc, self.trace_id)?,
            span_id: copy_bytes(alloc, self.span_id)?,
            trace_state: read_text(alloc, self.trace_state)?,
            parent_span_id: copy_bytes(alloc, self.parent_span_id)?,
            name: read_text(alloc, self.name)?,
            kind: low_32_bits(self.kind).cast_signed(),
            start_time_unix_nano: self.start_time_unix_nano,
            end_time_unix_nano: self.end_time_unix_nano,
            attributes: self.attributes,
            dropped_attributes_count: low_32_bits(self.dropped_attributes_count),
            events: self.events,
            dropped_events_count: low_32_bits(self.dropped_events_count),
            links: self.links,
            dropped_links_count: low_32_bits(self.dropped_links_count),
            status: self.status.finish()?,
            flags: self.flags,
        })
    }
}
