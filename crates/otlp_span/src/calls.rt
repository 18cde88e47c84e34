//! A span that is made from a list of calls.
ghost use Rattle.std.specs.Prelude.{◌≡◌, IfOk, OnErr, OnOk, false};
ghost use Rattle.model_span.specs.Spans.{Adds, is_end, set_status};
ghost use Rattle.otlp_value.specs.Value.{attributes_view};
ghost use Rattle.otlp_span.specs.Parts.{call_view, replayed_span, status_view};
ghost use Rattle.otlp_span.specs.Recording.{CallTakesMemory, HoldsText};

use crate::data::SpanData;
use crate::parts::{Open, SpanCall, SpanLimits, Status};
use crate::record::SpanRecord;
use otlp_ids::OutOfMemory;
use otlp_value::Value;
use std::alloc::Allocator;

/// The span of a start and of the calls on it. The calls after the first end are ignored (Trace
/// API, "End"); where there is no end, the span ends at its start (profile). What the calls hold is
/// copied.
///
/// # Errors
///
/// `OutOfMemory` where there is no room for the span or for a copy; what it was to start from is
/// then dropped, and so is what was recorded.
pub fn replay<A: Allocator + Copy>(
    alloc: A,
    opening: Open<A>,
    limits: &SpanLimits,
    calls: &[SpanCall<A>],
) -> Result<SpanData<A>, OutOfMemory>
    ensures { IfOk result (λ s. s ≡ replayed_span limits.now opening calls.now) }
{
    let start = opening.start;
    let mut record = SpanRecord::open(alloc, opening, limits)?;
    for call in calls {
        match call {
            SpanCall::End(at) => return Ok(record.close(*at)),
            call => record.call(call.copy(alloc)?)?,
        }
    }
    Ok(record.close(start))
}

impl<A: Allocator> SpanCall<A> {
    /// Whether the call ends the span.
    pub fn is_end(&self) -> bool
        ensures { result ≡ is_end (call_view self.now) }
    {
        matches!(self, SpanCall::End(_))
    }
}

impl<A: Allocator + Copy> SpanCall<A> {
    /// An equal call, on memory of its own. An end takes none, nor does a status without a
    /// description.
    ///
    /// # Errors
    ///
    /// `OutOfMemory` where a text or a list could not be stored.
    pub fn copy(&self, alloc: A) -> Result<SpanCall<A>, OutOfMemory>
        ensures value { IfOk result (λ call. call_view call ≡ call_view self.now) }
        ensures refused { OnErr result (HoldsText (call_view self.now)) }
    {
        match self {
            SpanCall::SetAttribute(key, value) => {
                let key = String::from_str(alloc, key.as_str())?;
                Ok(SpanCall::SetAttribute(key, value.copy(alloc)?))
            }
            SpanCall::AddEvent {
                name,
                timestamp,
                attributes,
            } => Ok(SpanCall::AddEvent {
                name: String::from_str(alloc, name.as_str())?,
                timestamp: *timestamp,
                attributes: copy_pairs(alloc, attributes)?,
            }),
            SpanCall::RecordException {
                exception_type,
                message,
                stacktrace,
                timestamp,
                attributes,
            } => Ok(SpanCall::RecordException {
                exception_type: String::from_str(alloc, exception_type.as_str())?,
                message: String::from_str(alloc, message.as_str())?,
                stacktrace: String::from_str(alloc, stacktrace.as_str())?,
                timestamp: *timestamp,
                attributes: copy_pairs(alloc, attributes)?,
            }),
            SpanCall::AddLink {
                span_context,
                attributes,
            } => Ok(SpanCall::AddLink {
                span_context: span_context.copy(alloc)?,
                attributes: copy_pairs(alloc, attributes)?,
            }),
            SpanCall::SetStatus(status) => Ok(SpanCall::SetStatus(copy_status(alloc, status)?)),
            SpanCall::UpdateName(name) => {
                Ok(SpanCall::UpdateName(String::from_str(alloc, name.as_str())?))
            }
            SpanCall::End(at) => Ok(SpanCall::End(*at)),
        }
    }
}

impl<A: Allocator + Copy> SpanRecord<A> {
    /// Makes a call that is no end (`SpanCall::is_end`; an end is `close`), as the method of its
    /// kind does.
    ///
    /// # Errors
    ///
    /// `OutOfMemory` where an attribute, an event or a link that is to be kept could not be stored;
    /// the record is then unchanged.
    pub fn call(&mut self, call: SpanCall<A>) -> Result<(), OutOfMemory>
        requires { is_end (call_view call) ≡ false }
        ensures ok { OnOk result (Adds (call_view call) self.old self.new) }
        ensures err { OnErr result (self.new ≡ self.old) }
        ensures refused_only_where_kept { OnErr result (CallTakesMemory (call_view call) self.old) }
    {
        match call {
            SpanCall::SetAttribute(key, value) => self.set_attribute(key, value),
            SpanCall::AddEvent {
                name,
                timestamp,
                attributes,
            } => self.add_event(name, timestamp, attributes),
            SpanCall::RecordException {
                exception_type,
                message,
                stacktrace,
                timestamp,
                attributes,
            } => self.record_exception(exception_type, message, stacktrace, timestamp, attributes),
            SpanCall::AddLink {
                span_context,
                attributes,
            } => self.add_link(span_context, attributes),
            SpanCall::SetStatus(status) => {
                self.set_status(status);
                Ok(())
            }
            SpanCall::UpdateName(name) => {
                self.update_name(name);
                Ok(())
            }
            SpanCall::End(_) => unreachable!(),
        }
    }
}

/// Equal pairs, on memory of their own.
fn copy_pairs<A: Allocator + Copy>(
    alloc: A,
    pairs: &[(String<A>, Value<A>)],
) -> Result<Vec<(String<A>, Value<A>), A>, OutOfMemory>
    ensures { IfOk result (λ copied. attributes_view copied.items ≡ attributes_view pairs.now) }
{
    let mut copied = Vec::with_capacity(alloc, pairs.len())?;
    for (key, value) in pairs {
        copied.push((String::from_str(alloc, key.as_str())?, value.copy(alloc)?))?;
    }
    Ok(copied)
}

/// An equal status, on memory of its own.
fn copy_status<A: Allocator + Copy>(alloc: A, status: &Status<A>) -> Result<Status<A>, OutOfMemory>
    ensures value { IfOk result (λ copied. status_view copied ≡ status_view status.now) }
    ensures refused { OnErr result (HoldsText (set_status (status_view status.now))) }
{
    match status {
        Status::Unset => Ok(Status::Unset),
        Status::Ok => Ok(Status::Ok),
        Status::Error(description) => {
            Ok(Status::Error(String::from_str(alloc, description.as_str())?))
        }
    }
}
