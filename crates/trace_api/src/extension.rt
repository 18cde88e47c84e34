//! The calls on a span, with what is lent to them.
ghost use Rattle.std.specs.Prelude.{◌≡◌, OnErr, OnOk, is_some, map, true};
ghost use Rattle.model_span.specs.Spans as model;
ghost use Rattle.model_span.specs.Starts.{Does, HeldSpan, IgnoredUnlessRecording};
ghost use Rattle.model_span.specs.Starts.{is_recording_state};
ghost use Rattle.otlp_ids.specs.SpanContext.{context_view};
ghost use Rattle.trace_api.specs.ExtCalls.{DoesAll, DoesFirst};
ghost use Rattle.trace_api.specs.Lent.{lent_pairs};

use crate::Span;
use crate::lent::{KeyValue, ToValue, copy_context, copy_pairs};
use otlp_ids::{OutOfMemory, SpanContext, copy_text};
use otlp_span::Status;
use std::alloc::Allocator;

/// Calls on a span that copy the names, keys and values that are lent to them (Trace API, "Span
/// operations"). Each is the call of the Trace API that hands over copies, on the span's own
/// memory. Where calls on the span don't count it is ignored, and nothing is copied.
///
/// # Errors
///
/// Each answers `OutOfMemory` where a copy, or what is to be kept, could not be stored. The span is
/// then unchanged; `set_all` alone has set the attributes before the one that was refused.
pub trait SpanExt {
    /// What the span is in the model.
    ghost held: { Self → HeldSpan };

    /// Sets an attribute, as `Span::set_attribute` (Trace API, "Set Attributes").
    fn set<V: ToValue>(&mut self, key: &str, value: V) -> Result<(), OutOfMemory>
        ensures ok { let call =
            model.set_attribute (record { key = key.now; value = V.value value }) in
            OnOk result (Does call (held self.old) (held self.new)) }
        ensures ignored { IgnoredUnlessRecording (held self.old) (held self.new) }
        ensures err { OnErr result (held self.new ≡ held self.old) }
        ensures refused { OnErr result (is_recording_state (held self.old).state ≡ true) };

    /// Sets attributes one after the other, as `set` (Trace API, "Set Attributes").
    ///
    /// # Errors
    ///
    /// `OutOfMemory` as `set`; the attributes before the one that was refused are set.
    fn set_all(&mut self, pairs: &[KeyValue<'_>]) -> Result<(), OutOfMemory>
        ensures ok { OnOk result (DoesAll (map model.set_attribute (lent_pairs pairs.now))
            (held self.old) (held self.new)) }
        ensures ignored { IgnoredUnlessRecording (held self.old) (held self.new) }
        ensures err { OnErr result (DoesFirst (map model.set_attribute (lent_pairs pairs.now))
            (held self.old) (held self.new)) }
        ensures refused { OnErr result (is_recording_state (held self.old).state ≡ true) };

    /// Adds an event at a moment, in nanoseconds since 1970, as `Span::add_event` (Trace API, "Add
    /// Events").
    fn event(
        &mut self,
        name: &str,
        timestamp: u64,
        pairs: &[KeyValue<'_>],
    ) -> Result<(), OutOfMemory>
        ensures ok { let call = model.add_event name.now timestamp (lent_pairs pairs.now) in
            OnOk result (Does call (held self.old) (held self.new)) }
        ensures ignored { IgnoredUnlessRecording (held self.old) (held self.new) }
        ensures err { OnErr result (held self.new ≡ held self.old) }
        ensures refused { OnErr result (is_recording_state (held self.old).state ≡ true) };

    /// Adds an event for an exception at a moment, in nanoseconds since 1970, as
    /// `Span::record_exception` (Trace API, "Record Exception"). Its type, its message and its
    /// stack trace are left out where they are empty.
    fn exception(
        &mut self,
        exception_type: &str,
        message: &str,
        stacktrace: &str,
        timestamp: u64,
        pairs: &[KeyValue<'_>],
    ) -> Result<(), OutOfMemory>
        ensures ok { let call = model.record_exception exception_type.now message.now
            stacktrace.now timestamp (lent_pairs pairs.now) in
            OnOk result (Does call (held self.old) (held self.new)) }
        ensures ignored { IgnoredUnlessRecording (held self.old) (held self.new) }
        ensures err { OnErr result (held self.new ≡ held self.old) }
        ensures refused { OnErr result (is_recording_state (held self.old).state ≡ true) };

    /// Links the span to another one, as `Span::add_link` (Trace API, "Add Link").
    fn link<B: Allocator>(
        &mut self,
        context: &SpanContext<B>,
        pairs: &[KeyValue<'_>],
    ) -> Result<(), OutOfMemory>
        ensures ok { let call = model.add_link (context_view context.now) (lent_pairs pairs.now) in
            OnOk result (Does call (held self.old) (held self.new)) }
        ensures ignored { IgnoredUnlessRecording (held self.old) (held self.new) }
        ensures err { OnErr result (held self.new ≡ held self.old) }
        ensures refused { OnErr result (is_recording_state (held self.old).state ≡ true) };

    /// Sets the status Error with this description, as `Span::set_status` (Trace API, "Set
    /// Status"). It is ignored where the status is Ok.
    fn set_error(&mut self, description: &str) -> Result<(), OutOfMemory>
        ensures ok { let call = model.set_status (model.error description.now) in
            OnOk result (Does call (held self.old) (held self.new)) }
        ensures ignored { IgnoredUnlessRecording (held self.old) (held self.new) }
        ensures err { OnErr result (held self.new ≡ held self.old) }
        ensures refused { OnErr result (is_recording_state (held self.old).state ≡ true) };

    /// Replaces the span's name, as `Span::update_name` (Trace API, "UpdateName").
    fn rename(&mut self, name: &str) -> Result<(), OutOfMemory>
        ensures ok { OnOk result
            (Does (model.update_name name.now) (held self.old) (held self.new)) }
        ensures ignored { IgnoredUnlessRecording (held self.old) (held self.new) }
        ensures err { OnErr result (held self.new ≡ held self.old) }
        ensures refused { OnErr result (is_recording_state (held self.old).state ≡ true) };
}

/// The memory that the span is on, where calls on the span still count.
fn recording_memory<A: Allocator + Copy>(span: &Span<A>) -> Option<A>
    ensures { is_some result ≡ is_recording_state span.now.state }
{
    if span.is_recording() {
        Some(*span.context().state.allocator())
    } else {
        None
    }
}

impl<A: Allocator + Copy> SpanExt for Span<A> {
    ghost held = { λ span. span };

    fn set<V: ToValue>(&mut self, key: &str, value: V) -> Result<(), OutOfMemory> {
        let Some(alloc) = recording_memory(self) else {
            return Ok(());
        };
        let key = copy_text(alloc, key)?;
        let value = value.to_value().copy(alloc)?;
        self.set_attribute(key, value)
    }

    fn set_all(&mut self, pairs: &[KeyValue<'_>]) -> Result<(), OutOfMemory> {
        for pair in pairs {
            self.set(pair.key, pair.value)?;
        }
        Ok(())
    }

    fn event(
        &mut self,
        name: &str,
        timestamp: u64,
        pairs: &[KeyValue<'_>],
    ) -> Result<(), OutOfMemory> {
        let Some(alloc) = recording_memory(self) else {
            return Ok(());
        };
        let name = copy_text(alloc, name)?;
        let attributes = copy_pairs(alloc, pairs)?;
        self.add_event(name, timestamp, attributes)
    }

    fn exception(
        &mut self,
        exception_type: &str,
        message: &str,
        stacktrace: &str,
        timestamp: u64,
        pairs: &[KeyValue<'_>],
    ) -> Result<(), OutOfMemory> {
        let Some(alloc) = recording_memory(self) else {
            return Ok(());
        };
        let exception_type = copy_text(alloc, exception_type)?;
        let message = copy_text(alloc, message)?;
        let stacktrace = copy_text(alloc, stacktrace)?;
        let attributes = copy_pairs(alloc, pairs)?;
        self.record_exception(exception_type, message, stacktrace, timestamp, attributes)
    }

    fn link<B: Allocator>(
        &mut self,
        context: &SpanContext<B>,
        pairs: &[KeyValue<'_>],
    ) -> Result<(), OutOfMemory> {
        let Some(alloc) = recording_memory(self) else {
            return Ok(());
        };
        let context = copy_context(alloc, context)?;
        let attributes = copy_pairs(alloc, pairs)?;
        self.add_link(context, attributes)
    }

    fn set_error(&mut self, description: &str) -> Result<(), OutOfMemory> {
        let Some(alloc) = recording_memory(self) else {
            return Ok(());
        };
        let description = copy_text(alloc, description)?;
        self.set_status(Status::Error(description));
        Ok(())
    }

    fn rename(&mut self, name: &str) -> Result<(), OutOfMemory> {
        let Some(alloc) = recording_memory(self) else {
            return Ok(());
        };
        let name = copy_text(alloc, name)?;
        self.update_name(name);
        Ok(())
    }
}
