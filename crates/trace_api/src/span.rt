//! A span in the hands of a program.
ghost use Rattle.std.specs.Prelude.{◌≡◌, ◌≢◌, IfOk, IfSome, OnErr, OnOk, false, is_some, true};
ghost use Rattle.std.specs.Prelude.{string_bytes};
ghost use Rattle.model_span.specs.Spans as model;
ghost use Rattle.model_span.specs.Starts as starts;
ghost use Rattle.model_span.specs.Starts.{Does, IgnoredUnlessRecording, is_recording_state};
ghost use Rattle.otlp_ids.specs.SpanContext.{context_view};
ghost use Rattle.otlp_value.specs.AttributeList.{TakesPlace};
ghost use Rattle.otlp_value.specs.Value.{attribute_view, attributes_view};
ghost use Rattle.otlp_span.specs.Parts.{attributes_of, call_view, status_view};
ghost use Rattle.otlp_span.specs.Recording.{CallTakesMemory, KeepsOneMore};
ghost use Rattle.trace_api.specs.Calls.{Asks, IfAnswered, IsRecordingWith, Says, goes_to_pass};

use crate::pass::{EndPass, Ended};
use otlp_ids::{OutOfMemory, SpanContext};
use otlp_span::{SpanCall, SpanData, SpanRecord, Status};
use otlp_value::Value;
use std::alloc::{Allocator, Global};
use std::marker::Model;
use std::mem;

/// Whether the calls on a span still count.
#[derive(Drop)]
#[derive_where(Debug)]
enum State<A: Allocator> {
    /// They do.
    Recording(SpanRecord<A>),
    /// They don't: the sampler dropped the span.
    NotRecording,
    /// They don't: the span has ended.
    Ended,
}

/// A span that has started (Trace API, "Span"). Calls on it count until its first end. On a span
/// that its sampler dropped none does. A span that is dropped without an end goes to no pass:
/// unlike in opentelemetry-rust, nothing ends it.
#[derive_where(Debug)]
pub struct Span<A: Allocator = Global> {
    context: SpanContext<A>,
    state: State<A>,
}

/// By hand: a derived one would be proved again in each crate that drops it.
impl<A: Allocator> Drop for Span<A> {
    fn drop(self) {
        let Self {
            context: _,
            state: _,
        } = self;
    }
}

impl<A: Allocator> Model for Span<A> {
    ghost use Rattle.model_span.specs.Starts.{HeldSpan};
    ghost use Rattle.otlp_ids.specs.SpanContext.{context_view};
    ghost use Rattle.trace_api.specs.State.{state_view};

    ghost Value = { HeldSpan };

    ghost view = { λ s. record { context = context_view s.context; state = state_view s.state } };
}

impl<A: Allocator> Span<A> {
    /// A span that isn't recorded, with this context: one that a sampler dropped, or one that only
    /// carries the context of another (Trace API, "Wrapping a SpanContext in a Span"). Its children
    /// are children of the context, no call on it counts, and its end goes to no pass. It takes no
    /// memory.
    pub fn not_recording(context: SpanContext<A>) -> Span<A>
        ensures { result ≡ record { context = context_view context; state = starts.not_recording } }
    {
        Span {
            context,
            state: State::NotRecording,
        }
    }

    /// A span on which calls count.
    pub(crate) fn recording(context: SpanContext<A>, recorded: SpanRecord<A>) -> Span<A>
        ensures { result ≡ record {
          context = context_view context;
          state =
              starts.recording recorded;
        } }
    {
        Span {
            context,
            state: State::Recording(recorded),
        }
    }

    /// The span's context, also after its end (Trace API, "Get Context").
    pub fn context(&self) -> &SpanContext<A>
        ensures { context_view result.now ≡ self.now.context }
    {
        &self.context
    }

    /// Whether calls on the span still count (Trace API, "IsRecording").
    pub fn is_recording(&self) -> bool
        ensures { result ≡ is_recording_state self.now.state }
    {
        matches!(self.state, State::Recording(_))
    }

    /// Sets an attribute, as `SpanRecord::set_attribute` (Trace API, "Set Attributes"). It is
    /// ignored where calls on the span don't count.
    ///
    /// # Errors
    ///
    /// `OutOfMemory` where a new key that is to be kept could not be stored; the span is then
    /// unchanged.
    pub fn set_attribute(&mut self, key: String<A>, value: Value<A>) -> Result<(), OutOfMemory>
        ensures ok { let call = model.set_attribute (attribute_view (key, value)) in
            OnOk result (Does call self.old self.new) }
        ensures ignored { IgnoredUnlessRecording self.old self.new }
        ensures err { OnErr result (self.new ≡ self.old) }
        ensures refused_only_where_kept { OnErr result
            (IsRecordingWith
            (λ r. TakesPlace (string_bytes key) (attributes_of r)) self.old.state) }
    {
        let State::Recording(record) = &mut self.state else {
            return Ok(());
        };
        record.set_attribute(key, value)
    }

    /// Sets the status, as `SpanRecord::set_status` (Trace API, "Set Status"): Ok is final, Unset
    /// is ignored, and a later error replaces an earlier one. It is ignored where calls on the span
    /// don't count, and takes no memory.
    pub fn set_status(&mut self, status: Status<A>)
        ensures called { Does (model.set_status (status_view status)) self.old self.new }
        ensures ignored { IgnoredUnlessRecording self.old self.new }
    {
        let State::Recording(record) = &mut self.state else {
            return;
        };
        record.set_status(status);
    }

    /// Replaces the span's name (Trace API, "UpdateName"). It is ignored where calls on the span
    /// don't count, and takes no memory.
    pub fn update_name(&mut self, name: String<A>)
        ensures called { Does (model.update_name (string_bytes name)) self.old self.new }
        ensures ignored { IgnoredUnlessRecording self.old self.new }
    {
        let State::Recording(record) = &mut self.state else {
            return;
        };
        record.update_name(name);
    }

    /// Ends the span at a moment, in nanoseconds since 1970 (Trace API, "End"). The first end of a
    /// sampled span hands it to the pass, whose answer it gives. It takes no memory of its own.
    ///
    /// The answer is `AlreadyEnded` where the span has ended before, else `NotSampled` where it
    /// isn't sampled; the pass is then not asked.
    pub fn end<P: EndPass<SpanData<A>>>(&mut self, pass: &mut P, at: u64) -> Ended
        ensures ended { Does (model.end at) self.old self.new }
        ensures state { self.new.state ≡ starts.ended }
        ensures already_ended { self.old.state ≡ starts.ended
            → Says Ended.AlreadyEnded pass.old result pass.new }
        ensures not_sampled { self.old.state ≢ starts.ended → goes_to_pass self.old ≡ false
            → Says Ended.NotSampled pass.old result pass.new }
        ensures sampled { goes_to_pass self.old ≡ true
            → IsRecordingWith (λ r. Asks P.admits at r pass.old result pass.new) self.old.state }
    {
        match mem::replace(&mut self.state, State::Ended) {
            State::Recording(record) if self.context.flags.sampled() => {
                pass.admit(record.close(at))
            }
            State::Recording(_) | State::NotRecording => Ended::NotSampled,
            State::Ended => Ended::AlreadyEnded,
        }
    }
}

impl<A: Allocator + Copy> Span<A> {
    /// Makes a call (Trace API, "Span operations"): an end as `end`, whose answer it gives, and any
    /// other as the operation of its name, which answers `None` and asks nothing of the pass.
    ///
    /// # Errors
    ///
    /// `OutOfMemory` where an attribute, an event or a link that is to be kept could not be stored;
    /// the span and the pass are then unchanged. An end takes no memory of its own.
    pub fn call<P: EndPass<SpanData<A>>>(
        &mut self,
        pass: &mut P,
        call: SpanCall<A>,
    ) -> Result<Option<Ended>, OutOfMemory>
        ensures ok { OnOk result (Does (call_view call) self.old self.new) }
        ensures ignored { model.is_end (call_view call) ≡ false
            → IgnoredUnlessRecording self.old self.new }
        ensures err { OnErr result (self.new ≡ self.old) }
        ensures err_pass { OnErr result (pass.new ≡ pass.old) }
        ensures refused_only_where_kept { OnErr result
            (IsRecordingWith (CallTakesMemory (call_view call)) self.old.state) }
        ensures answered { IfOk result (λ answer. is_some answer ≡ model.is_end (call_view call)) }
        ensures asks_nothing { model.is_end (call_view call) ≡ false → pass.new ≡ pass.old }
        ensures ended { IfAnswered result (λ answer. self.new.state ≡ starts.ended) }
        ensures already_ended { self.old.state ≡ starts.ended
            → IfAnswered result (λ answer. Says Ended.AlreadyEnded pass.old answer pass.new) }
        ensures not_sampled { self.old.state ≢ starts.ended → goes_to_pass self.old ≡ false
            → IfAnswered result (λ answer. Says Ended.NotSampled pass.old answer pass.new) }
        ensures sampled { goes_to_pass self.old ≡ true → IfSome (model.end_of (call_view call))
            (λ at. IfAnswered result (λ answer. IsRecordingWith
            (λ r. Asks P.admits at r pass.old answer pass.new) self.old.state)) }
    {
        match call {
            SpanCall::End(at) => Ok(Some(self.end(pass, at))),
            call => {
                self.record_call(call)?;
                Ok(None)
            }
        }
    }

    /// Makes a call that is no end.
    fn record_call(&mut self, call: SpanCall<A>) -> Result<(), OutOfMemory>
        requires { model.is_end (call_view call) ≡ false }
        ensures ok { OnOk result (Does (call_view call) self.old self.new) }
        ensures ignored { IgnoredUnlessRecording self.old self.new }
        ensures err { OnErr result (self.new ≡ self.old) }
        ensures refused_only_where_kept { OnErr result
            (IsRecordingWith (CallTakesMemory (call_view call)) self.old.state) }
    {
        let State::Recording(record) = &mut self.state else {
            return Ok(());
        };
        record.call(call)
    }

    /// Adds an event at a moment, in nanoseconds since 1970, as `SpanRecord::add_event` (Trace API,
    /// "Add Events"). It is ignored where calls on the span don't count.
    ///
    /// # Errors
    ///
    /// `OutOfMemory` where an event that is to be kept could not be stored; the span is then
    /// unchanged.
    pub fn add_event(
        &mut self,
        name: String<A>,
        timestamp: u64,
        attributes: Vec<(String<A>, Value<A>), A>,
    ) -> Result<(), OutOfMemory>
        ensures ok { let call =
            model.add_event (string_bytes name) timestamp (attributes_view attributes.items) in
            OnOk result (Does call self.old self.new) }
        ensures ignored { IgnoredUnlessRecording self.old self.new }
        ensures err { OnErr result (self.new ≡ self.old) }
        ensures refused_only_where_kept { OnErr result
            (IsRecordingWith (λ r. KeepsOneMore r.limits.events r.span.events) self.old.state) }
    {
        self.record_call(SpanCall::AddEvent {
            name,
            timestamp,
            attributes,
        })
    }

    /// Adds an event for an exception, at a moment in nanoseconds since 1970, as
    /// `SpanRecord::record_exception` (Trace API, "Record Exception"). It is ignored where calls on
    /// the span don't count.
    ///
    /// # Errors
    ///
    /// `OutOfMemory` where an event that is to be kept could not be stored; the span is then
    /// unchanged.
    pub fn record_exception(
        &mut self,
        exception_type: String<A>,
        message: String<A>,
        stacktrace: String<A>,
        timestamp: u64,
        attributes: Vec<(String<A>, Value<A>), A>,
    ) -> Result<(), OutOfMemory>
        ensures ok { let call =
            model.record_exception (string_bytes exception_type) (string_bytes message)
            (string_bytes stacktrace) timestamp (attributes_view attributes.items) in
            OnOk result (Does call self.old self.new) }
        ensures ignored { IgnoredUnlessRecording self.old self.new }
        ensures err { OnErr result (self.new ≡ self.old) }
        ensures refused_only_where_kept { OnErr result
            (IsRecordingWith (λ r. KeepsOneMore r.limits.events r.span.events) self.old.state) }
    {
        self.record_call(SpanCall::RecordException {
            exception_type,
            message,
            stacktrace,
            timestamp,
            attributes,
        })
    }

    /// Links the span to another one, as `SpanRecord::add_link` (Trace API, "Add Link"). It is
    /// ignored where calls on the span don't count.
    ///
    /// # Errors
    ///
    /// `OutOfMemory` where a link that is to be kept could not be stored; the span is then
    /// unchanged.
    pub fn add_link(
        &mut self,
        span_context: SpanContext<A>,
        attributes: Vec<(String<A>, Value<A>), A>,
    ) -> Result<(), OutOfMemory>
        ensures ok { let call =
            model.add_link (context_view span_context) (attributes_view attributes.items) in
            OnOk result (Does call self.old self.new) }
        ensures ignored { IgnoredUnlessRecording self.old self.new }
        ensures err { OnErr result (self.new ≡ self.old) }
        ensures refused_only_where_kept { OnErr result
            (IsRecordingWith (λ r. KeepsOneMore r.limits.links r.span.links) self.old.state) }
        ensures says_something { OnErr result
            (model.is_ignored (context_view span_context)
            (attributes_view attributes.items) ≡ false) }
    {
        self.record_call(SpanCall::AddLink {
            span_context,
            attributes,
        })
    }
}
