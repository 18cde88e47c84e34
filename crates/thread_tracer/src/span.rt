//! A span in the hands of a thread.
ghost use Rattle.std.specs.Prelude.{◌≡◌, ◌+◌, false};
ghost use Rattle.model_span.specs.Spans as model;
ghost use Rattle.model_span.specs.Starts.{is_recording_state};
ghost use Rattle.otlp_ids.specs.SpanContext.{context_view};
ghost use Rattle.trace_api.specs.Lent.{lent_pairs};
ghost use Rattle.thread_tracer.specs.Spans.{DoesOrLeavesOut, span_after};

use crate::count::one_more;
use otlp_ids::{OutOfMemory, SpanContext};
use std::alloc::{Allocator, Global};
use std::marker::Model;
use trace_api::{KeyValue, Span, SpanExt, ToValue};

/// A span of a thread, which its [`ThreadTracer`](crate::ThreadTracer) has started or couldn't
/// start (Trace API, "Span"). It has no `Drop`: a path on which it isn't handed to
/// [`ThreadTracer::end`](crate::ThreadTracer::end) doesn't compile.
///
/// None of its calls fails. A call for which memory is refused is left out and counted, and leaves
/// the span as it was. On a span that isn't recorded no call counts, and none is left out.
#[derive_where(Debug)]
pub struct ThreadSpan<A: Allocator = Global> {
    pub(crate) span: Span<A>,
    pub(crate) is_started: bool,
    pub(crate) left_out: u64,
}

impl<A: Allocator> Model for ThreadSpan<A> {
    ghost use Rattle.thread_tracer.specs.Spans.{SpanOfThread};

    ghost Value = { SpanOfThread };

    ghost view = { λ s. record {
      span = s.span;
      is_started = s.is_started;
      left_out = s.left_out;
    } };
}

impl<A: Allocator> ThreadSpan<A> {
    /// The span's context (Trace API, "Get Context"). Where the span was not started it is that of
    /// its parent, or an invalid one where it has none.
    pub fn context(&self) -> &SpanContext<A>
        ensures { context_view result.now ≡ self.now.span.context }
    {
        self.span.context()
    }

    /// Whether calls on the span count (Trace API, "IsRecording"): it was started, and its sampler
    /// hasn't dropped it.
    pub fn is_recording(&self) -> bool
        ensures { result ≡ is_recording_state self.now.span.state }
    {
        self.span.is_recording()
    }

    /// Whether the span was started. It wasn't where memory or randomness was refused.
    pub fn is_started(&self) -> bool
        ensures { result ≡ self.now.is_started }
    {
        self.is_started
    }

    /// How many calls on the span were left out, because memory was refused. The count stops at
    /// 2^64 - 1.
    pub fn left_out(&self) -> u64
        ensures { result ≡ self.now.left_out }
    {
        self.left_out
    }

    /// Counts a call that was refused.
    fn count(&mut self, done: Result<(), OutOfMemory>)
        ensures { self.new ≡ span_after done self.old }
    {
        match done {
            Ok(()) => {}
            Err(OutOfMemory) => self.left_out = one_more(self.left_out),
        }
    }
}

impl<A: Allocator + Copy> ThreadSpan<A> {
    /// Sets an attribute, as `SpanExt::set` (Trace API, "Set Attributes"). A whole number that
    /// doesn't fit 64 bits with a sign is set as its decimal text (profile).
    pub fn set<V: ToValue>(&mut self, key: &str, value: V)
        ensures called { DoesOrLeavesOut
            (model.set_attribute (record { key = key.now; value = V.value value }))
            self.old self.new }
        ensures ignored { is_recording_state self.old.span.state ≡ false → self.new ≡ self.old }
    {
        let done = self.span.set(key, value);
        self.count(done);
    }

    /// Adds an event at a moment, in nanoseconds since 1970, as `SpanExt::event` (Trace API, "Add
    /// Events"). [`ThreadTracer::now`](crate::ThreadTracer::now) gives the moment now.
    pub fn event(&mut self, name: &str, timestamp: u64, pairs: &[KeyValue<'_>])
        ensures called { DoesOrLeavesOut
            (model.add_event name.now timestamp (lent_pairs pairs.now)) self.old self.new }
        ensures ignored { is_recording_state self.old.span.state ≡ false → self.new ≡ self.old }
    {
        let done = self.span.event(name, timestamp, pairs);
        self.count(done);
    }

    /// Adds an event for an exception at a moment, in nanoseconds since 1970, as
    /// `SpanExt::exception` (Trace API, "Record Exception"). Its type, its message and its stack
    /// trace are left out where they are empty.
    pub fn exception(
        &mut self,
        exception_type: &str,
        message: &str,
        stacktrace: &str,
        timestamp: u64,
        pairs: &[KeyValue<'_>],
    )
        ensures called { DoesOrLeavesOut (model.record_exception exception_type.now message.now
            stacktrace.now timestamp (lent_pairs pairs.now)) self.old self.new }
        ensures ignored { is_recording_state self.old.span.state ≡ false → self.new ≡ self.old }
    {
        let done = self
            .span
            .exception(exception_type, message, stacktrace, timestamp, pairs);
        self.count(done);
    }

    /// Links the span to another one, as `SpanExt::link` (Trace API, "Add Link").
    pub fn link<B: Allocator>(&mut self, context: &SpanContext<B>, pairs: &[KeyValue<'_>])
        ensures called { DoesOrLeavesOut
            (model.add_link (context_view context.now) (lent_pairs pairs.now))
            self.old self.new }
        ensures ignored { is_recording_state self.old.span.state ≡ false → self.new ≡ self.old }
    {
        let done = self.span.link(context, pairs);
        self.count(done);
    }

    /// Sets the status Error with this description, as `SpanExt::set_error` (Trace API, "Set
    /// Status"). It is ignored where the status is Ok.
    pub fn set_error(&mut self, description: &str)
        ensures called { DoesOrLeavesOut (model.set_status (model.error description.now))
            self.old self.new }
        ensures ignored { is_recording_state self.old.span.state ≡ false → self.new ≡ self.old }
    {
        let done = self.span.set_error(description);
        self.count(done);
    }

    /// Replaces the span's name, as `SpanExt::rename` (Trace API, "UpdateName").
    pub fn rename(&mut self, name: &str)
        ensures called { DoesOrLeavesOut (model.update_name name.now) self.old self.new }
        ensures ignored { is_recording_state self.old.span.state ≡ false → self.new ≡ self.old }
    {
        let done = self.span.rename(name);
        self.count(done);
    }
}
