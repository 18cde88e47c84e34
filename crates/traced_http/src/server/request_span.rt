//! The span of a request in the hands of a handler.

ghost use Rattle.std.specs.Prelude.{◌≡◌, ℕ, Option, true};
ghost use Rattle.model_span.specs.Spans as model;
ghost use Rattle.model_span.specs.Starts.{HeldSpan};
ghost use Rattle.otlp_ids.specs.SpanContext.{context_view, parent_view};
ghost use Rattle.std.specs.Prelude.{option_map};
ghost use Rattle.trace_api.specs.Lent.{lent_pairs};
ghost use Rattle.traced_http.specs.RequestSpans.{CallsSpan, left_out_after};

use otlp_ids::{OutOfMemory, SpanContext};
use std::alloc::Allocator;
use std::marker::{Brand, Model, PhantomData};
use trace_api::{KeyValue, Span, SpanExt, ToValue};

/// Which span a [`RequestSpan`] is, for proofs alone: a handler is written for each, so none can
/// put another span in the place of the one that it was lent. No program implements it.
pub trait Origin {
    /// The span of the request when it was lent, if it has one.
    ghost origin: { Option HeldSpan };
}

impl Origin for Brand {
    ghost use Rattle.std.specs.Prelude.{None};

    ghost origin = { None };
}

/// The span of a request in the hands of its handler (Trace API, "Span"). It is the current one
/// while the handler works: [`RequestSpan::context`] is the parent of the handler's own spans. The
/// handler can't end it: the service does, once, when the response is there.
///
/// None of its calls fails. A call for which memory is refused is left out and counted, and leaves
/// the span as it was. On a span that isn't recorded no call counts, and none is left out; nor is
/// one where the request has no span.
#[derive(Drop)]
pub struct RequestSpan<O: Origin> {
    pub(crate) span: Option<Span>,
    pub(crate) left_out: u64,
    pub(crate) origin: PhantomData<O>,
}

impl<O: Origin> Model for RequestSpan<O> {
    ghost use Rattle.traced_http.specs.RequestSpans.{GoesOnIfAny, LentSpan};

    ghost Value = { LentSpan };

    ghost view = { λ s. record { span = s.span; left_out = s.left_out } };

    ghost invariant = { λ s. GoesOnIfAny O.origin s.span };
}

/// How many calls were left out after this one.
fn count(left_out: u64, done: Result<(), OutOfMemory>) -> u64
    ensures { result ≡ left_out_after done left_out }
{
    match done {
        Ok(()) => left_out,
        Err(OutOfMemory) => left_out.saturating_add(1),
    }
}

impl<O: Origin> RequestSpan<O> {
    /// The span's context (Trace API, "Get Context"), for spans of the handler's own, which are its
    /// children, and for requests to others. There is none where the request has no span, for lack
    /// of memory or of randomness.
    pub fn context(&self) -> Option<&SpanContext>
        ensures { parent_view result ≡ option_map (λ span. span.context) self.now.span }
    {
        match &self.span {
            Some(span) => Some(span.context()),
            None => None,
        }
    }

    /// How many calls on the span were left out so far, because memory was refused. The count stops
    /// at 2^64 - 1.
    pub fn left_out(&self) -> u64
        ensures { result ≡ self.now.left_out }
    {
        self.left_out
    }

    /// Sets an attribute, as `SpanExt::set` (Trace API, "Set Attributes").
    #[tactic(auto, using(crate::proofs::GoesOn::goes_on, crate::proofs::GoesOn::calls_span))]
    pub fn set<V: ToValue>(&mut self, key: &str, value: V)
        ensures { CallsSpan (model.set_attribute (record { key = key.now; value = V.value value }))
            self.old self.new }
    {
        let Some(span) = &mut self.span else {
            return;
        };
        let done = span.set(key, value);
        self.left_out = count(self.left_out, done);
    }

    /// Adds an event at a moment, in nanoseconds since 1970, as `SpanExt::event` (Trace API, "Add
    /// Events").
    #[tactic(auto, using(crate::proofs::GoesOn::goes_on, crate::proofs::GoesOn::calls_span))]
    pub fn event(&mut self, name: &str, timestamp: u64, pairs: &[KeyValue<'_>])
        ensures { CallsSpan (model.add_event name.now timestamp (lent_pairs pairs.now))
            self.old self.new }
    {
        let Some(span) = &mut self.span else {
            return;
        };
        let done = span.event(name, timestamp, pairs);
        self.left_out = count(self.left_out, done);
    }

    /// Adds an event for an exception at a moment, in nanoseconds since 1970, as
    /// `SpanExt::exception` (Trace API, "Record Exception"). Its type, its message and its stack
    /// trace are left out where they are empty.
    #[tactic(auto, using(crate::proofs::GoesOn::goes_on, crate::proofs::GoesOn::calls_span))]
    pub fn exception(
        &mut self,
        exception_type: &str,
        message: &str,
        stacktrace: &str,
        timestamp: u64,
        pairs: &[KeyValue<'_>],
    )
        ensures { CallsSpan (model.record_exception exception_type.now message.now
            stacktrace.now timestamp (lent_pairs pairs.now)) self.old self.new }
    {
        let Some(span) = &mut self.span else {
            return;
        };
        let done = span.exception(exception_type, message, stacktrace, timestamp, pairs);
        self.left_out = count(self.left_out, done);
    }

    /// Links the span to another one, as `SpanExt::link` (Trace API, "Add Link").
    #[tactic(auto, using(crate::proofs::GoesOn::goes_on, crate::proofs::GoesOn::calls_span))]
    pub fn link<B: Allocator>(&mut self, context: &SpanContext<B>, pairs: &[KeyValue<'_>])
        ensures { CallsSpan (model.add_link (context_view context.now) (lent_pairs pairs.now))
            self.old self.new }
    {
        let Some(span) = &mut self.span else {
            return;
        };
        let done = span.link(context, pairs);
        self.left_out = count(self.left_out, done);
    }

    /// Sets the status Error with this description, as `SpanExt::set_error` (Trace API, "Set
    /// Status"). It is ignored where the status is Ok. A status from 500 to 599 of the response
    /// sets Error after it, without a description.
    #[tactic(auto, using(crate::proofs::GoesOn::goes_on, crate::proofs::GoesOn::calls_span))]
    pub fn set_error(&mut self, description: &str)
        ensures { CallsSpan (model.set_status (model.error description.now)) self.old self.new }
    {
        let Some(span) = &mut self.span else {
            return;
        };
        let done = span.set_error(description);
        self.left_out = count(self.left_out, done);
    }

    /// Replaces the span's name, as `SpanExt::rename` (Trace API, "UpdateName").
    #[tactic(auto, using(crate::proofs::GoesOn::goes_on, crate::proofs::GoesOn::calls_span))]
    pub fn rename(&mut self, name: &str)
        ensures { CallsSpan (model.update_name name.now) self.old self.new }
    {
        let Some(span) = &mut self.span else {
            return;
        };
        let done = span.rename(name);
        self.left_out = count(self.left_out, done);
    }
}
