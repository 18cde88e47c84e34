//! How the span of a thread is made.
ghost use Rattle.std.specs.Prelude.{◌≡◌, IfSome, false, true};
ghost use Rattle.model_span.specs.Sampling.{valid_parent};
ghost use Rattle.model_span.specs.Starts.{ids_words};
ghost use Rattle.otlp_ids.specs.SpanContext.{context_view, parent_view};
ghost use Rattle.otlp_ids.specs.WordStream.{Spends};
ghost use Rattle.otlp_span.specs.Parts.{kind_view};
ghost use Rattle.thread_tracer.specs.Made.{CarriesOn, IsCarried, StartsSpan, invalid_context};
ghost use Rattle.thread_tracer.specs.Making.{IsNotStarted, Makes};
ghost use Rattle.thread_tracer.specs.Threads.{maker_state};

use otlp_ids::{SpanContext, SpanId, TraceFlags, TraceId};
use otlp_sampler::Sampler;
use otlp_span::Kind;
use rand_core::Rng;
use std::alloc::Allocator;
use trace_api::{Clock, Span, Tracer};

/// What makes the spans of a thread.
#[derive(Drop)]
pub(crate) struct Maker<'a, S: Sampler, R, C, A: Allocator> {
    pub(crate) tracer: &'a Tracer<'a, S, A>,
    pub(crate) alloc: A,
    pub(crate) rng: R,
    pub(crate) clock: C,
}

/// What came of a start.
#[derive(Drop)]
pub(crate) enum Made<A: Allocator> {
    /// The span, and its context once more.
    Started(Span<A>, SpanContext<A>),
    /// The context in its place.
    NotStarted(SpanContext<A>),
}

/// The context of no span.
pub(crate) fn invalid<A: Allocator>(alloc: A) -> SpanContext<A>
    ensures { context_view result ≡ invalid_context }
{
    SpanContext {
        trace: TraceId([0; 16]),
        span: SpanId([0; 8]),
        flags: TraceFlags(0),
        remote: false,
        state: String::new(alloc),
    }
}

/// An equal context, without its trace state where there is no memory for that.
fn carried<A: Allocator + Copy>(alloc: A, context: &SpanContext<A>) -> SpanContext<A>
    ensures { IsCarried (context_view context.now) (context_view result) }
{
    match context.copy(alloc) {
        Ok(context) => context,
        Err(_) => SpanContext {
            trace: context.trace,
            span: context.span,
            flags: context.flags,
            remote: context.remote,
            state: String::new(alloc),
        },
    }
}

/// What a span without a context of its own carries on: the context of its parent, if it has one.
fn carried_on<A: Allocator + Copy>(alloc: A, parent: Option<&SpanContext<A>>) -> SpanContext<A>
    ensures { CarriesOn (parent_view parent.entry) (context_view result) }
{
    match parent {
        Some(context) if context.is_valid() => carried(alloc, context),
        _ => invalid(alloc),
    }
}

impl<'a, S: Sampler, R: Rng, C: Clock, A: Allocator + Copy> Maker<'a, S, R, C, A> {
    /// Starts a span now, and copies its context, unless memory or randomness is refused.
    fn start(
        &mut self,
        parent: Option<&SpanContext<A>>,
        name: &str,
        kind: Kind,
    ) -> Option<(Span<A>, SpanContext<A>)>
        ensures started { IfSome result (λ made. StartsSpan S.meaning R.stream C.tells
            (maker_state self.old) (parent_view parent.entry) name.now (kind_view kind) made.0) }
        ensures context { IfSome result (λ made. context_view made.1 ≡ made.0.context) }
        ensures spent { Spends (ids_words (valid_parent (parent_view parent.entry)))
            (R.stream self.old.rng) (R.stream self.new.rng) }
        ensures unchanged { self.new ≡ record self.old { rng = self.new.rng } }
    {
        let at = self.clock.now();
        let started = self
            .tracer
            .start_copied(self.alloc, &mut self.rng, parent, name, kind, at);
        let span = started.ok()?;
        let context = span.context().copy(self.alloc).ok()?;
        Some((span, context))
    }

    /// Makes a span now, where there is room for one more that is open.
    pub(crate) fn make(
        &mut self,
        has_room: bool,
        parent: Option<&SpanContext<A>>,
        name: &str,
        kind: Kind,
    ) -> Made<A>
        ensures made { Makes S.meaning R.stream C.tells (maker_state self.old)
            (parent_view parent.entry) name.now (kind_view kind) result (maker_state self.new) }
        ensures no_room { has_room ≡ false → IsNotStarted result }
        ensures unchanged { self.new ≡ record self.old { rng = self.new.rng } }
    {
        if !has_room {
            return Made::NotStarted(carried_on(self.alloc, parent));
        }
        match self.start(parent, name, kind) {
            Some((span, context)) => Made::Started(span, context),
            None => Made::NotStarted(carried_on(self.alloc, parent)),
        }
    }
}
