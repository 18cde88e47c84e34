//! What a thread makes its spans with, whatever its parts are.
ghost use Rattle.std.specs.Prelude.{◌≡◌, ℕ, List, None, Option, Some};
ghost use Rattle.model_span.specs.Spans.{Context};
ghost use Rattle.model_span.specs.Spans.{Kind as KindView};
ghost use Rattle.otlp_ids.specs.SpanContext.{context_view, parent_view};
ghost use Rattle.otlp_span.specs.Parts.{kind_view};
ghost use Rattle.trace_api.specs.declared.pass.Ended.{Ended as EndedView};
ghost use Rattle.thread_tracer.specs.Spans.{SpanOfThread};
ghost use Rattle.thread_tracer.specs.declared.tracer.Refused.{Refused as RefusedView};

use crate::span::ThreadSpan;
use crate::tracer::{Refused, ThreadTracer};
use otlp_ids::SpanContext;
use otlp_sampler::Sampler;
use otlp_span::{Kind, SpanData};
use rand_core::Rng;
use std::alloc::Global;
use trace_api::{Clock, EndPass, Ended};

/// What a thread makes its spans with: the calls of a [`ThreadTracer`], without the names of its
/// parts. A function that makes spans takes a `&mut impl ThreadTrace`.
pub trait ThreadTrace {
    /// The context of the current span, if there is one.
    ghost current: { Self → Option Context };

    /// What a start may come to: the parent, the name, the kind, this value before, the span, and
    /// this value after.
    ghost starts: { Option Context → List ℕ → KindView → Self → SpanOfThread → Self → Type 0 };

    /// What an end may come to: the span, this value before, the answer, and this value after.
    ghost ends: { SpanOfThread → Self → EndedView → Self → Type 0 };

    /// The moments that the thread's clock may tell.
    ghost tells: { Self → ℕ → Type 0 };

    /// What was refused so far.
    ghost refused: { Self → RefusedView };

    /// As [`ThreadTracer::start`].
    fn start(&mut self, name: &str, kind: Kind) -> ThreadSpan
        ensures { starts (current self.old) name.now (kind_view kind) self.old result self.new };

    /// As [`ThreadTracer::child`].
    fn child(&mut self, parent: &ThreadSpan, name: &str, kind: Kind) -> ThreadSpan
        ensures { starts (Some parent.now.span.context) name.now (kind_view kind) self.old result
            self.new };

    /// As [`ThreadTracer::root`].
    fn root(&mut self, name: &str, kind: Kind) -> ThreadSpan
        ensures { starts None name.now (kind_view kind) self.old result self.new };

    /// As [`ThreadTracer::with_remote`].
    fn with_remote(&mut self, context: &SpanContext, name: &str, kind: Kind) -> ThreadSpan
        ensures { starts (Some (context_view context.now)) name.now (kind_view kind) self.old result
            self.new };

    /// As [`ThreadTracer::end`].
    fn end(&mut self, span: ThreadSpan) -> Ended
        ensures { ends span self.old result self.new };

    /// As [`ThreadTracer::now`].
    fn now(&self) -> u64
        ensures { tells self.now result };

    /// As [`ThreadTracer::current`].
    fn current(&self) -> Option<&SpanContext>
        ensures { parent_view result ≡ current self.now };

    /// As [`ThreadTracer::refused`].
    fn refused(&self) -> Refused
        ensures { result ≡ refused self.now };
}

impl<'a, S, R, C, P> ThreadTrace for ThreadTracer<'a, S, R, C, P>
where
    S: Sampler,
    R: Rng,
    C: Clock,
    P: EndPass<SpanData>,
{
    ghost use Rattle.std.specs.Prelude.{slice_get};
    ghost use Rattle.thread_tracer.specs.Threads.{EndsSpan, StartsOrCounts, thread_state};

    ghost current = { λ t. slice_get (thread_state t).open_spans 0 };

    ghost starts = { λ parent name kind old span new. StartsOrCounts S.meaning R.stream C.tells
        parent name kind (thread_state old) span (thread_state new) };

    ghost ends = { λ span old answer new. EndsSpan C.tells P.admits span (thread_state old) answer
        (thread_state new) };

    ghost tells = { λ t at. C.tells (thread_state t).maker.clock at };

    ghost refused = { λ t. record {
      not_started = (thread_state t).not_started;
      left_out = (thread_state t).left_out;
    } };

    fn start(&mut self, name: &str, kind: Kind) -> ThreadSpan {
        ThreadTracer::start(self, name, kind)
    }

    fn child(&mut self, parent: &ThreadSpan, name: &str, kind: Kind) -> ThreadSpan {
        ThreadTracer::child(self, parent, name, kind)
    }

    fn root(&mut self, name: &str, kind: Kind) -> ThreadSpan {
        ThreadTracer::root(self, name, kind)
    }

    fn with_remote(&mut self, context: &SpanContext, name: &str, kind: Kind) -> ThreadSpan {
        ThreadTracer::with_remote(self, context, name, kind)
    }

    fn end(&mut self, span: ThreadSpan) -> Ended {
        ThreadTracer::end(self, span)
    }

    fn now(&self) -> u64 {
        ThreadTracer::now(self)
    }

    fn current(&self) -> Option<&SpanContext> {
        ThreadTracer::current(self)
    }

    fn refused(&self) -> Refused {
        ThreadTracer::refused(self)
    }
}
