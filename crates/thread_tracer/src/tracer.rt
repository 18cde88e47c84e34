//! What a thread makes its spans with.
ghost use Rattle.std.specs.Prelude.{◌≡◌, ◌<◌, None, Some, [], length, slice_get};
ghost use Rattle.otlp_ids.specs.SpanContext.{context_view, parent_view};
ghost use Rattle.otlp_span.specs.Parts.{kind_view};
ghost use Rattle.thread_tracer.specs.Keeping.{Keeps, NeedsRoom};
ghost use Rattle.thread_tracer.specs.Threads.{EndsSpan, StartsOrCounts, thread_state};

use crate::count::{both, one_more};
use crate::made::{Made, Maker, invalid};
use crate::open_spans::OpenSpans;
use crate::span::ThreadSpan;
use otlp_ids::SpanContext;
use otlp_sampler::Sampler;
use otlp_span::{Kind, SpanData};
use rand_core::Rng;
use std::alloc::{Allocator, Global};
use trace_api::{Clock, EndPass, Ended, Span, Tracer};

/// What was refused to a thread's spans. Each count stops at 2^64 - 1.
#[derive(Debug, Clone, Copy, PartialEq, Eq)]
pub struct Refused {
    /// How many spans were not started, because memory or randomness was refused.
    pub not_started: u64,
    /// How many calls on spans that have ended were left out, because memory was refused.
    pub left_out: u64,
}

/// What a thread makes its spans with: a tracer, memory, a generator of identifiers, a clock, and
/// the pass on which the spans end. None of its calls fails.
///
/// It knows the spans that were started and haven't ended, so [`ThreadTracer::start`] starts a
/// child of the newest of them, as implicit contexts do elsewhere (Trace API, "Context
/// interaction"; by thread: profile).
#[derive(Drop)]
pub struct ThreadTracer<'a, S: Sampler, R, C, P, A: Allocator = Global> {
    maker: Maker<'a, S, R, C, A>,
    open_spans: OpenSpans<A>,
    pass: &'a mut P,
    refused: Refused,
}

impl<'a, S: Sampler, R, C, P, A: Allocator + Copy> ThreadTracer<'a, S, R, C, P, A> {
    /// A tracer that has started no span yet. Its spans are started by this tracer, on this memory,
    /// with identifiers of this generator and at moments of this clock, and end on the pass. It
    /// takes no memory.
    pub fn new(
        tracer: &'a Tracer<'a, S, A>,
        alloc: A,
        rng: R,
        clock: C,
        pass: &'a mut P,
    ) -> ThreadTracer<'a, S, R, C, P, A>
        ensures same_pass { result.pass.ghost_name ≡ pass.entry.ghost_name }
        ensures state { thread_state result ≡ record {
          maker = record { tracer = tracer.now; rng = rng; clock = clock };
          pass = pass.old;
          open_spans = [];
          not_started = 0;
          left_out = 0;
        } }
    {
        ThreadTracer {
            maker: Maker {
                tracer,
                alloc,
                rng,
                clock,
            },
            open_spans: OpenSpans::new(alloc),
            pass,
            refused: Refused {
                not_started: 0,
                left_out: 0,
            },
        }
    }

    /// What was refused so far. Calls that were left out of a span that hasn't ended aren't
    /// counted yet: the span itself counts them.
    pub fn refused(&self) -> Refused
        ensures not_started { result.not_started ≡ (thread_state self.now).not_started }
        ensures left_out { result.left_out ≡ (thread_state self.now).left_out }
    {
        self.refused
    }

    /// The context of the current span, if there is one: the newest that was started and hasn't
    /// ended.
    pub fn current(&self) -> Option<&SpanContext<A>>
        ensures { parent_view result ≡ slice_get (thread_state self.now).open_spans 0 }
    {
        self.open_spans.newest()
    }

    /// The span that was made so, which is now the newest; or one that isn't recorded, which is
    /// counted.
    fn keep(&mut self, made: Made<A>) -> ThreadSpan<A>
        requires { NeedsRoom made (length self.old.open_spans.contexts < self.old.open_spans.room) }
        ensures same_pass { self.new.pass.ghost_name ≡ self.old.pass.ghost_name }
        ensures kept { Keeps made (thread_state self.old) result (thread_state self.new) }
    {
        match made {
            Made::Started(span, context) => {
                self.open_spans.push(context);
                ThreadSpan {
                    span,
                    is_started: true,
                    left_out: 0,
                }
            }
            Made::NotStarted(context) => {
                self.refused.not_started = one_more(self.refused.not_started);
                ThreadSpan {
                    span: Span::not_recording(context),
                    is_started: false,
                    left_out: 0,
                }
            }
        }
    }
}

impl<'a, S, R, C, P, A> ThreadTracer<'a, S, R, C, P, A>
where
    S: Sampler,
    C: Clock,
    A: Allocator + Copy,
{
    /// The moment now of the thread's clock, in nanoseconds since 1970.
    pub fn now(&self) -> u64
        ensures { C.tells (thread_state self.now).maker.clock result }
    {
        self.maker.clock.now()
    }

    /// Ends a span now (Trace API, "End"). Where it is recorded and sampled it is handed to the
    /// pass, whose answer it gives; else the answer is `NotSampled`, and the pass isn't asked. It
    /// is no longer open, whatever spans were started after it. It takes no memory of its own.
    ///
    /// The calls on the span that were left out are counted.
    pub fn end(&mut self, span: ThreadSpan<A>) -> Ended
    where
        P: EndPass<SpanData<A>>,
        ensures same_pass { self.new.pass.ghost_name ≡ self.old.pass.ghost_name }
        ensures ended { EndsSpan C.tells P.admits span (thread_state self.old) result
            (thread_state self.new) }
    {
        let at = self.maker.clock.now();
        let ThreadSpan {
            mut span,
            is_started,
            left_out,
        } = span;
        self.open_spans.remove_started(is_started, span.context());
        self.refused.left_out = both(self.refused.left_out, left_out);
        span.end(self.pass, at)
    }
}

impl<'a, S, R, C, P, A> ThreadTracer<'a, S, R, C, P, A>
where
    S: Sampler,
    R: Rng,
    C: Clock,
    A: Allocator + Copy,
{
    /// Starts a span now (Trace API, "Span Creation"): a child of the current span, or a root where
    /// there is none. It is the current one from then on, until it ends.
    ///
    /// Where memory or randomness is refused the span isn't recorded, and is counted. It carries on
    /// the context of its parent, so its children are children of that; without memory for the
    /// parent's trace state, it carries on the context without it.
    pub fn start(&mut self, name: &str, kind: Kind) -> ThreadSpan<A>
        ensures same_pass { self.new.pass.ghost_name ≡ self.old.pass.ghost_name }
        ensures started { let parent = slice_get (thread_state self.old).open_spans 0 in
            StartsOrCounts S.meaning R.stream C.tells parent name.now (kind_view kind)
            (thread_state self.old) result (thread_state self.new) }
    {
        let has_room = self.open_spans.has_room();
        let made = self
            .maker
            .make(has_room, self.open_spans.newest(), name, kind);
        self.keep(made)
    }

    /// Starts a child of this span now, as `start`. Where that span was not started, it is a child
    /// of the context that it carries on.
    pub fn child(&mut self, parent: &ThreadSpan<A>, name: &str, kind: Kind) -> ThreadSpan<A>
        ensures same_pass { self.new.pass.ghost_name ≡ self.old.pass.ghost_name }
        ensures started { StartsOrCounts S.meaning R.stream C.tells
            (Some parent.now.span.context) name.now (kind_view kind)
            (thread_state self.old) result (thread_state self.new) }
    {
        self.start_in(Some(parent.context()), name, kind)
    }

    /// Starts a root now, as `start`, whatever span is the current one.
    pub fn root(&mut self, name: &str, kind: Kind) -> ThreadSpan<A>
        ensures same_pass { self.new.pass.ghost_name ≡ self.old.pass.ghost_name }
        ensures started { StartsOrCounts S.meaning R.stream C.tells
            None name.now (kind_view kind)
            (thread_state self.old) result (thread_state self.new) }
    {
        // An invalid parent counts as none.
        let none = invalid(self.maker.alloc);
        self.start_in(Some(&none), name, kind)
    }

    /// Starts a child of this context now, as `start`: of what came in with a request, whose
    /// context is remote, or of a span of another thread. Where the context is invalid, it starts a
    /// root.
    pub fn with_remote(&mut self, context: &SpanContext<A>, name: &str, kind: Kind) -> ThreadSpan<A>
        ensures same_pass { self.new.pass.ghost_name ≡ self.old.pass.ghost_name }
        ensures started { StartsOrCounts S.meaning R.stream C.tells
            (Some (context_view context.now)) name.now (kind_view kind)
            (thread_state self.old) result (thread_state self.new) }
    {
        self.start_in(Some(context), name, kind)
    }

    /// Starts a child of this parent now, or a root where there is none.
    fn start_in(&mut self, parent: Option<&SpanContext<A>>, name: &str, kind: Kind) -> ThreadSpan<A>
        ensures same_pass { self.new.pass.ghost_name ≡ self.old.pass.ghost_name }
        ensures started { StartsOrCounts S.meaning R.stream C.tells
            (parent_view parent.entry) name.now (kind_view kind)
            (thread_state self.old) result (thread_state self.new) }
    {
        let has_room = self.open_spans.has_room();
        let made = self.maker.make(has_room, parent, name, kind);
        self.keep(made)
    }
}
