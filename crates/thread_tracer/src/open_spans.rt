//! The spans of a thread that are open.
ghost use Rattle.std.specs.Prelude.{◌≡◌, ◌<◌, [], ◌∷◌, IfSome, length, position, remove, slice_get, true};
ghost use Rattle.std.specs.VecDeque.{deque_len};
ghost use Rattle.otlp_ids.specs.SpanContext.{context_view, parent_view};
ghost use Rattle.thread_tracer.specs.Open.{is_same_span, open_after, without_span};

use otlp_ids::SpanContext;
use std::alloc::Allocator;
use std::collections::VecDeque;
use std::marker::Model;

/// The contexts of the spans that were started and haven't ended, the newest first.
#[derive(Drop)]
pub(crate) struct OpenSpans<A: Allocator> {
    contexts: VecDeque<SpanContext<A>, A>,
}

impl<A: Allocator> Model for OpenSpans<A> {
    ghost use Rattle.std.specs.Prelude.{map};
    ghost use Rattle.std.specs.VecDeque.{deque_capacity};
    ghost use Rattle.otlp_ids.specs.SpanContext.{context_view};
    ghost use Rattle.thread_tracer.specs.Open.{OpenContexts};

    ghost Value = { OpenContexts };

    ghost view = { λ s. record {
      contexts = map context_view s.contexts.items;
      room = deque_capacity s.contexts;
    } };
}

/// Whether both are contexts of one span.
fn is_same_span<A: Allocator>(a: &SpanContext<A>, b: &SpanContext<A>) -> bool
    ensures { result ≡ is_same_span (context_view a.now) (context_view b.now) }
{
    a.trace == b.trace && a.span == b.span
}

/// Where the first context of this span is, if there is one.
fn place_in<A: Allocator>(
    contexts: &VecDeque<SpanContext<A>, A>,
    span: &SpanContext<A>,
) -> Option<usize>
    ensures value { result ≡ position (λ context. is_same_span (context_view span.now)
        (context_view context)) contexts.now.items }
    ensures bound { IfSome result (λ place. place < deque_len contexts.now) }
{
    contexts
        .iter()
        .position(|context| is_same_span(span, context))
}

/// Takes the context at this place out.
fn take_out<A: Allocator>(contexts: &mut VecDeque<SpanContext<A>, A>, place: usize)
    requires { place < deque_len contexts.old }
    ensures { contexts.new.items ≡ remove contexts.old.items place }
{
    contexts.remove(place);
}

impl<A: Allocator> OpenSpans<A> {
    /// None. It takes no memory.
    pub(crate) fn new(alloc: A) -> OpenSpans<A>
        ensures { result.contexts ≡ [] }
    {
        OpenSpans {
            contexts: VecDeque::new(alloc),
        }
    }

    /// Takes room for one more, if there is memory for it.
    pub(crate) fn has_room(&mut self) -> bool
        ensures contexts { self.new.contexts ≡ self.old.contexts }
        ensures room { result ≡ true → length self.new.contexts < self.new.room }
    {
        self.contexts.reserve(1).is_ok()
    }

    /// The context of the newest, if there is one.
    pub(crate) fn newest(&self) -> Option<&SpanContext<A>>
        ensures { parent_view result ≡ slice_get self.now.contexts 0 }
    {
        self.contexts.front()
    }

    /// One more, for which there is room.
    pub(crate) fn push(&mut self, context: SpanContext<A>)
        requires { length self.old.contexts < self.old.room }
        ensures { self.new.contexts ≡ context_view context ∷ self.old.contexts }
    {
        self.contexts.push_front_reserved(context);
    }

    /// Takes the newest one of this span out, if it has one.
    fn remove(&mut self, span: &SpanContext<A>)
        ensures { self.new.contexts
            ≡ without_span (context_view span.now) self.old.contexts }
    {
        match place_in(&self.contexts, span) {
            Some(place) => take_out(&mut self.contexts, place),
            None => {}
        }
    }

    /// The same where a span was started, and nothing where it wasn't.
    pub(crate) fn remove_started(&mut self, is_started: bool, span: &SpanContext<A>)
        ensures { self.new.contexts
            ≡ open_after is_started (context_view span.now) self.old.contexts }
    {
        if is_started {
            self.remove(span);
        }
    }
}
