//! The spans that a program has started.
ghost use Rattle.std.specs.Prelude.{◌≡◌, ◌+◌, ◌<◌, [], IfOk, IfSome, List, OnErr, OnOk, false};
ghost use Rattle.std.specs.Prelude.{length, map, option_map, slice_get, true};
ghost use Rattle.std.specs.Vec.{vec_capacity};
ghost use Rattle.model_span.specs.Spans.{end_of, is_end};
ghost use Rattle.model_span.specs.Starts.{Does};
ghost use Rattle.model_run.specs.History.{SpanStep, Setup};
ghost use Rattle.model_run.specs.Steps as program;
ghost use Rattle.model_run.specs.Answers.{has_text};
ghost use Rattle.model_run.specs.Runs.{is_refused};
ghost use Rattle.otlp_ids.specs.SpanContext.{parent_view};
ghost use Rattle.otlp_ids.specs.WordStream.{words_of};
ghost use Rattle.otlp_span.specs.Parts.{call_view, kind_view, scope_view};
ghost use Rattle.trace_run.specs.Answers.{answer_view};
ghost use Rattle.trace_run.specs.Steps.{parent_name_view};
ghost use Rattle.trace_run.specs.Table.{IsTable, TakesStep, answer_to_call, answer_to_start};
ghost use Rattle.trace_run.specs.Table.{calls_so_far, parent_in, setup_with, span_numbered};
ghost use Rattle.trace_run.specs.Table.{tracers_of};
ghost use Rattle.trace_run.specs.Calls.{CallsAmong, EndsSpan, MadeAs};
ghost use Rattle.trace_run.specs.Ends.{EndsAs};
ghost use Rattle.trace_run.specs.Opens.{Opens};

use crate::{Answer, Parent};
use otlp_ids::{OutOfMemory, SpanContext};
use otlp_sampler::Sampler;
use otlp_span::{Kind, Scope, SpanCall, SpanData};
use rand_core::Rng;
use std::alloc::{Allocator, Global};
use std::fmt;
use std::marker::Model;
use std::sync::Arc;
use trace_api::{EndPass, Provider, Span, StartFault, Tracer};

/// The spans that a program has started, numbered from 0 on by its starts, those too that give no
/// span (Trace API, "Span Creation", "Span operations"). It takes the steps that are for spans, and
/// answers each.
#[derive(Drop)]
pub struct SpanTable<'a, S: Sampler, R: Rng, A: Allocator + Copy = Global> {
    alloc: A,
    tracers: Vec<Tracer<'a, S, A>, A>,
    rng: R,
    spans: Vec<Option<Span<A>>, A>,
}

impl<'a, S: Sampler, R: Rng, A: Allocator + Copy> Model for SpanTable<'a, S, R, A> {
    ghost use Rattle.std.specs.Vec.{vec_capacity};
    ghost use Rattle.trace_run.specs.Table.{TableWith};

    ghost Value = { TableWith S R };

    ghost view = { λ t. record {
      tracers = t.tracers.items;
      rng = t.rng;
      spans = t.spans.items;
      room = vec_capacity t.spans;
    } };
}

/// Writes how many tracers and spans there are.
impl<S: Sampler, R: Rng, A: Allocator + Copy> fmt::Debug for SpanTable<'_, S, R, A> {
    fn fmt<W: fmt::Write>(&self, f: &mut fmt::Formatter<W>) -> fmt::Result {
        f.debug_struct("SpanTable")
            .field("tracers", &self.tracers.len())
            .field("spans", &self.spans.len())
            .finish_non_exhaustive()
    }
}

impl<'a, S: Sampler, R: Rng + Drop, A: Allocator + Copy> SpanTable<'a, S, R, A> {
    /// No span has started yet. There is a tracer of the provider for each scope, and room for this
    /// number of starts; identifiers are drawn from `rng`.
    ///
    /// # Errors
    ///
    /// `OutOfMemory` where the tracers or this room can't be had.
    pub fn new(
        alloc: A,
        provider: &'a Provider<S, A>,
        scopes: Vec<Scope<A>, A>,
        rng: R,
        room: usize,
    ) -> Result<SpanTable<'a, S, R, A>, OutOfMemory>
        ensures table { let setup = setup_with S.meaning (words_of (R.stream rng)) provider.now
            (map scope_view scopes.items) in
            IfOk result (IsTable S.meaning R.stream setup []) }
        ensures empty { IfOk result (λ table. table.spans ≡ []) }
        ensures room { IfOk result (λ table. table.room ≡ room) }
    {
        Ok(SpanTable {
            alloc,
            tracers: tracers(alloc, provider, scopes)?,
            rng,
            spans: Vec::with_capacity(alloc, room)?,
        })
    }
}

impl<'a, S: Sampler, R: Rng, A: Allocator + Copy> SpanTable<'a, S, R, A> {
    /// Starts the next span, in the scope of this number and at a moment in nanoseconds since 1970,
    /// as `Tracer::start_copied`. The name is copied only where the span is recorded.
    ///
    /// The answer is `Started` with the span's identifiers; `NoSpan` where the scope or the parent
    /// isn't there, and no word is drawn then; `NoRandomness` where eight draws of an identifier
    /// were all zero; `OutOfMemory` where there is no room for the span. Without a span too the
    /// start has its number, and the words that were drawn are spent.
    pub fn start(
        &mut self,
        scope: u32,
        parent: &Parent<A>,
        kind: Kind,
        at: u64,
        name: &str,
    ) -> Answer
        requires { length self.old.spans < self.old.room }
        ensures answered { let parent = parent_name_view parent.now in
            let answer = answer_view result in
            (setup : Setup) (steps : List SpanStep)
            → IsTable S.meaning R.stream setup steps self.old
            → answer ≡ answer_to_start setup steps (is_refused answer) scope parent
            (kind_view kind) at name.now }
        ensures table { let step = program.start scope (parent_name_view parent.now)
            (kind_view kind) at name.now in
            TakesStep S.meaning R.stream step (answer_view result) self.old self.new }
        ensures one_more { length self.new.spans ≡ length self.old.spans + 1 }
        ensures room { self.new.room ≡ self.old.room }
    {
        match self.open(scope, parent, kind, at, name) {
            Ok(span) => {
                let answer = Answer::Started {
                    trace: span.context().trace,
                    span: span.context().span,
                };
                self.spans.push_reserved(Some(span));
                answer
            }
            Err(answer) => {
                self.spans.push_reserved(None);
                answer
            }
        }
    }

    /// The span that starts, or the answer that there is none.
    fn open(
        &mut self,
        scope: u32,
        parent: &Parent<A>,
        kind: Kind,
        at: u64,
        name: &str,
    ) -> Result<Span<A>, Answer>
        ensures { Opens S.meaning R.stream scope (parent_name_view parent.now) (kind_view kind) at
            name.now self.old result self.new }
    {
        let Some(tracer) = self.tracers.get(scope as usize) else {
            return Err(Answer::NoSpan);
        };
        let Some(parent) = parent_context(self.spans.as_slice(), parent) else {
            return Err(Answer::NoSpan);
        };
        match tracer.start_copied(self.alloc, &mut self.rng, parent, name, kind, at) {
            Ok(span) => Ok(span),
            Err(StartFault::NoRandomness) => Err(Answer::NoRandomness),
            Err(StartFault::OutOfMemory) => Err(Answer::OutOfMemory),
        }
    }

    /// Makes a call on the span of this number. It is copied only where it counts, so that a call
    /// that is ignored takes no memory; nor does an end.
    ///
    /// The answer is `NoSpan` where there is no such span. Else it is `Ended` to an end, with what
    /// became of the span as `Span::end` says it, and to any other call `Done`, or `OutOfMemory`
    /// where there is no room for its copy or for what it is to store; the span is then unchanged.
    /// A status without a description takes none. Only the first end of a sampled span asks the
    /// pass.
    pub fn call<P: EndPass<SpanData<A>>>(
        &mut self,
        pass: &mut P,
        number: u32,
        call: &SpanCall<A>,
    ) -> Answer
        ensures answered { is_end (call_view call.now) ≡ false → let answer = answer_view result in
            (setup : Setup) (steps : List SpanStep)
            → IsTable S.meaning R.stream setup steps self.old
            → answer ≡ answer_to_call (is_refused answer) (calls_so_far steps number)
            (call_view call.now) (span_numbered setup steps number) }
        ensures asks_nothing { is_end (call_view call.now) ≡ false → pass.new ≡ pass.old }
        ensures ended { IfSome (end_of (call_view call.now))
            (λ at. (setup : Setup) (steps : List SpanStep) →
            IsTable S.meaning R.stream setup steps self.old
            → EndsAs P.admits (span_numbered setup steps number) (calls_so_far steps number) at
            pass.old result pass.new) }
        ensures table { let step = program.call number (call_view call.now) in
            TakesStep S.meaning R.stream step (answer_view result) self.old self.new }
        ensures many { length self.new.spans ≡ length self.old.spans }
        ensures room { self.new.room ≡ self.old.room }
    {
        call_among(self.alloc, &mut self.spans, pass, number, call)
    }
}

/// Makes a call on the span of this number, if it is among these.
fn call_among<P: EndPass<SpanData<A>>, A: Allocator + Copy>(
    alloc: A,
    spans: &mut Vec<Option<Span<A>>, A>,
    pass: &mut P,
    number: u32,
    call: &SpanCall<A>,
) -> Answer
    ensures called { CallsAmong P.admits number (call_view call.now)
        (slice_get spans.old.items number) spans.old.items pass.old result spans.new.items
        pass.new }
    ensures room { vec_capacity spans.new ≡ vec_capacity spans.old }
{
    let Some(slot) = spans.get_mut(number as usize) else {
        return Answer::NoSpan;
    };
    let Some(span) = slot else {
        return Answer::NoSpan;
    };
    call_span(alloc, span, pass, call)
}

/// Makes a call on a span. It is copied only where it counts.
fn call_span<P: EndPass<SpanData<A>>, A: Allocator + Copy>(
    alloc: A,
    span: &mut Span<A>,
    pass: &mut P,
    call: &SpanCall<A>,
) -> Answer
    ensures made { is_end (call_view call.now) ≡ false
        → MadeAs (call_view call.now) span.old span.new result }
    ensures asks_nothing { is_end (call_view call.now) ≡ false → pass.new ≡ pass.old }
    ensures ended { IfSome (end_of (call_view call.now))
        (λ at. EndsSpan P.admits at span.old pass.old result span.new pass.new) }
{
    if let SpanCall::End(at) = call {
        return Answer::Ended(span.end(pass, *at));
    }
    if !span.is_recording() {
        return Answer::Done;
    }
    if copy_call(alloc, span, pass, call).is_err() {
        return Answer::OutOfMemory;
    }
    Answer::Done
}

/// Makes a copy of a call that is no end.
fn copy_call<P: EndPass<SpanData<A>>, A: Allocator + Copy>(
    alloc: A,
    span: &mut Span<A>,
    pass: &mut P,
    call: &SpanCall<A>,
) -> Result<(), OutOfMemory>
    requires { is_end (call_view call.now) ≡ false }
    ensures ok { OnOk result (Does (call_view call.now) span.old span.new) }
    ensures err { OnErr result (span.new ≡ span.old) }
    ensures refused { OnErr result (has_text (call_view call.now) ≡ true) }
    ensures asks_nothing { pass.new ≡ pass.old }
{
    let call = call.copy(alloc)?;
    span.call(pass, call)?;
    Ok(())
}

/// A tracer for each scope.
fn tracers<'a, S: Sampler, A: Allocator + Copy>(
    alloc: A,
    provider: &'a Provider<S, A>,
    scopes: Vec<Scope<A>, A>,
) -> Result<Vec<Tracer<'a, S, A>, A>, OutOfMemory>
    ensures { IfOk result
        (λ tracers. tracers.items ≡ tracers_of provider.now (map scope_view scopes.items)) }
{
    let mut tracers = Vec::with_capacity(alloc, scopes.len())?;
    for scope in scopes {
        tracers.push(provider.tracer(Arc::new(alloc, scope)?))?;
    }
    Ok(tracers)
}

/// The context of the parent that a start names, if there is such a parent: of a span by its
/// number, of elsewhere as it is given.
fn parent_context<'s, A: Allocator>(
    spans: &'s [Option<Span<A>>],
    parent: &'s Parent<A>,
) -> Option<Option<&'s SpanContext<A>>>
    ensures { option_map parent_view result ≡ parent_in spans.now
        (parent_name_view parent.now) }
{
    match parent {
        Parent::Root => Some(None),
        Parent::Span(number) => match spans.get(*number as usize) {
            Some(Some(span)) => Some(Some(span.context())),
            _ => None,
        },
        Parent::Given(context) => Some(Some(context)),
    }
}
