//! What starts spans.
ghost use Rattle.std.specs.Prelude.{◌≡◌, IfOk, IfSome, IsTrue, OnErr, false, option_map};
ghost use Rattle.std.specs.Prelude.{string_bytes, true};
ghost use Rattle.std.specs.Arc.{arc_value};
ghost use Rattle.std.specs.Option.{ForSome};
ghost use Rattle.model_span.specs.Attributes.{is_empty};
ghost use Rattle.model_span.specs.Identifiers.{span_id, words_spent};
ghost use Rattle.model_span.specs.Sampling.{is_recording, valid_parent};
ghost use Rattle.model_span.specs.Spans.{is_valid};
ghost use Rattle.model_span.specs.Starts as model;
ghost use Rattle.model_span.specs.Starts.{start_request};
ghost use Rattle.otlp_ids.specs.SpanContext.{context_view, parent_view};
ghost use Rattle.otlp_ids.specs.WordStream.{Spends, words_of};
ghost use Rattle.otlp_span.specs.Parts.{kept_parent_view, kind_view, limits_view, resource_view};
ghost use Rattle.otlp_span.specs.Parts.{scope_view};
ghost use Rattle.otlp_sampler.specs.Sampling.{decision_view};
ghost use Rattle.trace_api.specs.Starts.{IsDecided, OpensAs, StartsAs, ids_view, opened_span};
ghost use Rattle.trace_api.specs.Starts.{tracer_view};

use crate::span::Span;
use otlp_ids::{OutOfMemory, SpanContext, SpanId, TraceFlags, TraceId, copy_text};
use otlp_sampler::{Decision, Sampler};
use otlp_span::{Kind, Open, Resource, Scope, SpanLimits, SpanRecord};
use rand_core::Rng;
use std::alloc::{Allocator, Global};
use std::marker::Model;
use std::sync::Arc;
use thiserror::Error;

/// Why a span has not started.
#[derive(Debug, Clone, Copy, PartialEq, Eq, Error)]
pub enum StartFault {
    /// The generator gave only zeros, in eight draws of an identifier.
    #[error("no randomness: only zeros were drawn")]
    NoRandomness,
    /// Memory was refused.
    #[error("out of memory")]
    OutOfMemory,
}

impl From<OutOfMemory> for StartFault {
    ghost use Rattle.std.specs.Prelude.{◌≡◌};
    ghost use Rattle.trace_api.specs.declared.provider.StartFault.TheVariants as faults;

    ghost from_gives = { λ _ fault. fault ≡ faults.OutOfMemory };

    fn from(_: OutOfMemory) -> StartFault {
        StartFault::OutOfMemory
    }
}

/// What the spans of a program have in common: what samples them, what makes them, and how much
/// they keep (Trace API, "TracerProvider").
#[derive_where(Debug; S)]
pub struct Provider<S: Sampler, A: Allocator = Global> {
    sampler: S,
    resource: Arc<Resource<A>, A>,
    limits: SpanLimits,
}

/// By hand: a derived one would be proved again in each crate that drops it.
impl<S: Sampler + Drop, A: Allocator> Drop for Provider<S, A> {
    fn drop(self) {
        let Self {
            sampler: _,
            resource: _,
            limits: _,
        } = self;
    }
}

impl<S: Sampler, A: Allocator> Model for Provider<S, A> {
    ghost use Rattle.std.specs.Arc.{arc_value};
    ghost use Rattle.otlp_span.specs.Parts.{limits_view, resource_view};
    ghost use Rattle.trace_api.specs.Starts.{ProviderWith};

    ghost Value = { ProviderWith S };

    ghost view = { λ p. record {
      sampler = p.sampler;
      resource = resource_view (arc_value p.resource);
      limits = limits_view p.limits;
    } };
}

impl<S: Sampler, A: Allocator> Provider<S, A> {
    /// Spans of this resource, which the sampler decides on and which keep as much as the limits
    /// allow. It takes no memory.
    pub fn new(sampler: S, resource: Arc<Resource<A>, A>, limits: SpanLimits) -> Provider<S, A>
        ensures { result ≡ record {
          sampler = sampler;
          resource = resource_view (arc_value resource);
          limits = limits_view limits;
        } }
    {
        Provider {
            sampler,
            resource,
            limits,
        }
    }

    /// What starts the spans of a scope (Trace API, "Get a Tracer"). It takes no memory.
    pub fn tracer(&self, scope: Arc<Scope<A>, A>) -> Tracer<'_, S, A>
        ensures { result ≡ record { provider = self.now; scope = scope_view (arc_value scope) } }
    {
        Tracer {
            provider: self,
            scope,
        }
    }
}

/// Starts the spans of one scope (Trace API, "Tracer").
#[derive(Drop)]
#[derive_where(Debug; S)]
pub struct Tracer<'a, S: Sampler, A: Allocator = Global> {
    provider: &'a Provider<S, A>,
    scope: Arc<Scope<A>, A>,
}

impl<'a, S: Sampler, A: Allocator> Model for Tracer<'a, S, A> {
    ghost use Rattle.std.specs.Arc.{arc_value};
    ghost use Rattle.otlp_span.specs.Parts.{scope_view};
    ghost use Rattle.trace_api.specs.Starts.{TracerWith};

    ghost Value = { TracerWith S };

    ghost view = { λ t. record {
      provider = t.provider.now;
      scope = scope_view (arc_value t.scope);
    } };
}

/// The parent that counts: an invalid one is none.
fn valid<'a, A: Allocator>(parent: Option<&'a SpanContext<A>>) -> Option<&'a SpanContext<A>>
    ensures value { parent_view result ≡ valid_parent (parent_view parent.entry) }
    ensures valid { ForSome result (λ context. IsTrue (is_valid (context_view context.now))) }
{
    parent.filter(|context| context.is_valid())
}

/// The identifiers of a span.
#[derive(Drop)]
struct Ids {
    trace: TraceId,
    span: SpanId,
}

/// The trace of a span with this parent: the parent's, or a new one, unless the generator gives
/// only zeros.
fn draw_trace<R: Rng, A: Allocator>(rng: &mut R, parent: Option<&SpanContext<A>>) -> Option<TraceId>
    ensures value { option_map (λ id. id.0) result ≡
        model.trace_of (parent_view parent.entry) (words_of (R.stream rng.old)) }
    ensures spent { Spends (model.trace_words (parent_view parent.entry))
        (R.stream rng.old) (R.stream rng.new) }
{
    match parent {
        Some(context) => Some(context.trace),
        None => TraceId::draw(rng).ok(),
    }
}

/// The identifier of a span, unless the generator gives only zeros.
fn draw_span<R: Rng>(rng: &mut R) -> Option<SpanId>
    ensures value { option_map (λ id. id.0) result ≡ span_id (words_of (R.stream rng.old)) }
    ensures spent { Spends (words_spent 1) (R.stream rng.old) (R.stream rng.new) }
{
    SpanId::draw(rng).ok()
}

/// Draws the identifiers of a span with this parent, unless the generator gives only zeros.
fn draw_ids<R: Rng, A: Allocator>(rng: &mut R, parent: Option<&SpanContext<A>>) -> Option<Ids>
    ensures value { option_map ids_view result ≡
        model.ids_of (parent_view parent.entry) (words_of (R.stream rng.old)) }
    ensures spent { Spends (model.ids_words (parent_view parent.entry))
        (R.stream rng.old) (R.stream rng.new) }
{
    let trace = draw_trace(rng, parent)?;
    let span = draw_span(rng)?;
    Some(Ids { trace, span })
}

/// What is decided on a span before memory is taken for it.
#[derive(Drop)]
struct Decided<'a, A: Allocator> {
    ids: Ids,
    /// The parent that counts: it is valid.
    parent: Option<&'a SpanContext<A>>,
    decision: Decision,
}

/// The flags of a span with this parent: the parent's, but for the sampled flag (W3C Trace Context,
/// "trace-flags").
fn child_flags<A: Allocator>(parent: Option<&SpanContext<A>>, sampled: bool) -> TraceFlags
    ensures { result.0 ≡ model.flags_of (parent_view parent.entry) sampled }
{
    match parent {
        Some(context) => context.flags.with_sampled(sampled),
        None => TraceFlags(0).with_sampled(sampled),
    }
}

/// The trace state of a span with this parent: the parent's (W3C Trace Context, "tracestate"). An
/// empty one takes no memory.
fn child_state<A: Allocator + Copy>(
    alloc: A,
    parent: Option<&SpanContext<A>>,
) -> Result<String<A>, OutOfMemory>
    ensures value { IfOk result
        (λ state. string_bytes state ≡ model.state_of (parent_view parent.entry)) }
    ensures refused { OnErr result
        (is_empty (model.state_of (parent_view parent.entry)) ≡ false) }
{
    let Some(context) = parent else {
        return Ok(String::new(alloc));
    };
    if context.state.is_empty() {
        return Ok(String::new(alloc));
    }
    Ok(String::from_str(alloc, context.state.as_str())?)
}

/// The identifier of the parent's span, if there is one, and whether it came from elsewhere.
fn kept_parent<A: Allocator>(parent: Option<&SpanContext<A>>) -> (Option<SpanId>, bool)
    ensures { kept_parent_view result.0 result.1 ≡
        option_map model.parent_of (parent_view parent.entry) }
{
    match parent {
        Some(context) => (Some(context.span), context.remote),
        None => (None, false),
    }
}

/// What a span keeps of its name that was decided on so: a copy, where it is recorded.
fn kept_name<A: Allocator>(
    alloc: A,
    decision: Decision,
    name: &str,
) -> Result<String<A>, OutOfMemory>
    ensures recorded { is_recording (decision_view decision) ≡ true
        → IfOk result (λ kept. string_bytes kept ≡ name.now) }
    ensures refused { OnErr result (is_recording (decision_view decision) ≡ true) }
{
    if decision.is_recording() {
        copy_text(alloc, name)
    } else {
        Ok(String::new(alloc))
    }
}

impl<'a, S: Sampler, A: Allocator + Copy> Tracer<'a, S, A> {
    /// Starts a span (Trace API, "Span Creation"; Trace SDK, "SDK Span creation") at a moment, in
    /// nanoseconds since 1970. With a valid parent it belongs to the parent's trace, and has its
    /// trace state and its flags, but for the sampled flag; it keeps whether the parent came from
    /// elsewhere. An invalid parent counts as none. A root begins a trace, and has the sampled flag
    /// alone, where it is sampled. The words of the generator are drawn before the sampler is asked
    /// and before memory is taken: first those of the trace's identifier, if it is a new one, then
    /// those of the span's.
    ///
    /// # Errors
    ///
    /// `NoRandomness` where eight draws of an identifier were all zero, `OutOfMemory` where there
    /// is no room for the span; one that is dropped takes memory for its parent's trace state
    /// alone. The words that were drawn are spent, and nothing else changes.
    pub fn start<R: Rng>(
        &self,
        alloc: A,
        rng: &mut R,
        parent: Option<&SpanContext<A>>,
        name: String<A>,
        kind: Kind,
        at: u64,
    ) -> Result<Span<A>, StartFault>
        ensures started { let tracer = tracer_view S.meaning self.now in
            let a = start_request (parent_view parent.entry) (string_bytes name) (kind_view kind) at
            in StartsAs (model.started_span tracer a (words_of (R.stream rng.old))) result }
        ensures spent { let parent = valid_parent (parent_view parent.entry) in
            Spends (model.ids_words parent) (R.stream rng.old) (R.stream rng.new) }
    {
        let Some(decided) = self.decide(rng, parent, name.as_str(), kind) else {
            return Err(StartFault::NoRandomness);
        };
        Ok(self.open(alloc, decided, name, kind, at)?)
    }

    /// Starts a span as `start`, with a copy of a name. It is copied only where the span is
    /// recorded, after the words were drawn.
    ///
    /// # Errors
    ///
    /// Those of `start`: `OutOfMemory` also where there is no room for the copy.
    pub fn start_copied<R: Rng>(
        &self,
        alloc: A,
        rng: &mut R,
        parent: Option<&SpanContext<A>>,
        name: &str,
        kind: Kind,
        at: u64,
    ) -> Result<Span<A>, StartFault>
        ensures started { let tracer = tracer_view S.meaning self.now in
            let a = start_request (parent_view parent.entry) name.now (kind_view kind) at
            in StartsAs (model.started_span tracer a (words_of (R.stream rng.old))) result }
        ensures spent { let parent = valid_parent (parent_view parent.entry) in
            Spends (model.ids_words parent) (R.stream rng.old) (R.stream rng.new) }
    {
        let Some(decided) = self.decide(rng, parent, name, kind) else {
            return Err(StartFault::NoRandomness);
        };
        let name = kept_name(alloc, decided.decision, name)?;
        Ok(self.open(alloc, decided, name, kind, at)?)
    }

    /// Draws the identifiers of a span, unless the generator gives only zeros, and asks the sampler
    /// about it.
    fn decide<'p, R: Rng>(
        &self,
        rng: &mut R,
        parent: Option<&'p SpanContext<A>>,
        name: &str,
        kind: Kind,
    ) -> Option<Decided<'p, A>>
        ensures ids { option_map (λ decided. ids_view decided.ids) result ≡
            model.ids_of (valid_parent (parent_view parent.entry)) (words_of (R.stream rng.old)) }
        ensures spent { let parent = valid_parent (parent_view parent.entry) in
            Spends (model.ids_words parent) (R.stream rng.old) (R.stream rng.new) }
        ensures decided { let parent = valid_parent (parent_view parent.entry) in
            let sampler = S.meaning self.now.provider.sampler in
            IfSome result (IsDecided sampler parent name.now (kind_view kind)) }
    {
        let parent = valid(parent);
        let ids = draw_ids(rng, parent)?;
        let provider = self.provider;
        let decision = provider
            .sampler
            .should_sample(parent, &ids.trace, name, kind);
        Some(Decided {
            ids,
            parent,
            decision,
        })
    }

    /// The span that was decided on so, at a moment in nanoseconds since 1970.
    fn open(
        &self,
        alloc: A,
        decided: Decided<'_, A>,
        name: String<A>,
        kind: Kind,
        at: u64,
    ) -> Result<Span<A>, OutOfMemory>
        ensures { let name = string_bytes name in
            let tracer = tracer_view S.meaning self.now in
            OpensAs (opened_span tracer decided.entry name (kind_view kind) at) result }
    {
        let context = SpanContext {
            trace: decided.ids.trace,
            span: decided.ids.span,
            flags: child_flags(decided.parent, decided.decision.is_sampled()),
            remote: false,
            state: child_state(alloc, decided.parent)?,
        };
        if !decided.decision.is_recording() {
            return Ok(Span::not_recording(context));
        }
        let provider = self.provider;
        let (parent, parent_remote) = kept_parent(decided.parent);
        let opening = Open {
            context: context.copy(alloc)?,
            parent,
            parent_remote,
            resource: Arc::try_clone(&provider.resource)?,
            scope: Arc::try_clone(&self.scope)?,
            name,
            kind,
            start: at,
        };
        let record = SpanRecord::open(alloc, opening, &provider.limits)?;
        Ok(Span::recording(context, record))
    }
}
