//! Fields of a request that carry a context.

ghost use Rattle.std.specs.Prelude.{◌≡◌, ◌⊎◌, ◌<◌, ◌++◌, ◌∷◌, [], IfOk, OnErr, OnOk};
ghost use Rattle.std.specs.Prelude.{codes, false, length, map, ℕ, ⊤};
ghost use Rattle.std.specs.Prelude.{List, option_map, slice_index_or, string_bytes};
ghost use Rattle.model_span.specs.Attributes.{is_empty};
ghost use Rattle.otlp_ids.specs.SpanContext.{context_view};
ghost use Rattle.trace_context.specs.Carriers as spec;
ghost use Rattle.trace_context.specs.Carriers.{ContextsAreReadBack, Field};
ghost use Rattle.trace_context.specs.Outgoing.{traceparent_text};
ghost use Rattle.trace_context.specs.Tracestate.{tracestate};

use crate::read::read_traceparent;
use crate::state::read_tracestate;
use crate::write::write_traceparent;
use otlp_ids::{OutOfMemory, SpanContext};
use std::alloc::Allocator;

/// The field that carries the identifiers and the flags (W3C Trace Context, "Traceparent Header").
pub const TRACEPARENT: &str = "traceparent";

/// The field that carries the trace state (W3C Trace Context, "Tracestate Header").
pub const TRACESTATE: &str = "tracestate";

/// The names of the fields that [`inject`] adds: a program that uses a carrier again takes them out
/// before (OpenTelemetry Specification, "Propagators API", "Fields").
pub fn fields() -> [&'static str; 2]
    ensures { map (λ name. name.now) result
        ≡ codes "traceparent" ∷ codes "tracestate" ∷ [] }
{
    [TRACEPARENT, TRACESTATE]
}

/// What the fields of a request are read from (OpenTelemetry Specification, "Propagators API",
/// "Getter").
pub trait Extractor {
    /// The name and the value of each field, in order.
    ghost fields: { Self → List Field };

    /// How many fields there are.
    fn count(&self) -> usize
        ensures { result ≡ length (fields self.now) };

    /// The name and the value of the field at this index, from 0 on.
    fn field(&self, index: usize) -> (&[u8], &[u8])
        requires { index < length (fields self.now) }
        ensures { (result.0.now, result.1.now) ≡ slice_index_or (fields self.now) index ([], []) };
}

/// What the fields of a request are added to (OpenTelemetry Specification, "Propagators API",
/// "Setter").
pub trait Injector {
    /// The name and the value of each field, in order.
    ghost fields: { Self → List Field };

    /// From this state, memory for a field of this name and this value may be refused. An `impl`
    /// says so, if it can say that.
    ghost refuses: { Self → List ℕ → List ℕ → Type 0 } = { λ _ _ _. ⊤ };

    /// Adds a field after the others.
    ///
    /// # Errors
    ///
    /// `OutOfMemory` where memory was refused; the fields are as they were.
    fn set(&mut self, name: &str, value: &[u8]) -> Result<(), OutOfMemory>
        ensures added { OnOk result
            (fields self.new ≡ fields self.old ++ (name.now, value.now) ∷ []) }
        ensures refused { OnErr result (fields self.new ≡ fields self.old) }
        ensures memory { OnErr result (refuses self.old name.now value.now) };
}

/// Whether two names are the same; letters count in either case.
#[tactic(auto, unfolding(crate::specs::Carriers::is_same_name))]
fn is_same_name(name: &[u8], other: &[u8]) -> bool
    ensures { result ≡ spec.is_same_name name.now other.now }
{
    name.eq_ignore_ascii_case(other)
}

/// The values of the fields with this name, in order.
#[tactic(auto, unfolding(crate::specs::Carriers::value_in))]
fn values_of<'a, C: Extractor, A: Allocator>(
    alloc: A,
    carrier: &'a C,
    name: &str,
) -> Result<Vec<&'a [u8], A>, OutOfMemory>
    ensures { IfOk result (λ all. map (λ v. v.now) all.items
        ≡ spec.values_of name.now (C.fields carrier.now)) }
{
    let mut all = Vec::new(alloc);
    for index in 0..carrier.count() {
        let (field_name, value) = carrier.field(index);
        if is_same_name(field_name, name.as_bytes()) {
            all.push(value)?;
        }
    }
    Ok(all)
}

/// The context of the only `traceparent`, with an empty trace state.
#[tactic(auto, unfolding(crate::specs::Carriers::parent_in))]
fn parent_in<C: Extractor, A: Allocator + Copy>(
    alloc: A,
    carrier: &C,
) -> Result<Option<SpanContext<A>>, OutOfMemory>
    ensures { IfOk result (λ found. option_map context_view found
        ≡ spec.parent_in (C.fields carrier.now)) }
{
    let parents = values_of(alloc, carrier, TRACEPARENT)?;
    match parents.as_slice() {
        [parent] => Ok(read_traceparent(alloc, parent)),
        _ => Ok(None),
    }
}

/// The trace state of all `tracestate`.
fn state_in<C: Extractor, A: Allocator + Copy>(
    alloc: A,
    carrier: &C,
) -> Result<String<A>, OutOfMemory>
    ensures { IfOk result (λ state. string_bytes state
        ≡ tracestate (spec.values_of (codes "tracestate") (C.fields carrier.now))) }
{
    let states = values_of(alloc, carrier, TRACESTATE)?;
    read_tracestate(alloc, &states)
}

/// The context with this trace state.
fn with_state<A: Allocator>(context: SpanContext<A>, state: String<A>) -> SpanContext<A>
    ensures { context_view result
        ≡ record (context_view context) { state = string_bytes state } }
{
    SpanContext {
        trace: context.trace,
        span: context.span,
        flags: context.flags,
        remote: context.remote,
        state,
    }
}

/// The context of the caller, as the fields of its request carry it: that of the only
/// `traceparent`, with the trace state of all `tracestate` (W3C Trace Context, "Processing Model").
/// `None` where there is no `traceparent`, more than one, or none that [`read_traceparent`] reads.
///
/// # Errors
///
/// `OutOfMemory` where memory was refused.
#[tactic(auto, unfolding(crate::specs::Carriers::extracted))]
pub fn extract<C: Extractor, A: Allocator + Copy>(
    alloc: A,
    carrier: &C,
) -> Result<Option<SpanContext<A>>, OutOfMemory>
    ensures { IfOk result (λ found. option_map context_view found
        ≡ spec.extracted (C.fields carrier.now)) }
{
    let Some(context) = parent_in(alloc, carrier)? else {
        return Ok(None);
    };
    let state = state_in(alloc, carrier)?;
    Ok(Some(with_state(context, state)))
}

/// Adds the field of a trace state that isn't empty.
fn set_state<C: Injector>(carrier: &mut C, state: &[u8]) -> Result<(), OutOfMemory>
    ensures added { OnOk result
        (C.fields carrier.new ≡ C.fields carrier.old ++ spec.state_fields state.now) }
    ensures refused { OnErr result (C.fields carrier.new ≡ C.fields carrier.old) }
    ensures memory { OnErr result (is_empty state.now ≡ false) }
{
    match state {
        [] => Ok(()),
        _ => carrier.set(TRACESTATE, state),
    }
}

/// What of a context's trace state goes out.
///
/// # Errors
///
/// `OutOfMemory` where memory was refused. A trace state that is empty takes none.
fn state_of<A: Allocator + Copy>(
    alloc: A,
    context: &SpanContext<A>,
) -> Result<String<A>, OutOfMemory>
    ensures read { IfOk result (λ state. string_bytes state
        ≡ tracestate ((context_view context.now).state ∷ [])) }
    ensures memory { OnErr result (is_empty (context_view context.now).state ≡ false) }
{
    match context.state.as_bytes() {
        [] => Ok(String::new(alloc)),
        state => read_tracestate(alloc, &[state]),
    }
}

/// Adds the fields that carry a context: `traceparent`, and `tracestate` where the trace state has
/// entries that [`read_tracestate`] reads. An invalid context adds none (OpenTelemetry
/// Specification, "Propagators API", "Inject").
///
/// # Errors
///
/// `OutOfMemory` where memory was refused: then no field was added, or `traceparent` alone. An
/// invalid context takes no memory; a valid one whose trace state is empty only what the carrier
/// takes for `traceparent`.
#[tactic(auto, unfolding(crate::specs::Carriers::outgoing))]
pub fn inject<C: Injector, A: Allocator + Copy>(
    alloc: A,
    context: &SpanContext<A>,
    carrier: &mut C,
) -> Result<(), OutOfMemory>
    ensures added { OnOk result (C.fields carrier.new
        ≡ C.fields carrier.old ++ spec.outgoing (context_view context.now)) }
    ensures refused { OnErr result ((C.fields carrier.new ≡ C.fields carrier.old)
        ⊎ (C.fields carrier.new ≡ C.fields carrier.old
        ++ (codes "traceparent", traceparent_text (context_view context.now)) ∷ [])) }
    ensures memory { OnErr result (spec.OutgoingTakesMemory (C.refuses carrier.old)
        (context_view context.now)) }
{
    if !context.is_valid() {
        return Ok(());
    }
    let state = state_of(alloc, context)?;
    let mut text = [0; 55];
    write_traceparent(context, &mut text);
    carrier.set(TRACEPARENT, &text)?;
    set_state(carrier, state.as_bytes())?;
    Ok(())
}

/// What [`inject`] adds of a valid context, [`extract`] reads as that context: as a remote one, and
/// with the sampled and the random flag alone of its flags. Its trace state has to be in the form that
/// [`read_tracestate`] gives.
pub fn contexts_are_read_back()
    ensures { ContextsAreReadBack }
{}
