//! The span of a request, which servers and clients start and end in the same way.

ghost use Rattle.std.specs.Prelude.{◌≡◌, ◌++◌, IfErr, IfOk, OnOk, Some, false, true};
ghost use Rattle.std.specs.Option.{option_copied};
ghost use Rattle.model_span.specs.Starts.{HeldSpan};
ghost use Rattle.otlp_ids.specs.SpanContext.{parent_view};
ghost use Rattle.otlp_span.specs.Parts.{kind_view};
ghost use Rattle.trace_api.specs.Endings.{ending_calls, ending_view};
ghost use Rattle.trace_api.specs.Ends.{EndsAs};
ghost use Rattle.trace_api.specs.Lent.{lent_pairs};
ghost use Rattle.trace_api.specs.Starts.{tracer_view};
ghost use Rattle.traced_http.specs.Starts.{StartsNone, StartsSpan, text_pairs};

use otlp_ids::{OutOfMemory, SpanContext};
use otlp_sampler::Sampler;
use otlp_span::{Kind, SpanData};
use rand_core::Rng;
use std::alloc::Global;
use trace_api::{
    EndPass, Ending, KeyValue, Span, SpanRequest, StartFault, Tracer, end_span, start_span,
    text_pair,
};

/// Adds an attribute with a text, if there is one.
pub(crate) fn push_text<'a>(
    pairs: &mut Vec<KeyValue<'a>>,
    key: &'a str,
    text: Option<&'a str>,
) -> Result<(), OutOfMemory>
    ensures { OnOk result (lent_pairs pairs.new.items
        ≡ lent_pairs pairs.old.items ++ text_pairs key.now (option_copied text.entry)) }
{
    let Some(text) = text else {
        return Ok(());
    };
    pairs.push(text_pair(key, text))?;
    Ok(())
}

/// How a span is called, and of which kind it is.
#[derive(Clone, Copy)]
pub(crate) struct Named<'a> {
    /// Its name.
    pub(crate) name: &'a str,
    /// Its kind.
    pub(crate) kind: Kind,
}

/// Starts a span with these attributes, at a moment in nanoseconds since 1970.
///
/// # Errors
///
/// `NoRandomness` as of `Tracer::start`, `OutOfMemory` where memory was refused.
pub(crate) fn start_with<S: Sampler, R: Rng>(
    alloc: Global,
    tracer: &Tracer<'_, S>,
    rng: &mut R,
    parent: Option<&SpanContext>,
    named: Named<'_>,
    attributes: &[KeyValue<'_>],
    at: u64,
) -> Result<Span, StartFault>
    ensures started { IfOk result (StartsSpan (tracer_view S.meaning tracer.now)
        (R.stream rng.old) (R.stream rng.new) (parent_view parent.entry) named.entry.name.now
        (kind_view named.entry.kind) (lent_pairs attributes.now) at) }
    ensures none { IfErr result (StartsNone (tracer_view S.meaning tracer.now)
        (R.stream rng.old) (R.stream rng.new) (parent_view parent.entry) named.entry.name.now
        (kind_view named.entry.kind) at) }
{
    let asked = SpanRequest {
        name: named.name,
        kind: named.kind,
        parent,
        attributes,
        links: &[],
    };
    start_span(tracer, alloc, rng, &asked, at)
}

/// Ends the span of a request, if it has one, with what came of that. Whether it has ended.
pub(crate) fn end_if_any<P: EndPass<SpanData>>(
    span: Option<Span>,
    ending: Ending<'_>,
    pass: &mut P,
    at: u64,
) -> bool
    ensures ended { result ≡ true → (held : HeldSpan) × (span ≡ Some held)
        × EndsAs P.admits (ending_calls (ending_view ending.entry)) at held pass.old pass.new }
    ensures untouched { result ≡ false → pass.new ≡ pass.old }
{
    match span {
        Some(span) => end_span(span, ending, pass, at).is_ok(),
        None => false,
    }
}
