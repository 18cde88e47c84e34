//! How a request begins: its span, and the fields that carry the span's context.

ghost use Rattle.std.specs.Prelude.{◌≡◌, ◌⊎◌, IfErr, IfOk, None, Option, option_map};
ghost use Rattle.std.specs.Prelude.{string_bytes};
ghost use Rattle.model_span.specs.Starts.{HeldSpan};
ghost use Rattle.otlp_ids.specs.SpanContext.{context_view, parent_view};
ghost use Rattle.trace_api.specs.Lent.{lent_pairs};
ghost use Rattle.trace_api.specs.Starts.{tracer_view};
ghost use Rattle.trace_context.specs.Carriers.{outgoing};
ghost use Rattle.trace_context.specs.Pairs.{fields_view};
ghost use Rattle.traced_http.specs.ClientSpans as spec;
ghost use Rattle.traced_http.specs.ClientSpans.{HasNotStarted, HasStarted, HasStartedOrNone};
ghost use Rattle.traced_http.specs.ClientSpans.{carried_by};

use crate::method::KnownMethods;
use crate::query::push_path;
use crate::span::{Named, push_text, start_with};
use itoa::Buffer;
use otlp_http::Target;
use otlp_ids::{OutOfMemory, SpanContext};
use otlp_sampler::Sampler;
use otlp_span::Kind;
use rand_core::Rng;
use std::alloc::Global;
use trace_api::{KeyValue, Span, StartFault, Tracer, ValueRef, int_value, text_pair};
use trace_context::inject;

/// A field that carries a context: its name and its value.
type Field = (String, Vec<u8>);

/// How a request begins.
#[derive(Drop)]
pub(crate) struct Begun {
    /// Its span, if it has one.
    pub(crate) span: Option<Span>,
    /// The fields that carry the span's context.
    pub(crate) fields: Vec<Field>,
}

/// Where a request goes, as one text, without the secrets of its query (RFC 3986, section 3).
fn full_url(alloc: Global, target: &Target) -> Result<String, OutOfMemory>
    ensures { IfOk result (λ url. string_bytes url ≡ spec.full_url target.now) }
{
    let mut port = Buffer::new();
    let port = port.format(target.port());
    let mut url = String::from_str(alloc, "http://")?;
    url.push_str(target.host())?;
    url.push_str(":")?;
    url.push_str(port)?;
    push_path(alloc, &mut url, target.path())?;
    Ok(url)
}

/// The attributes that a span starts with (Semantic Conventions, "HTTP spans", "HTTP client").
///
/// # Errors
///
/// `OutOfMemory` where memory was refused.
fn request_pairs<'a>(
    alloc: Global,
    known: &KnownMethods,
    method: &'a str,
    target: &'a Target,
    url: &'a str,
) -> Result<Vec<KeyValue<'a>>, OutOfMemory>
    requires { url.now ≡ spec.full_url target.now }
    ensures { IfOk result (λ pairs. lent_pairs pairs.items
        ≡ spec.request_pairs known.now method.now target.now) }
{
    let mut pairs = vec![in alloc;
        text_pair("http.request.method", known.shown(method)),
        text_pair("server.address", target.host()),
        KeyValue {
            key: "server.port",
            value: ValueRef::Int(int_value(target.port())),
        },
        text_pair("url.full", url),
    ]?;
    push_text(
        &mut pairs,
        "http.request.method_original",
        known.original(method),
    )?;
    Ok(pairs)
}

/// Starts the span of a request of this method to the target, at a moment in nanoseconds since 1970.
///
/// # Errors
///
/// `NoRandomness` as of `Tracer::start`, `OutOfMemory` where memory was refused.
#[tactic(auto, using(crate::proofs::Started::starts_undrawn))]
fn start<S: Sampler, R: Rng>(
    alloc: Global,
    tracer: &Tracer<'_, S>,
    rng: &mut R,
    known: &KnownMethods,
    parent: Option<&SpanContext>,
    method: &str,
    target: &Target,
    at: u64,
) -> Result<Span, StartFault>
    ensures started { IfOk result (HasStarted (tracer_view S.meaning tracer.now)
        (R.stream rng.old) (R.stream rng.new) known.now (parent_view parent.entry) method.now target.now
        at) }
    ensures none { IfErr result (HasNotStarted (tracer_view S.meaning tracer.now)
        (R.stream rng.old) (R.stream rng.new) known.now (parent_view parent.entry) method.now at) }
{
    let url = full_url(alloc, target)?;
    let attributes = request_pairs(alloc, known, method, target, &url)?;
    let named = Named {
        name: known.name(method),
        kind: Kind::Client,
    };
    start_with(alloc, tracer, rng, parent, named, &attributes, at)
}

/// The fields that carry a context.
fn fields_of(alloc: Global, context: &SpanContext) -> Result<Vec<Field>, OutOfMemory>
    ensures { IfOk result (λ fields. fields_view fields.items
        ≡ outgoing (context_view context.now)) }
{
    let mut fields = Vec::new(alloc);
    inject(alloc, context, &mut fields)?;
    Ok(fields)
}

/// Starts the span, and makes the fields that carry its context.
///
/// # Errors
///
/// As of [`start`].
#[tactic(auto, using(crate::proofs::Started::starts_with))]
fn start_carried<S: Sampler, R: Rng>(
    alloc: Global,
    tracer: &Tracer<'_, S>,
    rng: &mut R,
    known: &KnownMethods,
    parent: Option<&SpanContext>,
    method: &str,
    target: &Target,
    at: u64,
) -> Result<(Span, Vec<Field>), StartFault>
    ensures started { IfOk result (λ made. HasStarted (tracer_view S.meaning tracer.now)
        (R.stream rng.old) (R.stream rng.new) known.now (parent_view parent.entry) method.now target.now
        at made.0) }
    ensures carried { IfOk result (λ made. fields_view made.1.items ≡ outgoing made.0.context) }
    ensures none { IfErr result (λ _. (made : Option HeldSpan) × HasStartedOrNone
        (tracer_view S.meaning tracer.now) (R.stream rng.old) (R.stream rng.new) known.now
        (parent_view parent.entry) method.now target.now at made) }
{
    let span = start(alloc, tracer, rng, known, parent, method, target, at)?;
    let fields = fields_of(alloc, span.context())?;
    Ok((span, fields))
}

/// Begins a request of this method to the target, at a moment in nanoseconds since 1970. It has a
/// span, a child of the parent, if there is memory for that and for the fields, and the generator
/// gives identifiers.
pub(crate) fn begin<S: Sampler, R: Rng>(
    alloc: Global,
    tracer: &Tracer<'_, S>,
    rng: &mut R,
    known: &KnownMethods,
    parent: Option<&SpanContext>,
    method: &str,
    target: &Target,
    at: u64,
) -> Begun
    ensures started { (made : Option HeldSpan) × HasStartedOrNone (tracer_view S.meaning tracer.now)
        (R.stream rng.old) (R.stream rng.new) known.now (parent_view parent.entry) method.now target.now
        at made × ((result.span ≡ None) ⊎ (result.span ≡ made)) }
    ensures carried { fields_view result.fields.items
        ≡ carried_by (option_map (λ held. held.context) result.span) }
{
    match start_carried(alloc, tracer, rng, known, parent, method, target, at) {
        Ok((span, fields)) => Begun {
            span: Some(span),
            fields,
        },
        Err(_) => Begun {
            span: None,
            fields: Vec::new(alloc),
        },
    }
}
