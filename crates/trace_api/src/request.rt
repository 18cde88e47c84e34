//! A start of a span with all that it begins with.
ghost use Rattle.std.specs.Prelude.{◌≡◌, None, OnErr, OnOk, [], true};
ghost use Rattle.model_span.specs.Sampling.{valid_parent};
ghost use Rattle.model_span.specs.Starts as starts;
ghost use Rattle.otlp_ids.specs.SpanContext.{parent_view};
ghost use Rattle.otlp_ids.specs.WordStream.{Spends, words_of};
ghost use Rattle.trace_api.specs.Starts.{tracer_view};
ghost use Rattle.trace_api.specs.Request.{StartsWith, calls_of, lent_links, link_calls, request_of};
ghost use Rattle.trace_api.specs.ExtCalls.{DoesAll};

use crate::extension::SpanExt;
use crate::lent::KeyValue;
use crate::{Span, StartFault, Tracer};
use otlp_ids::{OutOfMemory, SpanContext};
use otlp_sampler::Sampler;
use otlp_span::Kind;
use rand_core::Rng;
use std::alloc::{Allocator, Global};

/// A link that is lent (Trace API, "Link"): the context of the span that it leads to, and its
/// attributes.
#[derive(Drop)]
pub struct LinkRef<'a, A: Allocator = Global> {
    /// The context of that span.
    pub context: &'a SpanContext<A>,
    /// The link's attributes.
    pub attributes: &'a [KeyValue<'a>],
}

/// What a tracer is asked for (Trace API, "Span Creation"). All of it is lent.
#[derive(Drop)]
pub struct SpanRequest<'a, A: Allocator = Global> {
    /// The span's name.
    pub name: &'a str,
    /// Its kind.
    pub kind: Kind,
    /// The span is a child of this one, where its context is valid; else it is a root.
    pub parent: Option<&'a SpanContext<A>>,
    /// It starts with these attributes, in their order. No sampler sees them.
    pub attributes: &'a [KeyValue<'a>],
    /// It starts with these links, in their order. No sampler sees them.
    pub links: &'a [LinkRef<'a, A>],
}

impl<'a, A: Allocator> SpanRequest<'a, A> {
    /// An internal root of this name, without attributes and links.
    pub fn named(name: &'a str) -> SpanRequest<'a, A>
        ensures name { result.name ≡ name.entry }
        ensures kind { result.kind ≡ Kind.Internal }
        ensures root { result.parent ≡ None }
        ensures attributes { result.attributes.now ≡ [] }
        ensures links { result.links.now ≡ [] }
    {
        SpanRequest {
            name,
            kind: Kind::Internal,
            parent: None,
            attributes: &[],
            links: &[],
        }
    }
}

/// Starts a span at a moment, in nanoseconds since 1970, as `Tracer::start_copied`; then it sets
/// the attributes and adds the links, each in their order. All is copied, and only where the span
/// is recorded.
///
/// # Errors
///
/// Those of `Tracer::start_copied`: `OutOfMemory` also where an attribute or a link could not be
/// stored. There is then no span; the words that were drawn are spent, and nothing else changes.
pub fn start_span<S: Sampler, A: Allocator + Copy, R: Rng>(
    tracer: &Tracer<'_, S, A>,
    alloc: A,
    rng: &mut R,
    request: &SpanRequest<'_, A>,
    at: u64,
) -> Result<Span<A>, StartFault>
    ensures started { let there = starts.started_span (tracer_view S.meaning tracer.now)
        (request_of request.now at) (words_of (R.stream rng.old)) in
        StartsWith there (calls_of request.now) result }
    ensures spent { Spends (starts.ids_words (valid_parent (parent_view request.now.parent)))
        (R.stream rng.old) (R.stream rng.new) }
{
    let (name, kind) = (request.name, request.kind);
    let mut span = tracer.start_copied(alloc, rng, request.parent, name, kind, at)?;
    span.set_all(request.attributes)?;
    add_links(&mut span, request.links)?;
    Ok(span)
}

/// Adds links one after the other.
fn add_links<A: Allocator + Copy>(
    span: &mut Span<A>,
    links: &[LinkRef<'_, A>],
) -> Result<(), OutOfMemory>
    ensures ok { OnOk result (DoesAll (link_calls (lent_links links.now)) span.old span.new) }
    ensures refused { OnErr result (starts.is_recording_state span.old.state ≡ true) }
{
    for asked in links {
        span.link(asked.context, asked.attributes)?;
    }
    Ok(())
}
