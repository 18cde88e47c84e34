//! How the span of a request starts.

ghost use Rattle.std.specs.Prelude.{◌≡◌, IfErr, IfOk};
ghost use Rattle.std.specs.Option.{option_copied};
ghost use Rattle.trace_api.specs.Starts.{tracer_view};
ghost use Rattle.traced_http.specs.Attributes.{server_view};
ghost use Rattle.traced_http.specs.ServerSpans.{HasNotStarted, HasStarted, HasStartedOrNone};

use crate::method::KnownMethods;
use crate::server::attributes::{request_pairs, shown_query};
use crate::server::carrier::caller_of;
use crate::server::name::span_name;
use crate::span::{Named, start_with};
use bytes::Bytes;
use http::Request;
use otlp_ids::SpanContext;
use otlp_sampler::Sampler;
use otlp_span::Kind;
use rand_core::Rng;
use std::alloc::Global;
use trace_api::{Span, StartFault, Tracer};

/// What a server is reached by (Semantic Conventions, "server.address", "server.port").
#[derive(Debug, Clone, Copy)]
pub struct ServerName<'a> {
    /// Its name or its address.
    pub address: &'a str,
    /// Its port.
    pub port: u16,
}

/// What a thread makes the spans of its requests with.
#[derive(Drop)]
pub struct Tracing<'a, S: Sampler, R, C> {
    /// It starts them.
    pub tracer: Tracer<'a, S>,
    /// It draws their identifiers.
    pub rng: R,
    /// They start and end at its moments.
    pub clock: C,
    /// What the server is reached by.
    pub server: ServerName<'a>,
}

impl<'a, S: Sampler, R: Rng, C> Tracing<'a, S, R, C> {
    /// Starts the span of a request that is answered by this route, if it has one, at a moment in
    /// nanoseconds since 1970: a child of what the request carried.
    ///
    /// # Errors
    ///
    /// `NoRandomness` as of `Tracer::start`, `OutOfMemory` where memory was refused.
    #[tactic(auto, using(crate::proofs::Started::starts_undrawn))]
    fn start(
        &mut self,
        alloc: Global,
        known: &KnownMethods,
        route: Option<&str>,
        request: &Request<Bytes>,
        at: u64,
    ) -> Result<Span, StartFault>
        ensures started { IfOk result (HasStarted (tracer_view S.meaning self.old.tracer)
            (R.stream self.old.rng) (R.stream self.new.rng) (option_copied route.entry)
            (server_view self.old.server known.now) request.now at) }
        ensures none { IfErr result (HasNotStarted (tracer_view S.meaning self.old.tracer)
            (R.stream self.old.rng) (R.stream self.new.rng) (option_copied route.entry)
            (server_view self.old.server known.now) request.now at) }
        ensures tracer { self.new.tracer ≡ self.old.tracer }
        ensures clock { self.new.clock ≡ self.old.clock }
        ensures server { self.new.server ≡ self.old.server }
    {
        let caller = caller_of(alloc, request.headers())?;
        let name = span_name(alloc, known, request.method().as_str(), route)?;
        let query = shown_query(alloc, request)?;
        let pairs = request_pairs(alloc, known, request, query.as_deref(), route, &self.server)?;
        let parent = caller.as_ref();
        let named = Named {
            name: &name,
            kind: Kind::Server,
        };
        start_with(
            alloc,
            &self.tracer,
            &mut self.rng,
            parent,
            named,
            &pairs,
            at,
        )
    }

    /// The same, if there is memory for the span and the generator gives its identifiers.
    #[tactic(auto, using(crate::proofs::Started::starts_none))]
    pub(crate) fn start_if_any(
        &mut self,
        alloc: Global,
        known: &KnownMethods,
        route: Option<&str>,
        request: &Request<Bytes>,
        at: u64,
    ) -> Option<Span>
        ensures started { HasStartedOrNone (tracer_view S.meaning self.old.tracer)
            (R.stream self.old.rng) (R.stream self.new.rng) (option_copied route.entry)
            (server_view self.old.server known.now) request.now at result }
        ensures tracer { self.new.tracer ≡ self.old.tracer }
        ensures clock { self.new.clock ≡ self.old.clock }
        ensures server { self.new.server ≡ self.old.server }
    {
        match self.start(alloc, known, route, request, at) {
            Ok(span) => Some(span),
            Err(_) => None,
        }
    }
}
