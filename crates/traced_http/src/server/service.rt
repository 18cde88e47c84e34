//! The service that a server calls.

ghost use Rattle.std.specs.Prelude.{◌≡◌, IsOk, OnErr, OnOk};
ghost use Rattle.http_server.specs.Response.{IsBlank};
ghost use Rattle.trace_api.specs.Endings.{ending_view};
ghost use Rattle.traced_http.specs.Attributes.{ending_of, server_view};
ghost use Rattle.traced_http.specs.Methods.{standard_methods};
ghost use Rattle.traced_http.specs.Serves.{Serves, serving};

use crate::method::KnownMethods;
use crate::server::handler::Handler;
use crate::server::lending::{Left, lend};
use crate::server::start::Tracing;
use crate::span::end_if_any;
use bytes::Bytes;
use http::{Request, StatusCode};
use http_connection::say_date;
use http_server::{Response, Service};
use otlp_sampler::Sampler;
use otlp_span::SpanData;
use rand_core::Rng;
use std::alloc::{AllocError, Global};
use trace_api::{Clock, EndPass, Ending, count_untraced};

/// A handler whose requests have spans, each of which ends on the pass.
///
/// A response says when it was made, by the clock, unless the handler's does (`Date`, RFC 9110,
/// section 6.6.1). Where memory for that is refused, it doesn't.
///
/// It never fails, so each request of a connection that `http_server` reads is answered: a handler
/// without memory by 503, whose span says so. A request whose span takes memory that is refused is
/// answered without one, and counted.
#[derive(Drop)]
pub struct TracedService<'a, S: Sampler, H, P, R, C> {
    alloc: Global,
    tracing: Tracing<'a, S, R, C>,
    handler: H,
    pass: &'a mut P,
    known: KnownMethods,
    untraced: u64,
    left_out: u64,
}

impl<'a, S: Sampler, H, P, R, C> TracedService<'a, S, H, P, R, C> {
    /// A service over this handler, whose spans end on the pass. It takes no memory.
    pub fn new(
        alloc: Global,
        tracing: Tracing<'a, S, R, C>,
        handler: H,
        pass: &'a mut P,
    ) -> TracedService<'a, S, H, P, R, C>
        ensures same_pass { result.pass.ghost_name ≡ pass.entry.ghost_name }
        ensures serving { serving result ≡ record {
          tracer = tracing.entry.tracer;
          server = server_view tracing.entry.server standard_methods;
          rng = tracing.entry.rng;
          clock = tracing.entry.clock;
          handler = handler;
          pass = pass.old;
          untraced = 0;
          left_out = 0;
        } }
    {
        TracedService {
            alloc,
            tracing,
            handler,
            pass,
            known: KnownMethods::default(),
            untraced: 0,
            left_out: 0,
        }
    }

    /// The same with these known methods in place of the standard ones: any other is `_OTHER` in
    /// `http.request.method`, and `HTTP` in the name of a span.
    pub fn with_known_methods(self, known: KnownMethods) -> TracedService<'a, S, H, P, R, C>
        ensures same_pass { result.pass.ghost_name ≡ self.entry.pass.ghost_name }
        ensures serving { serving result ≡ record (serving self.entry) {
          server = server_view self.entry.tracing.server known;
        } }
    {
        TracedService { known, ..self }
    }

    /// How many requests were answered and have no span, since memory for it was refused, or the
    /// generator gave only zeros. It stops at 2^64 - 1.
    pub fn untraced(&self) -> u64
        ensures { result ≡ (serving self.now).untraced }
    {
        self.untraced
    }

    /// How many calls of the handler on the spans of requests were left out, since memory for them
    /// was refused. It stops at 2^64 - 1.
    pub fn left_out(&self) -> u64
        ensures { result ≡ (serving self.now).left_out }
    {
        self.left_out
    }

    /// The handler.
    pub fn handler(&self) -> &H
        ensures { result.now ≡ (serving self.now).handler }
    {
        &self.handler
    }
}

/// What came of a request that is answered by this status: it is an error from 500 to 599 (Semantic
/// Conventions, "HTTP spans", "Status").
fn ending_of(status: StatusCode) -> Ending<'static>
    ensures { ending_view result ≡ ending_of status }
{
    let error_type = if status.is_server_error() {
        Some(status.as_str())
    } else {
        None
    };
    Ending {
        status: Some(status.as_u16()),
        error_type,
    }
}

impl<'a, S, H, P, R, C> Service for TracedService<'a, S, H, P, R, C>
where
    S: Sampler,
    H: Handler<P>,
    P: EndPass<SpanData>,
    R: Rng,
    C: Clock,
{
    ghost use Rattle.traced_http.specs.Serves.{Serves, serving};

    ghost answers = { λ old request response new. Serves S.meaning R.stream C.tells H.routes H.answers
        P.admits (serving old) request response (serving new) };

    /// Answers a request within its span. It never fails.
    fn call(&mut self, request: &Request<Bytes>, response: &mut Response) -> Result<(), AllocError>
        requires { IsBlank response.old }
        ensures ok { OnOk result (Serves S.meaning R.stream C.tells H.routes H.answers P.admits
            (serving self.old) request.now response.new (serving self.new)) }
        ensures err { OnErr result (self.new ≡ self.old) }
        ensures never { IsOk result }
    {
        let begun = self.tracing.clock.now();
        let route = self.handler.route(request);
        let span = self
            .tracing
            .start_if_any(self.alloc, &self.known, route, request, begun);
        let Left { span, left_out } = lend(&mut self.handler, request, span, self.pass, response);
        let ended = self.tracing.clock.now();
        let has_ended = end_if_any(span, ending_of(response.status), self.pass, ended);
        say_date(self.alloc, response, ended);
        self.untraced = count_untraced(self.untraced, has_ended);
        self.left_out = self.left_out.saturating_add(left_out);
        Ok(())
    }
}
