//! A client, whose requests have spans.

ghost use Rattle.std.specs.Prelude.{◌≡◌, Err, IfSome, None, Some};
ghost use Rattle.std.specs.Option.{option_copied};
ghost use Rattle.std.specs.Result.{result_map_both};
ghost use Rattle.model_span.specs.Starts.{HeldSpan};
ghost use Rattle.trace_api.specs.Endings.{ending_view};
ghost use Rattle.trace_api.specs.ExtCalls.{DoesAll};
ghost use Rattle.otlp_http.specs.Outcomes.{reply_view};
ghost use Rattle.otlp_ids.specs.SpanContext.{parent_view};
ghost use Rattle.http_client.specs.Refusals as refusals;
ghost use Rattle.http_client.specs.Requests.{get_request, request_view};
ghost use Rattle.traced_http.specs.Methods.{standard_methods};
ghost use Rattle.traced_http.specs.Sends.{Sends};
ghost use Rattle.traced_http.specs.ClientSpans.{ending_of, failure_of, is_failure, version_calls};
ghost use Rattle.traced_http.specs.ClientSpans.{version_of};

use crate::client::start::{Begun, begin};
use crate::method::KnownMethods;
use crate::span::end_if_any;
use http_client::{
    ClientRequest, KeptConnection, NewConnections, SendFault, Transport, refusal_of,
};
use http_exporter::Dial;
use itoa::Buffer;
use otlp_http::{Reply, Target};
use otlp_ids::{OutOfMemory, SpanContext};
use otlp_sampler::Sampler;
use otlp_span::SpanData;
use rand_core::Rng;
use std::alloc::Global;
use std::marker::Model;
use trace_api::{Clock, EndPass, Ending, Span, SpanExt, Tracer, count_untraced};

/// What a client works with.
#[derive(Drop)]
pub struct ClientParts<'a, S: Sampler, R, C, D> {
    /// It starts the spans.
    pub tracer: Tracer<'a, S>,
    /// It draws their identifiers.
    pub rng: R,
    /// They start and end at its moments.
    pub clock: C,
    /// It gives connections.
    pub dial: D,
}

/// Sends requests, each within a span of the kind client, over [`NewConnections`] or a
/// [`KeptConnection`]. In contracts it is a `ClientWith`.
#[derive(Drop)]
pub struct Client<'a, S: Sampler, R, C, T> {
    alloc: Global,
    parts: ClientParts<'a, S, R, C, T>,
    known: KnownMethods,
    untraced: u64,
}

impl<'a, S: Sampler, R, C, T> Model for Client<'a, S, R, C, T> {
    ghost use Rattle.traced_http.specs.Sends.{ClientWith};

    ghost Value = { ClientWith S R C T };

    ghost view = { λ c. record {
      tracer = c.parts.tracer;
      rng = c.parts.rng;
      clock = c.parts.clock;
      dial = c.parts.dial;
      methods = c.known;
      untraced = c.untraced;
    } };
}

/// Whether a status says that the request failed: from 400 on, or below 100 (Semantic Conventions,
/// "HTTP spans", "Status").
fn is_failure(status: u16) -> bool
    ensures { result ≡ is_failure status }
{
    status >= 400 || status < 100
}

/// What is wrong with a reply, if something is: its status, or else that its body could not be had.
fn failure_of<'a>(reply: &Reply, digits: &'a mut Buffer) -> Option<&'a str>
    ensures { option_copied result ≡ failure_of (reply_view reply.now) }
{
    if is_failure(reply.status) {
        return Some(digits.format(reply.status));
    }
    match &reply.body {
        Ok(_) => None,
        Err(_) => Some("no_body"),
    }
}

/// What came of a request, as its span says it.
fn ending_of<'a>(reply: &Result<Reply, SendFault>, digits: &'a mut Buffer) -> Ending<'a>
    ensures { ending_view result
        ≡ ending_of (result_map_both reply_view (λ fault. fault) reply.now) }
{
    match reply {
        Ok(reply) => Ending {
            status: Some(reply.status),
            error_type: failure_of(reply, digits),
        },
        Err(fault) => Ending {
            status: None,
            error_type: Some(fault.error_type()),
        },
    }
}

/// The version of HTTP that the connection of a request spoke, if there was one.
fn version_of(reply: &Result<Reply, SendFault>) -> Option<&'static str>
    ensures { option_copied result
        ≡ version_of (result_map_both reply_view (λ fault. fault) reply.now) }
{
    match reply {
        Ok(_) | Err(SendFault::NotSent | SendFault::NoReply(_)) => Some("1.1"),
        Err(_) => None,
    }
}

/// Says on the span which version of HTTP its connection spoke, if there was one. There is no span
/// any more where memory for that was refused.
#[tactic(auto, using(crate::proofs::Closed::says_nothing, crate::proofs::Closed::says_version))]
fn say_version(span: Option<Span>, reply: &Result<Reply, SendFault>) -> Option<Span>
    ensures { IfSome result (λ said. (held : HeldSpan) × (span ≡ Some held)
        × DoesAll (version_calls (result_map_both reply_view (λ fault. fault) reply.now))
        held said) }
{
    let Some(mut span) = span else {
        return None;
    };
    let Some(version) = version_of(reply) else {
        return Some(span);
    };
    match span.set("network.protocol.version", version) {
        Ok(()) => Some(span),
        Err(OutOfMemory) => None,
    }
}

impl<'a, S: Sampler, R, C, D: Dial> Client<'a, S, R, C, NewConnections<D>> {
    /// A client that has sent no request, and sends each over a connection of its own. It takes no
    /// memory.
    pub fn new(alloc: Global, parts: ClientParts<'a, S, R, C, D>) -> Self
        ensures { result ≡ record {
          tracer = parts.entry.tracer;
          rng = parts.entry.rng;
          clock = parts.entry.clock;
          dial = parts.entry.dial;
          methods = standard_methods;
          untraced = 0;
        } }
    {
        let ClientParts {
            tracer,
            rng,
            clock,
            dial,
        } = parts;
        let parts = ClientParts {
            tracer,
            rng,
            clock,
            dial: NewConnections::new(dial),
        };
        Client {
            alloc,
            parts,
            known: KnownMethods::default(),
            untraced: 0,
        }
    }
}

impl<'a, S: Sampler, R, C, D: Dial> Client<'a, S, R, C, KeptConnection<D>> {
    /// A client that has sent no request, and keeps the connection of one for the next. It takes no
    /// memory.
    pub fn keeping(alloc: Global, parts: ClientParts<'a, S, R, C, D>) -> Self
        ensures { result ≡ record {
          tracer = parts.entry.tracer;
          rng = parts.entry.rng;
          clock = parts.entry.clock;
          dial = record { dial = parts.entry.dial; kept = None };
          methods = standard_methods;
          untraced = 0;
        } }
    {
        let ClientParts {
            tracer,
            rng,
            clock,
            dial,
        } = parts;
        let parts = ClientParts {
            tracer,
            rng,
            clock,
            dial: KeptConnection::new(dial),
        };
        Client {
            alloc,
            parts,
            known: KnownMethods::default(),
            untraced: 0,
        }
    }
}

impl<'a, S, R, C, T> Client<'a, S, R, C, T>
where
    S: Sampler,
    R: Rng,
    C: Clock,
    T: Transport,
{
    /// The same with these known methods in place of the standard ones: any other is `_OTHER` in
    /// `http.request.method`, and `HTTP` in the name of a span.
    pub fn with_known_methods(self, known: KnownMethods) -> Self
        ensures { result ≡ record self.entry { methods = known } }
    {
        Client { known, ..self }
    }

    /// How many requests have no span, since memory for it was refused, or the generator gave only
    /// zeros. It stops at 2^64 - 1.
    pub fn untraced(&self) -> u64
        ensures { result ≡ self.now.untraced }
    {
        self.untraced
    }

    /// Gets what is at the target: sends a GET, without fields of its own and without a body, as
    /// [`Client::send`] does (RFC 9110, section 9.3.1).
    ///
    /// # Errors
    ///
    /// Why there is no reply: `OutOfMemory` where memory for the text of the request was refused,
    /// `NoConnection` where the dial gave no link, `NotSent` where a write failed, and `NoReply`
    /// where what came back is no reply.
    pub fn get<P: EndPass<SpanData>>(
        &mut self,
        parent: Option<&SpanContext>,
        target: &Target,
        pass: &mut P,
    ) -> Result<Reply, SendFault>
        ensures { Sends S.meaning R.stream C.tells P.admits
            (T.asks target.now get_request)
            self.old (parent_view parent.entry) get_request.method target.now pass.old
            (result_map_both reply_view (λ fault. fault) result) self.new pass.new }
    {
        let request = ClientRequest {
            method: "GET",
            fields: &[],
            body: b"",
        };
        self.send_taken(parent, target, &request, pass)
    }

    /// Sends a request to the target, and answers the reply (RFC 9110, section 9; RFC 9112). It goes
    /// over a connection of its own, which is closed after it, or over the one that is kept, as
    /// [`Client::new`] or [`Client::keeping`] says. The request has a span, a child of the
    /// parent, whose context it carries (W3C Trace Context), and which ends on the pass with the
    /// reply's status, or with why there is none. A reply from 400 on, or without its body, is an
    /// error of the span; it is answered all the same. Of a reply as much is read as
    /// [`HeadLimits::default`] says, of one to a `HEAD` no body, and no redirect is followed.
    ///
    /// [`HeadLimits::default`]: otlp_http::HeadLimits
    ///
    /// The head has the request line, `Host`, what carries the context, the request's own fields,
    /// `Content-Length` where there is a body or the method is `PATCH`, `POST` or `PUT`, and
    /// `Connection`.
    ///
    /// Where memory for the span or for what carries its context is refused, or the generator gives
    /// only zeros, the request is sent without, and counted. It is counted too where memory is
    /// refused at the end, and then no span goes to the pass.
    ///
    /// # Errors
    ///
    /// Where the request is bad, nothing is sent, there is no span, and nothing changes: the first
    /// that holds of `BadMethod`, where the method is no token or is `CONNECT`; `BadField`, where
    /// the name of a field is no token, or is that of a field which the client sets itself or
    /// `Transfer-Encoding`, or a value has a control byte that is no tab; and `BadBody`, where a
    /// `TRACE` has a body (RFC 9110, sections 5, 9.1 and 9.3.8).
    ///
    /// Else why there is no reply: `OutOfMemory` where memory for the head was refused,
    /// `NoConnection` where the dial gave no link, `NotSent` where a write failed, and `NoReply`
    /// where what came back is no reply.
    pub fn send<P: EndPass<SpanData>>(
        &mut self,
        parent: Option<&SpanContext>,
        target: &Target,
        request: &ClientRequest<'_>,
        pass: &mut P,
    ) -> Result<Reply, SendFault>
        ensures refused { IfSome (refusals.refusal (request_view request.now)) (λ fault.
            (result ≡ Err fault) × (self.new ≡ self.old) × (pass.new ≡ pass.old)) }
        ensures sent { refusals.refusal (request_view request.now) ≡ None →
            Sends S.meaning R.stream C.tells P.admits
            (T.asks target.now (request_view request.now))
            self.old (parent_view parent.entry) (request_view request.now).method target.now
            pass.old (result_map_both reply_view (λ fault. fault) result) self.new pass.new }
    {
        if let Some(fault) = refusal_of(request) {
            return Err(fault);
        }
        self.send_taken(parent, target, request, pass)
    }

    /// Sends a request that isn't refused.
    fn send_taken<P: EndPass<SpanData>>(
        &mut self,
        parent: Option<&SpanContext>,
        target: &Target,
        request: &ClientRequest<'_>,
        pass: &mut P,
    ) -> Result<Reply, SendFault>
        ensures { Sends S.meaning R.stream C.tells P.admits
            (T.asks target.now (request_view request.now))
            self.old (parent_view parent.entry) (request_view request.now).method target.now
            pass.old (result_map_both reply_view (λ fault. fault) result) self.new pass.new }
    {
        let parts = &mut self.parts;
        let begun = parts.clock.now();
        let Begun { span, fields } = begin(
            self.alloc,
            &parts.tracer,
            &mut parts.rng,
            &self.known,
            parent,
            request.method,
            target,
            begun,
        );
        let reply = parts.dial.ask(self.alloc, target, request, &fields);
        let ended = parts.clock.now();
        let mut digits = Buffer::new();
        let said = say_version(span, &reply);
        let has_ended = end_if_any(said, ending_of(&reply, &mut digits), pass, ended);
        self.untraced = count_untraced(self.untraced, has_ended);
        reply
    }
}
