//! How a handler is lent the span of its request.

ghost use Rattle.std.specs.Prelude.{◌≡◌};
ghost use Rattle.http_server.specs.Response.{IsBlank};
ghost use Rattle.traced_http.specs.RequestSpans.{GoesOnIfAny, lent_span};
ghost use Rattle.traced_http.specs.Serves.{Answered};

use crate::server::handler::Handler;
use crate::server::request_span::{Origin, RequestSpan};
use bytes::Bytes;
use http::{Request, StatusCode};
use http_server::Response;
use std::marker::{Brand, PhantomData};
use trace_api::Span;

/// What a handler left of the span that it was lent.
#[derive(Drop)]
pub(crate) struct Left {
    /// The span, if the request has one.
    pub(crate) span: Option<Span>,
    /// How many calls on it were left out.
    pub(crate) left_out: u64,
}

/// Fills the response: as the handler does, or as 503 where it has no memory.
fn answer<P, H: Handler<P>, O: Origin>(
    handler: &mut H,
    request: &Request<Bytes>,
    span: &mut RequestSpan<O>,
    pass: &mut P,
    response: &mut Response,
)
    requires { IsBlank response.old }
    ensures { Answered H.answers handler.old pass.old span.old request.now response.new
        handler.new pass.new span.new }
{
    if handler.handle(request, span, pass, response).is_ok() {
        return;
    }
    response.clear();
    response.status = StatusCode::SERVICE_UNAVAILABLE;
}

/// Lends the handler the span whose origin it is.
fn lend_from<P, H: Handler<P>, O: Origin>(
    handler: &mut H,
    request: &Request<Bytes>,
    span: Option<Span>,
    pass: &mut P,
    response: &mut Response,
) -> Left
    requires blank { IsBlank response.old }
    requires origin { span ≡ O.origin }
    ensures goes_on { GoesOnIfAny O.origin result.span }
    ensures answered { Answered H.answers handler.old pass.old (lent_span span) request.now
        response.new handler.new pass.new
        (record { span = result.span; left_out = result.left_out }) }
{
    let mut lent: RequestSpan<O> = RequestSpan {
        span,
        left_out: 0,
        origin: PhantomData,
    };
    answer(handler, request, &mut lent, pass, response);
    let RequestSpan {
        span,
        left_out,
        origin: _,
    } = lent;
    Left { span, left_out }
}

/// Lends the handler the span of its request, and fills the response.
pub(crate) fn lend<P, H: Handler<P>>(
    handler: &mut H,
    request: &Request<Bytes>,
    span: Option<Span>,
    pass: &mut P,
    response: &mut Response,
) -> Left
    requires { IsBlank response.old }
    ensures goes_on { GoesOnIfAny span result.span }
    ensures answered { Answered H.answers handler.old pass.old (lent_span span) request.now
        response.new handler.new pass.new
        (record { span = result.span; left_out = result.left_out }) }
{
    lend_from::<P, H, Brand>(handler, request, span, pass, response)
}
