//! What a program answers requests with.

ghost use Rattle.std.specs.Prelude.{ℕ, List, None, OnErr, OnOk, Option, Some, ⊤};
ghost use Rattle.std.specs.Option.{option_copied};
ghost use Rattle.http.specs.declared.request.Request.{Request};
ghost use Rattle.http_server.specs.declared.response.Response.{Response};
ghost use Rattle.http_server.specs.Response.{IsBlank};
ghost use Rattle.traced_http.specs.RequestSpans.{LentSpan};

use crate::server::request_span::{Origin, RequestSpan};
use bytes::Bytes;
use http::Request;
use http_server::Response;
use std::alloc::AllocError;

/// Answers requests, each within a span. The handler's own spans end on a `P`, which is a pass of
/// the thread.
pub trait Handler<P> {
    /// What the route of a request may be, if it has one. An `impl` says so, if it can say that.
    ghost routes: { Self → Request (List ℕ) → Option (List ℕ) → Type 0 } = { λ _ _ _. ⊤ };

    /// From the first state, the first pass and the first span, which is lent, this response answers
    /// the request, or there is none for lack of memory, and the second state, pass and span are
    /// left. An `impl` says so, if it can say that.
    ghost answers: { Self → P → LentSpan → Request (List ℕ) → Option Response → Self → P → LentSpan
        → Type 0 } = { λ _ _ _ _ _ _ _ _. ⊤ };

    /// The route that the request is answered by, if there is one: a path with names in place of
    /// what varies in it, as `/stock/{id}` (Semantic Conventions, "http.route"). The span is named
    /// by it, so a handler is to have few of them.
    fn route(&self, request: &Request<Bytes>) -> Option<&str>
        ensures { routes self.now request.now (option_copied result) };

    /// Fills `response`, which comes as a 200 with no header and no body. `span` is the request's
    /// span, on which the handler may say more; it ends once the response is there. Spans of the
    /// handler's own, which end on `pass`, are children of `span.context()`.
    ///
    /// # Errors
    ///
    /// `AllocError` where memory was refused; the request is then answered by 503. For any other
    /// fault the handler has a response of its own.
    fn handle<O: Origin>(
        &mut self,
        request: &Request<Bytes>,
        span: &mut RequestSpan<O>,
        pass: &mut P,
        response: &mut Response,
    ) -> Result<(), AllocError>
        requires { IsBlank response.old }
        ensures ok { OnOk result (answers self.old pass.old span.old request.now
            (Some response.new) self.new pass.new span.new) }
        ensures err { OnErr result (answers self.old pass.old span.old request.now
            None self.new pass.new span.new) };
}
