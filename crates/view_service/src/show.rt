//! Requests for pages.

ghost use Rattle.std.specs.Prelude.{◌≡◌, ◌≢◌, [], IfOk, None, OnOk};
ghost use Rattle.http.specs.Request.{head_of};
ghost use Rattle.http_server.specs.Response.{IsBlank};
ghost use Rattle.otlp_receiver.specs.Pages.{IsPage};
ghost use Rattle.otlp_receiver.specs.Posts.{path_of};
ghost use Rattle.view_service.specs.Routes.{Names};
ghost use Rattle.view_service.specs.Shows as spec;
ghost use Rattle.view_service.specs.Shows.{AnswersPage, FitsRoute, ShowsRoute, ShowsTrace};
ghost use Rattle.trace_store.specs.Keys.{trace_key};

use crate::keeper::TraceKeeper;
use crate::pages::{Asked, Extent, ListForm, Pages, TraceForm};
use crate::route::{Route, route_of};
use bytes::Bytes;
use http::{Request, StatusCode};
use http_server::Response;
use otlp_ids::TraceId;
use otlp_receiver::reply::{
    Denial, Format, Tallies, asked_host, denial_format, fill_denial, fill_page, is_read, path_of,
};
use std::alloc::{AllocError, Global};
use std::str;
use std::sync::Arc;
use trace_store::{TraceDigest, ViewSpan, trace_key};

/// The list shows this many traces at most.
const LISTED: usize = 1_000;

/// What the page of a route is written in.
fn format_of(route: Route) -> Format
    ensures { result ≡ spec.format_of route }
{
    match route {
        Route::Style => Format::Css,
        Route::Script => Format::JavaScript,
        Route::TraceText(_) | Route::Health => Format::Text,
        Route::Metrics => Format::Prometheus,
        Route::ApiTraces | Route::ApiTrace(_) | Route::ApiStats => Format::Json,
        Route::List | Route::Trace(_) | Route::Unknown => Format::Html,
    }
}

/// Appends a text.
fn put(out: &mut Vec<u8>, text: &str) -> Result<(), AllocError> {
    Ok(out.extend_from_slice(text.as_bytes())?)
}

/// How the route of a trace shows it.
fn form_of(route: Route) -> TraceForm
    ensures { result ≡ spec.form_of route }
{
    match route {
        Route::TraceText(_) => TraceForm::Text,
        Route::ApiTrace(_) => TraceForm::Json,
        _ => TraceForm::Page,
    }
}

/// What became of a page that was asked for.
#[derive(Clone, Copy, Debug, PartialEq, Eq)]
pub enum Shown {
    /// It is shown.
    Page,
    /// Its query can't be read.
    BadQuery,
    /// Nothing is there.
    Missing,
}

impl Shown {
    /// The status of the answer.
    fn status(self) -> StatusCode
        ensures { result ≡ spec.status_of self }
    {
        match self {
            Shown::Page => StatusCode::OK,
            Shown::BadQuery => StatusCode::BAD_REQUEST,
            Shown::Missing => StatusCode::NOT_FOUND,
        }
    }

    /// What the answer is written in.
    fn format(self, route: Route) -> Format
        ensures { result ≡ spec.format_as self route }
    {
        match self {
            Shown::Page | Shown::BadQuery => format_of(route),
            Shown::Missing => Format::Html,
        }
    }
}

/// What the path of a request names.
fn route_in(request: &Request<Bytes>) -> Route
    ensures { Names (path_of request.now) result }
{
    route_of(path_of(request))
}

/// Why a request with this method is refused, if it is.
fn page_denial(route: Route, method: &str) -> Option<Denial>
    ensures { result ≡ spec.page_denial route method.now }
{
    match route {
        Route::Unknown if method == "POST" => Some(Denial::NoPath),
        Route::Unknown => None,
        _ if is_read(method) => None,
        _ => Some(Denial::PageMethod),
    }
}

/// Makes a blank response what became of a page.
fn answer_page(
    response: &mut Response,
    shown: Shown,
    route: Route,
    body: Vec<u8>,
) -> Result<(), AllocError>
    requires { IsBlank response.old }
    ensures { OnOk result (IsPage (spec.status_of shown) (spec.format_as shown route) body.items
        response.new) }
{
    fill_page(response, shown.status(), shown.format(route), body)
}

/// With what a request asks for a list.
fn asked_in(request: &Request<Bytes>) -> Asked<'_> {
    let query = request.uri().query().unwrap_or("");
    let host = match asked_host(request) {
        Some(host) => str::from_utf8(host).unwrap_or(""),
        None => "",
    };
    Asked { query, host }
}

/// What became of a page, and what writes the rest of it, where it isn't whole.
type Written<R> = (Shown, Option<R>);

/// What shows the spans that a keeper has.
#[derive(Clone, Copy)]
pub(crate) struct Viewer<'a, K, P> {
    pub(crate) alloc: Global,
    pub(crate) keeper: &'a K,
    pub(crate) pages: &'a P,
    pub(crate) tallies: &'a Tallies,
}

impl<'a, K, P> Viewer<'a, K, P>
where
    K: TraceKeeper<Arc<ViewSpan>, TraceDigest>,
    P: Pages<Arc<ViewSpan>, TraceDigest>,
{
    /// Writes that nothing is there.
    fn write_missing(&self, out: &mut Vec<u8>) -> Result<Written<P::Page>, AllocError>
        ensures { IfOk result (λ written. written ≡ (Shown.Missing, None)) }
    {
        self.pages.missing(out)?;
        Ok((Shown::Missing, None))
    }

    /// Writes the list of traces, as the query asks for it.
    fn write_list(
        &self,
        out: &mut Vec<u8>,
        form: ListForm,
        request: &Request<Bytes>,
    ) -> Result<Written<P::Page>, AllocError>
        ensures shown { IfOk result (λ written. written.0 ≢ Shown.Missing) }
        ensures whole { IfOk result (λ written. written.1 ≡ None) }
    {
        let asked = asked_in(request);
        let Some(filter) = self.pages.filter(out, form, asked.query)? else {
            return Ok((Shown::BadQuery, None));
        };
        let mut traces = self.keeper.newest(self.alloc, LISTED + 1, &filter)?;
        let extent = Extent {
            total: self.keeper.counts().traces,
            has_more: traces.len() > LISTED,
        };
        traces.truncate(LISTED);
        self.pages
            .list(out, form, &asked, &filter, &traces, extent)?;
        Ok((Shown::Page, None))
    }

    /// Writes a trace in a form, if it is kept.
    fn write_trace(
        &self,
        out: &mut Vec<u8>,
        form: TraceForm,
        trace: TraceId,
    ) -> Result<Written<P::Page>, AllocError>
        requires { out.old.items ≡ [] }
        ensures { IfOk result (λ written. ShowsTrace K.lends P.draws P.Page.writes
            self.now.keeper.now self.now.pages.now form (trace_key trace.0) written.0
            out.new.items written.1) }
    {
        let trace = trace_key(&trace.0);
        let Some(spans) = self.keeper.copy(self.alloc, trace)? else {
            self.pages.missing(out)?;
            return Ok((Shown::Missing, None));
        };
        let page = self.pages.trace(form, trace, spans)?;
        Ok((Shown::Page, Some(page)))
    }

    /// Writes what is counted.
    fn write_stats(&self, out: &mut Vec<u8>) -> Result<(), AllocError> {
        let last_evicted = self.keeper.last_evicted(self.alloc)?;
        let spans = self.keeper.counts();
        self.pages.stats(out, &spans, self.tallies, &last_evicted)
    }

    /// Writes a page that is always there.
    fn write_fixed(&self, out: &mut Vec<u8>, route: Route) -> Result<(), AllocError> {
        match route {
            Route::Style => put(out, self.pages.style()),
            Route::Script => put(out, self.pages.script()),
            Route::Metrics => self.pages.metrics(out, &self.keeper.counts(), self.tallies),
            Route::ApiStats => self.write_stats(out),
            _ => put(out, "ok\n"),
        }
    }

    /// Writes what a route names.
    fn write(
        &self,
        out: &mut Vec<u8>,
        route: Route,
        request: &Request<Bytes>,
    ) -> Result<Written<P::Page>, AllocError>
        requires { out.old.items ≡ [] }
        ensures fits { IfOk result (λ written. FitsRoute route written.0) }
        ensures shows { IfOk result (λ written. ShowsRoute K.lends P.draws P.Page.writes
            self.now.keeper.now self.now.pages.now route written.0 out.new.items written.1) }
    {
        match route {
            Route::List => self.write_list(out, ListForm::Page, request),
            Route::ApiTraces => self.write_list(out, ListForm::Json, request),
            Route::Trace(trace) | Route::TraceText(trace) | Route::ApiTrace(trace) => {
                self.write_trace(out, form_of(route), trace)
            }
            Route::Unknown => self.write_missing(out),
            _ => {
                self.write_fixed(out, route)?;
                Ok((Shown::Page, None))
            }
        }
    }

    /// Makes a blank response the answer to a request for a page. Where it isn't whole, the answer
    /// is what writes the rest.
    ///
    /// # Errors
    ///
    /// `AllocError` where memory was refused.
    pub(crate) fn show(
        &self,
        request: &Request<Bytes>,
        response: &mut Response,
    ) -> Result<Option<P::Page>, AllocError>
        requires { IsBlank response.old }
        ensures { IfOk result (λ rest. AnswersPage K.lends P.draws P.Page.writes
            self.now.keeper.now self.now.pages.now (head_of request.now) response.new rest) }
    {
        let route = route_in(request);
        if let Some(denial) = page_denial(route, request.method().as_str()) {
            fill_denial(response, denial, denial_format(Some(request)))?;
            return Ok(None);
        }
        let mut out = Vec::new(self.alloc);
        let (shown, rest) = self.write(&mut out, route, request)?;
        answer_page(response, shown, route, out)?;
        Ok(rest)
    }
}
