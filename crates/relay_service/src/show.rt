//! Requests for pages.

ghost use Rattle.std.specs.Prelude.{◌≡◌, ◌++◌, ◌∷◌, [], IfOk, OnOk};
ghost use Rattle.http.specs.Request.{head_of};
ghost use Rattle.http_server.specs.Response.{IsBlank};
ghost use Rattle.otlp_receiver.specs.Pages.{IsPage};
ghost use Rattle.relay_service.specs.Shows.{AnswersPage, ShowsPage, health_code, health_words};
ghost use Rattle.relay_service.specs.Stats.{metrics_text};
ghost use Rattle.otlp_receiver.specs.declared.reply.format.Format.TheVariants as formats;
ghost use Rattle.relay_service.specs.declared.route.Page.TheVariants as pages;

use crate::lost::write_lost;
use crate::metrics::write_metrics;
use crate::receive::either;
use crate::route::{Page, route_of};
use crate::stats::write_stats;
use bytes::Bytes;
use http::{Request, StatusCode};
use http_server::Response;
use otlp_receiver::reply::{
    Denial, Format, denial_format, fill_denial, fill_page, is_read, path_of,
};
use relay_queue::{BodyKeeper, Report};
use std::alloc::{AllocError, Global};

/// So many lost spans are listed at most. (profile)
const MOST_LISTED: usize = 1_000;

/// The status that says whether the service is well.
fn health_status(has_failed: bool, refuses: bool) -> StatusCode
    ensures { result ≡ health_code has_failed refuses }
{
    if has_failed {
        return StatusCode::SERVICE_UNAVAILABLE;
    }
    if refuses {
        StatusCode::SERVICE_UNAVAILABLE
    } else {
        StatusCode::OK
    }
}

/// The words that say whether the service is well.
fn health_words(has_failed: bool, refuses: bool) -> &'static str
    ensures { result.now ≡ health_words has_failed refuses }
{
    if has_failed {
        return "what keeps traces has failed";
    }
    if refuses {
        "the collector refuses whatever it is sent"
    } else {
        "ok"
    }
}

/// Makes a blank response say whether the service is well.
fn fill_health(
    alloc: Global,
    response: &mut Response,
    has_failed: bool,
    refuses: bool,
) -> Result<(), AllocError>
    requires { IsBlank response.old }
    ensures { OnOk result (IsPage (health_code has_failed refuses) formats.Text
        (health_words has_failed refuses ++ 10 ∷ []) response.new) }
{
    let mut body = Vec::new(alloc);
    body.extend_from_slice(health_words(has_failed, refuses).as_bytes())?;
    body.push(b'\n')?;
    fill_page(
        response,
        health_status(has_failed, refuses),
        Format::Text,
        body,
    )?;
    Ok(())
}

/// What became of what was received, as Prometheus reads it.
fn metrics_of(alloc: Global, report: &Report, connections: u64) -> Result<Vec<u8>, AllocError>
    ensures { IfOk result (λ body. body.items ≡ metrics_text report.now connections) }
{
    let mut text = String::new(alloc);
    write_metrics(&mut text, report, connections)?;
    Ok(text.into_bytes())
}

/// What shows what became of what a keeper kept.
#[derive(Clone, Copy)]
pub(crate) struct Viewer<'a, K> {
    pub(crate) alloc: Global,
    pub(crate) keeper: &'a K,
    /// Whether the keeper failed to keep a body.
    pub(crate) has_failed: bool,
    /// How many connections were taken.
    pub(crate) connections: u64,
}

impl<'a, K: BodyKeeper> Viewer<'a, K> {
    /// Makes a blank response say whether the service is well.
    fn show_health(&self, response: &mut Response) -> Result<(), AllocError>
        requires { IsBlank response.old }
        ensures { OnOk result (ShowsPage K.reports K.names self.now.keeper.now self.now.has_failed
            self.now.connections pages.Health response.new) }
    {
        let report = self.keeper.report();
        let has_failed = either(self.has_failed, report.has_failed);
        fill_health(self.alloc, response, has_failed, report.refusals > 0)?;
        Ok(())
    }

    /// Makes a blank response the metrics.
    fn show_metrics(&self, response: &mut Response) -> Result<(), AllocError>
        requires { IsBlank response.old }
        ensures { OnOk result (ShowsPage K.reports K.names self.now.keeper.now self.now.has_failed
            self.now.connections pages.Metrics response.new) }
    {
        let report = self.keeper.report();
        let body = metrics_of(self.alloc, &report, self.connections)?;
        fill_page(response, StatusCode::OK, Format::Prometheus, body)?;
        Ok(())
    }

    /// Makes a blank response what became of what was received, in JSON.
    fn show_stats(&self, response: &mut Response) -> Result<(), AllocError>
        requires { IsBlank response.old }
        ensures { OnOk result (ShowsPage K.reports K.names self.now.keeper.now self.now.has_failed
            self.now.connections pages.Stats response.new) }
    {
        let report = self.keeper.report();
        let body = write_stats(self.alloc, &report)?;
        fill_page(response, StatusCode::OK, Format::Json, body)?;
        Ok(())
    }

    /// Makes a blank response the spans that were lost last, in JSON.
    fn show_lost(&self, response: &mut Response) -> Result<(), AllocError>
        requires { IsBlank response.old }
        ensures { OnOk result (ShowsPage K.reports K.names self.now.keeper.now self.now.has_failed
            self.now.connections pages.Lost response.new) }
    {
        let spans = self.keeper.lost(self.alloc, MOST_LISTED)?;
        let body = write_lost(self.alloc, spans.as_slice())?;
        fill_page(response, StatusCode::OK, Format::Json, body)?;
        Ok(())
    }

    /// Makes a blank response a page.
    fn fill(&self, page: Page, response: &mut Response) -> Result<(), AllocError>
        requires { IsBlank response.old }
        ensures { OnOk result (ShowsPage K.reports K.names self.now.keeper.now self.now.has_failed
            self.now.connections page response.new) }
    {
        match page {
            Page::Health => self.show_health(response),
            Page::Metrics => self.show_metrics(response),
            Page::Stats => self.show_stats(response),
            Page::Lost => self.show_lost(response),
        }
    }

    /// Makes a blank response the answer to a request for a page.
    ///
    /// # Errors
    ///
    /// `AllocError` where memory was refused.
    pub(crate) fn show(
        &self,
        request: &Request<Bytes>,
        response: &mut Response,
    ) -> Result<(), AllocError>
        requires { IsBlank response.old }
        ensures { OnOk result (AnswersPage K.reports K.names self.now.keeper.now
            self.now.has_failed self.now.connections (head_of request.now) response.new) }
    {
        let Some(page) = route_of(path_of(request)) else {
            fill_denial(response, Denial::NoPath, denial_format(Some(request)))?;
            return Ok(());
        };
        if !is_read(request.method().as_str()) {
            fill_denial(response, Denial::PageMethod, denial_format(Some(request)))?;
            return Ok(());
        }
        self.fill(page, response)?;
        Ok(())
    }
}
