//! The site.

ghost use Rattle.std.specs.Prelude.{◌≡◌, ◌++◌, IfOk, IsOk, List, OnOk, string_bytes, ℕ};
ghost use Rattle.trace_lines.specs.Texts.{DrawsText};
ghost use Rattle.view_service.specs.Drawn.{DrawsJson, Draws, SiteWrites};

use crate::counts::{answered_of, stats_of};
use crate::lists::summaries_of;
use crate::metrics::write_metrics;
use crate::page::SitePage;
use crate::script::SCRIPT;
use crate::site_filter::SiteFilter;
use crate::{Asked, Counts, Extent, ListForm, Listed, Pages, Tallies, TraceForm};
use otlp_ids::TraceId;
use std::alloc::{AllocError, Global};
use std::sync::Arc;
use trace_lines::{Filter, FilterFault, TraceText};
use trace_store::{TraceDigest, ViewSpan, trace_key};
use view_json::{TraceJson, write_stats, write_traces};
use view_pages::{STYLE, TracePage, write_list_page, write_mistake_page, write_notice_page};
use view_query::{Mistake, Query, SearchFault};

/// The pages of `view_pages`, and the answers for programs of `view_json`.
#[derive(Clone, Copy, Debug)]
pub struct Site {
    alloc: Global,
}

/// What is said where the trace after which a list begins is none.
const BAD_AFTER: &str = "`after` is no trace; write its identifier, 32 hexadecimal digits";

impl Site {
    /// The site, whose pages take this memory.
    pub fn new(alloc: Global) -> Site {
        Site { alloc }
    }
}

/// Appends a text that could be written.
fn put<E: Drop>(out: &mut Vec<u8>, text: &String, written: Result<(), E>) -> Result<(), AllocError>
    ensures written { OnOk result (IsOk written) }
    ensures bytes { OnOk result (out.new.items ≡ out.old.items ++ string_bytes text.now) }
{
    if written.is_err() {
        return Err(AllocError);
    }
    Ok(out.extend_from_slice(text.as_bytes())?)
}

/// The page of a trace.
fn page_of(alloc: Global, trace: u128, spans: Vec<Arc<ViewSpan>>) -> SitePage
    ensures { (bytes : List ℕ) → SiteWrites result bytes
        → Draws TraceForm.Page trace spans.items bytes }
{
    SitePage::Page(TracePage::new(alloc, trace, spans))
}

/// A trace as a text.
fn text_of(alloc: Global, spans: Vec<Arc<ViewSpan>>) -> SitePage
    ensures { (bytes : List ℕ) → SiteWrites result bytes → DrawsText spans.items bytes }
{
    SitePage::Text(TraceText::new(alloc, spans))
}

/// A trace in OTLP's JSON.
fn json_of(alloc: Global, spans: Vec<Arc<ViewSpan>>) -> SitePage
    ensures { (bytes : List ℕ) → SiteWrites result bytes → DrawsJson spans.items bytes }
{
    SitePage::Json(TraceJson::new(alloc, spans))
}

/// Appends why a query can't be read.
fn put_fault(
    alloc: Global,
    out: &mut Vec<u8>,
    form: ListForm,
    advice: &str,
) -> Result<(), AllocError> {
    match form {
        ListForm::Page => {
            let mut text = String::new(alloc);
            let written = write_notice_page(&mut text, "", "This query can't be read", advice);
            put(out, &text, written)
        }
        ListForm::Json => {
            let text = format!(in alloc; "{{\"message\":\"{advice}\"}}")?;
            Ok(out.extend_from_slice(text.as_bytes())?)
        }
    }
}

/// Appends why a search can't be read, and from where on.
fn put_mistake(
    alloc: Global,
    out: &mut Vec<u8>,
    form: ListForm,
    filter: &Filter,
    mistake: Mistake,
) -> Result<(), AllocError> {
    let why = mistake.why.to_string(alloc)?;
    match form {
        ListForm::Page => {
            let mut text = String::new(alloc);
            let written = write_mistake_page(&mut text, filter, mistake.at as u64, &why);
            put(out, &text, written)
        }
        ListForm::Json => {
            let at = mistake.at;
            let text = format!(in alloc; "{{\"message\":\"{why}\",\"at\":{at}}}")?;
            Ok(out.extend_from_slice(text.as_bytes())?)
        }
    }
}

/// The trace that a text names by its identifier, in either case; none where it is empty.
fn after_of(text: &str) -> Option<Option<u128>> {
    if text.is_empty() {
        return Some(None);
    }
    match TraceId::from_hex(text) {
        Ok(trace) => Some(Some(trace_key(&trace.0))),
        Err(_) => None,
    }
}

/// The filter with what it searches for, or what is written where that can't be read.
fn searching(
    alloc: Global,
    out: &mut Vec<u8>,
    form: ListForm,
    filter: Filter,
) -> Result<Option<SiteFilter>, AllocError> {
    let Some(after) = after_of(&filter.after) else {
        put_fault(alloc, out, form, BAD_AFTER)?;
        return Ok(None);
    };
    let read = Query::parse(alloc, &filter.search);
    match read {
        Ok(query) => Ok(Some(SiteFilter {
            filter,
            query,
            after,
        })),
        Err(SearchFault::OutOfMemory) => Err(AllocError),
        Err(SearchFault::Mistake(mistake)) => {
            put_mistake(alloc, out, form, &filter, mistake)?;
            Ok(None)
        }
    }
}

impl Pages<Arc<ViewSpan>, TraceDigest> for Site {
    ghost use Rattle.view_service.specs.Drawn.{Draws};

    type Filter = SiteFilter;

    type Page = SitePage;

    ghost draws = { λ _ form trace spans page. Draws form trace spans page };

    fn filter(
        &self,
        out: &mut Vec<u8>,
        form: ListForm,
        query: &str,
    ) -> Result<Option<SiteFilter>, AllocError> {
        match Filter::parse(self.alloc, query) {
            Ok(filter) => searching(self.alloc, out, form, filter),
            Err(FilterFault::OutOfMemory) => Err(AllocError),
            Err(fault) => {
                let advice = fault.to_string(self.alloc)?;
                put_fault(self.alloc, out, form, &advice)?;
                Ok(None)
            }
        }
    }

    fn list(
        &self,
        out: &mut Vec<u8>,
        form: ListForm,
        asked: &Asked<'_>,
        filter: &SiteFilter,
        traces: &[Listed<TraceDigest>],
        extent: Extent,
    ) -> Result<(), AllocError> {
        let summaries = summaries_of(self.alloc, traces)?;
        match form {
            ListForm::Page => {
                let (query, host) = (asked.query, asked.host);
                let mut text = String::new(self.alloc);
                let written = write_list_page(
                    &mut text,
                    &filter.filter,
                    query,
                    host,
                    &summaries,
                    extent.total,
                    extent.has_more,
                );
                put(out, &text, written)
            }
            ListForm::Json => {
                let text = write_traces(self.alloc, &summaries)?;
                Ok(out.extend_from_slice(&text)?)
            }
        }
    }

    fn trace(
        &self,
        form: TraceForm,
        trace: u128,
        spans: Vec<Arc<ViewSpan>>,
    ) -> Result<SitePage, AllocError>
        ensures { IfOk result (λ page. (bytes : List ℕ) → SiteWrites page bytes
            → Draws form trace spans.items bytes) }
    {
        match form {
            TraceForm::Page => Ok(page_of(self.alloc, trace, spans)),
            TraceForm::Text => Ok(text_of(self.alloc, spans)),
            TraceForm::Json => Ok(json_of(self.alloc, spans)),
        }
    }

    fn missing(&self, out: &mut Vec<u8>) -> Result<(), AllocError> {
        let advice = "No such page or trace is here. The trace may have been evicted: \
            --keep-spans and --keep-mb say how much is kept.";
        let mut text = String::new(self.alloc);
        let written = write_notice_page(&mut text, "", "Nothing is here", advice);
        put(out, &text, written)
    }

    fn style(&self) -> &'static str {
        STYLE
    }

    fn script(&self) -> &'static str {
        SCRIPT
    }

    fn stats(
        &self,
        out: &mut Vec<u8>,
        spans: &Counts,
        _tallies: &Tallies,
        last_evicted: &[u128],
    ) -> Result<(), AllocError> {
        let text = write_stats(self.alloc, &stats_of(spans), last_evicted)?;
        Ok(out.extend_from_slice(&text)?)
    }

    fn metrics(
        &self,
        out: &mut Vec<u8>,
        spans: &Counts,
        tallies: &Tallies,
    ) -> Result<(), AllocError> {
        let answered = answered_of(self.alloc, tallies)?;
        let mut text = String::new(self.alloc);
        let connections = tallies.connections();
        let written = write_metrics(&mut text, &stats_of(spans), &answered, connections);
        put(out, &text, written)
    }
}
