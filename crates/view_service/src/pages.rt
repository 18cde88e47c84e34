//! What writes pages.

ghost use Rattle.std.specs.Prelude.{◌≡◌, ℕ, IfOk, List, ⊤};

use crate::filter::TraceFilter;
use crate::keeper::{Counts, Listed};
use http_connection::Pieces;
use otlp_receiver::reply::Tallies;
use std::alloc::AllocError;

/// How a list of traces is shown.
#[derive(Clone, Copy, Debug, PartialEq, Eq)]
pub enum ListForm {
    /// A page for a browser.
    Page,
    /// JSON, for programs.
    Json,
}

/// How a trace is shown.
#[derive(Clone, Copy, Debug, PartialEq, Eq)]
pub enum TraceForm {
    /// A page for a browser.
    Page,
    /// A text for a terminal.
    Text,
    /// OTLP's JSON, for programs.
    Json,
}

/// What a list was asked for with.
#[derive(Clone, Copy, Debug)]
pub struct Asked<'a> {
    /// The query, without its `?`.
    pub query: &'a str,
    /// The host that was asked, or nothing where it isn't known.
    pub host: &'a str,
}

/// How many traces there are beside those of a list.
#[derive(Clone, Copy, Debug, PartialEq, Eq)]
pub struct Extent {
    /// How many traces are kept, in the list or not.
    pub total: u64,
    /// Whether the filter takes more traces, which are older than those of the list.
    pub has_more: bool,
}

/// What writes the pages of a service, each to the end of a list of bytes, or in pieces.
///
/// Where memory is refused, each answers `AllocError`.
pub trait Pages<S, D> {
    ghost use Rattle.view_service.specs.declared.pages.TraceForm.{TraceForm};

    /// Which traces a list has.
    type Filter: TraceFilter<S, D> + Drop;

    /// What writes a trace.
    type Page: Pieces + Drop;

    // A trace with these spans is shown so in this form. An `impl` says so, if it can say that.
    ghost draws: { Self → TraceForm → ℕ → List S → List ℕ → Type 0 } = { λ _ _ _ _ _. ⊤ };

    /// Which traces are asked for by the query of a list. None where it can't be read: what was
    /// written then says why, in this form.
    fn filter(
        &self,
        out: &mut Vec<u8>,
        form: ListForm,
        query: &str,
    ) -> Result<Option<Self::Filter>, AllocError>;

    /// A list of traces, the newest first, which a filter took.
    fn list(
        &self,
        out: &mut Vec<u8>,
        form: ListForm,
        asked: &Asked<'_>,
        filter: &Self::Filter,
        traces: &[Listed<D>],
        extent: Extent,
    ) -> Result<(), AllocError>;

    /// A trace, in a form.
    fn trace(&self, form: TraceForm, trace: u128, spans: Vec<S>) -> Result<Self::Page, AllocError>
        ensures { IfOk result (λ page. (bytes : List ℕ) → Self.Page.writes page bytes
            → draws self.now form trace spans.items bytes) };

    /// Appends the page of 404: nothing is at this path.
    fn missing(&self, out: &mut Vec<u8>) -> Result<(), AllocError>;

    /// The stylesheet of all pages.
    fn style(&self) -> &'static str;

    /// The script of all pages. Each page works without it.
    fn script(&self) -> &'static str;

    /// What is counted, and the traces that were evicted last, the last one first, in JSON.
    fn stats(
        &self,
        out: &mut Vec<u8>,
        spans: &Counts,
        tallies: &Tallies,
        last_evicted: &[u128],
    ) -> Result<(), AllocError>;

    /// What is counted, for Prometheus.
    fn metrics(
        &self,
        out: &mut Vec<u8>,
        spans: &Counts,
        tallies: &Tallies,
    ) -> Result<(), AllocError>;
}
