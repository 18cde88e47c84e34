//! What writes a trace.

use http_connection::Pieces;
use std::alloc::AllocError;
use trace_lines::TraceText;
use view_json::TraceJson;
use view_pages::TracePage;

/// What writes a trace, in pieces.
#[derive(Drop)]
pub enum SitePage {
    /// A page for a browser.
    Page(TracePage),
    /// A text for a terminal.
    Text(TraceText),
    /// OTLP's JSON for a program.
    Json(TraceJson),
}

impl Pieces for SitePage {
    ghost use Rattle.view_service.specs.Drawn.{SiteWrites};

    ghost writes = { λ page bytes. SiteWrites page bytes };

    fn next(&mut self, out: &mut Vec<u8>) -> Result<bool, AllocError> {
        match self {
            SitePage::Page(page) => match page.next(out) {
                Ok(more) => Ok(more),
                Err(_) => Err(AllocError),
            },
            SitePage::Text(text) => match text.next(out) {
                Ok(more) => Ok(more),
                Err(_) => Err(AllocError),
            },
            SitePage::Json(json) => json.next(out),
        }
    }
}
