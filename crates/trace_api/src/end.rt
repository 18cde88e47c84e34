//! The end of a span of a request.

ghost use Rattle.std.specs.Prelude.{◌≡◌, OnErr, OnOk, Some};
ghost use Rattle.trace_api.specs.ExtCalls.{DoesAll};
ghost use Rattle.trace_api.specs.Ends.{EndsAs};
ghost use Rattle.trace_api.specs.Endings.{ending_calls, ending_view, error_calls, status_calls};

use crate::attribute::int_value;
use crate::{EndPass, Span, SpanExt};
use otlp_ids::OutOfMemory;
use otlp_span::{SpanData, Status};
use std::alloc::Global;

/// What came of a request.
#[derive(Debug, Clone, Copy)]
pub struct Ending<'a> {
    /// The status that it was answered by, if it was (Semantic Conventions,
    /// "http.response.status_code").
    pub status: Option<u16>,
    /// What went wrong, if something did: the digits of the status, or a word of a few that a
    /// program has (Semantic Conventions, "error.type"). The span's status is then Error.
    pub error_type: Option<&'a str>,
}

/// Says by which status a request was answered.
fn set_status_code(span: &mut Span, status: u16) -> Result<(), OutOfMemory>
    ensures { OnOk result (DoesAll (status_calls (Some status)) span.old span.new) }
{
    span.set("http.response.status_code", int_value(status))
}

/// The same, if it was answered.
fn set_status_if_any(span: &mut Span, status: Option<u16>) -> Result<(), OutOfMemory>
    ensures { OnOk result (DoesAll (status_calls status) span.old span.new) }
{
    match status {
        Some(status) => set_status_code(span, status),
        None => Ok(()),
    }
}

/// Says what went wrong.
fn set_error_type(span: &mut Span, error_type: &str) -> Result<(), OutOfMemory>
    ensures { OnOk result (DoesAll (error_calls error_type.now) span.old span.new) }
{
    span.set("error.type", error_type)?;
    span.set_error("")
}

/// Says what came of a request.
fn set_ending(span: &mut Span, ending: Ending<'_>) -> Result<(), OutOfMemory>
    ensures { OnOk result (DoesAll (ending_calls (ending_view ending.entry)) span.old span.new) }
{
    set_status_if_any(span, ending.status)?;
    match ending.error_type {
        Some(error_type) => set_error_type(span, error_type),
        None => Ok(()),
    }
}

/// Ends the span of a request at a moment, in nanoseconds since 1970, and says on it what came of
/// the request (Semantic Conventions, "HTTP spans", "Status"). It goes to the pass, where it is
/// sampled.
///
/// # Errors
///
/// `OutOfMemory` where memory was refused. The span then goes to no pass.
pub fn end_span<P: EndPass<SpanData>>(
    span: Span,
    ending: Ending<'_>,
    pass: &mut P,
    at: u64,
) -> Result<(), OutOfMemory>
    ensures ended { OnOk result
        (EndsAs P.admits (ending_calls (ending_view ending.entry)) at span pass.old pass.new) }
    ensures refused { OnErr result (pass.new ≡ pass.old) }
{
    let mut span = span;
    set_ending(&mut span, ending)?;
    span.end(pass, at);
    Ok(())
}
