//! Reads `traceparent`.

ghost use Rattle.std.specs.Prelude.{◌≡◌, ◌<◌, ◌≤◌, length, option_map, slice_range};
ghost use Rattle.otlp_ids.specs.SpanContext.{context_view};
ghost use Rattle.trace_context.specs.Traceparent as spec;

use crate::digits::{lower_byte, lower_bytes};
use otlp_ids::{SpanContext, SpanId, TraceFlags, TraceId};
use std::alloc::Allocator;

/// Whether dashes are where they have to be.
#[tactic(auto, unfolding(crate::specs::Traceparent::has_dashes))]
fn has_dashes(text: &[u8]) -> bool
    requires { 55 ≤ length text.now }
    ensures { result ≡ spec.has_dashes text.now }
{
    text[2] == b'-'
        && text[35] == b'-'
        && text[52] == b'-'
        && (text.len() == 55 || text[55] == b'-')
}

/// The version, if a text of this length may have it.
#[tactic(auto, unfolding(crate::specs::Traceparent::is_version, crate::specs::Traceparent::version_of))]
fn read_version(text: &[u8]) -> Option<u8>
    requires { 55 ≤ length text.now }
    ensures { result ≡ spec.version_of text.now }
{
    let version = lower_byte(&text[0..2])?;
    if version != 255 && (version != 0 || text.len() == 55) {
        Some(version)
    } else {
        None
    }
}

/// The trace id that these digits spell.
#[tactic(auto, unfolding(crate::specs::Traceparent::trace_of))]
fn read_trace(text: &[u8]) -> Option<TraceId>
    ensures { option_map (λ id. id.0) result ≡ spec.trace_of text.now }
{
    let id = TraceId(lower_bytes(text)?);
    if id.is_valid() { Some(id) } else { None }
}

/// The span id that these digits spell.
#[tactic(auto, unfolding(crate::specs::Traceparent::span_of))]
fn read_span(text: &[u8]) -> Option<SpanId>
    ensures { option_map (λ id. id.0) result ≡ spec.span_of text.now }
{
    let id = SpanId(lower_bytes(text)?);
    if id.is_valid() { Some(id) } else { None }
}

/// The context that a `traceparent` gives, with an empty trace state; `None` where the text is none
/// (W3C Trace Context, "Traceparent Header", "Versioning of traceparent").
///
/// Version 00 is 55 bytes long; a later one may go on after a dash, and what follows doesn't count.
/// Digits are in lower case, version `ff` isn't one, and identifiers of zeros alone are invalid. Of
/// the flags two are kept: 01, [`TraceFlags::sampled`], and 02, that the trace id is random (W3C
/// Trace Context level 2, "Random Trace ID Flag"). The context is remote.
#[tactic(auto, unfolding(crate::specs::Traceparent::traceparent))]
pub fn read_traceparent<A: Allocator>(alloc: A, text: &[u8]) -> Option<SpanContext<A>>
    ensures { option_map context_view result ≡ spec.traceparent text.now }
{
    if text.len() < 55 || !has_dashes(text) {
        return None;
    }
    read_version(text)?;
    let trace = read_trace(&text[3..35])?;
    let span = read_span(&text[36..52])?;
    let flags = lower_byte(&text[53..55])?;
    Some(SpanContext {
        trace,
        span,
        flags: TraceFlags(flags % 4),
        remote: true,
        state: String::new(alloc),
    })
}
