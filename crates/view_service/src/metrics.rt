//! What is counted, as Prometheus reads it.

ghost use Rattle.std.specs.Prelude.{◌≡◌, ◌++◌, OnOk, string_bytes};
ghost use Rattle.std.specs.List.{flat_map};
ghost use Rattle.view_service.specs.Metrics.{answer_metrics, answered_text, metrics_text};
ghost use Rattle.view_service.specs.Metrics.{pending_metric, span_metrics, trace_metrics};

use otlp_receiver::{push_help, push_metric, push_sample, push_type};
use std::alloc::{AllocError, Allocator};
use view_json::Stats;

/// How many answers had a status.
#[derive(Clone, Copy, Debug)]
pub struct Answered {
    /// The status (RFC 9110, "Status Codes").
    pub status: u16,
    /// How many answers.
    pub answers: u64,
}

/// Appends how many answers had a status.
#[tactic(auto, unfolding(crate::specs::Metrics::answered_text))]
fn push_answered<A: Allocator>(out: &mut String<A>, answered: &Answered) -> Result<(), AllocError>
    ensures { OnOk result (string_bytes out.new
        ≡ string_bytes out.old ++ answered_text answered.now) }
{
    let status = answered.status;
    out.push_str("trace_view_answers_total{status=")?;
    out.push('"')?;
    write!(out, "{status}")?;
    out.push('"')?;
    push_sample(out, "}", answered.answers)?;
    Ok(())
}

/// Appends how many answers there were, status by status.
fn push_all_answered<A: Allocator>(
    out: &mut String<A>,
    answered: &[Answered],
) -> Result<(), AllocError>
    ensures { OnOk result (string_bytes out.new
        ≡ string_bytes out.old ++ flat_map answered_text answered.now) }
{
    for one in answered {
        push_answered(out, one)?;
    }
    Ok(())
}

/// Appends the metric of the answers.
#[tactic(auto, unfolding(crate::specs::Metrics::answer_metrics))]
fn push_answers<A: Allocator>(out: &mut String<A>, answered: &[Answered]) -> Result<(), AllocError>
    ensures { OnOk result (string_bytes out.new
        ≡ string_bytes out.old ++ answer_metrics answered.now) }
{
    let name = "trace_view_answers_total";
    push_help(out, name, "Answers, by their status.")?;
    push_type(out, name, "counter")?;
    push_all_answered(out, answered)?;
    Ok(())
}

/// Appends how many bytes are pending, where that is known.
#[tactic(auto, unfolding(crate::specs::Metrics::pending_metric))]
fn push_pending<A: Allocator>(out: &mut String<A>, bytes: Option<u64>) -> Result<(), AllocError>
    ensures { OnOk result (string_bytes out.new
        ≡ string_bytes out.old ++ pending_metric bytes) }
{
    match bytes {
        Some(bytes) => push_metric(
            out,
            "trace_view_pending_bytes",
            "Bytes of requests and answers that are pending.",
            "gauge",
            bytes,
        ),
        None => Ok(()),
    }
}

/// Appends the metrics of the spans.
#[tactic(auto, unfolding(crate::specs::Metrics::span_metrics))]
fn push_span_metrics<A: Allocator>(out: &mut String<A>, stats: &Stats) -> Result<(), AllocError>
    ensures { OnOk result (string_bytes out.new
        ≡ string_bytes out.old ++ span_metrics stats.now) }
{
    let received = "trace_view_spans_received_total";
    push_metric(
        out,
        received,
        "Spans that were received.",
        "counter",
        stats.received,
    )?;
    push_metric(
        out,
        "trace_view_spans_kept",
        "Spans that are kept.",
        "gauge",
        stats.kept,
    )?;
    let evicted = "trace_view_spans_evicted_total";
    push_metric(
        out,
        evicted,
        "Spans that were evicted.",
        "counter",
        stats.evicted,
    )?;
    Ok(())
}

/// Appends the metrics of the traces.
#[tactic(auto, unfolding(crate::specs::Metrics::trace_metrics))]
fn push_trace_metrics<A: Allocator>(out: &mut String<A>, stats: &Stats) -> Result<(), AllocError>
    ensures { OnOk result (string_bytes out.new
        ≡ string_bytes out.old ++ trace_metrics stats.now) }
{
    push_metric(
        out,
        "trace_view_traces_kept",
        "Traces that are kept.",
        "gauge",
        stats.traces,
    )?;
    let evicted = "trace_view_traces_evicted_total";
    push_metric(
        out,
        evicted,
        "Traces that were evicted.",
        "counter",
        stats.evicted_traces,
    )?;
    Ok(())
}

/// Appends what is counted, as Prometheus reads it (Prometheus, "Exposition formats", text format
/// 0.0.4): the spans that were received, are kept and were evicted, the traces that are kept and
/// were evicted, the bytes that are pending where that is known, the connections that were taken,
/// and the answers, with a line for each status of `answered`.
///
/// # Errors
///
/// `AllocError` where the text could not be stored. It may then have been appended in part.
#[tactic(auto, unfolding(crate::specs::Metrics::metrics_text))]
pub fn write_metrics<A: Allocator>(
    out: &mut String<A>,
    stats: &Stats,
    answered: &[Answered],
    connections: u64,
) -> Result<(), AllocError>
    ensures { OnOk result (string_bytes out.new
        ≡ string_bytes out.old ++ metrics_text stats.now answered.now connections) }
{
    push_span_metrics(out, stats)?;
    push_trace_metrics(out, stats)?;
    push_pending(out, stats.pending_bytes)?;
    let taken = "trace_view_connections_total";
    push_metric(
        out,
        taken,
        "Connections that were taken.",
        "counter",
        connections,
    )?;
    push_answers(out, answered)?;
    Ok(())
}
