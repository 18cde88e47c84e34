//! What became of what was received, as Prometheus reads it.

ghost use Rattle.std.specs.Prelude.{◌≡◌, ◌++◌, OnOk, string_bytes};
ghost use Rattle.relay_service.specs.Stats.{body_metrics, metrics_text, nameless_metrics};
ghost use Rattle.relay_service.specs.Stats.{span_metrics};

use otlp_receiver::push_metric;
use relay_queue::{Amounts, Report};
use std::alloc::{AllocError, Allocator};

/// Appends the metrics of bodies.
#[tactic(auto, unfolding(crate::specs::Stats::body_metrics))]
fn push_body_metrics<A: Allocator>(out: &mut String<A>, amounts: &Amounts) -> Result<(), AllocError>
    ensures { OnOk result (string_bytes out.new
        ≡ string_bytes out.old ++ body_metrics amounts.now) }
{
    push_metric(
        out,
        "otlp_relay_bodies_received_total",
        "Bodies that were received.",
        "counter",
        amounts.received,
    )?;
    push_metric(
        out,
        "otlp_relay_bodies_kept",
        "Bodies that are kept.",
        "gauge",
        amounts.kept,
    )?;
    push_metric(
        out,
        "otlp_relay_bodies_delivered_total",
        "Bodies that a collector took.",
        "counter",
        amounts.delivered,
    )?;
    push_metric(
        out,
        "otlp_relay_bodies_lost_total",
        "Bodies that are lost.",
        "counter",
        amounts.lost,
    )?;
    Ok(())
}

/// Appends the metrics of spans.
#[tactic(auto, unfolding(crate::specs::Stats::span_metrics))]
fn push_span_metrics<A: Allocator>(out: &mut String<A>, amounts: &Amounts) -> Result<(), AllocError>
    ensures { OnOk result (string_bytes out.new
        ≡ string_bytes out.old ++ span_metrics amounts.now) }
{
    push_metric(
        out,
        "otlp_relay_spans_received_total",
        "Spans that were received.",
        "counter",
        amounts.received,
    )?;
    push_metric(
        out,
        "otlp_relay_spans_kept",
        "Spans that are kept.",
        "gauge",
        amounts.kept,
    )?;
    push_metric(
        out,
        "otlp_relay_spans_delivered_total",
        "Spans that a collector took.",
        "counter",
        amounts.delivered,
    )?;
    push_metric(
        out,
        "otlp_relay_spans_lost_total",
        "Spans that are lost.",
        "counter",
        amounts.lost,
    )?;
    Ok(())
}

/// Appends the metrics of spans whose names are nowhere.
#[tactic(auto, unfolding(crate::specs::Stats::nameless_metrics))]
fn push_nameless_metrics<A: Allocator>(
    out: &mut String<A>,
    report: &Report,
) -> Result<(), AllocError>
    ensures { OnOk result (string_bytes out.new
        ≡ string_bytes out.old ++ nameless_metrics report.now) }
{
    push_metric(
        out,
        "otlp_relay_spans_rejected_total",
        "Spans that a collector rejected of bodies that it took.",
        "counter",
        report.rejected_spans,
    )?;
    push_metric(
        out,
        "otlp_relay_unwritten_names",
        "Names of lost spans that are not written, since that failed.",
        "gauge",
        report.unwritten_names,
    )?;
    Ok(())
}

/// Appends what became of what was received, and how many connections were taken, as Prometheus
/// reads it (Prometheus, "Exposition formats", text format 0.0.4).
///
/// # Errors
///
/// `AllocError` where the text could not be stored. It may then have been appended in part.
#[tactic(auto, unfolding(crate::specs::Stats::metrics_text))]
pub fn write_metrics<A: Allocator>(
    out: &mut String<A>,
    report: &Report,
    connections: u64,
) -> Result<(), AllocError>
    ensures { OnOk result (string_bytes out.new
        ≡ string_bytes out.old ++ metrics_text report.now connections) }
{
    push_body_metrics(out, &report.bodies)?;
    push_span_metrics(out, &report.spans)?;
    push_nameless_metrics(out, report)?;
    push_metric(
        out,
        "otlp_relay_refused_requests",
        "Requests in a row that the collector refused whatever they had.",
        "gauge",
        report.refusals,
    )?;
    push_metric(
        out,
        "otlp_relay_waiting_bytes",
        "Bytes of bodies that are kept.",
        "gauge",
        report.waiting_bytes,
    )?;
    push_metric(
        out,
        "otlp_relay_attempts_total",
        "Attempts to hand bodies on.",
        "counter",
        report.attempts,
    )?;
    push_metric(
        out,
        "otlp_relay_connections_total",
        "Connections that were taken.",
        "counter",
        connections,
    )?;
    Ok(())
}
