//! The lines that a script prints.
ghost use Rattle.std.specs.Prelude.{◌≡◌, IfOk, map, string_bytes};
ghost use Rattle.span_ring.specs.SpanRing.{IsRingSize};
ghost use Rattle.span_exporter.specs.Views.{handed_view};
ghost use Rattle.trace_run.specs.Answers.{history_view};
ghost use Rattle.trace_script.specs.Parsed.{Means};
ghost use Rattle.trace_script.specs.Scripts.{Script as ScriptRead};
ghost use Rattle.trace_script.specs.Printed.{IsRunText, queued_count, run_text as text_of};

use crate::parse::Script;
use crate::sampler::ScriptSampler;
use batch_desk::Desk;
use otlp_ids::OutOfMemory;
use otlp_proto::DEFAULT_MAX_BODY;
use otlp_span::Resource;
use retry_core::RetryConfig;
use span_exporter::{Handed, MemoryExporter};
use std::alloc::Allocator;
use trace_api::WordsRng;
use trace_run::{RunConfig, RunReport, Step, run, write_answers, write_report};

/// Runs the steps of a script over an exporter with the script's outcomes. The text has a line for
/// each step, and the report after them. Then the run is closed.
pub fn text_of_script<A: Allocator + Copy>(
    alloc: A,
    script: Script<A>,
) -> Result<String<A>, OutOfMemory>
    requires { IsRingSize script.desk.queue script.desk.batch }
    ensures { (read : ScriptRead) → Means script read
        → IfOk result (λ text. IsRunText read (string_bytes text)) }
{
    let Script {
        words,
        sampler,
        limits,
        desk,
        max_body,
        resource,
        scopes,
        outcomes,
        steps,
    } = script;
    let config = RunConfig {
        sampler: ScriptSampler(sampler),
        limits,
        resource: Resource::new(alloc, resource),
        scopes,
        desk,
        retry: RetryConfig::default(),
        max_body: max_body.unwrap_or(DEFAULT_MAX_BODY),
        rng: WordsRng::new(words),
    };
    let mut exporter = MemoryExporter::new(alloc, outcomes);
    let report = run(alloc, config, steps.as_slice(), &mut exporter)?;
    let text = text_of_run(alloc, steps.as_slice(), &report, exporter.handed());
    report.close();
    text
}

/// The lines of a run's answers, and its report.
fn text_of_run<A: Allocator + Copy>(
    alloc: A,
    steps: &[Step<A>],
    report: &RunReport<A>,
    handed: &[Handed<A>],
) -> Result<String<A>, OutOfMemory>
    ensures { IfOk result (λ text. string_bytes text ≡ text_of (map handed_view handed.now)
        (history_view steps.now report.now.answers) report.now.desk) }
{
    let mut text = String::new(alloc);
    write_answers(&mut text, steps, report.answers(), handed)?;
    let desk = report.desk();
    write_report(
        &mut text,
        queued_spans(desk),
        desk.ledger(),
        desk.lost(),
        desk.totals().late,
    )?;
    Ok(text)
}

/// How many spans wait, or are in a batch that was not handed over: those that were accepted and
/// were neither handed nor dropped with their batch.
fn queued_spans<A: Allocator>(desk: &Desk<A>) -> u64
    ensures { result ≡ queued_count desk.now }
{
    let totals = desk.totals();
    let dropped = totals.dropped.encode_memory
        + totals.dropped.too_large
        + totals.dropped.abandoned;
    totals.accepted - totals.handed - dropped
}
