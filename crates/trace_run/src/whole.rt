//! Runs of whole programs.
ghost use Rattle.std.specs.Prelude.{◌≡◌, IfOk, OnErr, length};
ghost use Rattle.model_desk.specs.Waits.{IsRetryConfig};
ghost use Rattle.span_ring.specs.SpanRing.{IsRingSize};
ghost use Rattle.model_run.specs.Answers.{AreAnswers, desk_after};
ghost use Rattle.model_run.specs.Headline.{pending_after};
ghost use Rattle.trace_run.specs.Answers.{history_view};
ghost use Rattle.trace_run.specs.Out.{shown};
ghost use Rattle.model_run.specs.Laws.{LateAfterShutdown, DroppedWhereFull, QueuedWhereRoom};
ghost use Rattle.model_run.specs.Laws.{TakenWhereDue, TakesTheFirst, TakenAfterShutdown};
ghost use Rattle.model_run.specs.Laws.{OneBatchIsOut, EncodedWhereItFits, DroppedUnencoded};
ghost use Rattle.model_run.specs.Laws.{DroppedBatchIsNamed, AttemptsAreNumbered, AttemptsAreFew};
ghost use Rattle.model_run.specs.Laws.{AttemptsAreFiveAtMost, NoAttemptIsEarly, RepliesAreDecided};
ghost use Rattle.model_run.specs.Laws.{HandedAreNotDropped, LedgerNamesTheDropped, LossesAreNamed};
ghost use Rattle.trace_run.specs.Report.{OfRun};
ghost use Rattle.trace_run.specs.Run.{run_config};
ghost use Rattle.trace_run.specs.Headline.{AreCanonical, Headline};

use crate::config::RunConfig;
use crate::queue::SpanQueue;
use crate::report::RunReport;
use crate::running::Running;
use crate::sending::BatchExport;
use crate::{SpanTable, Step};
use batch_desk::Desk;
use model_run::{
    attempts_are_answered, batches_are_slices, encodings_are_answered, ends_are_answered,
    losses_are_named, none_is_unaccounted_for, one_batch_is_out, queued_spans_are_ended,
    takes_are_answered,
};
use otlp_ids::OutOfMemory;
use otlp_sampler::Sampler;
use rand_core::Rng;
use span_exporter::Exporter;
use std::alloc::Allocator;
use std::sync::Arc;
use trace_api::Provider;

/// Takes the steps of a program in order, over a queue that is made at moment 0, and hands the
/// batches to the exporter (Trace API; Trace SDK, "Batching processor"). Each step has an answer.
/// Each sampled span that ends before the shutdown is waiting, or in the batch that is out and was
/// not handed over yet, or was handed to the exporter, or is named by the ledger as dropped: once,
/// and as its calls made it. A batch is sent again, with the same bytes, where its reply asks for
/// that (OTLP Specification, "Retryable Response Codes"). Where a batch that was handed over is not
/// delivered, the second ledger names its spans.
///
/// The desk of `config` is of sizes that `Desk::new` takes.
///
/// # Errors
///
/// `OutOfMemory` where there is no room for the answers, the spans or the queue. Nothing was done
/// then. Memory that is refused later is the answer to its step alone.
pub fn run<S: Sampler + Drop, R: Rng + Drop, E: Exporter, A: Allocator + Copy>(
    alloc: A,
    config: RunConfig<S, R, A>,
    steps: &[Step<A>],
    exporter: &mut E,
) -> Result<RunReport<A>, OutOfMemory>
    requires { IsRingSize config.desk.queue config.desk.batch }

    // Each step is answered, as the steps before it and the exporter decide.
    ensures count { IfOk result (λ report. length report.answers ≡ length steps.now) }
    ensures answered { IfOk result (OfRun S.meaning R.stream config steps.now AreAnswers) }

    // The first end of a sampled span: after a shutdown it is late; else the span is dropped where
    // the queue is full, and waits where it isn't.
    ensures late { IfOk result
        (OfRun S.meaning R.stream config steps.now LateAfterShutdown) }
    ensures full { IfOk result
        (OfRun S.meaning R.stream config steps.now DroppedWhereFull) }
    ensures queued { IfOk result
        (OfRun S.meaning R.stream config steps.now QueuedWhereRoom) }

    // A take gives a batch exactly where one is due and none is out: the first spans that wait.
    ensures due { IfOk result (OfRun S.meaning R.stream config steps.now TakenWhereDue) }
    ensures first { IfOk result (OfRun S.meaning R.stream config steps.now TakesTheFirst) }
    ensures shutdown { IfOk result
        (OfRun S.meaning R.stream config steps.now TakenAfterShutdown) }
    ensures one_out { IfOk result
        (OfRun S.meaning R.stream config steps.now (λ run. OneBatchIsOut)) }

    // A batch has a body only where that isn't larger than it may be. It is dropped only in place
    // of its encoding, for want of memory or where its body would be larger, and then its spans are
    // named.
    ensures fits { IfOk result
        (OfRun S.meaning R.stream config steps.now EncodedWhereItFits) }
    ensures dropped { IfOk result
        (OfRun S.meaning R.stream config steps.now DroppedUnencoded) }
    ensures names { IfOk result (OfRun S.meaning R.stream config steps.now
        (λ run. DroppedBatchIsNamed run.setup)) }

    // No span is unaccounted for: each that ended before the shutdown was handed, is still queued,
    // or is named, once, as it ended; each body means its batch, and each retry repeats it.
    ensures headline { IfOk result (OfRun S.meaning R.stream config steps.now (λ run history.
        Headline run history (E.handed exporter.old) (E.handed exporter.new))) }
    // The bytes of a body are those of the canon.
    ensures canon { IfOk result (OfRun S.meaning R.stream config steps.now (λ run history.
        AreCanonical run history (E.handed exporter.old) (E.handed exporter.new))) }
    ensures not_named { IfOk result (OfRun S.meaning R.stream config steps.now
        (λ run. HandedAreNotDropped run.setup)) }
    ensures ledger { IfOk result
        (OfRun S.meaning R.stream config steps.now LedgerNamesTheDropped) }
    // The second ledger names the spans of each batch that was handed and not delivered: once, with
    // the reason, and no others.
    ensures losses { IfOk result
        (OfRun S.meaning R.stream config steps.now LossesAreNamed) }

    // The queue, its ledger and the batch that is out have the spans that the steps mean.
    ensures desk { let run = run_config S.meaning R.stream config in
        IfOk result (λ report.
        report.desk ≡ desk_after run (history_view steps.now report.answers)) }
    ensures out { let run = run_config S.meaning R.stream config in
        IfOk result (λ report.
        shown report.out ≡ pending_after run.setup (history_view steps.now report.answers)) }

    // The attempts of a batch are numbered from 1 on, as many as are configured at most, and so
    // five, none before its moment; what follows from a reply is decided by the last outcome.
    ensures settings { IsRetryConfig config.retry }
    ensures numbered { IfOk result
        (OfRun S.meaning R.stream config steps.now (λ run. AttemptsAreNumbered)) }
    ensures few { IfOk result (OfRun S.meaning R.stream config steps.now AttemptsAreFew) }
    ensures five { IfOk result
        (OfRun S.meaning R.stream config steps.now (λ run. AttemptsAreFiveAtMost)) }
    ensures early { IfOk result
        (OfRun S.meaning R.stream config steps.now (λ run. NoAttemptIsEarly)) }
    ensures decided { IfOk result (OfRun S.meaning R.stream config steps.now RepliesAreDecided) }

    // Refused, nothing was done.
    ensures refused { OnErr result (exporter.new ≡ exporter.old) }
{
    let RunConfig {
        sampler,
        limits,
        resource,
        scopes,
        desk,
        retry,
        max_body,
        rng,
    } = config;
    // It says that its numbers are those that `RetryConfig::new` takes.
    retry.attempts();
    let mut answers = Vec::with_capacity(alloc, steps.len())?;
    let resource = Arc::new(alloc, resource)?;
    let provider = Provider::new(sampler, resource, limits);
    let table = SpanTable::new(alloc, &provider, scopes, rng, steps.len())?;
    let Ok(desk) = Desk::new(alloc, desk, 0) else {
        return Err(OutOfMemory);
    };
    let queue = SpanQueue { desk };
    let mut running = Running {
        alloc,
        retry,
        max_body,
        table,
        queue,
    };
    let mut out: Option<BatchExport<A>> = None;
    batches_are_slices();
    for step in steps {
        let (answer, later) = running.take_step(out, step, exporter);
        out = later;
        answers.push_reserved(answer);
    }
    ends_are_answered();
    takes_are_answered();
    encodings_are_answered();
    attempts_are_answered();
    one_batch_is_out();
    none_is_unaccounted_for();
    losses_are_named();
    queued_spans_are_ended();
    let Running { queue, .. } = running;
    let SpanQueue { desk } = queue;
    Ok(RunReport { answers, desk, out })
}
