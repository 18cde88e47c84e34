//! A run on its way.
ghost use Rattle.std.specs.Prelude.{◌≡◌, ◌+◌, ◌-◌, ◌^◌, ◌<◌, List, ◌∷◌, ◌++◌, [], length};
ghost use Rattle.model_run.specs.Answers as model;
ghost use Rattle.model_run.specs.Runs.{Answered};
ghost use Rattle.trace_run.specs.Answers.{answer_view};
ghost use Rattle.trace_run.specs.Steps.{step_view};
ghost use Rattle.trace_run.specs.Out.{IsReady, IsTied};
ghost use Rattle.trace_run.specs.State.{GoesOn, HasItsBody, Stands, Tells};

use crate::queue::SpanQueue;
use crate::sending::{BatchExport, encode_batch, judge_batch, send_batch, take_batch};
use crate::{Answer, SpanTable, Step};
use otlp_sampler::Sampler;
use rand_core::Rng;
use retry_core::RetryConfig;
use span_exporter::Exporter;
use std::alloc::Allocator;

/// The spans and the queue of a run.
#[derive(Drop)]
pub(crate) struct Running<'a, S: Sampler, R: Rng, A: Allocator + Copy> {
    pub(crate) alloc: A,
    pub(crate) retry: RetryConfig,
    pub(crate) max_body: usize,
    pub(crate) table: SpanTable<'a, S, R, A>,
    pub(crate) queue: SpanQueue<A>,
}

impl<'a, S: Sampler, R: Rng, A: Allocator + Copy> Running<'a, S, R, A> {
    /// Takes a step. The batch that is out, if one is, is handed in and given back.
    pub(crate) fn take_step<E: Exporter>(
        &mut self,
        out: Option<BatchExport<A>>,
        step: &Step<A>,
        exporter: &mut E,
    ) -> (Answer, Option<BatchExport<A>>)
        requires room { length self.old.table.spans < self.old.table.room }
        requires tied { IsTied self.old.queue out }
        requires ready { IsReady (E.room exporter.old) out }
        ensures goes_on { let x : Answered =
            record { step = step_view step.now; answer = answer_view result.0 } in
            GoesOn S.meaning R.stream self.old.retry self.old.max_body x
            self.old.table self.old.queue out self.new.table self.new.queue result.1 }
        ensures told { (run : model.RunConfig) (h : List Answered) →
            Stands S.meaning R.stream run h self.old.table self.old.queue out
            → Tells (answer_view result.0) (HasItsBody run.setup h)
            (E.handed exporter.old) (E.handed exporter.new) }
        ensures ready { IsReady (E.room exporter.new) result.1 }
        ensures room { self.new.table.room ≡ self.old.table.room }
        ensures retry { self.new.retry ≡ self.old.retry }
        ensures max_body { self.new.max_body ≡ self.old.max_body }
    {
        match step {
            Step::Start {
                scope,
                parent,
                kind,
                at,
                name,
            } => {
                let name = name.as_str();
                (self.table.start(*scope, parent, *kind, *at, name), out)
            }
            Step::Call { span, call } => (self.table.call(&mut self.queue, *span, call), out),
            Step::Flush => {
                self.queue.desk.flush();
                (Answer::Flush, out)
            }
            Step::Shutdown => {
                self.queue.desk.shutdown();
                (Answer::Shutdown, out)
            }
            Step::Take { at } => take_batch(&mut self.queue.desk, out, *at),
            Step::Encode => {
                let desk = &mut self.queue.desk;
                encode_batch(self.alloc, self.retry, self.max_body, desk, out, exporter)
            }
            Step::Attempt { at } => send_batch(&mut self.queue.desk, out, exporter, *at),
            Step::Reply { at, word } => judge_batch(&mut self.queue.desk, out, *at, *word),
        }
    }
}
