//! The batch that is out: it is taken, encoded, sent, and judged by its outcome.
ghost use Rattle.std.specs.Prelude.{◌≡◌, ℕ};
ghost use Rattle.model_run.specs.Answers.{take_answer};
ghost use Rattle.trace_run.specs.Answers.{answer_view};
ghost use Rattle.trace_run.specs.Out.{Encodes, IsReady, IsTied, Replies, Sends, Takes};
ghost use Rattle.trace_run.specs.Out.{attempt_said, is_sent};

use crate::Answer;
use batch_desk::{Batch, Desk};
use batch_sending::{Attempted, Judged, Sending};
use retry_core::{Next, RetryConfig};
use span_exporter::Exporter;
use std::alloc::Allocator;
use std::marker::Model;

/// A batch that is out: it is to be encoded, or it is on its way to the exporter.
#[derive_where(Debug)]
pub(crate) struct BatchExport<A: Allocator> {
    pub(crate) batch: Batch<A>,
    pub(crate) sending: Option<Sending<A>>,
}

impl<A: Allocator> Model for BatchExport<A> {
    ghost use Rattle.trace_run.specs.Out.{Out};

    ghost Value = { Out };

    ghost view = { λ o. record { batch = o.batch; sending = o.sending } };
}

impl<A: Allocator> BatchExport<A> {
    /// Whether the batch is with the exporter: it was sent, and isn't ended.
    pub(crate) fn is_sent(&self) -> bool
        ensures { result ≡ is_sent self.now.sending }
    {
        match &self.sending {
            Some(sending) => sending.is_sent(),
            None => false,
        }
    }
}

/// Takes the next batch, if it is due and none is out.
pub(crate) fn take_batch<A: Allocator>(
    desk: &mut Desk<A>,
    out: Option<BatchExport<A>>,
    at: u64,
) -> (Answer, Option<BatchExport<A>>)
    requires { IsTied desk.old out }
    ensures answered { answer_view result.0 ≡ take_answer desk.old at }
    ensures takes { Takes at result.0 desk.old out desk.new result.1 }
    ensures ready { (room : ℕ → ℕ) → IsReady room out → IsReady room result.1 }
{
    if let Some(out) = out {
        return (Answer::NotTaken, Some(out));
    }
    let Some(batch) = desk.take(at) else {
        return (Answer::NotTaken, None);
    };
    let answer = Answer::Taken {
        batch: batch.number(),
        spans: batch.spans().len(),
    };
    let sending = None;
    (answer, Some(BatchExport { batch, sending }))
}

/// Encodes the batch that is out, if that is to be done, and makes room for its attempts. Where it
/// can't be encoded it is dropped.
pub(crate) fn encode_batch<E: Exporter, A: Allocator + Copy>(
    alloc: A,
    retry: RetryConfig,
    max_body: usize,
    desk: &mut Desk<A>,
    out: Option<BatchExport<A>>,
    exporter: &mut E,
) -> (Answer, Option<BatchExport<A>>)
    requires tied { IsTied desk.old out }
    requires ready { IsReady (E.room exporter.old) out }
    ensures encodes { Encodes retry max_body out result.0 desk.old desk.new result.1 }
    ensures ready { IsReady (E.room exporter.new) result.1 }
    ensures nothing_is_sent { E.handed exporter.new ≡ E.handed exporter.old }
{
    let Some(mut out) = out else {
        return (Answer::Nothing, None);
    };
    if out.sending.is_some() {
        return (Answer::Nothing, Some(out));
    }
    let batch = out.batch.number();
    match Sending::prepare(alloc, batch, out.batch.spans(), retry, max_body, exporter) {
        Ok(sending) => {
            let length = sending.body().len();
            out.sending = Some(sending);
            (Answer::Encoded { batch, length }, Some(out))
        }
        Err(fault) => {
            let reason = fault.reason();
            let answer = Answer::Dropped { batch, reason };
            let BatchExport { batch, sending: _ } = out;
            desk.drop_batch(batch, reason);
            (answer, None)
        }
    }
}

/// Sends the batch that is out, if that is to be done, and not before its moment.
pub(crate) fn send_batch<E: Exporter, A: Allocator>(
    desk: &mut Desk<A>,
    out: Option<BatchExport<A>>,
    exporter: &mut E,
    at: u64,
) -> (Answer, Option<BatchExport<A>>)
    requires tied { IsTied desk.old out }
    requires ready { IsReady (E.room exporter.old) out }
    ensures sends { Sends at out result.0 desk.old desk.new result.1
        (E.handed exporter.old) (E.handed exporter.new) }
    ensures ready { IsReady (E.room exporter.new) result.1 }
{
    let Some(mut out) = out else {
        return (Answer::Nothing, None);
    };
    let Some(mut sending) = out.sending.take() else {
        return (Answer::Nothing, Some(out));
    };
    let number = out.batch.number();
    if !sending.is_sent() {
        desk.handed(number);
    }
    let came = sending.attempt(exporter, at);
    out.sending = Some(sending);
    (attempt_answer(number, came), Some(out))
}

/// The answer to an attempt to send the batch with this number.
fn attempt_answer(number: u64, came: Attempted) -> Answer
    ensures { result ≡ attempt_said number came }
{
    match came {
        Attempted::Sent { attempt, outcome } => Answer::Sent {
            batch: number,
            attempt,
            outcome,
        },
        Attempted::Early => Answer::Early,
        Attempted::Unjudged => Answer::Nothing,
    }
}

/// Judges the outcome of the last attempt, if the batch that is out was sent: it is settled, or it
/// is to be sent again.
pub(crate) fn judge_batch<A: Allocator>(
    desk: &mut Desk<A>,
    out: Option<BatchExport<A>>,
    at: u64,
    word: u64,
) -> (Answer, Option<BatchExport<A>>)
    requires { IsTied desk.old out }
    ensures replies { Replies at word out result.0 desk.old desk.new result.1 }
    ensures ready { (room : ℕ → ℕ) → IsReady room out → IsReady room result.1 }
{
    let Some(mut out) = out else {
        return (Answer::Nothing, None);
    };
    let Some(sending) = out.sending.take() else {
        return (Answer::Nothing, Some(out));
    };
    let batch = out.batch.number();
    match sending.judge(at, word) {
        Judged::Nothing(sending) => {
            out.sending = Some(sending);
            (Answer::Nothing, Some(out))
        }
        Judged::Again { sending, from } => {
            out.sending = Some(sending);
            let next = Next::Again(from);
            (Answer::Replied { batch, next }, Some(out))
        }
        Judged::Over { next, fate } => {
            let answer = Answer::Replied { batch, next };
            let BatchExport { batch, sending: _ } = out;
            desk.settle(batch, fate);
            (answer, None)
        }
    }
}
