//! A batch on its way to an exporter.
ghost use Rattle.std.specs.Prelude.{◌≡◌, ◌<◌, ◌≤◌, IfErr, IfOk, IsErrOf, OnErr, length};
ghost use Rattle.model_export.specs.Export.{LacksBody, body_length, groups};
ghost use Rattle.model_processor.specs.Batches.{IsBodyOf};
ghost use Rattle.otlp_proto.specs.Bodies.{reason_of};
ghost use Rattle.otlp_span.specs.Dropped.{reason_view};
ghost use Rattle.batch_sending.specs.Sendings.{HasRoom, attempts_at, is_pending_at, is_sent_at};
ghost use Rattle.batch_sending.specs.Sendings.{to_send};
ghost use Rattle.batch_sending.specs.Answers.{Attempts, Judges};

use crate::answers::{Attempted, Judged};
use otlp_proto::{EncodeFault, body_of};
use otlp_span::SpanData;
use retry_core::{Next, Outcome, RetryConfig, decide};
use span_exporter::Exporter;
use std::alloc::{Allocator, Global};
use std::marker::Model;

/// How far a batch is.
#[derive(Clone, Copy, Debug, PartialEq, Eq)]
pub(crate) enum Stage {
    /// Its body is to be sent.
    ToSend,
    /// It was sent in this attempt, with this outcome.
    ToJudge { attempt: u32, outcome: Outcome },
    /// It had this number of attempts, and is to be sent again from this moment on.
    ToRetry { attempts: u32, from: u64 },
}

/// A batch on its way to an exporter: its number, its body, how often it is sent, and how far it
/// is. The spans stay with whoever has the batch. In contracts it is the model's `Sending`.
#[derive(Drop)]
#[derive_where(Debug)]
pub struct Sending<A: Allocator = Global> {
    number: u64,
    body: Vec<u8, A>,
    retry: RetryConfig,
    stage: Stage,
}

impl<A: Allocator> Model for Sending<A> {
    ghost use Rattle.batch_sending.specs.Sendings as model;
    ghost use Rattle.batch_sending.specs.Sendings.{IsCountedAt};
    ghost use Rattle.batch_sending.specs.Views.{stage_view};

    ghost Value = { model.Sending };

    ghost view = { λ s. record {
      number = s.number;
      body = s.body.items;
      retry = s.retry;
      stage = stage_view s.stage;
    } };

    ghost invariant = { λ s. IsCountedAt s.retry (stage_view s.stage) };
}

impl<A: Allocator + Copy> Sending<A> {
    /// Encodes the spans of the batch with this number, grouped by resource and scope, into a body
    /// of at most `max_body` bytes, and has the exporter make room for all attempts that `retry`
    /// allows. Nothing is sent. (OTLP Specification, "OTLP/HTTP Request"; numbers and the greatest
    /// body: profile)
    ///
    /// # Errors
    ///
    /// `OutOfMemory` where memory was refused, to the body or to the exporter; `TooLarge` where the
    /// body has more than `max_body` bytes. The exporter is as it was.
    pub fn prepare<E: Exporter>(
        alloc: A,
        number: u64,
        spans: &[SpanData<A>],
        retry: RetryConfig,
        max_body: usize,
        exporter: &mut E,
    ) -> Result<Sending<A>, EncodeFault>
        ensures unsent { IfOk result (λ sending. sending ≡ record {
          number = number;
          body = sending.body;
          retry = retry;
          stage = to_send;
        }) }
        ensures body { IfOk result (λ sending. IsBodyOf spans.now sending.body) }
        ensures length { IfOk result
            (λ sending. length sending.body ≡ body_length (groups spans.now)) }
        ensures fits { IfOk result (λ sending. length sending.body ≤ max_body) }
        ensures room { IfOk result (λ sending. HasRoom (E.room exporter.new) sending) }
        ensures lacks { IfErr result (λ fault.
            LacksBody max_body spans.now (reason_view (reason_of fault))) }
        ensures too_large { IsErrOf result EncodeFault.TooLarge
            → max_body < body_length (groups spans.now) }
        ensures nothing_is_sent { E.handed exporter.new ≡ E.handed exporter.old }
        ensures refused { OnErr result (exporter.new ≡ exporter.old) }
    {
        let body = body_of(alloc, spans, max_body)?;
        exporter.prepare(body.len(), retry.attempts())?;
        Ok(Sending {
            number,
            body,
            retry,
            stage: Stage::ToSend,
        })
    }
}

impl<A: Allocator> Sending<A> {
    /// Hands the body to the exporter, if it is to be sent at the moment `now`, in nanoseconds
    /// since 1970: for the first time at any moment, and later not before the one that its last
    /// outcome gave. Each attempt has the same bytes. (Trace SDK, "Export(batch)"; profile)
    pub fn attempt<E: Exporter>(&mut self, exporter: &mut E, now: u64) -> Attempted
        requires { HasRoom (E.room exporter.old) self.old }
        ensures attempts { Attempts now self.old result self.new
            (E.handed exporter.old) (E.handed exporter.new) }
        ensures room { HasRoom (E.room exporter.new) self.new }
        ensures early { result ≡ Attempted.Early → exporter.new ≡ exporter.old }
        ensures unjudged { result ≡ Attempted.Unjudged → exporter.new ≡ exporter.old }
    {
        let attempt = match self.stage {
            Stage::ToSend => 1,
            Stage::ToRetry { attempts, from } => {
                if now < from {
                    return Attempted::Early;
                }
                attempts + 1
            }
            Stage::ToJudge { .. } => return Attempted::Unjudged,
        };
        let outcome = exporter.export(self.number, attempt, self.body.as_slice());
        self.stage = Stage::ToJudge { attempt, outcome };
        Attempted::Sent { attempt, outcome }
    }

    /// Judges the outcome of the last attempt, where that is not done, at the moment `now`, in
    /// nanoseconds since 1970. `word` is a random word, as [`decide`] takes it. (OTLP
    /// Specification, "OTLP/HTTP Response", "OTLP/HTTP Throttling")
    pub fn judge(self, now: u64, word: u64) -> Judged<A>
        ensures judge { Judges now word self result }
    {
        let Stage::ToJudge { attempt, outcome } = self.stage else {
            return Judged::Nothing(self);
        };
        let next = decide(&self.retry, attempt, &outcome, now, word);
        if let Next::Again(from) = next {
            let stage = Stage::ToRetry {
                attempts: attempt,
                from,
            };
            let sending = Sending { stage, ..self };
            return Judged::Again { sending, from };
        }
        let fate = next.fate().unwrap();
        Judged::Over { next, fate }
    }

    /// The number of the batch.
    pub fn number(&self) -> u64
        ensures { result ≡ self.now.number }
    {
        self.number
    }

    /// The body, which each attempt sends.
    pub fn body(&self) -> &Vec<u8, A>
        ensures { result.now.items ≡ self.now.body }
    {
        &self.body
    }

    /// Whether an attempt was made.
    pub fn is_sent(&self) -> bool
        ensures { result ≡ is_sent_at self.now.stage }
    {
        !matches!(self.stage, Stage::ToSend)
    }

    /// Whether an outcome is to be judged.
    pub fn is_pending(&self) -> bool
        ensures { result ≡ is_pending_at self.now.stage }
    {
        matches!(self.stage, Stage::ToJudge { .. })
    }

    /// How many attempts were made.
    pub fn attempts(&self) -> u32
        ensures { result ≡ attempts_at self.now.stage }
    {
        match self.stage {
            Stage::ToSend => 0,
            Stage::ToJudge { attempt, .. } => attempt,
            Stage::ToRetry { attempts, .. } => attempts,
        }
    }
}
