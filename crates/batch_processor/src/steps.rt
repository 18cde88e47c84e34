//! The steps of a worker's work: a batch is taken, encoded once, handed to an exporter, judged by
//! its outcome, sent again or settled.
ghost use Rattle.std.specs.Prelude.{◌≡◌, [], IsTrue, Some, None, false};
ghost use Rattle.model_processor.specs.WorkerClauses.{abandon};
ghost use Rattle.model_processor.specs.AnyAccounts.{worker};
ghost use Rattle.batch_processor.specs.Working.{IsReady, IsWorkingWith, StepsAside, TakesStep};
ghost use Rattle.batch_processor.specs.Working.{begun, hand_at, in_hand, is_pending_in, work_in};

use crate::config::Setup;
use crate::lock::{Holder, Pace};
use account_book::Naming;
use batch_desk::Batch;
use batch_sending::{Attempted, Judged, Sending};
use otlp_span::{Reason, SpanData};
use rand_core::Rng;
use retry_core::{Fate, Outcome};
use span_exporter::Exporter;
use std::alloc::Allocator;
use std::marker::Model;
use std::sync::Wait;
use std::time;
use trace_api::Clock;

/// The batch in hand.
pub(crate) struct InHand<A: Allocator> {
    pub(crate) batch: Batch<A>,
    // None where the batch is to be encoded.
    pub(crate) sending: Option<Sending<A>>,
}

impl<A: Allocator> Model for InHand<A> {
    ghost use Rattle.batch_processor.specs.Working.{Hand};

    ghost Value = { Hand };

    ghost view = { λ h. record { batch = h.batch; sending = h.sending } };
}

/// A batch in hand, with how far it is on its way.
fn in_hand<A: Allocator>(batch: Batch<A>, sending: Option<Sending<A>>) -> InHand<A>
    ensures { Some result ≡ hand_at batch sending }
{
    InHand { batch, sending }
}

/// All that a worker's pass has but the batch in hand.
#[derive(Drop)]
pub(crate) struct BatchSender<J: Naming, R, A: Allocator> {
    pub(crate) holder: Holder<J, R, A>,
    // The outcomes of the attempts of the batch in hand.
    pub(crate) outcomes: Vec<Outcome, A>,
    // Where the spans of a batch go that is settled.
    pub(crate) spent: Vec<SpanData<A>, A>,
    pub(crate) setup: Setup,
    pub(crate) pace: Pace,
}

impl<J: Naming, R, A: Allocator> Model for BatchSender<J, R, A> {
    ghost use Rattle.std.specs.Prelude.{◌≡◌, ◌≤◌, vec_capacity};
    ghost use Rattle.model_processor.specs.AnyAccounts.{worker, worker_in};
    ghost use Rattle.processor_account.specs.Views.{outcomes_view};
    ghost use Rattle.batch_processor.specs.Views.{setup_view};
    ghost use Rattle.batch_processor.specs.Working.{WorkerState};

    ghost Value = { WorkerState };

    ghost view = { λ s. record {
      origin = setup_view s.setup;
      account = worker_in s.holder;
      outcomes = outcomes_view s.outcomes.items;
    } };

    ghost invariant = { λ s. (s.holder ≡ worker (setup_view s.setup) (worker_in s.holder))
        × (5 ≤ vec_capacity s.outcomes) };
}

impl<J: Naming, R: Wait + time::Clock + Drop, A: Allocator + Copy> BatchSender<J, R, A> {
    /// Takes the next batch, if it is due.
    pub(crate) fn take(&mut self, now: u64) -> Option<InHand<A>>
        requires { IsWorkingWith self.old None }
        ensures { StepsAside self.old None self.new result }
    {
        let batch = self.holder.take(now)?;
        Some(in_hand(batch, None))
    }

    /// Goes on with the batch in hand by a step: it is encoded, or its body is handed to the
    /// exporter, if it is time, or the outcome that came is judged. None is left in hand once it is
    /// settled.
    pub(crate) fn step<E: Exporter, C: Clock, G: Rng>(
        &mut self,
        hand: InHand<A>,
        exporter: &mut E,
        clock: &C,
        rng: &mut G,
    ) -> Option<InHand<A>>
        requires { IsReady (E.room exporter.old) self.old (Some hand) }
        ensures { TakesStep (E.handed exporter.old) (E.handed exporter.new) (E.room exporter.new)
            self.old (Some hand) self.new result }
    {
        let InHand { batch, sending } = hand;
        let Some(mut sending) = sending else {
            return self.encode(batch, exporter);
        };
        self.begin(&batch, &sending);
        match sending.attempt(exporter, clock.now()) {
            Attempted::Sent { outcome, .. } => {
                self.outcomes.push_reserved(outcome);
                Some(in_hand(batch, Some(sending)))
            }
            Attempted::Early => {
                self.holder.pause();
                Some(in_hand(batch, Some(sending)))
            }
            Attempted::Unjudged => self.judge(in_hand(batch, Some(sending)), clock, rng),
        }
    }

    /// Encodes a batch, and makes room for its attempts. Where it has no body it is dropped.
    fn encode<E: Exporter>(&mut self, batch: Batch<A>, exporter: &mut E) -> Option<InHand<A>>
        requires { IsReady (E.room exporter.old) self.old (hand_at batch None) }
        ensures { TakesStep (E.handed exporter.old) (E.handed exporter.new) (E.room exporter.new)
            self.old (hand_at batch None) self.new result }
    {
        let (alloc, config) = (*self.outcomes.allocator(), self.setup.config);
        let (retry, max_body) = (config.retry, config.max_body);
        let (number, spans) = (batch.number(), batch.spans());
        match Sending::prepare(alloc, number, spans, retry, max_body, exporter) {
            Ok(sending) => Some(in_hand(batch, Some(sending))),
            Err(fault) => {
                self.holder.drop_batch(batch, fault.reason());
                None
            }
        }
    }

    /// Before its first attempt a batch counts as handed.
    fn begin(&mut self, batch: &Batch<A>, sending: &Sending<A>)
        requires { IsWorkingWith self.old (hand_at batch.now (Some sending.now)) }
        ensures { self.new ≡ begun sending.now self.old }
    {
        if !sending.is_sent() {
            self.holder.handed(batch, sending.body());
        }
    }

    /// Judges the outcome of the last attempt of the batch in hand, where that isn't done: the batch
    /// is to be sent again, or it is settled. Else it stays in hand as it is.
    pub(crate) fn judge<C: Clock, G: Rng>(
        &mut self,
        hand: InHand<A>,
        clock: &C,
        rng: &mut G,
    ) -> Option<InHand<A>>
        requires { IsWorkingWith self.old (Some hand) }
        ensures step { StepsAside self.old (Some hand) self.new result }
        ensures judged { in_hand false is_pending_in result ≡ false }
    {
        let InHand { batch, sending } = hand;
        let Some(sending) = sending else {
            return Some(in_hand(batch, None));
        };
        let word = if sending.is_pending() {
            rng.next_u64()
        } else {
            0
        };
        match sending.judge(clock.now(), word) {
            Judged::Nothing(sending) => Some(in_hand(batch, Some(sending))),
            Judged::Again { sending, .. } => Some(in_hand(batch, Some(sending))),
            Judged::Over { fate, .. } => {
                self.holder
                    .settle(batch, fate, &self.outcomes, &mut self.spent);
                self.outcomes.clear();
                None
            }
        }
    }
}

impl<J: Naming, R: Wait + Drop, A: Allocator + Copy> BatchSender<J, R, A> {
    /// Abandons the batch in hand: it is dropped where it was not handed, and else settled.
    pub(crate) fn abandon(&mut self, hand: InHand<A>)
        requires { IsWorkingWith self.old (Some hand) }
        ensures { self.new ≡ record self.old {
          account = abandon (work_in self.old (Some hand)).account;
          outcomes = [];
        } }
    {
        let InHand { batch, sending } = hand;
        if !sending.is_some_and(|sending| sending.is_sent()) {
            self.holder.drop_batch(batch, Reason::Abandoned);
            return;
        }
        self.holder
            .settle(batch, Fate::Abandoned, &self.outcomes, &mut self.spent);
        self.outcomes.clear();
    }

    /// The worker's place at the lock, where no batch is in hand.
    pub(crate) fn into_holder(self) -> Holder<J, R, A>
        ensures { result ≡ worker self.origin self.account }
    {
        let BatchSender { holder, .. } = self;
        holder
    }
}
