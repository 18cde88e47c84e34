//! The worker's pass: turns of work, and what becomes of a batch in hand where the pass is dropped.
ghost use Rattle.std.specs.Prelude.{◌≡◌, List, Option, IfOk, IfSome, IsTrue, None, true, false};
ghost use Rattle.model_desk.specs.Waits.{IsRetryConfig};
ghost use Rattle.model_processor.specs.Worker.{new_worker};
ghost use Rattle.model_processor.specs.WorkerClauses.{EachLeadsOn, EndByWork, WorksUntilItLeaves};
ghost use Rattle.model_processor.specs.WorkerClauses.{abandon};
ghost use Rattle.model_processor.specs.AnyAccounts.{after_left, worker};
ghost use Rattle.span_exporter.specs.Handed.{Handed};
ghost use Rattle.batch_processor.specs.New.{new_work};
ghost use Rattle.batch_processor.specs.Views.{setup_view};
ghost use Rattle.batch_processor.specs.Working.{GoesOn, IsPrepared};

use crate::config::Setup;
use crate::lock::{Holder, Pace};
use crate::steps::{BatchSender, InHand};
use account_book::Naming;
use rand_core::Rng;
use span_exporter::Exporter;
use std::alloc::{AllocError, Allocator, Global};
use std::marker::Model;
use std::sync::Wait;
use std::{fmt, mem, time};
use trace_api::Clock;

/// How work ended.
#[derive(Debug, Clone, Copy, PartialEq, Eq)]
pub enum WorkEnd {
    /// The processor is shut down, no span waits, and no batch is out.
    Drained,
    /// The turns are spent, or the worker has left.
    TurnsSpent,
}

/// The way of one thread, which sends the batches, to a batch processor. In contracts it is what
/// the worker knows: the batches that ended, each with its spans, its body, the outcomes of its
/// attempts and its fate; the one that is out; and whether it has left. On the heap it may go to
/// another thread where the runtime's value may: what `thread::spawn` asks its caller to show is
/// the lemma `worker_send` of `proofs/Crosses.antt`. Where the pass is dropped, the worker leaves.
pub struct WorkerPass<J: Naming, R: Wait + Drop, A: Allocator + Copy = Global> {
    pub(crate) sender: BatchSender<J, R, A>,
    pub(crate) in_hand: Option<InHand<A>>,
    pub(crate) left: bool,
}

impl<J: Naming, R: Wait + Drop, A: Allocator + Copy> Model for WorkerPass<J, R, A> {
    ghost use Rattle.batch_processor.specs.Working.{IsPassWith, Work, work_in};

    ghost Value = { Work };

    ghost view = { λ p. work_in p.sender p.in_hand };

    ghost invariant = { λ p. IsPassWith p.left p.sender p.in_hand };
}

/// Writes the name of the type alone, as a pass does.
impl<J: Naming, R: Wait + Drop, A: Allocator + Copy> fmt::Debug for WorkerPass<J, R, A> {
    fn fmt<W: fmt::Write>(&self, f: &mut fmt::Formatter<W>) -> fmt::Result {
        f.debug_struct("WorkerPass").finish_non_exhaustive()
    }
}

impl<J: Naming, R: Wait + time::Clock + Drop, A: Allocator + Copy> WorkerPass<J, R, A> {
    /// Takes, encodes, sends and judges batches, in at most `turns` turns: each is one of these
    /// steps, or a wait of some milliseconds. A batch in hand stays in the pass between calls. One
    /// that memory is refused for, or whose body would be longer than it may be, is dropped. One
    /// word is drawn for each reply. A worker that has left takes no step. (Trace SDK, "Batching
    /// processor", "Export(batch)"; drops: profile)
    pub fn work<E: Exporter, C: Clock, G: Rng>(
        &mut self,
        exporter: &mut E,
        clock: &C,
        rng: &mut G,
        turns: u64,
    ) -> WorkEnd
        requires prepared { IsPrepared (E.room exporter.old) self.old }
        ensures prepared { IsPrepared (E.room exporter.new) self.new }
        ensures goes_on { GoesOn (E.handed exporter.old) (E.handed exporter.new)
            self.old self.new }
        ensures drained { result ≡ WorkEnd.Drained → self.new.account.drained ≡ true }
        ensures none_out { result ≡ WorkEnd.Drained → self.new.account.out ≡ None }
        ensures left { self.old.account.left ≡ true → result ≡ WorkEnd.TurnsSpent }
        ensures untouched { self.old.account.left ≡ true
            → (exporter.new ≡ exporter.old) × (rng.new ≡ rng.old) }
    {
        if self.left {
            return WorkEnd::TurnsSpent;
        }
        for _turn in 0..turns {
            if self.turn(exporter, clock, rng) {
                return WorkEnd::Drained;
            }
        }
        WorkEnd::TurnsSpent
    }

    /// One turn. Whether all is drained.
    fn turn<E: Exporter, C: Clock, G: Rng>(
        &mut self,
        exporter: &mut E,
        clock: &C,
        rng: &mut G,
    ) -> bool
        requires here { self.old.account.left ≡ false }
        requires prepared { IsPrepared (E.room exporter.old) self.old }
        ensures prepared { IsPrepared (E.room exporter.new) self.new }
        ensures goes_on { GoesOn (E.handed exporter.old) (E.handed exporter.new)
            self.old self.new }
        ensures drained { IsTrue result → self.new.account.drained ≡ true }
        ensures none_out { IsTrue result → self.new.account.out ≡ None }
    {
        let Some(hand) = self.in_hand.take() else {
            let now = clock.now();
            let Some(hand) = self.sender.take(now) else {
                return self.sender.holder.drained(now, &mut self.sender.pace);
            };
            keep(&mut self.in_hand, Some(hand));
            return false;
        };
        let kept = self.sender.step(hand, exporter, clock, rng);
        keep(&mut self.in_hand, kept);
        false
    }

    /// Judges the outcome of the last attempt of the batch in hand, where that isn't done: the
    /// batch is settled by it, or is to be sent again. Nothing is sent. It is for a caller that
    /// ends work before all is drained, so that no reply that came is left out. (profile)
    pub fn judge<C: Clock, G: Rng>(&mut self, clock: &C, rng: &mut G)
        ensures goes_on { (told : Option (List Handed)) → GoesOn told told self.old self.new }
        // No outcome of the batch that is out settles it.
        ensures judged { IfSome self.new.account.out
            (λ batch. EachLeadsOn self.new.origin.retry 1 batch.outcomes) }
    {
        let Some(hand) = self.in_hand.take() else {
            return;
        };
        let kept = self.sender.judge(hand, clock, rng);
        keep(&mut self.in_hand, kept);
    }
}

/// Puts a batch, or none, into a hand that is empty.
fn keep<A: Allocator>(in_hand: &mut Option<InHand<A>>, left: Option<InHand<A>>)
    requires { in_hand.old ≡ None }
    ensures { in_hand.new ≡ left }
{
    match mem::replace(in_hand, left) {
        None => {}
        Some(_hand) => unreachable!(),
    }
}

impl<J: Naming, R: Wait + Drop, A: Allocator + Copy> WorkerPass<J, R, A> {
    /// The pass of a worker that has done nothing.
    ///
    /// # Errors
    ///
    /// `AllocError` where memory was refused.
    pub(crate) fn new(
        alloc: A,
        holder: Holder<J, R, A>,
        setup: Setup,
    ) -> Result<WorkerPass<J, R, A>, AllocError>
        requires account { holder ≡ worker (setup_view setup) new_worker }
        requires retry { IsRetryConfig setup.config.retry }
        ensures { IfOk result (λ pass. pass ≡ new_work (setup_view setup)) }
    {
        let outcomes = Vec::with_capacity(alloc, 5)?;
        let spent = Vec::with_capacity(alloc, setup.config.desk.batch)?;
        let sender = BatchSender {
            holder,
            outcomes,
            spent,
            setup,
            pace: Pace::default(),
        };
        Ok(WorkerPass {
            sender,
            in_hand: None,
            left: false,
        })
    }

    /// Leaves: the batch in hand, if there is one, is dropped as `Abandoned` where it was not
    /// handed to an exporter, and else settled as `Abandoned`. Flushes that wait for what is not
    /// flushed then are answered `WorkerLeft`, and so are later ones. A second call changes
    /// nothing. (profile)
    pub fn leave(&mut self)
        ensures { self.new ≡ record self.old {
          account = after_left (abandon self.old.account);
          encoded = None;
        } }
    {
        if self.left {
            return;
        }
        self.left = true;
        let Some(hand) = self.in_hand.take() else {
            self.sender.holder.leave();
            return;
        };
        self.sender.abandon(hand);
        self.sender.holder.leave();
    }

    /// Abandons the batch in hand, if there is one, as `leave` does.
    pub(crate) fn abandon(self) -> Holder<J, R, A>
        ensures account { result ≡ worker self.origin (abandon self.account) }
        ensures by_work { EndByWork self.origin (abandon self.account) }
        ensures works { WorksUntilItLeaves self.origin self.account }
    {
        let WorkerPass {
            mut sender,
            in_hand,
            left: _,
        } = self;
        let Some(hand) = in_hand else {
            return sender.into_holder();
        };
        sender.abandon(hand);
        sender.into_holder()
    }
}

impl<J: Naming, R: Wait + Drop, A: Allocator + Copy> Drop for WorkerPass<J, R, A> {
    /// The worker leaves.
    fn drop(mut self) {
        self.leave();
        drop(self.abandon());
    }
}
