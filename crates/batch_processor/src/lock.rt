//! The lock of a processor, and those that take it. Nothing outside this module can take it, so no
//! encoder, exporter or clock is called under it. What a call hands out is freed by its caller,
//! without the lock.
ghost use Rattle.std.specs.Prelude.{◌≡◌, ◌≤◌, IfOk, IsTrue, None, true, false, reverse, vec_len};
ghost use Rattle.model_processor.specs.Kept.{IsAccountOf, IsShared};
ghost use Rattle.model_processor.specs.Passes.{after_drain, after_pop, after_pop_lost};
ghost use Rattle.model_processor.specs.AnyAccounts.{account_in, after_drained, after_drop};
ghost use Rattle.model_processor.specs.AnyAccounts.{after_handed, after_left, after_settle};
ghost use Rattle.model_processor.specs.AnyAccounts.{on_pass, on_worker};
ghost use Rattle.model_processor.specs.AnyAccounts.{origin_in, pass, processor, worker, worker_in};
ghost use Rattle.processor_account.specs.Views.{after_end, outcomes_view};
ghost use Rattle.batch_processor.specs.Answers.{AdmitsSpan};
ghost use Rattle.batch_processor.specs.Holds.{IsBatchOf, IsSentBatchOf, PopsBy, TakesBatch};
ghost use Rattle.batch_processor.specs.Holds.{WasAsked, WasCounted, WasTold};
ghost use Rattle.batch_desk.specs.Batch.{settled_batch};
ghost use Rattle.model_span.specs.Dropped.{can_drop_batch};
ghost use Rattle.otlp_span.specs.Dropped.{reason_view};
ghost use Rattle.retry_core.specs.Retries.{fate_view};
ghost use Rattle.batch_processor.specs.Views.{after_answer, setup_view};

mod hold;
mod pace;
mod shared;

use crate::account::{Account, BatchState};
use crate::config::Setup;
use crate::fault::WorkerLeft;
use crate::pass::{Flushed, Pass};
use account_book::{Book, Naming};
use batch_desk::{Batch, Desk, DrainedNames, Mark, SettledBatch, Totals, loss_reason};
use hold::Waits;
use otlp_span::{Entry, Reason, SpanData, SpanRemains};
use pace::PAUSE_MS;
pub(crate) use pace::Pace;
use retry_core::{Fate, Outcome};
use shared::Shared;
use std::alloc::{AllocError, Allocator};
use std::marker::Model;
use std::sync::{Arc, Mutex, Wait};
use std::time::Duration;
use std::{mem, thread, time};
use trace_api::Ended;

/// The lock of a processor, with what it guards, and those that wait for what is done under it.
pub(crate) struct Lock<J: Naming, A: Allocator> {
    shared: Mutex<Shared<J, A>>,
    waits: Waits,
}

/// By hand: a derived one would be proved again in each crate that drops it.
impl<J: Naming, A: Allocator> Drop for Lock<J, A> {
    fn drop(self) {
        let Self {
            shared: _,
            waits: _,
        } = self;
    }
}

impl<J: Naming, A: Allocator + Copy> Lock<J, A> {
    /// A lock that guards this queue, with the accounts of this book. The worker hasn't left.
    pub(crate) fn new(
        desk: Desk<A>,
        spent: Vec<SpanData<A>, A>,
        book: Book<J, BatchState>,
        setup: Setup,
    ) -> Lock<J, A>
        requires { IsShared (setup_view setup) false desk book }
    {
        let shared = Shared {
            desk,
            left: false,
            spent,
            book,
            setup,
        };
        Lock {
            shared: Mutex::new(shared),
            waits: Waits::default(),
        }
    }
}

/// One that takes the lock: a pass, the worker, or the processor in the end. In contracts it is its
/// account. Each call but `new` and `pause` takes the lock once, does what is asked for, and gives it
/// back; `wait` and `drained` give it up while they wait.
#[derive(Drop)]
pub(crate) struct Holder<J: Naming, R, A: Allocator> {
    lock: Arc<Lock<J, A>, A>,
    account: Account<J>,
    rt: R,
}

impl<J: Naming, R, A: Allocator> Model for Holder<J, R, A> {
    ghost use Rattle.model_processor.specs.AnyAccounts.{AnyAccount};

    ghost Value = { AnyAccount };

    ghost view = { λ h. h.account };
}

impl<J: Naming, R: Copy, A: Allocator> Holder<J, R, A> {
    /// One with this account.
    ///
    /// # Errors
    ///
    /// `AllocError` where memory was refused.
    pub(crate) fn new(
        lock: &Arc<Lock<J, A>, A>,
        account: Account<J>,
        rt: R,
    ) -> Result<Holder<J, R, A>, AllocError>
        ensures { IfOk result (λ holder. holder ≡ account) }
    {
        let lock = Arc::try_clone(lock)?;
        Ok(Holder { lock, account, rt })
    }
}

impl<J: Naming, R: Wait, A: Allocator + Copy> Holder<J, R, A> {
    /// A span ends on a pass. What is left of it where it doesn't wait is handed out, and else a
    /// span that was sent, if one is left.
    pub(crate) fn admit(
        &mut self,
        span: SpanData<A>,
    ) -> (Ended, Option<SpanRemains<A>>, Option<SpanData<A>>)
        requires { self.old ≡ pass (account_in self.old) }
        ensures account { self.new ≡ on_pass (after_end result.0 span) self.old }
        ensures admits { AdmitsSpan (account_in self.old) span result.0 (account_in self.new) }
    {
        let mut hold = self.lock.shared.lock(&self.rt);
        hold.admit(&mut self.account, span)
    }

    /// A pass asks for all spans that were accepted so far, and shuts the processor down, or not.
    pub(crate) fn ask(&mut self, closes: bool) -> Mark
        requires { self.old ≡ pass (account_in self.old) }
        ensures { WasAsked closes result self.old self.new }
    {
        let mut hold = self.lock.shared.lock(&self.rt);
        let after = hold.ask(&mut self.account, closes);
        self.lock.waits.end(hold, after)
    }

    /// A pass waits until what it asked for is flushed, or the worker has left.
    pub(crate) fn wait(&mut self, mark: Mark) -> Result<Flushed, WorkerLeft>
        requires pass { self.old ≡ pass (account_in self.old) }
        requires mark { (account_in self.old).asked.mark ≡ mark }
        ensures account { self.new ≡ on_pass (after_answer result) self.old }
        ensures told { WasTold mark result (account_in self.old) }
    {
        let (waits, hold) = (&self.lock.waits, self.lock.shared.lock(&self.rt));
        waits.for_flush(&self.rt, hold, &mut self.account, mark)
    }

    /// The counts of all that came so far, on a pass.
    pub(crate) fn totals(&mut self) -> Totals
        requires { self.old ≡ pass (account_in self.old) }
        ensures counts { WasCounted result (account_in self.old) }
        ensures account { self.new ≡ self.old }
    {
        self.lock.shared.lock(&self.rt).totals(&mut self.account)
    }

    /// A pass pops an entry of the ledger.
    pub(crate) fn pop_entry(&mut self) -> Option<Entry>
        requires { self.old ≡ pass (account_in self.old) }
        ensures { PopsBy after_pop self.old result self.new }
    {
        let popped = self.lock.shared.lock(&self.rt).pop_entry(&mut self.account);
        Some(popped?.0)
    }

    /// A pass pops an entry of the ledger of lost spans.
    pub(crate) fn pop_lost(&mut self) -> Option<Entry>
        requires { self.old ≡ pass (account_in self.old) }
        ensures { PopsBy after_pop_lost self.old result self.new }
    {
        let popped = self.lock.shared.lock(&self.rt).pop_lost(&mut self.account);
        Some(popped?.0)
    }

    /// A pass drains both ledgers. All names are handed out, the newest first.
    pub(crate) fn drain_names(&mut self) -> DrainedNames<A>
        requires { self.old ≡ pass (account_in self.old) }
        ensures { self.new ≡ on_pass
            (after_drain (reverse result.dropped) (reverse result.lost)) self.old }
    {
        let mut hold = self.lock.shared.lock(&self.rt);
        hold.drain_names(&mut self.account)
    }

    /// The worker, which has no batch out, takes the next batch, if it is due.
    pub(crate) fn take(&mut self, now: u64) -> Option<Batch<A>>
        requires worker { self.old ≡ worker (origin_in self.old) (worker_in self.old) }
        requires none_out { (worker_in self.old).out ≡ None }
        ensures { TakesBatch self.old result self.new }
    {
        self.lock.shared.lock(&self.rt).take(&mut self.account, now)
    }

    /// The worker hands its batch to an exporter, with this body.
    pub(crate) fn handed(&mut self, batch: &Batch<A>, body: &Vec<u8, A>)
        requires worker { self.old ≡ worker (origin_in self.old) (worker_in self.old) }
        requires out { IsBatchOf self.old batch.now }
        ensures { self.new ≡ on_worker (after_handed body.now.items) self.old }
    {
        let mut hold = self.lock.shared.lock(&self.rt);
        hold.handed(&mut self.account, batch, body);
    }

    /// The worker drops its batch, which was not handed, for this reason. Its spans are named, and
    /// freed, before the hold.
    pub(crate) fn drop_batch(&mut self, batch: Batch<A>, reason: Reason)
        requires worker { self.old ≡ worker (origin_in self.old) (worker_in self.old) }
        requires out { IsBatchOf self.old batch }
        requires reason { can_drop_batch (reason_view reason) ≡ true }
        ensures { self.new ≡ on_worker (after_drop (reason_view reason)) self.old }
    {
        let batch = batch.into_named(reason);
        let mut hold = self.lock.shared.lock(&self.rt);
        let after = hold.drop_batch(&mut self.account, batch);
        self.lock.waits.end(hold, after);
    }

    /// The worker settles its batch, which was handed, after these outcomes of its attempts. In the
    /// hold none of its spans is freed or named: lost ones are before it, and others are left to
    /// the threads that end spans, or freed once it is over.
    pub(crate) fn settle(
        &mut self,
        batch: Batch<A>,
        fate: Fate,
        outcomes: &Vec<Outcome, A>,
        spent: &mut Vec<SpanData<A>, A>,
    )
        requires worker { self.old ≡ worker (origin_in self.old) (worker_in self.old) }
        requires out { IsSentBatchOf self.old batch }
        ensures { self.new ≡ on_worker
            (after_settle (outcomes_view outcomes.now.items) (fate_view fate)) self.old }
    {
        let none = Vec::new(*spent.allocator());
        let mut sent = mem::replace(spent, none);
        let batch = settled_of(batch, fate, &mut sent);
        let mut hold = self.lock.shared.lock(&self.rt);
        let after = hold.settle(&mut self.account, batch, outcomes, sent);
        *spent = self.lock.waits.end(hold, after);
        spent.clear();
    }

    /// The worker, which has no batch out, leaves.
    pub(crate) fn leave(&mut self)
        requires { self.old ≡ worker (origin_in self.old) (worker_in self.old) }
        ensures { self.new ≡ on_worker after_left self.old }
    {
        let mut hold = self.lock.shared.lock(&self.rt);
        let after = hold.leave(&mut self.account);
        self.lock.waits.end(hold, after);
    }
}

impl<J: Naming, R: Wait + time::Clock, A: Allocator + Copy> Holder<J, R, A> {
    /// Whether all is drained; if not, and no batch is due at this moment, the worker waits for a
    /// short time, or until it is woken.
    pub(crate) fn drained(&mut self, now: u64, pace: &mut Pace) -> bool
        requires worker { self.old ≡ worker (origin_in self.old) (worker_in self.old) }
        ensures yes { IsTrue result → self.new ≡ on_worker after_drained self.old }
        ensures no { result ≡ false → self.new ≡ self.old }
    {
        let (waits, hold) = (&self.lock.waits, self.lock.shared.lock(&self.rt));
        waits.for_work(&self.rt, hold, &mut self.account, now, pace)
    }

    /// Waits for a short time, without the lock.
    pub(crate) fn pause(&self) {
        thread::sleep(&self.rt, Duration::from_millis(PAUSE_MS));
    }
}

impl<J: Naming, R: Wait + Drop, A: Allocator + Copy> Holder<J, R, A> {
    /// Takes the desk out, once the processor, the worker and all passes are back, and leaves the
    /// spare one.
    pub(crate) fn close(
        self,
        of_worker: Holder<J, R, A>,
        passes: Vec<Pass<J, R, A>, A>,
        spare: Desk<A>,
    ) -> Desk<A>
        requires processor { self ≡ processor (origin_in self) }
        requires worker { of_worker ≡ worker (origin_in of_worker) (worker_in of_worker) }
        requires all { (origin_in self).passes ≤ vec_len passes }
        ensures origin { origin_in of_worker ≡ origin_in self }
        ensures accounts { IsAccountOf (origin_in self) result passes.items (worker_in of_worker) }
        ensures room { 1 ≤ result.config.batch }
    {
        let Holder { lock, account, rt } = self;
        let Holder {
            account: of_worker,
            ..
        } = of_worker;
        let mut hold = lock.shared.lock(&rt);
        hold.close(account, of_worker, passes, spare)
    }
}

/// A batch with its fate: where its spans are lost, they are named, and all else of them is freed.
/// Where they aren't, they are moved to `spent`, or freed where that has no room. It takes no
/// memory.
fn settled_of<A: Allocator>(
    mut batch: Batch<A>,
    fate: Fate,
    spent: &mut Vec<SpanData<A>, A>,
) -> SettledBatch<A>
    ensures { result ≡ settled_batch (fate_view fate) batch }
{
    if loss_reason(fate).is_none() {
        batch.clear_into(spent);
    }
    batch.into_settled(fate)
}
