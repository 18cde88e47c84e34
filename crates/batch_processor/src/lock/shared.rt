//! What threads share, with their accounts. Each call is what is done in one hold of the lock.
ghost use Rattle.std.specs.Prelude.{◌≡◌, ◌≤◌, ◌&&◌, ◌||◌, not, vec_len, true, false, None, [], ◌++◌};
ghost use Rattle.std.specs.Prelude.{drop, IfSome, IfNone, IsPermutation, IsTrue, is_none, is_some};
ghost use Rattle.std.specs.Prelude.{option_map, option_to_list, reverse};
ghost use Rattle.model_desk.specs.Desks.{accepted_count, is_due};
ghost use Rattle.batch_desk.specs.Desk.{admission, after_admission, after_loss, after_names};
ghost use Rattle.batch_desk.specs.Desk.{is_queued};
ghost use Rattle.model_processor.specs.Passes.{after_drain, after_pop, after_pop_lost};
ghost use Rattle.model_processor.specs.AnyAccounts.{account_in, after_drained, after_drop};
ghost use Rattle.model_processor.specs.AnyAccounts.{after_handed, after_left, after_settle};
ghost use Rattle.model_processor.specs.AnyAccounts.{on_pass, on_worker, origin_in, pass};
ghost use Rattle.model_processor.specs.AnyAccounts.{processor, worker, worker_in};
ghost use Rattle.processor_account.specs.Views.{after_end, outcomes_view};
ghost use Rattle.batch_processor.specs.Views.{after_answer, ended_of};
ghost use Rattle.batch_processor.specs.Holds.{Asks, InHold, IsBatchOf, IsCounted};
ghost use Rattle.batch_processor.specs.Holds.{IsNamedBatchOf, IsSettledBatchOf, IsTold, PopsBy};
ghost use Rattle.batch_processor.specs.Holds.{TakesBatch, after_asked, has_work, wake_of};
ghost use Rattle.model_processor.specs.Kept.{IsAccountOf};

use super::Holder;
use super::hold::{After, Wake};
use crate::account::{Account, BatchState};
use crate::config::Setup;
use crate::fault::WorkerLeft;
use crate::pass::{Flushed, Pass};
use account_book::{Book, Naming};
use batch_desk::{Admitted, Batch, Desk, DrainedNames, Mark, NamedBatch, SettledBatch, Totals};
use otlp_span::{Entry, Reason, Slip, SpanData, SpanRemains};
use processor_account::{
    Drains, Drops, Ends, Flushes, Hands, Leaves, Pops, PopsAll, PopsLost, Settled, Settles,
    ShutsDown, SpanEnded, Takes, ToldFlushed, ToldLeft,
};
use retry_core::Outcome;
use std::alloc::Allocator;
use std::marker::Model;
use std::mem;
use std::snapshot::Snapshot;
use trace_api::Ended;

/// What waiting threads wait for: whether the worker has work, whatever the moment is; and what
/// flushes are answered by, whether a batch is out, and whether the worker has left.
#[derive(Clone, Copy)]
struct Awaited {
    has_work: bool,
    is_out: bool,
    left: bool,
}

/// What the lock of a processor guards, with the book of its accounts.
/// In contracts it is the queue, whether the worker has left, and the spans that were sent and
/// aren't freed yet.
#[derive(Drop)]
pub(super) struct Shared<J: Naming, A: Allocator> {
    pub(super) desk: Desk<A>,
    // Whether the worker has left.
    pub(super) left: bool,
    // Spans that were sent. The threads that end other spans free them.
    pub(super) spent: Vec<SpanData<A>, A>,
    pub(super) book: Book<J, BatchState>,
    pub(super) setup: Setup,
}

impl<J: Naming, A: Allocator> Model for Shared<J, A> {
    ghost use Rattle.model_processor.specs.Kept.{IsShared};
    ghost use Rattle.batch_processor.specs.Holds.{Guarded};
    ghost use Rattle.batch_processor.specs.Views.{setup_view};

    ghost Value = { Guarded };

    ghost view = { λ s. record {
      desk = s.desk;
      left = s.left;
      spent = s.spent.items;
    } };

    ghost invariant = { λ s. IsShared (setup_view s.setup) s.left s.desk s.book };
}

impl<J: Naming, A: Allocator + Copy> Shared<J, A> {
    /// What waiting threads wait for.
    fn awaited(&self) -> Awaited
        ensures work { result.has_work ≡ has_work self.now.desk }
        ensures out { result.is_out ≡ is_some self.now.desk.out }
        ensures left { result.left ≡ self.now.left }
    {
        let desk = &self.desk;
        Awaited {
            has_work: desk.due(0) || desk.is_closed() && desk.waiting() == 0,
            is_out: desk.out().is_some(),
            left: self.left,
        }
    }

    /// What a hold answers, and whom it wakes, where this was so when it began.
    fn after<T>(&self, was: Awaited, value: T) -> After<T>
        ensures value { result.value ≡ value }
        ensures worker { result.wake.worker ≡ (has_work self.now.desk && not was.has_work) }
        ensures flushes { result.wake.flushes
            ≡ ((was.is_out && not (is_some self.now.desk.out)) || (self.now.left && not was.left)) }
    {
        let is = self.awaited();
        let wake = Wake {
            worker: is.has_work && !was.has_work,
            flushes: was.is_out && !is.is_out || is.left && !was.left,
        };
        After { wake, value }
    }

    /// A span ends on a pass. What is left of it where it doesn't wait is handed out, and else a
    /// span that was sent, if one is left: both are to be freed once the hold is over. It wakes
    /// nobody: the worker finds a batch that filled when it looks next.
    pub(super) fn admit(
        &mut self,
        account: &mut Account<J>,
        span: SpanData<A>,
    ) -> (Ended, Option<SpanRemains<A>>, Option<SpanData<A>>)
        requires { account.old ≡ pass (account_in account.old) }
        ensures hold { InHold self.old (account_in account.old) }
        ensures answer { result.0 ≡ ended_of (admission self.old.desk) }
        ensures account { account.new ≡ on_pass (after_end result.0 span) account.old }
        ensures desk { self.new ≡ record self.old {
          desk = after_admission (admission self.old.desk) span self.old.desk;
          spent = self.new.spent;
        } }
        ensures remains { is_none result.1 ≡ is_queued (admission self.old.desk) }
        ensures spent { self.old.spent ≡ self.new.spent ++ option_to_list result.2 }
    {
        let seen = Snapshot::of(&span);
        let (admitted, remains) = self.desk.offer(span);
        let answer = ended_of(admitted);
        let ended = SpanEnded { span: seen, answer };
        self.book.record::<SpanEnded<A>, Ends>(account, &ended);
        let spent = match &remains {
            None => self.spent.pop(),
            Some(_) => None,
        };
        (answer, remains, spent)
    }

    /// Leaves the spans of a batch that was sent to the threads that end others, where half a batch
    /// waits already: they end spans about as fast as these are sent. What they haven't freed of
    /// the batch before is handed back.
    fn leave_spent(&mut self, spent: &mut Vec<SpanData<A>, A>)
        ensures guarded { self.new ≡ record self.old { spent = self.new.spent } }
        ensures spent { IsPermutation
            (spent.old.items ++ self.old.spent) (spent.new.items ++ self.new.spent) }
    {
        if self.desk.waiting() >= self.setup.config.desk.batch / 2 {
            mem::swap(&mut self.spent, spent);
        }
    }

    /// A pass asks for all spans that were accepted so far, and shuts the processor down, or not.
    pub(super) fn ask(&mut self, account: &mut Account<J>, closes: bool) -> After<Mark>
        requires { account.old ≡ pass (account_in account.old) }
        ensures asks { Asks closes self.old result.value account.old account.new }
        ensures desk { self.new ≡ record self.old { desk = after_asked closes self.old.desk } }
        ensures wake { result.wake ≡ wake_of self.old self.new }
    {
        let was = self.awaited();
        let seen = Snapshot::of(&self.desk);
        if closes {
            let mark = self.desk.shutdown();
            self.book
                .record::<Snapshot<Desk<A>>, ShutsDown>(account, &seen);
            return self.after(was, mark);
        }
        let mark = self.desk.flush();
        self.book
            .record::<Snapshot<Desk<A>>, Flushes>(account, &seen);
        self.after(was, mark)
    }

    /// The answer to a pass that asked last for what this mark says: that it is flushed, or else
    /// that the worker has left. None where neither is so yet.
    pub(super) fn flushed(
        &mut self,
        account: &mut Account<J>,
        mark: Mark,
    ) -> Option<Result<Flushed, WorkerLeft>>
        requires pass { account.old ≡ pass (account_in account.old) }
        requires mark { (account_in account.old).asked.mark ≡ mark }
        ensures told { IfSome result
            (λ answer. IsTold self.old mark answer (account_in account.old)) }
        ensures some { IfSome result
            (λ answer. account.new ≡ on_pass (after_answer answer) account.old) }
        ensures none { IfNone result (account.new ≡ account.old) }
        ensures unchanged { self.new ≡ self.old }
    {
        if self.desk.flushed(mark) {
            self.book.record::<(), ToldFlushed>(account, &());
            return Some(Ok(Flushed));
        }
        if self.left {
            self.book.record::<(), ToldLeft>(account, &());
            return Some(Err(WorkerLeft));
        }
        None
    }

    /// The counts of all that came so far, on a pass.
    pub(super) fn totals(&mut self, account: &mut Account<J>) -> Totals
        requires { account.old ≡ pass (account_in account.old) }
        ensures counts { IsCounted self.old result (account_in account.old) }
        ensures account { account.new ≡ account.old }
        ensures unchanged { self.new ≡ self.old }
    {
        self.book.recognize(account);
        self.desk.totals()
    }

    /// A pass pops an entry of the ledger. It is handed out with its slip.
    pub(super) fn pop_entry(&mut self, account: &mut Account<J>) -> Option<(Entry, Slip<A>)>
        requires { account.old ≡ pass (account_in account.old) }
        ensures account { PopsBy after_pop account.old (option_map (λ p. p.0) result) account.new }
        ensures desk { self.new ≡ record self.old {
          desk = record self.old.desk { ledger = drop 1 self.old.desk.ledger };
        } }
    {
        let (entry, slip) = self.desk.pop_entry_slip()?;
        self.book.record::<Entry, Pops>(account, &entry);
        Some((entry, slip))
    }

    /// A pass pops an entry of the ledger of lost spans. It is handed out with its slip.
    pub(super) fn pop_lost(&mut self, account: &mut Account<J>) -> Option<(Entry, Slip<A>)>
        requires { account.old ≡ pass (account_in account.old) }
        ensures account { PopsBy after_pop_lost
            account.old (option_map (λ p. p.0) result) account.new }
        ensures desk { self.new ≡ record self.old {
          desk = record self.old.desk { lost = drop 1 self.old.desk.lost };
        } }
    {
        let (entry, slip) = self.desk.pop_lost_slip()?;
        self.book.record::<Entry, PopsLost>(account, &entry);
        Some((entry, slip))
    }

    /// A pass drains both ledgers. However many names there are, none is looked at in the hold.
    pub(super) fn drain_names(&mut self, account: &mut Account<J>) -> DrainedNames<A>
        requires { account.old ≡ pass (account_in account.old) }
        ensures account { account.new ≡ on_pass
            (after_drain (reverse result.dropped) (reverse result.lost)) account.old }
        ensures desk { self.new ≡ record self.old {
          desk = record self.old.desk { ledger = []; lost = [] };
        } }
    {
        let names = self.desk.drain_names();
        self.book
            .record::<DrainedNames<A>, PopsAll>(account, &names);
        names
    }

    /// The worker, which has no batch out, takes the next batch, if it is due.
    pub(super) fn take(&mut self, account: &mut Account<J>, now: u64) -> Option<Batch<A>>
        requires worker { account.old ≡ worker (origin_in account.old) (worker_in account.old) }
        requires none_out { (worker_in account.old).out ≡ None }
        ensures account { TakesBatch account.old result account.new }
        ensures spent { self.new.spent ≡ self.old.spent }
    {
        let batch = self.desk.take(now)?;
        self.book.record::<Batch<A>, Takes>(account, &batch);
        Some(batch)
    }

    /// How many spans were accepted so far.
    pub(super) fn accepted(&self) -> u64
        ensures { result ≡ accepted_count self.now.desk }
    {
        self.desk.totals().accepted
    }

    /// Whether a batch is due at this moment.
    pub(super) fn is_due(&self, now: u64) -> bool
        ensures { result ≡ is_due self.now.desk now }
    {
        self.desk.due(now)
    }

    /// The worker hands its batch to an exporter, with this body.
    pub(super) fn handed(&mut self, account: &mut Account<J>, batch: &Batch<A>, body: &Vec<u8, A>)
        requires worker { account.old ≡ worker (origin_in account.old) (worker_in account.old) }
        requires out { IsBatchOf account.old batch.now }
        ensures account { account.new ≡ on_worker (after_handed body.now.items) account.old }
        ensures spent { self.new.spent ≡ self.old.spent }
    {
        self.book.record::<Vec<u8, A>, Hands>(account, body);
        self.desk.handed(batch.number());
    }

    /// The worker drops its batch.
    pub(super) fn drop_batch(&mut self, account: &mut Account<J>, batch: NamedBatch<A>) -> After<()>
        requires worker { account.old ≡ worker (origin_in account.old) (worker_in account.old) }
        requires out { IsNamedBatchOf account.old batch }
        ensures account { account.new ≡ on_worker (after_drop batch.reason) account.old }
        ensures desk { self.new ≡ record self.old {
          desk = after_names batch.reason batch.entries self.old.desk;
        } }
        ensures wake { result.wake ≡ wake_of self.old self.new }
    {
        let was = self.awaited();
        self.book.record::<NamedBatch<A>, Drops>(account, &batch);
        self.desk.drop_named(batch);
        self.after(was, ())
    }

    /// The worker settles its batch. Spans that were sent are left to the threads that end others;
    /// other spans are handed out, to be freed once the hold is over.
    pub(super) fn settle(
        &mut self,
        account: &mut Account<J>,
        batch: SettledBatch<A>,
        outcomes: &Vec<Outcome, A>,
        mut spent: Vec<SpanData<A>, A>,
    ) -> After<Vec<SpanData<A>, A>>
        requires worker { account.old ≡ worker (origin_in account.old) (worker_in account.old) }
        requires out { IsSettledBatchOf account.old batch }
        ensures account { account.new ≡ on_worker
            (after_settle (outcomes_view outcomes.now.items) batch.fate) account.old }
        ensures desk { self.new ≡ record self.old {
          desk = after_loss batch.fate batch.entries self.old.desk;
          spent = self.new.spent;
        } }
        ensures spent { IsPermutation
            (spent.items ++ self.old.spent) (result.value.items ++ self.new.spent) }
        ensures wake { result.wake ≡ wake_of self.old self.new }
    {
        let was = self.awaited();
        let settled = Settled {
            outcomes: Snapshot::of(outcomes),
            fate: batch.fate(),
        };
        self.book.record::<Settled<A>, Settles>(account, &settled);
        self.desk.settle_named(batch);
        self.leave_spent(&mut spent);
        self.after(was, spent)
    }

    /// The worker, which has no batch out, leaves.
    pub(super) fn leave(&mut self, account: &mut Account<J>) -> After<()>
        requires { account.old ≡ worker (origin_in account.old) (worker_in account.old) }
        ensures account { account.new ≡ on_worker after_left account.old }
        ensures left { self.new ≡ record self.old { left = true } }
        ensures wake { result.wake ≡ wake_of self.old self.new }
    {
        let was = self.awaited();
        self.book.record::<(), Leaves>(account, &());
        self.left = true;
        self.after(was, ())
    }

    /// Whether the processor is shut down, and no span waits: for the worker, which has no batch
    /// out.
    pub(super) fn drained(&mut self, account: &mut Account<J>) -> bool
        requires worker { account.old ≡ worker (origin_in account.old) (worker_in account.old) }
        ensures yes { IsTrue result → account.new ≡ on_worker after_drained account.old }
        ensures no { result ≡ false → account.new ≡ account.old }
        ensures unchanged { self.new ≡ self.old }
    {
        if !self.desk.is_closed() || self.desk.waiting() > 0 {
            return false;
        }
        self.book.record::<(), Drains>(account, &());
        true
    }

    /// Takes the desk out, once the processor, the worker and all passes are back, and leaves the
    /// spare one.
    pub(super) fn close<R: Drop>(
        &mut self,
        mut account: Account<J>,
        of_worker: Account<J>,
        passes: Vec<Pass<J, R, A>, A>,
        spare: Desk<A>,
    ) -> Desk<A>
        requires processor { account ≡ processor (origin_in account) }
        requires worker { of_worker ≡ worker (origin_in of_worker) (worker_in of_worker) }
        requires all { (origin_in account).passes ≤ vec_len passes }
        ensures origin { origin_in of_worker ≡ origin_in account }
        ensures accounts { IsAccountOf (origin_in account) result passes.items
            (worker_in of_worker) }
        ensures room { 1 ≤ result.config.batch }
        ensures spent { self.new.spent ≡ self.old.spent }
    {
        self.book.recognize(&mut account);
        let desk = mem::replace(&mut self.desk, spare);
        self.book.close(account);
        self.book.close(of_worker);
        for pass in passes {
            let Pass { holder } = pass;
            let Holder { account, .. } = holder;
            self.book.close(account);
        }
        desk
    }
}

/// The answer to the end of a span that was admitted so.
fn ended_of(admitted: Admitted) -> Ended
    ensures { result ≡ ended_of admitted }
{
    match admitted {
        Admitted::Queued(ticket) => Ended::Queued(ticket),
        Admitted::Full(ticket) => Ended::Dropped(ticket, Reason::QueueFull),
        Admitted::Late => Ended::Late,
    }
}
