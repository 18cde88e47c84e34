//! What the lock guards: what is kept, with the book of the accounts of those who share it.
ghost use Rattle.std.specs.Prelude.{◌≡◌, ◌≤◌, ◌∷◌, [], IfOk, IsErrOf, None, OnErr, OnOk};
ghost use Rattle.std.specs.Prelude.{length, true, false, ◌||◌};
ghost use Rattle.model_body.specs.Histories.{idle, is_out};
ghost use Rattle.retry_core.specs.Retries.{next_view};
ghost use Rattle.relay_queue.specs.Bodies.{MayNotTake, bodies_view};
ghost use Rattle.relay_queue.specs.Senders.{has_batch, is_pending};
ghost use Rattle.relay_queue.specs.Steps.{IsJudged};
ghost use Rattle.spool.specs.Settled.{IsSettled};
ghost use Rattle.relay_store.specs.Kept.{Admits, Puts, kept_count, remaining_in};
ghost use Rattle.relay_store.specs.Accounts.{after_posts, closed_in, closes, new_sent, posted_in};
ghost use Rattle.relay_store.specs.Accounts.{posts, sends, sent_in, started_with};
ghost use Rattle.relay_store.specs.Agreement.{AreKnown, IsInOrder};
ghost use Rattle.relay_store.specs.Balances.{Balances};
ghost use Rattle.relay_store.specs.Handlers.{GaveUp, IsNoted, Reads, Restores, TakesBatch};
ghost use Rattle.relay_store.specs.Holds.{FailsInHold, KeepsInHold, LacksInHold, ReportsInHold};
ghost use Rattle.relay_store.specs.Together.{AreKept};

use crate::account::{
    Account, Freeing, GivingUp, Noting, Posting, Reading, Returning, SaidState, Taking,
};
use crate::holdings::Holdings;
use crate::{EndedBodies, EndedSpans, Keeping};
use account_book::{Book, Naming};
use relay_queue::{BodySender, KeepFault, LostSpan, Report};
use retry_core::Next;
use spool::{Device, Spool, SpoolError};
use std::alloc::{AllocError, Global};
use std::marker::Model;
use std::snapshot::Snapshot;

/// What is kept, with the book of the accounts of those who share it under a lock. In contracts it
/// is what is kept. Each call is what is done in one hold of the lock.
#[derive(Drop)]
pub struct Accounted<J: Naming, D: Device> {
    keeping: Keeping<D>,
    book: Book<J, SaidState>,
    // Whether all bodies were given up, so that none is kept any more.
    is_closed: bool,
    // Whether the spool was opened again.
    is_reopened: bool,
}

impl<J: Naming, D: Device> Model for Accounted<J, D> {
    ghost use Rattle.relay_store.specs.Kept.{Kept};
    ghost use Rattle.relay_store.specs.Agreement.{AreKnown, IsInOrder};

    ghost Value = { Kept D };

    ghost view = { λ a. a.keeping };

    ghost invariant = { λ a. AreKnown a.keeping.desk a.keeping.is_spooled a.is_closed
        (IsInOrder D.is_known D.files a.keeping a.is_reopened) a.book };
}

/// Whether one of these is so.
fn is_either(first: bool, second: bool) -> bool
    ensures { result ≡ (first || second) }
{
    first || second
}

impl<J: Naming, D: Device> Accounted<J, D> {
    /// With three accounts that say nothing yet, but for what waits in the spool, while nothing is
    /// at the desk.
    pub(crate) fn new(keeping: Keeping<D>, book: Book<J, SaidState>) -> Accounted<J, D>
        requires desk { keeping.desk.kept ≡ [] }
        requires turn { keeping.desk.turn ≡ idle }
        requires book { book ≡ posts []
            ∷ sends (started_with (remaining_in D.files keeping) new_sent) ∷ closes None ∷ [] }
        ensures { result ≡ keeping }
    {
        Accounted {
            keeping,
            book,
            is_closed: false,
            is_reopened: false,
        }
    }

    /// Keeps a body, which has this many spans.
    pub(crate) fn keep(
        &mut self,
        account: &mut Account<J>,
        body: Vec<u8>,
        spans: usize,
    ) -> Result<(), KeepFault>
        requires { account.old ≡ posts (posted_in account.old) }
        ensures kept { OnOk result
            (KeepsInHold D.is_known D.files D.moment D.left_at body.items) }
        ensures admitted { OnOk result (self.old.is_spooled ≡ false
            → Admits body.items spans self.old self.new) }
        ensures put { OnOk result (self.old.is_spooled ≡ true → D.is_known
            → Puts D.files D.moment D.left_at body.items self.old.spool self.new.spool) }
        ensures posted { OnOk result (account.new ≡ after_posts (body.items ∷ []) account.old) }
        ensures full { IsErrOf result KeepFault.Full → LacksInHold D.is_known D.files body.items }
        ensures failed { IsErrOf result KeepFault.Failed → FailsInHold D }
        ensures unchanged { OnErr result (account.new ≡ account.old) }
    {
        if self.is_closed {
            return Err(KeepFault::Failed);
        }
        let seen = Snapshot::of(&body);
        self.keeping.keep(body, spans)?;
        self.book
            .record::<Snapshot<Vec<u8>>, Posting>(account, &seen);
        Ok(())
    }

    /// Keeps bodies together, which have this many spans: whether they are kept, all of them, or
    /// none.
    pub(crate) fn keep_together(
        &mut self,
        account: &mut Account<J>,
        bodies: &Vec<Vec<u8>>,
        spans: u64,
    ) -> bool
        requires { account.old ≡ posts (posted_in account.old) }
        ensures kept { result ≡ true
            → AreKept D.is_known D.files D.moment D.left_at bodies.now.items }
        ensures posted { result ≡ true
            → account.new ≡ after_posts (bodies_view bodies.now.items) account.old }
        ensures unchanged { result ≡ false → account.new ≡ account.old }
    {
        if self.keeping.keep_together(bodies, spans).is_err() {
            return false;
        }
        self.book.record::<Vec<Vec<u8>>, Posting>(account, bodies);
        true
    }

    /// Reads bodies that wait in the spool into the desk, where that has none.
    ///
    /// # Errors
    ///
    /// As [`Keeping::refill`].
    pub(crate) fn refill(&mut self, account: &mut Account<J>) -> Result<bool, SpoolError>
        requires { account.old ≡ sends (sent_in account.old) }
        ensures read { Reads account.old account.new }
    {
        let is_read = self.keeping.refill()?;
        if is_read {
            let seen = Snapshot::of(&self.keeping);
            self.book
                .record::<Snapshot<Keeping<D>>, Reading>(account, &seen);
        }
        Ok(is_read)
    }

    /// A sender takes the next batch.
    ///
    /// # Errors
    ///
    /// As [`Keeping::take`].
    pub(crate) fn take(
        &mut self,
        account: &mut Account<J>,
        sender: &mut BodySender,
    ) -> Result<bool, SpoolError>
        requires said { account.old ≡ sends (sent_in account.old) }
        requires free { has_batch sender.old.stage ≡ false }
        ensures taken { IfOk result (λ some. some ≡ true
            → TakesBatch sender.old account.old sender.new account.new) }
        ensures none { IfOk result (λ some. some ≡ false → MayNotTake self.old.desk) }
        ensures unchanged { IfOk result (λ some. some ≡ false
            → (sender.new ≡ sender.old) × (account.new ≡ account.old)) }
        ensures refused { OnErr result
            ((sender.new ≡ sender.old) × (account.new ≡ account.old)) }
    {
        if !self.keeping.take(sender)? {
            return Ok(false);
        }
        let seen = Snapshot::of(&self.keeping);
        self.book
            .record::<Snapshot<Keeping<D>>, Taking>(account, &seen);
        Ok(true)
    }

    /// What follows from an outcome is noted of the batch that is out, unless all was given up.
    pub(crate) fn settle(
        &mut self,
        account: &mut Account<J>,
        sender: &mut BodySender,
        now: u64,
        word: u64,
    ) -> (Next, EndedBodies)
        requires said { account.old ≡ sends (sent_in account.old) }
        requires pending { is_pending sender.old.stage ≡ true }
        requires out { (sent_in account.old).turn ≡ is_out }
        ensures judged { IsJudged now word sender.old (next_view result.0) sender.new }
        ensures noted { IsNoted (next_view result.0) (bodies_view result.1.bodies.items)
            account.old account.new }
    {
        let (next, ended) = self.keeping.settle(sender, now, word);
        if self.is_closed {
            self.book.record::<(), Freeing>(account, &());
        } else {
            self.book.record::<Next, Noting>(account, &next);
        }
        (next, ended)
    }

    /// Counts the spans of bodies that ended, and notes in the spool that they ended.
    pub(crate) fn note(&mut self, spans: &mut EndedSpans) {
        self.keeping.note(spans);
    }

    /// Hands out all bodies of the desk, as given up, so that none is kept any more. With a spool
    /// they stay in it, and nothing is changed.
    pub(crate) fn give_up(&mut self, account: &mut Account<J>) -> EndedBodies
        requires { account.old ≡ closes (closed_in account.old) }
        ensures { GaveUp (bodies_view result.bodies.items) account.old account.new }
    {
        let ended = self.keeping.give_up();
        if !self.keeping.is_spooled() {
            self.is_closed = true;
            let seen = Snapshot::of(&ended.bodies);
            self.book
                .record::<Snapshot<Vec<Vec<u8>>>, GivingUp>(account, &seen);
        }
        ended
    }

    /// Notes how many names of lost spans are not written, as a report says.
    pub fn set_unwritten(&mut self, names: u64) {
        self.keeping.set_unwritten(names);
    }

    /// Notes how many requests in a row the collector refused whatever they had, as a report says.
    pub fn set_refusals(&mut self, refusals: u64) {
        self.keeping.set_refusals(refusals);
    }

    /// Takes the spool out, to open it again where it has failed.
    pub(crate) fn take_spool(&mut self) -> Option<Spool<D>> {
        self.keeping.take_spool()
    }

    /// Gives a spool back that was opened again, of the same files.
    pub(crate) fn restore(
        &mut self,
        account: &mut Account<J>,
        sender: &mut BodySender,
        spool: Spool<D>,
    )
    where
        D: Drop,
        requires known { D.is_known → IsSettled D.files D.moment D.left_at spool }
        requires said { account.old ≡ sends (sent_in account.old) }
        ensures restored { Restores sender.old account.old sender.new account.new }
    {
        if !self.keeping.is_spooled() {
            return;
        }
        let seen = Snapshot::of(&self.keeping);
        self.keeping.restore(spool);
        self.is_reopened = true;
        sender.forget();
        self.book
            .record::<Snapshot<Keeping<D>>, Returning>(account, &seen);
    }

    /// What three accounts say is so of what is kept. Nothing is changed.
    pub(crate) fn balance(
        &mut self,
        poster: &mut Account<J>,
        sender: &mut Account<J>,
        closer: &mut Account<J>,
    ) -> Holdings
        requires poster { poster.old ≡ posts (posted_in poster.old) }
        requires sender { sender.old ≡ sends (sent_in sender.old) }
        requires closer { closer.old ≡ closes (closed_in closer.old) }
        ensures spooled { result.is_spooled ≡ self.old.is_spooled }
        ensures failed { result.has_ever_failed ≡ false → self.old.has_failed ≡ false }
        ensures kept { result.kept ≡ kept_count self.old }
        ensures balance { Balances D.is_known result (posted_in poster.old) (sent_in sender.old)
            (closed_in closer.old) }
        ensures poster { poster.new ≡ poster.old }
        ensures sender { sender.new ≡ sender.old }
        ensures closer { closer.new ≡ closer.old }
    {
        self.book.recognize(poster);
        self.book.recognize(sender);
        self.book.recognize(closer);
        Holdings {
            is_spooled: self.keeping.is_spooled(),
            has_ever_failed: is_either(self.is_reopened, self.keeping.has_failed()),
            kept: self.keeping.kept_count(),
        }
    }

    /// Whether the spool failed, and wasn't opened again.
    pub(crate) fn has_failed(&self) -> bool
        ensures { result ≡ self.now.has_failed }
    {
        self.keeping.has_failed()
    }

    /// Whether bodies are kept in a spool.
    pub(crate) fn is_spooled(&self) -> bool {
        self.keeping.is_spooled()
    }

    /// How many bytes a batch has at most, unless it is a single body.
    pub(crate) fn batch_bytes(&self) -> usize {
        self.keeping.batch_bytes()
    }

    /// What became of what was kept.
    pub fn report(&self) -> Report
        ensures { ReportsInHold D result }
    {
        self.keeping.report()
    }

    /// The names of spans that were lost last, at most so many, the last one first.
    ///
    /// # Errors
    ///
    /// `AllocError` where memory was refused.
    pub(crate) fn lost(&self, alloc: Global, most: usize) -> Result<Vec<LostSpan>, AllocError>
        ensures { IfOk result (λ names. length names.items ≤ most) }
    {
        self.keeping.lost(alloc, most)
    }
}
