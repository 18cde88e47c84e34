//! What the sender's thread does. Each call takes the lock for what is done at the bodies alone.
ghost use Rattle.std.specs.Prelude.{◌≡◌, IfOk, IfSome, IsNone, List, OnErr, true, false};
ghost use Rattle.model_body.specs.Names.{LostSpan};
ghost use Rattle.retry_core.specs.Retries.{next_view};
ghost use Rattle.relay_queue.specs.Named.{Gains};
ghost use Rattle.relay_queue.specs.Bodies.{bodies_view};
ghost use Rattle.relay_queue.specs.Senders.{has_batch, is_pending, names_after, to_send};
ghost use Rattle.spool.specs.Settled.{IsSettled};
ghost use Rattle.relay_store.specs.Accounts.{sends};
ghost use Rattle.relay_store.specs.Handlers.{Attempted, Finishes, OnlyReads, Reads};
ghost use Rattle.relay_store.specs.Handlers.{ReadsAndTakes, Restores, Tries};

use crate::account::Account;
use crate::accounted::Accounted;
use crate::{EndedBodies, EndedSpans};
use account_book::Naming;
use relay_queue::{BodySender, LostSink, is_loss, name_ended};
use retry_core::{Fate, Next, Outcome};
use span_exporter::Exporter;
use spool::{Device, Spool, SpoolError};
use std::fmt;
use std::marker::Model;
use std::sync::{Mutex, Wait};

/// What a call of [`RelaySender::try_next`] comes to.
#[derive(Clone, Copy, Debug, PartialEq, Eq)]
pub enum Tried {
    /// There is nothing to send.
    Nothing,
    /// Memory was refused, to the batch or to the exporter. Nothing was sent, it counts as no
    /// attempt, and a later call sends it.
    OutOfMemory,
    /// The spool can't be read, or its first body is above the memory that bodies may take.
    Failed(SpoolError),
    /// The last batch is to be sent again, from this moment on, which has not come, in nanoseconds
    /// since 1970.
    Early(u64),
    /// The last outcome is to be judged first.
    Unjudged,
    /// The names of bodies that ended could not be written: [`name_again`](RelaySender::name_again)
    /// is to be called first.
    Unnamed,
    /// The batch was handed to the exporter, with this outcome, which
    /// [`finish`](RelaySender::finish) judges.
    Came(Outcome),
}

/// Bodies that ended, and of which it isn't noted in the spool that they did, since the names of
/// their spans could not be written.
#[derive(Drop)]
pub(crate) struct UnnamedBodies {
    ended: EndedBodies,
    fate: Fate,
}

/// What sends the bodies of one relay, with its account. In contracts it is a `Handler`: the
/// sender, and what the account says, which is what was read, taken and noted by its calls.
#[derive(Drop)]
pub struct RelaySender<J: Naming> {
    pub(crate) sender: BodySender,
    pub(crate) account: Account<J>,
    pub(crate) unnamed: Option<UnnamedBodies>,
}

impl<J: Naming> Model for RelaySender<J> {
    ghost use Rattle.relay_store.specs.Accounts.{sent_in};
    ghost use Rattle.relay_store.specs.Handlers.{Handler, IsHandler};

    ghost Value = { Handler };

    ghost view = { λ h. record { sender = h.sender; sent = sent_in h.account } };

    ghost invariant = { λ h. IsHandler h.sender h.account };
}

/// Writes the name of the type alone.
impl<J: Naming> fmt::Debug for RelaySender<J> {
    fn fmt<W: fmt::Write>(&self, f: &mut fmt::Formatter<W>) -> fmt::Result {
        f.debug_struct("RelaySender").finish_non_exhaustive()
    }
}

impl<J: Naming> RelaySender<J> {
    /// Reads bodies that wait in the spool into memory, where none is there, in one hold of the
    /// lock. Whether it did. A program calls it once before it serves, so that a report says how
    /// many wait.
    ///
    /// # Errors
    ///
    /// As [`Keeping::refill`](crate::Keeping::refill).
    pub fn refill<R: Wait, D: Device>(
        &mut self,
        rt: &R,
        kept: &Mutex<Accounted<J, D>>,
    ) -> Result<bool, SpoolError>
        ensures sender { self.new.sender ≡ self.old.sender }
        ensures read { Reads (sends self.old.sent) (sends self.new.sent) }
    {
        let mut hold = kept.lock(rt);
        hold.refill(&mut self.account)
    }

    /// Hands the next batch to the exporter, at the moment `now`, in nanoseconds since 1970: the
    /// one in hand, or the next one that is kept. Where there is a spool, bodies that wait are read
    /// first, if none is in memory. Each attempt of a batch has the same bytes. None is made before
    /// the last outcome was judged, nor before the moment that followed from it. The lock isn't
    /// held while the batch is sent. (OTLP Specification, "OTLP/HTTP Request", "OTLP/HTTP
    /// Throttling"; profile)
    pub fn try_next<R: Wait, D: Device, E: Exporter>(
        &mut self,
        rt: &R,
        kept: &Mutex<Accounted<J, D>>,
        exporter: &mut E,
        now: u64,
    ) -> Tried
        ensures { Tries now result self.old self.new
            (E.handed exporter.old) (E.handed exporter.new) }
    {
        if self.sender.is_pending() {
            return Tried::Unjudged;
        }
        if self.unnamed.is_some() {
            return Tried::Unnamed;
        }
        if let Some(from) = self.sender.early(now) {
            return Tried::Early(from);
        }
        if self.sender.has_batch() {
            return self.attempt(exporter);
        }
        match self.take(rt, kept) {
            Ok(true) => self.attempt(exporter),
            Ok(false) => Tried::Nothing,
            Err(SpoolError::Memory) => Tried::OutOfMemory,
            Err(error) => Tried::Failed(error),
        }
    }

    /// Hands the batch in hand to the exporter.
    fn attempt<E: Exporter>(&mut self, exporter: &mut E) -> Tried
        requires { self.old.sender.stage ≡ to_send }
        ensures { Attempted result self.old self.new
            (E.handed exporter.old) (E.handed exporter.new) }
    {
        match self.sender.attempt(exporter) {
            Ok(outcome) => Tried::Came(outcome),
            Err(_) => Tried::OutOfMemory,
        }
    }

    /// Takes the next batch, in one hold of the lock, once bodies were read from the spool, if
    /// there is one and the desk has none.
    fn take<R: Wait, D: Device>(
        &mut self,
        rt: &R,
        kept: &Mutex<Accounted<J, D>>,
    ) -> Result<bool, SpoolError>
        requires { has_batch self.old.sender.stage ≡ false }
        ensures taken { IfOk result (λ some. some ≡ true
            → ReadsAndTakes self.old self.new) }
        ensures none { IfOk result (λ some. some ≡ false
            → OnlyReads self.old self.new) }
        ensures refused { OnErr result (OnlyReads self.old self.new) }
    {
        let mut hold = kept.lock(rt);
        let _ = hold.refill(&mut self.account)?;
        hold.take(&mut self.account, &mut self.sender)
    }

    /// Judges the outcome of the last attempt, at the moment `now`, in nanoseconds since 1970, and
    /// notes what follows, which is the answer: the batch that was sent ended, or it is to be sent
    /// again from a moment on, or each of its bodies is to be sent alone. `None` where no outcome
    /// is to be judged; nothing is changed then. The spans of bodies that are lost by it are named,
    /// and once the sink has synced their names it is noted in the spool that the bodies ended: a
    /// crash between brings them back, so that they are named again, and none is lost without a
    /// name. Where the sink could not, with a spool nothing is noted, and nothing more is sent until
    /// [`name_again`](RelaySender::name_again) has named them. Nothing is named or freed while the
    /// lock is held. Where all bodies were given up meanwhile, nothing is noted or named.
    /// `word` is a random word, as `retry_core::decide` takes it. (OTLP Specification, "OTLP/HTTP
    /// Response", "OTLP/HTTP Throttling"; profile)
    pub fn finish<R: Wait, D: Device, S: LostSink>(
        &mut self,
        rt: &R,
        kept: &Mutex<Accounted<J, D>>,
        now: u64,
        word: u64,
        sink: &mut S,
    ) -> Option<Next>
        ensures none { IsNone result → is_pending self.old.sender.stage ≡ false }
        ensures unchanged { IsNone result → (self.new ≡ self.old) × (sink.new ≡ sink.old) }
        ensures finished { IfSome result (λ next. Finishes now word self.old (next_view next)
            self.new (S.named sink.old) (S.named sink.new)) }
    {
        if !self.sender.is_pending() {
            return None;
        }
        let mut hold = kept.lock(rt);
        let (next, ended) = hold.settle(&mut self.account, &mut self.sender, now, word);
        let (most, is_spooled) = (hold.batch_bytes(), hold.is_spooled());
        drop(hold);
        self.sender.trim(most);
        name_by(&ended.bodies, next, sink);
        let unnamed = end_named(rt, kept, ended, next, is_spooled, sink);
        self.unnamed = unnamed;
        Some(next)
    }

    /// Names the spans of bodies once more whose names could not be written, if there are such
    /// bodies, and notes in the spool that they ended once the sink has synced their names. Answers
    /// whether none is left. A name that was written before is written again.
    pub fn name_again<R: Wait, D: Device, S: LostSink>(
        &mut self,
        rt: &R,
        kept: &Mutex<Accounted<J, D>>,
        sink: &mut S,
    ) -> bool
        ensures same { self.new ≡ self.old }
        ensures names { (names : List LostSpan)
            × Gains names (S.named sink.old) (S.named sink.new) }
    {
        let Some(UnnamedBodies { ended, fate }) = self.unnamed.take() else {
            return true;
        };
        name_ended(&ended.bodies, fate, sink);
        if is_named(&ended, fate, sink) {
            note(rt, kept, &ended, fate);
            return true;
        }
        self.unnamed = Some(UnnamedBodies { ended, fate });
        false
    }

    /// Whether the spool failed, and wasn't opened again.
    pub fn has_failed<R: Wait, D: Device>(&self, rt: &R, kept: &Mutex<Accounted<J, D>>) -> bool {
        kept.lock(rt).has_failed()
    }

    /// Takes the spool out, to open it again where it has failed. Until it is given back nothing is
    /// kept, and what is in memory is handed on.
    pub fn take_spool<R: Wait, D: Device>(
        &self,
        rt: &R,
        kept: &Mutex<Accounted<J, D>>,
    ) -> Option<Spool<D>> {
        kept.lock(rt).take_spool()
    }

    /// Gives a spool back that was opened again, of the same files, where there was one. What was
    /// in memory is read from it again, a batch in hand too, so that may be handed on twice. What
    /// ended and could not be noted is noted; if that fails, the spool has failed again.
    pub fn restore<R: Wait, D: Device>(
        &mut self,
        rt: &R,
        kept: &Mutex<Accounted<J, D>>,
        spool: Spool<D>,
    )
    where
        D: Drop,
        requires { D.is_known → IsSettled D.files D.moment D.left_at spool }
        ensures { Restores self.old.sender (sends self.old.sent)
            self.new.sender (sends self.new.sent) }
    {
        let mut hold = kept.lock(rt);
        hold.restore(&mut self.account, &mut self.sender, spool);
    }
}

/// Gives the names of the spans of bodies that ended as this follows, where they are lost by it.
fn name_by<S: LostSink>(bodies: &[Vec<u8>], next: Next, sink: &mut S)
    ensures { Gains (names_after (next_view next) (bodies_view bodies.now))
        (S.named sink.old) (S.named sink.new) }
{
    let Some(fate) = next.fate() else {
        return;
    };
    name_ended(bodies, fate, sink);
}

/// Whether the names of the spans of bodies that ended, where they are lost by it, are where they are
/// to be.
pub(crate) fn is_named<S: LostSink>(ended: &EndedBodies, fate: Fate, sink: &mut S) -> bool
    ensures { S.named sink.new ≡ S.named sink.old }
{
    if ended.bodies.is_empty() || !is_loss(fate) {
        return true;
    }
    sink.sync()
}

/// Notes that bodies ended as this follows, if they did, once the names that the sink was given are
/// where they are to be. Where they aren't, with a spool nothing is noted, and the bodies come back.
fn end_named<R: Wait, J: Naming, D: Device, S: LostSink>(
    rt: &R,
    kept: &Mutex<Accounted<J, D>>,
    ended: EndedBodies,
    next: Next,
    is_spooled: bool,
    sink: &mut S,
) -> Option<UnnamedBodies>
    ensures { S.named sink.new ≡ S.named sink.old }
{
    let Some(fate) = next.fate() else {
        return None;
    };
    if !is_named(&ended, fate, sink) && is_spooled {
        return Some(UnnamedBodies { ended, fate });
    }
    note(rt, kept, &ended, fate);
    None
}

/// Counts the spans of bodies that ended, whose names were given where they are lost, and notes
/// that the bodies ended.
pub(crate) fn note<R: Wait, J: Naming, D: Device>(
    rt: &R,
    kept: &Mutex<Accounted<J, D>>,
    ended: &EndedBodies,
    fate: Fate,
) {
    if ended.bodies.is_empty() {
        return;
    }
    let mut spans = EndedSpans::of(ended, fate);
    let mut hold = kept.lock(rt);
    hold.note(&mut spans);
    drop(hold);
}
