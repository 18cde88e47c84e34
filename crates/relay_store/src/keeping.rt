//! What is kept: bodies at a desk, and a spool if there is one.
ghost use Rattle.std.specs.Prelude.{◌≡◌, ◌≢◌, ◌⊎◌, ◌+◌, ◌++◌, ◌∷◌, ◌^◌, ◌<◌, ◌≤◌, [], IfOk, IfSome, IsErrOf};
ghost use Rattle.std.specs.Prelude.{OnErr, OnOk, None, Some, false, length, true};
ghost use Rattle.std.specs.Prelude.{◌-◌, is_some, min};
ghost use Rattle.std.specs.List.{AllByRecursion};
ghost use Rattle.model_body.specs.Desks.{HasRoom, body_size, new_desk};
ghost use Rattle.retry_core.specs.Retries.{next_view};
ghost use Rattle.model_body.specs.Histories.{idle};
ghost use Rattle.relay_queue.specs.Bodies.{MayNotTake, bodies_view, config_view};
ghost use Rattle.relay_queue.specs.Senders.{has_batch, is_pending};
ghost use Rattle.relay_queue.specs.Steps.{IsJudged, Notes, Takes};
ghost use Rattle.spool.specs.Spools.{numbered_from};
ghost use Rattle.spool.specs.Settled.{IsSettled};
ghost use Rattle.relay_store.specs.Fronts.{BeginWith, SpoolLeaves, spool_waiting};
ghost use Rattle.relay_store.specs.Kept.{Admits, AreFull, IsFull, Puts, PutsAll, with_attempt};
ghost use Rattle.relay_store.specs.Kept.{with_desk};
ghost use Rattle.relay_store.specs.Kept.{AreBodies, IsReport, kept_count, with_ended};
ghost use Rattle.relay_store.specs.Kept.{LeftByNotes, LeftByPuts, remaining_in, with_received};

use crate::counts::Counts;
use crate::names::{EndedSpans, copy_newest, keep_newest};
use crate::waiting::{admit_first, find_waiting, next_of, note_into, put_into};
use relay_queue::{
    AdmitFault, Amounts, BodyConfig, BodyDesk, BodySender, KeepFault, LostSpan, Report, Settled,
};
use retry_core::Next;
use spool::{Device, Spool, SpoolError};
use std::alloc::{AllocError, Global};
use std::collections::VecDeque;
use std::marker::Model;
use std::slice;

/// What a body takes beside its bytes at a desk, in bytes.
const OVERHEAD: usize = 96;

/// The bodies that a relay keeps to hand them on, at a desk in memory or in a spool, and counts of
/// what became of them (profile). In contracts it is a `Kept`.
///
/// With a spool the desk has bodies of one of its files, the first ones that wait. Bodies that
/// ended are noted in the spool as delivered, the lost ones too, once their spans are named: until
/// then a crash brings them back.
pub struct Keeping<D: Device> {
    alloc: Global,
    desk: BodyDesk,
    // Whether bodies are kept in a spool.
    is_spooled: bool,
    spool: Option<Spool<D>>,
    // Whether the spool failed, so that it has to be opened again.
    has_failed: bool,
    // All bodies of the spool with a lower number ended.
    first: u64,
    // The number that the next body of the spool gets.
    next: u64,
    // Bodies with a lower number were received by an earlier run.
    start: u64,
    counts: Counts,
    // The newest names of lost spans, the last one last.
    lost: VecDeque<LostSpan>,
}

/// By hand: a derived one would be proved again in each crate that drops it.
impl<D: Device + Drop> Drop for Keeping<D> {
    fn drop(self) {
        let Self {
            alloc: _,
            desk: _,
            is_spooled: _,
            spool: _,
            has_failed: _,
            first: _,
            next: _,
            start: _,
            counts: _,
            lost: _,
        } = self;
    }
}

impl<D: Device> Model for Keeping<D> {
    ghost use Rattle.relay_store.specs.Kept.{Kept};

    ghost Value = { Kept D };

    ghost use Rattle.relay_store.specs.Inside.{IsSound, kept_view};

    ghost view = { kept_view };

    ghost invariant = { IsSound D.is_known D.files D.moment D.left_at };
}

/// Bodies that ended or were given up, which are no longer at the desk. Their spans are named and
/// counted ([`EndedSpans`]) before they are freed.
#[derive(Drop)]
pub struct EndedBodies {
    pub(crate) alloc: Global,
    /// The bytes of each, the first one first.
    pub bodies: Vec<Vec<u8>>,
    // How many of them, the first ones, were received by an earlier run.
    pub(crate) earlier: u64,
}

/// Whether a body of so many bytes is within the memory that all bodies may take.
fn is_within(len: usize, config: BodyConfig) -> bool
    requires { len < 2 ^ 63 }
    ensures within { result ≡ true → len + 96 ≤ config.memory_bytes }
    ensures above { result ≡ false → config.memory_bytes < len + 96 }
{
    len + OVERHEAD <= config.memory_bytes
}

/// Whether each of these bodies is within the memory that all bodies may take.
fn are_within(bodies: &[Vec<u8>], config: BodyConfig) -> bool
    ensures { result ≡ true
        → AllByRecursion (λ body. body_size body.items ≤ config.memory_bytes) bodies.now }
{
    for body in bodies {
        if !is_within(body.len(), config) {
            return false;
        }
    }
    true
}

/// The number of the first body that has not ended, after so many more ended.
fn first_after(is_spooled: bool, first: u64, count: u64) -> u64
    requires { is_spooled ≡ true → first + count < 2 ^ 64 }
    ensures spooled { is_spooled ≡ true → result ≡ first + count }
    ensures in_memory { is_spooled ≡ false → result ≡ first }
{
    if is_spooled {
        return first + count;
    }
    first
}

impl<D: Device> Keeping<D> {
    /// Nothing is kept yet, but for the bodies that wait in the spool, if there is one: one that
    /// was opened. Call [`refill`](Keeping::refill) before a report is shown, since from then on it
    /// is known how many wait. It takes no memory.
    pub fn new(alloc: Global, config: BodyConfig, spool: Option<Spool<D>>) -> Keeping<D>
        requires { D.is_known → IfSome spool (IsSettled D.files D.moment D.left_at) }
        ensures desk { result.desk ≡ new_desk (config_view config) }
        ensures spool { result.spool ≡ spool }
        ensures spooled { result.is_spooled ≡ is_some spool }
        ensures failed { result.has_failed ≡ false }
        ensures first { result.first ≡ 0 }
    {
        let next = next_of(&spool);
        Keeping {
            alloc,
            desk: BodyDesk::new(alloc, config),
            is_spooled: spool.is_some(),
            spool,
            has_failed: false,
            first: 0,
            next,
            start: next,
            counts: Counts::default(),
            lost: VecDeque::new(alloc),
        }
    }

    /// Keeps a body, which has this many spans: at the desk; or in the spool alone, where it is on
    /// the disk once this has answered. `body` has no spare capacity.
    ///
    /// # Errors
    ///
    /// `Full` where it has no room, `OutOfMemory` where memory was refused: nothing is changed
    /// then. `Failed` where the spool failed, and until it was opened again: it may have the body
    /// or not.
    pub fn keep(&mut self, body: Vec<u8>, spans: usize) -> Result<(), KeepFault>
        ensures admitted { OnOk result (self.old.is_spooled ≡ false
            → Admits body.items spans self.old self.new) }
        ensures put { OnOk result (self.old.is_spooled ≡ true → D.is_known
            → Puts D.files D.moment D.left_at body.items self.old.spool self.new.spool) }
        ensures remaining { OnOk result (self.old.is_spooled ≡ true → D.is_known
            → remaining_in D.files self.new ≡ remaining_in D.files self.old ++ body.items ∷ []) }
        ensures put_only { OnOk result (self.old.is_spooled ≡ true
            → self.new ≡ record self.old {
              spool = self.new.spool;
              next = self.new.next;
              counts = with_received spans self.old.counts;
            }) }
        ensures within { OnOk result (self.old.is_spooled ≡ true
            → body_size body.items ≤ self.old.desk.config.memory_bytes) }
        ensures no_room { IsErrOf result KeepFault.Full → self.old.is_spooled ≡ false
            → ¬ HasRoom self.old.desk body.items }
        ensures full { IsErrOf result KeepFault.Full → self.old.is_spooled ≡ true → D.is_known
            → (self.old.desk.config.memory_bytes < body_size body.items)
            ⊎ IsFull D.files body.items self.old.spool }
        ensures full_same { IsErrOf result KeepFault.Full → self.new ≡ self.old }
        ensures memory_same { IsErrOf result KeepFault.OutOfMemory → self.new ≡ self.old }
        ensures failed { IsErrOf result KeepFault.Failed → self.new
            ≡ record self.old { spool = self.new.spool; has_failed = self.new.has_failed } }
        ensures is_failed { IsErrOf result KeepFault.Failed
            → (self.old.is_spooled ≡ true) × (self.new.has_failed ≡ true) }
        ensures crash { D.is_known → self.old.is_spooled ≡ true → self.old.has_failed ≡ false
            → (self.new ≡ self.old) ⊎ SpoolLeaves D.moment D.left_at self.old.spool self.new.spool
            (LeftByPuts D.files (body.items ∷ [])) }
        ensures at_desk { OnErr result ((self.new.desk ≡ self.old.desk)
            × (self.new.is_spooled ≡ self.old.is_spooled)) }
    {
        if self.is_spooled {
            return self.put(&body, spans as u64);
        }
        self.admit(body, spans as u64)
    }

    /// Keeps a body at the desk.
    fn admit(&mut self, body: Vec<u8>, spans: u64) -> Result<(), KeepFault>
        requires { self.old.is_spooled ≡ false }
        ensures admitted { OnOk result (Admits body.items spans self.old self.new) }
        ensures no_room { IsErrOf result KeepFault.Full → ¬ HasRoom self.old.desk body.items }
        ensures unchanged { OnErr result (self.new ≡ self.old) }
        ensures failed { IsErrOf result KeepFault.Failed → ⊥ }
    {
        match self.desk.admit(body) {
            Ok(()) => {
                self.counts.receive(spans);
                Ok(())
            }
            Err((AdmitFault::Full, _body)) => Err(KeepFault::Full),
            Err((AdmitFault::OutOfMemory, _body)) => Err(KeepFault::OutOfMemory),
        }
    }

    /// Puts a body into the spool.
    fn put(&mut self, body: &Vec<u8>, spans: u64) -> Result<(), KeepFault>
        requires { self.old.is_spooled ≡ true }
        ensures put { OnOk result (D.is_known
            → Puts D.files D.moment D.left_at body.now.items self.old.spool self.new.spool) }
        ensures remaining { OnOk result (D.is_known
            → remaining_in D.files self.new
            ≡ remaining_in D.files self.old ++ body.now.items ∷ []) }
        ensures put_only { OnOk result (self.new ≡ record self.old {
          spool = self.new.spool;
          next = self.new.next;
          counts = with_received spans self.old.counts;
        }) }
        ensures within { OnOk result
            (body_size body.now.items ≤ self.old.desk.config.memory_bytes) }
        ensures full { IsErrOf result KeepFault.Full → D.is_known
            → (self.old.desk.config.memory_bytes < body_size body.now.items)
            ⊎ IsFull D.files body.now.items self.old.spool }
        ensures full_same { IsErrOf result KeepFault.Full → self.new ≡ self.old }
        ensures memory { IsErrOf result KeepFault.OutOfMemory → ⊥ }
        ensures failed { IsErrOf result KeepFault.Failed → self.new
            ≡ record self.old { spool = self.new.spool; has_failed = self.new.has_failed } }
        ensures is_failed { IsErrOf result KeepFault.Failed → self.new.has_failed ≡ true }
        ensures crash { D.is_known → self.old.is_spooled ≡ true → self.old.has_failed ≡ false
            → (self.new ≡ self.old) ⊎ SpoolLeaves D.moment D.left_at self.old.spool self.new.spool
            (LeftByPuts D.files (body.now.items ∷ [])) }
        ensures at_desk { OnErr result ((self.new.desk ≡ self.old.desk)
            × (self.new.is_spooled ≡ self.old.is_spooled)) }
    {
        if !is_within(body.len(), self.desk.config()) {
            return Err(KeepFault::Full);
        }
        self.put_bodies(slice::from_ref(body), spans)
    }

    /// Keeps bodies together in the spool, where there is one: all of them, or none. They have this
    /// many spans, all in all, and are on the disk once this has answered, after one sync.
    ///
    /// # Errors
    ///
    /// `Full` where they have no room together, or there is no spool: nothing is changed then.
    /// `Failed` where the spool failed, and until it was opened again: it may have some of them.
    pub fn keep_together(&mut self, bodies: &[Vec<u8>], spans: u64) -> Result<(), KeepFault>
        ensures spooled { OnOk result (self.old.is_spooled ≡ true) }
        ensures put { OnOk result (D.is_known → PutsAll D.files D.moment D.left_at
            (bodies_view bodies.now) self.old.spool self.new.spool) }
        ensures remaining { OnOk result (D.is_known
            → remaining_in D.files self.new
            ≡ remaining_in D.files self.old ++ bodies_view bodies.now) }
        ensures put_only { OnOk result (self.new ≡ record self.old {
          spool = self.new.spool;
          next = self.new.next;
          counts = with_received spans self.old.counts;
        }) }
        ensures within { OnOk result (AllByRecursion
            (λ body. body_size body.items ≤ self.old.desk.config.memory_bytes) bodies.now) }
        ensures full_same { IsErrOf result KeepFault.Full → self.new ≡ self.old }
        ensures memory { IsErrOf result KeepFault.OutOfMemory → ⊥ }
        ensures failed { IsErrOf result KeepFault.Failed → self.new
            ≡ record self.old { spool = self.new.spool; has_failed = self.new.has_failed } }
        ensures is_failed { IsErrOf result KeepFault.Failed → self.new.has_failed ≡ true }
        ensures crash { D.is_known → self.old.is_spooled ≡ true → self.old.has_failed ≡ false
            → (self.new ≡ self.old) ⊎ SpoolLeaves D.moment D.left_at self.old.spool self.new.spool
            (LeftByPuts D.files (bodies_view bodies.now)) }
        ensures at_desk { OnErr result ((self.new.desk ≡ self.old.desk)
            × (self.new.is_spooled ≡ self.old.is_spooled)) }
    {
        if !self.is_spooled || !are_within(bodies, self.desk.config()) {
            return Err(KeepFault::Full);
        }
        self.put_bodies(bodies, spans)
    }

    /// Puts bodies into the spool.
    fn put_bodies(&mut self, bodies: &[Vec<u8>], spans: u64) -> Result<(), KeepFault>
        requires { self.old.is_spooled ≡ true }
        ensures put { OnOk result (D.is_known → PutsAll D.files D.moment D.left_at
            (bodies_view bodies.now) self.old.spool self.new.spool) }
        ensures remaining { OnOk result (D.is_known
            → remaining_in D.files self.new
            ≡ remaining_in D.files self.old ++ bodies_view bodies.now) }
        ensures put_only { OnOk result (self.new ≡ record self.old {
          spool = self.new.spool;
          next = self.new.next;
          counts = with_received spans self.old.counts;
        }) }
        ensures full { IsErrOf result KeepFault.Full → D.is_known
            → AreFull D.files (bodies_view bodies.now) self.old.spool }
        ensures full_same { IsErrOf result KeepFault.Full → self.new ≡ self.old }
        ensures memory { IsErrOf result KeepFault.OutOfMemory → ⊥ }
        ensures failed { IsErrOf result KeepFault.Failed → self.new
            ≡ record self.old { spool = self.new.spool; has_failed = self.new.has_failed } }
        ensures is_failed { IsErrOf result KeepFault.Failed → self.new.has_failed ≡ true }
        ensures crash { D.is_known → self.old.is_spooled ≡ true → self.old.has_failed ≡ false
            → (self.new ≡ self.old) ⊎ SpoolLeaves D.moment D.left_at self.old.spool self.new.spool
            (LeftByPuts D.files (bodies_view bodies.now)) }
        ensures at_desk { OnErr result ((self.new.desk ≡ self.old.desk)
            × (self.new.is_spooled ≡ self.old.is_spooled)) }
    {
        if self.has_failed {
            return Err(KeepFault::Failed);
        }
        match put_into(self.alloc, &mut self.spool, bodies) {
            Ok(next) => {
                self.next = next;
                self.counts.receive(spans);
                Ok(())
            }
            Err(KeepFault::Full) => Err(KeepFault::Full),
            Err(_) => {
                self.has_failed = true;
                Err(KeepFault::Failed)
            }
        }
    }

    /// Reads bodies that wait in the spool, and haven't ended, into the desk, where that has none:
    /// those of the oldest file that has any, as many as there is memory for. Whether it did.
    /// Without a spool, or where it failed and wasn't opened again, there is nothing to read.
    ///
    /// # Errors
    ///
    /// `Memory` where memory was refused; `Full` where the first body is above the desk's memory;
    /// `Failed` where a file can't be read: the spool has failed then. The desk has no body.
    pub fn refill(&mut self) -> Result<bool, SpoolError>
        ensures same { D.is_known
            → self.old.has_failed ≡ false → spool_waiting D.files self.new.spool
            ≡ spool_waiting D.files self.old.spool }
        ensures refilled { IfOk result (λ some. some ≡ true
            → D.is_known → BeginWith self.new.first self.new.desk.kept
            (numbered_from self.old.first (spool_waiting D.files self.old.spool))) }
        ensures some { IfOk result (λ some. some ≡ true
            → (self.old.desk.kept ≡ []) × (self.new.desk.kept ≢ [])) }
        ensures spooled { IfOk result (λ some. some ≡ true → self.old.is_spooled ≡ true) }
        ensures none_read { OnErr result (self.new.desk.kept ≡ self.old.desk.kept) }
        ensures none { IfOk result (λ some. some ≡ false → D.is_known
            → self.old.is_spooled ≡ true → self.old.has_failed ≡ false
            → self.old.desk.kept ≡ [] → remaining_in D.files self.old ≡ []) }
        ensures remaining { D.is_known → self.old.is_spooled ≡ true → self.new.has_failed ≡ false
            → remaining_in D.files self.new ≡ remaining_in D.files self.old }
        ensures stays { self.old.has_failed ≡ true → self.new.has_failed ≡ true }
        ensures first { self.new.has_failed ≡ true → self.new.first ≡ self.old.first }
        ensures kept { IfOk result (λ some. some ≡ false → self.new.desk ≡ self.old.desk) }
        ensures only { self.new ≡ record self.old {
          desk = record self.old.desk {
            kept = self.new.desk.kept;
            admitted = self.new.desk.admitted;
          };
          spool = self.new.spool;
          has_failed = self.new.has_failed;
          first = self.new.first;
        } }
    {
        if !self.is_spooled || self.has_failed || self.desk.counts().kept > 0 {
            return Ok(false);
        }
        match find_waiting(self.alloc, &mut self.spool, self.first) {
            Ok(Some(found)) => {
                self.first = found.first;
                admit_first(&mut self.desk, found.bodies)?;
                Ok(true)
            }
            Ok(None) => {
                self.first = self.next;
                Ok(false)
            }
            Err(error) => {
                self.has_failed = error == SpoolError::Failed;
                Err(error)
            }
        }
    }

    /// A sender that has no batch in hand takes the next one of the desk: whether there is one.
    ///
    /// # Errors
    ///
    /// `Memory` where memory for the batch was refused. Nothing is changed then.
    pub fn take(&mut self, sender: &mut BodySender) -> Result<bool, SpoolError>
        requires { has_batch sender.old.stage ≡ false }
        ensures taken { IfOk result (λ some. some ≡ true
            → Takes sender.old self.old.desk sender.new self.new.desk) }
        ensures counted { IfOk result (λ some. some ≡ true → self.new ≡ record self.old {
          desk = self.new.desk;
          counts = with_attempt self.old.counts;
        }) }
        ensures none { IfOk result (λ some. some ≡ false → MayNotTake self.old.desk) }
        ensures unchanged { IfOk result (λ some. some ≡ false → (self.new ≡ self.old)
            × (sender.new ≡ sender.old)) }
        ensures refused { OnErr result ((self.new ≡ self.old) × (sender.new ≡ sender.old)) }
    {
        match sender.take(&mut self.desk) {
            Ok(false) => Ok(false),
            Ok(true) => {
                self.counts.attempt();
                Ok(true)
            }
            Err(_) => Err(SpoolError::Memory),
        }
    }

    /// Judges the outcome of a sender's attempt, at the moment `now`, in nanoseconds since 1970,
    /// notes at the desk what follows, and hands out the bodies that end by it, which wait in the
    /// spool until [`note`](Keeping::note). Where no batch is out, as after the desk was drained,
    /// nothing is noted, and no body ends. `word` is a random word, as `retry_core::decide` takes
    /// it. An outcome is to be judged, as `BodySender::is_pending` says. It takes no memory. (OTLP
    /// Specification, "OTLP/HTTP Response", "OTLP/HTTP Throttling"; profile)
    pub fn settle(&mut self, sender: &mut BodySender, now: u64, word: u64) -> (Next, EndedBodies)
        requires { is_pending sender.old.stage ≡ true }
        ensures judged { IsJudged now word sender.old (next_view result.0) sender.new }
        ensures noted { Notes (next_view result.0) (bodies_view result.1.bodies.items)
            self.old.desk self.new.desk }
        ensures first { self.old.is_spooled ≡ true
            → self.new.first ≡ self.old.first + length result.1.bodies.items }
        ensures earlier { result.1.earlier
            ≡ min (self.old.start - self.old.first) (length result.1.bodies.items) }
        ensures first_in_memory { self.old.is_spooled ≡ false
            → self.new.first ≡ self.old.first }
        ensures remaining { D.is_known → self.old.is_spooled ≡ true → self.old.has_failed ≡ false
            → remaining_in D.files self.old
            ≡ bodies_view result.1.bodies.items ++ remaining_in D.files self.new }
        ensures only { self.new
            ≡ record self.old { desk = self.new.desk; first = self.new.first } }
    {
        let Settled { next, ended } = sender.settle(&mut self.desk, now, word);
        let count = ended.len() as u64;
        let earlier = self.start.saturating_sub(self.first).min(count);
        let first = first_after(self.is_spooled, self.first, count);
        self.first = first;
        let ended = EndedBodies {
            alloc: self.alloc,
            bodies: ended,
            earlier,
        };
        (next, ended)
    }

    /// Hands out all bodies of the desk, as given up, those of a batch that is out with them: it
    /// has none then. With a spool they stay in it, none is handed out, and nothing is changed. It
    /// takes no memory. (profile)
    pub fn give_up(&mut self) -> EndedBodies
        ensures spooled { self.old.is_spooled ≡ true
            → (result.bodies.items ≡ []) × (self.new ≡ self.old) }
        ensures bodies { self.old.is_spooled ≡ false
            → bodies_view result.bodies.items ≡ self.old.desk.kept }
        ensures none { self.old.is_spooled ≡ false
            → (self.new.desk.kept ≡ []) × (self.new.desk.turn ≡ idle) }
        ensures only { self.new ≡ record self.old { desk = self.new.desk } }
    {
        let bodies = if self.is_spooled {
            Vec::new(self.alloc)
        } else {
            self.desk.drain()
        };
        EndedBodies {
            alloc: self.alloc,
            bodies,
            earlier: 0,
        }
    }

    /// Counts the spans of bodies that ended, keeps the newest names of the lost ones, and notes in
    /// the spool that the bodies ended. Names that are no longer kept are left in `spans`, to be
    /// freed; one for which memory is refused isn't kept. Where the spool fails meanwhile, or had
    /// failed before, [`restore`](Keeping::restore) notes that they ended.
    pub fn note(&mut self, spans: &mut EndedSpans)
        ensures noted { self.old.is_spooled ≡ true → self.new.has_failed ≡ false → D.is_known
            → spool_waiting D.files self.new.spool
            ≡ numbered_from self.old.first (spool_waiting D.files self.old.spool) }
        ensures settled { self.old.is_spooled ≡ true → self.new.has_failed ≡ false → D.is_known
            → IfSome self.new.spool (IsSettled D.files D.moment D.left_at) }
        ensures remaining { D.is_known → self.old.is_spooled ≡ true → self.new.has_failed ≡ false
            → remaining_in D.files self.new ≡ remaining_in D.files self.old }
        ensures crash { D.is_known → self.old.is_spooled ≡ true → self.old.has_failed ≡ false
            → SpoolLeaves D.moment D.left_at self.old.spool self.new.spool
            (LeftByNotes D.files self.old.first) }
        ensures stays { self.old.has_failed ≡ true → self.new.has_failed ≡ true }
        ensures only { self.new ≡ record self.old {
          spool = self.new.spool;
          has_failed = self.new.has_failed;
          counts = with_ended spans.old.is_loss spans.old.count spans.old.rejected
              (with_received spans.old.earlier self.old.counts);
        } }
    {
        keep_newest(&mut self.lost, &mut spans.newest);
        self.counts.receive(spans.earlier);
        self.counts.end(spans.is_loss, spans.count, spans.rejected);
        if self.is_spooled && !self.has_failed {
            self.has_failed = note_into(self.alloc, &mut self.spool, self.first);
        }
    }

    /// Notes how many names of lost spans are not written, since that failed.
    pub fn set_unwritten(&mut self, names: u64)
        ensures { self.new ≡ record self.old {
          counts = record self.old.counts { unwritten_names = names };
        } }
    {
        self.counts.unwritten_names = names;
    }

    /// Notes how many requests in a row the collector refused whatever they had.
    pub fn set_refusals(&mut self, refusals: u64)
        ensures { self.new ≡ record self.old {
          counts = record self.old.counts { refusals = refusals };
        } }
    {
        self.counts.refusals = refusals;
    }

    /// Takes the spool out, to open it again where it has failed. Until it is given back nothing is
    /// kept, and what the desk has is handed on.
    pub fn take_spool(&mut self) -> Option<Spool<D>>
        ensures spool { result ≡ self.old.spool }
        ensures only { self.new
            ≡ record self.old { spool = None; has_failed = self.old.is_spooled } }
    {
        self.has_failed = self.is_spooled;
        self.spool.take()
    }

    /// Gives a spool back that was opened again, of the same files. What the desk has is read from
    /// it again, so a batch that is out meanwhile may be handed on twice. What ended and could not
    /// be noted is noted; if that fails, the spool has failed again.
    pub fn restore(&mut self, spool: Spool<D>)
    where
        D: Drop,
        requires { D.is_known → IsSettled D.files D.moment D.left_at spool }
        ensures noted { self.new.has_failed ≡ false → D.is_known
            → spool_waiting D.files self.new.spool
            ≡ numbered_from self.old.first (spool_waiting D.files (Some spool)) }
        ensures desk { self.new.desk ≡ new_desk self.old.desk.config }
        ensures first { self.new.first ≡ min self.old.first self.new.next }
        ensures start { self.new.start ≡ min self.old.start self.new.next }
        ensures crash { D.is_known → SpoolLeaves D.moment D.left_at (Some spool) self.new.spool
            (LeftByNotes D.files self.old.first) }
        ensures only { self.new ≡ record self.old {
          desk = self.new.desk;
          is_spooled = true;
          spool = self.new.spool;
          has_failed = self.new.has_failed;
          first = self.new.first;
          start = self.new.start;
          next = self.new.next;
          counts = with_desk self.old.desk.delivered self.old.desk.lost self.old.counts;
        } }
    {
        self.counts.leave(self.desk.counts());
        self.desk = BodyDesk::new(self.alloc, self.desk.config());
        self.next = spool.next_number();
        self.is_spooled = true;
        self.spool = Some(spool);
        self.has_failed = note_into(self.alloc, &mut self.spool, self.first);
        self.first = self.first.min(self.next);
        self.start = self.start.min(self.next);
    }

    /// Whether bodies are kept in a spool.
    pub fn is_spooled(&self) -> bool
        ensures { result ≡ self.now.is_spooled }
    {
        self.is_spooled
    }

    /// Whether the spool failed, and wasn't opened again.
    pub fn has_failed(&self) -> bool
        ensures { result ≡ self.now.has_failed }
    {
        self.has_failed
    }

    /// How many bytes a batch has at most, unless it is a single body.
    pub fn batch_bytes(&self) -> usize {
        self.desk.config().batch_bytes
    }

    /// How many bodies are kept: those of the desk, or all that wait in the spool. With a spool it
    /// may be more than that, since a record that is damaged takes a number too.
    pub fn kept_count(&self) -> u64
        ensures count { result ≡ kept_count self.now }
        ensures few { D.is_known → self.now.is_spooled ≡ true → self.now.has_failed ≡ false
            → length (remaining_in D.files self.now) ≤ result }
    {
        if self.is_spooled {
            return self.next.saturating_sub(self.first);
        }
        self.desk.counts().kept
    }

    /// How many bytes they take: in memory, or all bytes of the spool.
    fn kept_bytes(&self) -> u64 {
        match &self.spool {
            Some(spool) => spool.size(),
            None => self.desk.counts().memory as u64,
        }
    }

    /// What became of the bodies.
    fn body_amounts(&self) -> Amounts
        ensures { AreBodies self.now result }
    {
        let desk = self.desk.counts();
        let delivered = self.counts.delivered.saturating_add(desk.delivered);
        let lost = self.counts.lost.saturating_add(desk.lost);
        let kept = self.kept_count();
        Amounts {
            received: delivered.saturating_add(lost).saturating_add(kept),
            kept,
            delivered,
            lost,
        }
    }

    /// What became of what was kept. With a spool, bodies of an earlier run that waited in it count
    /// as received, and their spans once they ended.
    pub fn report(&self) -> Report
        ensures { IsReport self.now result }
    {
        let counts = &self.counts;
        let taken = counts.delivered_spans.saturating_add(counts.rejected_spans);
        let ended_spans = taken.saturating_add(counts.lost_spans);
        Report {
            bodies: self.body_amounts(),
            spans: Amounts {
                received: counts.received_spans,
                kept: counts.received_spans.saturating_sub(ended_spans),
                delivered: counts.delivered_spans,
                lost: counts.lost_spans,
            },
            rejected_spans: counts.rejected_spans,
            unwritten_names: counts.unwritten_names,
            waiting_bytes: self.kept_bytes(),
            attempts: counts.attempts,
            refusals: counts.refusals,
            has_failed: self.has_failed,
        }
    }

    /// The names of spans that were lost last, at most so many, the last one first.
    ///
    /// # Errors
    ///
    /// `AllocError` where memory was refused.
    pub fn lost(&self, alloc: Global, most: usize) -> Result<Vec<LostSpan>, AllocError>
        ensures { IfOk result (λ names. length names.items ≤ most) }
    {
        copy_newest(alloc, &self.lost, most)
    }
}
