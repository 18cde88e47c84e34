//! The queue of a batch processor.
ghost use Rattle.std.specs.Prelude.{List, ◌≡◌, ◌+◌, ◌-◌, ◌^◌, ◌<◌, ◌≤◌, ◌↔◌, ◌⊎◌, ◌&&◌, ◌++◌, ◌∷◌};
ghost use Rattle.std.specs.Prelude.{[], length, drop, map, reverse, true, false, is_some, is_none};
ghost use Rattle.std.specs.Prelude.{option_map, slice_get, if◌then◌else◌, nat_le, ◌*◌, Some, None};
ghost use Rattle.std.specs.Prelude.{IfNone, IfOk, IfSome, IsErrOf, IsTrue};
ghost use Rattle.span_ring.specs.SpanRing.{IsRingSize};
ghost use Rattle.span_ring.specs.declared.ring.TheConstants.{MAX_QUEUE};
ghost use Rattle.model_span.specs.Spans as spans;
ghost use Rattle.model_span.specs.Dropped.{can_drop_batch, entry_of};
ghost use Rattle.model_desk.specs.Queue as events;
ghost use Rattle.model_desk.specs.Desks.{Does, DropsSpans, IsDesk, SettlesSpans, TakesSpans};
ghost use Rattle.model_desk.specs.Desks.{accepted_count, after_settled, handed_out, in_hand_size};
ghost use Rattle.model_desk.specs.Desks.{is_due, is_flushed, new_desk, out_size, worker_drops};
ghost use Rattle.otlp_span.specs.Dropped.{entry_view, reason_view};
ghost use Rattle.retry_core.specs.Retries.{fate_view};
ghost use Rattle.batch_desk.specs.Desk.{CanSettle, IsNamedOut, IsOut, admission, admission_event};
ghost use Rattle.batch_desk.specs.Desk.{after_admission, after_drop, after_loss, after_names};
ghost use Rattle.batch_desk.specs.Desk.{DoesAll, after_take, is_queued, next_batch, out_state};
ghost use Rattle.batch_desk.specs.Desk.{pops_all};
ghost use Rattle.drop_ledger.specs.Counts.{drop_counts_view};
ghost use Rattle.batch_desk.specs.Views.{config_view, fate_counts_view, out_view};

use crate::admitted::Admitted;
use crate::batch::Batch;
use crate::config::DeskConfig;
use crate::drained::DrainedNames;
use crate::mark::Mark;
use crate::named::{NamedBatch, name_span};
use crate::settled::{SettledBatch, loss_reason};
use crate::totals::{FateCounts, Totals};
use drop_ledger::{DropCounts, Ledger};
use otlp_span::{Entry, Reason, Slip, SpanData, SpanRemains};
use retry_core::Fate;
use span_ring::{RingFault, SpanRing};
use std::alloc::{Allocator, Global};
use std::marker::Model;
use std::mem;

/// The batch that is out: its number, how many spans it has, and whether it was handed to an
/// exporter.
#[derive(Clone, Copy, Debug)]
struct TakenBatch {
    number: u64,
    size: u64,
    is_handed: bool,
}

/// The queue of a batch processor (Trace SDK, "Batching processor"), with the batch that is out,
/// the ledgers of dropped and of lost spans, and counts. After `new` no call takes memory.
#[derive_where(Debug)]
pub struct Desk<A: Allocator = Global> {
    ring: SpanRing<SpanData<A>, A>,
    // The names of dropped spans, and those of lost spans.
    ledger: Ledger<A>,
    lost: Ledger<A>,
    delay_ms: u32,
    out: Option<TakenBatch>,
    next_ticket: u64,
    taken: u64,
    asked: u64,
    closed: bool,
    batches: u64,
    last_moment: u64,
    handed: u64,
    lost_count: u64,
    late: u64,
    dropped: DropCounts,
    fates: FateCounts,
}

/// By hand: a derived one would be proved again in each crate that drops it.
impl<A: Allocator> Drop for Desk<A> {
    fn drop(self) {
        let Self {
            ring: _,
            ledger: _,
            lost: _,
            delay_ms: _,
            out: _,
            next_ticket: _,
            taken: _,
            asked: _,
            closed: _,
            batches: _,
            last_moment: _,
            handed: _,
            lost_count: _,
            late: _,
            dropped: _,
            fates: _,
        } = self;
    }
}

impl<A: Allocator> Model for Desk<A> {
    ghost use Rattle.model_desk.specs.Desks.{Desk};

    ghost Value = { Desk };

    ghost use Rattle.batch_desk.specs.Inside.{IsSound, desk_view};

    ghost view = { desk_view };

    ghost invariant = { IsSound };
}

impl<A: Allocator + Copy> Desk<A> {
    /// A desk on which nothing waits, made at a moment, in nanoseconds since 1970.
    ///
    /// # Errors
    ///
    /// The first that holds of: `ZeroSize` where the queue or the batch is 0, `BatchAboveQueue`,
    /// `TooLarge` where the queue is above 65,536, and `OutOfMemory`.
    pub fn new(alloc: A, config: DeskConfig, now: u64) -> Result<Desk<A>, RingFault>
        ensures desk { IfOk result (λ desk. desk ≡ new_desk (config_view config) now) }
        ensures history { IfOk result (IsDesk now []) }

        // The first fault that holds is the answer.
        ensures zero_size { IsErrOf result RingFault.ZeroSize
            ↔ ((config.queue ≡ 0) ⊎ (config.batch ≡ 0)) }
        ensures batch_above_queue { IsErrOf result RingFault.BatchAboveQueue
            ↔ ((0 < config.queue) × (config.queue < config.batch)) }
        ensures too_large { IsErrOf result RingFault.TooLarge
            ↔ ((0 < config.batch) × (config.batch ≤ config.queue) × (MAX_QUEUE < config.queue)) }
        ensures out_of_memory { IsErrOf result RingFault.OutOfMemory
            → IsRingSize config.queue config.batch }
    {
        let ring = SpanRing::new(alloc, config.queue, config.batch)?;
        Ok(Desk {
            ring,
            ledger: Ledger::new(),
            lost: Ledger::new(),
            delay_ms: config.delay_ms,
            out: None,
            next_ticket: 0,
            taken: 0,
            asked: 0,
            closed: false,
            batches: 0,
            last_moment: now,
            handed: 0,
            lost_count: 0,
            late: 0,
            dropped: DropCounts::new(),
            fates: FateCounts::new(),
        })
    }
}

impl<A: Allocator> Desk<A> {
    /// Queues a span that has ended, under the next ticket (Trace SDK, "OnEnd"). Where as many wait
    /// as the queue holds, it is dropped itself: the ledger names it, as `QueueFull`. After a
    /// shutdown it is only counted, up to 2^64 - 1. Where the next ticket would be 2^64 - 1, the
    /// desk closes as by a shutdown (profile: tickets, the ledger, late spans).
    pub fn admit(&mut self, span: SpanData<A>) -> Admitted
        ensures answer { result ≡ admission self.old }
        ensures desk { self.new ≡ after_admission result span self.old }
        ensures history { Does (admission_event result span) self.old self.new }
    {
        let (answer, _) = self.offer(span);
        answer
    }

    /// Queues a span that has ended, as `admit` does, and frees no memory: what is left of a span
    /// that doesn't wait is handed back, so that a caller that holds a lock frees it after that
    /// (profile).
    pub fn offer(&mut self, mut span: SpanData<A>) -> (Admitted, Option<SpanRemains<A>>)
        ensures answer { result.0 ≡ admission self.old }
        ensures desk { self.new ≡ after_admission result.0 span self.old }
        ensures history { Does (admission_event result.0 span) self.old self.new }
        ensures remains { is_none result.1 ≡ is_queued result.0 }
    {
        if self.closed {
            self.late = self.late.saturating_add(1);
            return (Admitted::Late, Some(span.into_remains()));
        }
        let ticket = self.next_ticket;
        span.set_ticket(ticket);
        self.next_ticket += 1;
        self.closed = self.next_ticket == u64::MAX;
        match self.ring.push(span) {
            Ok(()) => (Admitted::Queued(ticket), None),
            Err(span) => {
                let remains = name_span(&mut self.ledger, span, Reason::QueueFull);
                self.dropped.add(Reason::QueueFull, 1);
                (Admitted::Full(ticket), Some(remains))
            }
        }
    }

    /// Asks for the spans that wait (Trace SDK, "ForceFlush"): batches are due until they are
    /// taken. The mark is that of all spans that were accepted so far, which `flushed` takes.
    /// After a shutdown nothing changes (profile).
    pub fn flush(&mut self) -> Mark
        ensures mark { result ≡ accepted_count self.old }
        ensures desk { self.new ≡ record self.old { asked = accepted_count self.old } }
        ensures history { Does events.flush self.old self.new }
        ensures unchanged_after_shutdown { self.old.closed ≡ true
            → self.old.next_ticket < 2 ^ 64 - 1 → self.new ≡ self.old }
    {
        let accepted = self.taken + self.ring.len() as u64;
        self.asked = accepted;
        Mark { accepted }
    }

    /// Asks for the spans that wait, and closes the desk: those that end from now on are late
    /// (Trace SDK, "Shutdown"). The mark is that of all spans that were accepted. A second shutdown
    /// changes nothing (profile).
    pub fn shutdown(&mut self) -> Mark
        ensures mark { result ≡ accepted_count self.old }
        ensures desk { self.new ≡ record self.old {
          asked = accepted_count self.old;
          closed = true;
        } }
        ensures history { Does events.shutdown self.old self.new }
        ensures unchanged_after_shutdown { self.old.closed ≡ true
            → self.old.next_ticket < 2 ^ 64 - 1 → self.new ≡ self.old }
    {
        let mark = self.flush();
        self.closed = true;
        mark
    }

    /// Whether a batch is due at a moment, in nanoseconds since 1970 (Trace SDK, "Batching
    /// processor"): spans wait, and there are enough for a batch, or a flush asked for some of
    /// them, or the desk is closed, or the delay has passed since the last batch was taken (or
    /// since the desk was made).
    pub fn due(&self, now: u64) -> bool
        ensures { result ≡ is_due self.now now }
    {
        let waiting = self.ring.len();
        waiting > 0
            && (waiting >= self.ring.batch()
                || self.taken < self.asked
                || self.closed
                || has_passed(self.last_moment, self.delay_ms, now))
    }

    /// Takes the next batch at a moment, in nanoseconds since 1970, where one is due and none is
    /// out (Trace SDK, "Batching processor"): the oldest spans that wait, as many as a batch has at
    /// most. The delay counts from this moment on, which may be before that of an earlier take.
    /// `None` where none is due or one is out; nothing changes then.
    pub fn take(&mut self, now: u64) -> Option<Batch<A>>
        ensures some { is_some result ≡ (is_due self.old now && is_none self.old.out) }
        ensures batch { IfSome result (λ batch. batch ≡ next_batch self.old) }
        ensures in_hand { IfSome result (IsOut false self.new) }
        ensures desk { IfSome result (λ _. self.new ≡ after_take now self.old) }
        ensures history { IfSome result (λ batch. TakesSpans now batch.spans self.old self.new) }
        ensures unchanged { IfNone result (self.new ≡ self.old) }
    {
        if self.out.is_some() || !self.due(now) {
            return None;
        }
        let size = self.ring.batch().min(self.ring.len()) as u64;
        let run = self.ring.take_run().unwrap();
        let number = self.batches + 1;
        self.taken += size;
        self.batches = number;
        self.last_moment = now;
        self.out = Some(TakenBatch {
            number,
            size,
            is_handed: false,
        });
        Some(Batch { number, run })
    }

    /// The number of the batch that is out, if one is, and whether it was handed to an exporter.
    pub fn out(&self) -> Option<(u64, bool)>
        ensures { result ≡ out_state self.now }
    {
        self.out.map(|out| (out.number, out.is_handed))
    }

    /// Whether this batch is out and was not handed to an exporter.
    pub fn is_in_hand(&self, batch: &Batch<A>) -> bool
        ensures { IsTrue result ↔ IsOut false self.now batch.now }
    {
        self.is_out(batch, false)
    }

    /// Whether this batch is out and was handed to an exporter.
    pub fn is_handed(&self, batch: &Batch<A>) -> bool
        ensures { IsTrue result ↔ IsOut true self.now batch.now }
    {
        self.is_out(batch, true)
    }

    /// Whether this batch is out, and was handed or not.
    fn is_out(&self, batch: &Batch<A>, handed: bool) -> bool
        ensures { IsTrue result ↔ IsOut handed self.now batch.now }
    {
        match &self.out {
            Some(out) => {
                out.number == batch.number
                    && out.is_handed == handed
                    && out.size == batch.run.len() as u64
                    && batch.run.room() == self.ring.batch()
            }
            None => false,
        }
    }

    /// Counts the spans of the batch with this number as handed to an exporter: it is out, and was
    /// not handed yet, as `out` says. From here on they don't enter the ledger of dropped spans
    /// (profile).
    pub fn handed(&mut self, number: u64)
        requires { out_state self.old ≡ Some (number, false) }
        ensures desk { self.new ≡ record self.old {
          out = handed_out self.old.out;
          handed = self.old.handed + out_size self.old.out;
        } }
        ensures history { Does events.handed self.old self.new }
    {
        let size = size_of(self.out);
        self.handed += size;
        self.out = Some(TakenBatch {
            number,
            size,
            is_handed: true,
        });
    }

    /// Whether this batch can be settled with this fate: it is out and was handed to an exporter,
    /// and where its spans are lost (`loss_reason`), it wasn't cleared.
    pub fn can_settle(&self, batch: &Batch<A>, fate: Fate) -> bool
        ensures { IsTrue result ↔ CanSettle self.now (fate_view fate) batch.now.number
            batch.now.room (length batch.now.spans) }
    {
        let there = batch.run.len() as u64;
        self.is_settleable(fate, batch.number, batch.run.room(), there)
    }

    /// Whether this batch is out and was handed to an exporter, and where its spans are lost, each
    /// is named.
    pub fn can_settle_named(&self, batch: &SettledBatch<A>) -> bool
        ensures { IsTrue result ↔ CanSettle self.now batch.now.fate batch.now.number
            batch.now.room (length batch.now.entries) }
    {
        self.is_settleable(
            batch.fate,
            batch.number,
            batch.run.room(),
            batch.names.len(),
        )
    }

    /// Whether the batch of this number, room and count of spans can be settled with this fate.
    fn is_settleable(&self, fate: Fate, number: u64, room: usize, there: u64) -> bool
        ensures { IsTrue result ↔ CanSettle self.now (fate_view fate) number room there }
    {
        match &self.out {
            Some(out) => {
                out.number == number
                    && out.is_handed
                    && (loss_reason(fate).is_none() || out.size == there)
                    && room == self.ring.batch()
            }
            None => false,
        }
    }

    /// Whether this batch, whose spans are named, is out and was not handed to an exporter.
    pub fn can_drop(&self, batch: &NamedBatch<A>) -> bool
        ensures { IsTrue result ↔ IsNamedOut self.now batch.now }
    {
        match &self.out {
            Some(out) => {
                out.number == batch.number
                    && !out.is_handed
                    && out.size == batch.names.len()
                    && batch.run.room() == self.ring.batch()
            }
            None => false,
        }
    }

    /// Drops this batch, which is out and was not handed, as `is_in_hand` says: the ledger names
    /// its spans, in their order, each as dropped for this reason. The reason is one for which a
    /// batch may be dropped (`Reason::can_drop_batch`): not `QueueFull`, which is that of spans
    /// that end where the queue is full, nor one of lost spans (profile). Its spans are freed here;
    /// under a lock take `drop_named`.
    pub fn drop_batch(&mut self, batch: Batch<A>, reason: Reason)
        requires out { IsOut false self.old batch }
        requires reason { can_drop_batch (reason_view reason) ≡ true }
        ensures desk { self.new ≡ after_drop (reason_view reason) batch.spans self.old }
        ensures history { DropsSpans (reason_view reason) batch.spans self.old self.new }
    {
        self.drop_named(batch.into_named(reason));
    }

    /// Drops this batch, whose spans are named (`Batch::into_named`) and which is out and was not
    /// handed, as `can_drop` says: its names go onto the ledger, in their order. No span is freed
    /// (profile).
    pub fn drop_named(&mut self, batch: NamedBatch<A>)
        requires { IsNamedOut self.old batch }
        ensures desk { self.new ≡ after_names batch.reason batch.entries self.old }
        ensures history { (spans : List spans.SpanData)
            → map (entry_of batch.reason) spans ≡ batch.entries
            → DropsSpans batch.reason spans self.old self.new }
    {
        let NamedBatch {
            number: _,
            run,
            names,
            reason,
        } = batch;
        self.dropped.add(reason, names.len());
        self.ledger.append_reversed(names);
        self.ring.give_back(run);
        self.out = None;
    }

    /// Ends this batch, which is out and was handed, as `can_settle` says. Where the fate means
    /// that its spans are lost (`loss_reason`), the second ledger names them, in their order, each
    /// with this reason. Its spans are freed here; under a lock take `settle_named`.
    pub fn settle(&mut self, batch: Batch<A>, fate: Fate)
        requires { CanSettle self.old (fate_view fate) batch.number batch.room
            (length batch.spans) }
        ensures desk { self.new ≡ after_settled (fate_view fate) batch.spans self.old }
        ensures history { SettlesSpans (fate_view fate) batch.spans self.old self.new }
    {
        self.settle_named(batch.into_settled(fate));
    }

    /// Ends this batch (`Batch::into_settled`), which is out and was handed, as `can_settle_named`
    /// says: the names of its lost spans go onto the second ledger, in their order. No span is
    /// freed, and no memory is taken (profile).
    pub fn settle_named(&mut self, batch: SettledBatch<A>)
        requires { CanSettle self.old batch.fate batch.number batch.room (length batch.entries) }
        ensures desk { self.new ≡ after_loss batch.fate batch.entries self.old }
        ensures history { (spans : List spans.SpanData)
            → events.lost_names batch.fate spans ≡ batch.entries
            → SettlesSpans batch.fate spans self.old self.new }
    {
        let SettledBatch {
            number: _,
            run,
            names,
            fate,
        } = batch;
        self.lost_count += names.len();
        self.lost.append_reversed(names);
        self.ring.give_back(run);
        self.out = None;
        self.fates.add(fate);
    }

    /// Whether all that a mark asked for was taken, and is settled or dropped (Trace SDK,
    /// "ForceFlush").
    pub fn flushed(&self, mark: Mark) -> bool
        ensures { result ≡ is_flushed self.now mark }
    {
        mark.accepted <= self.taken - size_of(self.out)
    }

    /// Takes the newest entry out of the ledger. The totals still count its span.
    pub fn pop_entry(&mut self) -> Option<Entry>
        ensures newest { option_map entry_view result ≡ slice_get self.old.ledger 0 }
        ensures desk { self.new ≡ record self.old { ledger = drop 1 self.old.ledger } }
        ensures history { Does events.popped self.old self.new }
    {
        let (entry, _slip) = self.pop_entry_slip()?;
        Some(entry)
    }

    /// As [`Desk::pop_entry`], with the slip that the entry was on: its memory is freed where it is
    /// dropped, as once a lock is given back.
    pub fn pop_entry_slip(&mut self) -> Option<(Entry, Slip<A>)>
        ensures newest { option_map (λ popped. entry_view popped.0) result
            ≡ slice_get self.old.ledger 0 }
        ensures slip { IfSome result (λ popped. popped.1 ≡ entry_view popped.0 ∷ []) }
        ensures desk { self.new ≡ record self.old { ledger = drop 1 self.old.ledger } }
        ensures history { Does events.popped self.old self.new }
    {
        self.ledger.pop_slip()
    }

    /// The names of the dropped spans, but for those that were popped.
    pub fn ledger(&self) -> &Ledger<A>
        ensures { result.now ≡ self.now.ledger }
    {
        &self.ledger
    }

    /// Takes the newest entry out of the ledger of lost spans. The totals still count its span.
    pub fn pop_lost(&mut self) -> Option<Entry>
        ensures newest { option_map entry_view result ≡ slice_get self.old.lost 0 }
        ensures desk { self.new ≡ record self.old { lost = drop 1 self.old.lost } }
        ensures history { Does events.popped_lost self.old self.new }
    {
        let (entry, _slip) = self.pop_lost_slip()?;
        Some(entry)
    }

    /// As [`Desk::pop_lost`], with the slip that the entry was on: its memory is freed where it is
    /// dropped, as once a lock is given back.
    pub fn pop_lost_slip(&mut self) -> Option<(Entry, Slip<A>)>
        ensures newest { option_map (λ popped. entry_view popped.0) result
            ≡ slice_get self.old.lost 0 }
        ensures slip { IfSome result (λ popped. popped.1 ≡ entry_view popped.0 ∷ []) }
        ensures desk { self.new ≡ record self.old { lost = drop 1 self.old.lost } }
        ensures history { Does events.popped_lost self.old self.new }
    {
        self.lost.pop_slip()
    }

    /// The names of the lost spans, but for those that were popped: of each batch that was handed
    /// and not delivered (profile).
    pub fn lost(&self) -> &Ledger<A>
        ensures { result.now ≡ self.now.lost }
    {
        &self.lost
    }

    /// Takes all entries out of both ledgers, in one step: however many there are, none is looked
    /// at. The totals still count their spans.
    pub fn drain_names(&mut self) -> DrainedNames<A>
        ensures dropped { result.dropped ≡ self.old.ledger }
        ensures lost { result.lost ≡ self.old.lost }
        ensures desk { self.new ≡ record self.old { ledger = []; lost = [] } }
        ensures history { DoesAll (pops_all self.old) self.old self.new }
    {
        DrainedNames {
            dropped: mem::take(&mut self.ledger),
            lost: mem::take(&mut self.lost),
        }
    }

    /// How many spans wait.
    pub fn waiting(&self) -> usize
        ensures { result ≡ length self.now.waiting }
    {
        self.ring.len()
    }

    /// Whether the desk is closed: spans that end now are late.
    pub fn is_closed(&self) -> bool
        ensures { result ≡ self.now.closed }
    {
        self.closed
    }

    /// The counts of all that came so far.
    pub fn totals(&self) -> Totals
        ensures accepted { result.accepted ≡ accepted_count self.now }
        ensures taken { result.taken ≡ self.now.taken }
        ensures handed { result.handed ≡ self.now.handed }
        ensures lost { result.lost ≡ self.now.lost_count }
        ensures left { result.left ≡ length self.now.waiting }
        ensures late { result.late ≡ self.now.late }
        ensures dropped { drop_counts_view result.dropped ≡ self.now.dropped }
        ensures fates { fate_counts_view result.fates ≡ self.now.fates }
        ensures closed { result.closed ≡ self.now.closed }

        // What was accepted was taken or is left, and what was taken was handed, was dropped with
        // its batch, or is in hand. What is lost was handed.
        ensures accepted_sum { result.accepted ≡ result.taken + result.left }
        ensures taken_sum { result.taken ≡ result.handed + worker_drops self.now.dropped
            + in_hand_size self.now.out }
        ensures lost_within { result.lost ≤ result.handed }
    {
        let left = self.ring.len() as u64;
        Totals {
            accepted: self.taken + left,
            taken: self.taken,
            handed: self.handed,
            lost: self.lost_count,
            left,
            late: self.late,
            dropped: self.dropped,
            fates: self.fates,
            closed: self.closed,
        }
    }
}

/// Whether this number of milliseconds has passed since a moment.
fn has_passed(since: u64, delay_ms: u32, now: u64) -> bool
    ensures { result ≡ nat_le (since + delay_ms * 10 ^ 6) now }
{
    let delay = u128::from(delay_ms) * 1_000_000;
    u128::from(since) + delay <= u128::from(now)
}

/// How many spans the batch that is out has.
fn size_of(out: Option<TakenBatch>) -> u64
    ensures { result ≡ out_size (option_map out_view out) }
{
    out.map_or(0, |out| out.size)
}
