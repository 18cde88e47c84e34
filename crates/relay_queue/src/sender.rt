//! A sender of bodies.
ghost use Rattle.std.specs.Prelude.{◌≡◌, ◌+◌, [], IfOk, OnErr, true, false, if◌then◌else◌};
ghost use Rattle.retry_core.specs.Retries.{next_view, outcome_view};
ghost use Rattle.relay_queue.specs.Bodies.{MayNotTake, bodies_view};
ghost use Rattle.relay_queue.specs.Named.{Gains};
ghost use Rattle.relay_queue.specs.Senders.{has_batch, is_pending, new_sender, no_batch, to_send};
ghost use Rattle.relay_queue.specs.Senders.{capped_64, early_at, forgotten, names_after};
ghost use Rattle.relay_queue.specs.Steps.{Abandons, Attempts, IsJudged, Notes, Takes};
ghost use Rattle.relay_queue.specs.Views.{config_view};

use crate::ends::{name_ended, note};
use crate::send_config::SendConfig;
use crate::stage::{Stage, stage_after};
use crate::{BodyDesk, LostSink};
use otlp_ids::OutOfMemory;
use retry_core::{Next, Outcome};
use span_exporter::Exporter;
use std::alloc::{Allocator, Global};
use std::marker::Model;

/// What sends the batches of a desk of bodies, one after the other: how often and when, the bytes of
/// the batch that is out, and how far it is. In contracts it is a `Sender`.
#[derive_where(Debug)]
pub struct BodySender<A: Allocator = Global> {
    config: SendConfig,
    body: Vec<u8, A>,
    number: u64,
    attempts: u32,
    stage: Stage,
}

/// By hand: a derived one would be proved again in each crate that drops it.
impl<A: Allocator> Drop for BodySender<A> {
    fn drop(self) {
        let Self {
            config: _,
            body: _,
            number: _,
            attempts: _,
            stage: _,
        } = self;
    }
}

impl<A: Allocator> Model for BodySender<A> {
    ghost use Rattle.relay_queue.specs.Senders.{AreSound, Sender};
    ghost use Rattle.relay_queue.specs.Views.{config_view, stage_view};

    ghost Value = { Sender };

    ghost view = { λ s. record {
      config = config_view s.config;
      body = s.body.items;
      number = s.number;
      attempts = s.attempts;
      stage = stage_view s.stage;
    } };

    ghost invariant = { λ s. AreSound (stage_view s.stage) s.attempts s.body.items };
}

/// What an outcome came to at a desk.
#[derive(Drop)]
#[derive_where(Debug)]
pub struct Settled<A: Allocator = Global> {
    /// What follows from it.
    pub next: Next,
    /// The bodies that ended, the first one first. Where they are lost by it, `name` gives the names
    /// of their spans.
    pub ended: Vec<Vec<u8, A>, A>,
}

impl<A: Allocator> Settled<A> {
    /// Gives the names of the spans of the bodies that ended to a sink, body by body, where they are
    /// lost; else none. It takes no memory. (OTLP Specification, "OTLP/HTTP Response"; profile)
    pub fn name<S: LostSink>(&self, sink: &mut S)
        ensures { Gains (names_after (next_view self.now.next) (bodies_view self.now.ended.items))
            (S.named sink.old) (S.named sink.new) }
    {
        let Some(fate) = self.next.fate() else {
            return;
        };
        name_ended(&self.ended, fate, sink);
    }
}

impl<A: Allocator> BodySender<A> {
    /// One that has no batch. It takes no memory.
    pub fn new(alloc: A, config: SendConfig) -> BodySender<A>
        ensures { result ≡ new_sender (config_view config) }
    {
        BodySender {
            config,
            body: Vec::new(alloc),
            number: 0,
            attempts: 0,
            stage: Stage::NoBatch,
        }
    }

    /// Whether it has a batch in hand, which is to be sent, or whose outcome is to be judged.
    pub fn has_batch(&self) -> bool
        ensures { result ≡ has_batch self.now.stage }
    {
        matches!(self.stage, Stage::ToSend | Stage::ToJudge(_))
    }

    /// Whether an outcome is to be judged.
    pub fn is_pending(&self) -> bool
        ensures { result ≡ is_pending self.now.stage }
    {
        matches!(self.stage, Stage::ToJudge(_))
    }

    /// The moment before which its last batch is not to be sent again, in nanoseconds since 1970,
    /// where that has not come at `now`. (OTLP Specification, "OTLP/HTTP Throttling")
    pub fn early(&self, now: u64) -> Option<u64>
        ensures { result ≡ early_at now self.now.stage }
    {
        match self.stage {
            Stage::ToRetry(from) if now < from => Some(from),
            _ => None,
        }
    }

    /// The number of its last batch, from 1 on, or 0. A batch that is sent again keeps it.
    pub fn number(&self) -> u64
        ensures { result ≡ self.now.number }
    {
        self.number
    }

    /// How many attempts its last batch had. The count stops at 2^32 - 1.
    pub fn attempts(&self) -> u32
        ensures { result ≡ self.now.attempts }
    {
        self.attempts
    }

    /// Takes the next batch of a desk, if there is one and none is out: whether it did. Batches are
    /// numbered from 1 on. One that is to be sent again keeps its number and its attempts, and has
    /// the same bytes. It has no batch in hand before, as `has_batch` says. (profile)
    ///
    /// # Errors
    ///
    /// `OutOfMemory` where memory was refused. Nothing is changed then.
    pub fn take(&mut self, desk: &mut BodyDesk<A>) -> Result<bool, OutOfMemory>
        requires { has_batch self.old.stage ≡ false }
        ensures taken { IfOk result
            (λ some. some ≡ true → Takes self.old desk.old self.new desk.new) }
        ensures none { IfOk result (λ some. some ≡ false → MayNotTake desk.old) }
        ensures unchanged { IfOk result
            (λ some. some ≡ false → (self.new ≡ self.old) × (desk.new ≡ desk.old)) }
        ensures refused { OnErr result ((self.new ≡ self.old) × (desk.new ≡ desk.old)) }
    {
        let (number, attempts) = self.next_counts(desk.is_again());
        let taken = desk.take(&mut self.body)?;
        let Some(_count) = taken else {
            return Ok(false);
        };
        self.number = number;
        self.attempts = attempts;
        self.stage = Stage::ToSend;
        Ok(true)
    }

    /// The number of the next batch, and how many attempts it had.
    fn next_counts(&self, is_again: bool) -> (u64, u32)
        ensures number { result.0
            ≡ (if is_again then self.now.number else capped_64 (self.now.number + 1)) }
        ensures attempts { result.1 ≡ (if is_again then self.now.attempts else 0) }
    {
        if is_again {
            return (self.number, self.attempts);
        }
        (self.number.saturating_add(1), 0)
    }

    /// Hands the bytes of the batch to the exporter, once, and gives the outcome, which is to be
    /// judged (Trace SDK, "Export(batch)"). The batch is to be sent.
    ///
    /// # Errors
    ///
    /// `OutOfMemory` where the exporter has no room for it. Nothing is sent then, and nothing is
    /// changed: it counts as no attempt.
    pub fn attempt<E: Exporter>(&mut self, exporter: &mut E) -> Result<Outcome, OutOfMemory>
        requires { self.old.stage ≡ to_send }
        ensures sent { IfOk result (λ outcome. Attempts (outcome_view outcome) self.old self.new
            (E.handed exporter.old) (E.handed exporter.new)) }
        ensures refused { OnErr result ((self.new ≡ self.old) × (exporter.new ≡ exporter.old)) }
    {
        exporter.prepare(self.body.len(), 1)?;
        let attempts = self.attempts.saturating_add(1);
        let outcome = exporter.export(self.number, attempts, &self.body);
        self.attempts = attempts;
        self.stage = Stage::ToJudge(outcome);
        Ok(outcome)
    }
}

impl<A: Allocator + Copy> BodySender<A> {
    /// Judges the outcome of the last attempt at the moment `now`, in nanoseconds since 1970, and
    /// notes at the desk what follows: the batch is to be sent again, or it ended, and its bodies
    /// are handed out; or it was refused and has several bodies, and each is to be sent alone. Where
    /// no batch is out, as after the desk was drained, nothing is noted. `word` is a random word, as
    /// `retry_core::decide` takes it. An outcome is to be judged, as `is_pending` says. It takes no
    /// memory. (OTLP Specification, "OTLP/HTTP Response", "OTLP/HTTP Throttling"; profile)
    pub fn settle(&mut self, desk: &mut BodyDesk<A>, now: u64, word: u64) -> Settled<A>
        requires { is_pending self.old.stage ≡ true }
        ensures judged { IsJudged now word self.old (next_view result.next) self.new }
        ensures noted { Notes (next_view result.next) (bodies_view result.ended.items)
            desk.old desk.new }
    {
        let Stage::ToJudge(outcome) = self.stage else {
            unreachable!()
        };
        let next = self.config.next(self.attempts, &outcome, now, word);
        let ended = note(*self.body.allocator(), desk, next);
        self.body.clear();
        self.stage = stage_after(next);
        Settled { next, ended }
    }

    /// Gives up all bodies of a desk, the batch that is out with them, and hands them out, the first
    /// one first: the caller names their spans, as abandoned. No outcome is to be judged, as
    /// `is_pending` says, so that none that came is left out. It takes no memory. (profile)
    pub fn abandon(&mut self, desk: &mut BodyDesk<A>) -> Vec<Vec<u8, A>, A>
        requires { is_pending self.old.stage ≡ false }
        ensures bodies { bodies_view result.items ≡ desk.old.kept }
        ensures desk { Abandons desk.old desk.new }
        ensures sender { self.new ≡ record self.old { body = []; stage = no_batch } }
    {
        self.body.clear();
        self.stage = Stage::NoBatch;
        desk.drain()
    }

    /// Forgets the batch that it has in hand, if it has one, and the outcome of its attempt: as where
    /// the bodies of the batch are to be read and taken again. It takes no memory. (profile)
    pub fn forget(&mut self)
        ensures { self.new ≡ forgotten self.old }
    {
        if self.has_batch() {
            self.body.clear();
            self.stage = Stage::NoBatch;
        }
    }

    /// Frees the room for a batch, where it has none in hand and the room is above `most` bytes, as
    /// after a very large body.
    pub fn trim(&mut self, most: usize)
        ensures { self.new ≡ self.old }
    {
        if self.body.is_empty() && self.body.capacity() > most {
            self.body = Vec::new(*self.body.allocator());
        }
    }
}
