//! An exporter over memory.
ghost use Rattle.std.specs.Prelude.{◌≡◌, ◌+◌, ◌<◌, ◌≤◌, ◌++◌, ℕ, [], OnErr, OnOk, drop, length};
ghost use Rattle.std.specs.Prelude.{map};
ghost use Rattle.retry_core.specs.Retries.{outcome_view};
ghost use Rattle.span_exporter.specs.Handed.{handing};
ghost use Rattle.span_exporter.specs.Memory.{next_outcome};
ghost use Rattle.span_exporter.specs.Room.{room_for};
ghost use Rattle.span_exporter.specs.Views.{handed_view};

use crate::exporter::Exporter;
use crate::handed::Handed;
use crate::listed::ListedOutcomes;
use crate::room::Room;
use otlp_ids::OutOfMemory;
use retry_core::Outcome;
use std::alloc::{Allocator, Global};
use std::marker::Model;

/// Keeps what it is handed, and gives listed outcomes. It sends nothing, so it is for tests, and
/// for programs that look at their own batches.
#[derive(Drop)]
#[derive_where(Debug)]
pub struct MemoryExporter<A: Allocator = Global> {
    handed: Vec<Handed<A>, A>,
    outcomes: ListedOutcomes<A>,
    room: Room<A>,
}

impl<A: Allocator> Model for MemoryExporter<A> {
    ghost use Rattle.std.specs.Prelude.{◌+◌, ◌≤◌, length, map, vec_capacity};
    ghost use Rattle.span_exporter.specs.Memory.{Memory};
    ghost use Rattle.span_exporter.specs.Views.{handed_view};

    ghost Value = { Memory };

    ghost view = { λ m. record {
      handed = map handed_view m.handed.items;
      outcomes = m.outcomes;
      room = m.room;
    } };

    ghost invariant = { λ m.
        length m.handed.items + m.room.attempts ≤ vec_capacity m.handed };
}

impl<A: Allocator + Copy> MemoryExporter<A> {
    /// Was handed nothing yet, and has room for nothing. Its attempts have these outcomes, the
    /// first one first, and then always `Delivered`. It takes no memory.
    pub fn new(alloc: A, outcomes: Vec<Outcome, A>) -> MemoryExporter<A>
        ensures { result ≡ record {
          handed = [];
          outcomes = map outcome_view outcomes.items;
          room = record { size = 0; attempts = 0 };
        } }
    {
        MemoryExporter {
            handed: Vec::new(alloc),
            outcomes: ListedOutcomes::new(outcomes),
            room: Room::none(alloc),
        }
    }
}

impl<A: Allocator> MemoryExporter<A> {
    /// What it was handed, in order.
    pub fn handed(&self) -> &[Handed<A>]
        ensures { map handed_view result.now ≡ self.now.handed }
    {
        self.handed.as_slice()
    }
}

impl<A: Allocator + Copy> Exporter for MemoryExporter<A> {
    ghost use Rattle.std.specs.Prelude.{Some};

    ghost handed = { λ m. Some m.handed };

    ghost room = { λ m. room_for m.room };

    /// Makes room for this number of attempts of a body of at most `size` bytes: for the bodies,
    /// and for the list of what it is handed. What room was left from before is given back.
    ///
    /// # Errors
    ///
    /// `OutOfMemory` where this room can't be had. The exporter is unchanged.
    fn prepare(&mut self, size: usize, attempts: u32) -> Result<(), OutOfMemory>
        ensures room { OnOk result
            ((len : ℕ) → len ≤ size → attempts ≤ room_for self.new.room len) }
        ensures handed { self.new.handed ≡ self.old.handed }
        ensures outcomes { self.new.outcomes ≡ self.old.outcomes }
        ensures refused { OnErr result (self.new ≡ self.old) }
    {
        let attempts = attempts as usize;
        self.handed.reserve(attempts)?;
        self.room = Room::new(*self.handed.allocator(), size, attempts)?;
        Ok(())
    }

    /// Keeps what it is handed, and gives the next outcome. It takes no memory.
    fn export(&mut self, number: u64, attempt: u32, body: &[u8]) -> Outcome
        requires { 0 < room_for self.old.room (length body.now) }
        ensures handed { self.new.handed ≡
            self.old.handed ++ handing number attempt body.now (outcome_view result) }
        ensures outcome { outcome_view result ≡ next_outcome self.old.outcomes }
        ensures outcomes { self.new.outcomes ≡ drop 1 self.old.outcomes }
        ensures room { (len : ℕ) →
            room_for self.old.room len ≤ room_for self.new.room len + 1 }
    {
        let body = self.room.fill(body);
        let outcome = self.outcomes.next();
        self.handed.push_reserved(Handed {
            number,
            attempt,
            body,
            outcome,
        });
        outcome
    }
}
