//! A batch whose spans are named as dropped.
ghost use Rattle.std.specs.Prelude.{◌≡◌, ◌-◌, ◌^◌, ◌<◌, ◌∷◌, [], length, map};
ghost use Rattle.model_span.specs.Dropped.{entry_of};
ghost use Rattle.otlp_span.specs.Dropped.{reason_view};

use drop_ledger::Ledger;
use otlp_span::{Entries, Reason, SpanData, SpanRemains};
use span_ring::Run;
use std::alloc::{Allocator, Global};
use std::marker::Model;

/// A batch of which each span is named as dropped for one reason, and all else of them was freed
/// (`Batch::into_named`). It isn't dropped: it goes back to its desk, by `Desk::drop_named`.
#[derive_where(Debug)]
pub struct NamedBatch<A: Allocator = Global> {
    pub(crate) number: u64,
    pub(crate) run: Run<SpanData<A>, A>,
    // The names, in the order of the spans.
    pub(crate) names: Ledger<A>,
    pub(crate) reason: Reason,
}

impl<A: Allocator> Model for NamedBatch<A> {
    ghost use Rattle.std.specs.Prelude.{◌≡◌, [], true};
    ghost use Rattle.model_span.specs.Dropped.{can_drop_batch};
    ghost use Rattle.otlp_span.specs.Dropped.{reason_view};
    ghost use Rattle.batch_desk.specs.Batch.{NamedView};

    ghost Value = { NamedView };

    ghost view = { λ b. record {
      number = b.number;
      entries = b.names;
      reason = reason_view b.reason;
      room = b.run.room;
    } };

    ghost invariant = { λ b. (b.run.items ≡ [])
        × (can_drop_batch (reason_view b.reason) ≡ true) };
}

impl<A: Allocator> NamedBatch<A> {
    /// Its number: batches are numbered from 1 on, in the order in which they were taken.
    pub fn number(&self) -> u64
        ensures { result ≡ self.now.number }
    {
        self.number
    }

    /// Why its spans are dropped.
    pub fn reason(&self) -> Reason
        ensures { reason_view result ≡ self.now.reason }
    {
        self.reason
    }

    /// The names of its spans, the oldest first.
    pub fn names(&self) -> Entries<'_, A>
        ensures { result ≡ self.now.entries }
    {
        self.names.iter()
    }
}

/// Names a span on the ledger, in the memory that it brought for this. What is left of the span is
/// handed back.
pub(crate) fn name_span<A: Allocator>(
    ledger: &mut Ledger<A>,
    span: SpanData<A>,
    reason: Reason,
) -> SpanRemains<A>
    requires { length ledger.old < 2 ^ 64 - 1 }
    ensures { ledger.new ≡ entry_of (reason_view reason) span ∷ ledger.old }
{
    let entry = span.entry(reason);
    let (slip, remains) = span.split();
    ledger.push(slip, entry);
    remains
}

/// Names the spans of a run, and frees all else of them: the names, in the order of the spans.
pub(crate) fn names_of<A: Allocator>(run: &mut Run<SpanData<A>, A>, reason: Reason) -> Ledger<A>
    ensures names { result ≡ map (entry_of (reason_view reason)) run.old.items }
    ensures run { run.new ≡ record run.old { items = [] } }
{
    let mut newest_first = Ledger::new();
    for _ in 0..run.len() {
        let span = run.pop_front().unwrap();
        name_span(&mut newest_first, span, reason);
    }
    let mut names = Ledger::new();
    names.append_reversed(newest_first);
    names
}
