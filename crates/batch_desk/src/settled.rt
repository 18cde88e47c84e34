//! A batch that was handed to an exporter, with its fate.
ghost use Rattle.std.specs.Prelude.{◌≡◌, option_map};
ghost use Rattle.otlp_span.specs.Dropped.{reason_view};
ghost use Rattle.retry_core.specs.Retries.{fate_view};
ghost use Rattle.model_desk.specs.Queue as events;

use drop_ledger::Ledger;
use otlp_span::{Entries, Reason, SpanData};
use retry_core::Fate;
use span_ring::Run;
use std::alloc::{Allocator, Global};
use std::marker::Model;

/// Why the spans of a batch with this fate are lost; `None` where they aren't, or where that isn't
/// known: a partial success doesn't say which spans were refused (profile).
pub fn loss_reason(fate: Fate) -> Option<Reason>
    ensures { option_map reason_view result ≡ events.loss_reason (fate_view fate) }
{
    match fate {
        Fate::Delivered | Fate::Partial(_) => None,
        Fate::Refused(status) => Some(Reason::Refused(status)),
        Fate::BadReply => Some(Reason::BadReply),
        Fate::GivenUp => Some(Reason::GivenUp),
        Fate::Abandoned => Some(Reason::LeftHanded),
    }
}

/// A batch that was handed to an exporter, with its fate: where its spans are lost, each is named,
/// and all else of them was freed (`Batch::into_settled`). It isn't dropped: it goes back to its
/// desk, by `Desk::settle_named`.
#[derive_where(Debug)]
pub struct SettledBatch<A: Allocator = Global> {
    pub(crate) number: u64,
    pub(crate) run: Run<SpanData<A>, A>,
    // The names of lost spans, in the order of the spans.
    pub(crate) names: Ledger<A>,
    pub(crate) fate: Fate,
}

impl<A: Allocator> Model for SettledBatch<A> {
    ghost use Rattle.std.specs.Prelude.{◌≡◌, [], false};
    ghost use Rattle.model_desk.specs.Desks.{is_loss};
    ghost use Rattle.retry_core.specs.Retries.{fate_view};
    ghost use Rattle.batch_desk.specs.Batch.{SettledView};

    ghost Value = { SettledView };

    ghost view = { λ b. record {
      number = b.number;
      entries = b.names;
      fate = fate_view b.fate;
      room = b.run.room;
    } };

    ghost invariant = { λ b. (b.run.items ≡ [])
        × (is_loss (fate_view b.fate) ≡ false → b.names ≡ []) };
}

impl<A: Allocator> SettledBatch<A> {
    /// Its number: batches are numbered from 1 on, in the order in which they were taken.
    pub fn number(&self) -> u64
        ensures { result ≡ self.now.number }
    {
        self.number
    }

    /// How it ended.
    pub fn fate(&self) -> Fate
        ensures { fate_view result ≡ self.now.fate }
    {
        self.fate
    }

    /// The names of its lost spans, the oldest first: of all of them, or none.
    pub fn names(&self) -> Entries<'_, A>
        ensures { result ≡ self.now.entries }
    {
        self.names.iter()
    }
}
