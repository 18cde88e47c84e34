//! A batch of spans that was taken from the queue.
ghost use Rattle.std.specs.Prelude.{◌≡◌, true, ◌≤◌, ◌+◌, ◌-◌, ◌++◌, [], length, take, vec_capacity};
ghost use Rattle.std.specs.Prelude.{vec_len};
ghost use Rattle.otlp_span.specs.Dropped.{reason_view};
ghost use Rattle.model_span.specs.Dropped.{can_drop_batch};
ghost use Rattle.retry_core.specs.Retries.{fate_view};
ghost use Rattle.batch_desk.specs.Batch.{named_batch, settled_batch};

use crate::named::{NamedBatch, names_of};
use crate::settled::{SettledBatch, loss_reason};
use drop_ledger::Ledger;
use otlp_span::{Reason, SpanData};
use retry_core::Fate;
use span_ring::Run;
use std::alloc::{Allocator, Global};
use std::marker::Model;

/// Spans that were taken from the queue together, in its order (Trace SDK, "Batching processor").
/// It isn't dropped: it goes back to its desk, by `Desk::drop_batch`, `Desk::drop_named`,
/// `Desk::settle` or `Desk::settle_named`.
#[derive_where(Debug)]
pub struct Batch<A: Allocator = Global> {
    pub(crate) number: u64,
    pub(crate) run: Run<SpanData<A>, A>,
}

impl<A: Allocator> Model for Batch<A> {
    ghost use Rattle.batch_desk.specs.Batch.{BatchView};

    ghost Value = { BatchView };

    ghost view = { λ b. record {
      number = b.number;
      spans = b.run.items;
      room = b.run.room;
    } };
}

impl<A: Allocator> Batch<A> {
    /// Its number: batches are numbered from 1 on, in the order in which they were taken.
    pub fn number(&self) -> u64
        ensures { result ≡ self.now.number }
    {
        self.number
    }

    /// Drops its spans, which frees them: so that it is settled under a lock without that.
    pub fn clear(&mut self)
        ensures { self.new ≡ record self.old { spans = [] } }
    {
        self.run.clear();
    }

    /// Drops its spans: the first ones, as many as there is room for, into `spent`, which keeps its
    /// capacity, and the others by freeing them. So a thread that settles a batch leaves the
    /// freeing of its spans to others. It takes no memory (profile).
    pub fn clear_into(&mut self, spent: &mut Vec<SpanData<A>, A>)
        ensures batch { self.new ≡ record self.old { spans = [] } }
        ensures spent { spent.new.items ≡ spent.old.items
            ++ take (vec_capacity spent.old - vec_len spent.old) self.old.spans }
        ensures capacity { vec_capacity spent.new ≡ vec_capacity spent.old }
    {
        let count = self.run.len().min(spent.capacity() - spent.len());
        move_first(&mut self.run, count, spent);
        self.run.clear();
    }

    /// Names its spans, in their order, each as dropped for this reason, and frees all else of
    /// them: so that the batch is dropped under a lock without that (`Desk::drop_named`). The
    /// reason is one for which a batch may be dropped (`Reason::can_drop_batch`). It takes no
    /// memory (profile).
    pub fn into_named(self, reason: Reason) -> NamedBatch<A>
        requires { can_drop_batch (reason_view reason) ≡ true }
        ensures { result ≡ named_batch (reason_view reason) self }
    {
        let Batch { number, mut run } = self;
        let names = names_of(&mut run, reason);
        NamedBatch {
            number,
            run,
            names,
            reason,
        }
    }

    /// Where this fate means that its spans are lost (`loss_reason`), names them, in their order,
    /// and frees all else of them; else frees them: so that the batch is settled under a lock
    /// without that (`Desk::settle_named`). It takes no memory (profile).
    pub fn into_settled(self, fate: Fate) -> SettledBatch<A>
        ensures { result ≡ settled_batch (fate_view fate) self }
    {
        let Batch { number, mut run } = self;
        let names = match loss_reason(fate) {
            Some(reason) => names_of(&mut run, reason),
            None => {
                run.clear();
                Ledger::new()
            }
        };
        SettledBatch {
            number,
            run,
            names,
            fate,
        }
    }

    /// Its spans, the oldest first, each with its ticket.
    pub fn spans(&self) -> &[SpanData<A>]
        ensures { result.now ≡ self.now.spans }
    {
        self.run.as_slice()
    }
}

/// Moves the first `count` spans of a run after those of `into`, where there is room for them.
fn move_first<A: Allocator>(
    run: &mut Run<SpanData<A>, A>,
    count: usize,
    into: &mut Vec<SpanData<A>, A>,
)
    requires there { count ≤ length run.old.items }
    requires room { vec_len into.old + count ≤ vec_capacity into.old }
    ensures room { run.new.room ≡ run.old.room }
    ensures into { into.new.items ≡ into.old.items ++ take count run.old.items }
    ensures capacity { vec_capacity into.new ≡ vec_capacity into.old }
{
    for _ in 0..count {
        into.push_reserved(run.pop_front().unwrap());
    }
}
