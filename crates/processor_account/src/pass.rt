//! What a pass learns.
use crate::state::AccountState;
use account_book::Change;
use batch_desk::{Desk, DrainedNames};
use otlp_span::{Entry, SpanData};
use std::alloc::Allocator;
use std::snapshot::Snapshot;
use trace_api::Ended;

/// A span that ended, and the answer to its end.
#[derive(Drop)]
pub struct SpanEnded<A: Allocator> {
    /// The span, as it was before.
    pub span: Snapshot<SpanData<A>>,
    /// The answer.
    pub answer: Ended,
}

/// A span ends.
pub struct Ends;

impl<O, A: Allocator> Change<AccountState<O>, SpanEnded<A>> for Ends {
    ghost use Rattle.processor_account.specs.Views.{after_end};
    ghost use Rattle.model_processor.specs.Holders.{on_pass};

    ghost after = { λ holder ended. on_pass (after_end ended.answer ended.span.value) holder };
}

/// A pass asks for all that was accepted at this desk.
pub struct Flushes;

impl<O, A: Allocator> Change<AccountState<O>, Snapshot<Desk<A>>> for Flushes {
    ghost use Rattle.model_desk.specs.Desks.{accepted_count};
    ghost use Rattle.model_processor.specs.Passes.{after_flush};
    ghost use Rattle.model_processor.specs.Holders.{on_pass};

    ghost after = { λ holder desk. on_pass
        (after_flush desk.value.next_ticket (accepted_count desk.value)) holder };
}

/// A pass asks for all, and shuts the processor down.
pub struct ShutsDown;

impl<O, A: Allocator> Change<AccountState<O>, Snapshot<Desk<A>>> for ShutsDown {
    ghost use Rattle.model_desk.specs.Desks.{accepted_count};
    ghost use Rattle.model_processor.specs.Passes.{after_shutdown};
    ghost use Rattle.model_processor.specs.Holders.{on_pass};

    ghost after = { λ holder desk. on_pass
        (after_shutdown desk.value.next_ticket (accepted_count desk.value)) holder };
}

/// What a pass asked for is flushed.
pub struct ToldFlushed;

impl<O> Change<AccountState<O>, ()> for ToldFlushed {
    ghost use Rattle.model_processor.specs.Passes.{after_flushed};
    ghost use Rattle.model_processor.specs.Holders.{on_pass};

    ghost after = { λ holder _. on_pass after_flushed holder };
}

/// It is not, and the worker has left.
pub struct ToldLeft;

impl<O> Change<AccountState<O>, ()> for ToldLeft {
    ghost use Rattle.model_processor.specs.Passes.{after_told_left};
    ghost use Rattle.model_processor.specs.Holders.{on_pass};

    ghost after = { λ holder _. on_pass after_told_left holder };
}

/// A pass pops an entry of the ledger.
pub struct Pops;

impl<O> Change<AccountState<O>, Entry> for Pops {
    ghost use Rattle.otlp_span.specs.Dropped.{entry_view};
    ghost use Rattle.model_processor.specs.Passes.{after_pop};
    ghost use Rattle.model_processor.specs.Holders.{on_pass};

    ghost after = { λ holder entry. on_pass (after_pop (entry_view entry)) holder };
}

/// A pass pops an entry of the ledger of lost spans.
pub struct PopsLost;

impl<O> Change<AccountState<O>, Entry> for PopsLost {
    ghost use Rattle.otlp_span.specs.Dropped.{entry_view};
    ghost use Rattle.model_processor.specs.Passes.{after_pop_lost};
    ghost use Rattle.model_processor.specs.Holders.{on_pass};

    ghost after = { λ holder entry. on_pass (after_pop_lost (entry_view entry)) holder };
}

/// A pass drains the ledgers of these names. It has them the oldest first.
pub struct PopsAll;

impl<O, A: Allocator> Change<AccountState<O>, DrainedNames<A>> for PopsAll {
    ghost use Rattle.std.specs.Prelude.{reverse};
    ghost use Rattle.model_processor.specs.Passes.{after_drain};
    ghost use Rattle.model_processor.specs.Holders.{on_pass};

    ghost after = { λ holder names. on_pass
        (after_drain (reverse names.dropped) (reverse names.lost)) holder };
}
