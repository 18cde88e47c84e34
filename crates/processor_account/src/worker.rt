//! What the worker learns.
use crate::state::AccountState;
use account_book::Change;
use batch_desk::{Batch, NamedBatch};
use retry_core::{Fate, Outcome};
use std::alloc::Allocator;
use std::snapshot::Snapshot;

/// The worker takes a batch.
pub struct Takes;

impl<O, A: Allocator> Change<AccountState<O>, Batch<A>> for Takes {
    ghost use Rattle.model_processor.specs.AnyAccounts.{after_take};
    ghost use Rattle.model_processor.specs.Holders.{on_worker};

    ghost after = { λ holder batch. on_worker (after_take batch.number batch.spans) holder };
}

/// The batch that is out is handed to an exporter, with this body.
pub struct Hands;

impl<O, A: Allocator> Change<AccountState<O>, Vec<u8, A>> for Hands {
    ghost use Rattle.model_processor.specs.AnyAccounts.{after_handed};
    ghost use Rattle.model_processor.specs.Holders.{on_worker};

    ghost after = { λ holder body. on_worker (after_handed body.items) holder };
}

/// The batch that is out is dropped.
pub struct Drops;

impl<O, A: Allocator> Change<AccountState<O>, NamedBatch<A>> for Drops {
    ghost use Rattle.model_processor.specs.AnyAccounts.{after_drop};
    ghost use Rattle.model_processor.specs.Holders.{on_worker};

    ghost after = { λ holder batch. on_worker (after_drop batch.reason) holder };
}

/// The outcomes of the attempts of a batch, and how it is settled.
#[derive(Drop)]
pub struct Settled<A: Allocator> {
    /// The outcomes, in order.
    pub outcomes: Snapshot<Vec<Outcome, A>>,
    /// How it is settled.
    pub fate: Fate,
}

/// The batch that is out is settled.
pub struct Settles;

impl<O, A: Allocator> Change<AccountState<O>, Settled<A>> for Settles {
    ghost use Rattle.retry_core.specs.Retries.{fate_view};
    ghost use Rattle.processor_account.specs.Views.{outcomes_view};
    ghost use Rattle.model_processor.specs.AnyAccounts.{after_settle};
    ghost use Rattle.model_processor.specs.Holders.{on_worker};

    ghost after = { λ holder settled. on_worker
        (after_settle (outcomes_view settled.outcomes.value.items) (fate_view settled.fate))
        holder };
}

/// All is drained.
pub struct Drains;

impl<O> Change<AccountState<O>, ()> for Drains {
    ghost use Rattle.model_processor.specs.AnyAccounts.{after_drained};
    ghost use Rattle.model_processor.specs.Holders.{on_worker};

    ghost after = { λ holder _. on_worker after_drained holder };
}

/// The worker leaves.
pub struct Leaves;

impl<O> Change<AccountState<O>, ()> for Leaves {
    ghost use Rattle.model_processor.specs.AnyAccounts.{after_left};
    ghost use Rattle.model_processor.specs.Holders.{on_worker};

    ghost after = { λ holder _. on_worker after_left holder };
}
