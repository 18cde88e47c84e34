//! What the accounts of a batch processor say.
use crate::config::Setup;
use account_book::{Blank, Change};
use processor_account::AccountState;
use std::marker::{Model, PhantomData};

/// What a batch processor begins with. No value of it is made.
pub struct BatchOrigin {
    marker: PhantomData<()>,
}

impl Model for BatchOrigin {
    ghost use Rattle.model_processor.specs.WorkerClauses.{Origin};
    ghost use Rattle.model_processor.specs.AnyAccounts.{new_origin};

    ghost Value = { Origin };

    ghost view = { λ _. new_origin };
}

/// What an account says: what a processor began with, or what a pass knows, or the worker.
pub type BatchState = AccountState<BatchOrigin>;

/// A processor begins.
pub(crate) struct Begins;

impl Change<BatchState, Setup> for Begins {
    ghost use Rattle.model_processor.specs.AnyAccounts.{processor};
    ghost use Rattle.batch_processor.specs.Views.{setup_view};

    ghost after = { λ _ setup. processor (setup_view setup) };
}

/// Its worker begins.
pub(crate) struct WorkerBegins;

impl Change<BatchState, Setup> for WorkerBegins {
    ghost use Rattle.model_processor.specs.AnyAccounts.{worker};
    ghost use Rattle.batch_processor.specs.Views.{setup_view};
    ghost use Rattle.model_processor.specs.Worker.{new_worker};

    ghost after = { λ _ setup. worker (setup_view setup) new_worker };
}

/// What a pass, the worker or the processor holds: its account.
pub(crate) type Account<J> = account_book::Account<J, BatchState>;

/// The accounts of one processor, before it is made: `BatchProcessor::new` opens them. In contracts
/// it is their name, by which a type parameter names this one processor.
pub type BatchBlank = Blank<BatchState>;
