//! What the accounts of a simple processor say.
use account_book::{Blank, Change};
use processor_account::AccountState;
use span_exporter::Exporter;
use std::marker::{Model, PhantomData};
use std::snapshot::Snapshot;

/// What a simple processor begins with. No value of it is made.
pub struct SimpleOrigin {
    marker: PhantomData<()>,
}

impl Model for SimpleOrigin {
    ghost use Rattle.simple_processor.specs.AnyAccounts.{Origin, new_origin};

    ghost Value = { Origin };

    ghost view = { λ _. new_origin };
}

/// What an account says: what a processor began with, or what a pass knows.
pub type SimpleState = AccountState<SimpleOrigin>;

/// With what a processor begins: how many passes it has, the greatest body, and its exporter.
#[derive(Drop)]
pub(crate) struct Began<E> {
    pub(crate) passes: usize,
    pub(crate) max_body: usize,
    pub(crate) exporter: Snapshot<E>,
}

/// A processor begins.
pub(crate) struct Begins<E>(PhantomData<E>);

impl<E: Exporter> Change<SimpleState, Began<E>> for Begins<E> {
    ghost use Rattle.simple_processor.specs.AnyAccounts.{processor};

    ghost after = { λ _ began. processor (record {
      passes = began.passes;
      had = E.handed began.exporter.value;
      max_body = began.max_body;
    }) };
}

/// A pass calls shutdown.
pub(crate) struct ShutsDown;

impl Change<SimpleState, ()> for ShutsDown {
    ghost use Rattle.simple_processor.specs.Accounts.{after_shutdown};
    ghost use Rattle.simple_processor.specs.AnyAccounts.{on_pass};

    ghost after = { λ holder _. on_pass after_shutdown holder };
}

/// The accounts of one processor, before it is made: `SimpleProcessor::new` opens them. In
/// contracts it is their name, by which a type parameter names this one processor.
pub type SimpleBlank = Blank<SimpleState>;
