//! What the accounts of a relay say, and how that changes.
use crate::Keeping;
use account_book::{Blank, Change, Opening};
use retry_core::Next;
use spool::Device;
use std::marker::{Model, PhantomData};
use std::snapshot::Snapshot;

/// What an account says: the bodies that were kept through it, or what the sender knows, or the
/// bodies that were given up. No value of it is made.
pub struct SaidState {
    marker: PhantomData<()>,
}

impl Model for SaidState {
    ghost use Rattle.std.specs.Prelude.{[]};
    ghost use Rattle.relay_store.specs.Accounts.{Said, posts};

    ghost Value = { Said };

    ghost view = { λ _. posts [] };
}

/// The account of one that keeps bodies, and has kept none.
impl Opening<SaidState> for SaidState {
    ghost use Rattle.std.specs.Prelude.{[]};
    ghost use Rattle.relay_store.specs.Accounts.{posts};

    ghost first = { posts [] };
}

/// The account of a sender that has done nothing.
pub(crate) struct Sends;

impl Opening<SaidState> for Sends {
    ghost use Rattle.relay_store.specs.Accounts.{new_sent, sends};

    ghost first = { sends new_sent };
}

/// The account of one that has given up nothing.
pub(crate) struct Closes;

impl Opening<SaidState> for Closes {
    ghost use Rattle.std.specs.Prelude.{None};
    ghost use Rattle.relay_store.specs.Accounts.{closes};

    ghost first = { closes None };
}

/// Bodies wait in the spool at the start.
pub(crate) struct Starting;

impl<D: Device> Change<SaidState, Snapshot<Keeping<D>>> for Starting {
    ghost use Rattle.relay_store.specs.Kept.{remaining_in};
    ghost use Rattle.relay_store.specs.Accounts.{sends, sent_in, started_with};

    ghost after = { λ said kept.
        sends (started_with (remaining_in D.files kept.value) (sent_in said)) };
}

/// Bodies are kept.
pub(crate) struct Posting;

impl Change<SaidState, Snapshot<Vec<u8>>> for Posting {
    ghost use Rattle.std.specs.Prelude.{[], ◌∷◌};
    ghost use Rattle.relay_store.specs.Accounts.{after_posts};

    ghost after = { λ said body. after_posts (body.value.items ∷ []) said };
}

impl Change<SaidState, Vec<Vec<u8>>> for Posting {
    ghost use Rattle.relay_queue.specs.Bodies.{bodies_view};
    ghost use Rattle.relay_store.specs.Accounts.{after_posts};

    ghost after = { λ said bodies. after_posts (bodies_view bodies.items) said };
}

/// The desk has the bodies that were read from the spool.
pub(crate) struct Reading;

impl<D: Device> Change<SaidState, Snapshot<Keeping<D>>> for Reading {
    ghost use Rattle.relay_store.specs.Accounts.{read_from, sends, sent_in};

    ghost after = { λ said kept. sends (read_from kept.value.desk.kept (sent_in said)) };
}

/// A batch is taken, which leaves this desk.
pub(crate) struct Taking;

impl<D: Device> Change<SaidState, Snapshot<Keeping<D>>> for Taking {
    ghost use Rattle.relay_store.specs.Accounts.{last_batch, sends, sent_in, taken_from};

    ghost after = { λ said kept. sends (taken_from (last_batch kept.value.desk) (sent_in said)) };
}

/// What follows from an outcome is noted.
pub(crate) struct Noting;

impl Change<SaidState, Next> for Noting {
    ghost use Rattle.retry_core.specs.Retries.{next_view};
    ghost use Rattle.relay_store.specs.Accounts.{noted_from, sends, sent_in};

    ghost after = { λ said next. sends (noted_from (next_view next) (sent_in said)) };
}

/// Nothing is noted of a batch, since all bodies were given up.
pub(crate) struct Freeing;

impl Change<SaidState, ()> for Freeing {
    ghost use Rattle.relay_store.specs.Accounts.{freed_from, sends, sent_in};

    ghost after = { λ said told. sends (freed_from (sent_in said)) };
}

/// The spool is opened again, and what the desk had is to be read again.
pub(crate) struct Returning;

impl<D: Device> Change<SaidState, Snapshot<Keeping<D>>> for Returning {
    ghost use Rattle.relay_store.specs.Accounts.{returned_from, sends, sent_in};

    ghost after = { λ said kept. sends (returned_from kept.value.desk.kept (sent_in said)) };
}

/// All bodies are given up.
pub(crate) struct GivingUp;

impl Change<SaidState, Snapshot<Vec<Vec<u8>>>> for GivingUp {
    ghost use Rattle.relay_queue.specs.Bodies.{bodies_view};
    ghost use Rattle.relay_store.specs.Accounts.{after_closing};

    ghost after = { λ said bodies. after_closing (bodies_view bodies.value.items) said };
}

/// The accounts of one relay, before it is made. In contracts it is their name, by which a type
/// parameter names this one relay.
pub type RelayBlank = Blank<SaidState>;

/// The account of one of those who share what is kept.
pub(crate) type Account<J> = account_book::Account<J, SaidState>;
