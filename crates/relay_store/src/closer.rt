//! What gives bodies up in the end.
ghost use Rattle.std.specs.Prelude.{◌≡◌};
ghost use Rattle.relay_store.specs.Handlers.{GivesUp};

use crate::account::Account;
use crate::accounted::Accounted;
use crate::sender::{is_named, note};
use account_book::Naming;
use relay_queue::{LostSink, name_ended};
use retry_core::Fate;
use spool::Device;
use std::fmt;
use std::marker::Model;
use std::sync::{Mutex, Wait};

/// What gives up the bodies of one relay in the end, with its account. In contracts it is the list
/// of the bodies that were given up, if that was done.
#[derive(Drop)]
pub struct Closer<J: Naming> {
    pub(crate) account: Account<J>,
}

impl<J: Naming> Model for Closer<J> {
    ghost use Rattle.std.specs.Prelude.{◌≡◌, ℕ, List, Option};
    ghost use Rattle.relay_store.specs.Accounts.{closed_in, closes};

    ghost Value = { Option (List (List ℕ)) };

    ghost view = { λ c. closed_in c.account };

    ghost invariant = { λ c. c.account ≡ closes (closed_in c.account) };
}

/// Writes the name of the type alone.
impl<J: Naming> fmt::Debug for Closer<J> {
    fn fmt<W: fmt::Write>(&self, f: &mut fmt::Formatter<W>) -> fmt::Result {
        f.debug_struct("Closer").finish_non_exhaustive()
    }
}

impl<J: Naming> Closer<J> {
    /// Gives up all bodies that are kept in memory, those of a batch that is out with them: the
    /// spans of each are named, as abandoned. From then on no body is kept. With a spool they stay
    /// in it, and nothing is changed. An outcome that is to be judged is to be finished before.
    /// (profile)
    pub fn drain<R: Wait, D: Device, S: LostSink>(
        &mut self,
        rt: &R,
        kept: &Mutex<Accounted<J, D>>,
        sink: &mut S,
    )
        ensures { GivesUp self.old self.new (S.named sink.old) (S.named sink.new) }
    {
        let mut hold = kept.lock(rt);
        let ended = hold.give_up(&mut self.account);
        drop(hold);
        name_ended(&ended.bodies, Fate::Abandoned, sink);
        let _ = is_named(&ended, Fate::Abandoned, sink);
        note(rt, kept, &ended, Fate::Abandoned);
    }
}
