//! What is kept for several threads, and those who share it.
ghost use Rattle.std.specs.Prelude.{◌≡◌, [], None, false};
ghost use Rattle.model_body.specs.Desks.{new_desk};
ghost use Rattle.relay_queue.specs.Senders.{has_batch};
ghost use Rattle.relay_store.specs.Kept.{remaining_in};
ghost use Rattle.relay_store.specs.Accounts.{new_sent, started_with};

use crate::Keeping;
use crate::account::{Closes, RelayBlank, SaidState, Sends, Starting};
use crate::accounted::Accounted;
use crate::closer::Closer;
use crate::keeper::Poster;
use crate::sender::RelaySender;
use account_book::Naming;
use relay_queue::BodySender;
use spool::Device;
use std::snapshot::Snapshot;

/// What is kept, and those who share it once it is under a lock: what keeps bodies, what sends
/// them, and what gives them up in the end.
#[derive(Drop)]
pub struct RelayParts<J: Naming, D: Device> {
    /// What is kept.
    pub kept: Accounted<J, D>,
    /// The account of what keeps bodies, of which a [`SharedKeeper`](crate::SharedKeeper) is made.
    pub poster: Poster<J>,
    /// What sends bodies.
    pub sender: RelaySender<J>,
    /// What gives them up.
    pub closer: Closer<J>,
}

impl<J: Naming, D: Device> RelayParts<J, D> {
    /// The parts of a relay. The blank becomes the accounts: a type parameter gives their name, and
    /// so names this one relay. Nothing is in memory yet, and the sender has no batch in hand; its
    /// account says which bodies wait in the spool. It takes no memory.
    pub fn new(blank: RelayBlank, keeping: Keeping<D>, sender: BodySender) -> RelayParts<J, D>
        requires blank { blank ≡ J.name }
        requires new { keeping.desk ≡ new_desk keeping.desk.config }
        requires free { has_batch sender.stage ≡ false }
        ensures kept { result.kept ≡ keeping }
        ensures poster { result.poster ≡ [] }
        ensures sender { result.sender ≡ record {
          sender = sender;
          sent = started_with (remaining_in D.files keeping) new_sent;
        } }
        ensures closer { result.closer ≡ None }
    {
        let mut book = blank.named::<J>();
        let poster = book.open::<SaidState>();
        let mut sends = book.open::<Sends>();
        let closes = book.open::<Closes>();
        let seen = Snapshot::of(&keeping);
        book.record::<Snapshot<Keeping<D>>, Starting>(&mut sends, &seen);
        RelayParts {
            kept: Accounted::new(keeping, book),
            poster: Poster { account: poster },
            sender: RelaySender {
                sender,
                account: sends,
                unnamed: None,
            },
            closer: Closer { account: closes },
        }
    }
}
