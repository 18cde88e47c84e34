//! What the server's thread keeps bodies with.
ghost use Rattle.std.specs.Prelude.{◌≡◌, [], IfSome};
ghost use Rattle.relay_store.specs.Balances.{Balances};
ghost use Rattle.relay_store.specs.Together.{IsAt};

use crate::account::Account;
use crate::accounted::Accounted;
use crate::closer::Closer;
use crate::holdings::Holdings;
use crate::sender::RelaySender;
use account_book::Naming;
use relay_queue::{BodyKeeper, KeepFault, LostSpan, Report};
use spool::Device;
use std::alloc::{AllocError, Global};
use std::marker::Model;
use std::sync::{Arc, Mutex, Wait};
use std::{fmt, mem};

/// This many bodies are kept together at most.
const MOST_BODIES: usize = 256;

/// This many bytes of bodies are kept together at most.
const MOST_BYTES: usize = 4 * 1024 * 1024;

/// The account of what keeps the bodies of one relay. In contracts it is the list of those that
/// were kept through it.
#[derive(Drop)]
pub struct Poster<J: Naming> {
    pub(crate) account: Account<J>,
}

impl<J: Naming> Model for Poster<J> {
    ghost use Rattle.std.specs.Prelude.{◌≡◌, ℕ, List};
    ghost use Rattle.relay_store.specs.Accounts.{posted_in, posts};

    ghost Value = { List (List ℕ) };

    ghost view = { λ p. posted_in p.account };

    ghost invariant = { λ p. p.account ≡ posts (posted_in p.account) };
}

/// Writes the name of the type alone.
impl<J: Naming> fmt::Debug for Poster<J> {
    fn fmt<W: fmt::Write>(&self, f: &mut fmt::Formatter<W>) -> fmt::Result {
        f.debug_struct("Poster").finish_non_exhaustive()
    }
}

/// Keeps bodies under the lock that it shares with the sender's thread. Each call takes the lock
/// once. What it says of a call is a step at what was kept in that hold, whatever that was, and at
/// its account.
///
/// Where it collects, the bodies of a round are kept in one hold, with one sync of the spool. In
/// contracts it is a `Keeper`: the bodies that were kept, those of them that were kept together and
/// not recalled since, and those that were collected.
#[derive(Drop)]
pub struct SharedKeeper<J: Naming, R, D: Device> {
    rt: R,
    alloc: Global,
    kept: Arc<Mutex<Accounted<J, D>>, Global>,
    account: Account<J>,
    // Whether bodies are kept together.
    is_collecting: bool,
    // The bodies that are to be kept together, with the sums of their bytes and spans.
    collected: Vec<Vec<u8>>,
    bytes: usize,
    spans: u64,
    // The bodies that were kept together and not recalled since.
    recallable: Vec<Vec<u8>>,
}

impl<J: Naming, R, D: Device> Model for SharedKeeper<J, R, D> {
    ghost use Rattle.relay_store.specs.Sharing.{IsSharing, Keeper, keeper_view};

    ghost Value = { Keeper };

    ghost view = { keeper_view };

    ghost invariant = { IsSharing D.is_known D.files D.moment D.left_at };
}

impl<J: Naming, R, D: Device> SharedKeeper<J, R, D> {
    /// One that shares this lock, with the account of what is kept there. It collects bodies, to
    /// keep them together, if it is told so, as where they are kept in a spool.
    pub fn new(
        rt: R,
        alloc: Global,
        kept: Arc<Mutex<Accounted<J, D>>, Global>,
        poster: Poster<J>,
        is_collecting: bool,
    ) -> SharedKeeper<J, R, D>
        ensures { result ≡ record { posted = poster; recallable = []; collected = [] } }
    {
        let Poster { account } = poster;
        SharedKeeper {
            rt,
            alloc,
            kept,
            account,
            is_collecting,
            collected: Vec::new(alloc),
            bytes: 0,
            spans: 0,
            recallable: Vec::new(alloc),
        }
    }
}

impl<J: Naming, R: Wait, D: Device> SharedKeeper<J, R, D> {
    /// Shows what became of all bodies, for every interleaving of the calls of this keeper, of the
    /// sender and of what gives bodies up. Without a spool each that was kept through this keeper
    /// was delivered, lost by name or given up by name, or is kept in memory. In a spool that never
    /// failed, the bodies that waited at the start, followed by those that were kept, are in order
    /// those that were delivered or lost by name, followed by those that wait. Of a spool that
    /// failed, each body that the sender read from it ended, went back to it, or is in memory.
    /// Nothing is changed. (OTLP Specification, "OTLP/HTTP Response"; profile)
    pub fn balance(&mut self, sender: &mut RelaySender<J>, closer: &mut Closer<J>) -> Holdings
        ensures balance { Balances D.is_known result self.old.posted sender.old.sent closer.old }
        ensures keeper { self.new ≡ self.old }
        ensures sender { sender.new ≡ sender.old }
        ensures closer { closer.new ≡ closer.old }
    {
        let mut hold = self.kept.lock(&self.rt);
        hold.balance(&mut self.account, &mut sender.account, &mut closer.account)
    }
}

/// Where a body with these bytes is.
fn index_of(bodies: &[Vec<u8>], content: &[u8]) -> Option<usize>
    ensures { IfSome result (λ index. IsAt bodies.now index content.now) }
{
    for index in 0..bodies.len() {
        if bodies[index].as_slice() == content {
            return Some(index);
        }
    }
    None
}

impl<J: Naming, R: Wait, D: Device> BodyKeeper for SharedKeeper<J, R, D> {
    ghost use Rattle.relay_store.specs.Holds.{FailsInHold, LacksInHold, ReportsInHold};
    ghost use Rattle.relay_store.specs.Sharing.{Answers, CollectsBody, KeepsCollected};

    ghost keeps = { λ old body new. Answers D.is_known D.files D.moment D.left_at body old new };

    ghost lacks_room = { λ _ body. LacksInHold D.is_known D.files body };

    ghost fails = { λ old _ new. FailsInHold D × (new ≡ old) };

    ghost collects_body = { CollectsBody };

    ghost keeps_collected = { KeepsCollected };

    ghost reports = { λ _ report. ReportsInHold D report };

    fn keep(&mut self, body: Vec<u8>, spans: usize) -> Result<(), KeepFault> {
        let mut hold = self.kept.lock(&self.rt);
        hold.keep(&mut self.account, body, spans)
    }

    fn collects(&self) -> bool {
        self.is_collecting
    }

    fn collect(&mut self, body: Vec<u8>, spans: usize) {
        let bytes = self.bytes.saturating_add(body.len());
        if bytes > MOST_BYTES || self.collected.len() >= MOST_BODIES {
            return;
        }
        if self.collected.push(body).is_ok() {
            self.bytes = bytes;
            self.spans = self.spans.saturating_add(spans as u64);
        }
    }

    fn keep_collected(&mut self) {
        let bodies = mem::replace(&mut self.collected, Vec::new(self.alloc));
        let spans = mem::replace(&mut self.spans, 0);
        self.bytes = 0;
        self.recallable = Vec::new(self.alloc);
        if bodies.is_empty() {
            return;
        }
        let mut hold = self.kept.lock(&self.rt);
        let are_kept = hold.keep_together(&mut self.account, &bodies, spans);
        drop(hold);
        if are_kept {
            self.recallable = bodies;
        }
    }

    fn recall(&mut self, content: &[u8]) -> bool {
        let Some(index) = index_of(&self.recallable, content) else {
            return false;
        };
        let _body = self.recallable.remove(index);
        true
    }

    fn report(&self) -> Report {
        let hold = self.kept.lock(&self.rt);
        hold.report()
    }

    fn lost(&self, alloc: Global, most: usize) -> Result<Vec<LostSpan>, AllocError> {
        let hold = self.kept.lock(&self.rt);
        hold.lost(alloc, most)
    }
}
