//! The desk itself.
ghost use Rattle.std.specs.Prelude.{◌≡◌, ◌+◌, ◌-◌, ◌↔◌, ◌++◌, ◌∷◌, [], true, false, length, take};
ghost use Rattle.std.specs.Prelude.{IfErr, IfOk, IfSome, IsNone, IsTrue, OnErr, OnOk};
ghost use Rattle.model_body.specs.Histories as events;
ghost use Rattle.model_body.specs.Histories.{again, ended_count, idle, is_out, joined};
ghost use Rattle.model_body.specs.Desks.{Does, HasRoom, IsDesk, after_settled, memory_of};
ghost use Rattle.model_body.specs.Desks.{new_desk};
ghost use Rattle.retry_core.specs.Retries.{fate_view};
ghost use Rattle.relay_queue.specs.Bodies.{MayNotTake, MayTake, bodies_view, config_view};

use crate::config::BodyConfig;
use crate::counts::BodyCounts;
use crate::fate::{counts_after, is_split};
use crate::fault::AdmitFault;
use crate::line::{Line, OVERHEAD};
use crate::turn::Turn;
use otlp_ids::OutOfMemory;
use retry_core::Fate;
use std::alloc::{Allocator, Global};
use std::marker::Model;
use std::mem;

/// The bodies that a relay keeps to hand them on, the batch that is out, and counts (profile). In
/// contracts it is the model's `BodyDesk`.
pub struct BodyDesk<A: Allocator = Global> {
    config: BodyConfig,
    line: Line<A>,
    // Room for the bodies of the batch that is out, or is to be sent again.
    ended: Vec<Vec<u8, A>, A>,
    turn: Turn,
    size: usize,
    alone: usize,
    admitted: u64,
    delivered: u64,
    lost: u64,
}

/// By hand: a derived one would be proved again in each crate that drops it.
impl<A: Allocator> Drop for BodyDesk<A> {
    fn drop(self) {
        let Self {
            config: _,
            line: _,
            ended: _,
            turn: _,
            size: _,
            alone: _,
            admitted: _,
            delivered: _,
            lost: _,
        } = self;
    }
}

impl<A: Allocator> Model for BodyDesk<A> {
    ghost use Rattle.model_body.specs.Desks.{BodyDesk};

    ghost Value = { BodyDesk };

    ghost use Rattle.relay_queue.specs.Inside.{IsSound, desk_view};

    ghost view = { desk_view };

    ghost invariant = { IsSound };
}

impl<A: Allocator + Copy> BodyDesk<A> {
    /// A desk that keeps no body. It takes no memory.
    pub fn new(alloc: A, config: BodyConfig) -> BodyDesk<A>
        ensures desk { result ≡ new_desk (config_view config) }
        ensures history { IsDesk [] result }
    {
        BodyDesk {
            config,
            line: Line::new(alloc),
            ended: Vec::new(alloc),
            turn: Turn::Idle,
            size: 0,
            alone: 0,
            admitted: 0,
            delivered: 0,
            lost: 0,
        }
    }

    /// Ends the batch that is out, as `is_out` says, by this fate (OTLP Specification, "OTLP/HTTP
    /// Response"), and hands out the bodies that end with it, the first one first: where that is a
    /// loss (`is_loss`), the caller names their spans. A batch of several bodies that was refused,
    /// or whose reply can't be read, is split: no body ends, and each of them is sent once more,
    /// alone. It takes no memory. (profile)
    pub fn settle(&mut self, fate: Fate) -> Vec<Vec<u8, A>, A>
        requires { self.old.turn ≡ is_out }
        ensures ended { bodies_view result.items
            ≡ take (ended_count (fate_view fate) self.old.size) self.old.kept }
        ensures desk { self.new ≡ after_settled (fate_view fate) self.old }
        ensures history { Does (events.settled (fate_view fate)) self.old self.new }
    {
        let count = self.size;
        let empty = Vec::new(*self.ended.allocator());
        self.turn = Turn::Idle;
        if is_split(fate, count) {
            self.alone = count;
            return empty;
        }
        let (delivered, lost) = counts_after(fate, count as u64, self.delivered, self.lost);
        self.delivered = delivered;
        self.lost = lost;
        self.alone = self.alone.saturating_sub(count);
        let mut ended = mem::replace(&mut self.ended, empty);
        self.line.move_first(count, &mut ended);
        ended
    }

    /// Gives up all bodies that are kept, the batch that is out with them, and hands them out, the
    /// first one first: the caller names their spans, as abandoned. It takes no memory. (profile)
    pub fn drain(&mut self) -> Vec<Vec<u8, A>, A>
        ensures bodies { bodies_view result.items ≡ self.old.kept }
        ensures desk { self.new ≡ record self.old {
          kept = [];
          turn = idle;
          alone = self.old.alone - length self.old.kept;
          lost = self.old.lost + length self.old.kept;
        } }
        ensures history { Does (events.drained (length self.old.kept)) self.old self.new }
    {
        let count = self.line.len();
        self.turn = Turn::Idle;
        self.alone = self.alone.saturating_sub(count);
        self.lost += count as u64;
        self.line.take_all()
    }
}

impl<A: Allocator> BodyDesk<A> {
    /// Whether a body has no room: the memory for all would be passed, or 2^64 - 1 bodies were
    /// admitted.
    fn is_full(&self, body: &Vec<u8, A>) -> bool
        ensures full { result ≡ true → ¬ HasRoom self.now body.now.items }
        ensures room { result ≡ false → HasRoom self.now body.now.items }
    {
        if self.admitted == u64::MAX {
            return true;
        }
        body.len() + OVERHEAD > self.config.memory_bytes - self.line.memory()
    }

    /// Keeps a body, after the others, to be sent. It counts with its length, so the caller hands
    /// it in without spare capacity. (profile)
    ///
    /// # Errors
    ///
    /// The body, with `Full` where the memory for all bodies would be passed, or 2^64 - 1 bodies were
    /// admitted, or else with `OutOfMemory` where memory was refused. Nothing is changed then.
    pub fn admit(&mut self, body: Vec<u8, A>) -> Result<(), (AdmitFault, Vec<u8, A>)>
        ensures full { IfErr result (λ e. (e.0 ≡ AdmitFault.Full)
            ↔ ¬ HasRoom self.old body.items) }
        ensures admitted { OnOk result (HasRoom self.old body.items) }
        ensures desk { OnOk result (self.new ≡ record self.old {
          kept = self.old.kept ++ body.items ∷ [];
          admitted = self.old.admitted + 1;
        }) }
        ensures history { OnOk result (Does (events.admitted body.items) self.old self.new) }
        ensures handed_back { IfErr result (λ e. e.1 ≡ body) }
        ensures unchanged { OnErr result (self.new ≡ self.old) }
    {
        if self.is_full(&body) {
            return Err((AdmitFault::Full, body));
        }
        if let Err(body) = self.line.push(body) {
            return Err((AdmitFault::OutOfMemory, body));
        }
        self.admitted += 1;
        Ok(())
    }

    /// How many bodies the next batch has, if one may be taken.
    fn next_size(&self) -> Option<usize>
        ensures none { IsNone result → MayNotTake self.now }
        ensures some { IfSome result (MayTake self.now) }
    {
        if self.line.is_empty() {
            return None;
        }
        match self.turn {
            Turn::Out => None,
            Turn::Again => Some(self.size),
            Turn::Idle => {
                if self.alone > 0 {
                    return Some(1);
                }
                Some(self.line.fitting(self.config.batch_bytes))
            }
        }
    }

    /// Takes the next batch, and appends what it is sent as to `out`: the bytes of its bodies, one
    /// body after the other (Protocol Buffers, Encoding, "Last One Wins"). The answer is how many
    /// bodies it has: as many as fit into a batch, and at least one; the same as before where the
    /// last batch is to be sent again; one where a batch was split. `None` where no body is kept,
    /// or a batch is out; nothing is changed then. (profile)
    ///
    /// # Errors
    ///
    /// `OutOfMemory` where memory was refused. Nothing is changed then.
    pub fn take(&mut self, out: &mut Vec<u8, A>) -> Result<Option<usize>, OutOfMemory>
        ensures none { result ≡ Ok None → MayNotTake self.old }
        ensures nothing_to_take { MayNotTake self.old → result ≡ Ok None }
        ensures some { IfOk result (λ o. IfSome o (MayTake self.old)) }
        ensures joined { IfOk result (λ o. IfSome o (λ n.
            out.new.items ≡ out.old.items ++ joined (take n self.old.kept))) }
        ensures desk { IfOk result (λ o. IfSome o (λ n.
            self.new ≡ record self.old { turn = is_out; size = n })) }
        ensures history { IfOk result (λ o. IfSome o (λ n.
            Does (events.taken n) self.old self.new)) }
        ensures unchanged { result ≡ Ok None → (self.new ≡ self.old)
            × (out.new.items ≡ out.old.items) }
        ensures refused { OnErr result ((self.new ≡ self.old)
            × (out.new.items ≡ out.old.items)) }
    {
        let Some(count) = self.next_size() else {
            return Ok(None);
        };
        self.ended.reserve(count)?;
        self.line.join(count, out)?;
        self.turn = Turn::Out;
        self.size = count;
        Ok(Some(count))
    }

    /// Whether a batch is out: it was taken, and it is not known what comes of it.
    pub fn is_out(&self) -> bool
        ensures { IsTrue result ↔ (self.now.turn ≡ is_out) }
    {
        matches!(self.turn, Turn::Out)
    }

    /// Whether the next batch is the last one, which is to be sent again.
    pub fn is_again(&self) -> bool
        ensures { IsTrue result ↔ (self.now.turn ≡ again) }
    {
        matches!(self.turn, Turn::Again)
    }

    /// Notes that the batch that is out, as `is_out` says, is to be sent again: the next one that
    /// is taken has the same bodies. (profile)
    pub fn later(&mut self)
        requires { self.old.turn ≡ is_out }
        ensures desk { self.new ≡ record self.old { turn = again } }
        ensures history { Does events.later self.old self.new }
    {
        self.turn = Turn::Again;
    }

    /// Its settings.
    pub fn config(&self) -> BodyConfig
        ensures { config_view result ≡ self.now.config }
    {
        self.config
    }

    /// The counts of all bodies so far.
    pub fn counts(&self) -> BodyCounts
        ensures admitted { result.admitted ≡ self.now.admitted }
        ensures delivered { result.delivered ≡ self.now.delivered }
        ensures lost { result.lost ≡ self.now.lost }
        ensures kept { result.kept ≡ length self.now.kept }
        ensures memory { result.memory ≡ memory_of self.now.kept }

        // Those that were admitted were delivered, are lost, or are kept.
        ensures sum { result.admitted ≡ result.delivered + result.lost + result.kept }
    {
        BodyCounts {
            admitted: self.admitted,
            delivered: self.delivered,
            lost: self.lost,
            kept: self.line.len() as u64,
            memory: self.line.memory(),
        }
    }
}
