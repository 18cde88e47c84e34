//! The passes of a simple processor.
ghost use Rattle.std.specs.Prelude.{◌≡◌, IfNone, IfSome};
ghost use Rattle.otlp_span.specs.Dropped.{entry_view};
ghost use Rattle.model_processor.specs.Passes.{after_pop, after_pop_lost};
ghost use Rattle.simple_processor.specs.Accounts.{after_shutdown};

use crate::account::SimpleState;
use crate::shared::Shared;
use account_book::{Account, Naming};
use otlp_span::{Entry, SpanData};
use span_exporter::Exporter;
use std::alloc::{Allocator, Global};
use std::fmt;
use std::marker::Model;
use std::sync::{Arc, Mutex, Wait};
use trace_api::{EndPass, Ended};

/// All spans that ended before the call have been handed to the exporter or dropped.
#[derive(Debug, Clone, Copy, PartialEq, Eq)]
pub struct Flushed;

/// One thread's way to a simple processor: what its spans go to at their end. In contracts it is
/// what it knows: how each of its spans was answered, what it popped, how often it was late and
/// called shutdown. Each call takes the lock once, and waits while another thread has it. On the
/// heap a pass may go to another thread where its exporter and the runtime's value may: what
/// `thread::spawn` asks its caller to show is the lemma `pass_send` of `proofs/Crosses.antt`.
#[derive(Drop)]
pub struct SimplePass<J: Naming, E: Exporter, R, A: Allocator = Global> {
    pub(crate) shared: Arc<Mutex<Shared<J, E, A>>, A>,
    pub(crate) account: Account<J, SimpleState>,
    pub(crate) rt: R,
}

impl<J: Naming, E: Exporter, R, A: Allocator> Model for SimplePass<J, E, R, A> {
    ghost use Rattle.std.specs.Prelude.{◌≡◌};
    ghost use Rattle.model_processor.specs.Passes.{PassAccount};
    ghost use Rattle.simple_processor.specs.AnyAccounts.{account_in, pass};

    ghost Value = { PassAccount };

    ghost view = { λ p. account_in p.account };

    ghost invariant = { λ p. p.account ≡ pass (account_in p.account) };
}

/// Writes the name of the type alone: the lock guards what a pass shares, which isn't looked at.
impl<J: Naming, E: Exporter, R, A: Allocator> fmt::Debug for SimplePass<J, E, R, A> {
    fn fmt<W: fmt::Write>(&self, f: &mut fmt::Formatter<W>) -> fmt::Result {
        f.debug_struct("SimplePass").finish_non_exhaustive()
    }
}

impl<J: Naming, E: Exporter, R: Wait, A: Allocator + Copy> SimplePass<J, E, R, A> {
    /// Waits for the spans that ended before (Trace SDK, "ForceFlush"): a simple processor hands
    /// each over at its end, so to take the lock is enough.
    pub fn force_flush(&mut self) -> Flushed
        ensures { self.new ≡ self.old }
    {
        drop(self.shared.lock(&self.rt));
        Flushed
    }

    /// Admits no span any more, on any pass (Trace SDK, "Shutdown"): those that end from now on are
    /// late. A later shutdown changes nothing.
    pub fn shutdown(&mut self) -> Flushed
        ensures { self.new ≡ after_shutdown self.old }
    {
        let SimplePass {
            shared,
            account,
            rt,
        } = self;
        shared.lock(rt).shutdown(account);
        Flushed
    }

    /// Takes the newest entry out of the ledger, if there is one.
    pub fn pop_entry(&mut self) -> Option<Entry>
        ensures some { IfSome result (λ entry. self.new ≡ after_pop (entry_view entry) self.old) }
        ensures none { IfNone result (self.new ≡ self.old) }
    {
        let SimplePass {
            shared,
            account,
            rt,
        } = self;
        shared.lock(rt).pop_entry(account)
    }

    /// Takes the newest entry out of the ledger of lost spans, if there is one: of a span that was
    /// handed to the exporter, and whose attempt failed (profile).
    pub fn pop_lost(&mut self) -> Option<Entry>
        ensures some { IfSome result
            (λ entry. self.new ≡ after_pop_lost (entry_view entry) self.old) }
        ensures none { IfNone result (self.new ≡ self.old) }
    {
        let SimplePass {
            shared,
            account,
            rt,
        } = self;
        shared.lock(rt).pop_lost(account)
    }
}

impl<J: Naming, E: Exporter, R: Wait, A: Allocator + Copy> EndPass<SpanData<A>>
    for SimplePass<J, E, R, A> {
    ghost use Rattle.simple_processor.specs.Accounts.{AdmitsSpan};

    ghost admits = { AdmitsSpan };

    /// Encodes the span alone and hands its body to the exporter, in one attempt, numbered with
    /// its ticket and 1: `Handed`. Where memory is refused, or the body would be longer than it may
    /// be, the ledger names the span on its own slip: `Dropped`, as `EncodeMemory` or `TooLarge`.
    /// After a shutdown the span is only counted: `Late`. Tickets are given from 0 on; where the
    /// next would be 2^64 - 1, none is given any more, as after a shutdown (profile: tickets, the
    /// ledger, the greatest body, late spans).
    fn admit(&mut self, span: SpanData<A>) -> Ended {
        let SimplePass {
            shared,
            account,
            rt,
        } = self;
        shared.lock(rt).admit(account, span)
    }
}
