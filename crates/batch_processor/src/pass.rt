//! The passes of a batch processor.
ghost use Rattle.std.specs.Prelude.{◌≡◌, IfNone, IfSome};
ghost use Rattle.otlp_span.specs.Dropped.{entry_view};
ghost use Rattle.model_processor.specs.Passes.{after_drain, after_pop, after_pop_lost};
ghost use Rattle.batch_processor.specs.Answers.{AsksShutdown, IsFlushed, IsShutDown};
ghost use Rattle.batch_processor.specs.Holds.{WasCounted};

use crate::fault::WorkerLeft;
use crate::lock::Holder;
use account_book::Naming;
use batch_desk::{DrainedNames, Totals};
use otlp_span::{Entry, SpanData};
use std::alloc::{Allocator, Global};
use std::fmt;
use std::marker::Model;
use std::sync::Wait;
use trace_api::{EndPass, Ended};

/// All spans that were accepted before the call were handed to the exporter and settled, or
/// dropped.
#[derive(Debug, Clone, Copy, PartialEq, Eq)]
pub struct Flushed;

/// One thread's way to a batch processor: what its spans go to at their end. In contracts it is
/// what it knows: how each of its spans was answered, what it popped, how often it was late and
/// called shutdown, and the floor below which all is flushed. An end takes the lock once. On the
/// heap a pass may go to another thread where the runtime's value may: what `thread::spawn` asks
/// its caller to show is the lemma `pass_send` of `proofs/Crosses.antt`.
#[derive(Drop)]
pub struct Pass<J: Naming, R, A: Allocator = Global> {
    pub(crate) holder: Holder<J, R, A>,
}

impl<J: Naming, R, A: Allocator> Model for Pass<J, R, A> {
    ghost use Rattle.std.specs.Prelude.{◌≡◌};
    ghost use Rattle.model_processor.specs.Passes.{PassAccount};
    ghost use Rattle.model_processor.specs.AnyAccounts.{account_in, pass};

    ghost Value = { PassAccount };

    ghost view = { λ p. account_in p.holder };

    ghost invariant = { λ p. p.holder ≡ pass (account_in p.holder) };
}

/// Writes the name of the type alone: what the lock guards isn't looked at.
impl<J: Naming, R, A: Allocator> fmt::Debug for Pass<J, R, A> {
    fn fmt<W: fmt::Write>(&self, f: &mut fmt::Formatter<W>) -> fmt::Result {
        f.debug_struct("Pass").finish_non_exhaustive()
    }
}

impl<J: Naming, R: Wait, A: Allocator + Copy> Pass<J, R, A> {
    /// Waits until all spans that were accepted before are handed to the exporter and settled, or
    /// dropped (Trace SDK, "ForceFlush").
    ///
    /// # Errors
    ///
    /// `WorkerLeft` where they are not, and the worker has left, be it before the call or while it
    /// waits. (profile)
    pub fn force_flush(&mut self) -> Result<Flushed, WorkerLeft>
        ensures { IsFlushed result self.old self.new }
    {
        let mark = self.holder.ask(false);
        self.holder.wait(mark)
    }

    /// Admits no span any more, on any pass, and waits as `force_flush` (Trace SDK, "Shutdown").
    ///
    /// # Errors
    ///
    /// `WorkerLeft` as `force_flush`; no span is admitted any more then either.
    pub fn shutdown(&mut self) -> Result<Flushed, WorkerLeft>
        ensures { IsShutDown result self.old self.new }
    {
        let mark = self.holder.ask(true);
        self.holder.wait(mark)
    }

    /// Admits no span any more, on any pass, as `shutdown` does, and doesn't wait: the worker goes
    /// on with those that wait. (Trace SDK, "Shutdown"; that it doesn't wait: profile)
    pub fn begin_shutdown(&mut self)
        ensures { AsksShutdown self.old self.new }
    {
        self.holder.ask(true);
    }

    /// The counts of all that came so far, on any pass, with what the worker did: as they are in
    /// one hold of the lock.
    pub fn totals(&mut self) -> Totals
        ensures counts { WasCounted result self.old }
        ensures unchanged { self.new ≡ self.old }
    {
        self.holder.totals()
    }

    /// Takes the newest entry out of the ledger, if there is one.
    pub fn pop_entry(&mut self) -> Option<Entry>
        ensures some { IfSome result (λ entry. self.new ≡ after_pop (entry_view entry) self.old) }
        ensures none { IfNone result (self.new ≡ self.old) }
    {
        self.holder.pop_entry()
    }

    /// Takes the newest entry out of the ledger of lost spans, if there is one: of a batch that was
    /// handed and not delivered (profile).
    pub fn pop_lost(&mut self) -> Option<Entry>
        ensures some { IfSome result
            (λ entry. self.new ≡ after_pop_lost (entry_view entry) self.old) }
        ensures none { IfNone result (self.new ≡ self.old) }
    {
        self.holder.pop_lost()
    }

    /// Takes all names out of both ledgers in one hold of the lock, which is as short for many
    /// names as for one. It answers them the oldest first; their memory is freed where they are
    /// dropped. No memory is taken. (profile)
    pub fn drain_names(&mut self) -> DrainedNames<A>
        ensures { self.new ≡ after_drain result.dropped result.lost self.old }
    {
        self.holder.drain_names().reversed()
    }
}

impl<J: Naming, R: Wait, A: Allocator + Copy> EndPass<SpanData<A>> for Pass<J, R, A> {
    ghost use Rattle.batch_processor.specs.Answers.{AdmitsSpan};

    ghost admits = { AdmitsSpan };

    /// Queues the span under the next ticket: `Queued`. Where as many wait as may, the ledger names
    /// it on its own slip: `Dropped`, as `QueueFull`. After a shutdown it is only counted: `Late`.
    /// No memory is taken. (profile: tickets, the ledger, late spans)
    fn admit(&mut self, span: SpanData<A>) -> Ended {
        // A span that doesn't wait is freed here, without the lock, and so is one that was sent.
        let (answer, _remains, _spent) = self.holder.admit(span);
        answer
    }
}
