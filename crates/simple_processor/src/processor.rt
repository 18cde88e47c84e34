//! The simple processor.
ghost use Rattle.std.specs.Prelude.{◌≡◌, ◌<◌, ◌≤◌, ◌↔◌, ◌⊎◌, IfErr, IfOk, IsErrOf, IsPermutation};
ghost use Rattle.std.specs.Prelude.{MatchResult, OnOk, OnSome, length, map, vec_len};
ghost use Rattle.std.specs.List.{AllByRecursion};
ghost use Rattle.span_exporter.specs.Handed.{Gains};
ghost use Rattle.model_desk.specs.Desks.{fate_counts};
ghost use Rattle.drop_ledger.specs.Counts.{drop_counts_view};
ghost use Rattle.batch_desk.specs.Views.{fate_counts_view};
ghost use Rattle.model_processor.specs.Passes.{PassAccount, drops, all_accepted, all_dropped};
ghost use Rattle.model_processor.specs.Passes.{all_popped, all_popped_lost, new_account};
ghost use Rattle.model_processor.specs.PassClauses.{CountsLate, GivesTickets, NamesDrops};
ghost use Rattle.simple_processor.specs.Bodies.{Fits, LacksItsBody, LossesAreTold, attempt_in};
ghost use Rattle.simple_processor.specs.Bodies.{attempt_of_span, fates_of, told_since};
ghost use Rattle.simple_processor.specs.AnyAccounts.{pass};
ghost use Rattle.simple_processor.specs.Kept.{given_tickets};
ghost use Rattle.processor_account.specs.declared.passes.TheConstants.{MAX_PASSES};

use crate::account::{Began, Begins, SimpleBlank, SimpleState};
use crate::export::ExportState;
use crate::fault::SimpleFault;
use crate::pass::SimplePass;
use crate::sender::Sender;
use crate::shared::Shared;
use account_book::{Account, Naming};
use batch_desk::Totals;
use drop_ledger::Ledger;
use processor_account::MAX_PASSES;
use span_exporter::Exporter;
use std::alloc::{AllocError, Allocator, Global};
use std::fmt;
use std::marker::Model;
use std::snapshot::Snapshot;
use std::sync::{Arc, Mutex, Wait};

/// A simple processor (Trace SDK, "Simple processor"): an exporter that threads share under a lock,
/// each by a pass of its own. In contracts it is what it began with: how many passes it has, what
/// its exporter showed before, and how many bytes a body may have.
#[derive(Drop)]
pub struct SimpleProcessor<J: Naming, E: Exporter, R, A: Allocator = Global> {
    shared: Arc<Mutex<Shared<J, E, A>>, A>,
    account: Account<J, SimpleState>,
    passes: usize,
    rt: R,
}

impl<J: Naming, E: Exporter, R, A: Allocator> Model for SimpleProcessor<J, E, R, A> {
    ghost use Rattle.std.specs.Prelude.{◌≡◌, ◌<◌};
    ghost use Rattle.simple_processor.specs.AnyAccounts.{Origin, origin_in, processor};

    ghost Value = { Origin };

    ghost view = { λ p. origin_in p.account };

    ghost invariant = { λ p. (p.account ≡ processor (origin_in p.account))
        × (p.passes ≡ (origin_in p.account).passes) };
}

/// Writes how many passes there are. What the lock guards isn't looked at.
impl<J: Naming, E: Exporter, R, A: Allocator> fmt::Debug for SimpleProcessor<J, E, R, A> {
    fn fmt<W: fmt::Write>(&self, f: &mut fmt::Formatter<W>) -> fmt::Result {
        f.debug_struct("SimpleProcessor")
            .field("passes", &self.passes)
            .finish_non_exhaustive()
    }
}

/// A new processor, and its passes.
#[derive(Drop)]
#[derive_where(Debug)]
pub struct SimpleParts<J: Naming, E: Exporter, R, A: Allocator = Global> {
    /// The processor.
    pub processor: SimpleProcessor<J, E, R, A>,
    /// Its passes, for a thread each.
    pub passes: Vec<SimplePass<J, E, R, A>, A>,
}

/// What is left of a processor in the end.
#[derive(Drop)]
#[derive_where(Debug; E)]
pub struct SimpleAccounts<E, A: Allocator = Global> {
    /// The exporter.
    pub exporter: E,
    /// The counts: a span that was handed to the exporter is accepted, taken and handed, and a
    /// dropped one is counted under its reason alone.
    pub totals: Totals,
    /// The names of the dropped spans that were not popped.
    pub ledger: Ledger<A>,
    /// The names of the lost spans: each was handed to the exporter, and its attempt failed.
    pub lost: Ledger<A>,
}

/// A pass is missing. It gives back all that was to be closed out.
#[derive(Drop)]
#[derive_where(Debug)]
pub struct SimpleMissing<J: Naming, E: Exporter, R, A: Allocator = Global> {
    /// The processor, as it was.
    pub processor: SimpleProcessor<J, E, R, A>,
    /// The passes that were handed in, as they were.
    pub passes: Vec<SimplePass<J, E, R, A>, A>,
}

impl<J: Naming, E: Exporter, R: Copy, A: Allocator + Copy> SimpleProcessor<J, E, R, A> {
    /// A processor over this exporter, with this number of passes, 1 to [`MAX_PASSES`]. A span
    /// whose body would have more than `max_body` bytes is dropped (profile). The blank becomes its
    /// accounts: a type parameter gives its name, and so names this one processor.
    ///
    /// # Errors
    ///
    /// `BadPasses` where the number of passes is none of these, else `OutOfMemory` where memory was
    /// refused.
    pub fn new(
        alloc: A,
        rt: R,
        blank: SimpleBlank,
        exporter: E,
        passes: usize,
        max_body: usize,
    ) -> Result<SimpleParts<J, E, R, A>, SimpleFault>
    where
        E: Drop,
        requires { blank ≡ J.name }
        ensures processor { IfOk result (λ parts. parts.processor
            ≡ record { passes = passes; had = E.handed exporter; max_body = max_body }) }
        ensures count { IfOk result (λ parts. vec_len parts.passes ≡ passes) }
        ensures passes { IfOk result
            (λ parts. AllByRecursion (λ a. a ≡ new_account) parts.passes.items) }
        ensures bad_passes { IsErrOf result SimpleFault.BadPasses
            ↔ ((passes ≡ 0) ⊎ (MAX_PASSES < passes)) }
    {
        if passes == 0 || passes > MAX_PASSES {
            return Err(SimpleFault::BadPasses);
        }
        let sender = Sender::new(alloc, max_body)?;
        let mut book = blank.named::<J>();
        let mut account = book.open::<SimpleState>();
        let began = Began {
            passes,
            max_body,
            exporter: Snapshot::of(&exporter),
        };
        book.record::<Began<E>, Begins<E>>(&mut account, &began);
        let accounts = book.open_all::<SimpleState, A>(alloc, passes)?;
        let shared = Shared {
            export: Some(ExportState::new(exporter, sender)),
            book,
            passes,
            max_body,
            began: began.exporter,
        };
        let shared = Arc::new(alloc, Mutex::new(shared))?;
        let all = give_passes(alloc, rt, &shared, accounts)?;
        let processor = SimpleProcessor {
            shared,
            account,
            passes,
            rt,
        };
        Ok(SimpleParts {
            processor,
            passes: all,
        })
    }
}

impl<J: Naming, E: Exporter, R: Wait + Copy, A: Allocator + Copy> SimpleProcessor<J, E, R, A> {
    /// Ends the processor, once all its passes are back, and answers what is left of it.
    ///
    /// # Errors
    ///
    /// `SimpleMissing` exactly where a pass is missing; it gives all back, as it was.
    pub fn close_out(
        self,
        passes: Vec<SimplePass<J, E, R, A>, A>,
    ) -> Result<SimpleAccounts<E, A>, SimpleMissing<J, E, R, A>>
    where
        E: Drop,
        ensures missing { MatchResult result
            (λ _. self.passes ≤ vec_len passes) (λ _. vec_len passes < self.passes) }
        ensures given_back { IfErr result (λ m. (m.processor ≡ self) × (m.passes ≡ passes)) }

        // What an exporter shows of the time since the processor was made: one attempt for each
        // span that was answered `Handed` on a pass, whose body means this span alone.
        ensures keeps { IfOk result (λ a.
            Gains (told_since self.had (E.handed a.exporter)) self.had (E.handed a.exporter)) }
        ensures spans { IfOk result (λ a. OnSome (E.handed a.exporter)
            (IsPermutation (map attempt_of_span (all_accepted passes.items))
            (map attempt_in (told_since self.had (E.handed a.exporter))))) }
        ensures fates { IfOk result (λ a. OnSome (E.handed a.exporter)
            (fate_counts_view a.totals.fates
            ≡ fate_counts (fates_of (told_since self.had (E.handed a.exporter))))) }
        ensures fits { IfOk result (λ a. OnSome (E.handed a.exporter) (AllByRecursion
            (Fits self.max_body) (told_since self.had (E.handed a.exporter)))) }

        ensures tickets { IfOk result (λ a.
            GivesTickets (given_tickets a.totals) passes.items) }

        // A dropped span is named in the ledger, until its entry is popped. It has no body alone:
        // memory was refused, or the body would be longer than it may be.
        ensures names { IfOk result (λ a.
            NamesDrops a.ledger (drop_counts_view a.totals.dropped)
            (all_dropped passes.items) (all_popped passes.items)) }
        ensures lacking { OnOk result (AllByRecursion
            (λ (a : PassAccount). AllByRecursion (LacksItsBody self.max_body) (drops a))
            passes.items) }
        ensures only_without_body { IfOk result (λ a. (a.totals.dropped.queue_full ≡ 0)
            × (a.totals.dropped.abandoned ≡ 0)) }

        // A span whose attempt failed is named in the second ledger, until its entry is popped:
        // refused, given up since no more attempt is made, or with a reply that can't be read.
        ensures losses { IfOk result (λ a. OnSome (E.handed a.exporter)
            (LossesAreTold (told_since self.had (E.handed a.exporter))
            (all_accepted passes.items) a.lost a.totals.lost (all_popped_lost passes.items))) }

        // Spans are late where none is admitted any more: after a shutdown, or without tickets.
        ensures late { IfOk result (λ a. CountsLate a.totals.late (given_tickets a.totals)
            a.totals.closed passes.items) }

        ensures handed { IfOk result
            (λ a. a.totals.handed ≡ length (all_accepted passes.items)) }
        ensures accepted { IfOk result (λ a. (a.totals.accepted ≡ a.totals.handed)
            × (a.totals.taken ≡ a.totals.handed) × (a.totals.left ≡ 0)) }
    {
        if passes.len() < self.passes {
            return Err(SimpleMissing {
                processor: self,
                passes,
            });
        }
        let SimpleProcessor {
            shared,
            account,
            passes: _,
            rt,
        } = self;
        let accounts = shared.lock(&rt).close(account, passes);
        Ok(accounts)
    }
}

/// A pass for each of these accounts.
fn give_passes<J: Naming, E: Exporter + Drop, R: Copy, A: Allocator>(
    alloc: A,
    rt: R,
    shared: &Arc<Mutex<Shared<J, E, A>>, A>,
    accounts: Vec<Account<J, SimpleState>, A>,
) -> Result<Vec<SimplePass<J, E, R, A>, A>, AllocError>
    requires { AllByRecursion (λ h. h ≡ pass new_account) accounts.items }
    ensures count { IfOk result (λ passes. vec_len passes ≡ vec_len accounts) }
    ensures new { IfOk result
        (λ passes. AllByRecursion (λ a. a ≡ new_account) passes.items) }
{
    let mut passes = Vec::with_capacity(alloc, accounts.len())?;
    for account in accounts {
        let shared = Arc::try_clone(shared)?;
        passes.push_reserved(SimplePass {
            shared,
            account,
            rt,
        });
    }
    Ok(passes)
}
