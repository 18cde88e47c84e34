//! The batch processor.
ghost use Rattle.std.specs.Prelude.{◌≡◌, ◌<◌, ◌≤◌, ◌↔◌, ◌⊎◌, IfErr, IfOk, IsErrOf, MatchResult};
ghost use Rattle.std.specs.Prelude.{OnOk, vec_len, None};
ghost use Rattle.std.specs.List.{AllByRecursion};
ghost use Rattle.model_processor.specs.Passes.{new_account};
ghost use Rattle.model_processor.specs.AnyAccounts.{pass};
ghost use Rattle.span_ring.specs.SpanRing.{IsRingSize};
ghost use Rattle.model_desk.specs.Desks.{new_desk};
ghost use Rattle.batch_desk.specs.Views.{config_view};
ghost use Rattle.batch_processor.specs.Views.{IsPassCount, setup_view};
ghost use Rattle.batch_processor.specs.New.{AreNew, IsBatchAboveQueue, IsTooLarge, IsZeroSize};
ghost use Rattle.batch_processor.specs.New.{new_work, origin_with};
ghost use Rattle.processor_account.specs.declared.passes.TheConstants.{MAX_PASSES};
ghost use Rattle.model_processor.specs.WorkerClauses.{IsAccounted, WorksUntilItLeaves, abandon};

use crate::account::{Account, BatchBlank, BatchState, Begins, WorkerBegins};
use crate::config::{BatchConfig, Setup};
use crate::fault::NewFault;
use crate::lock::{Holder, Lock};
use crate::pass::Pass;
use crate::worker::WorkerPass;
use account_book::Naming;
use batch_desk::{Desk, DeskConfig};
use processor_account::MAX_PASSES;
use std::alloc::{AllocError, Allocator, Global};
use std::fmt;
use std::marker::Model;
use std::sync::{Arc, Wait};

/// A batch processor (Trace SDK, "Batching processor"). In contracts it is what it began with.
#[derive(Drop)]
pub struct BatchProcessor<J: Naming, R, A: Allocator = Global> {
    holder: Holder<J, R, A>,
    setup: Setup,
    // Takes the place of the desk in the end, so that to take that out needs no memory.
    spare: Desk<A>,
}

impl<J: Naming, R, A: Allocator> Model for BatchProcessor<J, R, A> {
    ghost use Rattle.std.specs.Prelude.{◌≡◌};
    ghost use Rattle.model_processor.specs.WorkerClauses.{Origin};
    ghost use Rattle.model_processor.specs.AnyAccounts.{processor};
    ghost use Rattle.batch_processor.specs.Views.{setup_view};

    ghost Value = { Origin };

    ghost view = { λ p. setup_view p.setup };

    ghost invariant = { λ p. p.holder ≡ processor (setup_view p.setup) };
}

/// Writes how many passes there are. What the lock guards isn't looked at.
impl<J: Naming, R, A: Allocator> fmt::Debug for BatchProcessor<J, R, A> {
    fn fmt<W: fmt::Write>(&self, f: &mut fmt::Formatter<W>) -> fmt::Result {
        f.debug_struct("BatchProcessor")
            .field("passes", &self.setup.passes)
            .finish_non_exhaustive()
    }
}

/// What is left of a processor in the end: the desk, with its totals and its ledgers of dropped and
/// of lost spans.
#[derive(Drop)]
#[derive_where(Debug)]
pub struct Accounts<A: Allocator = Global> {
    /// What is left in the queue, the ledger, and the counts.
    pub desk: Desk<A>,
}

/// A pass is missing. It gives back all that was to be closed out. Where it is dropped, the worker
/// leaves.
#[derive(Drop)]
#[derive_where(Debug)]
pub struct Missing<J: Naming, R: Wait + Drop, A: Allocator + Copy = Global> {
    /// The processor, as it was.
    pub processor: BatchProcessor<J, R, A>,
    /// The passes that were handed in, as they were.
    pub passes: Vec<Pass<J, R, A>, A>,
    /// The worker's pass, as it was.
    pub worker: WorkerPass<J, R, A>,
}

impl<J: Naming, R: Wait + Drop, A: Allocator + Copy> BatchProcessor<J, R, A> {
    /// Ends the processor, once all its passes are back. A batch in hand is abandoned first.
    ///
    /// # Errors
    ///
    /// `Missing` exactly where a pass is missing; it gives all back, as it was.
    pub fn close_out(
        self,
        passes: Vec<Pass<J, R, A>, A>,
        worker: WorkerPass<J, R, A>,
    ) -> Result<Accounts<A>, Missing<J, R, A>>
        ensures missing { MatchResult result
            (λ _. self.passes ≤ vec_len passes) (λ _. vec_len passes < self.passes) }
        ensures given_back { IfErr result
            (λ m. (m.processor ≡ self) × (m.passes ≡ passes) × (m.worker ≡ worker)) }
        ensures origin { OnOk result (worker.origin ≡ self) }
        ensures works { OnOk result (WorksUntilItLeaves self worker.account) }
        // A batch that is out is abandoned, and that is the worker's final account.
        ensures accounts { IfOk result
            (λ a. IsAccounted self a.desk passes.items (abandon worker.account)) }
        // No batch is out then, and a batch has room for a span.
        ensures none_out { IfOk result (λ a. a.desk.out ≡ None) }
        ensures room { IfOk result (λ a. 1 ≤ a.desk.config.batch) }
    {
        if passes.len() < self.setup.passes {
            return Err(Missing {
                processor: self,
                passes,
                worker,
            });
        }
        let BatchProcessor { holder, spare, .. } = self;
        let desk = holder.close(worker.abandon(), passes, spare);
        Ok(Accounts { desk })
    }
}

impl<J: Naming, R: Wait + Drop, A: Allocator + Copy> Missing<J, R, A> {
    /// Drops all. The worker leaves first: a batch in hand is dropped where it was not handed to an
    /// exporter, and else settled, and a flush on a pass that is missing is reported.
    pub fn discard(self) {
        drop(self);
    }
}

/// A new processor, its passes, and the worker's.
#[derive(Drop)]
#[derive_where(Debug)]
pub struct Parts<J: Naming, R: Wait + Drop, A: Allocator + Copy = Global> {
    /// The processor.
    pub processor: BatchProcessor<J, R, A>,
    /// Its passes, for a thread each.
    pub passes: Vec<Pass<J, R, A>, A>,
    /// The pass of the thread that sends the batches.
    pub worker: WorkerPass<J, R, A>,
}

impl<J: Naming, R: Wait + Copy, A: Allocator + Copy> BatchProcessor<J, R, A> {
    /// A processor with this number of passes, 1 to [`MAX_PASSES`], made at a moment, in
    /// nanoseconds since 1970. The blank becomes its accounts.
    ///
    /// # Errors
    ///
    /// The first that holds of `BadPasses` and the faults of the queue.
    pub fn new(
        alloc: A,
        rt: R,
        blank: BatchBlank,
        config: BatchConfig,
        passes: usize,
        now: u64,
    ) -> Result<Parts<J, R, A>, NewFault>
        requires { blank ≡ J.name }
        ensures processor { IfOk result (λ parts. parts.processor ≡ origin_with config passes) }
        ensures count { IfOk result (λ parts. vec_len parts.passes ≡ passes) }
        ensures passes { IfOk result (λ parts. AreNew parts.passes.items) }
        ensures worker { IfOk result (λ parts. parts.worker ≡ new_work (origin_with config passes)) }

        // The first fault that holds is the answer.
        ensures bad_passes { IsErrOf result NewFault.BadPasses
            ↔ ((passes ≡ 0) ⊎ (MAX_PASSES < passes)) }
        ensures zero_size { IsErrOf result NewFault.ZeroSize
            ↔ (IsPassCount passes × IsZeroSize config.desk) }
        ensures batch_above_queue { IsErrOf result NewFault.BatchAboveQueue
            ↔ (IsPassCount passes × IsBatchAboveQueue config.desk) }
        ensures too_large { IsErrOf result NewFault.TooLarge
            ↔ (IsPassCount passes × IsTooLarge config.desk) }
        ensures out_of_memory { IsErrOf result NewFault.OutOfMemory
            → IsPassCount passes × IsRingSize config.desk.queue config.desk.batch }
    {
        if passes == 0 || passes > MAX_PASSES {
            return Err(NewFault::BadPasses);
        }
        BatchProcessor::with_passes(alloc, rt, blank, config, passes, now)
    }

    /// As [`BatchProcessor::new`], with any number of passes: for a caller that keeps passes beside
    /// those that its threads have. (profile)
    ///
    /// # Errors
    ///
    /// The first fault of the queue that holds.
    pub fn with_passes(
        alloc: A,
        rt: R,
        blank: BatchBlank,
        config: BatchConfig,
        passes: usize,
        now: u64,
    ) -> Result<Parts<J, R, A>, NewFault>
        requires { blank ≡ J.name }
        ensures processor { IfOk result (λ parts. parts.processor ≡ origin_with config passes) }
        ensures count { IfOk result (λ parts. vec_len parts.passes ≡ passes) }
        ensures passes { IfOk result (λ parts. AreNew parts.passes.items) }
        ensures worker { IfOk result (λ parts. parts.worker ≡ new_work (origin_with config passes)) }

        // The first fault that holds is the answer.
        ensures any_passes { IsErrOf result NewFault.BadPasses → ⊥ }
        ensures zero_size { IsErrOf result NewFault.ZeroSize ↔ IsZeroSize config.desk }
        ensures batch_above_queue { IsErrOf result NewFault.BatchAboveQueue
            ↔ IsBatchAboveQueue config.desk }
        ensures too_large { IsErrOf result NewFault.TooLarge ↔ IsTooLarge config.desk }
        ensures out_of_memory { IsErrOf result NewFault.OutOfMemory
            → IsRingSize config.desk.queue config.desk.batch }
    {
        let desk = Desk::new(alloc, config.desk, now)?;
        let setup = Setup { passes, config };
        let parts = BatchProcessor::assemble(alloc, rt, blank, setup, desk)?;
        Ok(parts)
    }

    /// The processor over this desk, at which nothing was done.
    fn assemble(
        alloc: A,
        rt: R,
        blank: BatchBlank,
        setup: Setup,
        desk: Desk<A>,
    ) -> Result<Parts<J, R, A>, AllocError>
        requires blank { blank ≡ J.name }
        requires desk { desk ≡ new_desk (config_view setup.config.desk) desk.last_moment }
        requires size { 1 ≤ setup.config.desk.batch }
        ensures processor { IfOk result (λ parts. parts.processor ≡ setup_view setup) }
        ensures count { IfOk result (λ parts. vec_len parts.passes ≡ setup.passes) }
        ensures passes { IfOk result (λ parts. AreNew parts.passes.items) }
        ensures worker { IfOk result (λ parts. parts.worker ≡ new_work (setup_view setup)) }
    {
        let spare = spare_desk(alloc)?;
        let spent = Vec::with_capacity(alloc, setup.config.desk.batch)?;
        let mut book = blank.named::<J>();
        let mut account = book.open::<BatchState>();
        book.record::<Setup, Begins>(&mut account, &setup);
        let mut of_worker = book.open::<BatchState>();
        book.record::<Setup, WorkerBegins>(&mut of_worker, &setup);
        let accounts = book.open_all::<BatchState, A>(alloc, setup.passes)?;
        let lock = Arc::new(alloc, Lock::new(desk, spent, book, setup))?;
        let passes = give_passes(alloc, rt, &lock, accounts)?;
        let worker = WorkerPass::new(alloc, Holder::new(&lock, of_worker, rt)?, setup)?;
        let holder = Holder::new(&lock, account, rt)?;
        let processor = BatchProcessor {
            holder,
            setup,
            spare,
        };
        Ok(Parts {
            processor,
            passes,
            worker,
        })
    }
}

/// A desk as small as may be, which is never used: it has a queue for one span.
fn spare_desk<A: Allocator + Copy>(alloc: A) -> Result<Desk<A>, AllocError> {
    let smallest = DeskConfig {
        queue: 1,
        batch: 1,
        delay_ms: 0,
    };
    Desk::new(alloc, smallest, 0).map_err(|_| AllocError)
}

/// A pass for each of these accounts.
fn give_passes<J: Naming, R: Copy, A: Allocator>(
    alloc: A,
    rt: R,
    lock: &Arc<Lock<J, A>, A>,
    accounts: Vec<Account<J>, A>,
) -> Result<Vec<Pass<J, R, A>, A>, AllocError>
    requires { AllByRecursion (λ h. h ≡ pass new_account) accounts.items }
    ensures count { IfOk result (λ passes. vec_len passes ≡ vec_len accounts) }
    ensures new { IfOk result (λ passes. AreNew passes.items) }
{
    let mut passes = Vec::with_capacity(alloc, accounts.len())?;
    for account in accounts {
        let holder = Holder::new(lock, account, rt)?;
        passes.push_reserved(Pass { holder });
    }
    Ok(passes)
}
