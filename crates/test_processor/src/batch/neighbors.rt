//! Two processors side by side. Each has a name of its own, and so has the type of its passes: none
//! fits the other.
ghost use Rattle.std.specs.Prelude.{◌≡◌, ◌≤◌, ◌<◌, IfOk, MatchResult, true, vec_len, ℕ};
ghost use Rattle.batch_processor.specs.Working.{IsPrepared};

use batch_processor::{
    Accounts, BatchBlank, BatchConfig, BatchProcessor, Missing, Naming, NewFault, Parts, Pass,
    WorkerPass,
};
use std::alloc::Allocator;
use std::sync::Wait;

/// A processor, all its passes, and the worker's.
///
/// # Errors
///
/// As of `BatchProcessor::new`.
pub fn make<J: Naming, R: Wait + Copy, A: Allocator + Copy>(
    alloc: A,
    rt: R,
    blank: BatchBlank,
    config: BatchConfig,
    passes: usize,
    now: u64,
) -> Result<Parts<J, R, A>, NewFault>
    requires { blank ≡ J.name }
    ensures count { IfOk result (λ parts. parts.processor.passes ≡ passes) }
    ensures passes { IfOk result (λ parts. vec_len parts.passes ≡ passes) }
    ensures worker { IfOk result (λ parts. (room : ℕ → ℕ) → IsPrepared room parts.worker) }
{
    BatchProcessor::<J, R, A>::new(alloc, rt, blank, config, passes, now)
}

/// Closes a processor out.
///
/// # Errors
///
/// As of `BatchProcessor::close_out`.
pub fn close_out<J: Naming, R: Wait + Copy, A: Allocator + Copy>(
    processor: BatchProcessor<J, R, A>,
    passes: Vec<Pass<J, R, A>, A>,
    worker: WorkerPass<J, R, A>,
) -> Result<Accounts<A>, Missing<J, R, A>>
    ensures { MatchResult result
        (λ _. processor.passes ≤ vec_len passes) (λ _. vec_len passes < processor.passes) }
{
    processor.close_out(passes, worker)
}

/// Whether a processor has all its passes back.
fn is_whole<J: Naming, R: Wait + Copy, A: Allocator + Copy>(
    processor: BatchProcessor<J, R, A>,
    passes: Vec<Pass<J, R, A>, A>,
    worker: WorkerPass<J, R, A>,
) -> bool
    requires { processor.passes ≤ vec_len passes }
    ensures { result ≡ true }
{
    close_out(processor, passes, worker).is_ok()
}

/// Makes two processors and closes each out with its own pass: whether both had all their passes.
///
/// # Errors
///
/// As of `BatchProcessor::new`.
pub fn close_two<J: Naming, K: Naming, R: Wait + Copy, A: Allocator + Copy>(
    alloc: A,
    rt: R,
    first: BatchBlank,
    second: BatchBlank,
) -> Result<bool, NewFault>
    requires first { first ≡ J.name }
    requires second { second ≡ K.name }
    ensures { IfOk result (λ closed. closed ≡ true) }
{
    let config = BatchConfig::default();
    let Parts {
        processor,
        passes,
        worker,
    } = make::<J, R, A>(alloc, rt, first, config, 1, 0)?;
    let neighbor = make::<K, R, A>(alloc, rt, second, config, 1, 0)?;
    let Parts {
        processor: other,
        passes: others,
        worker: sender,
    } = neighbor;
    let own = is_whole(processor, passes, worker);
    let neighbors = is_whole(other, others, sender);
    Ok(own && neighbors)
}
