//! Why a batch processor was not made, or did not flush.

use span_ring::RingFault;
use std::alloc::AllocError;
use thiserror::Error;

/// Why a processor was not made. The first that holds is reported.
#[derive(Debug, Clone, Copy, PartialEq, Eq, Error)]
pub enum NewFault {
    /// It would have no pass, or more than [`MAX_PASSES`](crate::MAX_PASSES).
    #[error("a processor has 1 to 64 passes")]
    BadPasses,
    /// The queue or the batch is 0.
    #[error("a queue and a batch have room for a span")]
    ZeroSize,
    /// The batch is above the queue.
    #[error("a batch is no larger than the queue")]
    BatchAboveQueue,
    /// The queue is above 65,536.
    #[error("a queue has room for 65,536 spans at most")]
    TooLarge,
    /// Memory was refused.
    #[error("out of memory")]
    OutOfMemory,
}

/// The worker has left, and what was asked for is not flushed: no thread goes on with it.
#[derive(Debug, Clone, Copy, PartialEq, Eq, Error)]
#[error("the worker has left")]
pub struct WorkerLeft;

impl From<AllocError> for NewFault {
    ghost use Rattle.std.specs.Prelude.{◌≡◌};
    ghost use Rattle.batch_processor.specs.declared.fault.NewFault.TheVariants as faults;

    ghost from_gives = { λ _ fault. fault ≡ faults.OutOfMemory };

    fn from(_: AllocError) -> NewFault {
        NewFault::OutOfMemory
    }
}

impl From<RingFault> for NewFault {
    ghost use Rattle.batch_processor.specs.Views.{new_fault};
    ghost use Rattle.std.specs.Prelude.{◌≡◌};

    ghost from_gives = { λ ring fault. fault ≡ new_fault ring };

    fn from(fault: RingFault) -> NewFault {
        match fault {
            RingFault::ZeroSize => NewFault::ZeroSize,
            RingFault::BatchAboveQueue => NewFault::BatchAboveQueue,
            RingFault::TooLarge => NewFault::TooLarge,
            RingFault::OutOfMemory => NewFault::OutOfMemory,
        }
    }
}
