//! Why a service was not started.
use batch_processor::NewFault;
use std::alloc::AllocError;
use thiserror::Error;

/// Why a service was not started. What was handed in is gone, and no thread runs.
#[derive(Debug, Clone, Copy, PartialEq, Eq, Error)]
pub enum StartFault {
    /// It would have no pass, or more than [`MAX_THREADS`](crate::MAX_THREADS).
    #[error("a service has 1 to 64 passes")]
    BadPasses,
    /// The queue or the batch is 0.
    #[error("a queue and a batch have room for a span")]
    ZeroSize,
    /// The batch is above the queue.
    #[error("a batch is no larger than the queue")]
    BatchAboveQueue,
    /// The queue is above 65,536.
    #[error("a queue has room for 65,536 spans at most")]
    TooLarge,
    /// Memory was refused.
    #[error("out of memory")]
    OutOfMemory,
    /// The system gave no random bytes, with which the waits between attempts begin.
    #[error("the system gave no random bytes")]
    NoRandomBytes,
    /// The system gave no thread.
    #[error("no thread could be made")]
    NoThread,
}

impl From<NewFault> for StartFault {
    ghost use Rattle.std.specs.Prelude.{◌≡◌};
    ghost use Rattle.batch_service.specs.Service.{start_fault};

    ghost from_gives = { λ new fault. fault ≡ start_fault new };

    fn from(fault: NewFault) -> StartFault {
        match fault {
            NewFault::BadPasses => StartFault::BadPasses,
            NewFault::ZeroSize => StartFault::ZeroSize,
            NewFault::BatchAboveQueue => StartFault::BatchAboveQueue,
            NewFault::TooLarge => StartFault::TooLarge,
            NewFault::OutOfMemory => StartFault::OutOfMemory,
        }
    }
}

impl From<AllocError> for StartFault {
    ghost use Rattle.std.specs.Prelude.{◌≡◌};
    ghost use Rattle.batch_service.specs.declared.fault.StartFault.TheVariants as faults;

    ghost from_gives = { λ _ fault. fault ≡ faults.OutOfMemory };

    fn from(_: AllocError) -> StartFault {
        StartFault::OutOfMemory
    }
}
