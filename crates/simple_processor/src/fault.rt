//! Why a simple processor was not made.

use otlp_ids::OutOfMemory;
use std::alloc::{AllocError, AllocFailed};
use thiserror::Error;

/// Why a processor was not made. Where both hold, the first is reported.
#[derive(Debug, Clone, Copy, PartialEq, Eq, Error)]
pub enum SimpleFault {
    /// It would have no pass, or more than [`MAX_PASSES`](crate::MAX_PASSES).
    #[error("a processor has 1 to 64 passes")]
    BadPasses,
    /// Memory was refused.
    #[error("out of memory")]
    OutOfMemory,
}

impl From<OutOfMemory> for SimpleFault {
    ghost use Rattle.std.specs.Prelude.{◌≡◌};
    ghost use Rattle.simple_processor.specs.declared.fault.SimpleFault.TheVariants as faults;

    ghost from_gives = { λ _ fault. fault ≡ faults.OutOfMemory };

    fn from(_: OutOfMemory) -> SimpleFault {
        SimpleFault::OutOfMemory
    }
}

impl From<AllocError> for SimpleFault {
    ghost use Rattle.std.specs.Prelude.{◌≡◌};
    ghost use Rattle.simple_processor.specs.declared.fault.SimpleFault.TheVariants as faults;

    ghost from_gives = { λ _ fault. fault ≡ faults.OutOfMemory };

    fn from(_: AllocError) -> SimpleFault {
        SimpleFault::OutOfMemory
    }
}

impl<T: Drop> From<AllocFailed<T>> for SimpleFault {
    ghost use Rattle.std.specs.Prelude.{◌≡◌};
    ghost use Rattle.simple_processor.specs.declared.fault.SimpleFault.TheVariants as faults;

    ghost from_gives = { λ _ fault. fault ≡ faults.OutOfMemory };

    fn from(_: AllocFailed<T>) -> SimpleFault {
        SimpleFault::OutOfMemory
    }
}
