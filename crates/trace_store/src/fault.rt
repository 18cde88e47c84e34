//! Why spans aren't received.

use std::alloc::AllocError;

/// Why a store doesn't receive spans.
#[derive(Clone, Copy, Debug, PartialEq, Eq)]
pub enum InsertFault {
    /// With them, the traces that they belong to would be above one of the limits.
    TooLarge,
    /// Memory was refused, or a count would come to 2^63 spans or 2^64 bytes.
    OutOfMemory,
}

impl From<AllocError> for InsertFault {
    ghost use Rattle.std.specs.Prelude.{◌≡◌};
    ghost use Rattle.trace_store.specs.declared.fault.InsertFault.TheVariants as faults;

    ghost from_gives = { λ _ fault. fault ≡ faults.OutOfMemory };

    fn from(_: AllocError) -> InsertFault {
        InsertFault::OutOfMemory
    }
}
