//! Why a message could not be read.

use crate::WireFault;
use otlp_ids::OutOfMemory;
use std::alloc::AllocFailed;
use thiserror::Error;

/// Why a message could not be read. Bytes can have several faults, of which any one is reported.
#[derive(Error, Debug, Clone, Copy, PartialEq, Eq)]
pub enum ReadFault {
    /// A field that can't be read, in the message or in one within it that counts.
    #[error("{0}")]
    Wire(WireFault),
    /// A text that counts is not UTF-8 (Protocol Buffers, Language Guide, "Scalar Value Types").
    #[error("a text is not UTF-8")]
    BadUtf8,
    /// A value that counts nests deeper than 64 levels. (profile)
    #[error("a value nests too deep")]
    TooDeep,
    /// Memory was refused.
    #[error("out of memory")]
    OutOfMemory,
}

impl From<WireFault> for ReadFault {
    ghost use Rattle.std.specs.Prelude.{◌≡◌};
    ghost use Rattle.otlp_wire.specs.declared.fault.ReadFault.TheVariants as faults;

    ghost from_gives = { λ wire fault. fault ≡ faults.Wire wire };

    fn from(fault: WireFault) -> ReadFault {
        ReadFault::Wire(fault)
    }
}

impl From<OutOfMemory> for ReadFault {
    ghost use Rattle.std.specs.Prelude.{◌≡◌};
    ghost use Rattle.otlp_wire.specs.declared.fault.ReadFault.TheVariants as faults;

    ghost from_gives = { λ _ fault. fault ≡ faults.OutOfMemory };

    fn from(_: OutOfMemory) -> ReadFault {
        ReadFault::OutOfMemory
    }
}

impl<T: Drop> From<AllocFailed<T>> for ReadFault {
    ghost use Rattle.std.specs.Prelude.{◌≡◌};
    ghost use Rattle.otlp_wire.specs.declared.fault.ReadFault.TheVariants as faults;

    ghost from_gives = { λ _ fault. fault ≡ faults.OutOfMemory };

    fn from(_: AllocFailed<T>) -> ReadFault {
        ReadFault::OutOfMemory
    }
}
