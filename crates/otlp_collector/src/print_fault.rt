//! Why spans could not be printed.

use http_wire::Stopped;
use otlp_ids::OutOfMemory;
use thiserror::Error;

/// Why spans could not be printed.
#[derive(Error, Debug, Clone, Copy, PartialEq, Eq)]
pub enum PrintFault {
    /// A write failed, which the writer has counted.
    #[error("the device failed")]
    Device,
    /// Memory was refused.
    #[error("out of memory")]
    OutOfMemory,
}

impl From<Stopped> for PrintFault {
    ghost use Rattle.std.specs.Prelude.{◌≡◌};
    ghost use Rattle.otlp_collector.specs.declared.print_fault.PrintFault.TheVariants as faults;

    ghost from_gives = { λ _ fault. fault ≡ faults.Device };

    fn from(_: Stopped) -> PrintFault {
        PrintFault::Device
    }
}

impl From<OutOfMemory> for PrintFault {
    ghost use Rattle.std.specs.Prelude.{◌≡◌};
    ghost use Rattle.otlp_collector.specs.declared.print_fault.PrintFault.TheVariants as faults;

    ghost from_gives = { λ _ fault. fault ≡ faults.OutOfMemory };

    fn from(_: OutOfMemory) -> PrintFault {
        PrintFault::OutOfMemory
    }
}
