//! Why a call of a device failed.
ghost use Rattle.std.specs.Prelude.{◌≡◌};
ghost use Rattle.spool.specs.declared.device_error.DeviceError.TheVariants.{Memory};

use std::alloc::{AllocError, AllocFailed};
use thiserror::Error;

/// Why a call of a device failed.
#[derive(Error, Debug, Clone, Copy, PartialEq, Eq)]
pub enum DeviceError {
    /// Memory was refused.
    #[error("there is no memory")]
    Memory,
    /// A file, or the folder, could not be read or written.
    #[error("the files could not be read or written")]
    Failed,
}

impl From<AllocError> for DeviceError {
    ghost from_gives = { λ _ e. e ≡ Memory };

    fn from(_: AllocError) -> Self {
        DeviceError::Memory
    }
}

impl<T: Drop> From<AllocFailed<T>> for DeviceError {
    ghost from_gives = { λ _ e. e ≡ Memory };

    fn from(_: AllocFailed<T>) -> Self {
        DeviceError::Memory
    }
}
