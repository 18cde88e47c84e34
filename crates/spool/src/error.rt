//! Why a call of a spool failed.
ghost use Rattle.std.specs.Prelude.{◌≡◌};
ghost use Rattle.spool.specs.declared.device_error.DeviceError.TheVariants as device;
ghost use Rattle.spool.specs.declared.error.SpoolError.TheVariants.{Memory};
ghost use Rattle.spool.specs.Errors.{spool_error};

use crate::DeviceError;
use std::alloc::{AllocError, AllocFailed};
use thiserror::Error;

/// Why a call of a spool failed.
#[derive(Error, Debug, Clone, Copy, PartialEq, Eq)]
pub enum SpoolError {
    /// Memory was refused.
    #[error("there is no memory")]
    Memory,
    /// A file, or the folder, could not be read or written, or a file isn't as it was written.
    #[error("the files could not be read or written")]
    Failed,
    /// The spool has no room.
    #[error("the spool is full")]
    Full,
    /// The numbers of the bodies of two files overlap: they are files of several spools.
    #[error("the files are of several spools: their numbers overlap")]
    Overlap,
}

impl From<AllocError> for SpoolError {
    ghost from_gives = { λ _ e. e ≡ Memory };

    fn from(_: AllocError) -> Self {
        SpoolError::Memory
    }
}

impl<T: Drop> From<AllocFailed<T>> for SpoolError {
    ghost from_gives = { λ _ e. e ≡ Memory };

    fn from(_: AllocFailed<T>) -> Self {
        SpoolError::Memory
    }
}

impl From<DeviceError> for SpoolError {
    ghost from_gives = { λ error e. e ≡ spool_error error };

    fn from(error: DeviceError) -> Self {
        match error {
            DeviceError::Memory => SpoolError::Memory,
            DeviceError::Failed => SpoolError::Failed,
        }
    }
}
