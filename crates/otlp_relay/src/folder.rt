//! The folder of a spool.

use spool::{DeviceError, SpoolFolder};

/// What opens the folder of a spool, at the start and again after it failed.
#[derive(Drop)]
pub struct Folders {
    /// The system's runtime.
    pub rt: HostRuntime,
}

impl Folders {
    /// Opens the folder with this name.
    ///
    /// # Errors
    ///
    /// `Failed` where it can't be made, read or written, or another program has it. `Memory`.
    pub(crate) fn open(&self, name: &str) -> Result<SpoolFolder, DeviceError> {
        SpoolFolder::open(&self.rt, name)
    }
}
