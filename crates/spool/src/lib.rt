//! A spool: the files in which an agent keeps the bodies that it answered for, until they are
//! delivered. What is put is on the disk before the call answers, so a crash at any moment leaves
//! it; a delivery that was noted is not forgotten.
//!
//! - [`Spool`] keeps bodies in the files of a [`Device`].
//! - [`Device`] says what its calls do, and what a crash at any moment may leave. [`MemoryDevice`]
//!   is one in memory, for tests.
//! - [`SpoolFolder`] is a folder of the operating system as a device. No contract can say what a
//!   file takes or gives back, so nothing is known of it: that the folder does what `Device` says
//!   is a premise.
#![tactic(auto)]

mod adding;
mod calls;
mod device;
mod device_error;
mod error;
mod file_name;
mod folder;
mod giving;
mod memory;
mod newest;
mod opening;
mod records;
mod removing;
mod reserve;
mod rolling;
mod state;
mod synced;
pub mod worked;

pub use device::Device;
pub use device_error::DeviceError;
pub use error::SpoolError;
pub use folder::SpoolFolder;
pub use memory::{MemoryDevice, MemoryFile};
pub use opening::Opened;
pub use records::WaitingBody;
pub use reserve::RESERVED_BYTES;
pub use rolling::max_body;
pub use state::Spool;
