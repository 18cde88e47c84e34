//! Why a body is not admitted.

use thiserror::Error;

/// Why a body is not admitted. Where both hold, the first is reported.
#[derive(Clone, Copy, Debug, PartialEq, Eq, Error)]
pub enum AdmitFault {
    /// The bodies that are kept leave too little memory for it, or 2^64 - 1 bodies were admitted.
    #[error("no room: the bodies that are kept take the memory that they may")]
    Full,
    /// Memory was refused.
    #[error("out of memory")]
    OutOfMemory,
}
