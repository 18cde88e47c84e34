//! Why a text is no resource.

use thiserror::Error;

/// Why a text isn't read as resource attributes.
#[derive(Debug, Clone, Copy, PartialEq, Eq, Error)]
pub enum ResourceFault {
    /// It isn't pairs in that form: none of it counts.
    #[error("bad resource attributes: they are key=value,key=value, and other characters are %XX")]
    NotPairs,
    /// Memory was refused.
    #[error("out of memory")]
    OutOfMemory,
}
