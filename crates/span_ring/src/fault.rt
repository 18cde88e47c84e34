//! Why a ring was not made.

use thiserror::Error;

/// Why a ring was not made. Where several hold, the first in this order is reported.
#[derive(Clone, Copy, Debug, PartialEq, Eq, Error)]
pub enum RingFault {
    /// The queue or the batch is of no items.
    #[error("the queue and the batch must have room for an item")]
    ZeroSize,
    /// A batch has more items than the queue has room for.
    #[error("a batch has more items than the queue has room for")]
    BatchAboveQueue,
    /// The queue has room for more items than [`MAX_QUEUE`](crate::MAX_QUEUE).
    #[error("the queue has room for more than 65536 items")]
    TooLarge,
    /// Memory was refused.
    #[error("out of memory")]
    OutOfMemory,
}
