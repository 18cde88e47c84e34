//! The queue of a batch processor (OpenTelemetry Trace SDK, "Batching processor"): a [`Desk`]
//! admits ended spans and gives them in batches. One [`Ledger`] names the spans that were dropped,
//! and another those that are lost: their batch was handed to an exporter and not delivered, for
//! the [`Reason`] that [`loss_reason`] gives. Names that are popped go to a [`NameSink`].
pub use batch_desk::{
    Admitted, Batch, Desk, DeskConfig, DrainedNames, FateCounts, Mark, NamedBatch, SettledBatch,
    Totals, loss_reason,
};
pub use drop_ledger::{
    DEFAULT_NAMES, DropCounts, Ledger, NameLines, NameSink, NewestNames, ReasonCounts,
};
pub use otlp_span::{Entries, Entry, Reason, Slip};
pub use retry_core::Fate;
pub use span_ring::{MAX_QUEUE, RingFault, Run, SpanRing};
