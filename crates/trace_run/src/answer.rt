//! The answer to a step.

use otlp_ids::{SpanId, TraceId};
use otlp_span::Reason;
use retry_core::{Next, Outcome};
use trace_api::Ended;

/// The answer to a step.
#[derive(Debug, Clone, Copy, PartialEq, Eq)]
pub enum Answer {
    /// To a start: the span has started, with these identifiers.
    Started {
        /// That of its trace.
        trace: TraceId,
        /// Its own.
        span: SpanId,
    },
    /// To a start: the generator gave only zeros, in eight draws of an identifier.
    NoRandomness,
    /// To a start or a call that is no end: memory was refused. Nothing has changed, but a start
    /// has its number and has spent the words that it drew.
    OutOfMemory,
    /// To a call: there is no span of this number. To a start: the scope or the parent isn't there.
    /// Nothing has changed, but a start has its number.
    NoSpan,
    /// To a call that is no end: it was made, or it was ignored.
    Done,
    /// To an end.
    Ended(Ended),
    /// To a flush.
    Flush,
    /// To a shutdown.
    Shutdown,
    /// To a take: a batch is out.
    Taken {
        /// Its number, from 1 on.
        batch: u64,
        /// How many spans it has.
        spans: usize,
    },
    /// To a take: no batch is due, or one is out.
    NotTaken,
    /// To an encoding: the batch has a body.
    Encoded {
        /// The number of the batch.
        batch: u64,
        /// The length of its body, in bytes.
        length: usize,
    },
    /// To an encoding: the batch has no body. It is out no more, and the ledger names its spans.
    Dropped {
        /// The number of the batch.
        batch: u64,
        /// Why: `EncodeMemory` where memory was refused, or `TooLarge` where the body would be
        /// longer than the greatest.
        reason: Reason,
    },
    /// To an attempt: the exporter was handed the batch, for the first time or once more.
    Sent {
        /// The number of the batch.
        batch: u64,
        /// Which attempt of the batch it was, from 1 on.
        attempt: u32,
        /// Its outcome.
        outcome: Outcome,
    },
    /// To an attempt: its moment comes before the one from which the batch is to be sent again.
    /// Nothing has changed.
    Early,
    /// To a reply: what follows for the batch from its last attempt. Where that is `Again`, the
    /// batch stays out, and is sent again from that moment on; else it is out no more.
    Replied {
        /// The number of the batch.
        batch: u64,
        /// What follows.
        next: Next,
    },
    /// To an encoding, an attempt or a reply: no batch is out that this step is for. Nothing has
    /// changed.
    Nothing,
}
