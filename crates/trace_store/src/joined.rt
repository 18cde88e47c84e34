//! The traces that parts have spans of, as they are with them.

ghost use Rattle.std.specs.Prelude.{◌≡◌, ◌^◌, ◌<◌, ◌≤◌, ◌++◌, ◌↔◌, IsTrue, MatchOption};
ghost use Rattle.std.specs.Prelude.{length, sum_by};
ghost use Rattle.trace_store.specs.Traces.{byte_count, joined_traces, span_count, spans_of};

use crate::fold::Digest;
use crate::parts::Part;
use crate::size::{SpanSize, total_size};
use crate::traces::Traces;
use std::alloc::Allocator;
use std::collections::LinkedList;
use std::hash::BuildHasher;

/// How many spans a trace has.
fn spans_there<S: SpanSize, D: Digest<S>, H: BuildHasher, A: Allocator>(
    traces: &Traces<S, D, H, A>,
    trace: u128,
) -> u64
    ensures { result ≡ length (spans_of traces.now.entries trace) }
{
    match traces.peek(&trace) {
        Some(kept) => kept.spans().len() as u64,
        None => 0,
    }
}

/// How many bytes they take.
fn bytes_there<S: SpanSize, D: Digest<S>, H: BuildHasher, A: Allocator>(
    traces: &Traces<S, D, H, A>,
    trace: u128,
) -> u64
    requires { byte_count S.size_of traces.now.entries < 2 ^ 64 }
    ensures { result ≡ sum_by S.size_of (spans_of traces.now.entries trace) }
{
    match traces.peek(&trace) {
        Some(kept) => kept.bytes(),
        None => 0,
    }
}

/// How many spans a trace has with more spans, if that is below 2^64.
pub(crate) fn spans_with<S: SpanSize, D: Digest<S>, H: BuildHasher, A: Allocator>(
    traces: &Traces<S, D, H, A>,
    trace: u128,
    more: &LinkedList<S, A>,
) -> Option<u64>
    ensures { MatchOption result (2 ^ 64 ≤ length (spans_of traces.now.entries trace ++ more.now))
        (λ count. count ≡ length (spans_of traces.now.entries trace ++ more.now)) }
{
    spans_there(traces, trace).checked_add(more.len() as u64)
}

/// How many bytes they take, if that is below 2^64.
pub(crate) fn bytes_with<S: SpanSize, D: Digest<S>, H: BuildHasher, A: Allocator>(
    traces: &Traces<S, D, H, A>,
    trace: u128,
    more: &LinkedList<S, A>,
) -> Option<u64>
    requires { byte_count S.size_of traces.now.entries < 2 ^ 64 }
    ensures { MatchOption result
        (2 ^ 64 ≤ sum_by S.size_of (spans_of traces.now.entries trace ++ more.now))
        (λ size. size ≡ sum_by S.size_of (spans_of traces.now.entries trace ++ more.now)) }
{
    let size = total_size(more)?;
    bytes_there(traces, trace).checked_add(size)
}

/// How many spans the traces of parts have with them, if that is below 2^64.
pub(crate) fn joined_spans<S: SpanSize, D: Digest<S>, H: BuildHasher, A: Allocator>(
    traces: &Traces<S, D, H, A>,
    parts: &[Part<S, A>],
) -> Option<u64>
    ensures { MatchOption result (2 ^ 64 ≤ span_count (joined_traces traces.now.entries parts.now))
        (λ total. total ≡ span_count (joined_traces traces.now.entries parts.now)) }
{
    let mut total = 0u64;
    for (trace, spans) in parts {
        total = total.checked_add(spans_with(traces, *trace, spans)?)?;
    }
    Some(total)
}

/// How many bytes they take, if that is below 2^64.
pub(crate) fn joined_bytes<S: SpanSize, D: Digest<S>, H: BuildHasher, A: Allocator>(
    traces: &Traces<S, D, H, A>,
    parts: &[Part<S, A>],
) -> Option<u64>
    requires { byte_count S.size_of traces.now.entries < 2 ^ 64 }
    ensures { MatchOption result
        (2 ^ 64 ≤ byte_count S.size_of (joined_traces traces.now.entries parts.now))
        (λ total. total ≡ byte_count S.size_of (joined_traces traces.now.entries parts.now)) }
{
    let mut total = 0u64;
    for (trace, spans) in parts {
        total = total.checked_add(bytes_with(traces, *trace, spans)?)?;
    }
    Some(total)
}

/// Whether a sum is within a limit, where `None` is one that isn't below 2^64.
pub(crate) fn is_at_most(sum: Option<u64>, limit: u64) -> bool
    ensures { IsTrue result ↔ MatchOption sum ⊥ (λ total. total ≤ limit) }
{
    match sum {
        Some(total) => total <= limit,
        None => false,
    }
}
