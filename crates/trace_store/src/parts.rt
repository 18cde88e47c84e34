//! Parts of what is received together, each a trace and spans of it.

ghost use Rattle.std.specs.Prelude.{◌≡◌, ◌+◌, ◌^◌, ◌<◌, ◌≤◌, ◌++◌, ℕ, List, IfOk, MatchOption};
ghost use Rattle.std.specs.Prelude.{OnErr, OnOk, drop, length, vec_capacity, vec_len};
ghost use Rattle.std.specs.List.Sorted.{IsPermutation};
ghost use Rattle.lru.specs.LruCache.{lru_cache};
ghost use Rattle.trace_store.specs.Parts.{AddsPart, ArePartway, AreThere};
ghost use Rattle.trace_store.specs.Traces.{byte_count, span_count, with_parts};

use crate::fold::Digest;
use crate::size::{SpanSize, total_size};
use crate::spans::Trace;
use crate::traces::{Traces, add_to, put_new};
use std::alloc::{AllocError, Allocator};
use std::collections::LinkedList;
use std::hash::BuildHasher;

/// A trace, and spans of it.
pub type Part<S, A> = (u128, LinkedList<S, A>);

/// The same, with the digest of the spans.
type DigestedPart<S, D, A> = (u128, Trace<S, D, A>);

/// How many spans are in parts, if that is below 2^64.
pub(crate) fn span_total<S, A: Allocator>(parts: &[Part<S, A>]) -> Option<u64>
    ensures { MatchOption result (2 ^ 64 ≤ span_count parts.now)
        (λ total. total ≡ span_count parts.now) }
{
    let mut total = 0u64;
    for (_, spans) in parts {
        total = total.checked_add(spans.len() as u64)?;
    }
    Some(total)
}

/// How many bytes they take, if that is below 2^64.
pub(crate) fn byte_total<S: SpanSize, A: Allocator>(parts: &[Part<S, A>]) -> Option<u64>
    ensures { MatchOption result (2 ^ 64 ≤ byte_count S.size_of parts.now)
        (λ total. total ≡ byte_count S.size_of parts.now) }
{
    let mut total = 0u64;
    for (_, spans) in parts {
        total = total.checked_add(total_size(spans)?)?;
    }
    Some(total)
}

/// Takes out this many of the newest traces.
fn take_back<S: SpanSize + Drop, D: Digest<S>, H: BuildHasher, A: Allocator>(
    traces: &mut Traces<S, D, H, A>,
    count: usize,
)
    ensures { traces.new ≡ lru_cache (drop count traces.old.entries) traces.old.cap }
{
    for _ in 0..count {
        drop(traces.pop_mru());
    }
}

/// Adds a part if its trace is new, and else puts it to the others.
fn add_part<S: SpanSize + Drop, D: Digest<S>, H: BuildHasher, A: Allocator + Copy>(
    traces: &mut Traces<S, D, H, A>,
    others: &mut Vec<DigestedPart<S, D, A>, A>,
    part: Part<S, A>,
) -> Result<(), AllocError>
    requires { vec_len others.old < vec_capacity others.old }
    ensures ok { OnOk result (AddsPart traces.old.entries traces.new.entries
        others.old.items others.new.items part) }
    ensures err { OnErr result (traces.new ≡ traces.old) }
    ensures cap { traces.new.cap ≡ traces.old.cap }
    ensures room { vec_capacity others.new ≡ vec_capacity others.old }
{
    let (trace, spans) = part;
    let spans = Trace::new(spans)?;
    if traces.contains(&trace) {
        others.push_reserved((trace, spans));
        return Ok(());
    }
    put_new(traces, trace, spans)
}

/// Adds the parts whose traces are new, and answers the others.
fn add_new<S: SpanSize + Drop, D: Digest<S>, H: BuildHasher, A: Allocator + Copy>(
    traces: &mut Traces<S, D, H, A>,
    parts: Vec<Part<S, A>, A>,
) -> Result<Vec<DigestedPart<S, D, A>, A>, AllocError>
    ensures ok { IfOk result (λ others.
        ArePartway traces.old.entries parts.items traces.new.entries others.items) }
    ensures err { OnErr result (traces.new ≡ traces.old) }
    ensures cap { traces.new.cap ≡ traces.old.cap }
{
    let before = traces.len();
    let mut others = Vec::with_capacity(*traces.allocator(), parts.len())?;
    for part in parts {
        if add_part(traces, &mut others, part).is_err() {
            let added = traces.len() - before;
            take_back(traces, added);
            return Err(AllocError);
        }
    }
    Ok(others)
}

/// Adds parts whose traces are there.
fn add_others<S: SpanSize + Drop, D: Digest<S>, H: BuildHasher, A: Allocator + Copy>(
    traces: &mut Traces<S, D, H, A>,
    parts: Vec<DigestedPart<S, D, A>, A>,
)
    requires there { AreThere traces.old.entries parts.items }
    requires fits { span_count traces.old.entries + span_count parts.items < 2 ^ 63 }
    ensures { traces.new
        ≡ lru_cache (with_parts traces.old.entries parts.items) traces.old.cap }
{
    for (trace, spans) in parts {
        let _ = add_to(traces, trace, spans);
    }
}

/// Adds parts: those of new traces first.
pub(crate) fn add_all<S: SpanSize + Drop, D: Digest<S>, H: BuildHasher, A: Allocator + Copy>(
    traces: &mut Traces<S, D, H, A>,
    parts: Vec<Part<S, A>, A>,
) -> Result<(), AllocError>
    requires { span_count traces.old.entries + span_count parts.items < 2 ^ 63 }
    ensures ok { OnOk result ((order : List (ℕ × List S)) × IsPermutation parts.items order
        × (traces.new
        ≡ lru_cache (with_parts traces.old.entries order) traces.old.cap)) }
    ensures err { OnErr result (traces.new ≡ traces.old) }
{
    let others = add_new(traces, parts)?;
    add_others(traces, others);
    Ok(())
}
