//! Traces by their identifiers, the one that got a span last first.

ghost use Rattle.std.specs.Prelude.{◌≡◌, ℕ, ◌+◌, ◌^◌, ◌<◌, [], ◌∷◌, ◌++◌, IsOk, IsSome};
ghost use Rattle.std.specs.Prelude.{MatchOption, None, OnErr, OnOk, length, nat_eq};
ghost use Rattle.std.specs.Map.{lookup};
ghost use Rattle.lru.specs.LruCache.{lru_cache};
ghost use Rattle.trace_store.specs.Traces.{spans_of, with_spans};

use crate::fold::Digest;
use crate::size::SpanSize;
use crate::spans::Trace;
use lru::LruCache;
use std::alloc::{AllocError, Allocator};
use std::hash::BuildHasher;

/// The spans of each trace, in the order in which they came, with their digest.
pub(crate) type Traces<S, D, H, A> = LruCache<u128, Trace<S, D, A>, H, A>;

/// Adds spans to a trace that is there.
pub(crate) fn add_to<S: SpanSize + Drop, D: Digest<S>, H: BuildHasher, A: Allocator + Copy>(
    traces: &mut Traces<S, D, H, A>,
    trace: u128,
    spans: Trace<S, D, A>,
) -> Result<(), AllocError>
    requires there { IsSome (lookup (nat_eq trace) traces.old.entries) }
    requires fits { length (spans_of traces.old.entries trace) + length spans < 2 ^ 63 }
    ensures traces { traces.new
        ≡ lru_cache (with_spans traces.old.entries trace spans) traces.old.cap }
    ensures never { IsOk result }
{
    let empty = Trace::empty(*traces.allocator());
    let Some(mut kept) = traces.put(trace, empty)? else {
        return Err(AllocError);
    };
    kept.append(spans);
    traces.put(trace, kept)?;
    Ok(())
}

/// Puts a trace that isn't there.
pub(crate) fn put_new<S: SpanSize + Drop, D: Digest<S>, H: BuildHasher, A: Allocator + Copy>(
    traces: &mut Traces<S, D, H, A>,
    trace: u128,
    spans: Trace<S, D, A>,
) -> Result<(), AllocError>
    requires { lookup (nat_eq trace) traces.old.entries ≡ None }
    ensures ok { OnOk result (traces.new
        ≡ lru_cache ((trace, spans) ∷ traces.old.entries) traces.old.cap) }
    ensures err { OnErr result (traces.new ≡ traces.old) }
{
    if traces.len() == traces.cap().get() {
        return Err(AllocError);
    }
    traces.put(trace, spans)?;
    Ok(())
}

/// Adds spans to their trace, which is then the first.
pub(crate) fn add<S: SpanSize + Drop, D: Digest<S>, H: BuildHasher, A: Allocator + Copy>(
    traces: &mut Traces<S, D, H, A>,
    trace: u128,
    spans: Trace<S, D, A>,
) -> Result<(), AllocError>
    requires fits { length (spans_of traces.old.entries trace) + length spans < 2 ^ 63 }
    ensures ok { OnOk result (traces.new
        ≡ lru_cache (with_spans traces.old.entries trace spans) traces.old.cap) }
    ensures err { OnErr result (traces.new ≡ traces.old) }
    ensures there { IsSome (lookup (nat_eq trace) traces.old.entries) → IsOk result }
{
    if traces.contains(&trace) {
        return add_to(traces, trace, spans);
    }
    put_new(traces, trace, spans)
}

/// Takes out the oldest trace, which is the last.
pub(crate) fn take_oldest<S: SpanSize, D: Digest<S>, H: BuildHasher, A: Allocator>(
    traces: &mut Traces<S, D, H, A>,
) -> Option<(u128, Trace<S, D, A>)>
    ensures { MatchOption result (traces.old.entries ≡ [])
        (λ oldest. traces.old.entries ≡ traces.new.entries ++ oldest ∷ []) }
{
    traces.pop_lru()
}
