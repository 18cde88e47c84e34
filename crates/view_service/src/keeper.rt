//! What keeps received spans.

ghost use Rattle.std.specs.Prelude.{◌≡◌, ◌<◌, ◌≤◌, ℕ, All, Bool, IfOk, IsErrOf, List, OnErr};
ghost use Rattle.std.specs.Prelude.{OnOk, Option};
ghost use Rattle.std.specs.Prelude.{length, option_map, reverse, ⊤};
ghost use Rattle.std.specs.List.{AllZip};
ghost use Rattle.view_service.specs.Keepers.{GivesUp, KeepsParts, LacksRoom, LendsCopies};

use crate::filter::TraceFilter;
use std::alloc::{AllocError, Global};
use std::collections::LinkedList;
use std::hash::BuildHasher;
use trace_store::{Digest, InsertFault, Part, SpanSize, TraceStore};

/// How many spans were received, what became of them, and how many traces are kept.
#[derive(Clone, Copy, Debug, PartialEq, Eq)]
pub struct Counts {
    /// How many spans were received.
    pub received: u64,
    /// How many of them were evicted.
    pub evicted: u64,
    /// How many traces are kept.
    pub traces: u64,
    /// How many traces were evicted.
    pub evicted_traces: u64,
}

/// A trace, as a list has it, with its digest.
pub type Listed<D> = (u128, D);

/// What keeps received spans, each an `S`, with a digest `D` of each trace. Where several threads
/// have one store, each has a keeper of its own.
pub trait TraceKeeper<S, D: Digest<S>> {
    // From the first state, the parts of a request were kept, and the second state is left.
    ghost keeps: { Self → List (ℕ × List S) → Self → Type 0 };

    // In this state, it has no room for the parts of a request. An `impl` says so, if it can say
    // that.
    ghost lacks_room: { Self → List (ℕ × List S) → Type 0 } = { λ _ _. ⊤ };

    // From the first state, the oldest traces were given up for this many bytes, and the second
    // state is left.
    ghost gives_up: { Self → ℕ → Self → Type 0 };

    // In this state, this may be lent of a trace: its spans, or nothing. An `impl` says so, if it
    // can say that.
    ghost lends: { Self → ℕ → Option (List S) → Type 0 } = { λ _ _ _. ⊤ };

    // In this state, these may be listed of the traces that a test takes, at most this many. An
    // `impl` says so, if it can say that.
    ghost lists: { Self → (ℕ → List S → Bool) → ℕ → List (ℕ × D) → Type 0 } = { λ _ _ _ _. ⊤ };

    /// Keeps the parts of a request, each a trace and spans of it: all, or none.
    ///
    /// # Errors
    ///
    /// `InsertFault` where it has no room for the parts, or where memory was refused. It is then as
    /// it was.
    fn keep(&mut self, parts: Vec<Part<S, Global>>) -> Result<(), InsertFault>
        requires { All (λ part. 0 < length part.1) parts.items }
        ensures kept { OnOk result (keeps self.old parts.items self.new) }
        ensures too_large { IsErrOf result InsertFault.TooLarge
            → lacks_room self.old parts.items }
        ensures refused { OnErr result (self.new ≡ self.old) };

    /// Gives up the oldest traces, until their spans took this many bytes or none is left. It takes
    /// no memory.
    fn make_room(&mut self, bytes: u64)
        ensures { gives_up self.old bytes self.new };

    /// The traces that a filter takes, of those the ones that got a span last, the newest first: so
    /// many at most. Where the filter begins after a trace, they are older than that; there is none
    /// where that trace isn't kept.
    ///
    /// # Errors
    ///
    /// `AllocError` where memory was refused.
    fn newest<F: TraceFilter<S, D>>(
        &self,
        alloc: Global,
        count: usize,
        filter: &F,
    ) -> Result<Vec<Listed<D>>, AllocError>
        ensures { IfOk result (λ listed.
            lists self.now (λ trace spans. F.takes filter.now trace (D.digest_of spans) spans)
            count listed.items) };

    /// The spans of a trace, in the order in which they came, if it is kept.
    ///
    /// # Errors
    ///
    /// `AllocError` where memory was refused.
    fn copy(&self, alloc: Global, trace: u128) -> Result<Option<Vec<S>>, AllocError>
        ensures { IfOk result (λ found. lends self.now trace (option_map (λ v. v.items) found)) };

    /// The traces that were evicted last, the last one first: 1,000 at most.
    ///
    /// # Errors
    ///
    /// `AllocError` where memory was refused.
    fn last_evicted(&self, alloc: Global) -> Result<Vec<u128>, AllocError>;

    /// How many spans were received and evicted.
    fn counts(&self) -> Counts
        ensures { result.evicted ≤ result.received };
}

/// Copies of spans, in order.
///
/// # Errors
///
/// `AllocError` where memory was refused.
fn copies_of<S: Clone + Drop>(alloc: Global, spans: &LinkedList<S>) -> Result<Vec<S>, AllocError>
    ensures { IfOk result (λ copies. AllZip S.is_clone spans.now copies.items) }
{
    let mut copies = Vec::with_capacity(alloc, spans.len())?;
    for span in spans.iter() {
        copies.push(span.clone()?)?;
    }
    Ok(copies)
}

/// Copies of the spans of a trace that a store keeps.
///
/// # Errors
///
/// `AllocError` where memory was refused.
pub(crate) fn copy_kept<S, D, H>(
    alloc: Global,
    store: &TraceStore<S, D, H, Global>,
    trace: u128,
) -> Result<Option<Vec<S>>, AllocError>
where
    S: SpanSize + Clone + Drop,
    D: Digest<S>,
    H: BuildHasher + Drop,
    ensures { IfOk result (λ found.
        LendsCopies S.is_clone store.now trace (option_map (λ v. v.items) found)) }
{
    match store.get(trace) {
        Some(spans) => Ok(Some(copies_of(alloc, spans)?)),
        None => Ok(None),
    }
}

/// The newest traces of a store that a filter takes, at most this many.
///
/// # Errors
///
/// `AllocError` where memory was refused.
pub(crate) fn list_newest<S, D, H, F>(
    alloc: Global,
    store: &TraceStore<S, D, H, Global>,
    count: usize,
    filter: &F,
) -> Result<Vec<Listed<D>>, AllocError>
where
    S: SpanSize + Drop,
    D: Digest<S> + Clone,
    H: BuildHasher + Drop,
    F: TraceFilter<S, D>,
{
    let after = filter.after();
    let mut listed = Vec::new(alloc);
    let mut begun = after.is_none();
    for (trace, kept) in store.iter() {
        if !begun {
            begun = after == Some(*trace);
        } else if listed.len() < count && filter.takes(*trace, kept.digest(), kept.spans()) {
            listed.push((*trace, kept.digest().clone()?))?;
        }
    }
    Ok(listed)
}

/// The traces that a store evicted last, the last one first.
///
/// # Errors
///
/// `AllocError` where memory was refused.
pub(crate) fn last_evicted_of<S, D, H>(
    alloc: Global,
    store: &TraceStore<S, D, H, Global>,
) -> Result<Vec<u128>, AllocError>
where
    S: SpanSize + Drop,
    D: Digest<S>,
    H: BuildHasher + Drop,
    ensures { IfOk result (λ names. names.items ≡ reverse store.now.kept.last_evicted) }
{
    let mut names = store.last_evicted().to_vec(alloc)?;
    names.reverse();
    Ok(names)
}

/// What a store counts.
pub(crate) fn counts_of<S, D, H>(store: &TraceStore<S, D, H, Global>) -> Counts
where
    S: SpanSize + Drop,
    D: Digest<S>,
    H: BuildHasher + Drop,
    ensures below { result.evicted ≤ result.received }
    ensures received { result.received ≡ store.now.kept.received }
    ensures evicted { result.evicted ≡ store.now.kept.evicted }
    ensures traces { result.traces ≡ length store.now.kept.traces }
    ensures evicted_traces { result.evicted_traces ≡ store.now.kept.evicted_traces }
{
    Counts {
        received: store.received(),
        evicted: store.evicted(),
        traces: store.iter().len() as u64,
        evicted_traces: store.evicted_traces(),
    }
}

impl<S, D, H> TraceKeeper<S, D> for TraceStore<S, D, H, Global>
where
    S: SpanSize + Clone + Drop,
    D: Digest<S> + Clone,
    H: BuildHasher + Drop,
{
    ghost use Rattle.std.specs.Prelude.{⊤};
    ghost use Rattle.view_service.specs.Keepers.{GivesUp, KeepsParts, LacksRoom, LendsCopies};

    ghost keeps = { KeepsParts S.size_of };

    ghost lacks_room = { LacksRoom S.size_of };

    ghost gives_up = { GivesUp S.size_of };

    ghost lends = { LendsCopies S.is_clone };

    ghost lists = { λ _ _ _ _. ⊤ };

    fn keep(&mut self, parts: Vec<Part<S, Global>>) -> Result<(), InsertFault>
        requires { All (λ part. 0 < length part.1) parts.items }
        ensures kept { OnOk result (KeepsParts S.size_of self.old parts.items self.new) }
        ensures too_large { IsErrOf result InsertFault.TooLarge
            → LacksRoom S.size_of self.old parts.items }
        ensures refused { OnErr result (self.new ≡ self.old) }
    {
        self.insert_all(parts)
    }

    fn make_room(&mut self, bytes: u64)
        ensures { GivesUp S.size_of self.old bytes self.new }
    {
        let _ = TraceStore::make_room(self, bytes);
    }

    fn newest<F: TraceFilter<S, D>>(
        &self,
        alloc: Global,
        count: usize,
        filter: &F,
    ) -> Result<Vec<Listed<D>>, AllocError> {
        list_newest(alloc, self, count, filter)
    }

    fn copy(&self, alloc: Global, trace: u128) -> Result<Option<Vec<S>>, AllocError>
        ensures { IfOk result (λ found.
            LendsCopies S.is_clone self.now trace (option_map (λ v. v.items) found)) }
    {
        copy_kept(alloc, self, trace)
    }

    fn last_evicted(&self, alloc: Global) -> Result<Vec<u128>, AllocError>
        ensures { IfOk result (λ names. names.items ≡ reverse self.now.kept.last_evicted) }
    {
        last_evicted_of(alloc, self)
    }

    fn counts(&self) -> Counts
        ensures below { result.evicted ≤ result.received }
        ensures received { result.received ≡ self.now.kept.received }
        ensures evicted { result.evicted ≡ self.now.kept.evicted }
        ensures traces { result.traces ≡ length self.now.kept.traces }
        ensures evicted_traces { result.evicted_traces ≡ self.now.kept.evicted_traces }
    {
        counts_of(self)
    }
}
