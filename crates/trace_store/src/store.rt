//! The store.

ghost use Rattle.std.specs.Prelude.{◌≡◌, ◌+◌, ◌<◌, ◌↔◌, ◌∷◌, ℕ, List, [], All, IfOk, IsErrOf};
ghost use Rattle.std.specs.Prelude.{MatchOption, None, OnErr, OnOk, Some, length, nat_eq};
ghost use Rattle.std.specs.Prelude.{option_copied};
ghost use Rattle.std.specs.List.Sorted.{IsPermutation};
ghost use Rattle.std.specs.Map.{lookup};
ghost use Rattle.std.specs.List.{AllZip};
ghost use Rattle.trace_store.specs.Stores.{AreNewest, AreWhole, AreWithin, Evicts, HasRoom};
ghost use Rattle.trace_store.specs.Stores.{IsAccounted, MakesRoom};
ghost use Rattle.trace_store.specs.Traces.{span_count, with_parts, with_spans};

use crate::fault::InsertFault;
use crate::fold::Digest;
use crate::kept::{Kept, Limits};
use crate::parts::Part;
use crate::size::SpanSize;
use crate::spans::Trace;
use circular_buffer::HeapCircularBuffer;
use lru::Iter;
use std::alloc::{AllocError, Allocator};
use std::collections::LinkedList;
use std::hash::BuildHasher;
use std::marker::Model;

/// The newest traces of those that were received, within limits (profile). A trace's identifier is
/// a number here, its sixteen bytes with the most significant first; a span is whatever has a size.
///
/// Identifiers come from outside, so the hasher is the caller's: `RandomState` for a service that
/// anyone may send to. What is to be read while others write is kept by shared owners: a store of
/// `Arc<T>` lends a trace by `copy`, which copies the owners and no span. With each trace it keeps
/// a digest of its spans, a `D`.
#[derive(Drop)]
pub struct TraceStore<S: SpanSize, D: Digest<S>, H: BuildHasher, A: Allocator> {
    kept: Kept<S, D, H, A>,
    limits: Limits,
}

impl<S: SpanSize, D: Digest<S>, H: BuildHasher, A: Allocator> Model for TraceStore<S, D, H, A> {
    ghost use Rattle.trace_store.specs.Stores as model;
    ghost use Rattle.trace_store.specs.Stores.{AreWithin, IsAccounted};

    ghost Value = { model.Store S };

    ghost view = { λ s. record {
      kept = s.kept;
      max_spans = s.limits.max_spans;
      max_bytes = s.limits.max_bytes;
    } };

    ghost invariant = { λ s. IsAccounted s.kept
        × AreWithin S.size_of s.limits.max_spans s.limits.max_bytes s.kept.traces };
}

impl<S: SpanSize + Drop, D: Digest<S>, H: BuildHasher + Drop, A: Allocator + Copy> TraceStore<
    S,
    D,
    H,
    A,
> {
    /// A store without traces, which keeps no more than the limits say.
    ///
    /// # Errors
    ///
    /// `AllocError` if memory was refused.
    pub fn new(alloc: A, hasher: H, limits: Limits) -> Result<TraceStore<S, D, H, A>, AllocError>
        ensures { IfOk result (λ store. store ≡ record {
          kept = record {
            traces = [];
            received = 0;
            evicted = 0;
            evicted_traces = 0;
            last_evicted = [];
          };
          max_spans = limits.max_spans;
          max_bytes = limits.max_bytes;
        }) }
    {
        let kept = Kept::new(alloc, hasher)?;
        Ok(TraceStore { kept, limits })
    }

    /// Receives spans of a trace, at least one. They come after those that it has, and the trace
    /// is the newest then, and is kept whole. Where the store holds too much with them, the oldest
    /// other traces go whole, as few as will do: the oldest is the one that got a span least
    /// recently. Traces that go are counted and named.
    ///
    /// # Errors
    ///
    /// `InsertFault::TooLarge` if the trace alone would be above a limit with these spans, and only
    /// then; `InsertFault::OutOfMemory` if memory was refused, or if a count would come to 2^63
    /// spans or 2^64 bytes. The store is then as it was, and no trace goes. Memory is taken only
    /// for a trace that isn't there yet.
    pub fn insert(&mut self, trace: u128, spans: LinkedList<S, A>) -> Result<(), InsertFault>
        requires { 0 < length spans }
        ensures too_large { IsErrOf result InsertFault.TooLarge
            ↔ ¬ HasRoom S.size_of self.old ((trace, spans) ∷ []) }
        ensures whole { OnOk result (AreWhole ((trace, spans) ∷ [])
            (with_spans self.old.kept.traces trace spans) self.new.kept.traces) }
        ensures received { OnOk result
            (self.new.kept.received ≡ self.old.kept.received + length spans) }
        ensures newest { OnOk result (AreNewest S.size_of self.old.max_spans self.old.max_bytes
            (with_spans self.old.kept.traces trace spans) self.new.kept.traces) }
        ensures named { OnOk result (Evicts (with_spans self.old.kept.traces trace spans)
            self.old.kept self.new.kept) }
        ensures accounted { IsAccounted self.new.kept }
        ensures within { AreWithin S.size_of self.new.max_spans self.new.max_bytes
            self.new.kept.traces }
        ensures max_spans { self.new.max_spans ≡ self.old.max_spans }
        ensures max_bytes { self.new.max_bytes ≡ self.old.max_bytes }
        ensures refused { OnErr result (self.new ≡ self.old) }
    {
        if !self.kept.has_room_for(trace, &spans, self.limits) {
            return Err(InsertFault::TooLarge);
        }
        self.kept.insert(trace, spans)?;
        self.kept.evict(self.limits);
        Ok(())
    }

    /// Receives spans of several traces together, as those of one request: all, or none. Each part
    /// is a trace and spans of it, at least one. They are received as by `insert`, part by part and
    /// in some order: traces that are new come first. Only then the oldest traces go, none of them
    /// one of the parts'.
    ///
    /// # Errors
    ///
    /// `InsertFault` as `insert` has it, for all parts together: it is `TooLarge` if the traces
    /// that they have spans of would be above a limit together, each with its earlier spans and
    /// these, and only then. (A trace that several parts have spans of counts once for each.) The
    /// store is then as it was.
    pub fn insert_all(&mut self, parts: Vec<Part<S, A>, A>) -> Result<(), InsertFault>
        requires { All (λ part. 0 < length part.1) parts.items }
        ensures too_large { IsErrOf result InsertFault.TooLarge
            ↔ ¬ HasRoom S.size_of self.old parts.items }
        ensures received { OnOk result
            (self.new.kept.received ≡ self.old.kept.received + span_count parts.items) }
        ensures newest { OnOk result
            ((order : List (ℕ × List S)) × IsPermutation parts.items order
            × AreNewest S.size_of self.old.max_spans self.old.max_bytes
            (with_parts self.old.kept.traces order) self.new.kept.traces
            × Evicts (with_parts self.old.kept.traces order) self.old.kept self.new.kept
            × AreWhole parts.items (with_parts self.old.kept.traces order) self.new.kept.traces) }
        ensures accounted { IsAccounted self.new.kept }
        ensures within { AreWithin S.size_of self.new.max_spans self.new.max_bytes
            self.new.kept.traces }
        ensures max_spans { self.new.max_spans ≡ self.old.max_spans }
        ensures max_bytes { self.new.max_bytes ≡ self.old.max_bytes }
        ensures refused { OnErr result (self.new ≡ self.old) }
    {
        if !self.kept.has_room(&parts, self.limits) {
            return Err(InsertFault::TooLarge);
        }
        self.kept.insert_all(parts)?;
        self.kept.evict(self.limits);
        Ok(())
    }

    /// Gives up the oldest traces, as few as will do, until their spans took at least this many
    /// bytes or no trace is left, and answers how many traces went. They are counted and named as
    /// evicted ones. So a caller that is refused memory gets some back.
    pub fn make_room(&mut self, bytes: u64) -> u64
        ensures room { MakesRoom S.size_of bytes self.old.kept.traces self.new.kept.traces }
        ensures named { Evicts self.old.kept.traces self.old.kept self.new.kept }
        ensures count { result + length self.new.kept.traces ≡ length self.old.kept.traces }
        ensures received { self.new.kept.received ≡ self.old.kept.received }
        ensures accounted { IsAccounted self.new.kept }
        ensures max_spans { self.new.max_spans ≡ self.old.max_spans }
        ensures max_bytes { self.new.max_bytes ≡ self.old.max_bytes }
    {
        self.kept.make_room(bytes)
    }

    /// The spans of a trace, in the order in which they came, if it is kept.
    pub fn get(&self, trace: u128) -> Option<&LinkedList<S, A>>
        ensures { option_copied result ≡ lookup (nat_eq trace) self.now.kept.traces }
    {
        match self.kept.traces().peek(&trace) {
            Some(kept) => Some(kept.spans()),
            None => None,
        }
    }

    /// Copies of the spans of a trace, in the order in which they came, if it is kept.
    ///
    /// # Errors
    ///
    /// `AllocError` if memory was refused.
    pub fn copy(&self, trace: u128) -> Result<Option<LinkedList<S, A>>, AllocError>
    where
        S: Clone,
        ensures { IfOk result (λ found. MatchOption found
            (lookup (nat_eq trace) self.now.kept.traces ≡ None)
            (λ copies. (spans : List S)
            × (lookup (nat_eq trace) self.now.kept.traces ≡ Some spans)
            × AllZip S.is_clone spans copies)) }
    {
        match self.get(trace) {
            Some(spans) => Ok(Some(spans.clone()?)),
            None => Ok(None),
        }
    }

    /// The traces that are kept, the newest first: each an identifier, and the trace's spans with
    /// their digest.
    pub fn iter(&self) -> Iter<'_, u128, Trace<S, D, A>>
        ensures { result ≡ self.now.kept.traces }
    {
        self.kept.traces().iter()
    }

    /// How many spans were received.
    pub fn received(&self) -> u64
        ensures value { result ≡ self.now.kept.received }
        ensures accounted { IsAccounted self.now.kept }
    {
        self.kept.received()
    }

    /// How many spans of those that were received were evicted.
    pub fn evicted(&self) -> u64
        ensures { result ≡ self.now.kept.evicted }
    {
        self.kept.evicted()
    }

    /// How many traces were evicted, or 2^64 - 1 where that is more.
    pub fn evicted_traces(&self) -> u64
        ensures { result ≡ self.now.kept.evicted_traces }
    {
        self.kept.evicted_traces()
    }

    /// The identifiers of the traces that were evicted last, 1,000 at most: the last one last.
    pub fn last_evicted(&self) -> &HeapCircularBuffer<u128, A>
        ensures { result.now.items ≡ self.now.kept.last_evicted }
    {
        self.kept.last_evicted()
    }

    /// How many spans are kept.
    pub fn len(&self) -> u64
        ensures { result ≡ span_count self.now.kept.traces }
    {
        self.kept.received() - self.kept.evicted()
    }
}
