//! Traces, and what is counted of them.

ghost use Rattle.std.specs.Prelude.{◌≡◌, ◌+◌, ◌≤◌, ◌<◌, ◌↔◌, ◌++◌, ◌∷◌, [], ℕ, List, IfOk, IsTrue};
ghost use Rattle.std.specs.Prelude.{◌⊎◌, OnErr, OnOk, ◌-◌, ◌^◌, length, min};
ghost use Rattle.circular_buffer.specs.Buffer.{keep_last};
ghost use Rattle.trace_store.specs.Stores.{AreNewest, AreWithin, Evicts, IsAccounted};
ghost use Rattle.trace_store.specs.Stores.{IsBounded, MakesRoom};
ghost use Rattle.std.specs.List.Sorted.{IsPermutation};
ghost use Rattle.trace_store.specs.Traces.{byte_count, joined_traces, span_count, with_parts};
ghost use Rattle.trace_store.specs.Traces.{with_spans};

use crate::fold::Digest;
use crate::joined::{bytes_with, is_at_most, joined_bytes, joined_spans, spans_with};
use crate::parts::{Part, add_all, byte_total, span_total};
use crate::size::{SpanSize, total_size};
use crate::spans::Trace;
use crate::traces::{Traces, add, take_oldest};
use circular_buffer::HeapCircularBuffer;
use lru::LruCache;
use std::alloc::{AllocError, Allocator};
use std::collections::LinkedList;
use std::hash::BuildHasher;
use std::marker::Model;

/// How many spans are received at most.
const MOST: u64 = (1 << 63) - 1;

/// Of how many traces that were evicted it is known which they are.
const NAMED: usize = 1_000;

/// How much is kept at most.
#[derive(Debug, Clone, Copy, PartialEq, Eq)]
pub struct Limits {
    /// How many spans.
    pub max_spans: u64,
    /// How many bytes all of them take.
    pub max_bytes: u64,
}

/// Traces, and what is counted of them.
#[derive(Drop)]
pub(crate) struct Kept<S: SpanSize, D: Digest<S>, H: BuildHasher, A: Allocator> {
    traces: Traces<S, D, H, A>,
    bytes: u64,
    received: u64,
    evicted: u64,
    evicted_traces: u64,
    last_evicted: HeapCircularBuffer<u128, A>,
}

impl<S: SpanSize, D: Digest<S>, H: BuildHasher, A: Allocator> Model for Kept<S, D, H, A> {
    ghost use Rattle.std.specs.Prelude.{◌≡◌, ◌+◌, ◌<◌, ◌≤◌, ◌^◌, length};
    ghost use Rattle.trace_store.specs.Stores as model;
    ghost use Rattle.trace_store.specs.Traces.{byte_count, span_count};

    ghost Value = { model.Kept S };

    ghost view = { λ k. record {
      traces = k.traces.entries;
      received = k.received;
      evicted = k.evicted;
      evicted_traces = k.evicted_traces;
      last_evicted = k.last_evicted.items;
    } };

    ghost invariant = { λ k. (k.received ≡ span_count k.traces.entries + k.evicted)
        × (k.received < 2 ^ 63)
        × (k.bytes ≡ byte_count S.size_of k.traces.entries)
        × (k.last_evicted.capacity ≡ 1000)
        × (length k.last_evicted.items ≤ 1000)
        × (k.evicted_traces < 2 ^ 64)
        × (k.bytes < 2 ^ 64) };
}

impl<S: SpanSize + Drop, D: Digest<S>, H: BuildHasher + Drop, A: Allocator + Copy> Kept<
    S,
    D,
    H,
    A,
> {
    /// No trace.
    pub(crate) fn new(alloc: A, hasher: H) -> Result<Kept<S, D, H, A>, AllocError>
        ensures { IfOk result (λ kept. kept ≡ record {
          traces = [];
          received = 0;
          evicted = 0;
          evicted_traces = 0;
          last_evicted = [];
        }) }
    {
        let traces = LruCache::unbounded_with_hasher(alloc, hasher)?;
        let last_evicted = HeapCircularBuffer::with_capacity(alloc, NAMED)?;
        Ok(Kept {
            traces,
            bytes: 0,
            received: 0,
            evicted: 0,
            evicted_traces: 0,
            last_evicted,
        })
    }

    /// The traces.
    pub(crate) fn traces(&self) -> &Traces<S, D, H, A>
        ensures { result.now.entries ≡ self.now.traces }
    {
        &self.traces
    }

    /// How many spans were received.
    pub(crate) fn received(&self) -> u64
        ensures { result ≡ self.now.received }
    {
        self.received
    }

    /// How many of them were evicted.
    pub(crate) fn evicted(&self) -> u64
        ensures { result ≡ self.now.evicted }
    {
        self.evicted
    }

    /// How many traces were evicted.
    pub(crate) fn evicted_traces(&self) -> u64
        ensures { result ≡ self.now.evicted_traces }
    {
        self.evicted_traces
    }

    /// The traces that were evicted last, the last of them last.
    pub(crate) fn last_evicted(&self) -> &HeapCircularBuffer<u128, A>
        ensures { result.now.items ≡ self.now.last_evicted }
    {
        &self.last_evicted
    }

    /// Whether the traces are within limits.
    fn is_within(&self, limits: Limits) -> bool
        ensures value { IsTrue result
            ↔ AreWithin S.size_of limits.max_spans limits.max_bytes self.now.traces }
        ensures accounted { IsAccounted self.now }
        ensures bounded { IsBounded self.now }
    {
        self.received - self.evicted <= limits.max_spans && self.bytes <= limits.max_bytes
    }

    /// Whether the traces of parts are within limits with them.
    pub(crate) fn has_room(&self, parts: &[Part<S, A>], limits: Limits) -> bool
        ensures { IsTrue result ↔ AreWithin S.size_of limits.max_spans limits.max_bytes
            (joined_traces self.now.traces parts.now) }
    {
        is_at_most(joined_spans(&self.traces, parts), limits.max_spans)
            && is_at_most(joined_bytes(&self.traces, parts), limits.max_bytes)
    }

    /// Whether a trace is within limits with more spans.
    pub(crate) fn has_room_for(&self, trace: u128, more: &LinkedList<S, A>, limits: Limits) -> bool
        ensures { IsTrue result ↔ AreWithin S.size_of limits.max_spans limits.max_bytes
            (joined_traces self.now.traces ((trace, more.now) ∷ [])) }
    {
        is_at_most(spans_with(&self.traces, trace, more), limits.max_spans)
            && is_at_most(bytes_with(&self.traces, trace, more), limits.max_bytes)
    }

    /// Receives spans of a trace, which is then the newest.
    pub(crate) fn insert(&mut self, trace: u128, spans: LinkedList<S, A>) -> Result<(), AllocError>
        ensures ok { OnOk result (self.new ≡ record self.old {
          traces = with_spans self.old.traces trace spans;
          received = self.old.received + length spans;
        }) }
        ensures err { OnErr result (self.new ≡ self.old) }
    {
        let count = spans.len() as u64;
        if MOST - self.received < count {
            return Err(AllocError);
        }
        let Some(size) = total_size(&spans) else {
            return Err(AllocError);
        };
        let Some(bytes) = self.bytes.checked_add(size) else {
            return Err(AllocError);
        };
        let part = Trace::new(spans)?;
        add(&mut self.traces, trace, part)?;
        self.bytes = bytes;
        self.received += count;
        Ok(())
    }

    /// Receives spans of several traces together: all or none.
    pub(crate) fn insert_all(&mut self, parts: Vec<Part<S, A>, A>) -> Result<(), AllocError>
        ensures ok { OnOk result ((order : List (ℕ × List S)) × IsPermutation parts.items order
            × (self.new ≡ record self.old {
              traces = with_parts self.old.traces order;
              received = self.old.received + span_count parts.items;
            })) }
        ensures err { OnErr result (self.new ≡ self.old) }
    {
        let Some(count) = span_total(&parts) else {
            return Err(AllocError);
        };
        if MOST - self.received < count {
            return Err(AllocError);
        }
        let Some(size) = byte_total(&parts) else {
            return Err(AllocError);
        };
        let Some(bytes) = self.bytes.checked_add(size) else {
            return Err(AllocError);
        };
        add_all(&mut self.traces, parts)?;
        self.bytes = bytes;
        self.received += count;
        Ok(())
    }

    /// Evicts the oldest trace.
    fn evict_oldest(&mut self)
        requires { 0 < length self.old.traces }
        ensures received { self.new.received ≡ self.old.received }
        ensures oldest { (oldest : ℕ × List S)
            × (self.old.traces ≡ self.new.traces ++ oldest ∷ [])
            × (self.new.evicted ≡ self.old.evicted + length oldest.1)
            × (self.new.evicted_traces ≡ min (self.old.evicted_traces + 1) (2 ^ 64 - 1))
            × (self.new.last_evicted ≡ keep_last 1000 (self.old.last_evicted ++ oldest.0 ∷ [])) }
    {
        let Some((trace, oldest)) = take_oldest(&mut self.traces) else {
            return;
        };
        let spans = oldest.spans();
        self.evicted += spans.len() as u64;
        self.bytes -= oldest.bytes();
        self.evicted_traces = self.evicted_traces.saturating_add(1);
        self.last_evicted.push_back(trace);
    }

    /// Evicts the oldest traces until the others are within limits.
    pub(crate) fn evict(&mut self, limits: Limits)
        ensures newest { AreNewest S.size_of limits.max_spans limits.max_bytes
            self.old.traces self.new.traces }
        ensures named { Evicts self.old.traces self.old self.new }
        ensures within { AreWithin S.size_of limits.max_spans limits.max_bytes self.new.traces }
        ensures received { self.new.received ≡ self.old.received }
        ensures accounted { IsAccounted self.new }
    {
        let mut is_within = self.is_within(limits);
        while !is_within {
            self.evict_oldest();
            is_within = self.is_within(limits);
        }
    }

    /// How many bytes the spans of the traces take.
    fn byte_count(&self) -> u64
        ensures { result ≡ byte_count S.size_of self.now.traces }
    {
        self.bytes
    }

    /// How many traces there are.
    fn trace_count(&self) -> usize
        ensures { result ≡ length self.now.traces }
    {
        self.traces.len()
    }

    /// Whether of traces that took `before` bytes at least `bytes` were given up, or all of them.
    fn has_given(&self, before: u64, bytes: u64) -> bool
        requires { byte_count S.size_of self.now.traces ≤ before }
        ensures value { IsTrue result ↔ (
            (bytes ≤ before - byte_count S.size_of self.now.traces) ⊎ (self.now.traces ≡ [])) }
        ensures accounted { IsAccounted self.now }
        ensures bounded { IsBounded self.now }
    {
        self.traces.is_empty() || before - self.bytes >= bytes
    }

    /// Evicts the oldest traces until they took at least this many bytes, or none is left, and
    /// answers how many went.
    pub(crate) fn make_room(&mut self, bytes: u64) -> u64
        ensures room { MakesRoom S.size_of bytes self.old.traces self.new.traces }
        ensures named { Evicts self.old.traces self.old self.new }
        ensures count { result + length self.new.traces ≡ length self.old.traces }
        ensures received { self.new.received ≡ self.old.received }
        ensures accounted { IsAccounted self.new }
    {
        let before = self.byte_count();
        let count = self.trace_count();
        let mut is_done = self.has_given(before, bytes);
        while !is_done {
            self.evict_oldest();
            is_done = self.has_given(before, bytes);
        }
        (count - self.trace_count()) as u64
    }
}
