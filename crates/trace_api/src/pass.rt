//! What ended spans go to.
ghost use Rattle.std.specs.Prelude.{◌≡◌, ◌<◌, IfOk, IsTrue, OnErr, []};
ghost use Rattle.trace_api.specs.declared.pass.Ended.{Ended};
ghost use Rattle.trace_api.specs.Pass.{Admits, is_admission};

use otlp_ids::OutOfMemory;
use otlp_span::{Reason, SpanData};
use std::alloc::{Allocator, Global};
use std::marker::Model;

/// What became of a span at its end. A ticket is the span's number among the sampled spans that
/// have ended, from 0 on.
#[derive(Debug, Clone, Copy, PartialEq, Eq)]
pub enum Ended {
    /// It waits to be handed to an exporter.
    Queued(u64),
    /// It was handed to an exporter.
    Handed(u64),
    /// It is dropped.
    Dropped(u64, Reason),
    /// It ended after the shutdown, and is only counted.
    Late,
    /// It isn't sampled, so nothing was asked to take it.
    NotSampled,
    /// It had ended before.
    AlreadyEnded,
}

/// Takes sampled spans when they end (Trace SDK, "Span processor": `OnEnd`), each as an `S`, which
/// is `SpanData`.
pub trait EndPass<S> {
    /// What may come of a span: this value before, the span, the answer, and this value after.
    ghost admits: { Self → S → Ended → Self → Type 0 };

    /// Takes a span that has ended. The answer is neither `NotSampled` nor `AlreadyEnded`: these
    /// are said by the span, which then asks nothing of the pass.
    fn admit(&mut self, span: S) -> Ended
        ensures admits { admits self.old span result self.new }
        ensures admission { IsTrue (is_admission result) };
}

/// Keeps ended spans, in the order in which they ended, for one body.
#[derive(Drop)]
#[derive_where(Debug)]
pub struct BodyPass<A: Allocator = Global> {
    spans: Vec<SpanData<A>, A>,
    dropped: u64,
}

impl<A: Allocator> Model for BodyPass<A> {
    ghost use Rattle.std.specs.Vec.{vec_capacity};
    ghost use Rattle.trace_api.specs.Pass.{Body};

    ghost Value = { Body };

    ghost view = { λ p. record {
      spans = p.spans.items;
      room = vec_capacity p.spans;
      dropped = p.dropped;
    } };
}

impl<A: Allocator> BodyPass<A> {
    /// Keeps no span yet, and has room for `room` spans. Where this is 0, it takes no memory.
    ///
    /// # Errors
    ///
    /// `OutOfMemory` where this room can't be had.
    pub fn new(alloc: A, room: usize) -> Result<BodyPass<A>, OutOfMemory>
        ensures value { IfOk result
            (λ pass. pass ≡ record { spans = []; room = room; dropped = 0 }) }
        ensures refused_only_with_room { OnErr result (0 < room) }
    {
        Ok(BodyPass {
            spans: Vec::with_capacity(alloc, room)?,
            dropped: 0,
        })
    }

    /// The spans that were kept, in the order in which they ended.
    pub fn spans(&self) -> &[SpanData<A>]
        ensures { result.now ≡ self.now.spans }
    {
        self.spans.as_slice()
    }
}

impl<A: Allocator> EndPass<SpanData<A>> for BodyPass<A> {
    ghost use Rattle.trace_api.specs.Pass.{Admits};

    ghost admits = { Admits };

    /// Keeps the span while there is room. Beyond it, the span is dropped as `QueueFull`. Its
    /// ticket is the number of spans that have ended before, which stops at 2^64 - 1 (profile). No
    /// memory is taken.
    fn admit(&mut self, span: SpanData<A>) -> Ended {
        let ticket = (self.spans.len() as u64).saturating_add(self.dropped);
        if self.spans.len() < self.spans.capacity() {
            let mut span = span;
            span.set_ticket(ticket);
            self.spans.push_reserved(span);
            Ended::Queued(ticket)
        } else {
            self.dropped = self.dropped.saturating_add(1);
            Ended::Dropped(ticket, Reason::QueueFull)
        }
    }
}
