//! What the threads of a service make their own spans with, and how those are counted.
use crate::site::ShopSampler;
use rand::rngs::StdRng;
use rand::{Rng, SeedableRng};
use std::sync::atomic::{AtomicU64, Ordering};
use trace_kit::trace::{
    EndPass, Ended, Kind, SpanContext, SpanData, ThreadSpan, ThreadTrace, Tracer,
};

/// What a thread makes its own spans with.
#[derive(Drop)]
pub struct Spans<'a> {
    pub tracer: Tracer<'a, ShopSampler>,
    pub rng: StdRng,
}

impl Spans<'_> {
    /// A generator for the spans of one request.
    pub fn rng(&mut self) -> StdRng {
        StdRng::seed_from_u64(self.rng.next_u64())
    }
}

/// Starts a span in that of a request, or a root where the request has none.
pub fn start_in(
    trace: &mut impl ThreadTrace,
    parent: Option<&SpanContext>,
    name: &str,
    kind: Kind,
) -> ThreadSpan {
    match parent {
        Some(parent) => trace.with_remote(parent, name, kind),
        None => trace.root(name, kind),
    }
}

/// The pass of a thread, on which all its spans end, and which counts them.
#[derive(Drop)]
pub struct Counting<'a, P> {
    pub pass: &'a mut P,
    pub ended: &'a AtomicU64,
}

impl<P: EndPass<SpanData>> EndPass<SpanData> for Counting<'_, P> {
    ghost use Rattle.std.specs.Prelude.{⊤};

    ghost admits = { λ _ _ _ _. ⊤ };

    fn admit(&mut self, span: SpanData) -> Ended {
        self.ended.fetch_add(1, Ordering::SeqCst);
        self.pass.admit(span)
    }
}
