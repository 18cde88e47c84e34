//! What a run begins with.
use batch_desk::DeskConfig;
use otlp_sampler::Sampler;
use otlp_span::{Resource, Scope, SpanLimits};
use rand_core::Rng;
use retry_core::RetryConfig;
use std::alloc::{Allocator, Global};

/// What a run has before its first step (Trace SDK, "Tracer Provider", "Batching processor").
#[derive(Drop)]
#[derive_where(Debug; S, R)]
pub struct RunConfig<S: Sampler, R: Rng, A: Allocator = Global> {
    /// What decides on the spans.
    pub sampler: S,
    /// How much they keep.
    pub limits: SpanLimits,
    /// What makes them.
    pub resource: Resource<A>,
    /// The scopes whose tracers start them, numbered from 0 on.
    pub scopes: Vec<Scope<A>, A>,
    /// How much the queue and a batch hold, and the delay. It is one that `Desk::new` takes.
    pub desk: DeskConfig,
    /// How often a batch is sent, and how long the waits between are.
    pub retry: RetryConfig,
    /// The greatest body that is sent, in bytes: a batch with a longer one is dropped.
    pub max_body: usize,
    /// Where identifiers are drawn from.
    pub rng: R,
}
