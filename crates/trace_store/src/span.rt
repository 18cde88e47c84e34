//! A span, with what it belongs to.

use otlp_read::{InstrumentationScope, Resource, Span};
use std::alloc::{Allocator, Global};
use std::sync::Arc;

/// A resource, which several spans share (opentelemetry-proto, trace.proto: ResourceSpans).
#[derive(Drop)]
pub struct ViewResource<A: Allocator = Global> {
    /// The resource.
    pub resource: Resource<A>,
    /// Its schema URL.
    pub schema_url: String<A>,
}

/// A scope, which several spans share (opentelemetry-proto, trace.proto: ScopeSpans).
#[derive(Drop)]
pub struct ViewScope<A: Allocator = Global> {
    /// The scope.
    pub scope: InstrumentationScope<A>,
    /// The schema URL of the scope and its spans.
    pub schema_url: String<A>,
}

/// A span as it is kept to be shown: itself, with the resource and the scope that it shares with
/// others.
#[derive(Drop)]
pub struct ViewSpan<A: Allocator = Global> {
    /// The span.
    pub span: Span<A>,
    /// The resource that made it.
    pub resource: Arc<ViewResource<A>, A>,
    /// The scope that made it.
    pub scope: Arc<ViewScope<A>, A>,
    /// How many bytes of the resource and the scope are counted as this span's.
    pub shared: u64,
}
