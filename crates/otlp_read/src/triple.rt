//! Spans with the scope and the resource that they are under (opentelemetry-proto, trace.proto:
//! ResourceSpans, ScopeSpans).

ghost use Rattle.std.specs.Prelude.{◌≡◌, ◌≢◌, [], ◌++◌, IfOk, OnErr, OnOk, map, string_bytes};
ghost use Rattle.model_message.specs.Messages.{triples, resource_triples, scope_triples};
ghost use Rattle.otlp_read.specs.Resources.{resource_view};
ghost use Rattle.otlp_read.specs.Requests.{scope_spans_view, resource_spans_view, request_view};
ghost use Rattle.otlp_read.specs.Triples.{triple_view, triples_view};

use crate::request::{Request, ResourceSpans, ScopeSpans};
use crate::resource::{InstrumentationScope, Resource};
use crate::span::Span;
use otlp_ids::OutOfMemory;
use std::alloc::{Allocator, Global};

/// A span with the scope and the resource that it is under (opentelemetry-proto, trace.proto:
/// ResourceSpans, ScopeSpans).
#[derive_where(Clone, Copy, Debug)]
pub struct Triple<'a, A: Allocator = Global> {
    /// The resource.
    pub resource: &'a Resource<A>,
    /// The schema URL of the resource.
    pub resource_schema_url: &'a str,
    /// The scope.
    pub scope: &'a InstrumentationScope<A>,
    /// The schema URL of the scope and its spans.
    pub scope_schema_url: &'a str,
    /// The span.
    pub span: &'a Span<A>,
}

/// Appends the spans of a scope.
fn push_scope<'a, A: Allocator + Copy>(
    found: &mut Vec<Triple<'a, A>, A>,
    group: &'a ResourceSpans<A>,
    scope_group: &'a ScopeSpans<A>,
) -> Result<(), OutOfMemory>
    ensures appended { OnOk result (triples_view found.new.items ≡ triples_view found.old.items
        ++ scope_triples (resource_view group.now.resource) (string_bytes group.now.schema_url)
        (scope_spans_view scope_group.now)) }
    ensures memory { OnErr result (scope_triples (resource_view group.now.resource)
        (string_bytes group.now.schema_url) (scope_spans_view scope_group.now) ≢ []) }
{
    for span in &scope_group.spans {
        found.push(Triple {
            resource: &group.resource,
            resource_schema_url: &group.schema_url,
            scope: &scope_group.scope,
            scope_schema_url: &scope_group.schema_url,
            span,
        })?;
    }
    Ok(())
}

/// Appends the spans of a resource, scope by scope.
fn push_resource<'a, A: Allocator + Copy>(
    found: &mut Vec<Triple<'a, A>, A>,
    group: &'a ResourceSpans<A>,
) -> Result<(), OutOfMemory>
    ensures appended { OnOk result (triples_view found.new.items ≡ triples_view found.old.items
        ++ resource_triples (resource_spans_view group.now)) }
    ensures memory { OnErr result (resource_triples (resource_spans_view group.now) ≢ []) }
{
    for scope_group in &group.scope_spans {
        push_scope(found, group, scope_group)?;
    }
    Ok(())
}

impl<A: Allocator + Copy> Request<A> {
    /// Its spans, in the order of reading: resource by resource, and scope by scope in each. No
    /// message is copied.
    ///
    /// # Errors
    ///
    /// `OutOfMemory` where the list of them could not be stored. An empty one takes no memory.
    pub fn triples(&self) -> Result<Vec<Triple<'_, A>, A>, OutOfMemory>
        ensures listed { IfOk result (λ found. map triple_view found.items ≡
            triples (request_view self.now)) }
        ensures memory { OnErr result (triples (request_view self.now) ≢ []) }
    {
        let mut found = Vec::new(*self.resource_spans.allocator());
        for group in &self.resource_spans {
            push_resource(&mut found, group)?;
        }
        Ok(found)
    }
}
