//! A span under its resource and its scope, as OTLP's JSON has it.

ghost use Rattle.std.specs.Prelude.{◌≡◌, ◌++◌, OnOk};
ghost use Rattle.otlp_json.specs.Seen.{seen};
ghost use Rattle.view_json.specs.Spans.{resource_spans_seen, scope_spans_seen};

use crate::part::{push_resource, push_scope};
use crate::span::push_span;
use json::Writer;
use otlp_json::field::{begin, begin_list, end, end_list, push_text};
use otlp_read::Span;
use std::alloc::{AllocError, Allocator};
use trace_store::{ViewResource, ViewScope};

/// Writes a scope with one span (trace.proto: ScopeSpans).
#[tactic(auto, unfolding(crate::specs::Spans::scope_spans_seen))]
fn push_scope_spans<A: Allocator + Copy>(
    alloc: A,
    out: &mut Writer<A>,
    scope: &ViewScope<A>,
    span: &Span<A>,
) -> Result<(), AllocError>
    ensures seen { OnOk result (seen out.new.tokens
        ≡ seen out.old.tokens ++ scope_spans_seen scope.now span.now) }
    ensures before { out.new.before ≡ out.old.before }
{
    begin(out)?;
    push_scope(alloc, out, &scope.scope)?;
    begin_list(out, "spans")?;
    push_span(alloc, out, span)?;
    end_list(out)?;
    push_text(out, "schemaUrl", &scope.schema_url)?;
    end(out)
}

/// Writes a resource with one span in a scope (trace.proto: ResourceSpans).
#[tactic(auto, unfolding(crate::specs::Spans::resource_spans_seen))]
pub(crate) fn push_resource_spans<A: Allocator + Copy>(
    alloc: A,
    out: &mut Writer<A>,
    resource: &ViewResource<A>,
    scope: &ViewScope<A>,
    span: &Span<A>,
) -> Result<(), AllocError>
    ensures seen { OnOk result (seen out.new.tokens ≡ seen out.old.tokens
        ++ resource_spans_seen resource.now scope.now span.now) }
    ensures before { out.new.before ≡ out.old.before }
{
    begin(out)?;
    push_resource(alloc, out, &resource.resource)?;
    begin_list(out, "scopeSpans")?;
    push_scope_spans(alloc, out, scope, span)?;
    end_list(out)?;
    push_text(out, "schemaUrl", &resource.schema_url)?;
    end(out)
}
