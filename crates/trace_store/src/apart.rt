//! A request, taken apart.

ghost use Rattle.std.specs.Prelude.{◌≡◌, ℕ, ◌<◌, ◌∷◌, [], ◌++◌, All, IfOk, OnOk, length, map};
ghost use Rattle.std.specs.Arc.{arc_value};
ghost use Rattle.std.specs.BTreeSet.{contains};
ghost use Rattle.std.specs.List.Sorted.{IsPermutation, IsStrictlyIncreasing};
ghost use Rattle.std.specs.Ordering.{nat_cmp};
ghost use Rattle.trace_store.specs.SpanParts.{keys_of};
ghost use Rattle.trace_store.specs.Requests as spec;
ghost use Rattle.trace_store.specs.Requests.{IsOfOneTrace, and_spans, and_trace, keyed_of, keyed};
ghost use Rattle.trace_store.specs.Requests.{spans_of_parts, spans_of_request, spans_of_resource};
ghost use Rattle.trace_store.specs.Requests.{spans_of_scope};
ghost use Rattle.otlp_read.specs.Memory.{at_most_64_bits};
ghost use Rattle.trace_store.specs.Sizes.{resource_bytes};

use crate::Part;
use crate::group::group;
use crate::key::trace_key;
use crate::span::{ViewResource, ViewScope, ViewSpan};
use crate::span_size::{resource_size, scope_size};
use otlp_read::{Request, ResourceSpans, ScopeSpans, Span};
use std::alloc::{AllocError, Allocator};
use std::collections::BTreeSet;
use std::sync::Arc;

/// A span, with the number of its trace.
type Keyed<A> = (u128, Arc<ViewSpan<A>, A>);

/// How many of the bytes that spans share are counted with one of this trace, after spans of other
/// traces: all of them with the first of a trace.
fn share_of<A: Allocator + Copy>(
    bytes: u64,
    before: &mut BTreeSet<u128, A>,
    trace: u128,
) -> Result<u64, AllocError>
    ensures share { IfOk result (λ share.
        share ≡ spec.share_of bytes (contains nat_cmp before.old) trace) }
    ensures before { OnOk result (contains nat_cmp before.new
        ≡ and_trace (contains nat_cmp before.old) trace) }
{
    if before.insert(trace)? {
        return Ok(bytes);
    }
    Ok(0)
}

/// Appends a span of this trace, with which this many bytes are counted of what it shares.
fn push_span<A: Allocator + Copy>(
    found: &mut Vec<Keyed<A>, A>,
    resource: &Arc<ViewResource<A>, A>,
    scope: &Arc<ViewScope<A>, A>,
    span: Span<A>,
    trace: u128,
    shared: u64,
) -> Result<(), AllocError>
    ensures { OnOk result (keyed_of found.new.items ≡ keyed_of found.old.items
        ++ (
          trace,
          record {
            resource = arc_value resource.now;
            scope = arc_value scope.now;
            span = span;
            shared = shared;
          },
        ) ∷ []) }
{
    let resource = Arc::try_clone(resource)?;
    let scope = Arc::try_clone(scope)?;
    let kept = Arc::new(
        *found.allocator(),
        ViewSpan {
            span,
            resource,
            scope,
            shared,
        },
    )?;
    Ok(found.push((trace, kept))?)
}

/// Appends the spans of a scope, whose resource takes this many bytes, after spans of the resource
/// that are of these traces.
fn push_scope<A: Allocator + Copy>(
    found: &mut Vec<Keyed<A>, A>,
    resource: &Arc<ViewResource<A>, A>,
    size: u64,
    before: &mut BTreeSet<u128, A>,
    group: ScopeSpans<A>,
) -> Result<(), AllocError>
    requires { size ≡ at_most_64_bits (resource_bytes (arc_value resource.now)) }
    ensures found { OnOk result (keyed_of found.new.items ≡ keyed_of found.old.items
        ++ map keyed
        (spans_of_scope (arc_value resource.now) (contains nat_cmp before.old) group)) }
    ensures before { OnOk result (contains nat_cmp before.new
        ≡ and_spans (contains nat_cmp before.old) group.spans.items) }
{
    let ScopeSpans {
        scope,
        spans,
        schema_url,
    } = group;
    let scope = ViewScope { scope, schema_url };
    let own = scope_size(&scope);
    let scope = Arc::new(*found.allocator(), scope)?;
    let mut before_here = BTreeSet::new(*found.allocator());
    for span in spans {
        let trace = trace_key(&span.trace_id);
        let of_resource = share_of(size, before, trace)?;
        let of_scope = share_of(own, &mut before_here, trace)?;
        let shared = of_resource.saturating_add(of_scope);
        push_span(found, resource, &scope, span, trace, shared)?;
    }
    Ok(())
}

/// Appends the spans of a resource.
fn push_resource<A: Allocator + Copy>(
    found: &mut Vec<Keyed<A>, A>,
    group: ResourceSpans<A>,
) -> Result<(), AllocError>
    ensures { OnOk result (keyed_of found.new.items ≡ keyed_of found.old.items
        ++ map keyed (spans_of_resource group)) }
{
    let ResourceSpans {
        resource,
        scope_spans,
        schema_url,
    } = group;
    let resource = ViewResource {
        resource,
        schema_url,
    };
    let size = resource_size(&resource);
    let resource = Arc::new(*found.allocator(), resource)?;
    let mut before = BTreeSet::new(*found.allocator());
    for scope_group in scope_spans {
        push_scope(found, &resource, size, &mut before, scope_group)?;
    }
    Ok(())
}

/// The spans of a request, in its order, each with the number of its trace.
fn all_spans<A: Allocator + Copy>(
    alloc: A,
    request: Request<A>,
) -> Result<Vec<Keyed<A>, A>, AllocError>
    ensures { IfOk result (λ found. keyed_of found.items
        ≡ map keyed (spans_of_request request)) }
{
    let mut found = Vec::new(alloc);
    let Request { resource_spans } = request;
    for group in resource_spans {
        push_resource(&mut found, group)?;
    }
    Ok(found)
}

/// Takes a request apart into the spans of each trace: a part for each trace that it has spans of,
/// with at least one span, in the order of the traces' numbers. The spans of all parts are those of
/// the request, each once and with its own resource and scope, which it shares with the others that
/// came under them. (opentelemetry-proto, trace.proto: ResourceSpans, ScopeSpans) The bytes of a
/// resource are counted once for each trace that has spans under it, with the first of them, and so
/// are those of a scope, whatever the order of the spans. (profile)
///
/// It takes steps in proportion to n log n for n spans.
///
/// # Errors
///
/// `AllocError` where memory was refused, also where there would be 2^63 owners of a resource. The
/// request is gone then.
pub fn take_apart<A: Allocator + Copy>(
    alloc: A,
    request: Request<A>,
) -> Result<Vec<Part<Arc<ViewSpan<A>, A>, A>, A>, AllocError>
    ensures spans { IfOk result (λ parts.
        IsPermutation (spans_of_request request) (spans_of_parts parts.items)) }
    ensures traces { IfOk result (λ parts. All IsOfOneTrace parts.items) }
    ensures order { IfOk result (λ parts. IsStrictlyIncreasing (keys_of parts.items)) }
    ensures some { IfOk result (λ parts. All (λ part. 0 < length part.1) parts.items) }
{
    let mut spans = all_spans(alloc, request)?;
    spans.sort_by_key(|entry| entry.0)?;
    group(alloc, spans)
}
