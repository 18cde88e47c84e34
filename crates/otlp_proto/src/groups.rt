//! Groups of spans, and how they are made.
ghost use Rattle.std.specs.Prelude.{◌≡◌, ◌≢◌, [], IfOk, OnErr, map};
ghost use Rattle.model_export.specs.Export as model;
ghost use Rattle.otlp_proto.specs.Group.{groups_view, resources_view, scope_group_view};
ghost use Rattle.otlp_proto.specs.Group.{scopes_view};

use crate::keyed::{Keyed, add};
use indexmap::IndexMap;
use otlp_ids::OutOfMemory;
use otlp_span::{Resource, Scope, SpanData};
use std::alloc::{Allocator, Global};
use std::fmt;

/// The spans of one scope, in their order.
#[derive(Drop)]
pub struct ScopeGroup<'a, A: Allocator = Global> {
    /// The scope.
    pub scope: &'a Scope<A>,
    /// Its spans.
    pub spans: Vec<&'a SpanData<A>, A>,
}

/// The spans of one resource, by scope, in the order in which the scopes came first.
#[derive(Drop)]
pub struct ResourceGroup<'a, A: Allocator = Global> {
    /// The resource.
    pub resource: &'a Resource<A>,
    /// Its scopes, with their spans.
    pub scopes: Vec<ScopeGroup<'a, A>, A>,
}

/// Writes the scope and how many spans there are.
impl<A: Allocator> fmt::Debug for ScopeGroup<'_, A> {
    fn fmt<W: fmt::Write>(&self, f: &mut fmt::Formatter<W>) -> fmt::Result {
        f.debug_struct("ScopeGroup")
            .field("scope", &self.scope)
            .field("spans", &self.spans.len())
            .finish()
    }
}

/// Writes the resource and how many scopes there are.
impl<A: Allocator> fmt::Debug for ResourceGroup<'_, A> {
    fn fmt<W: fmt::Write>(&self, f: &mut fmt::Formatter<W>) -> fmt::Result {
        f.debug_struct("ResourceGroup")
            .field("resource", &self.resource)
            .field("scopes", &self.scopes.len())
            .finish()
    }
}

/// The spans by resource, in the order in which the resources came first.
fn by_resource<'a, A: Allocator + Copy>(
    alloc: A,
    spans: &'a [SpanData<A>],
) -> Result<Keyed<&'a Resource<A>, &'a SpanData<A>, A>, OutOfMemory>
    ensures grouped { IfOk result (λ groups. resources_view groups.entries
        ≡ model.groups_by model.resource_eq (λ x. x.resource) spans.now) }
    ensures refused { OnErr result (spans.now ≢ []) }
{
    let mut resources = IndexMap::new(alloc);
    for span in spans {
        add(alloc, &mut resources, span.resource(), span)?;
    }
    Ok(resources)
}

/// The spans by scope, in the order in which the scopes came first.
fn by_scope<'a, A: Allocator + Copy>(
    alloc: A,
    spans: &[&'a SpanData<A>],
) -> Result<Keyed<&'a Scope<A>, &'a SpanData<A>, A>, OutOfMemory>
    ensures { IfOk result (λ groups. scopes_view groups.entries
        ≡ model.groups_by model.scope_eq (λ x. x.scope) (map (λ s. s.now) spans.now)) }
{
    let mut scopes = IndexMap::new(alloc);
    for span in spans {
        add(alloc, &mut scopes, span.scope(), *span)?;
    }
    Ok(scopes)
}

/// The groups of the spans of one resource.
fn scope_groups<'a, A: Allocator + Copy>(
    alloc: A,
    spans: &[&'a SpanData<A>],
) -> Result<Vec<ScopeGroup<'a, A>, A>, OutOfMemory>
    ensures { IfOk result (λ groups. map scope_group_view groups.items
        ≡ model.groups_by model.scope_eq (λ x. x.scope) (map (λ s. s.now) spans.now)) }
{
    let mut groups = Vec::new(alloc);
    for (scope, spans) in by_scope(alloc, spans)? {
        groups.push(ScopeGroup { scope, spans })?;
    }
    Ok(groups)
}

/// The spans by resource, and inside by scope: resources and scopes in the order in which they came
/// first, spans in theirs, and each as often as it is there. Two resources or scopes are one where
/// all their fields are equal; attributes in another order make a difference (profile).
///
/// # Errors
///
/// `OutOfMemory` where there is no room for the groups. Without spans none is wanted.
pub fn group<'a, A: Allocator + Copy>(
    alloc: A,
    spans: &'a [SpanData<A>],
) -> Result<Vec<ResourceGroup<'a, A>, A>, OutOfMemory>
    ensures grouped { IfOk result (λ v. groups_view v.items ≡ model.groups spans.now) }
    ensures refused { OnErr result (spans.now ≢ []) }
{
    let mut groups = Vec::new(alloc);
    for (resource, spans) in by_resource(alloc, spans)? {
        let scopes = scope_groups(alloc, spans.as_slice())?;
        groups.push(ResourceGroup { resource, scopes })?;
    }
    Ok(groups)
}
