//! Resources and scopes.

ghost use Rattle.std.specs.Prelude.{◌≡◌, ◌++◌, OnOk};
ghost use Rattle.otlp_json.specs.Seen.{seen};
ghost use Rattle.view_json.specs.Spans.{resource_member, scope_member};

use crate::value::push_attributes;
use json::Writer;
use otlp_json::field::{begin_member, end, push_number, push_text};
use otlp_read::{InstrumentationScope, Resource};
use std::alloc::{AllocError, Allocator};

/// Writes a resource, as the member `resource` (resource.proto: Resource).
#[tactic(auto, unfolding(crate::specs::Spans::resource_member))]
pub(crate) fn push_resource<A: Allocator + Copy>(
    alloc: A,
    out: &mut Writer<A>,
    resource: &Resource<A>,
) -> Result<(), AllocError>
    ensures seen { OnOk result (seen out.new.tokens
        ≡ seen out.old.tokens ++ resource_member resource.now) }
    ensures before { out.new.before ≡ out.old.before }
{
    begin_member(out, "resource")?;
    push_attributes(alloc, out, &resource.attributes)?;
    let dropped = u64::from(resource.dropped_attributes_count);
    push_number(out, "droppedAttributesCount", dropped)?;
    end(out)
}

/// Writes a scope, as the member `scope` (common.proto: InstrumentationScope).
#[tactic(auto, unfolding(crate::specs::Spans::scope_member))]
pub(crate) fn push_scope<A: Allocator + Copy>(
    alloc: A,
    out: &mut Writer<A>,
    scope: &InstrumentationScope<A>,
) -> Result<(), AllocError>
    ensures seen { OnOk result (seen out.new.tokens
        ≡ seen out.old.tokens ++ scope_member scope.now) }
    ensures before { out.new.before ≡ out.old.before }
{
    begin_member(out, "scope")?;
    push_text(out, "name", &scope.name)?;
    push_text(out, "version", &scope.version)?;
    push_attributes(alloc, out, &scope.attributes)?;
    let dropped = u64::from(scope.dropped_attributes_count);
    push_number(out, "droppedAttributesCount", dropped)?;
    end(out)
}
