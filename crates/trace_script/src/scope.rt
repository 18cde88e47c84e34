//! A scope whose attributes are still being set.

ghost use Rattle.std.specs.Prelude.{◌≡◌, [], IfOk, map};
ghost use Rattle.model_span.specs.Attributes.{attribute_list};
ghost use Rattle.otlp_span.specs.Parts.{scope_view};
ghost use Rattle.trace_script.specs.Scripts.{all_kept};
ghost use Rattle.trace_script.specs.Drafts.{scope_draft_view, finished_scope};

use otlp_ids::OutOfMemory;
use otlp_span::Scope;
use otlp_value::{AttributeList, Limits};
use std::alloc::Allocator;

/// A scope, and the attributes that were set on it so far.
#[derive(Drop)]
pub(crate) struct ScopeDraft<A: Allocator> {
    /// Its name.
    pub(crate) name: String<A>,
    /// Its version, or an empty text.
    pub(crate) version: String<A>,
    /// Its attributes.
    pub(crate) attributes: AttributeList<A>,
    /// The schema that its telemetry follows, or an empty text.
    pub(crate) schema_url: String<A>,
}

/// A list for the attributes of a resource or of a scope, which no limits cut. It takes no memory.
pub(crate) fn all_attributes<A: Allocator>(alloc: A) -> AttributeList<A>
    ensures { result ≡ attribute_list all_kept [] }
{
    AttributeList::new(
        alloc,
        Limits {
            count: u32::MAX,
            value_length: None,
        },
    )
}

/// The scopes, each with the attributes that were set on it.
pub(crate) fn finished_scopes<A: Allocator + Copy>(
    alloc: A,
    drafts: Vec<ScopeDraft<A>, A>,
) -> Result<Vec<Scope<A>, A>, OutOfMemory>
    ensures { IfOk result (λ scopes. map scope_view scopes.items
        ≡ map finished_scope (map scope_draft_view drafts.items)) }
{
    let mut scopes = Vec::with_capacity(alloc, drafts.len())?;
    for draft in drafts {
        scopes.push(finished(draft))?;
    }
    Ok(scopes)
}

/// The scope with the attributes that were set on it.
fn finished<A: Allocator>(draft: ScopeDraft<A>) -> Scope<A>
    ensures { scope_view result ≡ finished_scope (scope_draft_view draft) }
{
    let ScopeDraft {
        name,
        version,
        attributes,
        schema_url,
    } = draft;
    Scope {
        name,
        version,
        attributes: attributes.into_pairs(),
        schema_url,
    }
}
