//! Spans of a list that have the same identifier.

ghost use Rattle.std.specs.Prelude.{◌≡◌, ◌∷◌, ◌++◌, [], List, OnOk, length, option_map};
ghost use Rattle.trace_lines.specs.Keys.{value_at};
ghost use Rattle.trace_lines.specs.Repeats.{AreUses, mark_by, next_use};
ghost use Rattle.trace_lines.specs.declared.repeat.Use.{Use as Used};
ghost use Rattle.trace_store.specs.declared.span.ViewSpan.{ViewSpan};

use otlp_ids::OutOfMemory;
use std::alloc::Allocator;
use std::collections::BTreeMap;

/// How an identifier is used in a list of spans.
#[derive(Clone, Copy)]
pub(crate) struct Use {
    /// The place of the first span that has it.
    first: usize,
    /// Whether another span has it.
    is_repeated: bool,
}

/// What a row says of the identifier of its span.
#[derive(Clone, Copy)]
pub struct Mark {
    /// Whether its span is the first one of the list that has it.
    pub is_first: bool,
    /// Whether another span has it.
    pub is_repeated: bool,
}

/// The use of an identifier, with one more span that has it, in this place.
fn next_use(before: Option<Use>, place: usize) -> Use
    ensures { result ≡ next_use before place }
{
    match before {
        Some(used) => Use {
            first: used.first,
            is_repeated: true,
        },
        None => Use {
            first: place,
            is_repeated: false,
        },
    }
}

/// Adds the next span of a list, which has this identifier and this place, to the uses of
/// identifiers. The identifier is copied.
///
/// # Errors
///
/// `OutOfMemory` where memory was refused. Nothing changed then.
pub(crate) fn add_use<A: Allocator + Copy>(
    alloc: A,
    uses: &mut BTreeMap<Vec<u8, A>, Use, A>,
    id: &[u8],
    place: usize,
) -> Result<(), OutOfMemory>
    ensures { (spans : List (ViewSpan A)) (span : ViewSpan A) → AreUses spans uses.old
        → id.now ≡ span.span.span_id.items → place ≡ length spans
        → OnOk result (AreUses (spans ++ span ∷ []) uses.new) }
{
    let before = uses.get(id).copied();
    let key = Vec::from_slice(alloc, id)?;
    uses.insert(key, next_use(before, place))?;
    Ok(())
}

/// The place of the first span that has this identifier, if one has it.
pub(crate) fn first_of<A: Allocator>(
    uses: &BTreeMap<Vec<u8, A>, Use, A>,
    id: &[u8],
) -> Option<usize>
    ensures { result ≡ option_map (λ (u : Used). u.first) (value_at uses.now id.now) }
{
    match uses.get(id) {
        Some(used) => Some(used.first),
        None => None,
    }
}

/// What the row in this place says of the identifier of its span.
pub(crate) fn mark_of<A: Allocator>(
    uses: &BTreeMap<Vec<u8, A>, Use, A>,
    id: &[u8],
    place: usize,
) -> Mark
    ensures { result ≡ mark_by (value_at uses.now id.now) place }
{
    match uses.get(id) {
        Some(used) => Mark {
            is_first: used.first == place,
            is_repeated: used.is_repeated,
        },
        None => Mark {
            is_first: false,
            is_repeated: false,
        },
    }
}
