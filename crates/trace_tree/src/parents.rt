//! The parent of each span.

ghost use Rattle.std.specs.Prelude.{◌≡◌, ℕ, List, IfOk};
ghost use Rattle.std.specs.Borrow.{Bor};
ghost use Rattle.std.specs.BTreeMap.{get};
ghost use Rattle.std.specs.Cmp.Lexicographic.{slice_cmp};
ghost use Rattle.std.specs.Ordering.{nat_cmp};
ghost use Rattle.trace_tree.specs.Cycles.{AreInList};
ghost use Rattle.trace_tree.specs.Parents.{parents_of, place_of_id};

use crate::span::TreeSpan;
use otlp_ids::OutOfMemory;
use std::alloc::Allocator;
use std::collections::BTreeMap;

/// The places of the spans by their identifiers; the first one where several have the same.
fn index_by_id<'a, A: Allocator + Copy>(
    alloc: A,
    spans: &[TreeSpan<'a>],
) -> Result<BTreeMap<&'a [u8], usize, A>, OutOfMemory>
    ensures { IfOk result (λ indices. (id : Bor (List ℕ)) →
        get (λ x y. slice_cmp nat_cmp x.now y.now) indices id ≡ place_of_id spans.now id.now) }
{
    let mut indices = BTreeMap::new(alloc);
    for (index, span) in spans.iter().enumerate() {
        if !indices.contains_key(span.span_id) {
            indices.insert(span.span_id, index)?;
        }
    }
    Ok(indices)
}

/// The place of each span's parent in the list, where it has one there.
pub(crate) fn find_parents<A: Allocator + Copy>(
    alloc: A,
    spans: &[TreeSpan],
) -> Result<Vec<Option<usize>, A>, OutOfMemory>
    ensures value { IfOk result (λ parents. parents.items ≡ parents_of spans.now) }
    ensures in_list { IfOk result (λ parents. AreInList parents.items) }
{
    let indices = index_by_id(alloc, spans)?;
    let mut parents = Vec::with_capacity(alloc, spans.len())?;
    for span in spans {
        let parent = if span.parent_span_id.is_empty() {
            None
        } else {
            indices.get(span.parent_span_id).copied()
        };
        parents.push_reserved(parent);
    }
    Ok(parents)
}
