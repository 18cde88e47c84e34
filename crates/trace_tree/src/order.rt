//! The order of spans, and the families that it makes.

ghost use Rattle.std.specs.Prelude.{◌≡◌, ◌∷◌, ◌++◌, ◌<◌, [], All, IfOk, OnOk, length};
ghost use Rattle.std.specs.Prelude.{replicate, slice_set};
ghost use Rattle.std.specs.List.{slice_index_or};
ghost use Rattle.trace_tree.specs.Cycles.{AreInList};
ghost use Rattle.trace_tree.specs.Order.{AreChildren, lists_of, places_of};
ghost use Rattle.trace_tree.specs.Order.{tops_of};

use otlp_ids::OutOfMemory;
use std::alloc::Allocator;

/// The spans at the top, and the children of each span, in order.
#[derive(Drop)]
pub(crate) struct Families<A: Allocator> {
    pub(crate) tops: Vec<usize, A>,
    pub(crate) children: Vec<Vec<usize, A>, A>,
}

/// No children for this many spans.
fn no_children<A: Allocator + Copy>(
    alloc: A,
    count: usize,
) -> Result<Vec<Vec<usize, A>, A>, OutOfMemory>
    ensures { IfOk result (λ children. lists_of children.items ≡ replicate count []) }
{
    let mut children = Vec::with_capacity(alloc, count)?;
    for _ in 0..count {
        children.push_reserved(Vec::new(alloc));
    }
    Ok(children)
}

/// One more child of a span.
fn add_child<A: Allocator>(
    children: &mut Vec<Vec<usize, A>, A>,
    parent: usize,
    index: usize,
) -> Result<(), OutOfMemory>
    requires { parent < length children.old.items }
    ensures { OnOk result (lists_of children.new.items ≡ slice_set (lists_of children.old.items)
        parent (slice_index_or (lists_of children.old.items) parent [] ++ index ∷ [])) }
{
    Ok(children[parent].push(index)?)
}

/// The families of the spans in this order, which have these parents in the tree.
pub(crate) fn group_by_parent<A: Allocator + Copy>(
    alloc: A,
    tree: &[Option<usize>],
    order: &[(u64, usize)],
) -> Result<Families<A>, OutOfMemory>
    requires in_list { AreInList tree.now }
    requires order { All (λ s. s.1 < length tree.now) order.now }
    ensures tops { IfOk result (λ f. f.tops.items ≡ tops_of tree.now (places_of order.now)) }
    ensures count { IfOk result (λ f. length f.children.items ≡ length tree.now) }
    ensures children { IfOk result (λ f.
        AreChildren tree.now (places_of order.now) (lists_of f.children.items)) }
{
    let mut tops = Vec::new(alloc);
    let mut children = no_children(alloc, tree.len())?;
    for &(_, index) in order {
        match tree[index] {
            Some(parent) => add_child(&mut children, parent, index)?,
            None => tops.push(index)?,
        }
    }
    Ok(Families { tops, children })
}
