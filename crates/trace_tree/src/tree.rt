//! The rows of a tree.

ghost use Rattle.std.specs.Prelude.{◌≡◌, ℕ, ◌<◌, ◌++◌, List, All, IfOk, OnOk, length};
ghost use Rattle.std.specs.Prelude.{map};
ghost use Rattle.std.specs.Prelude.{reverse};
ghost use Rattle.trace_tree.specs.Cycles.{AreInList, EndsAtTop};
ghost use Rattle.trace_tree.specs.Order.{ArePlaces, places_of};
ghost use Rattle.trace_tree.specs.Parents.{names_none};
ghost use Rattle.trace_tree.specs.Rows.{ArePlaced, AreRowsOf};
ghost use Rattle.trace_tree.specs.Rows.{place_by, row_at};
ghost use Rattle.trace_tree.specs.declared.span.TreeSpan.{TreeSpan};
ghost use Rattle.trace_tree.specs.declared.steps.Kin.{Kin as Related};

use crate::order::group_by_parent;
use crate::span::{Place, Row};
use crate::steps::Kin;
use otlp_ids::OutOfMemory;
use std::alloc::Allocator;

/// Why a span has its place, by whether it names no parent, by its parent in the list, and by that
/// in the tree.
fn place_of(names_none: bool, parent: Option<usize>, tree_parent: Option<usize>) -> Place
    ensures { result ≡ place_by names_none parent tree_parent }
{
    match (parent, tree_parent) {
        (_, Some(_)) => Place::Child,
        (Some(_), None) => Place::Cycle,
        (None, None) => top_place(names_none),
    }
}

/// Why a span is at the top that isn't on a cycle, by whether it names no parent.
fn top_place(names_none: bool) -> Place
    ensures { result ≡ place_by names_none None None }
{
    if names_none {
        Place::Root
    } else {
        Place::Orphan
    }
}

/// Why each span has its place.
pub(crate) fn places_of<A: Allocator + Copy>(
    alloc: A,
    kins: &[Kin],
    parents: &[Option<usize>],
    tree: &[Option<usize>],
) -> Result<Vec<Place, A>, OutOfMemory>
    requires parents { length parents.now ≡ length kins.now }
    requires tree { length tree.now ≡ length kins.now }
    ensures placed { IfOk result (λ places. (spans : List TreeSpan)
        → map (λ (k : Related). k.names_none) kins.now ≡ map names_none spans
        → ArePlaced spans parents.now tree.now places.items) }
    ensures as_many { IfOk result (λ places. length places.items ≡ length kins.now) }
{
    let mut places = Vec::with_capacity(alloc, kins.len())?;
    for (index, kin) in kins.iter().enumerate() {
        places.push_reserved(place_of(kin.names_none, parents[index], tree[index]));
    }
    Ok(places)
}

/// Puts rows of this depth on the pile, the first one on top.
fn pile_up<A: Allocator>(
    pile: &mut Vec<Row, A>,
    places: &[Place],
    indices: &[usize],
    depth: usize,
) -> Result<(), OutOfMemory>
    requires { All (λ k. k < length places.now) indices.now }
    ensures { OnOk result (pile.new.items
        ≡ pile.old.items ++ reverse (map (row_at places.now depth) indices.now)) }
{
    for place in (0..indices.len()).rev() {
        let index = indices[place];
        pile.push(Row {
            index,
            depth,
            place: places[index],
        })?;
    }
    Ok(())
}

/// The rows of the spans with these parents in the tree: those at the top, in this order, and after
/// each row those of its children.
pub(crate) fn rows_of<A: Allocator + Copy>(
    alloc: A,
    tree: &[Option<usize>],
    places: &[Place],
    order: &[(u64, usize)],
) -> Result<Vec<Row, A>, OutOfMemory>
    requires in_list { AreInList tree.now }
    requires places { length places.now ≡ length tree.now }
    requires order { ArePlaces (length tree.now) (places_of order.now) }
    requires ends { (k : ℕ) → k < length tree.now → EndsAtTop tree.now k }
    ensures { IfOk result
        (λ rows. AreRowsOf tree.now places.now (places_of order.now) rows.items) }
{
    let families = group_by_parent(alloc, tree, order)?;
    let mut rows = Vec::with_capacity(alloc, places.len())?;
    let mut pile = Vec::new(alloc);
    pile_up(&mut pile, places, &families.tops, 0)?;
    while let Some(row) = pile.pop() {
        rows.push_reserved(row);
        let children = &families.children[row.index];
        pile_up(&mut pile, places, children, row.depth + 1)?;
    }
    Ok(rows)
}
