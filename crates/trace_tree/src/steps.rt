//! A tree that is arranged in steps.

ghost use Rattle.std.specs.Prelude.{◌≡◌, ℕ, ◌+◌, List, [], Some, IfOk, OnOk, All, AllPairs};
ghost use Rattle.std.specs.Prelude.{length, map, slice_get};
ghost use Rattle.std.specs.List.{range_with_len};
ghost use Rattle.trace_tree.specs.Order.{ArePlaces, places_of};
ghost use Rattle.trace_tree.specs.Parents.{parents_of};
ghost use Rattle.trace_tree.specs.Rows.{AreInOrder, EachAfter, HangsInTree, IsPlace};
ghost use Rattle.trace_tree.specs.Steps.{AreArranged, AreFirst, AreOpen, AreOrdered, kin_of};
ghost use Rattle.trace_tree.specs.Steps.{parent_in, parents_in};
ghost use Rattle.trace_tree.specs.declared.span.TreeSpan.{TreeSpan as Spanned};
ghost use Rattle.trace_tree.specs.declared.steps.Kin.{Kin as Related};

use crate::cycles::open_cycles;
use crate::parents::find_parents;
use crate::span::{Place, Row, TreeSpan};
use crate::tree::{places_of, rows_of};
use otlp_ids::OutOfMemory;
use std::alloc::Allocator;
use std::marker::Model;

/// What the place of a span in a tree goes by.
#[derive(Debug, Clone, Copy)]
pub struct Kin {
    /// The place of its parent in the list, where it has one there.
    pub parent: Option<usize>,
    /// Whether it names no parent.
    pub names_none: bool,
    /// When it started, in nanoseconds since 1970.
    pub start_time_unix_nano: u64,
}

/// The first spans of a list, of which the parents are known.
///
/// `arrange` in steps, so that other work may be done between them, for a caller who looks parents
/// up: `add` each span of the list, in order, then `open`, `sort` and make the `rows`. The steps
/// but for `add` take time for all spans, but look no identifier up.
#[derive(Drop)]
pub struct Arranging<A: Allocator> {
    kins: Vec<Kin, A>,
}

impl<A: Allocator + Copy> Arranging<A> {
    /// No span yet.
    pub fn new(alloc: A) -> Arranging<A>
        ensures { (spans : List Spanned) → AreFirst spans 0 result }
    {
        Arranging {
            kins: Vec::new(alloc),
        }
    }

    /// The next span of the list.
    ///
    /// # Errors
    ///
    /// `OutOfMemory` where memory was refused. Nothing changed then.
    pub fn add(&mut self, kin: Kin) -> Result<(), OutOfMemory>
        ensures { (spans : List Spanned) (at : ℕ) (span : Spanned) → AreFirst spans at self.old
            → slice_get spans at ≡ Some span → kin ≡ kin_of spans span
            → OnOk result (AreFirst spans (at + 1) self.new) }
    {
        Ok(self.kins.push(kin)?)
    }

    /// Opens the cycles of parents, once all spans of the list are there. A parent without a place
    /// in the list counts as none.
    ///
    /// # Errors
    ///
    /// `OutOfMemory` where memory was refused.
    pub fn open(self, alloc: A) -> Result<Opened<A>, OutOfMemory>
        ensures { (spans : List Spanned) → AreFirst spans (length spans) self
            → IfOk result (AreOpen spans) }
    {
        let parents = parents_in(alloc, &self.kins)?;
        let tree = open_cycles(alloc, &parents)?;
        let places = places_of(alloc, &self.kins, &parents, &tree)?;
        let starts = starts_of(alloc, &self.kins)?;
        Ok(Opened {
            tree,
            places,
            starts,
        })
    }
}

/// The parent in a list of so many spans, if it has a place there.
fn parent_in(count: usize, parent: Option<usize>) -> Option<usize>
    ensures { result ≡ parent_in count parent }
{
    match parent {
        Some(place) if place < count => Some(place),
        _ => None,
    }
}

/// The parent of each span, where that is in the list.
fn parents_in<A: Allocator + Copy>(
    alloc: A,
    kins: &[Kin],
) -> Result<Vec<Option<usize>, A>, OutOfMemory>
    ensures { IfOk result (λ parents. parents.items ≡ parents_in kins.now) }
{
    let mut parents = Vec::with_capacity(alloc, kins.len())?;
    for kin in kins {
        parents.push_reserved(parent_in(kins.len(), kin.parent));
    }
    Ok(parents)
}

/// When each span starts, and its place.
fn starts_of<A: Allocator + Copy>(
    alloc: A,
    kins: &[Kin],
) -> Result<Vec<(u64, usize), A>, OutOfMemory>
    ensures places { IfOk result
        (λ starts. places_of starts.items ≡ range_with_len 0 (length kins.now)) }
    ensures each { IfOk result (λ starts. map (λ (s : ℕ × ℕ). s.0) starts.items
        ≡ map (λ (k : Related). k.start_time_unix_nano) kins.now) }
{
    let mut starts = Vec::with_capacity(alloc, kins.len())?;
    for (index, kin) in kins.iter().enumerate() {
        starts.push_reserved((kin.start_time_unix_nano, index));
    }
    Ok(starts)
}

/// All spans of a list, without cycles of parents.
#[derive(Drop)]
pub struct Opened<A: Allocator> {
    tree: Vec<Option<usize>, A>,
    places: Vec<Place, A>,
    starts: Vec<(u64, usize), A>,
}

impl<A: Allocator> Model for Opened<A> {
    ghost use Rattle.trace_tree.specs.Opens.{IsSound, OpenTree};

    ghost Value = { OpenTree };

    ghost view = { λ a. record {
      tree = a.tree.items;
      places = a.places.items;
      starts = a.starts.items;
    } };

    ghost invariant = { λ a. IsSound a.tree.items a.places.items a.starts.items };
}

impl<A: Allocator + Copy> Opened<A> {
    /// Sorts the spans by their starts.
    ///
    /// # Errors
    ///
    /// `OutOfMemory` where memory was refused. Nothing changed then.
    pub fn sort(&mut self) -> Result<(), OutOfMemory>
        ensures { (spans : List Spanned) → AreOpen spans self.old
            → OnOk result (AreOrdered spans self.new) }
    {
        Ok(self.starts.sort()?)
    }

    /// The rows of the tree, once the spans are sorted.
    ///
    /// # Errors
    ///
    /// `OutOfMemory` where memory was refused.
    pub fn rows(&self, alloc: A) -> Result<Vec<Row, A>, OutOfMemory>
        ensures { (spans : List Spanned) → AreOrdered spans self.now
            → IfOk result (λ rows. AreArranged spans rows.items) }
    {
        rows_of(alloc, &self.tree, &self.places, &self.starts)
    }
}

/// The spans of a list, which have these parents.
fn known_of<A: Allocator + Copy>(
    alloc: A,
    spans: &[TreeSpan],
    parents: &[Option<usize>],
) -> Result<Arranging<A>, OutOfMemory>
    requires { parents.now ≡ parents_of spans.now }
    ensures { IfOk result (AreFirst spans.now (length spans.now)) }
{
    let mut known = Arranging::new(alloc);
    for (index, span) in spans.iter().enumerate() {
        known.add(Kin {
            parent: parents[index],
            names_none: span.parent_span_id.is_empty(),
            start_time_unix_nano: span.start_time_unix_nano,
        })?;
    }
    Ok(known)
}

/// Arranges the spans of a trace as the rows of a tree: each span of the list is in one row.
///
/// The parent of a span is the first span of the list with the identifier that it names; where
/// several spans have the same identifier, the others have no children. A span is a `Child` where
/// its parent is in the list, after its parent's row, one depth more, with only rows of that depth
/// and more between them. All other spans are at the top, at depth 0: a `Root` names no parent, an
/// `Orphan` names one that isn't in the list, and a `Cycle` is its own ancestor. Of each cycle the
/// first span in the list is a `Cycle`, and the others are below it.
///
/// Children of one parent, and the spans at the top, are in the order of their starts; those that
/// start together are in the order of the list. (profile)
///
/// It sorts the spans by their starts and looks identifiers up in a tree, so its steps are about
/// as many as the spans times the logarithm of that. It doesn't call itself, so a long chain of
/// parents takes no more stack than a short one.
///
/// # Errors
///
/// `OutOfMemory` where memory was refused.
pub fn arrange<A: Allocator + Copy>(
    alloc: A,
    spans: &[TreeSpan],
) -> Result<Vec<Row, A>, OutOfMemory>
    ensures each_once { IfOk result
        (λ rows. ArePlaces (length spans.now) (map (λ (r : Row). r.index) rows.items)) }
    ensures places { IfOk result
        (λ rows. All (λ (r : Row). IsPlace spans.now r.index r.place) rows.items) }
    ensures nested { IfOk result (λ rows. EachAfter (HangsInTree spans.now) [] rows.items) }
    ensures ordered { IfOk result (λ rows. AllPairs (AreInOrder spans.now) rows.items) }
{
    let parents = find_parents(alloc, spans)?;
    let known = known_of(alloc, spans, &parents)?;
    let mut opened = known.open(alloc)?;
    opened.sort()?;
    opened.rows(alloc)
}
