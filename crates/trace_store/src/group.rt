//! Parts of spans, one for each trace.

ghost use Rattle.std.specs.Prelude.{◌⊎◌, IfOk, OnOk};
ghost use Rattle.std.specs.List.Sorted.{IsNonDecreasingBy};
ghost use Rattle.trace_store.specs.SpanParts.{ArePartsOf, BeginsPart, JoinsLast};

use crate::Part;
use std::alloc::{AllocError, Allocator};
use std::collections::LinkedList;
use std::mem;

/// Puts one more span to the last part, if that is of its trace or empty, or else begins a new
/// part, and puts the last one to the others.
fn put<S: Drop, A: Allocator + Copy>(
    parts: &mut Vec<Part<S, A>, A>,
    last: &mut Part<S, A>,
    key: u128,
    span: S,
) -> Result<(), AllocError>
    ensures { OnOk result (JoinsLast key span parts.old.items parts.new.items last.old last.new
        ⊎ BeginsPart key span parts.old.items parts.new.items last.old last.new) }
{
    if last.0 == key || last.1.is_empty() {
        last.0 = key;
        last.1.push_back(span)?;
        return Ok(());
    }
    let mut one = LinkedList::new(*parts.allocator());
    one.push_back(span)?;
    parts.push(mem::replace(last, (key, one)))?;
    Ok(())
}

/// The parts of spans that come in the order of their traces: one for each trace.
pub(crate) fn group<S: Drop, A: Allocator + Copy>(
    alloc: A,
    spans: Vec<(u128, S), A>,
) -> Result<Vec<Part<S, A>, A>, AllocError>
    requires { IsNonDecreasingBy (λ entry. entry.0) spans.items }
    ensures { IfOk result (λ parts. ArePartsOf spans.items parts.items) }
{
    let mut parts = Vec::new(alloc);
    let mut last = (0, LinkedList::new(alloc));
    for (key, span) in spans {
        put(&mut parts, &mut last, key, span)?;
    }
    if last.1.is_empty() {
        return Ok(parts);
    }
    parts.push(last)?;
    Ok(parts)
}
