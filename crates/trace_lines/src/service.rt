//! The services of a trace.

ghost use Rattle.std.specs.Prelude.{◌≡◌, ℕ, List, OnOk};
ghost use Rattle.trace_lines.specs.Keys.{value_at};
ghost use Rattle.trace_lines.specs.Services.{AreServices, colour_at, with_name};

use otlp_ids::OutOfMemory;
use std::alloc::Allocator;
use std::collections::BTreeMap;

/// Adds a name at the next place, unless it has one. The name is copied.
///
/// # Errors
///
/// `OutOfMemory` where memory was refused. Nothing changed then.
pub(crate) fn add_name<A: Allocator + Copy>(
    alloc: A,
    places: &mut BTreeMap<Vec<u8, A>, usize, A>,
    name: &[u8],
) -> Result<(), OutOfMemory>
    ensures { (names : List (List ℕ)) → AreServices names places.old
        → OnOk result (AreServices (with_name names name.now) places.new) }
{
    if places.contains_key(name) {
        return Ok(());
    }
    let place = places.len();
    let key = Vec::from_slice(alloc, name)?;
    places.insert(key, place)?;
    Ok(())
}

/// The colour of a service among those of its trace, of eight.
pub(crate) fn colour_by<A: Allocator>(places: &BTreeMap<Vec<u8, A>, usize, A>, name: &[u8]) -> u64
    ensures { result ≡ colour_at (value_at places.now name.now) }
{
    match places.get(name) {
        Some(place) => (*place % 8) as u64,
        None => 0,
    }
}
