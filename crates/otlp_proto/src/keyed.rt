//! Items under keys, in the order in which the keys came first.
ghost use Rattle.std.specs.Prelude.{◌≡◌, IfSome, OnOk, Some};
ghost use Rattle.indexmap.specs.IndexMap.{index_of};
ghost use Rattle.otlp_proto.specs.Keyed.{groups_of, with_item};

use indexmap::IndexMap;
use otlp_ids::OutOfMemory;
use std::alloc::Allocator;
use std::hash::{BuildHasherDefault, FoldHasher, Hash};

/// The items of each key, in the order in which the keys came first.
pub(crate) type Keyed<K, T, A> = IndexMap<K, Vec<T, A>, BuildHasherDefault<FoldHasher>, A>;

/// Where the last key is, if it equals this one.
fn last_index<K: Eq + Hash, T, A: Allocator>(groups: &Keyed<K, T, A>, key: &K) -> Option<usize>
    ensures { IfSome result (λ index. index_of K.eq groups.now key.now ≡ Some index) }
{
    let count = groups.len();
    if let Some((last, _)) = groups.last()
        && last == key
    {
        return Some(count - 1);
    }
    None
}

/// Adds an item to those of its key. A key that is new comes after the others. The last key is
/// tried before the others are looked up.
///
/// # Errors
///
/// `OutOfMemory` where there is no room for it; it is then dropped.
pub(crate) fn add<K: Eq + Hash + Drop, T: Drop, A: Allocator + Copy>(
    alloc: A,
    groups: &mut Keyed<K, T, A>,
    key: K,
    item: T,
) -> Result<(), OutOfMemory>
    ensures { OnOk result
        (groups_of groups.new.entries ≡ with_item K.eq (groups_of groups.old.entries) key item) }
{
    if let Some(index) = last_index(groups, &key) {
        groups[index].push(item)?;
        return Ok(());
    }
    groups.entry(key)?.or_insert(Vec::new(alloc)).push(item)?;
    Ok(())
}
