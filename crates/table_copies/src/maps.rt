//! Copies of maps.

ghost use Rattle.std.specs.Prelude.{IfOk};
ghost use Rattle.table_copies.specs.Copies.{AreCopies};

use crate::CopyIn;
use indexmap::IndexMap;
use std::alloc::AllocError;
use std::hash::{BuildHasher, Hash};

/// Returns a map of the same keys, in their order, each with a copy of its value.
pub fn copy_map<K: Copy + Eq + Hash, V: CopyIn, S: BuildHasher + Copy + Drop>(
    map: &IndexMap<K, V, S>,
) -> Result<IndexMap<K, V, S>, AllocError>
    ensures { IfOk result (λ copy. AreCopies V.is_copy map.now.entries copy.entries) }
{
    let alloc = *map.allocator();
    let mut copy = IndexMap::with_capacity_and_hasher(alloc, map.len(), *map.hasher())?;
    for (key, value) in map.iter() {
        copy.insert(*key, value.copy_in(alloc)?)?;
    }
    Ok(copy)
}
