//! Copies of caches.

ghost use Rattle.std.specs.Prelude.{◌≡◌, ◌-◌, ◌^◌, IfOk};
ghost use Rattle.table_copies.specs.Copies.{AreCopies};

use crate::CopyIn;
use lru::LruCache;
use std::alloc::AllocError;
use std::hash::{BuildHasher, Hash};

/// Returns a cache of the same keys, in their order, each with a copy of its value, which hashes in this way. Neither
/// evicts by itself.
pub fn copy_cache<K: Copy + Eq + Hash, V: CopyIn, S: BuildHasher + Drop>(
    cache: &LruCache<K, V, S>,
    hashes: S,
) -> Result<LruCache<K, V, S>, AllocError>
    requires { cache.now.cap ≡ 2 ^ 64 - 1 }
    ensures entries { IfOk result (λ copy. AreCopies V.is_copy cache.now.entries copy.entries) }
    ensures cap { IfOk result (λ copy. copy.cap ≡ 2 ^ 64 - 1) }
{
    let alloc = *cache.allocator();
    // No key comes twice, as `len` tells a proof.
    let _ = cache.len();
    let mut copy = LruCache::unbounded_with_hasher(alloc, hashes)?;
    for (key, value) in cache.iter().rev() {
        copy.put(*key, value.copy_in(alloc)?)?;
    }
    Ok(copy)
}
