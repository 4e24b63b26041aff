//! Hashes of keys that peers pick.

ghost use Rattle.table_copies.specs.Hashes.{hasher_of_peers};

use std::hash::{BuildHasher, DefaultHasher, RandomState};

/// How maps hash keys that peers pick. What a map holds does not depend on it.
#[derive(Clone, Copy)]
pub enum PeerHashes {
    /// In the same way in each run: where no stranger picks keys.
    Fixed,
    /// By numbers of chance, so that nobody who does not know these can pick keys that collide.
    Random(RandomState),
}

impl BuildHasher for PeerHashes {
    type Hasher = DefaultHasher;

    ghost build_hasher = { hasher_of_peers };

    fn build_hasher(&self) -> DefaultHasher {
        match self {
            PeerHashes::Fixed => DefaultHasher::new(),
            PeerHashes::Random(state) => state.build_hasher(),
        }
    }
}
