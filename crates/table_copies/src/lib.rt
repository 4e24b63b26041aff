//! Copies of tables, with copies of what stands in them. A copy and what it was made of are equal, so an
//! event can be applied to one of them while the other stays. How tables hash their keys: numbers that the
//! program gives out, and what peers pick.
#![tactic(auto)]

pub use caches::copy_cache;
pub use copy_in::CopyIn;
pub use maps::copy_map;
pub use number_hasher::{NumberHasher, NumberHashes};
pub use peer_hashes::PeerHashes;
pub use values::{copy_result, copy_value, copy_values};

mod caches;
mod copy_in;
mod maps;
mod number_hasher;
mod peer_hashes;
mod values;
