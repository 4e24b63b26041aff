//! The peers that speak version 1 alone.

ghost use Rattle.std.specs.Prelude.{◌≡◌, ◌||◌, [], ◌∷◌, IfOk, OnOk};
ghost use Rattle.uuid.specs.declared.Uuid.{Uuid as Peer};
ghost use Rattle.sp_rules.specs.OwnEvents.{is_among};

use indexmap::IndexSet;
use space_ids::Uuid;
use std::alloc::{AllocError, Global};
use std::marker::Model;
use table_copies::PeerHashes;

/// The peers that a space found to speak version 1 alone. It says Hello to them with version 1. A contract sees
/// a list of them.
#[derive(Drop)]
pub struct NotedPeers {
    peers: IndexSet<Uuid, PeerHashes>,
}

impl Model for NotedPeers {
    ghost use Rattle.std.specs.Prelude.{List};
    ghost use Rattle.uuid.specs.declared.Uuid.{Uuid as Peer};

    ghost Value = { List Peer };

    ghost view = { λ noted. noted.peers.keys };
}

impl NotedPeers {
    /// No peer was found to. Peers are hashed in this way.
    pub fn new(alloc: Global, hashes: PeerHashes) -> NotedPeers
        ensures { result ≡ [] }
    {
        NotedPeers {
            peers: IndexSet::with_hasher(alloc, hashes),
        }
    }

    /// The same peers, with no room for more. It costs a step for each.
    pub fn copy(&self) -> Result<NotedPeers, AllocError>
        ensures { IfOk result (λ copy. (peer : Peer)
            → is_among copy peer ≡ is_among self.now peer) }
    {
        let mut copy = NotedPeers::new(*self.peers.allocator(), *self.peers.hasher());
        for peer in self.peers.as_slice() {
            copy.insert(peer)?;
        }
        Ok(copy)
    }

    /// Whether a peer was found to.
    pub fn contains(&self, peer: &Uuid) -> bool
        ensures { result ≡ is_among self.now peer.now }
    {
        self.peers.contains(peer)
    }

    /// Notes a peer, which stays noted for good.
    pub fn insert(&mut self, peer: &Uuid) -> Result<(), AllocError>
        ensures { OnOk result ((other : Peer) → is_among self.new other
            ≡ (is_among self.old other || is_among (peer.now ∷ []) other)) }
    {
        self.peers.insert(*peer)?;
        Ok(())
    }
}
