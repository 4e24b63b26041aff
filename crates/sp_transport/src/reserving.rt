//! Room, made before an event changes anything.

ghost use Rattle.std.specs.Prelude.{◌≡◌, ◌≤◌, ℕ, [], None, OnOk};
ghost use Rattle.sp_rules.specs.State.{State, connection_to};
ghost use Rattle.sp_requests.specs.Peers.{of_peer};

use crate::Transport;
use space_ids::Uuid;
use std::alloc::AllocError;

impl Transport {
    ghost use Rattle.sp_transport.specs.Rooms.{HasRow, KeepsOtherRows, KeepsRows, Spends, connection_room, lease_room, note_room, peer_room};
    ghost use Rattle.sp_transport.specs.Transports.{IsTransport};

    /// Makes room for this many references that were never held. Nothing else changes, at out of memory
    /// too.
    pub fn reserve_holders(&mut self, references: usize) -> Result<(), AllocError>
        ensures room { OnOk result (references ≤ lease_room self.new) }
        ensures same { (s : State) → IsTransport s self.old → IsTransport s self.new }
        ensures rooms { Spends 0 0 0 0 self.old self.new }
        ensures rows { KeepsRows self.old self.new }
    {
        self.leases.reserve(references)
    }

    /// Makes room for this many more connections, and for this many more peers to be dialled. Nothing
    /// else changes, at out of memory too.
    pub fn reserve_connections(
        &mut self,
        connections: usize,
        peers: usize,
    ) -> Result<(), AllocError>
        ensures connections { OnOk result (connections ≤ connection_room self.new) }
        ensures peers { OnOk result (peers ≤ peer_room self.new) }
        ensures same { (s : State) → IsTransport s self.old → IsTransport s self.new }
        ensures rooms { Spends 0 0 0 0 self.old self.new }
        ensures rows { KeepsRows self.old self.new }
    {
        self.connections.reserve(connections, peers)
    }

    /// Gives a peer a row, if it has none, and makes room in it for this many more requests that wait,
    /// calls that are out, and groups that are out. Nothing else changes, at out of memory too.
    pub fn reserve_requests(
        &mut self,
        peer: &Uuid,
        waiting: usize,
        calls: usize,
        groups: usize,
    ) -> Result<(), AllocError>
        ensures room { OnOk result (HasRow peer.now waiting calls groups self.new) }
        ensures same { (s : State) → IsTransport s self.old → IsTransport s self.new }
        ensures rooms { Spends 0 0 0 0 self.old self.new }
        ensures rows { KeepsRows self.old self.new }
    {
        self.peers.reserve(peer, waiting, calls, groups)
    }

    /// Lets the row of a peer go of which nothing is asked and to which no connection was dialled: what is left
    /// if an event made [room](Transport::reserve_requests) in vain.
    pub fn release(&mut self, peer: &Uuid)
        ensures released { (s : State) → IsTransport s self.old → connection_to s peer.now ≡ None → of_peer peer.now s.requests ≡ [] → IsTransport s self.new }
        ensures gone { (w c g : ℕ) → HasRow peer.now w c g self.new → ⊥ }
        ensures rooms { Spends 0 0 0 0 self.old self.new }
        ensures rows { KeepsOtherRows peer.now self.old self.new }
    {
        self.peers.release(peer);
    }

    /// Makes room for this many more outputs. Nothing else changes, at out of memory too.
    pub fn reserve_notes(&mut self, notes: usize) -> Result<(), AllocError>
        ensures room { OnOk result (notes ≤ note_room self.new) }
        ensures same { (s : State) → IsTransport s self.old → IsTransport s self.new }
        ensures rooms { Spends 0 0 0 0 self.old self.new }
        ensures rows { KeepsRows self.old self.new }
    {
        self.outputs.reserve(notes)
    }
}
