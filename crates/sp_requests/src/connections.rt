//! The open connections of a space, and the peers that it dialled.

ghost use Rattle.std.specs.Prelude.{◌≡◌, ◌≤◌, ◌<◌, ◌+◌, ◌||◌, ◌==◌, not, true, None, List, [], ◌∷◌, ◌++◌, Some, IfOk, OnOk, is_some, filter, option_map};
ghost use Rattle.uuid.specs.declared.Uuid.{Uuid as Peer};
ghost use Rattle.sp_rules.specs.Lists.{at_first};
ghost use Rattle.sp_rules.specs.State.{Connection as Row};

use crate::{Connection, Link};
use indexmap::IndexMap;
use space_ids::Uuid;
use std::alloc::{AllocError, Global};
use table_copies::{NumberHashes, PeerHashes};

/// The open connections of a space by number, and by peer those that it dialled; and the peers that it
/// dialled and that neither opened nor refused.
///
/// A contract names the lists of the rules that the value may stand for.
#[derive(Drop)]
pub struct Connections {
    rows: IndexMap<u64, Connection, NumberHashes>,
    links: IndexMap<Uuid, Link, PeerHashes>,
}

impl Connections {
    ghost use Rattle.sp_requests.specs.Tables.{AreConnections, dialled_once, is_dialled, link_of, no_more, numbered, opened, peer_room, room, seen, to_peer};

    /// No connection is open, and no peer dialled. Peers are hashed in this way.
    pub fn new(alloc: Global, hashes: PeerHashes) -> Connections
        ensures { AreConnections [] [] result }
    {
        Connections {
            rows: IndexMap::with_hasher(alloc, NumberHashes::new()),
            links: IndexMap::with_hasher(alloc, hashes),
        }
    }

    /// The same connections and peers, with no room for more. It costs a step for each.
    pub fn copy(&self) -> Result<Connections, AllocError>
        ensures copied { IfOk result (λ copy. (rows : List Row) (dialling : List Peer) → AreConnections rows dialling self.now → AreConnections rows dialling copy) }
    {
        Ok(Connections {
            rows: self.rows.clone()?,
            links: self.links.clone()?,
        })
    }

    /// What is kept of the connection of this number, if it is open.
    pub fn get(&self, conn: u64) -> Option<Connection>
        ensures { (rows : List Row) (dialling : List Peer) → AreConnections rows dialling self.now → result ≡ option_map seen (numbered conn rows) }
    {
        self.rows.get(&conn).copied()
    }

    /// How far this space is with a peer: whether it is being dialled, or which connection was dialled
    /// to it. `None` if neither.
    pub fn link(&self, peer: &Uuid) -> Option<Link>
        ensures { (rows : List Row) (dialling : List Peer) → AreConnections rows dialling self.now → result ≡ link_of peer.now rows dialling }
    {
        self.links.get(peer).copied()
    }

    /// Makes room for this many more connections, and for this many more peers to be dialled. Nothing
    /// else changes, at out of memory too.
    pub fn reserve(&mut self, connections: usize, peers: usize) -> Result<(), AllocError>
        ensures connections { OnOk result (connections ≤ room self.new) }
        ensures peers { OnOk result (peers ≤ peer_room self.new) }
        ensures same { (rows : List Row) (dialling : List Peer) → AreConnections rows dialling self.old → AreConnections rows dialling self.new }
        ensures room { room self.old ≤ room self.new }
        ensures peer_room { peer_room self.old ≤ peer_room self.new }
    {
        self.rows.reserve(connections)?;
        self.links.reserve(peers)
    }

    /// Notes that the peer is dialled, unless it is already or a connection to it is open. Returns
    /// whether it is news. It takes no memory: the caller owes [room](Connections::reserve) for a peer.
    pub fn dial_reserved(&mut self, peer: &Uuid) -> bool
        requires { 0 < peer_room self.old }
        ensures news { (rows : List Row) (dialling : List Peer) → AreConnections rows dialling self.old → result ≡ not (is_some (to_peer peer.now rows) || is_dialled peer.now dialling) }
        ensures dialled { (rows : List Row) (dialling : List Peer) → AreConnections rows dialling self.old → AreConnections rows (dialled_once peer.now rows dialling) self.new }
        ensures room { room self.new ≡ room self.old }
        ensures peer_room { peer_room self.old ≤ peer_room self.new + 1 }
    {
        if self.links.contains_key(peer) {
            return false;
        }
        let Ok(_) = self.links.insert(*peer, Link::Dialling) else {
            unreachable!();
        };
        true
    }

    /// Whether a peer is being dialled.
    pub fn is_dialling(&self, peer: &Uuid) -> bool
        ensures { (rows : List Row) (dialling : List Peer) → AreConnections rows dialling self.now → result ≡ is_dialled peer.now dialling }
    {
        match self.link(peer) {
            Some(Link::Dialling) => true,
            Some(Link::Open(_)) => false,
            None => false,
        }
    }

    /// Notes that a peer that was dialled refused. It takes no memory.
    pub fn refuse(&mut self, peer: &Uuid)
        ensures refused { (rows : List Row) (dialling : List Peer) → AreConnections rows dialling self.old → AreConnections rows (no_more (Some peer.now) dialling) self.new }
        ensures room { room self.new ≡ room self.old }
        ensures peer_room { peer_room self.old ≤ peer_room self.new }
    {
        if self.is_dialling(peer) {
            let _ = self.links.swap_remove(peer);
        }
    }

    /// Opens a connection that a peer dialled, of a number of which none is open. It takes no memory: the
    /// caller owes [room](Connections::reserve) for it.
    pub fn accept_reserved(&mut self, conn: u64)
        requires { 0 < room self.old }
        ensures opened { (rows : List Row) (dialling : List Peer) → AreConnections rows dialling self.old → numbered conn rows ≡ None → AreConnections (rows ++ opened conn None ∷ []) dialling self.new }
        ensures room { room self.old ≤ room self.new + 1 }
        ensures peer_room { peer_room self.new ≡ peer_room self.old }
    {
        let Ok(_) = self.rows.insert(conn, Connection::new(None)) else {
            unreachable!();
        };
    }

    /// Opens a connection to a peer that is being dialled, and then is no more, of a number of which none
    /// is open. It takes no memory: the caller owes [room](Connections::reserve) for it.
    pub fn open_reserved(&mut self, conn: u64, peer: &Uuid)
        requires room { 0 < room self.old }
        requires peer_room { 0 < peer_room self.old }
        ensures opened { (rows : List Row) (dialling : List Peer) → AreConnections rows dialling self.old → numbered conn rows ≡ None → is_dialled peer.now dialling ≡ true → AreConnections (rows ++ opened conn (Some peer.now) ∷ []) (no_more (Some peer.now) dialling) self.new }
        ensures room { room self.old ≤ room self.new + 1 }
        ensures peer_room { peer_room self.old ≤ peer_room self.new + 1 }
    {
        let Ok(_) = self.rows.insert(conn, Connection::new(Some(*peer))) else {
            unreachable!();
        };
        let Ok(_) = self.links.insert(*peer, Link::Open(conn)) else {
            unreachable!();
        };
    }

    /// Notes who spoke on a connection, whose Hello has come.
    pub fn greet(&mut self, conn: u64, space: Uuid)
        ensures greeted { (rows : List Row) (dialling : List Peer) → AreConnections rows dialling self.old → AreConnections (at_first (λ (c : Row). c.number == conn) (λ (c : Row). record c { peer = Some space }) rows) dialling self.new }
        ensures room { room self.new ≡ room self.old }
        ensures peer_room { peer_room self.new ≡ peer_room self.old }
    {
        match self.rows.get_index_of(&conn) {
            Some(index) => self.rows[index].peer = Some(space),
            None => {}
        }
    }

    /// Notes the version of the Hello that this space says on a connection.
    pub fn speak(&mut self, conn: u64, version: u8)
        ensures spoken { (rows : List Row) (dialling : List Peer)
            → AreConnections rows dialling self.old
            → AreConnections (at_first (λ (c : Row). c.number == conn)
            (λ (c : Row). record c { version = version }) rows) dialling self.new }
        ensures room { room self.new ≡ room self.old }
        ensures peer_room { peer_room self.new ≡ peer_room self.old }
    {
        match self.rows.get_index_of(&conn) {
            Some(index) => self.rows[index].version = version,
            None => {}
        }
    }

    /// Notes the number of a Call or Lookup that came on a connection.
    pub fn count(&mut self, conn: u64, number: u64)
        ensures counted { (rows : List Row) (dialling : List Peer) → AreConnections rows dialling self.old → AreConnections (at_first (λ (c : Row). c.number == conn) (λ (c : Row). record c { last = number }) rows) dialling self.new }
        ensures room { room self.new ≡ room self.old }
        ensures peer_room { peer_room self.new ≡ peer_room self.old }
    {
        match self.rows.get_index_of(&conn) {
            Some(index) => self.rows[index].last = number,
            None => {}
        }
    }

    /// Lets a connection go. Returns what was kept of it, if it was open. It takes no memory.
    pub fn close(&mut self, conn: u64) -> Option<Connection>
        ensures row { (rows : List Row) (dialling : List Peer) → AreConnections rows dialling self.old → result ≡ option_map seen (numbered conn rows) }
        ensures closed { (rows : List Row) (dialling : List Peer) → AreConnections rows dialling self.old → AreConnections (filter (λ (c : Row). not (c.number == conn)) rows) dialling self.new }
        ensures room { room self.old ≤ room self.new }
        ensures peer_room { peer_room self.old ≤ peer_room self.new }
    {
        let row = self.rows.swap_remove(&conn)?;
        match row.dialled {
            Some(peer) => {
                let _ = self.links.swap_remove(&peer);
            }
            None => {}
        }
        Some(row)
    }
}
