//! A space's side of the transport, and what is seen of it.

ghost use Rattle.std.specs.Prelude.{◌≡◌, ℕ, [], None, Some, IfOk, filter, option_map, if◌then◌else◌};
ghost use Rattle.dgc_client.specs.Lease.{is_renewed_at, lapses_at};
ghost use Rattle.dgc_client.specs.Table as client;
ghost use Rattle.sp_rules.specs.Holders.{lease_now};
ghost use Rattle.sp_rules.specs.OwnEvents.{is_noted};
ghost use Rattle.sp_rules.specs.Requests.{hello_came};
ghost use Rattle.sp_rules.specs.State.{State, connection_at, connection_to, opening};
ghost use Rattle.sp_requests.specs.Tables.{link_of, seen};

use dgc_client::{ClientLease, Clients};
use sp_outputs::Outputs;
use sp_requests::{Asked, Connection, Connections, Link, NotedPeers, Peers};
use space_ids::{ForeignId, Uuid};
use std::alloc::{AllocError, Global};
use table_copies::PeerHashes;

/// The call or lookup of the event under way, which it asks of the peer as it ends.
#[derive(Drop)]
pub struct Fresh {
    pub peer: Uuid,
    pub asked: Asked,
}

/// A space's side of the transport: its connections, what it asks of its peers, the leases of their
/// objects, and what the event under way answers.
///
/// A contract names the states of the rules that the value may stand for. Most calls that change it take no
/// memory: where they need room the caller owes it, and the calls named `reserve` make it. Two make their own:
/// [`Transport::flush_waiting`] and [`Transport::settle`]. If these fail, a part of their work is done, and the
/// value stands for no state: the caller drops it.
#[derive(Drop)]
pub struct Transport {
    pub(crate) alloc: Global,
    pub(crate) leases: Clients,
    pub(crate) connections: Connections,
    pub(crate) noted: NotedPeers,
    pub(crate) peers: Peers,
    // How many calls and lookups were made, and how many groups of dirty or clean calls.
    pub(crate) calls_made: u64,
    pub(crate) groups_made: u64,
    pub(crate) fresh: Option<Fresh>,
    pub(crate) outputs: Outputs,
}

impl Transport {
    ghost use Rattle.sp_transport.specs.Transports.{IsTransport};

    /// No connection is open, nothing is asked and no foreign reference was ever held. What peers pick is hashed in
    /// this way.
    pub fn new(alloc: Global, hashes: PeerHashes) -> Transport
        ensures { IsTransport opening result }
    {
        Transport {
            alloc,
            leases: Clients::with_hashes(alloc, hashes),
            connections: Connections::new(alloc, hashes),
            noted: NotedPeers::new(alloc, hashes),
            peers: Peers::new(alloc),
            calls_made: 0,
            groups_made: 0,
            fresh: None,
            outputs: Outputs::new(alloc),
        }
    }

    /// The same, between events: nothing is noted, and no call is under way. Room that was made may be
    /// lost. It costs a step for each row and each value in it.
    pub fn copy(&self) -> Result<Transport, AllocError>
        ensures copied { IfOk result (λ copy. (s : State) → IsTransport s self.now → s.fresh ≡ [] → s.notes ≡ [] → IsTransport s copy) }
    {
        Ok(Transport {
            alloc: self.alloc,
            leases: self.leases.copy()?,
            connections: self.connections.copy()?,
            noted: self.noted.copy()?,
            peers: self.peers.copy()?,
            calls_made: self.calls_made,
            groups_made: self.groups_made,
            fresh: None,
            outputs: Outputs::new(self.alloc),
        })
    }

    /// What is kept of the connection of this number, if it is open.
    pub fn connection(&self, conn: u64) -> Option<Connection>
        ensures { (s : State) → IsTransport s self.now → result ≡ option_map seen (connection_at s conn) }
    {
        self.connections.get(conn)
    }

    /// How far this space is with a peer: whether it is being dialled, or which connection was dialled
    /// to it. `None` if neither.
    pub fn link(&self, peer: &Uuid) -> Option<Link>
        ensures { (s : State) → IsTransport s self.now → result ≡ link_of peer.now s.connections s.dialling }
    {
        self.connections.link(peer)
    }

    /// Whether a peer was found to speak version 1 alone.
    pub fn is_noted(&self, peer: &Uuid) -> bool
        ensures { (s : State) → IsTransport s self.now → result ≡ is_noted s peer.now }
    {
        self.noted.contains(peer)
    }

    /// What is kept of a foreign reference.
    pub fn lease(&self, reference: &ForeignId) -> ClientLease
        ensures { (s : State) → IsTransport s self.now → result ≡ lease_now s reference.now }
    {
        self.leases.lease(reference)
    }

    /// The foreign references whose lease is due for renewal once this moment has come, in the order in which
    /// they were first held.
    pub fn renewals(&self, moment: u64) -> Result<Vec<ForeignId>, AllocError>
        ensures { IfOk result (λ references. (s : State) → IsTransport s self.now → references.items ≡ filter (λ r. is_renewed_at moment (lease_now s r)) (client.held s.leases)) }
    {
        self.leases.renewals(self.alloc, moment)
    }

    /// The foreign references whose lease this moment ends, in the order in which they were first held.
    pub fn lapsed(&self, moment: u64) -> Result<Vec<ForeignId>, AllocError>
        ensures { IfOk result (λ references. (s : State) → IsTransport s self.now → references.items ≡ filter (λ r. lapses_at moment (lease_now s r)) (client.held s.leases)) }
    {
        self.leases.lapsed(self.alloc, moment)
    }

    /// How many calls and lookups were made: the number of the last, or 0.
    pub fn calls_made(&self) -> u64
        ensures { (s : State) → IsTransport s self.now → result ≡ s.calls_made }
    {
        self.calls_made
    }

    /// How many groups of dirty or clean calls were made: the number of the last, or 0.
    pub fn groups_made(&self) -> u64
        ensures { (s : State) → IsTransport s self.now → result ≡ s.groups_made }
    {
        self.groups_made
    }

    /// The sequence number that was given last to dirty or clean calls, or 0.
    pub fn last_sequence(&self) -> u64
        ensures { (s : State) → IsTransport s self.now → result ≡ client.numbers_of s.leases }
    {
        self.leases.last_number()
    }

    /// The connection that was dialled to a peer, if the peer's Hello has come on it.
    pub fn hello_came(&self, peer: &Uuid) -> Option<u64>
        ensures { (s : State) → IsTransport s self.now → result ≡ hello_came (connection_to s peer.now) }
    {
        match self.connections.link(peer) {
            Some(Link::Open(conn)) => self.greeted_on(conn),
            Some(Link::Dialling) => None,
            None => None,
        }
    }

    // The number of a connection, if a Hello has come on it.
    fn greeted_on(&self, conn: u64) -> Option<u64>
        ensures { (s : State) → IsTransport s self.now → result ≡ hello_came (connection_at s conn) }
    {
        match self.connections.get(conn) {
            Some(connection) => number_if(conn, connection.peer.is_some()),
            None => None,
        }
    }
}

// The number, if this holds.
fn number_if(conn: u64, holds: bool) -> Option<u64>
    ensures { result ≡ (if holds then Some conn else None) }
{
    if holds { Some(conn) } else { None }
}
