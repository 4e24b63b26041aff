//! The tickets of the frames that came on a connection.

ghost use Rattle.std.specs.Prelude.{◌≡◌, ℕ, ◌≤◌, ◌<◌, false, nat_eq, List, [], IfOk, OnOk};
ghost use Rattle.rising_map.specs.Rows.{AreBelow};

use indexmap::IndexMap;
use rising_map::RisingMap;
use std::alloc::{AllocError, Global};
use table_copies::{NumberHashes, copy_map};

/// The tickets of the frames that came on a connection, by the connections, in the order in which they
/// came. A ticket comes and goes at a cost that does not depend on how many there are.
///
/// A contract names the tickets that each connection may have.
#[derive(Drop)]
pub(crate) struct ByConnection {
    alloc: Global,
    tickets: IndexMap<u64, RisingMap<()>, NumberHashes>,
}

impl ByConnection {
    ghost use Rattle.sp_parked.specs.ByConnections.{AreTickets, room_at, with_ticket, without_ticket};

    // No connection has a ticket.
    pub(crate) fn new(alloc: Global) -> ByConnection
        ensures { AreTickets (λ _. []) result }
    {
        ByConnection {
            alloc,
            tickets: IndexMap::with_hasher(alloc, NumberHashes::new()),
        }
    }

    // The same tickets.
    pub(crate) fn copy(&self) -> Result<ByConnection, AllocError>
        ensures { IfOk result (λ copy. (holds : ℕ → List ℕ) → AreTickets holds self.now → AreTickets holds copy) }
    {
        Ok(ByConnection {
            alloc: self.alloc,
            tickets: copy_map(&self.tickets)?,
        })
    }

    // Makes room for one more ticket of a connection. Nothing else changes, at out of memory too.
    pub(crate) fn reserve(&mut self, conn: u64) -> Result<(), AllocError>
        ensures ok { OnOk result (0 < room_at self.new conn) }
        ensures same { (holds : ℕ → List ℕ) → AreTickets holds self.old → AreTickets holds self.new }
        ensures room { (other : ℕ) → room_at self.old other ≤ room_at self.new other }
    {
        match self.tickets.get_index_of(&conn) {
            Some(index) => self.tickets[index].reserve(1),
            None => {
                let mut tickets = RisingMap::new(self.alloc);
                tickets.reserve(1)?;
                self.tickets.insert(conn, tickets)?;
                Ok(())
            }
        }
    }

    // Gives a ticket above all others to a connection, for which there is room.
    pub(crate) fn add_reserved(&mut self, conn: u64, ticket: u64)
        requires { 0 < room_at self.old conn }
        ensures room { (other : ℕ) → nat_eq conn other ≡ false → room_at self.new other ≡ room_at self.old other }
        ensures added { (holds : ℕ → List ℕ) → AreTickets holds self.old → AreBelow ticket (holds conn) → AreTickets (with_ticket conn ticket holds) self.new }
    {
        match self.tickets.get_index_of(&conn) {
            Some(index) => self.tickets[index].push_reserved(ticket, ()),
            None => unreachable!(),
        }
    }

    // Takes a ticket of a connection away, if it has it.
    pub(crate) fn remove(&mut self, conn: u64, ticket: u64)
        ensures removed { (holds : ℕ → List ℕ) → AreTickets holds self.old → AreTickets (without_ticket conn ticket holds) self.new }
    {
        let Some(index) = self.tickets.get_index_of(&conn) else {
            return;
        };
        let tickets = &mut self.tickets[index];
        let _ = tickets.take(ticket);
        if tickets.is_empty() {
            let _ = self.tickets.swap_remove(&conn);
        }
    }

    // The tickets of a connection, in the order in which they came.
    pub(crate) fn tickets(&self, alloc: Global, conn: u64) -> Result<Vec<u64>, AllocError>
        ensures { IfOk result (λ tickets. (holds : ℕ → List ℕ) → AreTickets holds self.now → tickets.items ≡ holds conn) }
    {
        match self.tickets.get(&conn) {
            Some(tickets) => tickets.numbers(alloc),
            None => Ok(Vec::new(alloc)),
        }
    }
}
