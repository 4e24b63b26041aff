//! The tickets of results that wait for an Ack.

ghost use Rattle.std.specs.Prelude.{◌≡◌, ℕ, ◌+◌, ◌≤◌, ◌<◌, false, nat_eq, length, List, [], None, IfOk, IfSome, OnOk, MatchOption};
ghost use Rattle.std.specs.Map.{lookup};

use indexmap::IndexMap;
use std::alloc::{AllocError, Global};
use table_copies::{CopyIn, NumberHashes, PeerHashes, copy_map};

/// The tickets of the results of one connection that wait for an Ack, by the numbers of the calls.
#[derive(Drop)]
pub(crate) struct Numbers {
    pub(crate) tickets: IndexMap<u64, u64, PeerHashes>,
}

impl CopyIn for Numbers {
    ghost is_copy = { λ numbers copy. copy.tickets.entries ≡ numbers.tickets.entries };

    fn copy_in(&self, _alloc: Global) -> Result<Numbers, AllocError> {
        Ok(Numbers {
            tickets: self.tickets.clone()?,
        })
    }
}

/// The tickets of results that wait for an Ack, by connections and numbers. A ticket is found, comes and
/// goes at a cost that does not depend on how many there are.
///
/// A contract names the numbers and tickets that each connection may have.
#[derive(Drop)]
pub(crate) struct Unacknowledged {
    alloc: Global,
    // How the numbers of calls are hashed, which peers pick.
    hashes: PeerHashes,
    numbers: IndexMap<u64, Numbers, NumberHashes>,
}

impl Unacknowledged {
    ghost use Rattle.sp_results.specs.Numbers.{AreTickets, count_at, room_at, with_number, without_connection, without_number};

    // No connection has a ticket.
    pub(crate) fn new(alloc: Global, hashes: PeerHashes) -> Unacknowledged
        ensures { AreTickets (λ _. []) result }
    {
        Unacknowledged {
            alloc,
            hashes,
            numbers: IndexMap::with_hasher(alloc, NumberHashes::new()),
        }
    }

    // The same tickets.
    pub(crate) fn copy(&self) -> Result<Unacknowledged, AllocError>
        ensures { IfOk result (λ copy. (holds : ℕ → List (ℕ × ℕ)) → AreTickets holds self.now → AreTickets holds copy) }
    {
        Ok(Unacknowledged {
            alloc: self.alloc,
            hashes: self.hashes,
            numbers: copy_map(&self.numbers)?,
        })
    }

    // The ticket of a number on a connection, if there is one.
    pub(crate) fn ticket(&self, conn: u64, number: u64) -> Option<u64>
        ensures { (holds : ℕ → List (ℕ × ℕ)) → AreTickets holds self.now → result ≡ lookup (nat_eq number) (holds conn) }
    {
        self.numbers.get(&conn)?.tickets.get(&number).copied()
    }

    // How many tickets a connection has.
    pub(crate) fn count(&self, conn: u64) -> usize
        ensures { result ≡ count_at self.now conn }
    {
        match self.numbers.get(&conn) {
            Some(numbers) => numbers.tickets.len(),
            None => 0,
        }
    }

    // Makes room for one more ticket of a connection. Nothing else changes, at out of memory too.
    pub(crate) fn reserve(&mut self, conn: u64) -> Result<(), AllocError>
        ensures ok { OnOk result (0 < room_at self.new conn) }
        ensures same { (holds : ℕ → List (ℕ × ℕ)) → AreTickets holds self.old → AreTickets holds self.new }
    {
        match self.numbers.get_index_of(&conn) {
            Some(index) => self.numbers[index].tickets.reserve(1),
            None => {
                let mut tickets = IndexMap::with_hasher(self.alloc, self.hashes);
                tickets.reserve(1)?;
                self.numbers.insert(conn, Numbers { tickets })?;
                Ok(())
            }
        }
    }

    // Gives a ticket to a number that has none, on a connection for which there is room.
    pub(crate) fn add_reserved(&mut self, conn: u64, number: u64, ticket: u64)
        requires { 0 < room_at self.old conn }
        ensures added { (holds : ℕ → List (ℕ × ℕ)) → AreTickets holds self.old → lookup (nat_eq number) (holds conn) ≡ None → AreTickets (with_number conn number ticket holds) self.new }
    {
        let Some(index) = self.numbers.get_index_of(&conn) else {
            unreachable!();
        };
        let Ok(_) = self.numbers[index].tickets.insert(number, ticket) else {
            unreachable!();
        };
    }

    // Takes the ticket of a number on a connection away, if there is one.
    pub(crate) fn remove(&mut self, conn: u64, number: u64) -> Option<u64>
        ensures ticket { (holds : ℕ → List (ℕ × ℕ)) → AreTickets holds self.old → result ≡ lookup (nat_eq number) (holds conn) }
        ensures removed { (holds : ℕ → List (ℕ × ℕ)) → AreTickets holds self.old → AreTickets (without_number conn number holds) self.new }
    {
        let index = self.numbers.get_index_of(&conn)?;
        self.numbers[index].tickets.swap_remove(&number)
    }

    // Takes all tickets of a connection away.
    pub(crate) fn take(&mut self, conn: u64) -> Option<Numbers>
        ensures tickets { (holds : ℕ → List (ℕ × ℕ)) → AreTickets holds self.old → MatchOption result (holds conn ≡ []) (λ numbers. (number : ℕ) → lookup (nat_eq number) numbers.tickets.entries ≡ lookup (nat_eq number) (holds conn)) }
        ensures count { IfSome result (λ numbers. length numbers.tickets.entries ≡ count_at self.old conn) }
        ensures taken { (holds : ℕ → List (ℕ × ℕ)) → AreTickets holds self.old → AreTickets (without_connection conn holds) self.new }
    {
        self.numbers.swap_remove(&conn)
    }
}
