//! The tickets of the frames that name a reference.

ghost use Rattle.std.specs.Prelude.{◌≡◌, ℕ, ◌≤◌, ◌<◌, true, false, List, [], IfOk, OnOk};
ghost use Rattle.space_ids.specs.declared.ids.ForeignId.{ForeignId as Reference};
ghost use Rattle.std.specs.List.{IsDistinct};
ghost use Rattle.dgc_client.specs.Table.{is_among, is_same};
ghost use Rattle.rising_map.specs.Rows.{AreBelow};

use indexmap::IndexMap;
use rising_map::RisingMap;
use space_ids::ForeignId;
use std::alloc::{AllocError, Global};
use table_copies::{PeerHashes, copy_map};

/// The tickets of the frames that name a reference, by the references, in the order in which they came. A
/// ticket comes and goes at a cost that does not depend on how many there are.
///
/// A contract names the tickets that each reference may have.
#[derive(Drop)]
pub(crate) struct ByReference {
    alloc: Global,
    tickets: IndexMap<ForeignId, RisingMap<()>, PeerHashes>,
}

impl ByReference {
    ghost use Rattle.sp_parked.specs.ByReferences.{AreTickets, room_at, with_ticket, with_tickets, without_ticket, without_tickets};

    // No reference has a ticket. References are hashed in this way.
    pub(crate) fn new(alloc: Global, hashes: PeerHashes) -> ByReference
        ensures { AreTickets (λ _. []) result }
    {
        ByReference {
            alloc,
            tickets: IndexMap::with_hasher(alloc, hashes),
        }
    }

    // The same tickets.
    pub(crate) fn copy(&self) -> Result<ByReference, AllocError>
        ensures { IfOk result (λ copy. (holds : Reference → List ℕ) → AreTickets holds self.now → AreTickets holds copy) }
    {
        Ok(ByReference {
            alloc: self.alloc,
            tickets: copy_map(&self.tickets)?,
        })
    }

    // Makes room for one more ticket of a reference. Nothing else changes, at out of memory too.
    pub(crate) fn reserve(&mut self, reference: &ForeignId) -> Result<(), AllocError>
        ensures ok { OnOk result (0 < room_at self.new reference.now) }
        ensures same { (holds : Reference → List ℕ) → AreTickets holds self.old → AreTickets holds self.new }
        ensures room { (other : Reference) → room_at self.old other ≤ room_at self.new other }
    {
        match self.tickets.get_index_of(reference) {
            Some(index) => self.tickets[index].reserve(1),
            None => {
                let mut tickets = RisingMap::new(self.alloc);
                tickets.reserve(1)?;
                self.tickets.insert(*reference, tickets)?;
                Ok(())
            }
        }
    }

    // Gives a ticket above all others to a reference, for which there is room.
    pub(crate) fn add_reserved(&mut self, reference: &ForeignId, ticket: u64)
        requires { 0 < room_at self.old reference.now }
        ensures room { (other : Reference) → is_same reference.now other ≡ false → room_at self.new other ≡ room_at self.old other }
        ensures added { (holds : Reference → List ℕ) → AreTickets holds self.old → AreBelow ticket (holds reference.now) → AreTickets (with_ticket reference.now ticket holds) self.new }
    {
        match self.tickets.get_index_of(reference) {
            Some(index) => self.tickets[index].push_reserved(ticket, ()),
            None => unreachable!(),
        }
    }

    // Takes a ticket of a reference away, if it has it.
    pub(crate) fn remove(&mut self, reference: &ForeignId, ticket: u64)
        ensures removed { (holds : Reference → List ℕ) → AreTickets holds self.old → AreTickets (without_ticket reference.now ticket holds) self.new }
    {
        let Some(index) = self.tickets.get_index_of(reference) else {
            return;
        };
        let tickets = &mut self.tickets[index];
        let _ = tickets.take(ticket);
        if tickets.is_empty() {
            let _ = self.tickets.swap_remove(reference);
        }
    }

    // The tickets of a reference, in the order in which they came.
    pub(crate) fn tickets(
        &self,
        alloc: Global,
        reference: &ForeignId,
    ) -> Result<Vec<u64>, AllocError>
        ensures { IfOk result (λ tickets. (holds : Reference → List ℕ) → AreTickets holds self.now → tickets.items ≡ holds reference.now) }
    {
        match self.tickets.get(reference) {
            Some(tickets) => tickets.numbers(alloc),
            None => Ok(Vec::new(alloc)),
        }
    }

    // Makes room for one more ticket of each of these references. Nothing else changes, at out of memory
    // too.
    pub(crate) fn reserve_all(&mut self, references: &[ForeignId]) -> Result<(), AllocError>
        ensures ok { OnOk result ((r : Reference) → is_among r references.now ≡ true → 0 < room_at self.new r) }
        ensures same { (holds : Reference → List ℕ) → AreTickets holds self.old → AreTickets holds self.new }
    {
        for reference in references {
            self.reserve(reference)?;
        }
        Ok(())
    }

    // Gives a ticket above all others to each of these references, each of which stands once and has room.
    pub(crate) fn add_all_reserved(&mut self, references: &[ForeignId], ticket: u64)
        requires once { IsDistinct is_same references.now }
        requires room { (r : Reference) → is_among r references.now ≡ true → 0 < room_at self.old r }
        ensures { (holds : Reference → List ℕ) → AreTickets holds self.old → ((r : Reference) → AreBelow ticket (holds r)) → AreTickets (with_tickets references.now ticket holds) self.new }
    {
        for reference in references {
            self.add_reserved(reference, ticket);
        }
    }

    // Takes a ticket of each of these references away, if it has it.
    pub(crate) fn remove_all(&mut self, references: &[ForeignId], ticket: u64)
        ensures { (holds : Reference → List ℕ) → AreTickets holds self.old → AreTickets (without_tickets references.now ticket holds) self.new }
    {
        for reference in references {
            self.remove(reference, ticket);
        }
    }
}
