//! Frames that wait for leases.

ghost use Rattle.std.specs.Prelude.{◌≡◌, ℕ, ◌+◌, ◌++◌, List, [], ◌∷◌, IfOk, OnOk, is_none, nat_eq, option_copied};
ghost use Rattle.std.specs.List.{IsDistinct};
ghost use Rattle.std.specs.Map.{keys_of, lookup, remove_entry};
ghost use Rattle.dgc_client.specs.Table.{is_same};
ghost use Rattle.rising_map.specs.Rows.{first_row};
ghost use Rattle.sp_parked.specs.declared.frame.ParkedFrame.{ParkedFrame as Waiting};

use crate::ParkedFrame;
use crate::by_connection::ByConnection;
use crate::by_reference::ByReference;
use rising_map::RisingMap;
use space_ids::ForeignId;
use std::alloc::{AllocError, Global};
use table_copies::PeerHashes;

// Tickets begin above this one.
const NO_TICKET: u64 = 0;

/// Frames that wait for leases, under tickets that rise, in the order in which they came. A frame comes and
/// goes at a cost that does not depend on how many wait, and so are those found that name a reference or
/// came on a connection.
///
/// A contract names the list of the tickets and frames that the value may stand for.
#[derive(Drop)]
pub struct Parked {
    frames: RisingMap<ParkedFrame>,
    by_reference: ByReference,
    by_connection: ByConnection,
    last: u64,
}

impl Parked {
    ghost use Rattle.sp_parked.specs.Parkings.{AreParked, HasRoom, last_ticket, naming, on_connection};

    /// No frame waits. References are hashed in this way.
    pub fn new(alloc: Global, hashes: PeerHashes) -> Parked
        ensures frames { AreParked [] result }
        ensures last { last_ticket result ≡ 0 }
    {
        Parked {
            frames: RisingMap::new(alloc),
            by_reference: ByReference::new(alloc, hashes),
            by_connection: ByConnection::new(alloc),
            last: 0,
        }
    }

    /// The same frames under the same tickets. Room that was made may be lost. It costs a step for each
    /// frame and each reference in it.
    pub fn copy(&self) -> Result<Parked, AllocError>
        ensures copied { IfOk result (λ copy. (frames : List (ℕ × Waiting)) → AreParked frames self.now → AreParked frames copy) }
        ensures last { IfOk result (λ copy. last_ticket copy ≡ last_ticket self.now) }
    {
        Ok(Parked {
            frames: self.frames.copy()?,
            by_reference: self.by_reference.copy()?,
            by_connection: self.by_connection.copy()?,
            last: self.last,
        })
    }

    /// Whether no frame waits.
    pub fn is_empty(&self) -> bool
        ensures { (frames : List (ℕ × Waiting)) → AreParked frames self.now → result ≡ is_none (first_row frames) }
    {
        self.frames.is_empty()
    }

    /// The frame of a ticket, if it waits.
    pub fn get(&self, ticket: u64) -> Option<&ParkedFrame>
        ensures { (frames : List (ℕ × Waiting)) → AreParked frames self.now → option_copied result ≡ lookup (nat_eq ticket) frames }
    {
        self.frames.get(ticket)
    }

    /// The tickets of all frames, in the order in which these came.
    pub fn tickets(&self, alloc: Global) -> Result<Vec<u64>, AllocError>
        ensures { IfOk result (λ tickets. (frames : List (ℕ × Waiting)) → AreParked frames self.now → tickets.items ≡ keys_of frames) }
    {
        self.frames.numbers(alloc)
    }

    /// The tickets of the frames that name a reference, in the order in which these came.
    pub fn naming(&self, alloc: Global, reference: &ForeignId) -> Result<Vec<u64>, AllocError>
        ensures { IfOk result (λ tickets. (frames : List (ℕ × Waiting)) → AreParked frames self.now → tickets.items ≡ naming frames reference.now) }
    {
        self.by_reference.tickets(alloc, reference)
    }

    /// The tickets of the frames that came on a connection, in the order in which these came.
    pub fn on_connection(&self, alloc: Global, conn: u64) -> Result<Vec<u64>, AllocError>
        ensures { IfOk result (λ tickets. (frames : List (ℕ × Waiting)) → AreParked frames self.now → tickets.items ≡ on_connection frames conn) }
    {
        self.by_connection.tickets(alloc, conn)
    }

    /// Makes room for a frame on this connection that names these references. Nothing else changes, at
    /// out of memory too. After 2^64 - 1 frames there is no ticket left, and so no memory for one.
    pub fn reserve(&mut self, conn: u64, references: &[ForeignId]) -> Result<(), AllocError>
        ensures ok { OnOk result (HasRoom conn references.now self.new) }
        ensures same { (frames : List (ℕ × Waiting)) → AreParked frames self.old → AreParked frames self.new }
        ensures last { last_ticket self.new ≡ last_ticket self.old }
    {
        if self.last == u64::MAX {
            return Err(AllocError);
        }
        self.frames.reserve(1)?;
        self.by_connection.reserve(conn)?;
        self.by_reference.reserve_all(references)
    }

    /// Gives the room back that was made for a frame that does not wait after all.
    pub fn release(&mut self, conn: u64, references: &[ForeignId])
        ensures same { (frames : List (ℕ × Waiting)) → AreParked frames self.old → AreParked frames self.new }
        ensures last { last_ticket self.new ≡ last_ticket self.old }
    {
        self.by_connection.remove(conn, NO_TICKET);
        self.by_reference.remove_all(references, NO_TICKET);
    }

    /// Lets a frame wait, after all others, under the next ticket, which it returns. It names each
    /// reference once. It takes no memory: the caller owes [room](Parked::reserve) for it.
    pub fn park_reserved(&mut self, frame: ParkedFrame) -> u64
        requires once { IsDistinct is_same frame.references }
        requires room { HasRoom frame.conn frame.references self.old }
        ensures ticket { result ≡ last_ticket self.old + 1 }
        ensures parked { (frames : List (ℕ × Waiting)) → AreParked frames self.old → AreParked (frames ++ (last_ticket self.old + 1, frame) ∷ []) self.new }
        ensures last { last_ticket self.new ≡ last_ticket self.old + 1 }
    {
        let ticket = self.last + 1;
        self.by_reference
            .add_all_reserved(frame.references.as_slice(), ticket);
        self.by_connection.add_reserved(frame.conn, ticket);
        self.frames.push_reserved(ticket, frame);
        self.last = ticket;
        ticket
    }

    /// Takes the frame of a ticket, if it waits. The order of the others stays. It takes no memory.
    pub fn take(&mut self, ticket: u64) -> Option<ParkedFrame>
        ensures frame { (frames : List (ℕ × Waiting)) → AreParked frames self.old → result ≡ lookup (nat_eq ticket) frames }
        ensures taken { (frames : List (ℕ × Waiting)) → AreParked frames self.old → AreParked (remove_entry (nat_eq ticket) frames) self.new }
        ensures last { last_ticket self.new ≡ last_ticket self.old }
    {
        let frame = self.frames.take(ticket)?;
        self.by_connection.remove(frame.conn, ticket);
        self.by_reference
            .remove_all(frame.references.as_slice(), ticket);
        Some(frame)
    }
}
