//! Frames that wait for leases: they are parked, and taken out.

ghost use Rattle.std.specs.Prelude.{◌≡◌, ◌++◌, ◌==◌, Bool, ℕ, List, [], ◌∷◌, false, IfOk, OnOk, not, filter, map};
ghost use Rattle.std.specs.List.{IsDistinct, list_all, list_any};
ghost use Rattle.dgc_client.specs.Table.{is_same};
ghost use Rattle.sp_parked.specs.Parkings.{AreParked, parked_of};
ghost use Rattle.sp_parked.specs.declared.frame.ParkedFrame.{ParkedFrame as Waiting};
ghost use Rattle.sp_rules.specs.Classes.{Setting};
ghost use Rattle.sp_rules.specs.ParkedFrames.{has_lease, is_parked_at, names};
ghost use Rattle.sp_rules.specs.State.{ParkedFrame as Row, State};
ghost use Rattle.sp_transport.specs.Transports.{IsTransport};
ghost use Rattle.sp_living.specs.Frames.{is_free, with_parked};

use crate::Living;
use sp_parked::ParkedFrame;
use space_ids::ForeignId;
use std::alloc::AllocError;

impl Living {
    ghost use Rattle.sp_living.specs.Livings.{IsLiving};
    ghost use Rattle.sp_living.specs.Tickets.{AreTicketsOf, free_at, numbered_at};

    /// Parks a frame after all others. Its references are not held yet, and it names each once. Under one
    /// connection and number one is parked (laws `calls_that_come_are_once` and `answers_are_parked`).
    pub fn put_frame(&mut self, frame: ParkedFrame) -> Result<(), AllocError>
        requires { IsDistinct is_same frame.references }
        ensures parked { OnOk result ((g : Setting) (s : State) → IsLiving g s self.old → IsLiving g (with_parked (s.parked ++ parked_of frame ∷ []) s) self.new) }
        ensures tasks { self.new.tasks ≡ self.old.tasks }
    {
        if self.is_parked(frame.conn, frame.number)? {
            return Err(AllocError);
        }
        self.parked
            .reserve(frame.conn, frame.references.as_slice())?;
        let _ = self.parked.park_reserved(frame);
        Ok(())
    }

    // Whether a frame is parked under this connection and number.
    fn is_parked(&self, conn: u64, number: u64) -> Result<bool, AllocError>
        ensures { IfOk result (λ found. found ≡ false → (g : Setting) (s : State) → IsLiving g s self.now → list_any (is_parked_at conn number) s.parked ≡ false) }
    {
        for ticket in &self.parked.on_connection(self.alloc, conn)? {
            if self.is_numbered(*ticket, number) {
                return Ok(true);
            }
        }
        Ok(false)
    }

    // Whether a frame of this number waits under a ticket.
    fn is_numbered(&self, ticket: u64, number: u64) -> bool
        ensures { (frames : List (ℕ × Waiting)) → AreParked frames self.now.parked → result ≡ numbered_at number ticket frames }
    {
        match self.parked.get(ticket) {
            Some(frame) => frame.number == number,
            None => false,
        }
    }

    /// Takes the frames out that are parked on a connection, in the order in which they came. Their references
    /// stay held.
    pub fn take_frames_on(&mut self, conn: u64) -> Result<Vec<ParkedFrame>, AllocError>
        ensures tasks { self.new.tasks ≡ self.old.tasks }
        ensures frames { IfOk result (λ taken. (g : Setting) (s : State) → IsLiving g s self.old → map parked_of taken.items ≡ filter (λ (p : Row). p.conn == conn) s.parked) }
        ensures left { OnOk result ((g : Setting) (s : State) → IsLiving g s self.old → IsLiving g (with_parked (filter (λ (p : Row). not (p.conn == conn)) s.parked) s) self.new) }
    {
        let tickets = self.parked.on_connection(self.alloc, conn)?;
        self.take_frames(&tickets)
    }

    /// Takes the frames out that wait for a reference, in the order in which they came. Their references stay
    /// held.
    pub fn take_frames_naming(
        &mut self,
        reference: &ForeignId,
    ) -> Result<Vec<ParkedFrame>, AllocError>
        ensures tasks { self.new.tasks ≡ self.old.tasks }
        ensures frames { IfOk result (λ taken. (g : Setting) (s : State) → IsLiving g s self.old → map parked_of taken.items ≡ filter (names reference.now) s.parked) }
        ensures left { OnOk result ((g : Setting) (s : State) → IsLiving g s self.old → IsLiving g (with_parked (filter (λ (p : Row). not (names reference.now p)) s.parked) s) self.new) }
    {
        let tickets = self.parked.naming(self.alloc, reference)?;
        self.take_frames(&tickets)
    }

    /// Takes the frames out of whose references each has a lease, in the order in which they came. Their
    /// references stay held.
    pub fn take_free_frames(&mut self) -> Result<Vec<ParkedFrame>, AllocError>
        ensures tasks { self.new.tasks ≡ self.old.tasks }
        ensures frames { IfOk result (λ taken. (g : Setting) (s : State) → IsLiving g s self.old → map parked_of taken.items ≡ filter (is_free s) s.parked) }
        ensures left { OnOk result ((g : Setting) (s : State) → IsLiving g s self.old → IsLiving g (with_parked (filter (λ (p : Row). not (is_free s p)) s.parked) s) self.new) }
    {
        let tickets = self.free_tickets()?;
        self.take_frames(&tickets)
    }

    // The tickets of the frames of whose references each has a lease, in the order in which these came.
    fn free_tickets(&self) -> Result<Vec<u64>, AllocError>
        ensures { IfOk result (λ tickets. (g : Setting) (s : State) → IsLiving g s self.now → AreTicketsOf (is_free s) tickets.items self.now.parked) }
    {
        let tickets = self.parked.tickets(self.alloc)?;
        let mut free = Vec::new(self.alloc);
        for ticket in &tickets {
            if self.is_free(*ticket) {
                free.push(*ticket)?;
            }
        }
        Ok(free)
    }

    // Whether a frame waits under a ticket, and each of its references has a lease.
    fn is_free(&self, ticket: u64) -> bool
        ensures { (s : State) (frames : List (ℕ × Waiting)) → IsTransport s self.now.transport → AreParked frames self.now.parked → result ≡ free_at s ticket frames }
    {
        match self.parked.get(ticket) {
            Some(frame) => self.have_leases(frame.references.as_slice()),
            None => false,
        }
    }

    // Whether each of these references has a lease.
    fn have_leases(&self, references: &[ForeignId]) -> bool
        ensures { (s : State) → IsTransport s self.now.transport → result ≡ list_all (has_lease s) references.now }
    {
        for reference in references {
            if self.transport.lease(reference).lease.is_none() {
                return false;
            }
        }
        true
    }

    // Takes the frames of these tickets out, in this order.
    fn take_frames(&mut self, tickets: &[u64]) -> Result<Vec<ParkedFrame>, AllocError>
        ensures tasks { self.new.tasks ≡ self.old.tasks }
        ensures frames { IfOk result (λ taken. (g : Setting) (s : State) (is : Row → Bool) → IsLiving g s self.old → AreTicketsOf is tickets.now self.old.parked → map parked_of taken.items ≡ filter is s.parked) }
        ensures left { OnOk result ((g : Setting) (s : State) (is : Row → Bool) → IsLiving g s self.old → AreTicketsOf is tickets.now self.old.parked → IsLiving g (with_parked (filter (λ p. not (is p)) s.parked) s) self.new) }
    {
        let mut taken = Vec::new(self.alloc);
        for ticket in tickets {
            if let Some(frame) = self.parked.take(*ticket) {
                taken.push(frame)?;
            }
        }
        Ok(taken)
    }
}
