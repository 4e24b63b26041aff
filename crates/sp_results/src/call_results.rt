//! Results of calls that are held.

ghost use Rattle.std.specs.Prelude.{◌≡◌, ℕ, Option, ◌+◌, ◌-◌, ◌^◌, ◌≤◌, ◌<◌, ◌++◌, ◌||◌, not, false, List, [], ◌∷◌, filter, map, IfOk, OnOk, nat_eq, option_copied};
ghost use Rattle.std.specs.List.{flat_map, list_any};
ghost use Rattle.std.specs.Map.{keys_of, lookup, remove_entry};
ghost use Rattle.space_ids.specs.declared.ids.ObjId.{ObjId};
ghost use Rattle.space_ids.specs.declared.value.Value.{Value as Carried};
ghost use Rattle.rising_map.specs.Rows.{AreRows};
ghost use Rattle.sp_rules.specs.Endings.{orphan};
ghost use Rattle.sp_rules.specs.Frames.{is_acked_by};
ghost use Rattle.sp_rules.specs.OwnEvents.{is_over_at};
ghost use Rattle.sp_rules.specs.References.{is_id_in, is_reference_in, references_in};
ghost use Rattle.sp_rules.specs.State.{KeptResult as Kept};

use crate::orphans::Orphans;
use crate::unacknowledged::Unacknowledged;
use rising_map::RisingMap;
use sp_store::IdSet;
use space_ids::{Ref, Uuid, Value, is_among};
use std::alloc::{AllocError, Global};
use table_copies::PeerHashes;

// How long a result is held after the last moment of its connection, in milliseconds.
const HELD: u64 = 600_000;

/// The results of calls and lookups that came. Each is held until the Ack of its number comes on its
/// connection; if the connection ends first, for 600,000 ms after its last moment. A result comes and
/// goes at a cost that does not depend on how many are held; the end of a connection looks at its own
/// results, and a moment at those that go.
///
/// A contract names the moment that it is, and the list of all results of a space, with those of its own
/// roots and lookups, that the value may stand for.
#[derive(Drop)]
pub struct CallResults {
    alloc: Global,
    values: RisingMap<Option<Value>>,
    unacknowledged: Unacknowledged,
    orphans: Orphans,
    last: u64,
}

impl CallResults {
    ghost use Rattle.sp_results.specs.Held.{AreCallResults, AreTicketed, HasRoom, HasRoomToEnd, acked_row, is_named_in, left_at, left_by_ack, of_calls, references_found, references_of_results, with_acked};

    /// No result is held. The numbers of calls are hashed in this way.
    pub fn new(alloc: Global, hashes: PeerHashes) -> CallResults
        ensures { (moment : ℕ) → AreCallResults moment [] result }
    {
        CallResults {
            alloc,
            values: RisingMap::new(alloc),
            unacknowledged: Unacknowledged::new(alloc, hashes),
            orphans: Orphans::new(alloc),
            last: 0,
        }
    }

    /// The same results at the same moment. Room that was made may be lost. It costs a step a result.
    pub fn copy(&self) -> Result<CallResults, AllocError>
        ensures copied { IfOk result (λ copy. (moment : ℕ) (results : List Kept) → AreCallResults moment results self.now → AreCallResults moment results copy) }
    {
        Ok(CallResults {
            alloc: self.alloc,
            values: self.values.copy()?,
            unacknowledged: self.unacknowledged.copy()?,
            orphans: self.orphans.clone()?,
            last: self.last,
        })
    }

    /// Whether a result waits for the Ack of this number on this connection.
    pub fn contains(&self, conn: u64, number: u64) -> bool
        ensures { (moment : ℕ) (results : List Kept) → AreCallResults moment results self.now → result ≡ list_any (is_acked_by conn number) results }
    {
        self.unacknowledged.ticket(conn, number).is_some()
    }

    /// The value of the result that waits for the Ack of this number on this connection, if there is one.
    pub fn get(&self, conn: u64, number: u64) -> Option<&Option<Value>>
        ensures { (moment : ℕ) (results : List Kept) → AreCallResults moment results self.now → filter (is_acked_by conn number) results ≡ acked_row conn number (option_copied result) }
    {
        self.values.get(self.unacknowledged.ticket(conn, number)?)
    }

    /// Makes room for a result of a call on this connection. Nothing else changes, at out of memory too.
    /// What is not used stays until the connection ends. After 2^64 - 1 results there is no ticket left,
    /// and so no memory for one.
    pub fn reserve(&mut self, conn: u64) -> Result<(), AllocError>
        ensures ok { OnOk result (HasRoom conn self.new) }
        ensures same { (moment : ℕ) (results : List Kept) → AreCallResults moment results self.old → AreCallResults moment results self.new }
    {
        if self.last == u64::MAX {
            return Err(AllocError);
        }
        self.values.reserve(1)?;
        self.unacknowledged.reserve(conn)
    }

    /// Holds the result of a call, of whose number on its connection none is held, until its Ack. It takes
    /// no memory: the caller owes [room](CallResults::reserve) for it.
    pub fn hold_reserved(&mut self, conn: u64, number: u64, value: Option<Value>)
        requires { HasRoom conn self.old }
        ensures { (moment : ℕ) (results : List Kept) → AreCallResults moment results self.old → list_any (is_acked_by conn number) results ≡ false → AreCallResults moment (with_acked conn number value results) self.new }
    {
        let ticket = self.last + 1;
        self.unacknowledged.add_reserved(conn, number, ticket);
        self.values.push_reserved(ticket, value);
        self.last = ticket;
    }

    /// Lets the result go that waits for the Ack of this number on this connection, if there is one, and
    /// returns its value. The order of the others stays. It takes no memory.
    pub fn release(&mut self, conn: u64, number: u64) -> Option<Option<Value>>
        ensures value { (moment : ℕ) (results : List Kept) → AreCallResults moment results self.old → filter (is_acked_by conn number) results ≡ acked_row conn number result }
        ensures released { (moment : ℕ) (results : List Kept) → AreCallResults moment results self.old → AreCallResults moment (left_by_ack conn number results) self.new }
    {
        let ticket = self.unacknowledged.remove(conn, number)?;
        self.values.take(ticket)
    }

    /// Makes room for the end of a connection. Nothing else changes, at out of memory too.
    pub fn reserve_end(&mut self, conn: u64) -> Result<(), AllocError>
        ensures ok { OnOk result (HasRoomToEnd conn self.new) }
        ensures same { (moment : ℕ) (results : List Kept) → AreCallResults moment results self.old → AreCallResults moment results self.new }
    {
        let results = self.unacknowledged.count(conn);
        self.orphans.reserve(results)
    }

    /// Holds the results that wait for Acks on a connection that ends at this moment for 600,000 ms more.
    /// It takes no memory: the caller owes [room](CallResults::reserve_end) for it.
    pub fn end_reserved(&mut self, conn: u64, moment: u64)
        requires early { moment < 2 ^ 63 }
        requires room { HasRoomToEnd conn self.old }
        ensures { (results : List Kept) → AreCallResults moment results self.old → AreCallResults moment (map (orphan conn moment) results) self.new }
    {
        if let Some(numbers) = self.unacknowledged.take(conn) {
            self.orphans.push_all_reserved(&numbers, moment + HELD);
        }
    }

    /// The references in the results that go at this moment, in the order in which these came.
    pub fn references_over(&self, alloc: Global, moment: u64) -> Result<Vec<Ref>, AllocError>
        ensures { IfOk result (λ references. (before : ℕ) (results : List Kept) → AreCallResults before results self.now → references.items ≡ references_of_results (filter (is_over_at moment) results)) }
    {
        let tickets = self.tickets_over(alloc, moment)?;
        self.references(alloc, tickets.as_slice())
    }

    /// Lets the results go that are held until this moment, which is not below the last, or one before it.
    /// The order of the others stays. It takes no memory.
    pub fn pass(&mut self, moment: u64)
        ensures { (before : ℕ) (results : List Kept) → AreCallResults before results self.old → before ≤ moment → AreCallResults moment (left_at moment results) self.new }
    {
        while let Some(ticket) = self.orphans.pop_over(moment) {
            self.remove(ticket);
        }
    }

    /// Adds the ids of the space's own objects that the results name.
    pub fn insert_own(&self, own: &Uuid, ids: &mut IdSet) -> Result<(), AllocError>
        ensures { OnOk result ((moment : ℕ) (results : List Kept) → AreCallResults moment results self.now → (id : ObjId) → is_id_in ids.new id ≡ (is_id_in ids.old id || is_named_in own.now (of_calls results) id)) }
    {
        let references = self.all_references()?;
        ids.insert_references(own, references.as_slice())
    }

    /// Whether a result is the reference, under its class. It looks at each.
    pub fn has_reference(&self, reference: &Ref) -> Result<bool, AllocError>
        ensures { IfOk result (λ has. (moment : ℕ) (results : List Kept) → AreCallResults moment results self.now → has ≡ list_any (λ kept. is_reference_in (references_in kept.value) reference.now) (of_calls results)) }
    {
        let references = self.all_references()?;
        Ok(is_among(references.as_slice(), reference))
    }

    // The references in all results, in the order in which these came.
    fn all_references(&self) -> Result<Vec<Ref>, AllocError>
        ensures { IfOk result (λ references. (moment : ℕ) (results : List Kept) → AreCallResults moment results self.now → references.items ≡ references_of_results (of_calls results)) }
    {
        let tickets = self.values.numbers(self.alloc)?;
        self.references(self.alloc, tickets.as_slice())
    }

    // The references in the results of these tickets.
    fn references(&self, alloc: Global, tickets: &[u64]) -> Result<Vec<Ref>, AllocError>
        ensures { IfOk result (λ references. (rows : List (ℕ × Option Carried)) → AreRows rows self.now.values → references.items ≡ flat_map (λ (ticket : ℕ). references_found (lookup (nat_eq ticket) rows)) tickets.now) }
    {
        let mut references = Vec::new(alloc);
        for ticket in tickets {
            if let Some(Some(Value::Ref(reference))) = self.values.get(*ticket) {
                references.push(*reference)?;
            }
        }
        Ok(references)
    }

    // Takes the value of a ticket away, if it is there.
    fn remove(&mut self, ticket: u64)
        ensures others { self.new ≡ record self.old { values = self.new.values } }
        ensures removed { (rows : List (ℕ × Option Carried)) → AreRows rows self.old.values → AreRows (remove_entry (nat_eq ticket) rows) self.new.values }
    {
        let _ = self.values.take(ticket);
    }

    // The tickets of the results that go at this moment, in the order in which these came.
    fn tickets_over(&self, alloc: Global, moment: u64) -> Result<Vec<u64>, AllocError>
        ensures { IfOk result (λ tickets. (before : ℕ) (rows : List (ℕ × Kept)) → AreTicketed before rows self.now → tickets.items ≡ keys_of (filter (λ (row : ℕ × Kept). is_over_at moment row.1) rows)) }
    {
        let mut tickets = self.orphans.tickets_over(alloc, moment)?;
        tickets.sort_unstable();
        Ok(tickets)
    }
}
