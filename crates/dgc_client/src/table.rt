//! All foreign references of a space.

ghost use Rattle.std.specs.Prelude.{◌≡◌, ◌≤◌, ◌<◌, ◌+◌, ◌-◌, ◌^◌, ℕ, List, [], ◌∷◌, OnOk, OnErr, IfOk, IfSome, IfNone, IsTrue, Contains, Some, length, vec_len, true, false, map, filter};
ghost use Rattle.std.specs.List.{filter_map, IsDistinct};
ghost use Rattle.std.specs.Map.{keys_of};
ghost use Rattle.dgc_client.specs.Kept.{is_same};
ghost use Rattle.dgc_client.specs.Lease.{is_renewed_at, lapses_at};
ghost use Rattle.dgc_client.specs.Touched.{call_of_entry, HasAll, IsAnswered, IsDueAt, reference_of};
ghost use Rattle.dgc_index.specs.Touched.{IsTouched, Rises};
ghost use Rattle.dgc_index.specs.declared.deadlines.Deadline.{Deadline};
ghost use Rattle.dgc_index.specs.declared.plans.Term.{Term};
ghost use Rattle.dgc_index.specs.Deadlines.{IsPlanned};
ghost use Rattle.dgc_index.specs.Plans.{IsPlannedTerm};
ghost use Rattle.dgc_client.specs.History.{event_of};
ghost use Rattle.dgc_client.specs.Table.{leases_of, making};

use crate::due_calls::DueCalls;
use crate::due_now::{all_due, due_now};
use crate::groups::{DueCall, Group, grouped};
use crate::lease::Change;
use crate::leases::Leases;
use crate::picked::{Question, picked};
use crate::planning::plan_anew;
use crate::{ClientLease, Due, Term};
use dgc_index::{Plans, Touched, sorted, up_to};
use space_ids::{ForeignId, ObjId};
use std::alloc::{AllocError, Global};
use table_copies::PeerHashes;
use uuid::Uuid;

/// All foreign references of a space, in the order in which they were first held.
///
/// A contract names the histories that the value may stand for: it is what each of them leaves.
#[derive(Drop)]
pub struct Clients {
    leases: Leases,
    // The references that may have a call due now or later.
    touched: Touched,
    later: Touched,
    // When leases are half over and end, and whether a moment came since the last question for calls.
    plans: Plans,
    moved: bool,
    numbers: u64,
}

impl Clients {
    ghost use Rattle.dgc_client.specs.History.{Event, lease_of};
    ghost use Rattle.dgc_client.specs.History.Event.{Held, Dropped, DirtyAnswered, DirtyFailed, CleanAnswered, CleanFailed};
    ghost use Rattle.dgc_client.specs.Groups.{grouped, in_order};
    ghost use Rattle.dgc_client.specs.DueCalls.{calls_in, HasRoomFor};
    ghost use Rattle.dgc_client.specs.Table.{Told, IsAfter, room, references_in, made_each, own, held, is_among, numbers_of, told, made, sent, due_of, IsSound, is_known, Puts};
    ghost use Rattle.dgc_client.specs.Table.Told.{On, At};

    /// Returns the leases of no references, at moment 0; no number was given. It hashes references in the same way in
    /// each run.
    pub fn new(alloc: Global) -> Clients
        ensures { IsAfter [] result }
    {
        Clients::with_hashes(alloc, PeerHashes::Fixed)
    }

    /// Returns the leases of no references, at moment 0; no number was given. It hashes references in this way.
    pub fn with_hashes(alloc: Global, hashes: PeerHashes) -> Clients
        ensures { IsAfter [] result }
    {
        Clients {
            leases: Leases::new(alloc, hashes),
            touched: Touched::new(alloc),
            later: Touched::new(alloc),
            plans: Plans::new(alloc),
            moved: false,
            numbers: 0,
        }
    }

    /// Returns a table of the same history, with no room for more references. It takes a step a reference.
    pub fn copy(&self) -> Result<Clients, AllocError>
        ensures copied { IfOk result (λ copy. (h : List Told) → IsAfter h self.now → IsAfter h copy) }
    {
        Ok(Clients {
            leases: self.leases.copy()?,
            touched: self.touched.clone()?,
            later: self.later.clone()?,
            plans: self.plans.clone()?,
            moved: self.moved,
            numbers: self.numbers,
        })
    }

    /// Returns what is kept of a reference.
    pub fn lease(&self, reference: &ForeignId) -> ClientLease
        ensures { (h : List Told) → IsAfter h self.now → result ≡ lease_of (own reference.now h) }
    {
        self.leases.get(reference)
    }

    /// Makes room for this many references that were never held before.
    pub fn reserve(&mut self, references: usize) -> Result<(), AllocError>
        ensures ok { OnOk result (references ≤ room self.new) }
        ensures same { (h : List Told) → IsAfter h self.old → IsAfter h self.new }
        ensures kept { room self.old ≤ room self.new }
    {
        self.leases.reserve(references)
    }

    /// Adds a holder of the reference: a parked frame, a task, a field, or a result that nobody has
    /// acknowledged. It may be out of memory only if the reference was never held and there is no
    /// room for it; then nothing changes.
    pub fn hold(&mut self, reference: &ForeignId) -> Result<(), AllocError>
        ensures ok { OnOk result ((h : List Told) → IsAfter h self.old → IsAfter (On reference.now Held ∷ h) self.new) }
        ensures err { OnErr result ((h : List Told) → IsAfter h self.old → IsAfter h self.new) }
        ensures unknown { OnErr result ((h : List Told) → IsAfter h self.old → is_among reference.now (held h) ≡ false) }
        ensures no_room { OnErr result (room self.old ≡ 0) }
        ensures room { room self.old ≤ room self.new + 1 }
    {
        let kept = self.leases.last_term(reference);
        let before = self.leases.get(reference);
        let mut lease = before;
        lease.hold();
        let index = self.leases.insert(reference, lease)?;
        let changed = Changed {
            index,
            kept,
            before: before.lease,
            after: lease,
        };
        self.note(changed);
        Ok(())
    }

    /// Adds a holder as [`hold`](Clients::hold) does. It takes no memory: the caller owes
    /// [room](Clients::reserve) for the reference.
    pub fn hold_reserved(&mut self, reference: &ForeignId)
        requires { 0 < room self.old }
        ensures held { (h : List Told) → IsAfter h self.old → IsAfter (On reference.now Held ∷ h) self.new }
        ensures room { room self.old ≤ room self.new + 1 }
    {
        let Ok(()) = self.hold(reference) else {
            unreachable!();
        };
    }

    /// Takes a holder of the reference away, if it has one.
    pub fn drop_holder(&mut self, reference: &ForeignId)
        ensures dropped { (h : List Told) → IsAfter h self.old → IsAfter (On reference.now Dropped ∷ h) self.new }
        ensures room { room self.new ≡ room self.old }
    {
        self.change(reference, Change::Dropped);
    }

    /// Returns the calls due now: clean calls first, then dirty calls; those of one peer together,
    /// strong clean calls in groups of their own before the others. References stand in the order
    /// in which they were first held, and peers in the order of their first reference. No call is
    /// made by it: the caller makes ([`made`](Clients::made)) each group. It looks only at
    /// references to which something happened since the last `due`, and after a moment at those
    /// whose lease is half over.
    pub fn due(&mut self, alloc: Global) -> Result<Vec<Group>, AllocError>
        ensures groups { IfOk result (λ groups. (h : List Told) → IsAfter h self.old → groups.items ≡ grouped (in_order (due_of h))) }
        ensures same { (h : List Told) → IsAfter h self.old → IsAfter h self.new }
        ensures room { room self.new ≡ room self.old }
    {
        let rests = self.rests();
        if rests {
            return Ok(Vec::new(alloc));
        }
        self.due_of_touched(alloc)
    }

    /// Returns how many references were ever held. At most that many calls can be due.
    pub fn references(&self) -> usize
        ensures count { result ≡ references_in self.now }
        ensures held { (h : List Told) → IsAfter h self.now → result ≡ length (held h) }
    {
        self.leases.len()
    }

    /// Writes the calls due now to `due`, as [`due`](Clients::due) groups them. It cannot fail: the
    /// caller owes room for them. A group is a longest stretch of calls of one peer and kind. No
    /// call is made by it: that is for [`made_calls`](Clients::made_calls). If there is no memory
    /// for what it looks at, it looks at all references.
    pub fn due_reserved(&mut self, due: &mut DueCalls)
        requires { HasRoomFor (references_in self.old) due.old }
        ensures calls { (h : List Told) → IsAfter h self.old → calls_in due.new ≡ in_order (due_of h) }
        ensures same { (h : List Told) → IsAfter h self.old → IsAfter h self.new }
        ensures room { room self.new ≡ room self.old }
        ensures kept { (calls : ℕ) → HasRoomFor calls due.old → HasRoomFor calls due.new }
    {
        let again = self.find_due(due);
        due.put_in_order();
        self.touched = again;
        self.moved = false;
    }

    /// Returns the references whose lease is due for renewal once this moment has come, in the
    /// order in which they were first held.
    pub fn renewals(&self, alloc: Global, moment: u64) -> Result<Vec<ForeignId>, AllocError>
        ensures { IfOk result (λ references. (h : List Told) → IsAfter h self.now → references.items ≡ filter (λ r. is_renewed_at moment (lease_of (own r h))) (held h)) }
    {
        self.picked(alloc, Question::Renewed(moment))
    }

    /// Returns the references whose lease this moment ends, in the order in which they were first
    /// held.
    pub fn lapsed(&self, alloc: Global, moment: u64) -> Result<Vec<ForeignId>, AllocError>
        ensures { IfOk result (λ references. (h : List Told) → IsAfter h self.now → references.items ≡ filter (λ r. lapses_at moment (lease_of (own r h))) (held h)) }
    {
        self.picked(alloc, Question::Lapses(moment))
    }

    /// Notes that the group's call was made under this number, by which the group is known until
    /// its answer. A clean call ends the leases of its references.
    pub fn made(&mut self, group: &Group, call: u64)
        ensures made { (h : List Told) → IsAfter h self.old → IsAfter (made group.now call h) self.new }
        ensures room { room self.new ≡ room self.old }
    {
        self.tell(group, making(group.kind, call));
    }

    /// Notes that these calls were made under this number, as [`made`](Clients::made) does.
    pub fn made_calls(&mut self, calls: &[DueCall], call: u64)
        ensures made { (h : List Told) → IsAfter h self.old → IsAfter (made_each calls.now call h) self.new }
        ensures room { room self.new ≡ room self.old }
    {
        for due in calls {
            self.change(&due.reference, making(due.kind, call));
        }
    }

    /// Notes that the group, or a [part](Group::parts) of it, goes out now in one frame. Returns
    /// its number, one above the last; `None` if that would be 2^64, and then nothing changes.
    pub fn sent(&mut self, group: &Group, call: u64) -> Option<u64>
        ensures number { IfSome result (λ number. (h : List Told) → IsAfter h self.old → number ≡ numbers_of h + 1) }
        ensures some { IfSome result (λ number. (h : List Told) → IsAfter h self.old → IsAfter (sent group.now call h) self.new) }
        ensures worn { IfNone result ((h : List Told) → IsAfter h self.old → 2 ^ 64 ≤ numbers_of h + 1) }
        ensures none { IfNone result (self.new ≡ self.old) }
        ensures room { room self.new ≡ room self.old }
    {
        let number = self.numbers.checked_add(1)?;
        if matches!(group.kind, Due::Dirty) {
            self.tell(group, Change::DirtySent(call));
        }
        self.numbers = number;
        Some(number)
    }

    /// Returns the number that was given last, 0 if none was.
    pub fn last_number(&self) -> u64
        ensures { (h : List Told) → IsAfter h self.now → result ≡ numbers_of h }
    {
        self.numbers
    }

    /// Notes that the group's dirty call was answered by a lease for this period, in milliseconds.
    pub fn dirty_answered(&mut self, group: &Group, call: u64, period: u64)
        ensures answered { (h : List Told) → IsAfter h self.old → IsAfter (told group.now (DirtyAnswered call period) h) self.new }
        ensures room { room self.new ≡ room self.old }
    {
        self.tell(group, Change::DirtyAnswered { call, period });
    }

    /// Notes that the group's dirty call failed.
    pub fn dirty_failed(&mut self, group: &Group, call: u64)
        ensures failed { (h : List Told) → IsAfter h self.old → IsAfter (told group.now (DirtyFailed call) h) self.new }
        ensures room { room self.new ≡ room self.old }
    {
        self.tell(group, Change::DirtyFailed(call));
    }

    /// Notes that the group's clean call was answered.
    pub fn clean_answered(&mut self, group: &Group, call: u64)
        ensures answered { (h : List Told) → IsAfter h self.old → IsAfter (told group.now (CleanAnswered call) h) self.new }
        ensures room { room self.new ≡ room self.old }
    {
        self.tell(group, Change::CleanAnswered(call));
    }

    /// Notes that the group's clean call failed.
    pub fn clean_failed(&mut self, group: &Group, call: u64)
        ensures failed { (h : List Told) → IsAfter h self.old → IsAfter (told group.now (CleanFailed call) h) self.new }
        ensures room { room self.new ≡ room self.old }
    {
        self.tell(group, Change::CleanFailed(call));
    }

    /// Sets the moment that is now, in milliseconds. A moment below the last changes nothing.
    pub fn moment(&mut self, moment: u64)
        ensures moment { (h : List Told) → IsAfter h self.old → IsAfter (At moment ∷ h) self.new }
        ensures room { room self.new ≡ room self.old }
    {
        self.plan_anew();
        if moment < self.leases.last_moment() {
            return;
        }
        self.leases.pass(moment);
        self.touched.join(&mut self.later, self.leases.len());
        self.later.clear();
        self.moved = true;
    }

    // Knows the deadlines of all leases again, if there was no memory for some of them.
    fn plan_anew(&mut self)
        ensures same { (h : List Told) → IsAfter h self.old → IsAfter h self.new }
        ensures room { room self.new ≡ room self.old }
    {
        if !self.plans.lacks_deadlines() {
            return;
        }
        plan_anew(&mut self.plans, &self.leases);
        self.touched.add_all();
    }

    // The due calls, in the order of their references, and the references to look at again.
    fn find_due(&self, due: &mut DueCalls) -> Touched
        requires { HasRoomFor (references_in self.now) due.old }
        ensures found { IsSound self.now → due.new.found.items ≡ filter_map call_of_entry (leases_of self.now.leases) }
        ensures again { IsSound self.now → (at : ℕ) → IsDueAt (leases_of self.now.leases) at → IsTouched result at }
        ensures unique { IsDistinct is_same (keys_of (leases_of self.now.leases)) }
        ensures few { vec_len due.new.found ≤ references_in self.now }
        ensures room { (calls : ℕ) → HasRoomFor calls due.old → HasRoomFor calls due.new }
    {
        let alloc = due.alloc();
        let mut again = Touched::new(alloc);
        match self.candidates(alloc) {
            Ok(candidates) => due_now(
                &self.leases,
                candidates.as_slice(),
                &mut due.found,
                &mut again,
            ),
            Err(_) => all_due(&self.leases, &mut due.found, &mut again),
        }
        again
    }

    // Whether nothing happened to a reference since the last question for calls, and no moment came: no call is due.
    fn rests(&self) -> bool
        ensures none { result ≡ true → IsSound self.now → filter_map call_of_entry (leases_of self.now.leases) ≡ [] }
        ensures unique { IsDistinct is_same (keys_of (leases_of self.now.leases)) }
    {
        // No reference comes twice, as `len` tells a proof.
        let _ = self.leases.len();
        let moved = self.moved;
        if moved {
            return false;
        }
        let all = self.touched.all;
        if all {
            return false;
        }
        self.touched.indexes.is_empty()
    }

    // The groups of due calls, of the references that may have one.
    fn due_of_touched(&mut self, alloc: Global) -> Result<Vec<Group>, AllocError>
        ensures groups { IfOk result (λ groups. (h : List Told) → IsAfter h self.old → groups.items ≡ grouped (in_order (due_of h))) }
        ensures same { (h : List Told) → IsAfter h self.old → IsAfter h self.new }
        ensures room { room self.new ≡ room self.old }
    {
        let candidates = self.candidates(alloc)?;
        let mut due = DueCalls::new(alloc);
        due.reserve(candidates.len().min(self.leases.len()))?;
        let mut again = Touched::new(alloc);
        due_now(
            &self.leases,
            candidates.as_slice(),
            &mut due.found,
            &mut again,
        );
        due.put_in_order();
        let groups = grouped(alloc, due.as_slice())?;
        self.touched = again;
        self.moved = false;
        Ok(groups)
    }

    // The indexes of the references that may have a call due, rising.
    fn candidates(&self, alloc: Global) -> Result<Vec<usize>, AllocError>
        ensures rising { IfOk result (λ found. Rises found.items) }
        ensures there { IfOk result (λ found. IsSound self.now → HasAll (leases_of self.now.leases) found.items) }
        ensures unique { IsDistinct is_same (keys_of (leases_of self.now.leases)) }
    {
        let count = self.leases.len();
        let halves = self.half_over(alloc, count)?;
        let found = self.touched.rising(alloc, count, halves)?;
        Ok(found)
    }

    // The indexes of the leases that are half over, if a moment came since the last question for calls.
    fn half_over(&self, alloc: Global, count: usize) -> Result<Vec<usize>, AllocError>
        ensures { IfOk result (λ found. self.now.moved ≡ true → (d : Deadline) → d.moment ≤ self.now.leases.moment → d.index < count → IsPlanned self.now.plans.halves d → Contains found.items d.index) }
    {
        if self.moved {
            self.plans
                .halves
                .up_to(alloc, self.leases.last_moment(), count)
        } else {
            Ok(Vec::new(alloc))
        }
    }

    // The references of which the question holds, in the order in which they were first held.
    fn picked(&self, alloc: Global, question: Question) -> Result<Vec<ForeignId>, AllocError>
        ensures references { IfOk result (λ references. IsSound self.now → references.items ≡ filter_map (reference_of question) (leases_of self.now.leases)) }
        ensures distinct { IsDistinct is_same (keys_of (leases_of self.now.leases)) }
    {
        let count = self.leases.len();
        let candidates = sorted(self.questioned(alloc, question, count)?);
        picked(alloc, &self.leases, candidates.as_slice(), question)
    }

    // The indexes of the references of which the question may hold: of all, before the last moment.
    fn questioned(
        &self,
        alloc: Global,
        question: Question,
        count: usize,
    ) -> Result<Vec<usize>, AllocError>
        ensures { IfOk result (λ found. IsSound self.now → (at : ℕ) → at < count → IsAnswered (reference_of question) (leases_of self.now.leases) at → Contains found.items at) }
    {
        let last = self.leases.last_moment();
        match question {
            Question::Renewed(moment) if moment >= last => {
                self.plans.halves.up_to(alloc, moment, count)
            }
            Question::Lapses(moment) if moment >= last => {
                self.plans.ends.up_to(alloc, moment, count)
            }
            _ => up_to(alloc, count),
        }
    }

    // Something happened to a reference.
    fn note(&mut self, changed: Changed)
        ensures leases { self.new.leases ≡ self.old.leases }
        ensures numbers { self.new.numbers ≡ self.old.numbers }
        ensures moved { self.new.moved ≡ self.old.moved }
        ensures touched { IsTouched self.new.touched changed.index }
        ensures touched_kept { (at : ℕ) → IsTouched self.old.touched at → IsTouched self.new.touched at }
        ensures later { changed.after.waits ≡ true → IsTouched self.new.later changed.index }
        ensures later_kept { (at : ℕ) → IsTouched self.old.later at → IsTouched self.new.later at }
        ensures planned { (term : Term) → changed.after.lease ≡ Some term → (changed.before ≡ Some term → IsPlannedTerm self.old.plans term changed.index) → IsPlannedTerm self.new.plans term changed.index }
        ensures planned_kept { (term : Term) (other : ℕ) → (other ≡ changed.index → ⊥) → IsPlannedTerm self.old.plans term other → IsPlannedTerm self.new.plans term other }
        ensures halves_kept { (other : Deadline) → (other.index ≡ changed.index → ⊥) → IsPlanned self.old.plans.halves other → IsPlanned self.new.plans.halves other }
    {
        let count = self.leases.len();
        self.touched.add(changed.index, count);
        self.later.add_if(changed.after.waits, changed.index, count);
        self.plans.change(
            changed.index,
            changed.kept,
            changed.before,
            changed.after.lease,
        );
    }

    // The change happened to each reference of the group.
    fn tell(&mut self, group: &Group, change: Change)
        ensures told { (h : List Told) → IsAfter h self.old → IsAfter (told group.now (event_of change) h) self.new }
        ensures numbers { self.new.numbers ≡ self.old.numbers }
        ensures room { room self.new ≡ room self.old }
    {
        for id in group.ids.as_slice() {
            let reference = ForeignId {
                space: group.peer,
                id: *id,
            };
            self.change(&reference, change);
        }
    }

    // The change happened to the reference.
    fn change(&mut self, reference: &ForeignId, change: Change)
        ensures told { (h : List Told) → IsAfter h self.old → IsAfter (On reference.now (event_of change) ∷ h) self.new }
        ensures numbers { self.new.numbers ≡ self.old.numbers }
        ensures room { room self.new ≡ room self.old }
    {
        let kept = self.leases.last_term(reference);
        let before = self.leases.get(reference);
        let mut lease = before;
        lease.change(change);
        match self.leases.put(reference, lease) {
            Some(index) => self.note(Changed {
                index,
                kept,
                before: before.lease,
                after: lease,
            }),
            None => {}
        }
    }
}

// That a call of this kind is made.
fn making(kind: Due, call: u64) -> Change
    ensures { event_of result ≡ making kind call }
{
    match kind {
        Due::Dirty => Change::DirtyMade(call),
        Due::Clean { .. } => Change::CleanMade(call),
    }
}

// A change of the lease at an index: the term that was kept, the one before it, and the lease after it.
#[derive(Clone, Copy)]
struct Changed {
    index: usize,
    kept: Option<Term>,
    before: Option<Term>,
    after: ClientLease,
}
