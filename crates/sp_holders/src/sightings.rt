//! Where references were seen to be held.

ghost use Rattle.std.specs.Prelude.{◌≡◌, true};
ghost use Rattle.sp_rules.specs.Classes.{Setting};
ghost use Rattle.sp_rules.specs.Holders.{has_holder};
ghost use Rattle.sp_rules.specs.State.{State};
ghost use Rattle.sp_state.specs.Spaces.{IsSpace};

use crate::CallKey;
use crate::finding::find_holder;
use crate::holder::{Holder, is_held_by};
use indexmap::IndexMap;
use sp_outputs::Output;
use sp_state::SpaceState;
use sp_tasks::Outcome;
use space_ids::{ClassId, ForeignId, Ref, Value};
use std::alloc::Global;
use table_copies::PeerHashes;

/// Where a space saw references held, and the calls whose results may wait for their Ack and be references.
///
/// It is a memory of what was, and promises nothing: a holder is looked at before it counts
/// ([has_holder](crate::has_holder)), and what finds no room is not kept. It has at most twice as many rows
/// as still stood when it was last looked through for room.
#[derive(Drop)]
pub struct Sightings {
    calls: Vec<CallKey>,
    rows: IndexMap<ForeignId, Sighting, PeerHashes>,
}

// Who was seen to hold a reference, under this class.
#[derive(Clone, Copy)]
struct Sighting {
    class: ClassId,
    holder: Holder,
}

impl Sightings {
    /// Nothing was seen. References are hashed in this way.
    pub fn new(alloc: Global, hashes: PeerHashes) -> Sightings {
        Sightings {
            calls: Vec::new(alloc),
            rows: IndexMap::with_hasher(alloc, hashes),
        }
    }

    /// Nothing was seen, for a copy of the space. References are hashed as here.
    pub fn emptied(&self) -> Sightings {
        Sightings::new(*self.rows.allocator(), *self.rows.hasher())
    }

    /// Keeps a call whose result may wait for its Ack and be a reference. Those whose results went are
    /// forgotten for room.
    pub fn see_call(&mut self, space: &SpaceState, call: CallKey) {
        if self.calls.len() == self.calls.capacity() {
            let results = space.living().call_results();
            self.calls
                .retain(|call| results.contains(call.conn, call.number));
            let more = self.calls.len().saturating_add(1);
            let _ = self.calls.reserve(more);
        }
        let _ = self.calls.push(call);
    }

    /// Keeps each root and lookup that ended with a reference, as the outputs of an event say, as its holder.
    pub fn see_results(&mut self, space: &SpaceState, outputs: &[Output]) {
        for output in outputs {
            if let Output::Ended(task, Outcome::Returned(Some(Value::Ref(reference)))) = output {
                self.see(space, reference, Holder::Result(*task));
            }
        }
    }

    /// Looks for a holder of each leased reference among the values of which no sighting stands, and keeps it.
    pub fn look_for(&mut self, space: &SpaceState, values: &[Value]) {
        for value in values {
            if let Value::Ref(reference) = value {
                self.look_for_one(space, reference);
            }
        }
    }

    // Whether the reference is still held where it was seen.
    pub(crate) fn is_held(&self, space: &SpaceState, reference: &Ref) -> bool
        ensures { result ≡ true → (g : Setting) (s : State) → IsSpace g s space.now → has_holder g s reference.now ≡ true }
    {
        match self.rows.get(&id_of(reference)) {
            Some(seen) => is_held_by(space, &seen.holder, reference),
            None => false,
        }
    }

    // Looks for a holder of a leased reference, unless it is held where it was seen, and keeps it.
    fn look_for_one(&mut self, space: &SpaceState, reference: &Ref) {
        let lease = space.living().transport().lease(&id_of(reference)).lease;
        if lease.is_none() || self.is_held(space, reference) {
            return;
        }
        if let Some(holder) = find_holder(space, self.calls.as_slice(), reference) {
            self.see(space, reference, holder);
        }
    }

    // Keeps the holder of a reference, if it holds it and there is room, unless one that was seen before holds
    // it still: what is held long stays so. Those that do not hold theirs any more are forgotten for room.
    fn see(&mut self, space: &SpaceState, reference: &Ref, holder: Holder) {
        if self.is_held(space, reference) || !is_held_by(space, &holder, reference) {
            return;
        }
        if self.rows.len() == self.rows.capacity() {
            self.forget(space);
        }
        let class = reference.class;
        let _ = self
            .rows
            .insert(id_of(reference), Sighting { class, holder });
    }

    // Forgets the holders that do not hold their references any more, and makes room for as many as are left.
    fn forget(&mut self, space: &SpaceState) {
        self.rows.retain(|id, seen| is_held_by(space, &seen.holder, &seen.reference(id)));
        let more = self.rows.len().saturating_add(1);
        let _ = self.rows.reserve(more);
    }
}

impl Sighting {
    // The reference of this id that was seen.
    fn reference(&self, id: &ForeignId) -> Ref {
        Ref {
            space: id.space,
            id: id.id,
            class: self.class,
        }
    }
}

fn id_of(reference: &Ref) -> ForeignId {
    ForeignId {
        space: reference.space,
        id: reference.id,
    }
}
