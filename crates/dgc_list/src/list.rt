//! The reference lists of a space.

ghost use Rattle.std.specs.Prelude.{◌≡◌, ◌<◌, ◌^◌, List, [], ◌∷◌, false, IsTrue, IsOk, IfOk, OnOk, OnErr, length};
ghost use Rattle.space_ids.specs.declared.ids.ObjId.{ObjId};

use crate::calls::{add_expiries, expire, make_room, release, tell_clean, tell_dirty};
use crate::expiries::Expiries;
use crate::objects::Objects;
use space_ids::ObjId;
use std::alloc::{AllocError, Global};
use table_copies::PeerHashes;
use uuid::Uuid;

/// The longest period that a lease is granted for, in milliseconds (ten minutes, as is the default of
/// Java RMI).
pub const LONGEST_LEASE: u64 = 600_000;

/// The reference lists of a space: what it remembers of the clients of each of its objects.
///
/// A contract names the histories that the value may stand for: it is what each of them leaves.
#[derive(Drop)]
pub struct RefList {
    objects: Objects,
    expiries: Expiries,
    moment: u64,
    ghost in_range: { moment < 2 ^ 63 },
}

impl RefList {
    ghost use Rattle.dgc_list.specs.Remembered.{is_blank};
    ghost use Rattle.dgc_list.specs.Objects.{is_named};
    ghost use Rattle.dgc_list.specs.History.{Call, granted, remembered_of, clients_of, HasRoomForClean, HasRoomForDirty, HasNoRoom, IsAfter};
    ghost use Rattle.dgc_list.specs.History.Call.{Dirty, Clean, Moment, Forget};

    /// Returns reference lists after no call, at moment 0, which hash clients in the same way in each run.
    pub fn new(alloc: Global) -> RefList
        ensures { IsAfter [] result }
    {
        RefList::with_hashes(alloc, PeerHashes::Fixed)
    }

    /// Returns reference lists after no call, at moment 0, which hash clients in this way.
    pub fn with_hashes(alloc: Global, hashes: PeerHashes) -> RefList
        ensures { IsAfter [] result }
    {
        RefList {
            objects: Objects::new(alloc, hashes),
            expiries: Expiries::new(alloc),
            moment: 0,
        }
    }

    /// Returns reference lists of the same history. Room that was made may be lost. It costs a step
    /// a client of an object.
    pub fn copy(&self) -> Result<RefList, AllocError>
        ensures copied { IfOk result (λ copy. (h : List Call) → IsAfter h self.now → IsAfter h copy) }
    {
        Ok(RefList {
            objects: self.objects.copy()?,
            expiries: self.expiries.clone()?,
            moment: self.moment,
        })
    }

    /// Makes room for what is remembered of a client at these objects, so that a strong
    /// [`clean_reserved`](RefList::clean_reserved) takes no memory. Nothing else changes, even if
    /// it is out of memory.
    pub fn reserve_clean(&mut self, client: &Uuid, objects: &[ObjId]) -> Result<(), AllocError>
        ensures room { OnOk result (HasRoomForClean client.now objects.now self.new) }
        ensures same { (h : List Call) → IsAfter h self.old → IsAfter h self.new }
    {
        match make_room(&mut self.objects, client, objects) {
            Ok(()) => Ok(()),
            Err(fault) => {
                self.release(client, objects);
                Err(fault)
            }
        }
    }

    /// Takes back the room that was made for a client at those of these objects at which nothing is
    /// remembered of it: an event that made room and was refused changes nothing.
    pub fn release(&mut self, client: &Uuid, objects: &[ObjId])
        ensures same { (h : List Call) → IsAfter h self.old → IsAfter h self.new }
        ensures taken { (h : List Call) → IsAfter h self.old → (object : ObjId)
            → IsTrue (is_named object objects.now)
            → IsTrue (is_blank (remembered_of h client.now object))
            → HasNoRoom client.now object self.new }
    {
        release(&mut self.objects, client, objects);
    }

    /// Makes room for a dirty call of this number and period that comes now, so that
    /// [`dirty_reserved`](RefList::dirty_reserved) takes no memory. Nothing else changes, even if
    /// it is out of memory.
    pub fn reserve_dirty(
        &mut self,
        client: &Uuid,
        objects: &[ObjId],
        number: u64,
        period: u64,
    ) -> Result<(), AllocError>
        ensures room { OnOk result (HasRoomForDirty client.now objects.now number period self.new) }
        ensures same { (h : List Call) → IsAfter h self.old → IsAfter h self.new }
    {
        self.reserve_clean(client, objects)?;
        let expires = self.moment + period.min(LONGEST_LEASE);
        let added = add_expiries(
            &mut self.expiries,
            &self.objects,
            client,
            objects,
            number,
            expires,
        );
        match added {
            Ok(()) => Ok(()),
            Err(fault) => {
                self.release(client, objects);
                Err(fault)
            }
        }
    }

    /// Makes a dirty call as [`dirty`](RefList::dirty) does, and returns the granted period. The
    /// caller owes that there is [room](RefList::reserve_dirty). It takes no memory.
    pub fn dirty_reserved(
        &mut self,
        client: &Uuid,
        objects: &[ObjId],
        number: u64,
        period: u64,
    ) -> u64
        requires { HasRoomForDirty client.now objects.now number period self.old }
        ensures granted { result ≡ granted period }
        ensures told { (h : List Call) → IsAfter h self.old
            → IsAfter (Dirty client.now objects.now number period ∷ h) self.new }
    {
        let granted = period.min(LONGEST_LEASE);
        let expires = self.moment + granted;
        tell_dirty(
            &mut self.objects,
            &mut self.expiries,
            client,
            objects,
            number,
            expires,
        );
        granted
    }

    /// Makes a dirty call of a client on standing objects, and returns the granted period: `period`
    /// or the longest lease, whichever is less. For each object it sets the client's entry, granted
    /// now, and remembers the call's number. If the call is late or out of memory, nothing changes.
    pub fn dirty(
        &mut self,
        client: &Uuid,
        objects: &[ObjId],
        number: u64,
        period: u64,
    ) -> Result<u64, AllocError>
        ensures granted { IfOk result (λ period_granted. period_granted ≡ granted period) }
        ensures ok { OnOk result ((h : List Call) → IsAfter h self.old
            → IsAfter (Dirty client.now objects.now number period ∷ h) self.new) }
        ensures err { OnErr result ((h : List Call) → IsAfter h self.old → IsAfter h self.new) }
    {
        self.reserve_dirty(client, objects, number, period)?;
        Ok(self.dirty_reserved(client, objects, number, period))
    }

    /// Makes a clean call as [`clean`](RefList::clean) does. The caller owes that there is
    /// [room](RefList::reserve_clean) if the call is strong. It takes no memory.
    pub fn clean_reserved(&mut self, client: &Uuid, objects: &[ObjId], number: u64, strong: bool)
        requires { IsTrue strong → HasRoomForClean client.now objects.now self.old }
        ensures { (h : List Call) → IsAfter h self.old
            → IsAfter (Clean client.now objects.now number strong ∷ h) self.new }
    {
        tell_clean(
            &mut self.objects,
            &mut self.expiries,
            client,
            objects,
            number,
            strong,
        );
    }

    /// Makes a clean call of a client on standing objects: for each of them it removes the client's
    /// entry. A strong call's number is remembered; one that is not strong forgets the number,
    /// unless a strong one was kept before. If the call is late or out of memory, nothing changes.
    /// Only a strong call needs memory.
    pub fn clean(
        &mut self,
        client: &Uuid,
        objects: &[ObjId],
        number: u64,
        strong: bool,
    ) -> Result<(), AllocError>
        ensures ok { OnOk result ((h : List Call) → IsAfter h self.old
            → IsAfter (Clean client.now objects.now number strong ∷ h) self.new) }
        ensures weak { strong ≡ false → IsOk result }
        ensures err { OnErr result ((h : List Call) → IsAfter h self.old → IsAfter h self.new) }
    {
        if strong {
            self.reserve_clean(client, objects)?;
        }
        self.clean_reserved(client, objects, number, strong);
        Ok(())
    }

    /// Sets the moment that is now, in milliseconds. Entries whose period is over are gone, as
    /// after a clean call that is not strong. A moment below the last changes nothing.
    pub fn moment(&mut self, moment: u64)
        requires { moment < 2 ^ 63 }
        ensures { (h : List Call) → IsAfter h self.old → IsAfter (Moment moment ∷ h) self.new }
    {
        if moment < self.moment {
            return;
        }
        self.moment = moment;
        expire(&mut self.objects, &mut self.expiries, moment);
    }

    /// Forgets all that is remembered of an object, which was withdrawn.
    pub fn forget(&mut self, object: ObjId)
        ensures { (h : List Call) → IsAfter h self.old → IsAfter (Forget object ∷ h) self.new }
    {
        self.objects.forget(object);
    }

    /// Returns the moment from which the client's entry for the object is gone, if one stands.
    pub fn entry(&self, client: &Uuid, object: ObjId) -> Option<u64>
        ensures { (h : List Call) → IsAfter h self.now
            → result ≡ (remembered_of h client.now object).expires }
    {
        self.objects.get(object, client).expires
    }

    /// Returns the clients with an entry for the object, in the order in which the entries that
    /// stand were first set (an order of our own).
    #[tactic(auto, using(crate::proofs::ClientsLemmas::leased_filter))]
    pub fn clients_of(&self, alloc: Global, object: ObjId) -> Result<Vec<Uuid>, AllocError>
        ensures { IfOk result (λ clients. (h : List Call) → IsAfter h self.now
            → clients.items ≡ clients_of h object) }
    {
        match self.objects.clients(object) {
            Some(clients) => clients.leased(alloc),
            None => Ok(Vec::new(alloc)),
        }
    }

    /// Returns how many clients have an entry for the object.
    pub fn entries_of(&self, object: ObjId) -> usize
        ensures { (h : List Call) → IsAfter h self.now → result ≡ length (clients_of h object) }
    {
        match self.objects.clients(object) {
            Some(clients) => clients.count(),
            None => 0,
        }
    }
}
