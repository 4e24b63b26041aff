//! The objects of which clients are remembered.

ghost use Rattle.std.specs.Prelude.{◌≡◌, false, [], IsTrue, IfOk, OnOk, MatchOption, is_some, if◌then◌else◌, ◌||◌};
ghost use Rattle.std.specs.Map.{lookup};
ghost use Rattle.space_ids.specs.declared.ids.ObjId.{ObjId};
ghost use Rattle.dgc_list.specs.Remembered.{is_blank};
ghost use Rattle.dgc_list.specs.Clients.{is_known, IsSame, Sets};
ghost use Rattle.dgc_list.specs.Objects.{is_same, clients_at, remembered_at};

use crate::Remembered;
use crate::clients::Clients;
use indexmap::IndexMap;
use space_ids::ObjId;
use std::alloc::{AllocError, Global};
use std::marker::Model;
use table_copies::{NumberHashes, PeerHashes, copy_map};
use uuid::Uuid;

/// The objects of which clients are remembered, with those clients.
#[derive(Drop)]
pub(crate) struct Objects {
    lists: IndexMap<ObjId, Clients, NumberHashes>,
    // How the clients of an object that has many are hashed.
    hashes: PeerHashes,
}

impl Model for Objects {
    ghost use Rattle.std.specs.Prelude.{List, ℕ};
    ghost use Rattle.space_ids.specs.declared.ids.ObjId.{ObjId};
    ghost use Rattle.dgc_list.specs.declared.remembered.Remembered.{Remembered};

    ghost Value = { List (ObjId × List (List ℕ × Remembered)) };

    ghost view = { λ objects. objects.lists.entries };
}

impl Objects {
    pub(crate) fn new(alloc: Global, hashes: PeerHashes) -> Objects
        ensures { result ≡ [] }
    {
        Objects {
            lists: IndexMap::with_hasher(alloc, NumberHashes::new()),
            hashes,
        }
    }

    // The same objects.
    pub(crate) fn copy(&self) -> Result<Objects, AllocError>
        ensures { IfOk result (λ copy. copy ≡ self.now) }
    {
        Ok(Objects {
            lists: copy_map(&self.lists)?,
            hashes: self.hashes,
        })
    }

    // The clients of an object. None are remembered of an object that is not there.
    pub(crate) fn clients(&self, object: ObjId) -> Option<&Clients>
        ensures { MatchOption result (clients_at self.now object ≡ [])
            (λ clients. clients.now ≡ clients_at self.now object) }
    {
        self.lists.get(&object)
    }

    // What is remembered of a client and an object.
    pub(crate) fn get(&self, object: ObjId, client: &Uuid) -> Remembered
        ensures { result ≡ remembered_at self.now object client.now }
    {
        match self.clients(object) {
            Some(clients) => clients.get(client),
            None => Remembered::BLANK,
        }
    }

    // Makes room for a client of an object. Nothing else is remembered of any.
    pub(crate) fn add(&mut self, object: ObjId, client: &Uuid) -> Result<(), AllocError>
        ensures known { OnOk result (IsTrue (is_known (clients_at self.new object) client.now)) }
        ensures same { (other : ObjId) → IsSame (clients_at self.old other)
            (clients_at self.new other) }
    {
        self.add_object(object)?;
        let alloc = *self.lists.allocator();
        match self.lists.get_mut(&object) {
            Some(clients) => clients.add(client, alloc, self.hashes),
            None => unreachable!(),
        }
    }

    // Makes room for an object.
    fn add_object(&mut self, object: ObjId) -> Result<(), AllocError>
        ensures there { OnOk result (IsTrue (is_some (lookup (is_same object) self.new))) }
        ensures same { (other : ObjId) → clients_at self.new other ≡ clients_at self.old other }
    {
        if !self.lists.contains_key(&object) {
            let clients = Clients::new(*self.lists.allocator());
            drop(self.lists.insert(object, clients)?);
        }
        Ok(())
    }

    // Sets what is remembered of a client of an object, if the client has room or that is nothing.
    pub(crate) fn set(&mut self, object: ObjId, client: &Uuid, remembered: Remembered)
        ensures here { IsTrue (is_known (clients_at self.old object) client.now
            || is_blank remembered) → Sets client.now remembered (clients_at self.old object)
            (clients_at self.new object) }
        ensures gone { IsTrue (is_blank remembered)
            → is_known (clients_at self.new object) client.now ≡ false }
        ensures others { (other : ObjId) → is_same object other ≡ false
            → clients_at self.new other ≡ clients_at self.old other }
    {
        let Some(clients) = self.lists.get_mut(&object) else {
            return;
        };
        clients.set(client, remembered);
        if clients.is_empty() {
            self.forget(object);
        }
    }

    // Forgets an object.
    pub(crate) fn forget(&mut self, object: ObjId)
        ensures { (other : ObjId) → clients_at self.new other
            ≡ (if is_same object other then [] else clients_at self.old other) }
    {
        let _ = self.lists.swap_remove(&object);
    }
}
