//! What a space keeps for others, and what is seen of it.

ghost use Rattle.std.specs.Prelude.{◌≡◌, IfOk, filter, length, option_map, slice_get};
ghost use Rattle.dgc_list.specs.History.{clients_of};
ghost use Rattle.sp_registry.specs.declared.registry.Binding.{Binding};
ghost use Rattle.sp_rules.specs.References.{is_id};
ghost use Rattle.sp_registry.specs.Bindings.{lookup};
ghost use Rattle.sp_rules.specs.Classes.{Setting};
ghost use Rattle.sp_rules.specs.Frames.{object_of};
ghost use Rattle.sp_rules.specs.Holders.{fields_of, is_own_standing, own_object};
ghost use Rattle.sp_rules.specs.State.{State, object_at, opening, standing};
ghost use Rattle.sp_store.specs.Stores.{IsAfter};
ghost use Rattle.sp_owner.specs.Owners.{told};

use dgc_list::RefList;
use sp_registry::Registry;
use sp_store::Store;
use space_ids::{ClassId, ObjId, Ref, Uuid, Value};
use std::alloc::{AllocError, Global};
use table_copies::PeerHashes;

/// What a space keeps for others: its remote objects, the names that are bound to them, and what its
/// clients told of them.
///
/// A contract names the states of the rules that the value may stand for.
#[derive(Drop)]
pub struct Owner {
    pub(crate) alloc: Global,
    pub(crate) id: Uuid,
    pub(crate) store: Store,
    pub(crate) names: Registry,
    pub(crate) entries: RefList,
}

impl Owner {
    ghost use Rattle.sp_owner.specs.Owners.{IsOwner};

    /// The space of this id has no object yet, and no name is bound. Clients are hashed in this way.
    pub fn new(alloc: Global, id: Uuid, hashes: PeerHashes) -> Result<Owner, AllocError>
        ensures { IfOk result (λ owner. (g : Setting) → g.id ≡ id → IsOwner g opening owner) }
    {
        Ok(Owner {
            alloc,
            id,
            store: Store::new(alloc, id),
            names: Registry::new(alloc)?,
            entries: RefList::with_hashes(alloc, hashes),
        })
    }

    /// The same. It costs a step for each object, each name and each entry.
    pub fn copy(&self) -> Result<Owner, AllocError>
        ensures { IfOk result (λ copy. (g : Setting) (s : State) → IsOwner g s self.now → IsOwner g s copy) }
    {
        Ok(Owner {
            alloc: self.alloc,
            id: self.id,
            store: self.store.copy()?,
            names: self.names.copy()?,
            entries: self.entries.copy()?,
        })
    }

    /// The remote objects.
    pub fn store(&self) -> &Store
        ensures { (g : Setting) (s : State) → IsOwner g s self.now → IsAfter g s.store result.now }
    {
        &self.store
    }

    /// The standing object at an index, in the order of ids: its id and its class.
    pub fn object(&self, index: usize) -> Option<(ObjId, ClassId)>
        ensures { (g : Setting) (s : State) → IsOwner g s self.now → result ≡ option_map told (slice_get (standing s.store) index) }
    {
        self.store.object(index)
    }

    /// The class of an object, if it stands.
    pub fn class_of(&self, id: ObjId) -> Option<ClassId>
        ensures { (g : Setting) (s : State) → IsOwner g s self.now → result ≡ option_map (λ o. o.class) (object_at s id) }
    {
        self.store.class_of(id)
    }

    /// What the fields of an object hold, by slot, if it stands.
    pub fn fields_of(&self, id: ObjId) -> Option<&[Value]>
        ensures { (g : Setting) (s : State) → IsOwner g s self.now → option_map (λ fields. fields.now) result ≡ option_map (fields_of g s) (object_at s id) }
    {
        self.store.fields_of(id)
    }

    /// The object to which a name is bound, if it stands, and its class.
    pub fn find(&self, name: &[u8]) -> Option<(ObjId, ClassId)>
        ensures { (g : Setting) (s : State) → IsOwner g s self.now → result ≡ option_map told (object_of s (lookup s.owner.names name.now)) }
    {
        let id = self.names.lookup(name)?;
        Some((id, self.store.class_of(id)?))
    }

    /// Whether the reference is of a standing object of this space, of its class.
    pub fn is_own_standing(&self, reference: &Ref) -> bool
        ensures { (g : Setting) (s : State) → IsOwner g s self.now → result ≡ is_own_standing g s reference.now }
    {
        reference.space == self.id
            && match self.store.class_of(reference.id) {
                Some(class) => class == reference.class,
                None => false,
            }
    }

    /// The object of this space that the value names, if it stands and is of that class.
    pub fn own_object(&self, value: &Value) -> Option<ObjId>
        ensures { (g : Setting) (s : State) → IsOwner g s self.now → result ≡ own_object g s value.now }
    {
        match value {
            Value::Ref(reference) if self.is_own_standing(reference) => Some(reference.id),
            _ => None,
        }
    }

    /// How many objects were made.
    pub fn objects_made(&self) -> u64
        ensures { (g : Setting) (s : State) → IsOwner g s self.now → result ≡ s.objects_made }
    {
        self.store.made()
    }

    /// How many names are bound to an object.
    pub fn names_of(&self, id: ObjId) -> usize
        ensures { (g : Setting) (s : State) → IsOwner g s self.now → result ≡ length (filter (λ (b : Binding). is_id b.object id) s.owner.names) }
    {
        self.names.count_of(id)
    }

    /// How many clients have an entry for an object.
    pub fn entries_of(&self, id: ObjId) -> usize
        ensures { (g : Setting) (s : State) → IsOwner g s self.now → result ≡ length (clients_of s.owner.entries id) }
    {
        self.entries.entries_of(id)
    }
}
