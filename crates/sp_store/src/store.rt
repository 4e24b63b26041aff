//! The remote objects of a space.

ghost use Rattle.std.specs.Prelude.{ℕ, filter, ◌≡◌, ◌≤◌, ◌<◌, ◌+◌, ◌^◌, ◌&&◌, ◌||◌, not, nat_lt, List, [], ◌∷◌, None, Some, IfOk, IfSome, IfNone, OnOk, OnErr, IfErr, length, is_some, option_map, option_copied, option_and_then, slice_get, if◌then◌else◌};
ghost use Rattle.std.specs.List.{list_any, IsDistinct};
ghost use Rattle.indexmap.specs.IndexMap.{keys, values};
ghost use Rattle.space_ids.specs.declared.ids.ObjId.{ObjId};
ghost use Rattle.sp_rules.specs.Classes.{Setting};
ghost use Rattle.sp_rules.specs.References.{is_id, is_id_in, own_ids, references_of};
ghost use Rattle.sp_rules.specs.State.{Stored, Made, Written, standing};
ghost use Rattle.sp_store.specs.Instances.{after_hold, after_release};
ghost use Rattle.sp_store.specs.Stores.{IsAfter, blanks, fields_after, field_after, holds_of, idle_after, is_full_after, made, made_after, next_after, object_after, room, swept};

use crate::id_set::IdSet;
use crate::instance::Instance;
use indexmap::IndexMap;
use space_ids::{ClassId, ObjId, Uuid, Value};
use std::alloc::{AllocError, Global};
use table_copies::{NumberHashes, copy_map};

/// How many remote objects may stand in a space.
pub const MOST_OBJECTS: usize = 65_536;

/// The remote objects of a space, by id. Ids begin at 1, rise, and never come again.
///
/// A contract names the histories that the value may stand for: it is what each of them leaves.
#[derive(Drop)]
pub struct Store {
    own: Uuid,
    objects: IndexMap<ObjId, Instance, NumberHashes>,
    // The last id that was given, 0 before the first.
    last: ObjId,
}

impl Store {
    /// No object was made in the space of this id.
    pub fn new(alloc: Global, own: Uuid) -> Store
        ensures after { (g : Setting) → g.id ≡ own → IsAfter g [] result }
        ensures made { made result ≡ 0 }
        ensures holds { (id : ObjId) → holds_of result id ≡ 0 }
    {
        Store {
            own,
            objects: IndexMap::with_hasher(alloc, NumberHashes::new()),
            last: ObjId(0),
        }
    }

    /// A store of the same objects, which may have no room for more. It costs a step for each object and
    /// each field.
    pub fn copy(&self) -> Result<Store, AllocError>
        ensures after { IfOk result (λ copy. (g : Setting) (h : List Stored) → IsAfter g h self.now → IsAfter g h copy) }
        ensures made { IfOk result (λ copy. made copy ≡ made self.now) }
        ensures holds { IfOk result (λ copy. (id : ObjId) → holds_of copy id ≡ holds_of self.now id) }
    {
        Ok(Store {
            own: self.own,
            objects: copy_map(&self.objects)?,
            last: self.last,
        })
    }

    /// How many objects stand.
    pub fn len(&self) -> usize
        ensures { (g : Setting) (h : List Stored) → IsAfter g h self.now → result ≡ length (standing h) }
    {
        self.objects.len()
    }

    /// Whether no more objects may stand.
    pub fn is_full(&self) -> bool
        ensures { (g : Setting) (h : List Stored) → IsAfter g h self.now → result ≡ is_full_after h }
    {
        self.len() >= MOST_OBJECTS
    }

    /// How many objects were made.
    pub fn made(&self) -> u64
        ensures made { result ≡ made self.now }
        ensures after { (g : Setting) (h : List Stored) → IsAfter g h self.now → result ≡ made_after h }
    {
        self.last.0
    }

    /// The object at an index, in the order of ids: its id and its class.
    pub fn object(&self, index: usize) -> Option<(ObjId, ClassId)>
        ensures { (g : Setting) (h : List Stored) → IsAfter g h self.now → result ≡ option_map (λ o. (o.id, o.class)) (slice_get (standing h) index) }
    {
        let (id, object) = self.objects.get_index(index)?;
        Some((*id, object.class()))
    }

    /// The class of an object, if it stands.
    pub fn class_of(&self, id: ObjId) -> Option<ClassId>
        ensures { (g : Setting) (h : List Stored) → IsAfter g h self.now → result ≡ option_map (λ o. o.class) (object_after h id) }
    {
        Some(self.objects.get(&id)?.class())
    }

    /// What the fields of an object hold, by slot, if it stands.
    pub fn fields_of(&self, id: ObjId) -> Option<&[Value]>
        ensures { (g : Setting) (h : List Stored) → IsAfter g h self.now → option_map (λ fields. fields.now) result ≡ option_map (fields_after g h) (object_after h id) }
    {
        Some(self.objects.get(&id)?.fields())
    }

    /// What a field holds: what was last put into it, else 0 or null. None if no such object stands or
    /// it has no such field.
    pub fn get_field(&self, id: ObjId, slot: usize) -> Option<&Value>
        ensures { (g : Setting) (h : List Stored) → IsAfter g h self.now → option_copied result ≡ field_after g h id slot }
    {
        self.fields_of(id)?.get(slot)
    }

    /// Makes room for this many more objects. Nothing else changes, at out of memory too.
    pub fn reserve(&mut self, objects: usize) -> Result<(), AllocError>
        ensures ok { OnOk result (objects ≤ room self.new) }
        ensures after { (g : Setting) (h : List Stored) → IsAfter g h self.old → IsAfter g h self.new }
        ensures made { made self.new ≡ made self.old }
        ensures holds { (id : ObjId) → holds_of self.new id ≡ holds_of self.old id }
        ensures room { room self.old ≤ room self.new }
    {
        self.objects.reserve(objects)
    }

    /// Makes an object of this class, under the next id, for which there is [room](Store::reserve). Its
    /// fields are to hold 0 or null, by their kinds. None, and nothing happens, if the store is
    /// [full](Store::is_full). It takes no memory.
    pub fn create_reserved(&mut self, class: ClassId, fields: Vec<Value>) -> Option<ObjId>
        requires room { 0 < room self.old }
        requires number { made self.old < 2 ^ 63 }
        ensures id { (g : Setting) (h : List Stored) → IsAfter g h self.old → result ≡ (if is_full_after h then None else Some (next_after h)) }
        ensures made { IfSome result (λ id. (g : Setting) (h : List Stored) → IsAfter g h self.old → fields.items ≡ blanks g.classes class → IsAfter g (Made id class ∷ h) self.new) }
        ensures full { IfNone result (self.new ≡ self.old) }
        ensures holds { (g : Setting) (h : List Stored) (other : ObjId) → IsAfter g h self.old → holds_of self.new other ≡ holds_of self.old other }
        ensures number { made self.new ≤ made self.old + 1 }
    {
        if self.is_full() {
            return None;
        }
        let id = ObjId(self.last.0 + 1);
        let Ok(_) = self.objects.insert(id, Instance::new(class, fields)) else {
            unreachable!();
        };
        self.last = id;
        Some(id)
    }

    /// Makes an object, as [`create_reserved`](Store::create_reserved) does, with memory for it. At out
    /// of memory nothing happens.
    pub fn create(
        &mut self,
        class: ClassId,
        fields: Vec<Value>,
    ) -> Result<Option<ObjId>, AllocError>
        requires { made self.old < 2 ^ 63 }
        ensures id { IfOk result (λ id. (g : Setting) (h : List Stored) → IsAfter g h self.old → id ≡ (if is_full_after h then None else Some (next_after h))) }
        ensures made { IfOk result (λ made. IfSome made (λ id. (g : Setting) (h : List Stored) → IsAfter g h self.old → fields.items ≡ blanks g.classes class → IsAfter g (Made id class ∷ h) self.new)) }
        ensures full { IfOk result (λ made. IfNone made ((g : Setting) (h : List Stored) → IsAfter g h self.old → IsAfter g h self.new)) }
        ensures err { OnErr result ((g : Setting) (h : List Stored) → IsAfter g h self.old → IsAfter g h self.new) }
        ensures holds { (g : Setting) (h : List Stored) (other : ObjId) → IsAfter g h self.old → holds_of self.new other ≡ holds_of self.old other }
        ensures number { made self.new ≤ made self.old + 1 }
    {
        self.reserve(1)?;
        Ok(self.create_reserved(class, fields))
    }

    /// Puts the value into a field. Returns what the field held; none, and nothing happens, if no such
    /// object stands or it has no such field. It takes no memory.
    pub fn put_field(&mut self, id: ObjId, slot: usize, value: Value) -> Option<Value>
        ensures had { (g : Setting) (h : List Stored) → IsAfter g h self.old → result ≡ field_after g h id slot }
        ensures written { IfSome result (λ _. (g : Setting) (h : List Stored) → IsAfter g h self.old → IsAfter g (Written id slot value ∷ h) self.new) }
        ensures unchanged { IfNone result ((g : Setting) (h : List Stored) → IsAfter g h self.old → IsAfter g h self.new) }
        ensures made { made self.new ≡ made self.old }
        ensures holds { (other : ObjId) → holds_of self.new other ≡ holds_of self.old other }
        ensures room { room self.new ≡ room self.old }
    {
        let index = self.objects.get_index_of(&id)?;
        self.objects[index].put(slot, value)
    }

    /// One more holds the object: no sweep withdraws it until it is released as often. Nothing happens
    /// if it does not stand.
    pub fn hold(&mut self, id: ObjId)
        ensures held { (g : Setting) (h : List Stored) (other : ObjId) → IsAfter g h self.old → holds_of self.new other ≡ (if is_id id other && is_some (object_after h id) then after_hold (holds_of self.old other) else holds_of self.old other) }
        ensures after { (g : Setting) (h : List Stored) → IsAfter g h self.old → IsAfter g h self.new }
        ensures made { made self.new ≡ made self.old }
        ensures room { room self.new ≡ room self.old }
    {
        match self.objects.get_index_of(&id) {
            Some(index) => self.objects[index].hold(),
            None => {}
        }
    }

    /// One less holds the object.
    pub fn release(&mut self, id: ObjId)
        ensures released { (other : ObjId) → holds_of self.new other ≡ (if is_id id other then after_release (holds_of self.old other) else holds_of self.old other) }
        ensures after { (g : Setting) (h : List Stored) → IsAfter g h self.old → IsAfter g h self.new }
        ensures made { made self.new ≡ made self.old }
        ensures room { room self.new ≡ room self.old }
    {
        match self.objects.get_index_of(&id) {
            Some(index) => self.objects[index].release(),
            None => {}
        }
    }

    /// The objects that are not among those that are needed, that nobody holds and no field of a standing
    /// object has, in the order of ids. It looks at each object and each field once.
    pub fn idle(&self, alloc: Global, needed: IdSet) -> Result<Vec<ObjId>, AllocError>
        ensures { IfOk result (λ ids. (g : Setting) (h : List Stored) → IsAfter g h self.now → ids.items ≡ idle_after g h (holds_of self.now) needed) }
    {
        let mut needed = needed;
        self.insert_named(&mut needed)?;
        self.idle_beside(alloc, &needed)
    }

    /// Withdraws the objects of these ids, and looks at each object once. Nothing happens if there is no
    /// id, and at out of memory.
    pub fn withdraw(&mut self, alloc: Global, ids: &[ObjId]) -> Result<(), AllocError>
        ensures ok { OnOk result ((g : Setting) (h : List Stored) → IsAfter g h self.old → IsAfter g (swept ids.now h) self.new) }
        ensures err { OnErr result (self.new ≡ self.old) }
        ensures made { made self.new ≡ made self.old }
        ensures holds { OnOk result ((id : ObjId) → holds_of self.new id ≡ (if is_id_in ids.now id then 0 else holds_of self.old id)) }
        ensures room { room self.old ≤ room self.new }
    {
        if ids.is_empty() {
            return Ok(());
        }
        let gone = IdSet::of(alloc, ids)?;
        self.objects.retain(
            |id: &ObjId, object: &mut Instance| -> bool
                ensures { (result ≡ not (is_id_in gone id.now)) × (object.new ≡ object.old) }
            { !gone.contains(*id) },
        );
        Ok(())
    }

    /// Withdraws the objects that are not among those that are needed, that nobody holds and no field of a
    /// standing object had as it began, and returns their ids, in the order of ids. At out of memory
    /// nothing happens.
    pub fn sweep(&mut self, alloc: Global, needed: IdSet) -> Result<Vec<ObjId>, AllocError>
        ensures idle { IfOk result (λ ids. (g : Setting) (h : List Stored) → IsAfter g h self.old → ids.items ≡ idle_after g h (holds_of self.old) needed) }
        ensures gone { IfOk result (λ ids. (g : Setting) (h : List Stored) → IsAfter g h self.old → IsAfter g (swept ids.items h) self.new) }
        ensures err { OnErr result (self.new ≡ self.old) }
        ensures made { made self.new ≡ made self.old }
        ensures holds { IfOk result (λ ids. (id : ObjId) → holds_of self.new id ≡ (if is_id_in ids.items id then 0 else holds_of self.old id)) }
    {
        let ids = self.idle(alloc, needed)?;
        self.withdraw(alloc, &ids)?;
        Ok(ids)
    }

    // The objects that nobody holds and that are not among these, in the order of ids.
    fn idle_beside(&self, alloc: Global, named: &IdSet) -> Result<Vec<ObjId>, AllocError>
        ensures idle { IfOk result (λ ids. ids.items ≡ filter (λ id. not (nat_lt 0 (holds_of self.now id) || is_id_in named.now id)) (keys self.now.objects)) }
        ensures unique { IsDistinct is_id (keys self.now.objects) }
    {
        let mut ids = Vec::new(alloc);
        for index in 0..self.objects.len() {
            match self.idle_at(index, named) {
                Some(id) => ids.push(id)?,
                None => {}
            }
        }
        Ok(ids)
    }

    // The id of the object at an index, if nobody holds it and no field has it.
    fn idle_at(&self, index: usize, named: &IdSet) -> Option<ObjId>
        ensures { result ≡ option_and_then (λ id. if nat_lt 0 (holds_of self.now id) || is_id_in named.now id then None else Some id) (slice_get (keys self.now.objects) index) }
    {
        let (id, instance) = self.objects.get_index(index)?;
        if is_needed(*id, instance, named) {
            None
        } else {
            Some(*id)
        }
    }

    // Adds the ids of own objects that the fields of the objects have.
    fn insert_named(&self, named: &mut IdSet) -> Result<(), AllocError>
        ensures { OnOk result ((id : ObjId) → is_id_in named.new id ≡ (is_id_in named.old id || list_any (λ x. is_id_in (own_ids self.now.own (references_of x.fields)) id) (values self.now.objects))) }
    {
        for index in 0..self.objects.len() {
            named.insert_own(&self.own, self.objects[index].fields())?;
        }
        Ok(())
    }
}

// Whether an object is held or among those that are needed or that fields have.
fn is_needed(id: ObjId, object: &Instance, named: &IdSet) -> bool
    ensures { result ≡ (nat_lt 0 object.now.holds || is_id_in named.now id) }
{
    object.is_held() || named.contains(id)
}
