//! Sets of ids.

ghost use Rattle.std.specs.Prelude.{◌≡◌, ◌||◌, [], ◌∷◌, IfOk, OnOk};
ghost use Rattle.space_ids.specs.declared.ids.ObjId.{ObjId};
ghost use Rattle.sp_rules.specs.References.{is_id_in, own_ids, reference_of, references_of};

use indexmap::IndexSet;
use space_ids::{ObjId, Ref, Uuid, Value};
use std::alloc::{AllocError, Global};
use std::marker::Model;

/// A set of ids of objects. A contract sees a list of them.
#[derive(Drop)]
pub struct IdSet {
    ids: IndexSet<ObjId>,
}

impl Model for IdSet {
    ghost use Rattle.std.specs.Prelude.{List};
    ghost use Rattle.space_ids.specs.declared.ids.ObjId.{ObjId};

    ghost Value = { List ObjId };

    ghost view = { λ set. set.ids.keys };
}

impl IdSet {
    /// The set of no id.
    pub fn new(alloc: Global) -> IdSet
        ensures { result ≡ [] }
    {
        IdSet {
            ids: IndexSet::new(alloc),
        }
    }

    // The set of these ids.
    pub(crate) fn of(alloc: Global, ids: &[ObjId]) -> Result<IdSet, AllocError>
        ensures { IfOk result (λ set. (id : ObjId) → is_id_in set id ≡ is_id_in ids.now id) }
    {
        let mut set = IdSet::new(alloc);
        for id in ids {
            set.insert(*id)?;
        }
        Ok(set)
    }

    /// Whether the id is in the set.
    pub fn contains(&self, id: ObjId) -> bool
        ensures { result ≡ is_id_in self.now id }
    {
        self.ids.contains(&id)
    }

    /// Adds an id.
    pub fn insert(&mut self, id: ObjId) -> Result<(), AllocError>
        ensures { OnOk result ((other : ObjId) → is_id_in self.new other ≡ (is_id_in self.old other || is_id_in (id ∷ []) other)) }
    {
        self.ids.insert(id)?;
        Ok(())
    }

    // Adds the ids of the space's own objects that the values name.
    pub(crate) fn insert_own(&mut self, own: &Uuid, values: &[Value]) -> Result<(), AllocError>
        ensures { OnOk result ((id : ObjId) → is_id_in self.new id ≡ (is_id_in self.old id || is_id_in (own_ids own.now (references_of values.now)) id)) }
    {
        for value in values {
            self.insert_value(own, value)?;
        }
        Ok(())
    }

    /// Adds the id of the space's own object that the value names, if it names one.
    pub fn insert_value(&mut self, own: &Uuid, value: &Value) -> Result<(), AllocError>
        ensures { OnOk result ((id : ObjId) → is_id_in self.new id ≡ (is_id_in self.old id || is_id_in (own_ids own.now (reference_of value.now)) id)) }
    {
        match value {
            Value::Ref(reference) => self.insert_reference(own, reference),
            _ => Ok(()),
        }
    }

    /// Adds the ids of the space's own objects that the references name.
    pub fn insert_references(&mut self, own: &Uuid, references: &[Ref]) -> Result<(), AllocError>
        ensures { OnOk result ((id : ObjId) → is_id_in self.new id ≡ (is_id_in self.old id || is_id_in (own_ids own.now references.now) id)) }
    {
        for reference in references {
            self.insert_reference(own, reference)?;
        }
        Ok(())
    }

    // Adds the id of the object that the reference names, if it is the space's own.
    fn insert_reference(&mut self, own: &Uuid, reference: &Ref) -> Result<(), AllocError>
        ensures { OnOk result ((id : ObjId) → is_id_in self.new id ≡ (is_id_in self.old id || is_id_in (own_ids own.now (reference.now ∷ [])) id)) }
    {
        if reference.space == *own {
            self.insert(reference.id)
        } else {
            Ok(())
        }
    }
}
