//! Objects that tasks make, and their fields.

ghost use Rattle.std.specs.Prelude.{◌≡◌, ◌<◌, ◌^◌, ◌∷◌, IfOk, IfSome, OnOk, None, Some, if◌then◌else◌, option_copied, option_map};
ghost use Rattle.sp_rules.specs.Behaviours.{Create, Put};
ghost use Rattle.sp_rules.specs.Classes.{Classes, Setting, blank};
ghost use Rattle.sp_rules.specs.LivingTasks.{after_op, is_full, next_object};
ghost use Rattle.sp_rules.specs.State.{State, Written};
ghost use Rattle.sp_requests.specs.ClassSets.{kind_of};
ghost use Rattle.sp_store.specs.Stores.{blanks, field_after};

use crate::Owner;
use sp_requests::{ClassSet, FieldKind};
use space_ids::{ClassId, ObjId, Value};
use std::alloc::{AllocError, Global};

impl Owner {
    ghost use Rattle.sp_owner.specs.Owners.{IsOwner};

    /// Whether no more objects may stand.
    pub fn is_full(&self) -> bool
        ensures { (g : Setting) (s : State) → IsOwner g s self.now → result ≡ is_full s }
    {
        self.store.is_full()
    }

    /// Makes an object of a class under the next id, with fields that hold 0 or null. None, and nothing
    /// happens, if no more objects may stand, or no id is left, as after 2^63 objects.
    pub fn create<C: ClassSet>(
        &mut self,
        classes: &C,
        class: ClassId,
    ) -> Result<Option<ObjId>, AllocError>
        ensures id { IfOk result (λ id. (g : Setting) (s : State) → IsOwner g s self.old → s.objects_made < 2 ^ 63 → id ≡ (if is_full s then None else Some (next_object s))) }
        ensures made { OnOk result ((g : Setting) (s : State) → IsOwner g s self.old → C.tells classes.now g.classes → s.objects_made < 2 ^ 63 → IsOwner g (after_op g (Create class) s) self.new) }
    {
        let fields = blanks_of(self.alloc, classes, class)?;
        if self.store.made() >= 1 << 63 {
            return Ok(None);
        }
        self.store.create(class, fields)
    }

    /// What a field holds: none if no such object stands or it has no such field.
    pub fn get_field(&self, id: ObjId, slot: usize) -> Option<&Value>
        ensures { (g : Setting) (s : State) → IsOwner g s self.now → option_copied result ≡ field_after g s.store id slot }
    {
        self.store.get_field(id, slot)
    }

    /// Puts a value into a field. Returns what the field held; none, and nothing happens, if no such object
    /// stands or it has no such field. It takes no memory.
    pub fn put_field(&mut self, id: ObjId, slot: usize, value: Value) -> Option<Value>
        ensures had { (g : Setting) (s : State) → IsOwner g s self.old → result ≡ field_after g s.store id slot }
        ensures written { IfSome result (λ _. (g : Setting) (s : State) → IsOwner g s self.old → IsOwner g (record s { store = Written id slot value ∷ s.store }) self.new) }
    {
        self.store.put_field(id, slot, value)
    }
}

// What the fields of a new object of the class hold: 0 or null.
fn blanks_of<C: ClassSet>(
    alloc: Global,
    classes: &C,
    class: ClassId,
) -> Result<Vec<Value>, AllocError>
    ensures { IfOk result (λ values. (c : Classes) → C.tells classes.now c → values.items ≡ blanks c class) }
{
    let mut values = Vec::new(alloc);
    for slot in 0..classes.field_count(class) {
        values.push(blank_of(classes.field_kind(class, slot)))?;
    }
    Ok(values)
}

fn blank_of(kind: Option<FieldKind>) -> Value
    ensures { result ≡ blank (option_map kind_of kind) }
{
    match kind {
        Some(FieldKind::Int) => Value::Int(0),
        Some(FieldKind::Reference) | None => Value::Null,
    }
}
