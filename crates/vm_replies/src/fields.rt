//! The types of the fields of objects, by slot.

ghost use Rattle.std.specs.Prelude.{◌≡◌, ◌+◌, ◌-◌, ◌≤◌, IfErr, IfOk, IfSome, Some, length, slice_get};
ghost use Rattle.cls_link.specs.Fields.{is_instance};
ghost use Rattle.vm_laws.specs.Files.{own_types, types_of, types_up};

use cls_link::{ClassId, ClassSet, Field, Flags};
use ver_frames::{VType, field_vtype};

/// The type of the field in a slot of an object of a class; `None` if it has no such field.
pub(crate) fn field_type(set: &ClassSet, class: ClassId, slot: usize) -> Option<VType>
    ensures { IfSome result (λ type. slice_get (types_of set.now class) slot ≡ Some type) }
{
    match type_up(set, set.len() + 1, class, slot) {
        Ok(kind) => Some(kind),
        Err(_) => None,
    }
}

// The type of the field in a slot of an object of a class and of its superclasses, at most n classes
// up; or how many fields there are, which all come before the slot.
fn type_up(set: &ClassSet, most: usize, class: ClassId, slot: usize) -> Result<VType, usize>
    ensures found { IfOk result (λ type. slice_get (types_up most set.now class) slot ≡ Some type) }
    ensures count { IfErr result (λ count. count ≡ length (types_up most set.now class)) }
    ensures past { IfErr result (λ count. count ≤ slot) }
{
    if most == 0 {
        return Err(0);
    }
    if usize::from(class.0) >= set.len() {
        return Err(0);
    }
    let entry = set.class(class);
    let fields = entry.file.fields.as_slice();
    match entry.superclass {
        Some(superclass) => match type_up(set, most - 1, superclass, slot) {
            Ok(kind) => Ok(kind),
            Err(above) => type_after(set, fields, slot, above),
        },
        None => type_after(set, fields, slot, 0),
    }
}

// The type of the field in a slot, if `above` fields come before those of a class; or how many fields
// there are with these.
fn type_after(set: &ClassSet, fields: &[Field], slot: usize, above: usize) -> Result<VType, usize>
    requires { above ≤ slot }
    ensures found { IfOk result (λ type. slice_get (own_types set.now fields.now) (slot - above) ≡ Some type) }
    ensures count { IfErr result (λ count. count ≡ above + length (own_types set.now fields.now)) }
    ensures past { IfErr result (λ count. count ≤ slot) }
{
    match own_type(set, fields, slot - above) {
        Ok(kind) => Ok(kind),
        Err(own) => Err(above + own),
    }
}

// The type of an instance field by its index among those of a class; or how many there are.
fn own_type(set: &ClassSet, fields: &[Field], index: usize) -> Result<VType, usize>
    ensures found { IfOk result (λ type. slice_get (own_types set.now fields.now) index ≡ Some type) }
    ensures count { IfErr result (λ count. count ≡ length (own_types set.now fields.now)) }
    ensures past { IfErr result (λ count. count ≤ index) }
{
    let mut count = 0;
    for field in fields {
        if is_of_instances(field) {
            if count == index {
                return Ok(field_vtype(set, &field.kind));
            }
            count += 1;
        }
    }
    Err(count)
}

fn is_of_instances(field: &Field) -> bool
    ensures { result ≡ is_instance field.now }
{
    !field.flags.has(Flags::STATIC)
}
