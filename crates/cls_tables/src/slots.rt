//! The slots of the fields that classes declare.

ghost use Rattle.std.specs.Prelude.{◌≡◌, ◌+◌, ◌<◌, ◌≤◌, ◌^◌, IfOk, length, count_by};
ghost use Rattle.cls_link.specs.Fields.{is_instance};
ghost use Rattle.cls_tables.specs.Slots.{slots_from, HaveSlots, HasSlots};

use cls_link::{ClassId, ClassSet, Field, FieldSlot, Flags, Linked, Row};
use std::alloc::{AllocError, Global};

pub(crate) fn is_of_instances(field: &Field) -> bool
    ensures { result ≡ is_instance field.now }
{
    !field.flags.has(Flags::STATIC)
}

// How many of the fields are instance fields.
pub(crate) fn count_instance_fields(fields: &[Field]) -> usize
    ensures { result ≡ count_by is_instance fields.now }
{
    let mut count = 0;
    for field in fields {
        if is_of_instances(field) {
            count += 1;
        }
    }
    count
}

// The slots of the fields; this is the first.
fn slots_from(
    alloc: Global,
    fields: &[Field],
    first: u32,
) -> Result<Vec<Option<FieldSlot>>, AllocError>
    requires few { first + count_by is_instance fields.now < 2 ^ 32 }
    ensures { IfOk result (λ slots. slots.items ≡ slots_from first fields.now) }
{
    let mut slots = Vec::with_capacity(alloc, fields.len())?;
    let mut next = first;
    for field in fields {
        if is_of_instances(field) {
            slots.push(Some(FieldSlot(next)))?;
            next += 1;
        } else {
            slots.push(None)?;
        }
    }
    Ok(slots)
}

// The slots of the fields that a class declares.
fn slots_of(
    alloc: Global,
    linked: &Linked,
    class: ClassId,
) -> Result<Vec<Option<FieldSlot>>, AllocError>
    requires in_set { class.0 < length linked.now.classes }
    ensures { IfOk result (λ slots. HasSlots linked.now.classes class slots.items) }
{
    let fields = linked.set().class(class).file.fields.as_slice();
    let own = count_instance_fields(fields) as u32;
    let slots = slots_from(alloc, fields, linked.field_count(class) - own)?;
    Ok(slots)
}

// The slots of the fields that each class declares.
pub(crate) fn all_slots(
    alloc: Global,
    linked: &Linked,
) -> Result<Vec<Row<Option<FieldSlot>>>, AllocError>
    ensures { IfOk result (λ rows. HaveSlots linked.now.classes rows.items) }
{
    let mut rows = Vec::with_capacity(alloc, linked.set().len())?;
    for number in 0..linked.set().len() {
        let slots = slots_of(alloc, linked, ClassId(number as u16))?;
        rows.push(Row::new(slots))?;
    }
    Ok(rows)
}
