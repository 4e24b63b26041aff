//! How many fields objects have, and the slots of these.

ghost use Rattle.std.specs.Prelude.{◌≡◌, ◌+◌, ◌-◌, ◌<◌, ◌≤◌, ◌&&◌, Some, IfSome, IfNone, IfOk, IsSome, IsTrue, bytes_eq, count_by, drop, length, slice_get};
ghost use Rattle.cls_link.specs.Fields.{is_instance, AreFieldCounts, AreNoted, IsCount};
ghost use Rattle.cf_reader.specs.declared.class_file.Field.{Field};
ghost use Rattle.cls_set.specs.Sets.{IsClassSet};

use super::FieldSlot;
use cls_set::{ClassId, ClassSet, Field, Flags};
use std::alloc::{AllocError, Global};

fn is_of_instances(field: &Field) -> bool
    ensures { result ≡ is_instance field.now }
{
    !field.flags.has(Flags::STATIC)
}

// How many of the fields are instance fields.
fn count_instance_fields(fields: &[Field]) -> usize
    ensures { result ≡ count_by is_instance fields.now }
{
    let mut count = 0;
    for field in fields {
        if is_of_instances(field) {
            count += 1;
        }
    }
    count
}

// The slot of the field at an index among those that a class declares, which are the last of the
// `count` that its objects have: none for a static one.
pub(crate) fn slot_in(fields: &[Field], index: usize, count: u32) -> Option<FieldSlot>
    requires within { index < length fields.now }
    requires few { count_by is_instance (drop index fields.now) ≤ count }
    ensures of_static { IfNone result ((f : Field) → slice_get fields.now index ≡ Some f → ¬ IsTrue (is_instance f)) }
    ensures of_instance { IfSome result (λ _. (f : Field) → slice_get fields.now index ≡ Some f → IsTrue (is_instance f)) }
    ensures slot { IfSome result (λ slot. slot.0 ≡ count - count_by is_instance (drop index fields.now)) }
{
    if !is_of_instances(&fields[index]) {
        return None;
    }
    let (_, last) = fields.split_at(index);
    Some(FieldSlot(count - count_instance_fields(last) as u32))
}

// How many fields an object of a class has: 65,535 at most of each class on the way up. Each class is counted
// once, and noted.
fn count_fields(set: &ClassSet, class: ClassId, noted: &mut Vec<Option<u32>>) -> u32
    requires set { IsClassSet set.now }
    requires in_set { class.0 < length set.now }
    requires noted { AreNoted set.now noted.old.items }
    ensures count { IsCount set.now class result }
    ensures noted { AreNoted set.now noted.new.items }
{
    if let Some(count) = noted[usize::from(class.0)] {
        return count;
    }
    let entry = set.class(class);
    let own = count_instance_fields(entry.file.fields.as_slice()) as u32;
    match entry.superclass {
        Some(superclass) => {
            let count = count_fields(set, superclass, noted) + own;
            noted[usize::from(class.0)] = Some(count);
            count
        }
        None => {
            noted[usize::from(class.0)] = Some(own);
            own
        }
    }
}

// How many fields an object of each class has.
pub(crate) fn count_all(alloc: Global, set: &ClassSet) -> Result<Vec<u32>, AllocError>
    ensures { IfOk result (λ counts. AreFieldCounts set.now counts.items) }
{
    let mut counts = Vec::with_capacity(alloc, set.len())?;
    let mut noted: Vec<Option<u32>> = vec![in alloc; None; set.len()]?;
    for number in 0..set.len() {
        counts.push(count_fields(set, ClassId(number as u16), &mut noted))?;
    }
    Ok(counts)
}
