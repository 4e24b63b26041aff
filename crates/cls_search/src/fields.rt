//! Searches for fields.

ghost use Rattle.std.specs.Prelude.{◌≡◌, ◌<◌, IfSome, IsSome, length};
ghost use Rattle.cls_search.specs.FieldSearches as spec;
ghost use Rattle.cls_search.specs.FieldSearches.{field_at, ResolvesField};
ghost use Rattle.cls_search.specs.Searches.{FindNothing, supertypes_of};
ghost use Rattle.cls_set.specs.Sets.{IsClassSet};

use super::marks::{clear, is_marked, mark};
use cls_set::{ClassId, ClassSet};

/// A field: the class that declares it, and its index among the fields of that class.
#[derive(Clone, Copy, Debug, PartialEq, Eq)]
pub struct FieldIndex {
    pub class: ClassId,
    pub index: usize,
}

// The field that a class declares with this name and descriptor.
fn own_field(set: &ClassSet, class: ClassId, name: &[u8], descriptor: &[u8]) -> Option<FieldIndex>
    requires in_set { class.0 < length set.now }
    ensures found { result ≡ spec.own_field set.now name.now descriptor.now class }
    ensures within { IfSome result (λ f. IsSome (field_at set.now f)) }
{
    match set.first_field(class, name, descriptor) {
        Some(index) => Some(FieldIndex { class, index }),
        None => None,
    }
}

// The field that a name and a descriptor mean in a class, if none is meant in the marked ones.
fn field_from(
    set: &ClassSet,
    class: ClassId,
    name: &[u8],
    descriptor: &[u8],
    marks: &mut [bool],
) -> Option<FieldIndex>
    requires set { IsClassSet set.now }
    requires in_set { class.0 < length set.now }
    requires marked { FindNothing (supertypes_of set.now) (spec.own_field set.now name.now descriptor.now) marks.old }
    ensures found { ResolvesField set.now class name.now descriptor.now result }
    ensures within { IfSome result (λ f. IsSome (field_at set.now f)) }
    ensures marked { FindNothing (supertypes_of set.now) (spec.own_field set.now name.now descriptor.now) marks.new }
{
    if is_marked(marks, class) {
        return None;
    }
    if let Some(field) = own_field(set, class, name, descriptor) {
        return Some(field);
    }
    let entry = set.class(class);
    'superinterfaces: for superinterface in entry.interfaces.as_slice() {
        if let Some(field) = field_from(set, *superinterface, name, descriptor, marks) {
            return Some(field);
        }
        mark(marks, *superinterface);
    }
    match entry.superclass {
        Some(superclass) => field_from(set, superclass, name, descriptor, marks),
        None => None,
    }
}

/// Returns the field that a name and a descriptor mean in a class (JVMS 5.4.3.2): that of the
/// class, else that of the first of its superinterfaces, depth first, and then of its superclass.
/// `None` if none of these declares one. Access is not looked at.
///
/// With a flag for each class in `marks`, whatever the flags say, the search comes to each
/// interface at most once. Without flags it comes to an interface once for each way to it.
pub fn find_field(
    set: &ClassSet,
    class: ClassId,
    name: &[u8],
    descriptor: &[u8],
    marks: &mut [bool],
) -> Option<FieldIndex>
    requires set { IsClassSet set.now }
    requires in_set { class.0 < length set.now }
    ensures found { ResolvesField set.now class name.now descriptor.now result }
    ensures within { IfSome result (λ f. IsSome (field_at set.now f)) }
{
    if let Some(field) = own_field(set, class, name, descriptor) {
        return Some(field);
    }
    // This takes as long as there are classes.
    clear(marks);
    field_from(set, class, name, descriptor, marks)
}
