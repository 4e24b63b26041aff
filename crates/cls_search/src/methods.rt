//! Searches for methods, from a class up.

ghost use Rattle.std.specs.Prelude.{◌≡◌, ◌<◌, ◌∷◌, [], IfSome, IsSome, length};
ghost use Rattle.cls_search.specs.MethodSearches as spec;
ghost use Rattle.cls_search.specs.MethodSearches.{method_in, own_of_interface, Resolves};
ghost use Rattle.cls_search.specs.Searches.{Finds, FindNothing, superclass_of, supertypes_of};
ghost use Rattle.cls_set.specs.Sets.{IsClassSet};

use super::marks::{clear, is_marked, mark};
use cls_set::{ClassId, ClassSet};

/// A method: the class that declares it, and its index among the methods of that class.
#[derive(Clone, Copy, Debug, PartialEq, Eq)]
pub struct MethodIndex {
    pub class: ClassId,
    pub index: usize,
}

/// Returns whether a name is that of an initializer of instances (JVMS 2.9).
pub fn is_initializer(name: &[u8]) -> bool
    ensures { result ≡ spec.is_initializer name.now }
{
    name == b"<init>".as_slice()
}

/// Returns the method that a class itself declares with this name and descriptor: `None` if it
/// declares none.
pub fn own_method(
    set: &ClassSet,
    class: ClassId,
    name: &[u8],
    descriptor: &[u8],
) -> Option<MethodIndex>
    requires in_set { class.0 < length set.now }
    ensures found { result ≡ spec.own_method set.now name.now descriptor.now class }
    ensures within { IfSome result (λ m. IsSome (method_in set.now m)) }
{
    match set.first_method(class, name, descriptor) {
        Some(index) => Some(MethodIndex { class, index }),
        None => None,
    }
}

// The method that a class, or the first superclass that has one, declares with this name and descriptor.
fn in_superclasses(
    set: &ClassSet,
    class: ClassId,
    name: &[u8],
    descriptor: &[u8],
) -> Option<MethodIndex>
    requires set { IsClassSet set.now }
    requires in_set { class.0 < length set.now }
    ensures found { Finds (superclass_of set.now) (spec.own_method set.now name.now descriptor.now) (class ∷ []) result }
    ensures within { IfSome result (λ m. IsSome (method_in set.now m)) }
{
    if let Some(method) = own_method(set, class, name, descriptor) {
        return Some(method);
    }
    match set.class(class).superclass {
        Some(superclass) => in_superclasses(set, superclass, name, descriptor),
        None => None,
    }
}

fn interface_method(
    set: &ClassSet,
    class: ClassId,
    name: &[u8],
    descriptor: &[u8],
) -> Option<MethodIndex>
    requires in_set { class.0 < length set.now }
    ensures found { result ≡ own_of_interface set.now (spec.own_method set.now name.now descriptor.now) class }
    ensures within { IfSome result (λ m. IsSome (method_in set.now m)) }
{
    if set.class(class).is_interface() {
        own_method(set, class, name, descriptor)
    } else {
        None
    }
}

// The method that an interface declares with this name and descriptor: the class itself, or the first
// of its superinterfaces, depth first. There is none in the marked ones.
fn in_interfaces(
    set: &ClassSet,
    class: ClassId,
    name: &[u8],
    descriptor: &[u8],
    marks: &mut [bool],
) -> Option<MethodIndex>
    requires set { IsClassSet set.now }
    requires in_set { class.0 < length set.now }
    requires marked { FindNothing (supertypes_of set.now) (own_of_interface set.now (spec.own_method set.now name.now descriptor.now)) marks.old }
    ensures found { Finds (supertypes_of set.now) (own_of_interface set.now (spec.own_method set.now name.now descriptor.now)) (class ∷ []) result }
    ensures within { IfSome result (λ m. IsSome (method_in set.now m)) }
    ensures marked { FindNothing (supertypes_of set.now) (own_of_interface set.now (spec.own_method set.now name.now descriptor.now)) marks.new }
{
    if is_marked(marks, class) {
        return None;
    }
    if let Some(method) = interface_method(set, class, name, descriptor) {
        return Some(method);
    }
    let entry = set.class(class);
    'superinterfaces: for superinterface in entry.interfaces.as_slice() {
        if let Some(method) = in_interfaces(set, *superinterface, name, descriptor, marks) {
            return Some(method);
        }
        mark(marks, *superinterface);
    }
    match entry.superclass {
        Some(superclass) => in_interfaces(set, superclass, name, descriptor, marks),
        None => None,
    }
}

// The same, whatever is marked. All marks are taken away first, which takes as long as there are classes: a search that
// ends before it comes to interfaces does not look at them.
fn in_all_interfaces(
    set: &ClassSet,
    class: ClassId,
    name: &[u8],
    descriptor: &[u8],
    marks: &mut [bool],
) -> Option<MethodIndex>
    requires set { IsClassSet set.now }
    requires in_set { class.0 < length set.now }
    ensures found { Finds (supertypes_of set.now)
        (own_of_interface set.now (spec.own_method set.now name.now descriptor.now))
        (class ∷ []) result }
    ensures within { IfSome result (λ m. IsSome (method_in set.now m)) }
{
    clear(marks);
    in_interfaces(set, class, name, descriptor, marks)
}

/// Returns the method that a name and a descriptor mean in a class or an interface (JVMS 5.4.3.3,
/// 5.4.3.4): that of the class or its first superclass that declares one, else that of the first of
/// its superinterfaces, depth first; an `<init>` is that of the class alone. `None` if none of
/// these declares one. Access is not looked at.
///
/// With a flag for each class in `marks`, whatever the flags say, the search comes to each
/// interface at most once. Without flags it comes to an interface once for each way to it.
pub fn find_method(
    set: &ClassSet,
    class: ClassId,
    name: &[u8],
    descriptor: &[u8],
    marks: &mut [bool],
) -> Option<MethodIndex>
    requires set { IsClassSet set.now }
    requires in_set { class.0 < length set.now }
    ensures found { Resolves set.now class name.now (spec.own_method set.now name.now descriptor.now) result }
    ensures within { IfSome result (λ m. IsSome (method_in set.now m)) }
{
    if is_initializer(name) {
        return own_method(set, class, name, descriptor);
    }
    if set.class(class).is_interface() {
        return in_all_interfaces(set, class, name, descriptor, marks);
    }
    match in_superclasses(set, class, name, descriptor) {
        Some(method) => Some(method),
        None => in_all_interfaces(set, class, name, descriptor, marks),
    }
}
