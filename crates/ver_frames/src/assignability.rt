//! Which verification types may stand for which (JVMS 4.10.1.2, 4.10.1.4).

ghost use Rattle.std.specs.Prelude.{◌↔◌, ◌≡◌, ◌<◌, IsTrue, IsSomeAnd, Some, length, slice_get, slice_index_or, codes};
ghost use Rattle.cls_set.specs.Classes.{name_at, IsInterface};
ghost use Rattle.cls_set.specs.Subtypes.{IsSubclass};
ghost use Rattle.ver_frames.specs.AssignableTest.{is_assignable, is_below, is_interface, is_named_object};
ghost use Rattle.ver_frames.specs.Assignable.{AreAssignable, IsAssignable, IsFrameAssignable};
ghost use Rattle.ver_frames.specs.Chains.{Stands, types_of};
ghost use Rattle.ver_frames.specs.Frames.{first_types};
ghost use Rattle.ver_frames.specs.declared.vtype.VType.TheVariants.{Top};

use super::chain::{TypeChain, TypeNodes};
use super::{DeclaredFrame, TypeFrame, VType};
use cls_set::{ClassId, ClassSet};

/// Returns whether a value of the first type may stand where the second is asked. It takes no
/// memory.
#[tactic(auto, unfolding(crate::specs::Assignable::IsAssignable, crate::specs::AssignableTest::is_assignable))]
pub fn assignable(classes: &ClassSet, given: VType, asked: VType) -> bool
    ensures decides { IsTrue result ↔ IsAssignable classes.now given asked }
    ensures test { result ≡ is_assignable classes.now given asked }
{
    match (given, asked) {
        (_, VType::Top) => true,
        (VType::Object(given), VType::Object(asked)) => {
            is_interface(classes, asked) || is_subclass(classes, given, asked)
        }
        (VType::Null, VType::Object(_) | VType::IntArray) => true,
        (VType::IntArray, VType::Object(asked)) => is_named_object(classes, asked),
        _ => given == asked,
    }
}

// Whether the class is an interface of the set.
fn is_interface(classes: &ClassSet, class: ClassId) -> bool
    ensures decides { IsTrue result ↔ IsSomeAnd (slice_get classes.now class.0) IsInterface }
    ensures test { result ≡ is_interface classes.now class }
{
    if usize::from(class.0) >= classes.len() {
        return false;
    }
    classes.class(class).is_interface()
}

// Whether the first class is the second, or has it among its superclasses.
fn is_subclass(classes: &ClassSet, given: ClassId, asked: ClassId) -> bool
    ensures decides { IsTrue result ↔ IsSubclass classes.now given asked }
    ensures test { result ≡ is_below (length classes.now) classes.now given asked }
{
    if usize::from(given.0) >= classes.len() {
        return given == asked;
    }
    classes.is_subclass(given, asked)
}

// Whether the class has the name of java/lang/Object.
fn has_object_name(classes: &ClassSet, class: ClassId) -> bool
    ensures { IsTrue result ↔ (name_at classes.now class ≡ Some (codes "java/lang/Object")) }
{
    usize::from(class.0) < classes.len() && classes.name(class).is(b"java/lang/Object")
}

// Whether the class is java/lang/Object.
fn is_named_object(classes: &ClassSet, class: ClassId) -> bool
    ensures decides { IsTrue result ↔ (name_at classes.now class ≡ Some (codes "java/lang/Object")) }
    ensures test { result ≡ is_named_object classes.now class }
{
    has_object_name(classes, class)
}

// The type at an index: top after the last.
fn type_at(types: &[VType], index: usize) -> VType
    ensures { result ≡ slice_index_or types.now index Top }
{
    match types.get(index) {
        Some(kind) => *kind,
        None => VType::Top,
    }
}

// Whether the type at each index may stand where the chain's type is asked; after the last type
// stands top.
fn chain_assignable(
    classes: &ClassSet,
    given: &[VType],
    nodes: &TypeNodes,
    asked: TypeChain,
) -> bool
    requires { Stands nodes.now asked }
    ensures { IsTrue result ↔ AreAssignable classes.now (first_types asked.count given.now) (types_of nodes.now asked) }
{
    let mut last = asked.last;
    let mut count = asked.count;
    while count > 0 {
        let node = nodes.node(last);
        count -= 1;
        if !assignable(classes, type_at(given, count), node.kind) {
            return false;
        }
        last = node.before;
    }
    true
}

// Whether both frames have the same number of local variables, each assignable to the one asked.
fn locals_assignable(classes: &ClassSet, given: &TypeFrame, asked: &DeclaredFrame) -> bool
    ensures { IsTrue result ↔ AreAssignable classes.now given.now.locals asked.now.locals }
{
    let nodes = asked.nodes;
    if given.local_count() != asked.local_count() {
        return false;
    }
    chain_assignable(classes, given.stored_locals(), nodes, asked.locals)
}

// Whether both frames have the same number of operands, each assignable to the one asked at its
// index.
fn stack_assignable(classes: &ClassSet, given: &TypeFrame, asked: &DeclaredFrame) -> bool
    ensures { IsTrue result ↔ AreAssignable classes.now given.now.stack asked.now.stack }
{
    let nodes = asked.nodes;
    let stack = given.stack();
    if stack.len() != asked.stack.count {
        return false;
    }
    chain_assignable(classes, stack, nodes, asked.stack)
}

/// Returns whether a frame may stand where the declared one is asked. It takes no memory.
pub fn frame_assignable(classes: &ClassSet, given: &TypeFrame, asked: &DeclaredFrame) -> bool
    ensures { IsTrue result ↔ IsFrameAssignable classes.now given.now asked.now }
{
    locals_assignable(classes, given, asked)
        && stack_assignable(classes, given, asked)
        && (!given.flag_this_uninit() || asked.flag_this_uninit())
}
