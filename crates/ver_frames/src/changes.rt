//! What becomes of the types of objects that are not initialized (JVMS 4.10.1.9, new and invokespecial).

ghost use Rattle.std.specs.Prelude.{◌≡◌, map};
ghost use Rattle.std.specs.List.{list_any};
ghost use Rattle.ver_frames.specs.Changes.{changed, is_made_at};

use super::{ClassId, VType};

/// A change of the type of an object that is not initialized, in every copy of it.
#[derive(Clone, Copy, Debug, PartialEq, Eq)]
pub enum TypeChange {
    /// The `new` at this offset makes another object: the one that it made before may not be used.
    MadeAgain(u16),
    /// An `<init>` has run on what the `new` at this offset made, an object of the class.
    Initialized(u16, ClassId),
    /// An `<init>` of the class has called another one on its own receiver.
    ThisInitialized(ClassId),
}

// What a type becomes.
fn changed(change: TypeChange, kind: VType) -> VType
    ensures { result ≡ changed change kind }
{
    match (change, kind) {
        (TypeChange::MadeAgain(offset), VType::Uninitialized(made)) if made == offset => VType::Top,
        (TypeChange::Initialized(offset, class), VType::Uninitialized(made)) if made == offset => {
            VType::Object(class)
        }
        (TypeChange::ThisInitialized(class), VType::UninitializedThis) => VType::Object(class),
        _ => kind,
    }
}

// Changes each of the types.
pub(crate) fn change_all(change: TypeChange, types: &mut Vec<VType>)
    ensures { types.new.items ≡ map (changed change) types.old.items }
{
    for index in 0..types.len() {
        types[index] = changed(change, types[index]);
    }
}

// Whether a type is that of what the `new` at an offset made.
fn is_made_at(offset: u16, kind: VType) -> bool
    ensures { result ≡ is_made_at offset kind }
{
    match kind {
        VType::Uninitialized(made) => made == offset,
        _ => false,
    }
}

// Whether one of the types is that of what the `new` at an offset made.
pub(crate) fn any_made_at(offset: u16, types: &[VType]) -> bool
    ensures { result ≡ list_any (is_made_at offset) types.now }
{
    for kind in types {
        if is_made_at(offset, *kind) {
            return true;
        }
    }
    false
}
