//! The laws of what class files make.

ghost use Rattle.cls_laws.specs.Unique.{FilesMakeOneSet, SetsAreLinkedOnce};

/// Class files make one set: two class sets that have the classes of the same files have the same classes
/// in the same order, each with the same supertypes by number.
pub fn one_set()
    ensures { FilesMakeOneSet }
{}

/// A class set is linked in one way: two linked class sets of the same classes have the same methods, each
/// with the same instructions and switches.
pub fn one_linking()
    ensures { SetsAreLinkedOnce }
{}
