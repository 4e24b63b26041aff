//! Verification types (JVMS 4.10.1.2).

use cls_link::ClassId;

/// The type of a local variable or of an operand, as checking knows it. Values of the type boolean
/// are ints.
#[derive(Clone, Copy, Debug, PartialEq, Eq)]
pub enum VType {
    /// Anything: a local variable that may not be read.
    Top,
    Int,
    Null,
    /// An object of a class or interface.
    Object(ClassId),
    /// An array of ints.
    IntArray,
    /// An object that the `new` at this offset made, and on which no `<init>` has run.
    Uninitialized(u16),
    /// The receiver of an `<init>`, before another `<init>` has run on it.
    UninitializedThis,
}
