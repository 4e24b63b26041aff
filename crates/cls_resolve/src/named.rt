//! What code names, resolved.

use cls_set::ClassId;

/// A member by its class, and its index among the fields or among the methods that the class
/// declares.
#[derive(Clone, Copy, Debug, PartialEq, Eq)]
pub struct MemberIndex {
    pub class: ClassId,
    pub index: u16,
}

/// The type that checkcast or instanceof names.
#[derive(Clone, Copy, Debug, PartialEq, Eq)]
pub enum CastType {
    /// A class or an interface of the set.
    Class(ClassId),
    /// `[I`.
    IntArray,
}
