//! The values that cross between tasks and spaces.

use super::Ref;
use base_types::Row;

/// An argument or a result of a call.
#[derive(Debug, Drop)]
pub enum Value {
    Null,
    Int(i32),
    /// An int array, by copy.
    Ints(Row<i32>),
    Ref(Ref),
}
