//! Searches for the fields and the methods that names and descriptors mean in the classes of a set (JVMS
//! 5.4.3).
#![tactic(auto)]

pub use cls_set::{ClassId, ClassSet, Field, Method};
pub use fields::{FieldIndex, find_field};
pub use methods::{MethodIndex, find_method, is_initializer, own_method};

mod fields;
mod marks;
mod methods;
