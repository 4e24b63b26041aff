//! What the names and descriptors of a class file's members come to: what the descriptors say (JVMS 4.3), each
//! read once however many members share it, and which names and descriptors stood before.
#![tactic(auto)]

pub use descriptors::{FieldTypes, MethodTypes, PackedTypes};
pub use member_keys::MemberKeys;

mod descriptors;
mod member_keys;
