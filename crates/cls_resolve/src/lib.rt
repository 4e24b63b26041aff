//! What code names: the constants, classes and members that entries of a constant pool mean (JVMS 5.4.3),
//! and the rules on them (JVMS 4.9.1, 5.4.4, 6.5).
#![tactic(auto)]

pub use cf_insns::{ClassOperation, CodeRule, FieldOperation, InvokeKind};
pub use cls_set::{ClassId, ClassSet, Field, Flags, Method, Numbered};
pub use known::KnownEntries;
pub use meanings::UsedMember;
pub use members::member_use;
pub use named::{CastType, MemberIndex};
pub use references::{Asked, MemberOperation, field_operation, invoke_operation};
pub use rule::LinkRule;
pub use uses::{class_use, constant_use, value_of};

mod access;
mod known;
mod meanings;
mod members;
mod named;
mod references;
mod rule;
mod uses;
