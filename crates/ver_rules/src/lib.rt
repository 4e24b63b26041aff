//! What instructions ask of operands and local variables (JVMS 4.10.1.9), and the rules of type
//! checking that a method may break.
#![tactic(auto)]

pub use fault::{CheckFault, CheckRule};
pub use ver_frames::{ClassId, ClassSet, Numbered, StackMapRule, Text, VType, ValueKind};
pub use want::{Want, is_reference, is_wanted, kind_wanted, operand_fault};

mod fault;
mod want;
