//! The stack of a task: frames of local variables and operands (JVMS 2.6) on one row of words.
#![tactic(auto)]

pub use stack::Stack;
pub use vm_heap::Word;

mod link;
mod stack;
