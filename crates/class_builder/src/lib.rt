//! Makes class files from their parts, for tests and examples: the constant pool is made on the way,
//! each text and class in it once, in the order of first use.
//!
//! It writes what is asked, right or wrong, so that a test can also make a class file that has to
//! be refused.
#![tactic(auto)]

pub use examples::SUM;
pub use parts::{AttributeParts, ClassParts, CodeParts, FieldParts, MethodParts};
pub use write::{BuildFault, class_bytes};

mod examples;
mod parts;
mod pool;
mod write;
