//! The digest of class files that make a program: of each by the name of its class, and its bytes.
#![tactic(auto)]

pub use class_files::class_digest;

mod class_files;
