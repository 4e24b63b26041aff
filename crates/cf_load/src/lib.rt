//! Loading class files from sources of bytes.
#![tactic(auto)]

pub use load_fault::LoadFault;
pub use source::load;

mod load_fault;
mod source;
