//! Calls and returns that go on in another method (JVMS 6.5: invokevirtual to invokeinterface, ireturn to
//! return), by what is told of each method in one row of a table. What throws, ends the task or asks its
//! space for something is left to `act` of vm_code.
#![tactic(auto)]

pub use callees::Callees;
pub use calls::{
    call_interface, call_static, call_virtual, return_int, return_nothing, return_reference,
};

mod callees;
mod calls;
