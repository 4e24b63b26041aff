//! What the definitions of a client's leases say, as laws in the terms of the Java RMI
//! specification (chapter on garbage collection). No other code.
#![tactic(auto)]

pub mod laws;
