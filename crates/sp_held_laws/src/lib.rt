//! That nothing that is held is lost, in worlds in which nothing fails and no entry expires: laws of the rules of
//! spaces and worlds, each the contract of a function. There is no other code here.
//!
//! | Module | Laws of |
//! |---|---|
//! | `holders` | what a world owes to the objects that its spaces hold: the guards under which none is lost |
//! | `objects` | what the events of a world are to the machine of one object and its clients |
//! | `kept` | what is granted to a client, and stays so |
//! | `laws` | what is held, and so is not lost; own references, which stand |
//! | `runs` | runs that meet the premises of these laws, computed |
#![tactic(auto)]

pub mod holders;
pub mod kept;
pub mod laws;
pub mod objects;
pub mod runs;
