//! A space that is served over TCP until its input ends, or that makes one call.
#![tactic(auto)]

pub use calling::{Called, Caller, OneCall, call_on};
pub use serving::{Bound, Plan, Station, open, serve_on};
pub use sp_board::Served;
pub use sp_hall::{Gate, OpenGate, Peer};
pub use sp_links::Host;

mod calling;
mod input;
mod serving;
