//! The threads round a space that is served over TCP, and its connections.
//!
//! | Thread | Does | Ends |
//! |---|---|---|
//! | the caller's | obeys input lines | as the input ends, or a line is bad |
//! | one that accepts | enters the connections of others | at the stop |
//! | one that dials, and one for each dial | enters connections of its own, or tells that a peer refused | at the stop; as the dial is done |
//! | two a connection | one reads frames, and runs for a while a task that may go on then; one writes what nobody wrote at once | as the connection ends |
//! | workers | run tasks that may go on | at the stop |
//! | one with a clock | lets a moment pass and sweeps, each second | at the stop |
//! | one that prints | writes the lines that were told | at the stop, after the last |
//!
//! The space lies behind one lock, which no thread holds while it reads, writes, connects or prints. What an event
//! answers is handed on under that lock, so frames go out in the order of the events. All threads are joined.
#![tactic(auto)]

pub use gate::{Gate, OpenGate};
pub use hall::{Hall, Peer};
pub use threads::{start_acceptor, start_clock, start_dialler, start_printer, start_worker};

mod clock;
mod connecting;
mod gate;
mod hall;
mod printing;
mod threads;
mod working;
