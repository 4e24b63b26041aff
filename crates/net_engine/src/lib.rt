//! Frames over devices: what came in before the end or a fault of the device, and what went out.
#![tactic(auto)]

pub use inbound::{Inbound, Inflow};
pub use net_frames::{Frame, WireFault};
pub use outbound::{Outbound, WriteFailed};

mod inbound;
pub mod laws;
mod outbound;

/// The bytes that the longest frame has: its length, and a body of 65,536.
pub const MAX_FRAME: usize = 65_540;
