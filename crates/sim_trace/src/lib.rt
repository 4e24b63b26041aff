//! Draws what happened as a script was played, as a message sequence: the spaces as lines that go down, frames as arrows between them,
//! a cross where one is lost, and leases as bars. The same as lines of text, and what was counted in each space.
//!
//! A record is data: whatever it says, drawing it ends, and reads nothing out of range.
#![tactic(auto)]

pub use counted::put_counts;
pub use svg::put_svg;
pub use told::put_text;

mod builder;
mod chart;
mod counted;
mod escaping;
mod leases;
mod links;
mod svg;
mod told;
