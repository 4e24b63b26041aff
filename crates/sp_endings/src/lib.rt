//! How what lives in a space ends or goes on: connections and what was asked on them, dirty and clean calls,
//! frames that wait for leases, tasks; and what calls and objects it needs until then.
//!
//! Each is a function over a [`sp_living::Living`], and none a method, since a type has its methods in its
//! own crate: what follows from the calls of a `Living` stands above it.
#![tactic(auto)]

pub use ends::{close, end_connection, fail_write, redial, refuse};
pub use failing::fail_group;
pub use foreign::{foreign_among, foreign_in};
pub use frames::{go_all, park};
pub use needing::{insert_own, is_busy};
pub use tasks::{end_task, finish_task, report};
pub use telling::{cleaned, lease};

mod ends;
mod failing;
mod foreign;
mod frames;
mod needing;
mod passing;
mod tasks;
mod telling;
mod thrown;
