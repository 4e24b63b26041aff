//! Results that are held until they are acknowledged: those of a space's roots and lookups ([`Results`]), and those of
//! calls and lookups that came ([`CallResults`]), also where the connection has ended, until a moment.
//!
//! A contract speaks of the list of results, in the order in which they came.
#![tactic(auto)]

pub use call_results::CallResults;
pub use results::Results;

mod call_results;
mod orphans;
mod results;
mod unacknowledged;
