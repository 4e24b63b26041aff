//! Why a file is no class file of the profile, in lines for people: which part of it is at fault, what the profile leaves
//! out, and what to write in its place; and the lines of its source. Every call is safe, and no more is promised.
#![tactic(auto)]

pub use advice::advice_on;
pub use lines::{SourceLines, source_lines};
pub use reading::explain_reading;

mod advice;
mod lines;
mod places;
mod profile;
mod reading;
