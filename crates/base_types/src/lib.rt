//! What all layers share: rows of values that definitions speak of as lists, and faults with numbers.
#![tactic(auto)]

pub use numbered::Numbered;
pub use row::Row;

mod numbered;
mod row;
