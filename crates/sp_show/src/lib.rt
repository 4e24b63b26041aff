//! What a class set has, for people: its classes, their fields with slots and their methods, and the code of a method
//! with the frame before each instruction. Every call is safe, and no more is promised.
#![tactic(auto)]

pub use answer::{ShowAnswer, show};

mod answer;
mod class;
mod code;
