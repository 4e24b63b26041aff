//! What holds between the spaces of a world, and in what order they send and answer: laws of the rules of spaces and
//! worlds, each the contract of a function. There is no other code here.
//!
//! | Module | Laws of |
//! |---|---|
//! | `worlds` | what spaces send one another: what comes was sent, and a call ends by its callee's answer or by a failure |
//! | `laws` | order: numbers rise, and each frame is answered once |
//! | `hellos` | how connections begin: both ends say Hello, and ask and answer only once they heard one |
//! | `ends` | what calls end with: an outcome, an exception of a callee in which they started no task, or a failure |
//! | `answers` | answers, which find what they answer, so no connection is closed where nothing fails |
#![tactic(auto)]

pub mod answers;
pub mod ends;
pub mod hellos;
pub mod laws;
pub mod worlds;
