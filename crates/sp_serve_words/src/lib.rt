//! What the words after `serve` and `call` ask for.
#![tactic(auto)]

pub use words::{Aim, CallRequest, Invocation, ServeRequest, SpaceRequest, read_words};

mod words;
