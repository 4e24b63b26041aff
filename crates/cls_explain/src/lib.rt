//! Why class files make no set, or do not link, in lines for people: who names a class that is absent, what an
//! instruction names, and the nearest names that are there. Every call is safe, and no more is promised.
#![tactic(auto)]

pub use code::{KnownCode, known_code};
pub use known::{ClassSource, KnownClass, KnownClasses, UnreadFile, declared_method};
pub use linking::{explain_link, write_near_classes};
pub use members::{write_field, write_method, write_methods_named};
pub use nearest::NearestNames;
pub use sets::explain_set;

mod code;
mod known;
mod linking;
mod members;
mod nearest;
mod sets;
