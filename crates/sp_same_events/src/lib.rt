//! Whether two events, operations or replies are the same: what is entered in a history twice is compared so.
#![tactic(auto)]

pub use events::same_event;
pub use messages::same_message;
pub use tasks::{same_op, same_reply};
pub use values::{same_value, same_values};

mod events;
mod messages;
mod tasks;
mod values;
