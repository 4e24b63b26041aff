//! The messages of the protocol between spaces, versions 1 and 2 (a format of this project): what a
//! frame says, the ranges of its fields, and its one spelling in bytes.
#![tactic(auto)]

pub use base_types::Numbered;
pub use encoding::{MAX_BODY, encode};
pub use fault::{WireError, WireFault};
pub use frame::Frame;
pub use message::{Digest, Message};
pub use ranges::is_name;
pub use space_ids::{ClassId, ObjId, Ref, Row, Uuid, Value};

mod encoding;
mod fault;
mod frame;
mod length;
mod message;
mod ranges;
mod writing;
