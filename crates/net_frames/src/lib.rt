//! Frames of the protocol between spaces, versions 1 and 2 (a format of this project): reading them
//! from a stream that comes in pieces. `net_message` has what a frame says and how it is spelled; its
//! names are exported here too.
#![tactic(auto)]

pub use front::{Front, read_front};
pub use net_message::{
    ClassId, Digest, Frame, MAX_BODY, Message, Numbered, ObjId, Ref, Row, Uuid, Value, WireError,
    WireFault, encode,
};
pub use reader::FrameReader;

mod bodies;
mod fields;
mod front;
mod kinds;
pub mod laws;
mod reader;
