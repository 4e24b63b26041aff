//! A frame that waits.

ghost use Rattle.std.specs.Prelude.{◌≡◌};

use space_ids::{ForeignId, ObjId, Row, Value};
use std::alloc::{AllocError, Global};
use table_copies::{CopyIn, copy_result, copy_values};

/// A call that came, of a method of one of the space's own objects, and the fuel that it lends.
#[derive(Drop)]
pub struct ParkedCall {
    pub target: ObjId,
    pub method: u32,
    pub fuel: u64,
    pub arguments: Row<Value>,
}

/// A frame that waits for leases.
#[derive(Drop)]
pub enum Frame {
    /// A call that came.
    Call(ParkedCall),
    /// The result of a call or lookup.
    Returned { value: Option<Value>, fuel: u64 },
}

/// A frame that waits, the connection on which it came and its number there, and the foreign references in
/// it, each once.
#[derive(Drop)]
pub struct ParkedFrame {
    pub conn: u64,
    pub number: u64,
    pub frame: Frame,
    pub references: Row<ForeignId>,
}

impl CopyIn for ParkedCall {
    ghost is_copy = { λ call copy. copy ≡ call };

    fn copy_in(&self, alloc: Global) -> Result<ParkedCall, AllocError> {
        Ok(ParkedCall {
            target: self.target,
            method: self.method,
            fuel: self.fuel,
            arguments: Row::new(copy_values(alloc, self.arguments.as_slice())?),
        })
    }
}

impl CopyIn for Frame {
    ghost is_copy = { λ frame copy. copy ≡ frame };

    fn copy_in(&self, alloc: Global) -> Result<Frame, AllocError> {
        match self {
            Frame::Call(call) => Ok(Frame::Call(call.copy_in(alloc)?)),
            Frame::Returned { value, fuel } => Ok(Frame::Returned {
                value: copy_result(alloc, value)?,
                fuel: *fuel,
            }),
        }
    }
}

impl CopyIn for ParkedFrame {
    ghost is_copy = { λ frame copy. copy ≡ frame };

    fn copy_in(&self, alloc: Global) -> Result<ParkedFrame, AllocError> {
        Ok(ParkedFrame {
            conn: self.conn,
            number: self.number,
            frame: self.frame.copy_in(alloc)?,
            references: Row::new(self.references.as_slice().to_vec(alloc)?),
        })
    }
}
