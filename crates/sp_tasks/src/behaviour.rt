//! What a task and its space tell one another.

ghost use Rattle.std.specs.Prelude.{◌≡◌, Some};
ghost use Rattle.sp_rules.specs.Refusals.{stands_at};
ghost use Rattle.sp_tasks.specs.Behaviours.{op_of, stand_of};

use crate::same::same_op;
use space_ids::{ClassId, ObjId, Ref, Row, Value};

/// How a task ends.
#[derive(Debug, Drop)]
pub enum Outcome {
    /// Its method returned, with this value or with none.
    Returned(Option<Value>),
    /// It threw an exception of this class that nothing catches.
    Threw(ClassId),
    /// Its fuel was spent.
    Spent,
}

/// What a task asks its space for.
#[derive(Drop)]
pub enum Op {
    /// A new remote instance of this class.
    Create(ClassId),
    /// What a field of an own object holds.
    Get {
        object: ObjId,
        slot: usize,
    },
    /// That a field of an own object hold this value.
    Put {
        object: ObjId,
        slot: usize,
        value: Value,
    },
    /// A call of a method of another space's object.
    Call {
        target: Ref,
        method: u32,
        arguments: Row<Value>,
    },
}

/// What completes the instruction that asks.
#[derive(Debug, Drop)]
pub enum Reply {
    /// The operation on the store is done, with this value or with none.
    Gives(Option<Value>),
    /// The call returned, and its callee left this fuel.
    GivesBack { value: Option<Value>, fuel: u64 },
    /// It throws an exception of this class.
    Throws(ClassId),
    /// The callee's fuel was spent.
    RunsOut,
}

/// The point at which a task stands, as its machine tells it.
#[derive(Drop)]
pub enum Stand {
    /// Before an instruction of its own.
    Runs,
    /// At an instruction that asks its space for this.
    AsksFor(Op),
    /// At its end.
    HasEnded(Outcome),
}

impl Stand {
    /// Whether the task stands at this operation on the store.
    pub fn is_at(&self, op: &Op) -> bool
        ensures { result ≡ stands_at (op_of op.now) (Some (stand_of self.now)) }
    {
        match self {
            Stand::AsksFor(asked) => same_op(asked, op),
            Stand::Runs | Stand::HasEnded(_) => false,
        }
    }
}
