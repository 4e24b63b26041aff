//! The entries of a history.

ghost use Rattle.std.specs.Prelude.{◌≡◌, IfOk, OnErr, OnOk, map};
ghost use Rattle.sp_history.specs.Entries.{event_of_input};
ghost use Rattle.sp_outputs.specs.Notes.{output_of};
ghost use Rattle.sp_rules.specs.Classes.{Setting};
ghost use Rattle.sp_rules.specs.Space.{on as after_event};
ghost use Rattle.sp_rules.specs.State.{State};

use sp_events::{CoreFault, Event};
use sp_lender::Lender;
use sp_outputs::Output;
use sp_tasks::{Op, Reply};
use space_ids::{Row, Value};
use std::alloc::Global;
use std::sync::Arc;

/// What happens to a space from outside.
#[derive(Drop)]
pub enum Input {
    /// An event.
    Event(Event),
    /// A task is to start at a method of the space's class set.
    Root {
        method: u32,
        arguments: Row<Value>,
        fuel: u64,
    },
}

/// What an accepted call was handed, and what it answered where that is part of the history.
#[derive(Drop)]
pub enum Call {
    On(Arc<Input, Global>),
    Commit {
        task: u64,
        steps: u64,
        op: Arc<Op, Global>,
        reply: Reply,
    },
    Park {
        task: u64,
        steps: u64,
        op: Arc<Op, Global>,
    },
    GiveBack {
        task: u64,
        steps: u64,
    },
    Finish {
        task: u64,
        steps: u64,
    },
}

/// An accepted call, with the number of who made it.
#[derive(Drop)]
pub struct Entry {
    pub by: u32,
    pub call: Call,
}

// Lets it happen, and answers the outputs.
pub(crate) fn happen<S: Lender>(space: &mut S, input: &Input) -> Result<Vec<Output>, CoreFault>
    ensures outputs { IfOk result (λ outputs. (g : Setting) (s : State) → S.is_space g s space.old → map output_of outputs.items ≡ (after_event g (event_of_input input.now) s).1) }
    ensures state { OnOk result ((g : Setting) (s : State) → S.is_space g s space.old → S.is_space g (after_event g (event_of_input input.now) s).0 space.new) }
    ensures unchanged { OnErr result ((g : Setting) (s : State) → S.is_space g s space.old → S.is_space g s space.new) }
{
    match input {
        Input::Event(event) => space.on(event),
        Input::Root {
            method,
            arguments,
            fuel,
        } => space.root(*method, arguments.as_slice(), *fuel),
    }
}
