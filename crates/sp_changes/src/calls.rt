//! Calls for which lent tasks ask.

ghost use Rattle.std.specs.Prelude.{◌≡◌, true, IfOk, IfSome, OnOk, map};
ghost use Rattle.sp_outputs.specs.Notes.{output_of};
ghost use Rattle.sp_rules.specs.Behaviours.{Call as Calls};
ghost use Rattle.sp_rules.specs.Classes.{Setting};
ghost use Rattle.sp_rules.specs.Events.{Parked};
ghost use Rattle.sp_rules.specs.Space.{on as after_event};
ghost use Rattle.sp_rules.specs.State.{State};
ghost use Rattle.sp_rules.specs.Tasks.{AsksFor, stand};
ghost use Rattle.sp_living.specs.Hands.{task_of};
ghost use Rattle.sp_state.specs.Hands.{has_lent};
ghost use Rattle.sp_state.specs.Spaces.{IsAtRest, IsSpace};
ghost use Rattle.sp_tasks.specs.Lent.{LendsNoMore};

use crate::{BoxedState, let_go};
use sp_outputs::Output;
use sp_requests::CallClasses;
use sp_tasks::LentTask;
use space_ids::{Ref, Row, Value};
use std::alloc::AllocError;

/// A call for which a task asks.
#[derive(Drop)]
pub struct Call {
    pub target: Ref,
    pub method: u32,
    pub arguments: Row<Value>,
}

/// The state in which the task waits too. There is none at out of memory.
pub fn park_too<C: CallClasses>(
    last: BoxedState,
    classes: &C,
    task: LentTask,
    call: Call,
    fuel: u64,
) -> Option<BoxedState>
    requires { has_lent last task ≡ true }
    ensures parked { IfSome result (λ space. (g : Setting) (s : State) → IsSpace g s last → IsAtRest s → C.tells classes.now g.classes → stand (task_of g task) ≡ AsksFor (Calls call.target call.method call.arguments) → fuel ≡ (task_of g task).fuel → IsSpace g (after_event g (Parked task.id task.made) s).0 space) }
    ensures lent { IfSome result (λ space. LendsNoMore task.id last.living.tasks space.living.tasks) }
{
    let mut last = last;
    match park_in(&mut last, classes, task, call, fuel) {
        Ok(_) => Some(last),
        Err(_) => {
            let_go(last);
            None
        }
    }
}

/// Lets a task that a state lends, with this fuel left, wait for the reply to its call, and ends the event. What
/// fails is to be let go.
pub fn park_in<C: CallClasses>(
    space: &mut BoxedState,
    classes: &C,
    task: LentTask,
    call: Call,
    fuel: u64,
) -> Result<Vec<Output>, AllocError>
    requires { has_lent space.old task ≡ true }
    ensures outputs { IfOk result (λ outputs. (g : Setting) (s : State) → IsSpace g s space.old → IsAtRest s → C.tells classes.now g.classes → stand (task_of g task) ≡ AsksFor (Calls call.target call.method call.arguments) → fuel ≡ (task_of g task).fuel → map output_of outputs.items ≡ (after_event g (Parked task.id task.made) s).1) }
    ensures state { OnOk result ((g : Setting) (s : State) → IsSpace g s space.old → IsAtRest s → C.tells classes.now g.classes → stand (task_of g task) ≡ AsksFor (Calls call.target call.method call.arguments) → fuel ≡ (task_of g task).fuel → IsSpace g (after_event g (Parked task.id task.made) s).0 space.new) }
    ensures lent { OnOk result (LendsNoMore task.id space.old.living.tasks space.new.living.tasks) }
{
    let Call {
        target,
        method,
        arguments,
    } = call;
    let lent = fuel.saturating_sub(1);
    let state = &mut *space.state;
    let Ok(()) = state.park_call(classes, task, target, method, arguments, lent) else {
        return Err(AllocError);
    };
    state.conclude()
}
