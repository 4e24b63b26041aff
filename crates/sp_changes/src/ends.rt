//! Ends of lent tasks.

ghost use Rattle.std.specs.Prelude.{◌≡◌, true, IfOk, IfSome, OnOk, map};
ghost use Rattle.sp_outputs.specs.Notes.{output_of};
ghost use Rattle.sp_rules.specs.Classes.{Setting};
ghost use Rattle.sp_rules.specs.Events.{Finished};
ghost use Rattle.sp_rules.specs.Space.{on as after_event};
ghost use Rattle.sp_rules.specs.State.{State};
ghost use Rattle.sp_rules.specs.Tasks.{HasEnded, stand};
ghost use Rattle.sp_living.specs.Hands.{task_of};
ghost use Rattle.sp_state.specs.Hands.{has_lent};
ghost use Rattle.sp_state.specs.Spaces.{IsAtRest, IsSpace};
ghost use Rattle.sp_tasks.specs.Behaviours.{outcome_of};
ghost use Rattle.sp_tasks.specs.Lent.{LendsNoMore};

use crate::{BoxedState, let_go};
use sp_outputs::Output;
use sp_requests::CallClasses;
use sp_tasks::{LentTask, Outcome};
use std::alloc::AllocError;

/// The state after the task ended in it too. There is none at out of memory.
pub fn finish_too<C: CallClasses>(
    last: BoxedState,
    classes: &C,
    task: &LentTask,
    fuel: u64,
    outcome: Outcome,
) -> Option<BoxedState>
    requires { has_lent last task.now ≡ true }
    ensures finished { IfSome result (λ space. (g : Setting) (s : State) → IsSpace g s last → IsAtRest s → C.tells classes.now g.classes → stand (task_of g task.now) ≡ HasEnded (outcome_of outcome) → fuel ≡ (task_of g task.now).fuel → IsSpace g (after_event g (Finished task.now.id task.now.made) s).0 space) }
    ensures lent { IfSome result (λ space. LendsNoMore task.now.id last.living.tasks space.living.tasks) }
{
    let mut last = last;
    match finish_in(&mut last, classes, task, fuel, outcome) {
        Ok(_) => Some(last),
        Err(_) => {
            let_go(last);
            None
        }
    }
}

/// Lets a task go that a state lends and that ended so, with this fuel left, and ends the event. What fails is to
/// be let go.
pub fn finish_in<C: CallClasses>(
    space: &mut BoxedState,
    classes: &C,
    task: &LentTask,
    fuel: u64,
    outcome: Outcome,
) -> Result<Vec<Output>, AllocError>
    requires { has_lent space.old task.now ≡ true }
    ensures outputs { IfOk result (λ outputs. (g : Setting) (s : State) → IsSpace g s space.old → IsAtRest s → C.tells classes.now g.classes → stand (task_of g task.now) ≡ HasEnded (outcome_of outcome) → fuel ≡ (task_of g task.now).fuel → map output_of outputs.items ≡ (after_event g (Finished task.now.id task.now.made) s).1) }
    ensures state { OnOk result ((g : Setting) (s : State) → IsSpace g s space.old → IsAtRest s → C.tells classes.now g.classes → stand (task_of g task.now) ≡ HasEnded (outcome_of outcome) → fuel ≡ (task_of g task.now).fuel → IsSpace g (after_event g (Finished task.now.id task.now.made) s).0 space.new) }
    ensures lent { OnOk result (LendsNoMore task.now.id space.old.living.tasks space.new.living.tasks) }
{
    let state = &mut *space.state;
    state.finish_task(classes, task, fuel, outcome)?;
    state.conclude()
}
