//! Tasks that are lent: while one is, its instructions are made outside the space.

ghost use Rattle.std.specs.Prelude.{◌≡◌, IfErr, IfNone, IfSome, OnOk, true};
ghost use Rattle.sp_rules.specs.Behaviours.{Call as Calls};
ghost use Rattle.sp_rules.specs.Classes.{Setting};
ghost use Rattle.sp_rules.specs.LivingTasks.{finish_task, give_back, park_call};
ghost use Rattle.sp_rules.specs.State.{State};
ghost use Rattle.sp_rules.specs.Tasks.{AsksFor, HasEnded, lent, stand};
ghost use Rattle.sp_tasks.specs.Behaviours.{outcome_of};
ghost use Rattle.sp_tasks.specs.Rows.{at_row, back_row, lent_row};
ghost use Rattle.sp_living.specs.Hands.{task_of};
ghost use Rattle.sp_tasks.specs.Lent.{KeepsLent, LendsNoMore, LendsToo};

use crate::SpaceState;
use sp_requests::CallClasses;
use sp_tasks::{LentTask, Outcome};
use space_ids::{Ref, Row, Value};
use std::alloc::AllocError;

impl SpaceState {
    ghost use Rattle.sp_state.specs.Hands.{hand_at, has_lent};
    ghost use Rattle.sp_state.specs.Spaces.{IsSpace};

    /// Lends a task that may go on, with its record, if it is not lent. It takes no memory.
    pub fn lend(&mut self, id: u64) -> Option<LentTask>
        ensures task { result ≡ hand_at id self.old }
        ensures rows { self.new.living.tasks.rows ≡ at_row id lent_row self.old.living.tasks.rows }
        ensures lent { IfSome result (λ _. LendsToo id self.old.living.tasks self.new.living.tasks) }
        ensures unlent { IfNone result (KeepsLent self.old.living.tasks self.new.living.tasks) }
        ensures own { IfSome result (λ hand. has_lent self.new hand ≡ true) }
        ensures same { (g : Setting) (s : State) → IsSpace g s self.old → IsSpace g s self.new }
    {
        self.living.lend(id)
    }

    /// Takes a lent task back: it may go on, and can be lent again. It takes no memory.
    pub fn give_back(&mut self, task: LentTask)
        requires { has_lent self.old task ≡ true }
        ensures rows { self.new.living.tasks.rows ≡ at_row task.id (back_row task.made) self.old.living.tasks.rows }
        ensures lent { LendsNoMore task.id self.old.living.tasks self.new.living.tasks }
        ensures back { (g : Setting) (s : State) → IsSpace g s self.old → IsSpace g (give_back task.id task.made s) self.new }
    {
        self.living.give_back(task);
    }

    /// Lets a lent task wait for the reply to the call for which it asks, and to which it lends this fuel.
    /// The event asks the peer as it ends. At out of memory the task is handed back.
    pub fn park_call<C: CallClasses>(
        &mut self,
        classes: &C,
        task: LentTask,
        target: Ref,
        method: u32,
        arguments: Row<Value>,
        fuel: u64,
    ) -> Result<(), LentTask>
        requires { has_lent self.old task ≡ true }
        ensures parked { OnOk result ((g : Setting) (s : State) → IsSpace g s self.old → C.tells classes.now g.classes → stand (task_of g task) ≡ AsksFor (Calls target method arguments) → fuel ≡ lent (task_of g task) → IsSpace g (park_call g task.id task.made s) self.new) }
        ensures lent { OnOk result (LendsNoMore task.id self.old.living.tasks self.new.living.tasks) }
        ensures back { IfErr result (λ back. back ≡ task) }
    {
        self.living
            .park_call(classes, task, target, method, arguments, fuel)
    }

    /// Lets a lent task go that has ended so, with this fuel left.
    pub fn finish_task<C: CallClasses>(
        &mut self,
        classes: &C,
        task: &LentTask,
        fuel: u64,
        outcome: Outcome,
    ) -> Result<(), AllocError>
        requires { has_lent self.old task.now ≡ true }
        ensures finished { OnOk result ((g : Setting) (s : State) → IsSpace g s self.old → C.tells classes.now g.classes → stand (task_of g task.now) ≡ HasEnded (outcome_of outcome) → fuel ≡ (task_of g task.now).fuel → IsSpace g (finish_task g task.now.id task.now.made s) self.new) }
        ensures lent { OnOk result (LendsNoMore task.now.id self.old.living.tasks self.new.living.tasks) }
    {
        sp_endings::finish_task(self.alloc, &mut self.living, classes, task, fuel, outcome)
    }
}
