//! Tasks that start and end.

ghost use Rattle.std.specs.Prelude.{◌≡◌, ◌+◌, ℕ, IfOk, OnOk, option_map};
ghost use Rattle.sp_rules.specs.Classes.{Setting};
ghost use Rattle.sp_rules.specs.LivingTasks.{add_task};
ghost use Rattle.sp_rules.specs.State.{Living as Task, State, task_at};
ghost use Rattle.sp_tasks.specs.Behaviours.{origin_of};
ghost use Rattle.sp_tasks.specs.Lent.{KeepsLent, LendsNoMore};
ghost use Rattle.sp_living.specs.Steps.{with_task, without_task};

use crate::Living;
use sp_outputs::Output;
use sp_tasks::{NewTask, Origin};
use space_ids::Value;
use std::alloc::AllocError;

// The last id that a task may have. A space whose next id would be that is worn out, and takes no event (98).
const LAST_ID: u64 = 1 << 63;

impl Living {
    ghost use Rattle.sp_living.specs.Livings.{IsLiving};

    /// Starts a task at a method, under the next id, which it returns: a root's, or that of a call that
    /// came. It holds the references among its arguments, each once; it stands after all others, and is not
    /// lent.
    pub fn start(
        &mut self,
        origin: Origin,
        method: u32,
        arguments: &[Value],
        fuel: u64,
    ) -> Result<u64, AllocError>
        ensures id { IfOk result (λ id. (g : Setting) (s : State) → IsLiving g s self.old → id ≡ s.tasks_made + 1) }
        ensures lent { OnOk result (KeepsLent self.old.tasks self.new.tasks) }
        ensures started { OnOk result ((g : Setting) (s : State) → IsLiving g s self.old → IsLiving g (add_task g (origin_of origin) method arguments.now fuel s) self.new) }
    {
        let id = self.enter(origin, method, arguments, fuel)?;
        let held = self.held(id)?;
        self.say(Output::Started(id))?;
        self.hold(&held)?;
        self.say(Output::Ready(id))?;
        Ok(id)
    }

    // Starts a task under the next id, which it returns, and answers nothing. What it holds is not held yet.
    fn enter(
        &mut self,
        origin: Origin,
        method: u32,
        arguments: &[Value],
        fuel: u64,
    ) -> Result<u64, AllocError>
        ensures id { IfOk result (λ id. (g : Setting) (s : State) → IsLiving g s self.old → id ≡ s.tasks_made + 1) }
        ensures lent { OnOk result (KeepsLent self.old.tasks self.new.tasks) }
        ensures entered { OnOk result ((g : Setting) (s : State) → IsLiving g s self.old → IsLiving g (with_task g (origin_of origin) method arguments.now fuel s) self.new) }
    {
        if self.tasks.made() >= LAST_ID {
            return Err(AllocError);
        }
        let new = NewTask::new(self.alloc, origin, method, arguments, fuel)?;
        self.tasks.reserve(1)?;
        Ok(self.tasks.start_reserved(new))
    }

    /// Lets a living task go. Returns how it came, if it lives. What it holds has its holders still, and
    /// nothing is answered. It takes no memory.
    pub fn take_task(&mut self, id: u64) -> Option<Origin>
        ensures origin { (g : Setting) (s : State) → IsLiving g s self.old → option_map origin_of result ≡ option_map (λ (t : Task). t.origin) (task_at s id) }
        ensures lent { LendsNoMore id self.old.tasks self.new.tasks }
        ensures left { (g : Setting) (s : State) (retired : ℕ) → IsLiving g s self.old → IsLiving g (without_task id retired s) self.new }
    {
        let origin = self.tasks.origin(id);
        self.tasks.end(id);
        origin
    }
}
