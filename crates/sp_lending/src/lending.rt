//! Tasks that a space lends and takes back.

ghost use Rattle.std.specs.Prelude.{◌≡◌, true, IfErr, IfSome, OnErr, OnOk};
ghost use Rattle.sp_core.specs.Cores.{has_lent};
ghost use Rattle.sp_events.specs.declared.fault.CoreFault.TheVariants.{NotLent};
ghost use Rattle.sp_lender.specs.Hands.{IsHistorys, given_back};
ghost use Rattle.sp_lending.specs.Hands.{IsTask};
ghost use Rattle.sp_lending.specs.Spaces.{IsIn, IsSpace};
ghost use Rattle.sp_rules.specs.Classes.{Setting};
ghost use Rattle.sp_rules.specs.Space.{on as after_event};
ghost use Rattle.sp_rules.specs.State.{State, ready_at};

use crate::home::Home;
use crate::parts::Parts;
use crate::task_parts::TaskParts;
use sp_events::CoreFault;
use std::alloc::AllocError;

impl<'p> Parts<'p> {
    /// Makes room for the row of one more task that is out.
    pub(crate) fn reserve(&mut self) -> Result<(), AllocError>
        ensures { (g : Setting) (s : State) → IsSpace g s self.old → IsSpace g s self.new }
    {
        self.rows.reserve()
    }

    /// Lends a task that may go on, with its record and its machine, if it is not lent. A task without a machine
    /// gets one without the space.
    pub(crate) fn lend(&mut self, task: u64) -> Option<TaskParts<'p>>
        ensures id { IfSome result (λ lent. lent.hand.task.id ≡ task) }
        ensures made { IfSome result (λ lent. lent.hand.task.made ≡ 0) }
        ensures of { IfSome result (λ lent. (g : Setting) (s : State) → IsSpace g s self.old → IsTask g lent) }
        ensures historys { IfSome result (λ lent. (g : Setting) (s : State) → IsSpace g s self.old → IsHistorys (ready_at s task) lent.hand.task) }
        ensures own { IfSome result (λ lent. has_lent self.new.core lent.hand ≡ true) }
        ensures state { (g : Setting) (s : State) → IsSpace g s self.old → IsSpace g s self.new }
    {
        if self.rows.is_out(task) {
            return None;
        }
        if self.rows.reserve().is_err() {
            return None;
        }
        let Some(hand) = self.core.lend(task) else {
            return None;
        };
        let player = self.rows.take(task);
        Some(TaskParts {
            home: Home {
                alloc: self.home.alloc,
                id: self.home.id,
                limits: self.home.limits,
                program: self.home.program,
            },
            hand,
            player,
            stand: None,
        })
    }

    /// Takes a lent task back, and its machine. It takes no memory.
    pub(crate) fn give_back(
        &mut self,
        task: TaskParts<'p>,
    ) -> Result<(), (TaskParts<'p>, CoreFault)>
        requires known { IsIn self.old }
        ensures state { OnOk result ((g : Setting) (s : State) → IsSpace g s self.old → IsTask g task.entry → IsSpace g (after_event g (given_back task.entry.hand.task) s).0 self.new) }
        ensures historys { OnOk result ((g : Setting) (s : State) → IsSpace g s self.old → IsHistorys (ready_at s task.entry.hand.task.id) task.entry.hand.task) }
        ensures fault { IfErr result (λ back. back.1 ≡ NotLent) }
        ensures task { IfErr result (λ back. back.0 ≡ task.entry) }
        ensures unchanged { OnErr result ((g : Setting) (s : State) → IsSpace g s self.old → IsSpace g s self.new) }
    {
        let TaskParts {
            home,
            hand,
            player,
            stand,
        } = task;
        let id = hand.id();
        match self.core.give_back(hand) {
            Ok(()) => {
                self.rows.restore(id, player);
                Ok(())
            }
            Err((hand, fault)) => Err((
                TaskParts {
                    home,
                    hand,
                    player,
                    stand,
                },
                fault,
            )),
        }
    }
}
