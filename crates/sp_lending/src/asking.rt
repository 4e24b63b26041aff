//! What lent tasks ask their space for, and their ends.

ghost use Rattle.std.specs.Prelude.{◌≡◌, IfErr, IfOk, OnErr, OnOk, map};
ghost use Rattle.sp_lender.specs.Hands.{IsHistorys, committed, finished, parked};
ghost use Rattle.sp_lending.specs.Hands.{IsTask};
ghost use Rattle.sp_lending.specs.Spaces.{AreOf, IsSpace};
ghost use Rattle.sp_outputs.specs.Notes.{output_of};
ghost use Rattle.sp_rules.specs.Classes.{Setting};
ghost use Rattle.sp_rules.specs.LivingTasks.{op_reply};
ghost use Rattle.sp_rules.specs.Space.{on as after_event};
ghost use Rattle.sp_rules.specs.State.{State, ready_at};
ghost use Rattle.sp_tasks.specs.Behaviours.{op_of, reply_of};
ghost use Rattle.sp_tasks.specs.Rows.{replied_hand};

use crate::parts::Parts;
use crate::rest::Rest;
use crate::task_parts::{TaskParts, fuel_of};
use sp_events::CoreFault;
use sp_outputs::Output;
use sp_tasks::{Op, Reply};

impl<'p> Parts<'p> {
    /// Does the operation on the store at which a lent task stands, and gives the task the reply, which its machine
    /// takes as it runs next.
    pub(crate) fn commit(
        &mut self,
        task: &mut TaskParts<'p>,
        op: &Op,
    ) -> Result<(Reply, Reply), CoreFault>
        ensures twice { IfOk result (λ replies. reply_of replies.1 ≡ reply_of replies.0) }
        ensures reply { IfOk result (λ replies. (g : Setting) (s : State) → IsSpace g s self.old → reply_of replies.0 ≡ op_reply g (op_of op.now) s) }
        ensures state { OnOk result ((g : Setting) (s : State) → IsSpace g s self.old → IsTask g task.old → IsSpace g (after_event g (committed task.old.hand.task op.now) s).0 self.new) }
        ensures task { IfOk result (λ replies. (g : Setting) (s : State) → IsSpace g s self.old → task.new.hand.task ≡ replied_hand (reply_of replies.0) task.old.hand.task) }
        ensures historys { OnOk result ((g : Setting) (s : State) → IsSpace g s self.old → IsTask g task.old → IsHistorys (ready_at s task.old.hand.task.id) task.old.hand.task) }
        ensures of { (g : Setting) (s : State) → IsSpace g s self.old → IsTask g task.old → IsTask g task.new }
        ensures unchanged { OnErr result ((g : Setting) (s : State) → IsSpace g s self.old → IsSpace g s self.new) }
        ensures kept { OnErr result (task.new.hand.task ≡ task.old.hand.task) }
    {
        let Some(at) = task.stand.take() else {
            return Err(CoreFault::WrongKind);
        };
        match self.core.commit(self.classes, &mut task.hand, &at, op) {
            Ok(replies) => Ok(replies),
            Err(fault) => {
                task.put_stand(Some(at));
                Err(fault)
            }
        }
    }

    /// Lets a lent task wait for the reply to the call at which it stands. Its machine waits in the space.
    pub(crate) fn park(
        &mut self,
        task: TaskParts<'p>,
    ) -> Result<Vec<Output>, (TaskParts<'p>, CoreFault)>
        requires known { AreOf self.old task }
        ensures outputs { IfOk result (λ outputs. (g : Setting) (s : State) → IsSpace g s self.old → IsTask g task.entry → map output_of outputs.items ≡ (after_event g (parked task.entry.hand.task) s).1) }
        ensures state { OnOk result ((g : Setting) (s : State) → IsSpace g s self.old → IsTask g task.entry → IsSpace g (after_event g (parked task.entry.hand.task) s).0 self.new) }
        ensures historys { OnOk result ((g : Setting) (s : State) → IsSpace g s self.old → IsTask g task.entry → IsHistorys (ready_at s task.entry.hand.task.id) task.entry.hand.task) }
        ensures kept { IfErr result (λ back. back.0.hand.task ≡ task.entry.hand.task) }
        ensures of { IfErr result (λ back. (g : Setting) → IsTask g task.entry → IsTask g back.0) }
        ensures unchanged { OnErr result ((g : Setting) (s : State) → IsSpace g s self.old → IsSpace g s self.new) }
    {
        let TaskParts {
            home,
            hand,
            player,
            stand,
        } = task;
        let Some(at) = stand else {
            let task = TaskParts {
                home,
                hand,
                player,
                stand: None,
            };
            return Err((task, CoreFault::WrongKind));
        };
        let id = hand.id();
        let fuel = fuel_of(&player);
        match self.core.park(self.classes, hand, &at, fuel) {
            Ok(outputs) => {
                self.rows.restore(id, player);
                Ok(outputs)
            }
            Err((hand, fault)) => {
                let task = TaskParts {
                    home,
                    hand,
                    player,
                    stand: Some(at),
                };
                Err((task, fault))
            }
        }
    }

    /// Lets a lent task go that has ended, and its row, and answers what is left of the task.
    pub(crate) fn finish(
        &mut self,
        task: TaskParts<'p>,
    ) -> Result<(Vec<Output>, Rest<'p>), (TaskParts<'p>, CoreFault)>
        ensures outputs { IfOk result (λ ended. (g : Setting) (s : State) → IsSpace g s self.old → IsTask g task.entry → map output_of ended.0.items ≡ (after_event g (finished task.entry.hand.task) s).1) }
        ensures state { OnOk result ((g : Setting) (s : State) → IsSpace g s self.old → IsTask g task.entry → IsSpace g (after_event g (finished task.entry.hand.task) s).0 self.new) }
        ensures historys { OnOk result ((g : Setting) (s : State) → IsSpace g s self.old → IsTask g task.entry → IsHistorys (ready_at s task.entry.hand.task.id) task.entry.hand.task) }
        ensures kept { IfErr result (λ back. back.0.hand.task ≡ task.entry.hand.task) }
        ensures of { IfErr result (λ back. (g : Setting) → IsTask g task.entry → IsTask g back.0) }
        ensures unchanged { OnErr result ((g : Setting) (s : State) → IsSpace g s self.old → IsSpace g s self.new) }
    {
        let TaskParts {
            home,
            hand,
            player,
            stand,
        } = task;
        let Some(at) = stand else {
            let task = TaskParts {
                home,
                hand,
                player,
                stand: None,
            };
            return Err((task, CoreFault::WrongKind));
        };
        let id = hand.id();
        let fuel = fuel_of(&player);
        match self.core.finish(self.classes, hand, &at, fuel) {
            Ok(outputs) => {
                self.rows.remove(id);
                Ok((outputs, Rest::new(player)))
            }
            Err((hand, fault)) => {
                let task = TaskParts {
                    home,
                    hand,
                    player,
                    stand: Some(at),
                };
                Err((task, fault))
            }
        }
    }
}
