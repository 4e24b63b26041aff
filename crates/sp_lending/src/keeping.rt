//! What a space does with a task that it lends and keeps in its own hands: as what others ask of it, at a cost
//! that does not depend on the task's record.

ghost use Rattle.std.specs.Prelude.{◌≡◌, [], true, IfErr, IfOk, OnErr, OnOk, map};
ghost use Rattle.sp_core.specs.Cores.{has_lent};
ghost use Rattle.sp_lender.specs.Hands.{committed, finished, given_back, parked};
ghost use Rattle.sp_lending.specs.Hands.{IsTask};
ghost use Rattle.sp_lending.specs.Spaces.{AreOf, IsSpace};
ghost use Rattle.sp_outputs.specs.Notes.{output_of};
ghost use Rattle.sp_rules.specs.Classes.{Setting};
ghost use Rattle.sp_rules.specs.Space.{on as after_event};
ghost use Rattle.sp_rules.specs.State.{State};

use crate::parts::Parts;
use crate::rest::Rest;
use crate::task_parts::{TaskParts, fuel_of};
use sp_events::CoreFault;
use sp_outputs::Output;
use sp_tasks::Op;

impl<'p> Parts<'p> {
    /// Does the operation on the store at which a task stands that this space lends, as `commit` does.
    pub(crate) fn commit_own(&mut self, task: &mut TaskParts<'p>, op: &Op) -> Result<(), CoreFault>
        requires own { has_lent self.old.core task.old.hand ≡ true }
        ensures own { has_lent self.new.core task.new.hand ≡ true }
        ensures state { OnOk result ((g : Setting) (s : State) → IsSpace g s self.old → IsTask g task.old → IsSpace g (after_event g (committed task.old.hand.task op.now) s).0 self.new) }
        ensures id { (g : Setting) (s : State) → IsSpace g s self.old → task.new.hand.task.id ≡ task.old.hand.task.id }
        ensures of { (g : Setting) (s : State) → IsSpace g s self.old → IsTask g task.old → IsTask g task.new }
        ensures unchanged { OnErr result ((g : Setting) (s : State) → IsSpace g s self.old → IsSpace g s self.new) }
    {
        let Some(at) = task.stand.take() else {
            return Err(CoreFault::WrongKind);
        };
        match self.core.commit_lent(self.classes, &mut task.hand, &at, op) {
            Ok(_replies) => Ok(()),
            Err(fault) => {
                task.put_stand(Some(at));
                Err(fault)
            }
        }
    }

    /// Lets a task that this space lends wait for the reply to the call at which it stands, as `park` does.
    pub(crate) fn park_own(
        &mut self,
        task: TaskParts<'p>,
    ) -> Result<Vec<Output>, (TaskParts<'p>, CoreFault)>
        requires own { has_lent self.old.core task.hand ≡ true }
        requires known { AreOf self.old task }
        ensures outputs { IfOk result (λ outputs. (g : Setting) (s : State) → IsSpace g s self.old → IsTask g task.entry → map output_of outputs.items ≡ (after_event g (parked task.entry.hand.task) s).1) }
        ensures state { OnOk result ((g : Setting) (s : State) → IsSpace g s self.old → IsTask g task.entry → IsSpace g (after_event g (parked task.entry.hand.task) s).0 self.new) }
        ensures own { IfErr result (λ back. has_lent self.new.core back.0.hand ≡ true) }
        ensures kept { IfErr result (λ back. back.0.hand.task ≡ task.entry.hand.task) }
        ensures of { IfErr result (λ back. (g : Setting) → IsTask g task.entry → IsTask g back.0) }
        ensures unchanged { OnErr result ((g : Setting) (s : State) → IsSpace g s self.old → IsSpace g s self.new) }
    {
        let TaskParts {
            home,
            hand,
            player,
            stand,
        } = task;
        let Some(at) = stand else {
            let task = TaskParts {
                home,
                hand,
                player,
                stand: None,
            };
            return Err((task, CoreFault::WrongKind));
        };
        let id = hand.id();
        let fuel = fuel_of(&player);
        match self.core.park_lent(self.classes, hand, &at, fuel) {
            Ok(outputs) => {
                self.rows.restore(id, player);
                Ok(outputs)
            }
            Err((hand, fault)) => {
                let task = TaskParts {
                    home,
                    hand,
                    player,
                    stand: Some(at),
                };
                Err((task, fault))
            }
        }
    }

    /// Lets a task go that this space lends and that has ended, and its row, as `finish` does.
    pub(crate) fn finish_own(
        &mut self,
        task: TaskParts<'p>,
    ) -> Result<(Vec<Output>, Rest<'p>), (TaskParts<'p>, CoreFault)>
        requires own { has_lent self.old.core task.hand ≡ true }
        ensures outputs { IfOk result (λ ended. (g : Setting) (s : State) → IsSpace g s self.old → IsTask g task.entry → map output_of ended.0.items ≡ (after_event g (finished task.entry.hand.task) s).1) }
        ensures state { OnOk result ((g : Setting) (s : State) → IsSpace g s self.old → IsTask g task.entry → IsSpace g (after_event g (finished task.entry.hand.task) s).0 self.new) }
        ensures own { IfErr result (λ back. has_lent self.new.core back.0.hand ≡ true) }
        ensures kept { IfErr result (λ back. back.0.hand.task ≡ task.entry.hand.task) }
        ensures of { IfErr result (λ back. (g : Setting) → IsTask g task.entry → IsTask g back.0) }
        ensures unchanged { OnErr result ((g : Setting) (s : State) → IsSpace g s self.old → IsSpace g s self.new) }
    {
        let TaskParts {
            home,
            hand,
            player,
            stand,
        } = task;
        let Some(at) = stand else {
            let task = TaskParts {
                home,
                hand,
                player,
                stand: None,
            };
            return Err((task, CoreFault::WrongKind));
        };
        let id = hand.id();
        let fuel = fuel_of(&player);
        match self.core.finish_lent(self.classes, hand, &at, fuel) {
            Ok(outputs) => {
                self.rows.remove(id);
                Ok((outputs, Rest::new(player)))
            }
            Err((hand, fault)) => {
                let task = TaskParts {
                    home,
                    hand,
                    player,
                    stand: Some(at),
                };
                Err((task, fault))
            }
        }
    }

    /// Takes a task back that this space lends, and its machine, as `give_back` does. It takes no memory.
    pub(crate) fn take_back(&mut self, task: TaskParts<'p>)
        requires own { has_lent self.old.core task.hand ≡ true }
        requires known { AreOf self.old task }
        ensures outputs { (g : Setting) (s : State) → (after_event g (given_back task.entry.hand.task) s).1 ≡ [] }
        ensures state { (g : Setting) (s : State) → IsSpace g s self.old → IsTask g task.entry → IsSpace g (after_event g (given_back task.entry.hand.task) s).0 self.new }
    {
        let TaskParts {
            home: _,
            hand,
            player,
            stand: _,
        } = task;
        let id = hand.id();
        self.core.take_back(hand);
        self.rows.restore(id, player);
    }
}
