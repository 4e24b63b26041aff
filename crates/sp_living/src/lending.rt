//! Tasks that are lent: while one is, its instructions are made outside the space.

ghost use Rattle.std.specs.Prelude.{◌≡◌, ℕ, Some, IfErr, IfNone, IfSome, OnErr, OnOk, true};
ghost use Rattle.sp_rules.specs.Classes.{Classes, Setting};
ghost use Rattle.sp_rules.specs.LivingTasks.{give_back, park_call};
ghost use Rattle.sp_rules.specs.State.{State};
ghost use Rattle.sp_rules.specs.Behaviours.{Call as Calls};
ghost use Rattle.sp_rules.specs.Tasks.{AsksFor, lent, stand};
ghost use Rattle.sp_tasks.specs.Behaviours.{reply_of};
ghost use Rattle.sp_tasks.specs.Lent.{KeepsLent, LendsNoMore, LendsToo};
ghost use Rattle.sp_tasks.specs.Rows.{at_row, back_row, hand_of, lent_row, replied_hand, row_of};
ghost use Rattle.sp_living.specs.Steps.{give_reply};

use crate::Living;
use net_message::Message;
use sp_requests::{Asked, CallClasses};
use sp_tasks::{LentTask, Reply, copy_reply};
use space_ids::{Ref, Row, Value};
use std::alloc::AllocError;

// The last number that a call may have. A space whose next number would be that is worn out, and takes no
// event (98).
const LAST_CALL: u64 = 1 << 63;

impl Living {
    ghost use Rattle.sp_living.specs.Hands.{has_lent, task_of};
    ghost use Rattle.sp_living.specs.Livings.{IsLiving};

    /// Lends a task that may go on, with its record, if it is not lent. It takes no memory.
    pub fn lend(&mut self, id: u64) -> Option<LentTask>
        ensures task { result ≡ hand_of id (row_of id self.old.tasks.rows) }
        ensures rows { self.new.tasks.rows ≡ at_row id lent_row self.old.tasks.rows }
        ensures lent { IfSome result (λ _. LendsToo id self.old.tasks self.new.tasks) }
        ensures unlent { IfNone result (KeepsLent self.old.tasks self.new.tasks) }
        ensures own { IfSome result (λ hand. has_lent self.new hand ≡ true) }
        ensures same { (g : Setting) (s : State) → IsLiving g s self.old → IsLiving g s self.new }
    {
        self.tasks.lend(id)
    }

    /// Takes a lent task back: it may go on, and can be lent again. It takes no memory.
    pub fn give_back(&mut self, task: LentTask)
        requires { has_lent self.old task ≡ true }
        ensures rows { self.new.tasks.rows ≡ at_row task.id (back_row task.made) self.old.tasks.rows }
        ensures lent { LendsNoMore task.id self.old.tasks self.new.tasks }
        ensures back { (g : Setting) (s : State) → IsLiving g s self.old → IsLiving g (give_back task.id task.made s) self.new }
    {
        self.tasks.give_back(task);
    }

    /// Gives a lent task the reply to its operation on the store: it is entered into its record, and the task
    /// holds the reference in it too. At out of memory the task is unchanged.
    pub fn give_reply(&mut self, task: &mut LentTask, reply: &Reply) -> Result<(), AllocError>
        requires { has_lent self.old task.old ≡ true }
        ensures given { OnOk result ((g : Setting) (s : State) → IsLiving g s self.old → IsLiving g (give_reply g task.old.id task.old.made (reply_of reply.now) s) self.new) }
        ensures lent { OnOk result (KeepsLent self.old.tasks self.new.tasks) }
        ensures task { OnOk result (task.new ≡ replied_hand (reply_of reply.now) task.old) }
        ensures own { OnOk result (has_lent self.new task.new ≡ true) }
        ensures kept { OnErr result (task.new ≡ task.old) }
    {
        let gained = self.gained(task.id(), reply);
        let entered = copy_reply(self.alloc, reply)?;
        let copy = copy_reply(self.alloc, reply)?;
        self.hold_found(gained)?;
        self.tasks.reply(task, entered, copy)
    }

    /// Lets a lent task wait for the reply to the call for which it asks, and to which it lends this fuel.
    /// The event asks the peer as it ends. At out of memory the task is handed back.
    pub fn park_call<C: CallClasses>(
        &mut self,
        classes: &C,
        task: LentTask,
        target: Ref,
        method: u32,
        arguments: Row<Value>,
        fuel: u64,
    ) -> Result<(), LentTask>
        requires { has_lent self.old task ≡ true }
        ensures parked { OnOk result ((g : Setting) (s : State) → IsLiving g s self.old → C.tells classes.now g.classes → stand (task_of g task) ≡ AsksFor (Calls target method arguments) → fuel ≡ lent (task_of g task) → IsLiving g (park_call g task.id task.made s) self.new) }
        ensures lent { OnOk result (LendsNoMore task.id self.old.tasks self.new.tasks) }
        ensures back { IfErr result (λ back. back ≡ task) }
    {
        let mut task = task;
        let number = self.transport.calls_made();
        if number >= LAST_CALL {
            return Err(task);
        }
        match self.tasks.reserve_answer(&mut task) {
            Ok(()) => {}
            Err(_) => return Err(task),
        }
        let asked = Asked::Call {
            number: number + 1,
            task: task.id(),
            lent: fuel,
            kind: classes.result_kind(method),
            message: Message::Call {
                number: number + 1,
                object: target.id,
                method,
                fuel,
                arguments,
            },
        };
        self.tasks.park(task);
        self.transport.make_call(&target.space, asked);
        Ok(())
    }
}
