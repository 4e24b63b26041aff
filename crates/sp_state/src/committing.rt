//! Operations on the store, for which lent tasks ask (Java RMI specification, 2.4 on remote objects).

ghost use Rattle.std.specs.Prelude.{◌≡◌, ◌<◌, ◌^◌, true, IfOk, OnErr, OnOk};
ghost use Rattle.sp_rules.specs.Behaviours.{Create, Put};
ghost use Rattle.sp_rules.specs.Classes.{Setting};
ghost use Rattle.sp_rules.specs.Holders.{drop, hold};
ghost use Rattle.sp_rules.specs.LivingTasks.{after_op, commit, op_reply, value_at};
ghost use Rattle.sp_rules.specs.References.{reference_of};
ghost use Rattle.sp_rules.specs.Refusals.{has_field};
ghost use Rattle.sp_rules.specs.State.{State, object_at};
ghost use Rattle.sp_tasks.specs.Behaviours.{op_of, reply_of};
ghost use Rattle.sp_tasks.specs.Rows.{replied_hand};
ghost use Rattle.sp_tasks.specs.Lent.{KeepsLent};

use crate::SpaceState;
use sp_requests::CallClasses;
use sp_tasks::{LentTask, Op, Reply, copy_value};
use space_ids::{ClassId, ObjId, Ref, Value};
use std::alloc::AllocError;

impl SpaceState {
    ghost use Rattle.sp_state.specs.Hands.{has_lent};
    ghost use Rattle.sp_state.specs.LetIn.{MayCommit};
    ghost use Rattle.sp_state.specs.Spaces.{IsSpace};

    /// Does the operation on the store for which a lent task asks, and returns the reply: a new remote instance,
    /// or OutOfMemoryError if no more may stand; what was last put into a field, else 0 or null; nothing for a
    /// value that is put. The task's record gains the reply, and the task holds the reference in it. At out of
    /// memory the task is unchanged. A core refuses an operation that does not fit (93): nothing is done then.
    pub fn commit<C: CallClasses>(
        &mut self,
        classes: &C,
        task: &mut LentTask,
        op: &Op,
    ) -> Result<Reply, AllocError>
        requires { has_lent self.old task.old ≡ true }
        ensures reply { IfOk result (λ reply. (g : Setting) (s : State) → IsSpace g s self.old → C.tells classes.now g.classes → MayCommit g s (op_of op.now) → reply_of reply ≡ op_reply g (op_of op.now) s) }
        ensures committed { OnOk result ((g : Setting) (s : State) → IsSpace g s self.old → C.tells classes.now g.classes → MayCommit g s (op_of op.now) → IsSpace g (commit g task.old.id task.old.made (op_of op.now) s) self.new) }
        ensures lent { OnOk result (KeepsLent self.old.living.tasks self.new.living.tasks) }
        ensures task { IfOk result (λ reply. task.new ≡ replied_hand (reply_of reply) task.old) }
        ensures own { OnOk result (has_lent self.new task.new ≡ true) }
        ensures kept { OnErr result (task.new ≡ task.old) }
    {
        let reply = self.perform(classes, op)?;
        self.living.give_reply(task, &reply)?;
        Ok(reply)
    }

    // Does an operation on the store, and returns the reply to it.
    fn perform<C: CallClasses>(&mut self, classes: &C, op: &Op) -> Result<Reply, AllocError>
        ensures tasks { self.new.living.tasks ≡ self.old.living.tasks }
        ensures reply { IfOk result (λ reply. (g : Setting) (s : State) → IsSpace g s self.old → C.tells classes.now g.classes → MayCommit g s (op_of op.now) → reply_of reply ≡ op_reply g (op_of op.now) s) }
        ensures performed { OnOk result ((g : Setting) (s : State) → IsSpace g s self.old → C.tells classes.now g.classes → MayCommit g s (op_of op.now) → IsSpace g (after_op g (op_of op.now) s) self.new) }
    {
        match op {
            Op::Create(class) => self.create(classes, *class),
            Op::Get { object, slot } => Ok(Reply::Gives(self.get(*object, *slot)?)),
            Op::Put {
                object,
                slot,
                value,
            } => {
                self.put(*object, *slot, value)?;
                Ok(Reply::Gives(None))
            }
            Op::Call { .. } => Ok(Reply::RunsOut),
        }
    }

    // Makes a remote instance, if one more may stand.
    fn create<C: CallClasses>(&mut self, classes: &C, class: ClassId) -> Result<Reply, AllocError>
        ensures tasks { self.new.living.tasks ≡ self.old.living.tasks }
        ensures reply { IfOk result (λ reply. (g : Setting) (s : State) → IsSpace g s self.old → C.tells classes.now g.classes → s.objects_made < 2 ^ 63 → reply_of reply ≡ op_reply g (Create class) s) }
        ensures made { OnOk result ((g : Setting) (s : State) → IsSpace g s self.old → C.tells classes.now g.classes → s.objects_made < 2 ^ 63 → IsSpace g (after_op g (Create class) s) self.new) }
    {
        match self.owner.create(classes, class)? {
            Some(id) => Ok(Reply::Gives(Some(Value::Ref(Ref {
                space: self.id,
                id,
                class,
            })))),
            None => Ok(Reply::Throws(classes.out_of_memory())),
        }
    }

    // What a field of a standing object holds, if there are both.
    fn get(&self, object: ObjId, slot: usize) -> Result<Option<Value>, AllocError>
        ensures { IfOk result (λ value. (g : Setting) (s : State) → IsSpace g s self.now → has_field g (object_at s object) slot ≡ true → value ≡ value_at g s object slot (object_at s object)) }
    {
        match self.owner.get_field(object, slot) {
            Some(value) => Ok(Some(copy_value(self.alloc, value)?)),
            None => Ok(None),
        }
    }

    // Puts a value into a field of a standing object, if there are both. The field holds the reference in it,
    // and lets go the one that it had.
    fn put(&mut self, object: ObjId, slot: usize, value: &Value) -> Result<(), AllocError>
        ensures tasks { self.new.living.tasks ≡ self.old.living.tasks }
        ensures put { OnOk result ((g : Setting) (s : State) → IsSpace g s self.old → has_field g (object_at s object) slot ≡ true → IsSpace g (after_op g (Put object slot value.now) s) self.new) }
    {
        let written = copy_value(self.alloc, value)?;
        match self.owner.put_field(object, slot, written) {
            Some(had) => {
                self.hold_value(value)?;
                self.drop_value(&had);
                Ok(())
            }
            None => Ok(()),
        }
    }

    // Adds a holder of the reference that a value is, if it is a foreign one.
    fn hold_value(&mut self, value: &Value) -> Result<(), AllocError>
        ensures tasks { self.new.living.tasks ≡ self.old.living.tasks }
        ensures held { OnOk result ((g : Setting) (s : State) → IsSpace g s self.old → IsSpace g (hold g (reference_of value.now) s) self.new) }
    {
        match value {
            Value::Ref(reference) => self.living.hold(&[*reference]),
            _ => Ok(()),
        }
    }

    // Takes a holder of the reference that a value is away, if it is a foreign one.
    fn drop_value(&mut self, value: &Value)
        ensures tasks { self.new.living.tasks ≡ self.old.living.tasks }
        ensures dropped { (g : Setting) (s : State) → IsSpace g s self.old → IsSpace g (drop g (reference_of value.now) s) self.new }
    {
        if let Value::Ref(reference) = value {
            self.living.drop_holders(&[*reference]);
        }
    }
}
