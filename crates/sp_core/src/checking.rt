//! Why events of lent tasks are refused.

ghost use Rattle.std.specs.Prelude.{◌≡◌, ◌&&◌, ℕ, List, None, Some, false, true, IfErr, IfOk, OnOk, option_and_then, option_map};
ghost use Rattle.sp_requests.specs.ClassSets.{kind_of};
ghost use Rattle.sp_events.specs.FaultNames.{Refuses, core_fault_number};
ghost use Rattle.sp_living.specs.Hands.{StandsAt};
ghost use Rattle.sp_rules.specs.Behaviours.{Op as Asked};
ghost use Rattle.sp_rules.specs.Classes.{Setting, field_kind, fits_kind};
ghost use Rattle.sp_rules.specs.Events.{Committed};
ghost use Rattle.sp_rules.specs.References.{references_in};
ghost use Rattle.sp_rules.specs.Refusals.{fits_call, fits_store, refusal, refusal_number, result_of, stands_at};
ghost use Rattle.sp_rules.specs.State.{State, object_at};
ghost use Rattle.sp_state.specs.LetIn.{MayCommit};
ghost use Rattle.sp_tasks.specs.Behaviours.{op_of, outcome_of, stand_of};
ghost use Rattle.sp_tasks.specs.Rows.{TaskRow, row_holds, row_holds_op, row_of};
ghost use Rattle.sp_rules.specs.Tasks.{AsksFor, HasEnded};
ghost use Rattle.sp_core.specs.Hands.{committed, finished, is_on_store, parked};

use crate::{LentTask, SpaceCore};
use sp_events::CoreFault;
use sp_requests::{CallClasses, ClassSet, FieldKind};
use sp_tasks::{Op, Outcome, Stand};
use space_ids::{ObjId, Value};

impl SpaceCore {
    ghost use Rattle.sp_core.specs.Cores.{IsCore, Lends, lends, lent_as};

    // Why an operation, a call or an end of a task is refused that is not lent.
    pub(crate) fn refuse_unlent(&self, task: &LentTask) -> CoreFault
        requires { lends self.now task.now.task ≡ false }
        ensures committed { (g : Setting) (s : State) (lent : List ℕ) (op : Asked) → IsCore g s self.now → Lends self.now lent → Refuses (refusal g (lent_as s task.now.task lent) s (Committed task.now.task.id task.now.task.made op)) result }
        ensures parked { (g : Setting) (s : State) (lent : List ℕ) → IsCore g s self.now → Lends self.now lent → Refuses (refusal g (lent_as s task.now.task lent) s (parked task.now.task)) result }
        ensures finished { (g : Setting) (s : State) (lent : List ℕ) → IsCore g s self.now → Lends self.now lent → Refuses (refusal g (lent_as s task.now.task lent) s (finished task.now.task)) result }
    {
        if self.is_worn() {
            CoreFault::WornOut
        } else {
            CoreFault::NotLent
        }
    }

    // Why the operation on the store of a lent task is refused, if it is: the reason with the lowest number, but
    // 98 first.
    pub(crate) fn refuse_commit<C: ClassSet>(
        &self,
        classes: &C,
        task: &LentTask,
        stand: &Stand,
        op: &Op,
    ) -> Option<CoreFault>
        requires { lends self.now task.now.task ≡ true }
        ensures may { result ≡ None → (g : Setting) (s : State) → IsCore g s self.now → C.tells classes.now g.classes → MayCommit g s (op_of op.now) }
        ensures refused { (g : Setting) (s : State) (lent : List ℕ) → IsCore g s self.now → Lends self.now lent → C.tells classes.now g.classes → StandsAt g task.now.task stand.now → option_map refusal_number (refusal g (lent_as s task.now.task lent) s (committed task.now.task op.now)) ≡ option_and_then core_fault_number result }
    {
        if self.is_worn() {
            return Some(CoreFault::WornOut);
        }
        if !self.holds_op(task, op) {
            return Some(CoreFault::NotHeld);
        }
        if !self.fits_at(classes, stand, op) {
            return Some(CoreFault::WrongKind);
        }
        None
    }

    // The call for which a lent task asks, or why it is refused.
    pub(crate) fn refuse_park<'a, C: CallClasses>(
        &self,
        classes: &C,
        task: &LentTask,
        stand: &'a Stand,
    ) -> Result<&'a Op, CoreFault>
        requires { lends self.now task.now.task ≡ true }
        ensures asks { IfOk result (λ op. stand_of stand.now ≡ AsksFor (op_of op.now)) }
        ensures call { IfOk result (λ op. is_on_store (op_of op.now) ≡ false) }
        ensures accepted { OnOk result ((g : Setting) (s : State) (lent : List ℕ) → IsCore g s self.now → Lends self.now lent → C.tells classes.now g.classes → StandsAt g task.now.task stand.now → refusal g (lent_as s task.now.task lent) s (parked task.now.task) ≡ None) }
        ensures refused { IfErr result (λ fault. (g : Setting) (s : State) (lent : List ℕ) → IsCore g s self.now → Lends self.now lent → C.tells classes.now g.classes → StandsAt g task.now.task stand.now → option_map refusal_number (refusal g (lent_as s task.now.task lent) s (parked task.now.task)) ≡ core_fault_number fault) }
    {
        if self.is_worn() {
            return Err(CoreFault::WornOut);
        }
        match stand {
            Stand::AsksFor(op) => {
                if !self.holds_op(task, op) {
                    return Err(CoreFault::NotHeld);
                }
                if !self.fits_call(classes, op) {
                    return Err(CoreFault::WrongKind);
                }
                Ok(op)
            }
            _ => Err(CoreFault::WrongKind),
        }
    }

    // How a lent task ended, or why it is refused.
    pub(crate) fn refuse_finish<'a>(
        &self,
        task: &LentTask,
        stand: &'a Stand,
    ) -> Result<&'a Outcome, CoreFault>
        requires { lends self.now task.now.task ≡ true }
        ensures ended { IfOk result (λ outcome. stand_of stand.now ≡ HasEnded (outcome_of outcome.now)) }
        ensures accepted { OnOk result ((g : Setting) (s : State) (lent : List ℕ) → IsCore g s self.now → Lends self.now lent → StandsAt g task.now.task stand.now → refusal g (lent_as s task.now.task lent) s (finished task.now.task) ≡ None) }
        ensures refused { IfErr result (λ fault. (g : Setting) (s : State) (lent : List ℕ) → IsCore g s self.now → Lends self.now lent → StandsAt g task.now.task stand.now → option_map refusal_number (refusal g (lent_as s task.now.task lent) s (finished task.now.task)) ≡ core_fault_number fault) }
    {
        if self.is_worn() {
            return Err(CoreFault::WornOut);
        }
        match stand {
            Stand::HasEnded(outcome) => {
                if self.holds_result_of(task, outcome) {
                    Ok(outcome)
                } else {
                    Err(CoreFault::NotHeld)
                }
            }
            _ => Err(CoreFault::WrongKind),
        }
    }

    // Whether the operation on the store fits, and is the one at which the task stands.
    fn fits_at<C: ClassSet>(&self, classes: &C, stand: &Stand, op: &Op) -> bool
        ensures { (g : Setting) (s : State) → IsCore g s self.now → C.tells classes.now g.classes → result ≡ (fits_store g s (op_of op.now) && stands_at (op_of op.now) (Some (stand_of stand.now))) }
    {
        self.fits_store(classes, op) && stand.is_at(op)
    }

    // Whether the operation is one on the store, and its class, field and value fit.
    fn fits_store<C: ClassSet>(&self, classes: &C, op: &Op) -> bool
        ensures { (g : Setting) (s : State) → IsCore g s self.now → C.tells classes.now g.classes → result ≡ fits_store g s (op_of op.now) }
    {
        match op {
            Op::Create(class) => classes.is_remote(*class),
            Op::Get { object, slot } => self.kind_at(classes, *object, *slot).is_some(),
            Op::Put {
                object,
                slot,
                value,
            } => match self.kind_at(classes, *object, *slot) {
                Some(kind) => fits(kind, value),
                None => false,
            },
            Op::Call { .. } => false,
        }
    }

    // The kind of a field of a standing object, if there are both.
    fn kind_at<C: ClassSet>(&self, classes: &C, object: ObjId, slot: usize) -> Option<FieldKind>
        ensures { (g : Setting) (s : State) → IsCore g s self.now → C.tells classes.now g.classes → option_map kind_of result ≡ option_and_then (λ o. field_kind g.classes o.class slot) (object_at s object) }
    {
        match self.state.owner().class_of(object) {
            Some(class) => classes.field_kind(class, slot),
            None => None,
        }
    }

    // Whether the operation is a call of an object of another space, with arguments that fit.
    fn fits_call<C: CallClasses>(&self, classes: &C, op: &Op) -> bool
        ensures fits { (g : Setting) (s : State) → IsCore g s self.now → C.tells classes.now g.classes → result ≡ fits_call g (op_of op.now) }
        ensures call { result ≡ true → is_on_store (op_of op.now) ≡ false }
    {
        match op {
            Op::Call {
                target,
                method,
                arguments,
            } => target.space != self.id && classes.takes(*method, arguments.as_slice()),
            Op::Create(_) | Op::Get { .. } | Op::Put { .. } => false,
        }
    }

    // Whether the task in hand holds what it asks for.
    fn holds_op(&self, task: &LentTask, op: &Op) -> bool
        ensures { (row : TaskRow) → row_of task.now.task.id self.now.state.living.tasks.rows ≡ Some row → result ≡ row_holds_op self.now.id row (op_of op.now) }
    {
        let tasks = self.state.living().tasks();
        tasks.holds_op(&self.id, task.id(), op)
    }

    // Whether the task in hand holds the reference that it returns, if it returns one.
    fn holds_result_of(&self, task: &LentTask, outcome: &Outcome) -> bool
        ensures { (row : TaskRow) → row_of task.now.task.id self.now.state.living.tasks.rows ≡ Some row → result ≡ row_holds row (references_in (result_of (outcome_of outcome.now))) }
    {
        self.state.living().tasks().holds_result(task.id(), outcome)
    }
}

fn fits(kind: FieldKind, value: &Value) -> bool
    ensures { result ≡ fits_kind (kind_of kind) value.now }
{
    match (kind, value) {
        (FieldKind::Int, Value::Int(_)) => true,
        (FieldKind::Reference, Value::Null | Value::Ref(_)) => true,
        _ => false,
    }
}
