//! Operations on the store, for which lent tasks ask.

ghost use Rattle.std.specs.Prelude.{◌≡◌, ◌∷◌, ℕ, List, [], true, false, None, Some, IfOk, IfErr, OnOk, OnErr};
ghost use Rattle.sp_events.specs.FaultNames.{Refuses};
ghost use Rattle.sp_living.specs.Hands.{StandsAt};
ghost use Rattle.sp_rules.specs.Classes.{Setting};
ghost use Rattle.sp_rules.specs.Events.{Event as Happening};
ghost use Rattle.sp_rules.specs.LivingTasks.{op_reply};
ghost use Rattle.sp_rules.specs.Origins.{IsTaken, OwnStand};
ghost use Rattle.sp_rules.specs.Refusals.{refusal};
ghost use Rattle.sp_rules.specs.Space.{on as after_event, state_of};
ghost use Rattle.sp_rules.specs.State.{State};
ghost use Rattle.sp_state.specs.LetIn.{MayCommit};
ghost use Rattle.sp_tasks.specs.Behaviours.{op_of, reply_of};
ghost use Rattle.sp_tasks.specs.Rows.{replied_hand};
ghost use Rattle.sp_core.specs.Hands.{IsSecond, committed, fits};

use crate::{LentTask, SpaceCore};
use sp_changes::{BoxedState, commit_in, commit_too, let_go};
use sp_events::CoreFault;
use sp_requests::CallClasses;
use sp_tasks::{LentTask as TaskInHand, Op, Reply, Stand};
use std::alloc::AllocError;
use std::mem;

impl SpaceCore {
    ghost use Rattle.sp_core.specs.Cores.{IsCore, Lends, has_lent, is_lent, lends, lent_as};

    /// Does the operation on the store at which the machine of a lent task stands, and returns twice the reply
    /// that completes the instruction: a new remote instance, or OutOfMemoryError if no more may stand; what was
    /// last put into a field, else 0 or null; nothing for a value that is put. The task's record gains the
    /// reply, and the task holds the reference in it. Refused or out of memory, nothing changes; the refusal
    /// with the lowest number counts, but 98 before all others. Calls are refused, and so is an operation at
    /// which the task does not stand.
    pub fn commit<C: CallClasses>(
        &mut self,
        classes: &C,
        task: &mut LentTask,
        stand: &Stand,
        op: &Op,
    ) -> Result<(Reply, Reply), CoreFault>
        ensures accepted { OnOk result ((g : Setting) (s : State) (lent : List ℕ) → IsCore g s self.old → Lends self.old lent → C.tells classes.now g.classes → StandsAt g task.old.task stand.now → refusal g (lent_as s task.old.task lent) s (committed task.old.task op.now) ≡ None) }
        ensures reply { IfOk result (λ reply. (g : Setting) (s : State) → IsCore g s self.old → C.tells classes.now g.classes → reply_of reply.0 ≡ op_reply g (op_of op.now) s) }
        ensures twice { IfOk result (λ reply. reply_of reply.1 ≡ reply_of reply.0) }
        ensures outputs { (g : Setting) (s : State) → (after_event g (committed task.old.task op.now) s).1 ≡ [] }
        ensures state { OnOk result ((g : Setting) (s : State) → IsCore g s self.old → C.tells classes.now g.classes → IsCore g (after_event g (committed task.old.task op.now) s).0 self.new) }
        ensures task { IfOk result (λ reply. (g : Setting) (s : State) → IsCore g s self.old → task.new.task ≡ replied_hand (reply_of reply.0) task.old.task) }
        ensures lent { (g : Setting) (s : State) → IsCore g s self.old → (id : ℕ) → is_lent self.new id ≡ is_lent self.old id }
        ensures refused { IfErr result (λ fault. (g : Setting) (s : State) (lent : List ℕ) → IsCore g s self.old → Lends self.old lent → C.tells classes.now g.classes → StandsAt g task.old.task stand.now → Refuses (refusal g (lent_as s task.old.task lent) s (committed task.old.task op.now)) fault) }
        ensures unchanged { OnErr result ((g : Setting) (s : State) → IsCore g s self.old → IsCore g s self.new) }
        ensures kept { OnErr result (task.new.task ≡ task.old.task) }

        // Own references name standing objects of their class after each history that the space took.
        ensures standing { OnOk result ((g : Setting) (h : List Happening) (lent : List ℕ) → IsCore g (state_of g h) self.old → Lends self.old lent → C.tells classes.now g.classes → StandsAt g task.old.task stand.now → IsTaken g h → OwnStand g (state_of g (committed task.old.task op.now ∷ h))) }
    {
        if !self.lends(task) {
            return Err(self.refuse_unlent(task));
        }
        self.keep_twin(task);
        self.commit_lent(classes, task, stand, op)
    }

    /// Does the operation of a task of which the caller knows that this core lends it, as `commit` does, at
    /// a cost that does not depend on the task's record.
    pub fn commit_lent<C: CallClasses>(
        &mut self,
        classes: &C,
        task: &mut LentTask,
        stand: &Stand,
        op: &Op,
    ) -> Result<(Reply, Reply), CoreFault>
        requires { has_lent self.old task.old ≡ true }
        ensures accepted { OnOk result ((g : Setting) (s : State) (lent : List ℕ) → IsCore g s self.old → Lends self.old lent → C.tells classes.now g.classes → StandsAt g task.old.task stand.now → refusal g (lent_as s task.old.task lent) s (committed task.old.task op.now) ≡ None) }
        ensures reply { IfOk result (λ reply. (g : Setting) (s : State) → IsCore g s self.old → C.tells classes.now g.classes → reply_of reply.0 ≡ op_reply g (op_of op.now) s) }
        ensures twice { IfOk result (λ reply. reply_of reply.1 ≡ reply_of reply.0) }
        ensures outputs { (g : Setting) (s : State) → (after_event g (committed task.old.task op.now) s).1 ≡ [] }
        ensures state { OnOk result ((g : Setting) (s : State) → IsCore g s self.old → C.tells classes.now g.classes → IsCore g (after_event g (committed task.old.task op.now) s).0 self.new) }
        ensures task { IfOk result (λ reply. (g : Setting) (s : State) → IsCore g s self.old → task.new.task ≡ replied_hand (reply_of reply.0) task.old.task) }
        ensures lent { (g : Setting) (s : State) → IsCore g s self.old → (id : ℕ) → is_lent self.new id ≡ is_lent self.old id }
        ensures own { has_lent self.new task.new ≡ true }
        ensures refused { IfErr result (λ fault. (g : Setting) (s : State) (lent : List ℕ) → IsCore g s self.old → Lends self.old lent → C.tells classes.now g.classes → StandsAt g task.old.task stand.now → Refuses (refusal g (lent_as s task.old.task lent) s (committed task.old.task op.now)) fault) }
        ensures unchanged { OnErr result ((g : Setting) (s : State) → IsCore g s self.old → IsCore g s self.new) }
        ensures kept { OnErr result (task.new.task ≡ task.old.task) }

        // Own references name standing objects of their class after each history that the space took.
        ensures standing { OnOk result ((g : Setting) (h : List Happening) (lent : List ℕ) → IsCore g (state_of g h) self.old → Lends self.old lent → C.tells classes.now g.classes → StandsAt g task.old.task stand.now → IsTaken g h → OwnStand g (state_of g (committed task.old.task op.now ∷ h))) }
    {
        match self.refuse_commit(classes, task, stand, op) {
            Some(fault) => Err(fault),
            None => Ok(self.perform(classes, task, op)?),
        }
    }

    // Does the operation, which is not refused, and answers the reply twice.
    fn perform<C: CallClasses>(
        &mut self,
        classes: &C,
        task: &mut LentTask,
        op: &Op,
    ) -> Result<(Reply, Reply), AllocError>
        requires { has_lent self.old task.old ≡ true }
        ensures reply { IfOk result (λ reply. (g : Setting) (s : State) → IsCore g s self.old → C.tells classes.now g.classes → MayCommit g s (op_of op.now) → reply_of reply.0 ≡ op_reply g (op_of op.now) s) }
        ensures twice { IfOk result (λ reply. reply_of reply.1 ≡ reply_of reply.0) }
        ensures state { OnOk result ((g : Setting) (s : State) → IsCore g s self.old → C.tells classes.now g.classes → MayCommit g s (op_of op.now) → IsCore g (after_event g (committed task.old.task op.now) s).0 self.new) }
        ensures task { IfOk result (λ reply. (g : Setting) (s : State) → IsCore g s self.old → task.new.task ≡ replied_hand (reply_of reply.0) task.old.task) }
        ensures lent { (g : Setting) (s : State) → IsCore g s self.old → (id : ℕ) → is_lent self.new id ≡ is_lent self.old id }
        ensures own { has_lent self.new task.new ≡ true }
        ensures unchanged { OnErr result ((g : Setting) (s : State) → IsCore g s self.old → IsCore g s self.new) }
        ensures kept { OnErr result (task.new.task ≡ task.old.task) }
    {
        let (mut next, mut twin) = self.take_second(&task.task, task.twin.take())?;
        let Ok(replies) = commit_in(self.alloc, &mut next, classes, &mut twin, op) else {
            let_go(next);
            return Err(AllocError);
        };
        let last = mem::replace(&mut self.state, next);
        let mut hand = mem::replace(&mut task.task, twin);
        let spare = commit_too(last, classes, &mut hand, op);
        task.twin = Some(hand);
        self.put_spare(spare);
        Ok(replies)
    }

    // Takes the second state out, with the twin of a lent task that it lends. If one of the two is not there, both
    // are made anew, from the first state and the task.
    pub(crate) fn take_second(
        &mut self,
        hand: &TaskInHand,
        twin: Option<TaskInHand>,
    ) -> Result<(BoxedState, TaskInHand), AllocError>
        requires lent { lends self.old hand.now ≡ true }
        requires fits { fits self.old.spare hand.now twin ≡ true }
        ensures own { IfOk result (λ second. fits (Some second.0) hand.now (Some second.1) ≡ true) }
        ensures state { IfOk result (λ second. (g : Setting) (s : State) → IsCore g s self.old → IsSecond g s self.old.state second.0) }
        ensures core { self.new ≡ record self.old { spare = None } }
    {
        match self.spare.take().zip(twin) {
            Some(second) => Ok(second),
            None => self.copy_for(hand),
        }
    }

    // A copy of the first state, and of a task that it lends.
    fn copy_for(&self, hand: &TaskInHand) -> Result<(BoxedState, TaskInHand), AllocError>
        requires { lends self.now hand.now ≡ true }
        ensures own { IfOk result (λ second. fits (Some second.0) hand.now (Some second.1) ≡ true) }
        ensures state { IfOk result (λ second. (g : Setting) (s : State) → IsCore g s self.now → IsSecond g s self.now.state second.0) }
    {
        let twin = hand.copy(self.alloc)?;
        let space = self.state.copy(self.alloc)?;
        Ok((space, twin))
    }
}
