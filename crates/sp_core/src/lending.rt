//! Tasks that are lent: while one is, its instructions are made outside the core.

ghost use Rattle.std.specs.Prelude.{◌≡◌, ◌==◌, ◌&&◌, ◌||◌, not, true, false, ℕ, List, [], ◌∷◌, None, Some, OnOk, IfErr, IfSome, IfNone, is_some};
ghost use Rattle.std.specs.List.{list_any};
ghost use Rattle.sp_events.specs.FaultNames.{Refuses};
ghost use Rattle.sp_rules.specs.Classes.{Setting};
ghost use Rattle.sp_rules.specs.Events.{Event as Happening};
ghost use Rattle.sp_rules.specs.LivingTasks.{give_back};
ghost use Rattle.sp_rules.specs.Origins.{IsTaken, OwnStand};
ghost use Rattle.sp_rules.specs.Refusals.{refusal};
ghost use Rattle.sp_rules.specs.Space.{on as after_event, state_of};
ghost use Rattle.sp_rules.specs.State.{State, ready_at};
ghost use Rattle.sp_state.specs.Hands as state;
ghost use Rattle.sp_state.specs.declared.space_state.SpaceState.{SpaceState};
ghost use Rattle.sp_tasks.specs.Lent.{LendsNoMore};
ghost use Rattle.sp_core.specs.Hands.{IsLentToo, IsSecond, fits, given_back};

use crate::{LentTask, SpaceCore};
use sp_changes::{BoxedState, let_go};
use sp_events::CoreFault;
use sp_tasks::LentTask as TaskInHand;

impl SpaceCore {
    ghost use Rattle.sp_core.specs.Cores.{IsCore, Lends, has_lent, is_historys, is_lent, lends, lent_as};

    /// Lends a task that may go on, with its record, if it is not lent. It takes no memory.
    pub fn lend(&mut self, task: u64) -> Option<LentTask>
        ensures lent { (g : Setting) (s : State) (lent : List ℕ) → IsCore g s self.old → Lends self.old lent → is_some result ≡ (is_some (ready_at s task) && not (list_any (◌==◌ task) lent)) }
        ensures hand { IfSome result (λ hand. (g : Setting) (s : State) → IsCore g s self.old → is_historys (ready_at s task) hand.task ≡ true) }
        ensures task { IfSome result (λ hand. (hand.task.id ≡ task) × (hand.task.made ≡ 0)) }
        ensures own { IfSome result (λ hand. has_lent self.new hand ≡ true) }
        ensures state { (g : Setting) (s : State) → IsCore g s self.old → IsCore g s self.new }
        ensures others { IfSome result (λ hand. (other : ℕ) → is_lent self.new other ≡ (other == task || is_lent self.old other)) }
        ensures unchanged { IfNone result ((other : ℕ) → is_lent self.new other ≡ is_lent self.old other) }
    {
        let Some(hand) = self.state.lend(task) else {
            return None;
        };
        let twin = self.lend_twin(task);
        Some(LentTask { task: hand, twin })
    }

    // The twin of a task, which the second state lends, if there are both.
    fn lend_twin(&mut self, task: u64) -> Option<TaskInHand>
        ensures core { self.new ≡ record self.old { spare = self.new.spare } }
        ensures lent { IsLentToo task self.old.spare self.new.spare result }
        ensures own { IfSome result (λ twin. IfSome self.new.spare (λ spare. state.has_lent spare twin ≡ true)) }
        ensures twin { IfSome result (λ twin. (twin.id ≡ task) × (twin.made ≡ 0)) }
    {
        let Some(mut spare) = self.spare.take() else {
            return None;
        };
        let twin = spare.lend(task);
        self.put_spare(Some(spare));
        twin
    }

    /// Takes a lent task back, however many instructions it made of its own: it may go on, and can be lent
    /// again. A refused task is handed back, and changes nothing. It takes no memory.
    pub fn give_back(&mut self, task: LentTask) -> Result<(), (LentTask, CoreFault)>
        ensures accepted { OnOk result ((g : Setting) (s : State) (lent : List ℕ) → IsCore g s self.old → Lends self.old lent → refusal g (lent_as s task.task lent) s (given_back task.task) ≡ None) }
        ensures outputs { (g : Setting) (s : State) → (after_event g (given_back task.task) s).1 ≡ [] }
        ensures state { OnOk result ((g : Setting) (s : State) → IsCore g s self.old → IsCore g (after_event g (given_back task.task) s).0 self.new) }
        ensures others { OnOk result ((other : ℕ) → is_lent self.new other ≡ (not (other == task.task.id) && is_lent self.old other)) }
        ensures refused { IfErr result (λ back. (g : Setting) (s : State) (lent : List ℕ) → IsCore g s self.old → Lends self.old lent → Refuses (refusal g (lent_as s task.task lent) s (given_back task.task)) back.1) }
        ensures fault { IfErr result (λ back. back.1 ≡ CoreFault.NotLent) }
        ensures task { IfErr result (λ back. back.0 ≡ task) }
        ensures unchanged { IfErr result (λ _. self.new ≡ self.old) }

        // Own references name standing objects of their class after each history that the space took.
        ensures standing { OnOk result ((g : Setting) (h : List Happening) (lent : List ℕ) → IsCore g (state_of g h) self.old → Lends self.old lent → IsTaken g h → OwnStand g (state_of g (given_back task.task ∷ h))) }
    {
        if !self.lends(&task) {
            return Err((task, CoreFault::NotLent));
        }
        let mut task = task;
        self.keep_twin(&mut task);
        self.take_back(task);
        Ok(())
    }

    /// Takes back a task of which the caller knows that this core lends it, as `give_back` does, at a cost
    /// that does not depend on its record.
    pub fn take_back(&mut self, task: LentTask)
        requires { has_lent self.old task ≡ true }
        ensures accepted { (g : Setting) (s : State) (lent : List ℕ) → IsCore g s self.old → Lends self.old lent → refusal g (lent_as s task.task lent) s (given_back task.task) ≡ None }
        ensures outputs { (g : Setting) (s : State) → (after_event g (given_back task.task) s).1 ≡ [] }
        ensures state { (g : Setting) (s : State) → IsCore g s self.old → IsCore g (after_event g (given_back task.task) s).0 self.new }
        ensures others { (other : ℕ) → is_lent self.new other ≡ (not (other == task.task.id) && is_lent self.old other) }

        // Own references name standing objects of their class after each history that the space took.
        ensures standing { (g : Setting) (h : List Happening) (lent : List ℕ) → IsCore g (state_of g h) self.old → Lends self.old lent → IsTaken g h → OwnStand g (state_of g (given_back task.task ∷ h)) }
    {
        let LentTask { task, twin } = task;
        let spare = take_twin_back(&task, self.spare.take(), twin);
        self.state.give_back(task);
        self.put_spare(spare);
    }

    /// Whether the task in hand is the one that this core lends under its id. It compares their records,
    /// so it costs what they have grown to.
    pub fn has_lent(&self, task: &LentTask) -> bool
        ensures { result ≡ has_lent self.now task.now }
    {
        self.lends(task) && self.fits(task)
    }

    // Whether the task in hand is the one that the first state lends under its id.
    pub(crate) fn lends(&self, task: &LentTask) -> bool
        ensures { result ≡ lends self.now task.now.task }
    {
        self.state.living().tasks().is_lent_as(&task.task)
    }

    // Whether its twin is the one that the second state lends, if there are both.
    fn fits(&self, task: &LentTask) -> bool
        ensures { result ≡ fits self.now.spare task.now.task task.now.twin }
    {
        match &self.spare {
            Some(spare) => lends_twin(spare, task),
            None => true,
        }
    }

    // Lets the twin of a task go that the second state does not lend.
    pub(crate) fn keep_twin(&self, task: &mut LentTask)
        ensures task { task.new.task ≡ task.old.task }
        ensures fits { fits self.now.spare task.new.task task.new.twin ≡ true }
    {
        if !self.fits(task) {
            task.twin = None;
        }
    }
}

// Whether the second state lends the twin of a task, if it has one.
fn lends_twin(spare: &BoxedState, task: &LentTask) -> bool
    ensures { result ≡ fits (Some spare.now) task.now.task task.now.twin }
{
    match &task.twin {
        Some(twin) => is_twin(spare, &task.task, twin),
        None => true,
    }
}

// Whether a task is lent by the second state, and equal to the one that the first lends.
fn is_twin(spare: &BoxedState, task: &TaskInHand, twin: &TaskInHand) -> bool
    ensures { result ≡ fits (Some spare.now) task.now (Some twin.now) }
{
    (twin.id() == task.id() && twin.made() == task.made())
        && spare.living().tasks().is_lent_as(twin)
}

// The second state after the twin of a task came back to it. Without a twin it is let go.
fn take_twin_back(
    task: &TaskInHand,
    spare: Option<BoxedState>,
    twin: Option<TaskInHand>,
) -> Option<BoxedState>
    requires { fits spare task.now twin ≡ true }
    ensures { IfSome result (λ new. (g : Setting) (s : State) (first now : SpaceState) → IfSome spare (IsSecond g s first) → LendsNoMore task.now.id first.living.tasks now.living.tasks → IsSecond g (give_back task.now.id task.now.made s) now new) }
{
    let Some(mut spare) = spare else {
        return None;
    };
    let Some(twin) = twin else {
        let_go(spare);
        return None;
    };
    spare.give_back(twin);
    Some(spare)
}
