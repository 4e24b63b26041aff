//! A state behind a pointer.

ghost use Rattle.std.specs.Prelude.{◌≡◌, IfErr, IfNone, IfOk, IfSome, OnOk, map, true};
ghost use Rattle.sp_events.specs.Events.{event_of, event_of_root};
ghost use Rattle.sp_outputs.specs.Notes.{output_of};
ghost use Rattle.sp_rules.specs.Classes.{Setting};
ghost use Rattle.sp_rules.specs.LivingTasks.{give_back};
ghost use Rattle.sp_rules.specs.Space.{on};
ghost use Rattle.sp_rules.specs.State.{State};
ghost use Rattle.sp_tasks.specs.Lent.{KeepsLent, LendsNoMore, LendsToo};
ghost use Rattle.sp_tasks.specs.Rows.{at_row, back_row, lent_row};

use boxed_value::Boxed;
use sp_events::{Event, Root};
use sp_living::Living;
use sp_outputs::Output;
use sp_owner::Owner;
use sp_requests::CallClasses;
use sp_state::SpaceState;
use sp_tasks::LentTask;
use std::alloc::{AllocError, Global};
use std::marker::Model;

/// A state behind a pointer: a core hands its states on by value, and this one is moved as eight bytes. A contract
/// sees it as the state, whose calls it has.
#[derive(Drop)]
pub struct BoxedState {
    pub(crate) state: Boxed<SpaceState>,
}

impl Model for BoxedState {
    ghost use Rattle.std.specs.Prelude.{◌≡◌};
    ghost use Rattle.sp_state.specs.contracts.space_state.SpaceState.{the_row};
    ghost use Rattle.sp_state.specs.declared.space_state.SpaceState.{SpaceState};

    ghost Value = { SpaceState };

    ghost coded = { the_row.coded };

    ghost view = { λ boxed. boxed.state };
}

impl BoxedState {
    ghost use Rattle.sp_living.specs.Livings.{IsLiving};
    ghost use Rattle.sp_owner.specs.Owners.{IsOwner};
    ghost use Rattle.sp_state.specs.Hands.{hand_at, has_lent};
    ghost use Rattle.sp_state.specs.LetIn.{IsLetIn};
    ghost use Rattle.sp_state.specs.Spaces.{IsAtRest, IsSpace};

    /// Puts a state behind a pointer. At `AllocError` the state is let go.
    pub fn new(alloc: Global, state: SpaceState) -> Result<BoxedState, AllocError>
        ensures { IfOk result (λ boxed. boxed ≡ state) }
    {
        Ok(BoxedState {
            state: Boxed::new(alloc, state)?,
        })
    }

    /// The same, between events, as `SpaceState::copy` makes it.
    pub fn copy(&self, alloc: Global) -> Result<BoxedState, AllocError>
        ensures stands { IfOk result (λ copy. (g : Setting) (s : State) → IsSpace g s self.now → IsAtRest s → IsSpace g s copy) }
        ensures rows { IfOk result (λ copy. copy.living.tasks.rows ≡ self.now.living.tasks.rows) }
    {
        let copy = self.state().copy()?;
        BoxedState::new(alloc, copy)
    }

    /// The state.
    pub fn state(&self) -> &SpaceState
        ensures { result.now ≡ self.now }
    {
        &self.state
    }

    /// What the space keeps for others.
    pub fn owner(&self) -> &Owner
        ensures { (g : Setting) (s : State) → IsSpace g s self.now → IsOwner g s result.now }
    {
        self.state.owner()
    }

    /// What lives in the space.
    pub fn living(&self) -> &Living
        ensures is { result.now ≡ self.now.living }
        ensures stands { (g : Setting) (s : State) → IsSpace g s self.now → IsLiving g s result.now }
    {
        self.state.living()
    }

    /// Takes an event that comes from outside, as `SpaceState::on` does.
    pub fn on<C: CallClasses>(
        &mut self,
        classes: &C,
        event: Event,
    ) -> Result<Vec<Output>, AllocError>
        ensures lent { OnOk result (KeepsLent self.old.living.tasks self.new.living.tasks) }
        ensures outputs { IfOk result (λ outputs. (g : Setting) (s : State) → IsSpace g s self.old → IsAtRest s → C.tells classes.now g.classes → IsLetIn g s (event_of event) → map output_of outputs.items ≡ (on g (event_of event) s).1) }
        ensures happened { OnOk result ((g : Setting) (s : State) → IsSpace g s self.old → IsAtRest s → C.tells classes.now g.classes → IsLetIn g s (event_of event) → IsSpace g (on g (event_of event) s).0 self.new) }
    {
        self.state.on(classes, event)
    }

    /// Starts a root, as `SpaceState::on_root` does.
    pub fn on_root(&mut self, root: &Root) -> Result<Vec<Output>, AllocError>
        ensures lent { OnOk result (KeepsLent self.old.living.tasks self.new.living.tasks) }
        ensures outputs { IfOk result (λ outputs. (g : Setting) (s : State) → IsSpace g s self.old → IsAtRest s → map output_of outputs.items ≡ (on g (event_of_root root.now) s).1) }
        ensures happened { OnOk result ((g : Setting) (s : State) → IsSpace g s self.old → IsAtRest s → IsSpace g (on g (event_of_root root.now) s).0 self.new) }
    {
        self.state.on_root(root)
    }

    /// Lends a task, as `SpaceState::lend` does.
    pub fn lend(&mut self, id: u64) -> Option<LentTask>
        ensures task { result ≡ hand_at id self.old }
        ensures rows { self.new.living.tasks.rows ≡ at_row id lent_row self.old.living.tasks.rows }
        ensures lent { IfSome result (λ _. LendsToo id self.old.living.tasks self.new.living.tasks) }
        ensures unlent { IfNone result (KeepsLent self.old.living.tasks self.new.living.tasks) }
        ensures own { IfSome result (λ hand. has_lent self.new hand ≡ true) }
        ensures same { (g : Setting) (s : State) → IsSpace g s self.old → IsSpace g s self.new }
    {
        self.state.lend(id)
    }

    /// Takes a lent task back, as `SpaceState::give_back` does.
    pub fn give_back(&mut self, task: LentTask)
        requires { has_lent self.old task ≡ true }
        ensures rows { self.new.living.tasks.rows ≡ at_row task.id (back_row task.made) self.old.living.tasks.rows }
        ensures lent { LendsNoMore task.id self.old.living.tasks self.new.living.tasks }
        ensures back { (g : Setting) (s : State) → IsSpace g s self.old → IsSpace g (give_back task.id task.made s) self.new }
    {
        self.state.give_back(task);
    }
}
