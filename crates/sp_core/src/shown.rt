//! What a core shows of its objects and its tasks.

ghost use Rattle.std.specs.Prelude.{◌≡◌, ℕ, List, is_some, option_map, slice_get};
ghost use Rattle.sp_rules.specs.Classes.{Setting};
ghost use Rattle.sp_rules.specs.State.{State, ready_at, standing};
ghost use Rattle.sp_core.specs.Shown.{lowest_ready, shown, shown_of};

use crate::SpaceCore;
use space_ids::{ClassId, ObjId};

/// What a core shows of a standing object: its id and class, how many names are bound to it, and how many
/// clients have an entry.
#[derive(Drop)]
pub struct Shown {
    pub id: ObjId,
    pub class: ClassId,
    pub names: usize,
    pub entries: usize,
}

impl SpaceCore {
    ghost use Rattle.sp_core.specs.Cores.{IsCore, Lends};

    /// The standing object at an index, in the order of ids.
    pub fn object(&self, index: usize) -> Option<Shown>
        ensures { (g : Setting) (s : State) → IsCore g s self.now → option_map shown_of result ≡ option_map (shown s) (slice_get (standing s.store) index) }
    {
        let owner = self.state.owner();
        let Some((id, class)) = owner.object(index) else {
            return None;
        };
        Some(Shown {
            id,
            class,
            names: owner.names_of(id),
            entries: owner.entries_of(id),
        })
    }

    /// How many tasks and lookups started: the last id that was given, 0 before the first.
    pub fn tasks_made(&self) -> u64
        ensures { (g : Setting) (s : State) → IsCore g s self.now → result ≡ s.tasks_made }
    {
        self.state.living().tasks().made()
    }

    /// The lowest task that may go on and is not lent.
    pub fn ready(&self) -> Option<u64>
        ensures { (g : Setting) (s : State) (lent : List ℕ) → IsCore g s self.now → Lends self.now lent → result ≡ lowest_ready lent s }
    {
        self.state.living().tasks().ready()
    }

    /// Whether a task lives that does not wait.
    pub fn is_ready(&self, task: u64) -> bool
        ensures { (g : Setting) (s : State) → IsCore g s self.now → result ≡ is_some (ready_at s task) }
    {
        let tasks = self.state.living().tasks();
        tasks.origin(task).is_some() && !tasks.waits(task)
    }
}
