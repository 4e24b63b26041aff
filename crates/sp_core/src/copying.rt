//! Copies of a core.

ghost use Rattle.std.specs.Prelude.{◌≡◌, ℕ, IfOk};
ghost use Rattle.sp_rules.specs.Classes.{Setting};
ghost use Rattle.sp_rules.specs.State.{State};

use crate::SpaceCore;
use std::alloc::AllocError;

impl SpaceCore {
    ghost use Rattle.sp_core.specs.Cores.{IsCore, is_lent};

    /// Another core in the same state, which lends the same tasks. It costs a step for each row of the state
    /// and each value in it. What this core saw of references is not copied.
    pub fn copy(&self) -> Result<SpaceCore, AllocError>
        ensures state { IfOk result (λ copy. (g : Setting) (s : State) → IsCore g s self.now
            → IsCore g s copy) }
        ensures lent { IfOk result (λ copy. (id : ℕ) → is_lent copy id ≡ is_lent self.now id) }
    {
        let state = self.state.copy(self.alloc)?;
        Ok(SpaceCore {
            alloc: self.alloc,
            id: self.id,
            fuel: self.fuel,
            state,
            spare: None,
            sightings: self.sightings.emptied(),
        })
    }
}
