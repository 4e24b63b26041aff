//! Roots and lookups of the space's own, and their results.

ghost use Rattle.std.specs.Prelude.{◌≡◌, ◌+◌, false, true, IfOk, OnOk};
ghost use Rattle.sp_rules.specs.Classes.{Setting};
ghost use Rattle.sp_rules.specs.Frames.{release};
ghost use Rattle.sp_rules.specs.LivingTasks.{add_task};
ghost use Rattle.sp_rules.specs.OwnEvents.{is_of_root, on_lookup};
ghost use Rattle.sp_rules.specs.Refusals.{is_worn};
ghost use Rattle.sp_rules.specs.State.{OfRoot, State};
ghost use Rattle.sp_tasks.specs.Lent.{KeepsLent};

use crate::SpaceState;
use net_message::is_name;
use sp_outputs::Output;
use sp_registry::RegistryFault;
use sp_tasks::Origin;
use space_ids::{Row, Uuid, Value};
use std::alloc::AllocError;

impl SpaceState {
    ghost use Rattle.sp_state.specs.Spaces.{IsSpace};

    /// Starts a root at a method, under the next id, which it returns.
    pub fn root(&mut self, method: u32, arguments: &[Value], fuel: u64) -> Result<u64, AllocError>
        ensures id { IfOk result (λ id. (g : Setting) (s : State) → IsSpace g s self.old → id ≡ s.tasks_made + 1) }
        ensures lent { OnOk result (KeepsLent self.old.living.tasks self.new.living.tasks) }
        ensures started { OnOk result ((g : Setting) (s : State) → IsSpace g s self.old → IsSpace g (add_task g OfRoot method arguments.now fuel s) self.new) }
    {
        let id = self.living.start(Origin::Root, method, arguments, fuel)?;
        Ok(id)
    }

    /// Lets the result of a root or lookup go, if it is held. It takes no memory.
    pub fn root_ack(&mut self, task: u64)
        ensures released { (g : Setting) (s : State) → IsSpace g s self.old → IsSpace g (release g (is_of_root task) s) self.new }
        ensures tasks { self.new.living.tasks ≡ self.old.living.tasks }
    {
        self.living.release_root(task);
    }

    /// Makes a lookup in the registry of a peer. A name that is not allowed is denied. A space that is worn out
    /// makes none.
    pub fn look_up(&mut self, peer: &Uuid, name: Row<u8>) -> Result<(), AllocError>
        ensures looked_up { OnOk result ((g : Setting) (s : State) → IsSpace g s self.old → is_worn s ≡ false → IsSpace g (on_lookup g peer.now name s) self.new) }
        ensures lent { OnOk result (KeepsLent self.old.living.tasks self.new.living.tasks) }
    {
        if !is_name(name.as_slice()) {
            return self.living.say(Output::Denied(RegistryFault::BadName));
        }
        self.living.look_up(peer, name)
    }
}
