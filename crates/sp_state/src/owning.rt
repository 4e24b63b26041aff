//! Names, and moments (Java RMI specification, 6.1 on the registry, 9.1 on leases).

ghost use Rattle.std.specs.Prelude.{◌≡◌, ◌<◌, ◌^◌, OnOk};
ghost use Rattle.sp_registry.specs.Bindings as registry;
ghost use Rattle.sp_rules.specs.Classes.{Setting};
ghost use Rattle.sp_rules.specs.Holders.{own_object};
ghost use Rattle.sp_rules.specs.OwnEvents.{on_moment, set_names};
ghost use Rattle.sp_rules.specs.State.{State};
ghost use Rattle.sp_living.specs.Livings.{IsLiving};
ghost use Rattle.sp_state.specs.Denying.{told_denied};
ghost use Rattle.sp_tasks.specs.Lent.{KeepsLent};

use crate::SpaceState;
use sp_living::Living;
use sp_outputs::Output;
use sp_registry::RegistryFault;
use space_ids::Value;
use std::alloc::AllocError;

// The moments that may come are below this one: a space refuses others (98).
const END_OF_TIME: u64 = 1 << 63;

impl SpaceState {
    ghost use Rattle.sp_state.specs.Spaces.{IsSpace};

    /// Binds a name to the object of this space that the value names. What the registry refuses is answered
    /// as Denied.
    pub fn bind(&mut self, name: &[u8], value: &Value) -> Result<(), AllocError>
        ensures bound { OnOk result ((g : Setting) (s : State) → IsSpace g s self.old → IsSpace g (set_names (registry.bind s.owner.names name.now (own_object g s value.now)) s) self.new) }
        ensures lent { OnOk result (KeepsLent self.old.living.tasks self.new.living.tasks) }
    {
        let denied = self.owner.bind(name, value)?;
        deny(&mut self.living, denied)
    }

    /// Binds a name anew to the object of this space that the value names. What the registry refuses is
    /// answered as Denied.
    pub fn rebind(&mut self, name: &[u8], value: &Value) -> Result<(), AllocError>
        ensures bound { OnOk result ((g : Setting) (s : State) → IsSpace g s self.old → IsSpace g (set_names (registry.rebind s.owner.names name.now (own_object g s value.now)) s) self.new) }
        ensures lent { OnOk result (KeepsLent self.old.living.tasks self.new.living.tasks) }
    {
        let denied = self.owner.rebind(name, value)?;
        deny(&mut self.living, denied)
    }

    /// Takes a name away. What the registry refuses is answered as Denied.
    pub fn unbind(&mut self, name: &[u8]) -> Result<(), AllocError>
        ensures unbound { OnOk result ((g : Setting) (s : State) → IsSpace g s self.old → IsSpace g (set_names (registry.unbind s.owner.names name.now) s) self.new) }
        ensures lent { OnOk result (KeepsLent self.old.living.tasks self.new.living.tasks) }
    {
        let denied = self.owner.unbind(name);
        deny(&mut self.living, denied)
    }

    /// Sets the moment that is now, in milliseconds: entries and leases expire, and results go that were held
    /// until it. A moment below the last changes nothing, nor does one that cannot come.
    pub fn moment(&mut self, moment: u64) -> Result<(), AllocError>
        ensures passed { OnOk result ((g : Setting) (s : State) → IsSpace g s self.old → moment < 2 ^ 63 → IsSpace g (on_moment g moment s) self.new) }
        ensures lent { OnOk result (KeepsLent self.old.living.tasks self.new.living.tasks) }
    {
        if moment >= END_OF_TIME {
            return Ok(());
        }
        let last = self.living.moment();
        if moment < last {
            return Ok(());
        }
        self.owner.moment(moment);
        self.living.pass_moment(moment)
    }
}

// Answers why the registry denies a change of names, if it does.
fn deny(living: &mut Living, denied: Option<RegistryFault>) -> Result<(), AllocError>
    ensures denied { OnOk result ((g : Setting) (s : State) → IsLiving g s living.old → IsLiving g (told_denied denied s) living.new) }
    ensures lent { OnOk result (KeepsLent living.old.tasks living.new.tasks) }
{
    match denied {
        Some(fault) => living.say(Output::Denied(fault)),
        None => Ok(()),
    }
}
