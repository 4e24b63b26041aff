//! Changes of names (Java RMI specification, 6.1).

ghost use Rattle.std.specs.Prelude.{◌≡◌, IfOk, OnOk};
ghost use Rattle.sp_registry.specs.Bindings as registry;
ghost use Rattle.sp_registry.specs.declared.fault.BindFault.TheVariants.{Denied as Denies};
ghost use Rattle.sp_rules.specs.Classes.{Setting};
ghost use Rattle.sp_rules.specs.Holders.{own_object};
ghost use Rattle.sp_rules.specs.OwnEvents.{set_names};
ghost use Rattle.sp_rules.specs.State.{State};
ghost use Rattle.sp_owner.specs.Owners.{denied};

use crate::Owner;
use sp_registry::{BindFault, RegistryFault};
use space_ids::Value;
use std::alloc::AllocError;

impl Owner {
    ghost use Rattle.sp_owner.specs.Owners.{IsOwner};

    /// Binds a name to the object of this space that the value names. Returns why the registry denies it,
    /// if it does; then no name changes.
    pub fn bind(&mut self, name: &[u8], value: &Value) -> Result<Option<RegistryFault>, AllocError>
        ensures bound { OnOk result ((g : Setting) (s : State) → IsOwner g s self.old → IsOwner g (set_names (registry.bind s.owner.names name.now (own_object g s value.now)) s) self.new) }
        ensures denied { IfOk result (λ fault. (g : Setting) (s : State) → IsOwner g s self.old → fault ≡ denied (registry.bind s.owner.names name.now (own_object g s value.now))) }
    {
        let own = self.own_object(value);
        match self.names.bind(name, own) {
            Ok(()) => Ok(None),
            Err(fault) => Ok(Some(denial(fault)?)),
        }
    }

    /// Binds a name anew to the object of this space that the value names. Returns why the registry denies
    /// it, if it does; then no name changes.
    pub fn rebind(
        &mut self,
        name: &[u8],
        value: &Value,
    ) -> Result<Option<RegistryFault>, AllocError>
        ensures rebound { OnOk result ((g : Setting) (s : State) → IsOwner g s self.old → IsOwner g (set_names (registry.rebind s.owner.names name.now (own_object g s value.now)) s) self.new) }
        ensures denied { IfOk result (λ fault. (g : Setting) (s : State) → IsOwner g s self.old → fault ≡ denied (registry.rebind s.owner.names name.now (own_object g s value.now))) }
    {
        let own = self.own_object(value);
        match self.names.rebind(name, own) {
            Ok(()) => Ok(None),
            Err(fault) => Ok(Some(denial(fault)?)),
        }
    }

    /// Takes a name away. Returns why the registry denies it, if it does. It takes no memory.
    pub fn unbind(&mut self, name: &[u8]) -> Option<RegistryFault>
        ensures unbound { (g : Setting) (s : State) → IsOwner g s self.old → IsOwner g (set_names (registry.unbind s.owner.names name.now) s) self.new }
        ensures denied { (g : Setting) (s : State) → IsOwner g s self.old → result ≡ denied (registry.unbind s.owner.names name.now) }
    {
        self.names.unbind(name).err()
    }
}

// What the registry denies, if it is not out of memory.
fn denial(fault: BindFault) -> Result<RegistryFault, AllocError>
    ensures { IfOk result (λ denied. fault ≡ Denies denied) }
{
    match fault {
        BindFault::Denied(denied) => Ok(denied),
        BindFault::Memory => Err(AllocError),
    }
}
