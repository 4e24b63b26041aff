//! The registry: names with their objects.

ghost use Rattle.std.specs.Prelude.{◌≡◌, [], ◌∷◌, ◌++◌, IsTrue, IfOk, IfErr, OnOk, OnErr, None, Some, MatchResult};
ghost use Rattle.registry_names.specs.Names.{is_name};
ghost use Rattle.sp_registry.specs.Bindings.{bind, rebind, rebound, unbind, lookup, allowed as may_bind, Refuses, HasNamesOnce};
ghost use Rattle.sp_registry.specs.Counts.{count_of};

use super::counts::Counts;
use super::table::Table;
use super::{BindFault, Bindings, Name, RegistryFault};
use registry_names::is_name;
use space_ids::ObjId;
use std::alloc::{AllocError, Global};
use std::marker::Model;

/// A name and the own standing object that it is bound to.
#[derive(Drop)]
pub struct Binding<'a> {
    pub name: Name<'a>,
    pub object: ObjId,
}

/// The names of a space. A contract sees the list of its bindings, in the order in which the names
/// were bound.
#[derive(Drop)]
pub struct Registry {
    table: Table,
    counts: Counts,
}

impl Model for Registry {
    ghost use Rattle.std.specs.Prelude.{◌≡◌};
    ghost use Rattle.space_ids.specs.declared.ids.ObjId.{ObjId};
    ghost use Rattle.sp_registry.specs.Bindings.{Names};
    ghost use Rattle.sp_registry.specs.Counts.{count_of, number_in};

    ghost Value = { Names };

    ghost view = { λ registry. record { bindings = registry.table } };

    ghost invariant = { λ registry. (object : ObjId)
        → number_in registry.counts object ≡ count_of registry.table object };
}

impl Registry {
    /// Returns a registry without names. Memory is for the table of those that will be bound.
    pub fn new(alloc: Global) -> Result<Registry, AllocError>
        ensures { IfOk result (λ registry. registry.bindings ≡ []) }
    {
        Ok(Registry {
            table: Table::new(alloc)?,
            counts: Counts::new(alloc),
        })
    }

    /// Returns a registry of the same bindings. It costs a step a name.
    pub fn copy(&self) -> Result<Registry, AllocError>
        ensures copied { IfOk result (λ copy. copy ≡ self.now) }
    {
        Ok(Registry {
            table: self.table.copy()?,
            counts: self.counts.clone()?,
        })
    }

    /// Binds the name to the object, after all others. `None` stands for any reference but one to
    /// an own standing object. A name that is bound already is denied.
    pub fn bind(&mut self, name: &[u8], object: Option<ObjId>) -> Result<(), BindFault>
        ensures ok { OnOk result (bind self.old.bindings name.now object ≡ Ok self.new.bindings) }
        ensures refused { IfErr result (Refuses (bind self.old.bindings name.now object)) }
        ensures unchanged { OnErr result (self.new.bindings ≡ self.old.bindings) }
    {
        let own = allowed(name, object)?;
        match self.table.get(name) {
            Some(_) => Err(BindFault::Denied(RegistryFault::AlreadyBound)),
            None => Ok(self.add(name, own)?),
        }
    }

    /// Binds the name to the object in place of the one that it was bound to; its index stays. A name
    /// that was not bound is bound after all others.
    pub fn rebind(&mut self, name: &[u8], object: Option<ObjId>) -> Result<(), BindFault>
        ensures ok { OnOk result (rebind self.old.bindings name.now object ≡ Ok self.new.bindings) }
        ensures refused { IfErr result (Refuses (rebind self.old.bindings name.now object)) }
        ensures unchanged { OnErr result (self.new.bindings ≡ self.old.bindings) }
    {
        let object = allowed(name, object)?;
        match self.table.get(name) {
            Some(before) => Ok(self.change(name, before, object)?),
            None => Ok(self.add(name, object)?),
        }
    }

    /// Takes the name and its binding away. The order of the others stays. It takes no memory.
    pub fn unbind(&mut self, name: &[u8]) -> Result<(), RegistryFault>
        ensures answer { MatchResult result (λ _. unbind self.old.bindings name.now
            ≡ Ok self.new.bindings) (λ fault. unbind self.old.bindings name.now ≡ Err fault) }
        ensures unchanged { OnErr result (self.new ≡ self.old) }
    {
        if !is_name(name) {
            return Err(RegistryFault::BadName);
        }
        match self.table.remove(name) {
            Some(object) => {
                self.counts.take(object);
                Ok(())
            }
            None => Err(RegistryFault::NotBound),
        }
    }

    /// Returns the object that the name is bound to, if it is bound.
    pub fn lookup(&self, name: &[u8]) -> Option<ObjId>
        ensures { result ≡ lookup self.now.bindings name.now }
    {
        self.table.get(name)
    }

    /// Returns all bindings, in the order in which the names were bound.
    pub fn list(&self) -> Bindings<'_>
        ensures bindings { result ≡ self.now.bindings }
        ensures once { HasNamesOnce result }
    {
        self.table.iter()
    }

    /// Returns how many names are bound to the object. It looks at no name.
    pub fn count_of(&self, object: ObjId) -> usize
        ensures { result ≡ count_of self.now.bindings object }
    {
        self.counts.get(object)
    }

    // Adds a binding of an allowed name at the end.
    fn add(&mut self, name: &[u8], object: ObjId) -> Result<(), AllocError>
        requires allowed { IsTrue (is_name name.now) }
        requires unbound { lookup self.old.bindings name.now ≡ None }
        ensures ok { OnOk result (self.new.bindings
            ≡ self.old.bindings ++ record { name = name.now; object = object } ∷ []) }
        ensures unchanged { OnErr result (self.new.bindings ≡ self.old.bindings) }
    {
        let count = self.table.len();
        prove!(count < usize::MAX);
        self.counts.add(object)?;
        if self.table.add(name, object).is_err() {
            self.counts.take(object);
            return Err(AllocError);
        }
        Ok(())
    }

    // Binds a name that is bound to another object. Its index stays.
    fn change(&mut self, name: &[u8], before: ObjId, object: ObjId) -> Result<(), AllocError>
        requires { lookup self.old.bindings name.now ≡ Some before }
        ensures ok { OnOk result (self.new.bindings
            ≡ rebound self.old.bindings name.now object) }
        ensures unchanged { OnErr result (self.new.bindings ≡ self.old.bindings) }
    {
        let count = self.table.len();
        prove!(count < usize::MAX);
        self.counts.add(object)?;
        self.table.set(name, object);
        self.counts.take(before);
        Ok(())
    }
}

// The object, if the name may be bound to it.
fn allowed(name: &[u8], object: Option<ObjId>) -> Result<ObjId, RegistryFault>
    ensures { result ≡ may_bind name.now object }
{
    if !is_name(name) {
        return Err(RegistryFault::BadName);
    }
    object.ok_or(RegistryFault::NotOwn)
}
