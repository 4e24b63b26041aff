//! The bindings, found by their names.

ghost use Rattle.std.specs.Prelude.{◌≡◌, ◌<◌, ◌^◌, [], ◌∷◌, ◌++◌, IsTrue, IfOk, OnOk, OnErr, None, length, is_some};
ghost use Rattle.std.specs.Iterator.{YieldsFirst, item_count};
ghost use Rattle.registry_names.specs.Names.{is_name};
ghost use Rattle.sp_registry.specs.Bindings.{lookup, rebound, unbound, HasNamesOnce};

use super::{Binding, Name};
use lru::{Iter, LruCache};
use space_ids::ObjId;
use std::alloc::{AllocError, Global};
use std::marker::Model;

/// The bindings in the order in which their names were bound. A list through the entries of a hash map
/// keeps the order, so a binding is found, comes and goes at a cost that does not depend on how many
/// there are. A contract sees the list of the bindings.
#[derive(Drop)]
pub(crate) struct Table {
    rows: LruCache<Vec<u8>, ObjId>,
}

impl Model for Table {
    ghost use Rattle.std.specs.Prelude.{◌≡◌, ◌-◌, ◌^◌, List};
    ghost use Rattle.sp_registry.specs.declared.registry.Binding.{Binding};
    ghost use Rattle.sp_registry.specs.Bindings.{HasNamesOnce};
    ghost use Rattle.sp_registry.specs.Tables.{bindings_of, AreNames};

    ghost Value = { List Binding };

    ghost view = { λ table. bindings_of table.rows.entries };

    ghost invariant = { λ table. HasNamesOnce (bindings_of table.rows.entries)
        × AreNames (bindings_of table.rows.entries) × (table.rows.cap ≡ 2 ^ 64 - 1) };
}

impl Table {
    pub(crate) fn new(alloc: Global) -> Result<Table, AllocError>
        ensures { IfOk result (λ table. table ≡ []) }
    {
        Ok(Table {
            rows: LruCache::unbounded(alloc)?,
        })
    }

    // The same bindings.
    pub(crate) fn copy(&self) -> Result<Table, AllocError>
        ensures { IfOk result (λ copy. copy ≡ self.now) }
    {
        let mut copy = Table::new(*self.rows.allocator())?;
        for binding in self.iter() {
            copy.add(binding.name.as_bytes(), binding.object)?;
        }
        Ok(copy)
    }

    pub(crate) fn len(&self) -> usize
        ensures len { result ≡ length self.now }
        ensures fits { result < 2 ^ 63 }
    {
        self.rows.len()
    }

    // The object that the name is bound to.
    pub(crate) fn get(&self, name: &[u8]) -> Option<ObjId>
        ensures { result ≡ lookup self.now name.now }
    {
        self.rows.peek(name).copied()
    }

    // Adds a binding after all others. At out of memory nothing happens.
    pub(crate) fn add(&mut self, name: &[u8], object: ObjId) -> Result<(), AllocError>
        requires allowed { IsTrue (is_name name.now) }
        requires unbound { lookup self.old name.now ≡ None }
        ensures ok { OnOk result (self.new
            ≡ self.old ++ record { name = name.now; object = object } ∷ []) }
        ensures err { OnErr result (self.new ≡ self.old) }
    {
        let key = name.to_vec(*self.rows.allocator())?;
        let count = self.rows.len();
        prove!(count < usize::MAX);
        self.rows.put(key, object)?;
        let _ = self.rows.demote(name);
        Ok(())
    }

    // Binds a name that is bound to another object. Its index stays.
    pub(crate) fn set(&mut self, name: &[u8], object: ObjId)
        requires { IsTrue (is_some (lookup self.old name.now)) }
        ensures { self.new ≡ rebound self.old name.now object }
    {
        match self.rows.peek_mut(name) {
            Some(before) => *before = object,
            None => unreachable!(),
        }
    }

    // Takes the binding of a name out, if it is bound, and returns its object. The order of the others
    // stays.
    pub(crate) fn remove(&mut self, name: &[u8]) -> Option<ObjId>
        ensures object { result ≡ lookup self.old name.now }
        ensures left { self.new ≡ unbound self.old name.now }
    {
        self.rows.pop(name)
    }

    // All bindings, in their order.
    pub(crate) fn iter(&self) -> Bindings<'_>
        ensures bindings { result ≡ self.now }
        ensures once { HasNamesOnce result }
    {
        Bindings {
            rows: self.rows.iter(),
        }
    }
}

/// The bindings of a registry, in the order in which the names were bound. A contract sees the list of
/// those that are left.
#[derive(Drop)]
pub struct Bindings<'a> {
    rows: Iter<'a, Vec<u8>, ObjId>,
}

impl<'a> Model for Bindings<'a> {
    ghost use Rattle.std.specs.Prelude.{List};
    ghost use Rattle.sp_registry.specs.declared.registry.Binding.{Binding};
    ghost use Rattle.sp_registry.specs.Tables.{bindings_of, AreNames};

    ghost Value = { List Binding };

    ghost view = { λ bindings. bindings_of bindings.rows };

    ghost invariant = { λ bindings. AreNames (bindings_of bindings.rows) };
}

impl<'a> Iterator for Bindings<'a> {
    type Item = Binding<'a>;

    ghost next_gives = { YieldsFirst (λ bindings. bindings) };

    ghost remaining = { item_count (λ bindings. bindings) };

    fn next(&mut self) -> Option<Binding<'a>> {
        let (name, object) = self.rows.next()?;
        Some(Binding {
            name: Name::new(name.as_slice()),
            object: *object,
        })
    }

    fn size_hint(&self) -> (usize, Option<usize>) {
        self.rows.size_hint()
    }
}

impl<'a> ExactSizeIterator for Bindings<'a> {
    fn len(&self) -> usize {
        self.rows.len()
    }
}
