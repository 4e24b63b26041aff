//! Classes while a set is built: their supertypes are told by indices, which number all classes that are
//! handed in, also more than a set can have.

use cf_reader::{ClassFile, Flags, Row};
use std::marker::Model;

/// The index of a class among all that are handed in, in the order of their names.
#[derive(Clone, Copy, PartialEq, Eq)]
pub struct Index {
    at: usize,
}

impl Model for Index {
    ghost use Rattle.space_ids.specs.declared.ids.ClassId.{ClassId};

    ghost Value = { ClassId };

    ghost view = { λ index. record { 0 = index.at } };

    ghost inverse = { λ id. record { at = id.0 } };
}

impl Index {
    ghost use Rattle.std.specs.Prelude.{◌≡◌};

    /// Returns the index of this number.
    pub fn new(at: usize) -> Index
        ensures { result ≡ record { 0 = at } }
    {
        Index { at }
    }

    /// Returns its number.
    pub fn get(self) -> usize
        ensures { result ≡ self.0 }
    {
        self.at
    }
}

/// A class whose supertypes are told by index. A contract sees it as the class of a set.
#[derive(Drop)]
pub struct Draft {
    pub file: ClassFile,
    pub superclass: Option<Index>,
    pub interfaces: Row<Index>,
    pub is_built_in: bool,
}

impl Model for Draft {
    ghost use Rattle.cls_order.specs.declared.class.Class.{Class};

    ghost Value = { Class };

    ghost view = { λ draft. record {
      file = draft.file;
      superclass = draft.superclass;
      interfaces = draft.interfaces;
      is_built_in = draft.is_built_in;
    } };
}

impl Draft {
    ghost use Rattle.std.specs.Prelude.{◌≡◌, ◌↔◌, IsTrue};
    ghost use Rattle.cls_order.specs.Classes.{IsInterface};

    /// Returns whether it is an interface (JVMS 4.1).
    pub fn is_interface(&self) -> bool
        ensures { IsTrue result ↔ IsInterface self.now }
    {
        self.file.flags.has(Flags::INTERFACE)
    }

    pub(crate) fn set_supertypes(&mut self, superclass: Option<Index>, interfaces: Row<Index>)
        ensures { self.new ≡ record self.old { superclass = superclass; interfaces = interfaces } }
    {
        self.superclass = superclass;
        self.interfaces = interfaces;
    }
}
