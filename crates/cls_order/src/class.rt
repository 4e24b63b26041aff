//! A class of a class set.

ghost use Rattle.std.specs.Prelude.{◌↔◌, IsTrue};

use cf_reader::{ClassFile, Flags, Row};
use space_ids::ClassId;

/// A class or interface of a class set, with its direct supertypes by number.
#[derive(Drop)]
pub struct Class {
    pub file: ClassFile,
    /// The direct superclass: `None` for java/lang/Object alone.
    pub superclass: Option<ClassId>,
    /// The direct superinterfaces, as declared.
    pub interfaces: Row<ClassId>,
    /// Whether it is one of the classes that stand in every set.
    pub is_built_in: bool,
}

impl Class {
    ghost use Rattle.cls_order.specs.Classes.{IsInterface};

    /// Returns whether it is an interface (JVMS 4.1).
    pub fn is_interface(&self) -> bool
        ensures { IsTrue result ↔ IsInterface self.now }
    {
        self.file.flags.has(Flags::INTERFACE)
    }
}
