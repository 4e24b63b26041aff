//! Class files that were read.

use super::ClassFile;
use std::marker::Model;

/// A class file that was read from its bytes, so that it is well formed: flags, types and descriptors of its
/// members agree (JVMS 4.3, 4.5, 4.6). [`read_class`](super::read_class) alone makes one. A contract sees it as
/// the class file.
#[derive(Drop)]
pub struct ReadClass {
    file: ClassFile,
}

impl Model for ReadClass {
    ghost use Rattle.cf_reader.specs.declared.class_file.ClassFile.{ClassFile};
    ghost use Rattle.cf_reader.specs.WellFormed.{IsWellFormed};

    ghost Value = { ClassFile };

    ghost view = { λ class. class.file };

    ghost invariant = { λ class. IsWellFormed class.file };
}

impl ReadClass {
    ghost use Rattle.std.specs.Prelude.{◌≡◌};
    ghost use Rattle.cf_reader.specs.WellFormed.{IsWellFormed};

    pub(crate) fn new(file: ClassFile) -> ReadClass
        requires { IsWellFormed file }
        ensures { result ≡ file }
    {
        ReadClass { file }
    }

    /// Returns what it says.
    pub fn file(&self) -> &ClassFile
        ensures same { result.now ≡ self.now }
        ensures well_formed { IsWellFormed result.now }
    {
        &self.file
    }

    /// Returns what it says, and its memory with it.
    pub fn into_file(self) -> ClassFile
        ensures same { result ≡ self }
        ensures well_formed { IsWellFormed result }
    {
        self.file
    }
}
