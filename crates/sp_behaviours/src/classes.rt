//! The class set of a program, as the core of a space asks for it.

ghost use Rattle.std.specs.Prelude.{◌≡◌};
ghost use Rattle.sp_behaviours.specs.Classes.{classes_of};

use crate::fields::{count_fields, kind_at};
use crate::remote::has_instances;
use sp_requests::{ClassSet, FieldKind};
use space_ids::ClassId;
use vm_step::Program;

/// The remote classes of a program, as the core of a space asks for them. Each answer takes constant time.
#[derive(Clone, Copy)]
pub struct SpaceClasses<'a> {
    /// The program that the space runs.
    pub program: &'a Program,
}

impl ClassSet for SpaceClasses<'_> {
    // It tells what the rules of spaces ask of the linked set.
    ghost tells = { λ set c. c ≡ classes_of set.program.now };

    fn is_remote(&self, class: ClassId) -> bool {
        has_instances(self.program, class)
    }

    fn field_count(&self, class: ClassId) -> usize {
        count_fields(self.program, class)
    }

    fn field_kind(&self, class: ClassId, slot: usize) -> Option<FieldKind> {
        kind_at(self.program, class, slot)
    }

    fn out_of_memory(&self) -> ClassId {
        self.program.out_of_memory()
    }
}
