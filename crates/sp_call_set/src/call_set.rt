//! The class set of a program, as a core that takes calls asks for it.

use crate::calls::{list_remote_interfaces, may_call};
use crate::kinds::{result_kind, takes};
use crate::named::NamedClasses;
use crate::selecting::selected;
use cls_tables::Tables;
use sp_behaviours::SpaceClasses;
use sp_requests::{CallClasses, ClassSet, FieldKind, RemoteException, ResultKind};
use space_ids::{ClassId, Value};
use std::alloc::{AllocError, Global};
use std::marker::Model;
use vm_code::is_subtype;
use vm_step::Program;

/// The classes and methods of a program, as a core that takes calls asks for them. A contract sees it as
/// the program's linked set.
///
/// Each answer takes constant time, but for these: `takes` looks at each argument once, `selected` takes
/// as many steps as the number of methods has bits, and `may_call` looks at each remote interface of the
/// set once if the method is declared by an interface that is none itself.
#[derive(Drop)]
pub struct CallSet<'a> {
    program: &'a Program,
    // What each class selects for each method.
    tables: Tables,
    // The remote interfaces of the set.
    interfaces: Vec<ClassId>,
    named: NamedClasses,
}

impl<'a> Model for CallSet<'a> {
    ghost use Rattle.cls_link.specs.Links.{Links};
    ghost use Rattle.sp_call_set.specs.Tables.{IsCallSet};

    ghost Value = { Links };

    ghost view = { λ set. set.program.now };

    ghost invariant = { λ set. IsCallSet set.program.now set.tables set.interfaces.items set.named };
}

impl<'a> CallSet<'a> {
    ghost use Rattle.std.specs.Prelude.{◌≡◌, IfOk};

    /// Returns what a core asks of the classes of a program.
    pub fn new(alloc: Global, program: &'a Program) -> Result<CallSet<'a>, AllocError>
        ensures { IfOk result (λ set. set ≡ program.now) }
    {
        let linked = program.linked();
        let tables = Tables::build(alloc, linked)?;
        let named = NamedClasses::of(linked);
        let interfaces = list_remote_interfaces(alloc, linked.set(), named.remote)?;
        Ok(CallSet {
            program,
            tables,
            interfaces,
            named,
        })
    }
}

// What a core asks that takes no calls.
impl<'a> ClassSet for CallSet<'a> {
    ghost use Rattle.std.specs.Prelude.{◌≡◌};
    ghost use Rattle.sp_behaviours.specs.Classes.{classes_of};

    // It tells what the rules of spaces ask of the linked set.
    ghost tells = { λ set c. c ≡ classes_of set };

    fn is_remote(&self, class: ClassId) -> bool {
        let classes = SpaceClasses {
            program: self.program,
        };
        classes.is_remote(class)
    }

    fn field_count(&self, class: ClassId) -> usize {
        let classes = SpaceClasses {
            program: self.program,
        };
        classes.field_count(class)
    }

    fn field_kind(&self, class: ClassId, slot: usize) -> Option<FieldKind> {
        let classes = SpaceClasses {
            program: self.program,
        };
        classes.field_kind(class, slot)
    }

    fn out_of_memory(&self) -> ClassId {
        let classes = SpaceClasses {
            program: self.program,
        };
        classes.out_of_memory()
    }
}

impl<'a> CallClasses for CallSet<'a> {
    fn may_call(&self, class: ClassId, method: u32) -> bool {
        may_call(
            self.program,
            self.named.remote,
            &self.interfaces,
            class,
            method,
        )
    }

    fn takes(&self, method: u32, arguments: &[Value]) -> bool {
        takes(self.program, method, arguments)
    }

    fn result_kind(&self, method: u32) -> ResultKind {
        result_kind(self.program, method)
    }

    fn selected(&self, class: ClassId, method: u32) -> Option<u32> {
        selected(self.program, &self.tables, class, method)
    }

    fn is_throwable(&self, class: ClassId) -> bool {
        is_subtype(self.program.linked().set(), class, self.named.throwable)
    }

    fn told_class(&self, class: ClassId) -> ClassId {
        self.named.told_class(self.program.linked().set(), class)
    }

    fn thrown(&self, exception: RemoteException) -> ClassId {
        self.named.thrown(exception)
    }
}
