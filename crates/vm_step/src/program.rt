//! Programs: class sets that tasks may run.
ghost use Rattle.std.specs.Prelude.{◌≡◌, Some, IfOk, IfNone, IfSome, IsOk, codes, option_map};
ghost use Rattle.cls_link.specs.Links.{AreLinks};
ghost use Rattle.cls_set.specs.Classes.{number_of};
ghost use Rattle.ver_check.specs.Acceptance.{AreSafe};
ghost use Rattle.vm_code.specs.Classes.{is_remote};
ghost use Rattle.vm_code.specs.Fields.{kinds_of};
ghost use Rattle.vm_step.specs.Sound.{IsSoundSet};
ghost use Rattle.vm_step.specs.Start.{start_fault, started};
ghost use Rattle.vm_step.specs.Thrown.{AreThrown};
ghost use Rattle.vm_step.specs.declared.limits.Limits.{Limits};

use crate::fault::StartFault;
use crate::start::refuses_start;
use crate::thrown::ThrownClasses;
use cls_link::{ClassId, Linked, MethodId};
use std::alloc::{AllocError, Global};
use std::marker::Model;
use ver_check::Accepted;
use vm_calls::Callees;
use vm_code::{Tables, WordKind};
use vm_flat::FlatRows;
use vm_heap::{Uuid, Value};

/// A class set that the type checker accepted, and what running it looks up. A contract sees it as the
/// linked set.
#[derive(Drop)]
pub struct Program {
    accepted: Accepted,
    tables: Tables,
    flat: FlatRows,
    callees: Callees,
    thrown: ThrownClasses,
}

impl Model for Program {
    ghost use Rattle.cls_link.specs.Links.{Links};
    ghost use Rattle.vm_step.specs.Program.{IsProgram};

    ghost Value = { Links };

    ghost view = { λ program. program.accepted };

    ghost invariant = { λ program. IsProgram program.accepted program.tables program.flat program.callees program.thrown };
}

impl Program {
    #[tactic(auto, using(crate::proofs::Sound::sound_set))]
    /// The program of an accepted class set: what the type checker says of it is all that running asks.
    pub fn of(alloc: Global, accepted: Accepted) -> Result<Program, AllocError>
        ensures { IfOk result (λ program. program ≡ accepted) }
    {
        let linked = accepted.linked();
        let _methods = linked.len();
        let tables = Tables::build(alloc, linked)?;
        let flat = FlatRows::build(alloc, linked)?;
        let callees = Callees::build(alloc, linked)?;
        let thrown = ThrownClasses::of(linked);
        Ok(Program {
            accepted,
            tables,
            flat,
            callees,
            thrown,
        })
    }

    /// The linked class set.
    pub fn linked(&self) -> &Linked
        ensures linked { result.now ≡ self.now }
        ensures safe { AreSafe self.now }
        ensures sound { IsSoundSet self.now }
    {
        self.accepted.linked()
    }

    /// Whether objects of a class are remote: it is no interface, and implements java/rmi/Remote (Java RMI
    /// specification, 2.4). It takes constant time.
    #[tactic(auto, using(crate::proofs::Views::none_remote))]
    pub fn is_remote(&self, class: ClassId) -> bool
        ensures { result ≡ is_remote self.now.classes class }
    {
        if usize::from(class.0) >= self.linked().set().len() {
            return false;
        }
        self.tables().is_remote(class)
    }

    /// What the fields of an object of a class hold, by slot, or `None` if the set has no such class. It
    /// takes constant time.
    #[tactic(auto, using(vm_code::proofs::HeldKinds::kinds_held, vm_code::proofs::HeldKinds::kinds_past))]
    pub fn field_kinds(&self, class: ClassId) -> Option<&[WordKind]>
        ensures { option_map (λ kinds. kinds.now) result ≡ kinds_of self.now.classes class }
    {
        if usize::from(class.0) >= self.linked().set().len() {
            return None;
        }
        Some(self.tables().kinds_of(class))
    }

    /// The number of java/lang/OutOfMemoryError.
    pub fn out_of_memory(&self) -> ClassId
        ensures { number_of self.now.classes (codes "java/lang/OutOfMemoryError") ≡ Some result }
    {
        self.thrown().out_of_memory_error
    }

    /// Why no task starts at a method with these arguments: `AbsentMethod`, `BadSignature` or
    /// `BadArgument`, the first that fits. `None` if a task starts.
    #[tactic(auto, using(crate::proofs::Refused::refused, crate::proofs::Refused::starts))]
    pub fn refusal(&self, method: MethodId, arguments: &[Value]) -> Option<StartFault>
        ensures fault { result ≡ start_fault self.now method arguments.now }
        // So does starting a task, in each space.
        ensures refused { IfSome result (λ fault. (own : Uuid) (limits : Limits) → started self.now own method arguments.now limits ≡ Err fault) }
        ensures starts { IfNone result ((own : Uuid) (limits : Limits) → IsOk (started self.now own method arguments.now limits)) }
    {
        refuses_start(self.linked(), method, arguments)
    }

    // What running asks of its fields and of the methods that its classes select.
    pub(crate) fn tables(&self) -> &Tables
        ensures { result.now ≡ self.now }
    {
        &self.tables
    }

    // The flat instructions of its methods.
    pub(crate) fn flat(&self) -> &FlatRows
        ensures { result.now ≡ self.now }
    {
        &self.flat
    }

    // What calls need to know of its methods.
    pub(crate) fn callees(&self) -> &Callees
        ensures { result.now ≡ self.now }
    {
        &self.callees
    }

    // The classes of which the machine throws objects.
    pub(crate) fn thrown(&self) -> ThrownClasses
        ensures { AreThrown self.now.classes result }
    {
        self.thrown
    }
}
