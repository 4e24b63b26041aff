//! A class set of one remote class.

ghost use Rattle.core_rows.specs.Classes.{IsOneClass};

use sp_requests::{CallClasses, ClassSet, FieldKind, RemoteException, ResultKind};
use space_ids::{ClassId, Value};
use std::alloc::{AllocError, Global};

/// A class set with one remote class, each of whose instances has these fields, and without methods. What is
/// thrown is of one class too.
#[derive(Drop)]
pub struct OneClass {
    class: ClassId,
    kinds: Vec<FieldKind>,
    thrown: ClassId,
}

impl OneClass {
    /// Returns the class set whose class 7 has a field of ints and one of references.
    pub fn new(alloc: Global) -> Result<OneClass, AllocError> {
        let mut kinds = Vec::new(alloc);
        kinds.push(FieldKind::Int)?;
        kinds.push(FieldKind::Reference)?;
        Ok(OneClass {
            class: ClassId(7),
            kinds,
            thrown: ClassId(9),
        })
    }
}

impl ClassSet for OneClass {
    ghost tells = { λ set c. IsOneClass set.class set.kinds.items set.thrown c };

    fn is_remote(&self, class: ClassId) -> bool {
        class == self.class
    }

    fn field_count(&self, _: ClassId) -> usize {
        self.kinds.len()
    }

    fn field_kind(&self, _: ClassId, slot: usize) -> Option<FieldKind> {
        self.kinds.get(slot).copied()
    }

    fn out_of_memory(&self) -> ClassId {
        self.thrown
    }
}

impl CallClasses for OneClass {
    fn may_call(&self, _: ClassId, _: u32) -> bool {
        false
    }

    fn takes(&self, _: u32, arguments: &[Value]) -> bool {
        arguments.is_empty()
    }

    fn result_kind(&self, _: u32) -> ResultKind {
        ResultKind::Nothing
    }

    fn selected(&self, _: ClassId, _: u32) -> Option<u32> {
        None
    }

    fn is_throwable(&self, class: ClassId) -> bool {
        class == self.thrown
    }

    fn told_class(&self, class: ClassId) -> ClassId {
        class
    }

    fn thrown(&self, _: RemoteException) -> ClassId {
        self.thrown
    }
}
