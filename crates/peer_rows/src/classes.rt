//! The class set of all spaces.

ghost use Rattle.std.specs.Prelude.{◌≡◌, ◌∷◌, []};
ghost use Rattle.sp_rules.specs.Classes.{fit_kinds};
ghost use Rattle.sp_requests.specs.Asking.{kind_of};
ghost use Rattle.peer_rows.specs.Classes.{AreRowClasses, kinds_taken, kind_given};

use sp_requests::{CallClasses, ClassSet, FieldKind, RemoteException, ResultKind};
use space_ids::{ClassId, Value};
use std::alloc::{AllocError, Global};

/// Two remote classes, and a few methods of the first.
///
/// The classes 7 and 8 are remote, with a field of ints in slot 0 and one of references in slot 1. On objects of 7 the
/// methods 1 to 6 may be called:
///
/// | Method | Takes | Gives |
/// |---|---|---|
/// | 1 | | an int |
/// | 2 | a reference | nothing |
/// | 3 | | a reference |
/// | 4 | an int | nothing |
/// | 5 | | an array of ints |
/// | 6 | | nothing; no method is selected for it |
///
/// Any other takes nothing and gives nothing. The classes from 20 on are those of java/rmi: 20
/// NoSuchObjectException, 21 UnmarshalException, 22 MarshalException, 23 ConnectException, 24 ServerError, 25
/// ServerException and 26 NotBoundException. 9 is java/lang/OutOfMemoryError, and 10 another class of what is
/// thrown.
#[derive(Drop)]
pub struct RowClasses {
    kinds: Vec<FieldKind>,
}

impl RowClasses {
    pub fn new(alloc: Global) -> Result<RowClasses, AllocError> {
        let mut kinds = Vec::new(alloc);
        kinds.push(FieldKind::Int)?;
        kinds.push(FieldKind::Reference)?;
        Ok(RowClasses { kinds })
    }
}

impl ClassSet for RowClasses {
    ghost tells = { λ set c. AreRowClasses set.kinds.items c };

    fn is_remote(&self, class: ClassId) -> bool {
        class.0 == 7 || class.0 == 8
    }

    fn field_count(&self, _: ClassId) -> usize {
        self.kinds.len()
    }

    fn field_kind(&self, _: ClassId, slot: usize) -> Option<FieldKind> {
        self.kinds.get(slot).copied()
    }

    fn out_of_memory(&self) -> ClassId {
        ClassId(9)
    }
}

impl CallClasses for RowClasses {
    fn may_call(&self, class: ClassId, method: u32) -> bool {
        class.0 == 7 && 1 <= method && method <= 6
    }

    fn takes(&self, method: u32, arguments: &[Value]) -> bool {
        are_taken(method, arguments)
    }

    fn result_kind(&self, method: u32) -> ResultKind {
        given(method)
    }

    fn selected(&self, _: ClassId, method: u32) -> Option<u32> {
        if method < 6 { Some(method) } else { None }
    }

    fn is_throwable(&self, class: ClassId) -> bool {
        9 <= class.0 && class.0 <= 26
    }

    fn told_class(&self, class: ClassId) -> ClassId {
        if class.0 == 9 {
            ClassId(24)
        } else if 20 <= class.0 && class.0 <= 25 {
            ClassId(25)
        } else {
            class
        }
    }

    fn thrown(&self, exception: RemoteException) -> ClassId {
        match exception {
            RemoteException::NoSuchObject => ClassId(20),
            RemoteException::Unmarshal => ClassId(21),
            RemoteException::Marshal => ClassId(22),
            RemoteException::Connect => ClassId(23),
            RemoteException::ServerError => ClassId(24),
            RemoteException::NotBound => ClassId(26),
        }
    }
}

fn are_taken(method: u32, arguments: &[Value]) -> bool
    ensures { result ≡ fit_kinds (kinds_taken method) arguments.now }
{
    match arguments {
        [] => method != 2 && method != 4,
        [value] => is_taken(method, value),
        _ => false,
    }
}

// Whether a method takes this value alone.
fn is_taken(method: u32, value: &Value) -> bool
    ensures { result ≡ fit_kinds (kinds_taken method) (value.now ∷ []) }
{
    match value {
        Value::Null | Value::Ref(_) => method == 2,
        Value::Int(_) => method == 4,
        Value::Ints(_) => false,
    }
}

fn given(method: u32) -> ResultKind
    ensures { kind_of result ≡ kind_given method }
{
    if method == 1 {
        ResultKind::Int
    } else if method == 3 {
        ResultKind::Reference
    } else if method == 5 {
        ResultKind::IntArray
    } else {
        ResultKind::Nothing
    }
}
