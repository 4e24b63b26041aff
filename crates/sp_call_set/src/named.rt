//! The classes of java/lang and java/rmi by which calls fail, by their numbers in a set.

ghost use Rattle.std.specs.Prelude.{◌≡◌, Some, IsSome};
ghost use Rattle.cls_set.specs.Classes.{number_of};
ghost use Rattle.sp_call_set.specs.Named.{number_in, told_in, AreNamed};

use cls_link::{ClassSet, Linked};
use sp_requests::RemoteException;
use space_ids::ClassId;
use vm_code::is_subtype;

/// The numbers of the classes that calls name. They stand in each set.
#[derive(Clone, Copy)]
pub(crate) struct NamedClasses {
    pub(crate) remote: ClassId,
    pub(crate) throwable: ClassId,
    pub(crate) error: ClassId,
    pub(crate) remote_exception: ClassId,
    pub(crate) no_such_object: ClassId,
    pub(crate) unmarshal: ClassId,
    pub(crate) marshal: ClassId,
    pub(crate) connect: ClassId,
    pub(crate) server_error: ClassId,
    pub(crate) server_exception: ClassId,
    pub(crate) not_bound: ClassId,
}

impl NamedClasses {
    /// Those of a class set.
    pub(crate) fn of(linked: &Linked) -> NamedClasses
        ensures { AreNamed linked.now.classes result }
    {
        let _methods = linked.len();
        let set = linked.set();
        NamedClasses {
            remote: class_named(set, b"java/rmi/Remote"),
            throwable: class_named(set, b"java/lang/Throwable"),
            error: class_named(set, b"java/lang/Error"),
            remote_exception: class_named(set, b"java/rmi/RemoteException"),
            no_such_object: class_named(set, b"java/rmi/NoSuchObjectException"),
            unmarshal: class_named(set, b"java/rmi/UnmarshalException"),
            marshal: class_named(set, b"java/rmi/MarshalException"),
            connect: class_named(set, b"java/rmi/ConnectException"),
            server_error: class_named(set, b"java/rmi/ServerError"),
            server_exception: class_named(set, b"java/rmi/ServerException"),
            not_bound: class_named(set, b"java/rmi/NotBoundException"),
        }
    }

    /// The number of the class of an exception.
    pub(crate) fn thrown(&self, exception: RemoteException) -> ClassId
        ensures { result ≡ number_in self.now exception }
    {
        match exception {
            RemoteException::NoSuchObject => self.no_such_object,
            RemoteException::Unmarshal => self.unmarshal,
            RemoteException::Marshal => self.marshal,
            RemoteException::Connect => self.connect,
            RemoteException::ServerError => self.server_error,
            RemoteException::NotBound => self.not_bound,
        }
    }

    /// The class by which a caller is told that an object of a class was thrown.
    pub(crate) fn told_class(&self, set: &ClassSet, class: ClassId) -> ClassId
        ensures { result ≡ told_in set.now self.now class }
    {
        if is_subtype(set, class, self.error) {
            self.server_error
        } else if is_subtype(set, class, self.remote_exception) {
            self.server_exception
        } else {
            class
        }
    }
}

fn class_named(set: &ClassSet, name: &[u8]) -> ClassId
    requires { IsSome (number_of set.now name.now) }
    ensures { number_of set.now name.now ≡ Some result }
{
    set.number(name).unwrap()
}
