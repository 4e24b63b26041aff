//! What a core that takes calls asks of a class set.

ghost use Rattle.std.specs.Prelude.{◌≡◌};
ghost use Rattle.sp_rules.specs.Classes.{Classes, fit_kinds, told_class};
ghost use Rattle.sp_requests.specs.Asking.{kind_of};
ghost use Rattle.sp_requests.specs.Thrown.{thrown_class};

use crate::{ClassSet, ResultKind};
use space_ids::{ClassId, Value};

/// What a space throws into a task whose call or lookup fails, or answers a caller with: a class of
/// java/rmi (Java RMI specification, appendix A).
#[derive(Clone, Copy, PartialEq, Eq)]
pub enum RemoteException {
    /// java/rmi/NoSuchObjectException: the target does not stand.
    NoSuchObject,
    /// java/rmi/UnmarshalException: what came cannot be read, or the connection ended before it came.
    Unmarshal,
    /// java/rmi/MarshalException: a call could not be written.
    Marshal,
    /// java/rmi/ConnectException: a peer refuses.
    Connect,
    /// java/rmi/ServerError: the owner has no room for a task, or an Error was thrown there.
    ServerError,
    /// java/rmi/NotBoundException: no object is bound to a name.
    NotBound,
}

/// The classes and methods of a space, as a core that takes calls asks for them. A stranger may name any
/// number of a class or method: what has no such class or method is answered as the rules do.
pub trait CallClasses: ClassSet {
    /// Whether the method of this number may be called on objects of a class: a remote interface that the
    /// class implements declares or inherits it.
    fn may_call(&self, class: ClassId, method: u32) -> bool
        ensures { (c : Classes) → Self.tells self.now c → result ≡ c.may_call class method };

    /// Whether the values are one for each parameter of the method, of its kind.
    fn takes(&self, method: u32, arguments: &[Value]) -> bool
        ensures { (c : Classes) → Self.tells self.now c → result ≡ fit_kinds (c.parameters method) arguments.now };

    /// What the method gives: nothing if there is no such method.
    fn result_kind(&self, method: u32) -> ResultKind
        ensures { (c : Classes) → Self.tells self.now c → kind_of result ≡ c.result method };

    /// The method that a call of this one runs on an object of a class. `None` if the class does not
    /// implement the interface of the method, or if what it selects is not there, is not public or has no
    /// code.
    fn selected(&self, class: ClassId, method: u32) -> Option<u32>
        ensures { (c : Classes) → Self.tells self.now c → result ≡ c.selected class method };

    /// Whether a class is java/lang/Throwable or a subclass of it.
    fn is_throwable(&self, class: ClassId) -> bool
        ensures { (c : Classes) → Self.tells self.now c → result ≡ c.is_throwable class };

    /// The class by which a caller is told that a callee threw an object of a class: java/rmi/ServerError
    /// for an Error, java/rmi/ServerException for a RemoteException, else the class itself.
    fn told_class(&self, class: ClassId) -> ClassId
        ensures { (c : Classes) → Self.tells self.now c → result ≡ told_class c class };

    /// The class of an exception that a space throws or answers with.
    fn thrown(&self, exception: RemoteException) -> ClassId
        ensures { (c : Classes) → Self.tells self.now c → result ≡ thrown_class c exception };
}
