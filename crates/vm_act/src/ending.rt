//! How tasks end.

use crate::asked::Asked;
use vm_heap::{ClassId, Ref};

/// The built-in classes of which the machine itself throws objects.
#[derive(Clone, Copy, Debug, PartialEq, Eq)]
pub enum Thrown {
    ArithmeticException,
    NullPointerException,
    ClassCastException,
    NegativeArraySizeException,
    ArrayIndexOutOfBoundsException,
    OutOfMemoryError,
    StackOverflowError,
    AbstractMethodError,
    IllegalAccessError,
    IncompatibleClassChangeError,
    /// An argument of a remote call cannot cross.
    MarshalException,
}

/// How a task ends. There are no exception handlers, so what is thrown ends it.
#[derive(Clone, Copy, Debug, PartialEq, Eq)]
pub enum Ending {
    ReturnedNothing,
    ReturnedInt(i32),
    /// Null, or the heap's address of an object or an array.
    ReturnedReference(Option<usize>),
    /// A remote object.
    ReturnedRemote(Ref),
    Threw(Thrown),
    /// An `athrow`, or the space in reply to what was asked, threw an object of this class.
    ThrewObject(ClassId),
    /// The fuel of the callee of a remote call was spent.
    Spent,
}

/// What an instruction did: the machine goes on in the same method, or in another, or the task ends, or it
/// asks its space for something while the machine waits for the reply.
#[derive(Clone, Copy)]
pub enum Flow {
    Goes,
    Moves,
    Ends(Ending),
    Asks(Asked),
}

impl Flow {
    ghost use Rattle.std.specs.Prelude.{◌≡◌};

    /// Returns the flow of a task that ends, since an object of this class is thrown.
    #[inline(always)]
    pub fn throws(thrown: Thrown) -> Flow
        ensures { result ≡ Flow.Ends (Ending.Threw thrown) }
    {
        Flow::Ends(Ending::Threw(thrown))
    }
}
