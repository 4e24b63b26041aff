//! Laws of the calls and of the replies that machines take.

ghost use Rattle.sp_behaviours.specs.Calls.{CallRepliesAreTaken, CalledMethodsCross, StoreRepliesAreTaken};

/// In a linked set whose remote interfaces keep the rule on their methods, all that a method takes and
/// gives crosses that an instruction calls through a remote interface.
pub fn called_methods_cross()
    ensures { CalledMethodsCross }
{}

/// A machine takes each reply of the rules to what it asked. A reply that fits the call at which the
/// machine's task stands is one of its method's result, with no more fuel than was lent, or a class of the
/// set that is thrown, or that the callee's fuel was spent. The reply of the space's own store is a new
/// object of the class, a value of the field's type, that it is written, or a class of the set that is
/// thrown, after every history that the space took.
pub fn replies_are_taken()
    ensures calls { CallRepliesAreTaken }
    ensures store { StoreRepliesAreTaken }
{}
