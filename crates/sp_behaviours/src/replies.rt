//! Laws of the replies to what machines ask.

ghost use Rattle.sp_behaviours.specs.Replies.{AskedObjectsStand, RepliesFit};
ghost use Rattle.sp_behaviours.specs.Told.{RemoteFieldsAreHeld, RemoteMethodsCross, RemoteRulesAreKept};

/// In a set whose files keep the rule on the fields of remote classes, each field of a remote class
/// is an int or a reference of an interface.
pub fn remote_fields_are_held()
    ensures { RemoteFieldsAreHeld }
{}

/// In a set whose files keep the rule on the methods of remote interfaces, all that a method of a remote
/// interface takes and gives crosses, if it is one of the interface's own or inherited.
pub fn remote_methods_cross()
    ensures { RemoteMethodsCross }
{}

/// Both hold in the set of files that break no rule on sets.
pub fn remote_rules_are_kept()
    ensures { RemoteRulesAreKept }
{}

/// Whatever a machine asks its space's store for after a history that the space took, the reply of the
/// rules is one that the machine takes: a new object of the class; a value of the field's type; that it is
/// written; or an exception of a class of the set. This holds if the object of which a field is asked for
/// stands with its class.
pub fn replies_fit()
    ensures { RepliesFit }
{}

/// If the task holds the reference of which a field is asked for, the object stands, with its class.
pub fn asked_objects_stand()
    ensures { AskedObjectsStand }
{}
