//! The laws of checked sets.

ghost use Rattle.std.specs.Prelude.{◌≡◌, ℕ, Bool, Some, IsSome};
ghost use Rattle.cf_reader.specs.declared.class_file.Code.{Code};
ghost use Rattle.cf_reader.specs.declared.class_file.Method.{Method};
ghost use Rattle.cls_link.specs.Links.{Links, AreLinks, method_at};
ghost use Rattle.cls_link.specs.declared.linked_code.MethodId.{MethodId};
ghost use Rattle.ver_check.specs.Acceptance.{AreSafe};
ghost use Rattle.ver_frames.specs.Frames.{Frame};
ghost use Rattle.vm_code.specs.Methods.{callee_of};
ghost use Rattle.vm_laws.specs.Worlds.{AreTyped};
ghost use Rattle.vm_laws.specs.Steps.{AreMembersNamed};
ghost use Rattle.vm_laws.specs.Sound.{IsNeverStuck};

use super::Accepted;

/// The fields and the methods that the instructions of a linked set name are there, and are as linking
/// says: a field of objects has a slot with its type, and what a call runs is passed the arguments, and
/// gives the result, of the method that is named.
pub fn linked_sets_name_their_members()
    ensures { (links : Links) (frames : ℕ → ℕ → Frame) → AreLinks links → AreTyped links frames → AreMembersNamed links frames }
{}

/// A set that is linked and checked is never stuck: however many steps a typed machine makes by its
/// instructions, there is a next one, or it waits for a reply of its space, or its task has ended with
/// what it may give. So it is with each reply that fits. A method that is started on values of its
/// parameters' types is typed.
pub fn checked_sets_are_never_stuck()
    ensures { (links : Links) → AreLinks links → AreSafe links → IsNeverStuck links }
{}

/// Each method with code of a linked and checked set may be called: its local variables hold what it is
/// passed. So no call is refused as one of a method without code if it has some.
pub fn methods_with_code_are_called()
    ensures { (links : Links) → AreLinks links → AreSafe links → (begins_uninit : Bool) (id : MethodId) (method : Method) (code : Code) → method_at links.classes id ≡ Some method → method.code ≡ Some code → IsSome (callee_of links.classes begins_uninit id) }
{}

/// A class set that was accepted is never stuck: `link` and `accept` leave nothing to ask.
#[tactic(auto, using(crate::proofs::Starts::checked))]
pub fn accepted_sets_are_never_stuck(accepted: &Accepted)
    ensures { IsNeverStuck accepted.now }
{
    let _methods = accepted.linked().len();
}
