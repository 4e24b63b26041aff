//! The laws of the worlds of class sets.

ghost use Rattle.std.specs.Prelude.{◌≡◌, ℕ, Bool, false, Some, List, bytes_eq, codes, slice_get};
ghost use Rattle.std.specs.List.{AllZip};
ghost use Rattle.cf_reader.specs.declared.class_file.Field.{Field};
ghost use Rattle.cf_reader.specs.declared.class_file.Method.{Method};
ghost use Rattle.cls_link.specs.Links.{Links, AreLinks, method_at};
ghost use Rattle.cls_link.specs.declared.linked_code.MethodId.{MethodId};
ghost use Rattle.cls_search.specs.FieldSearches.{field_at};
ghost use Rattle.cls_search.specs.declared.fields.FieldIndex.{FieldIndex};
ghost use Rattle.cls_set.specs.Sets.{IsClassSet};
ghost use Rattle.cls_set.specs.declared.class.Class.{Class};
ghost use Rattle.space_ids.specs.declared.ids.ClassId.{ClassId};
ghost use Rattle.ver_check.specs.Acceptance.{AreSafe};
ghost use Rattle.ver_frames.specs.Frames.{Frame};
ghost use Rattle.ver_frames.specs.Types.{field_vtype};
ghost use Rattle.vm_act.specs.declared.calls.Callee.{Callee};
ghost use Rattle.vm_code.specs.Fields.{kinds_of, slot_of};
ghost use Rattle.vm_code.specs.Methods.{callee_of};
ghost use Rattle.vm_heap.specs.declared.heap.WordKind.{WordKind};
ghost use Rattle.vm_typing.specs.Owed.{HasKind, IsCallee, Owed};
ghost use Rattle.vm_laws.specs.Worlds.{world_of, AreTyped};
ghost use Rattle.vm_laws.specs.Files.{AreAsRead, types_of};

/// The classes of a linked set are as files of the profile say them.
pub fn linked_sets_are_as_read()
    ensures { (links : Links) → AreLinks links → AreAsRead links.classes }
{}

/// A set that is linked and checked meets what is owed of its world, whatever frames type its
/// methods.
pub fn checked_sets_meet_what_is_owed()
    ensures { (links : Links) (frames : ℕ → ℕ → Frame) → AreLinks links → AreTyped links frames → Owed (world_of links frames) }
{}

/// The methods of a checked set are typed by frames.
pub fn checked_sets_are_typed()
    ensures { (links : Links) → AreLinks links → AreSafe links → (frames : ℕ → ℕ → Frame) × AreTyped links frames }
{}

/// What code finds of fields is of the types of the world: what a new object holds in its fields is of
/// their types, and a field is kept in the slot that has its type.
pub fn fields_are_of_their_types()
    ensures held { (classes : List Class) → IsClassSet classes → (class : ClassId) (kinds : List WordKind) → kinds_of classes class ≡ Some kinds → AllZip HasKind (types_of classes class) kinds }
    ensures kept { (classes : List Class) (field : FieldIndex) (f : Field) (slot : ℕ) → field_at classes field ≡ Some f → slot_of classes field ≡ Some slot → slice_get (types_of classes field.class) slot ≡ Some (field_vtype classes f.kind) }
{}

/// What a call is given of a method agrees with the types of the method, if what it is given of the
/// receiver does. The receiver of a method that is no `<init>` begins initialised.
pub fn callees_are_of_their_types()
    ensures any { (links : Links) (frames : ℕ → ℕ → Frame) → AreLinks links → (id : MethodId) (begins_uninit : Bool) (callee : Callee) → callee_of links.classes begins_uninit id ≡ Some callee → begins_uninit ≡ ((world_of links frames).method id.0).begins_uninit → IsCallee (world_of links frames) callee }
    ensures plain { (links : Links) (frames : ℕ → ℕ → Frame) → AreLinks links → (id : MethodId) (method : Method) (callee : Callee) → method_at links.classes id ≡ Some method → bytes_eq method.name (codes "<init>") ≡ false → callee_of links.classes false id ≡ Some callee → IsCallee (world_of links frames) callee }
{}
