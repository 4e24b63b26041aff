//! The laws of the rows of the interpreter.

ghost use Rattle.std.specs.Prelude.{◌≡◌, ℕ, true, false, Some};
ghost use Rattle.cf_reader.specs.declared.class_file.Method.{Method};
ghost use Rattle.cls_link.specs.Links.{Links, AreLinks};
ghost use Rattle.cls_resolve.specs.declared.named.MemberIndex.{MemberIndex};
ghost use Rattle.cls_set.specs.Sets.{IsClassSet};
ghost use Rattle.space_ids.specs.declared.ids.ClassId.{ClassId};
ghost use Rattle.ver_check.specs.Bodies.{Body};
ghost use Rattle.ver_check.specs.Members.{method_at};
ghost use Rattle.ver_frames.specs.Frames.{Frame};
ghost use Rattle.ver_frames.specs.Method.{is_static};
ghost use Rattle.vm_act.specs.declared.calls.Callee.{Callee};
ghost use Rattle.vm_act.specs.declared.machine.Machine.{Machine};
ghost use Rattle.vm_code.specs.Calls.{id_of};
ghost use Rattle.vm_code.specs.Methods.{callee_of, init_begins_uninit, interface_selected, is_init, selected_of};
ghost use Rattle.vm_typing.specs.Owed.{Owed, Selects};
ghost use Rattle.vm_typing.specs.World.{World};
ghost use Rattle.vm_laws.specs.Worlds.{AreTyped, world_of};
ghost use Rattle.vm_laws.specs.Rows.{Constructs, RunsAs, arguments_in, result_in, WordRows, IntRows, ReturnRows, ObjectRows, CallRows};
ghost use Rattle.vm_laws.specs.Stops.{Stops};
ghost use Rattle.vm_laws.specs.Steps.{AreNamed, AreMembersNamed, AreNeverStuck, AreNeverStuckByReplies};

/// At a checked instruction on constants, local variables or operands as such, a machine that fits the
/// frame there is not stuck, and goes on typed.
pub fn words_are_let_through()
    ensures { (links : Links) (w : World) → Owed w → (body : Body) → WordRows links w body }
{}

/// The same at operators on ints, at instructions on arrays of ints, and at branches and switches.
pub fn ints_are_let_through()
    ensures { (links : Links) (w : World) → Owed w → IsClassSet w.classes → (body : Body) → IntRows links w body }
{}

/// The same at returns, which give what the method declares, and at athrow.
pub fn returns_are_let_through()
    ensures { (links : Links) (w : World) → Owed w → IsClassSet w.classes → (body : Body) → ReturnRows links w body }
{}

/// The same at `new`, at the instructions on fields, and at checkcast and instanceof.
pub fn objects_are_let_through()
    ensures { (links : Links) (w : World) → Owed w → IsClassSet w.classes → (body : Body) → ObjectRows links w body }
{}

/// The same at calls: if a method is found, it may be run on what the operands are, and the caller
/// waits for its result.
pub fn calls_are_let_through()
    ensures { (links : Links) (w : World) → Owed w → IsClassSet w.classes → (body : Body) → CallRows links w body }
{}

/// A machine is stuck at a value that does not fit what is declared, by its kind or by the class of an
/// object: as the value of a putfield, as the last argument of a call, and as the value that a method
/// returns; and at the object of a getfield.
pub fn values_that_do_not_fit_stop()
    ensures { (links : Links) (m : Machine) → Stops links m }
{}

/// A set that is linked and checked is never stuck: however many steps a typed machine makes by its
/// instructions, there is a next one, or it waits for a reply of its space, or its task has ended with
/// what it may give. So it is with each reply that fits. What each instruction names has to be as linking
/// says.
pub fn named_sets_are_never_stuck()
    ensures steps { (links : Links) (frames : ℕ → ℕ → Frame) → AreLinks links → AreTyped links frames → AreNamed links frames → AreNeverStuck links frames }
    ensures replies { (links : Links) (frames : ℕ → ℕ → Frame) → AreLinks links → AreTyped links frames → AreNamed links frames → AreNeverStuckByReplies links frames }
{}

/// What the instructions of a linked set name is as linking says: the switches, the classes of which
/// objects are made, what casts ask, and what athrow throws. That the fields and the methods are is
/// asked here.
pub fn linked_sets_are_named()
    ensures { (links : Links) (frames : ℕ → ℕ → Frame) → AreLinks links → AreTyped links frames → AreMembersNamed links frames → AreNamed links frames }
{}

/// An `<init>` that is called begins as its class says: what the call is given of it agrees with
/// its types.
pub fn inits_are_of_their_types()
    ensures { (links : Links) (frames : ℕ → ℕ → Frame) → AreLinks links → (member : MemberIndex) (method : Method) (callee : Callee) → method_at links.classes member ≡ Some method → is_init method ≡ true → callee_of links.classes (init_begins_uninit links.classes member.class) (id_of links.classes member) ≡ Some callee → Constructs (world_of links frames) member.class callee (arguments_in (world_of links frames) method) }
{}

/// A static method that is called takes the arguments, and gives the result, of the one that is
/// named.
pub fn static_methods_are_of_their_types()
    ensures { (links : Links) (frames : ℕ → ℕ → Frame) → AreLinks links → (member : MemberIndex) (method : Method) (callee : Callee) → method_at links.classes member ≡ Some method → is_init method ≡ false → is_static method ≡ true → callee_of links.classes false (id_of links.classes member) ≡ Some callee → RunsAs (world_of links frames) callee (arguments_in (world_of links frames) method) (result_in (world_of links frames) method) }
{}

/// What selection finds for invokevirtual and for invokeinterface takes the arguments, and gives
/// the result, of the named method; the class or one above it declares it.
pub fn selected_methods_are_of_their_types()
    ensures classes { (links : Links) (frames : ℕ → ℕ → Frame) → AreLinks links → (member : MemberIndex) (method : Method) → method_at links.classes member ≡ Some method → is_init method ≡ false → (class : ClassId) → Selects (world_of links frames) class (arguments_in (world_of links frames) method) (result_in (world_of links frames) method) (selected_of links.classes class (id_of links.classes member)) }
    ensures interfaces { (links : Links) (frames : ℕ → ℕ → Frame) → AreLinks links → (member : MemberIndex) (method : Method) → method_at links.classes member ≡ Some method → is_init method ≡ false → (class interface : ClassId) → Selects (world_of links frames) class (arguments_in (world_of links frames) method) (result_in (world_of links frames) method) (interface_selected links.classes class interface (id_of links.classes member)) }
{}
