//! The laws of typed machines: what each instruction leads to is typed, and never stuck.

ghost use Rattle.std.specs.Prelude.{◌≡◌, ℕ, Option, Some, List, codes};
ghost use Rattle.cls_set.specs.Classes.{name_at};
ghost use Rattle.cls_set.specs.Sets.{IsClassSet};
ghost use Rattle.ver_frames.specs.declared.vtype.VType.{VType};
ghost use Rattle.vm_heap.specs.Tagged.{Site};
ghost use Rattle.vm_typing.specs.World.{World};
ghost use Rattle.vm_typing.specs.Fits.{Held};
ghost use Rattle.vm_typing.specs.Owed.{Owed, SetsGive};
ghost use Rattle.vm_typing.specs.Laws.{WordsLead, ObjectsLead, CallsLead, ReferentsLead, StubsLead, ReturnsLead, StepsAreMade};
ghost use Rattle.vm_typing.specs.Runs.{StartsTyped, RunsSound, PlaysSound};
ghost use Rattle.vm_typing.specs.Example.{world, ExampleIsSound};

/// Loads, stores, constants, pops and copies of operands, operators on ints, branches and switches
/// lead a typed machine to a typed one, or end the task.
pub fn words_lead()
    ensures { (w : World) → Owed w → (asked : Option VType) (held : Held) (fresh : ℕ → Site) (receiver : Site) → WordsLead w asked held fresh receiver }
{}

/// The instructions that make objects and int arrays, and use them, lead a typed machine to a typed
/// one, or end the task, or ask its space for what is of typed words and wait for the reply.
pub fn objects_lead()
    ensures { (w : World) → Owed w → (asked : Option VType) (held : Held) (fresh : ℕ → Site) (receiver : Site) → ObjectsLead w asked held fresh receiver }
{}

/// Calls of methods that are named (static ones, and an `<init>` on a new object or on the receiver
/// of a running `<init>`) lead a typed machine to a typed one, or end the task.
pub fn calls_lead()
    ensures { (w : World) → Owed w → (asked : Option VType) (held : Held) (fresh : ℕ → Site) (receiver : Site) → CallsLead w asked held fresh receiver }
{}

/// Calls of the method that a receiver's class selects, casts, instanceof and athrow lead a typed
/// machine to a typed one, or end the task.
pub fn referents_lead()
    ensures { (w : World) → Owed w → (asked : Option VType) (held : Held) (fresh : ℕ → Site) (receiver : Site) → ReferentsLead w asked held fresh receiver }
{}

/// A call of a stub asks the task's space for what crosses, and waits for the reply, or ends the task.
pub fn stubs_lead()
    ensures { (w : World) → Owed w → (asked : Option VType) (held : Held) (fresh : ℕ → Site) (receiver : Site) → StubsLead w asked held fresh receiver }
{}

/// A return leads to the typed machine of a caller that waits, or ends the task with a result of
/// its type.
pub fn returns_lead()
    ensures { (w : World) → Owed w → (asked : Option VType) (fresh : ℕ → Site) (receiver : Site) → ReturnsLead w asked fresh receiver }
{}

/// If a step leads to typed machines, the function of vm_act that makes it may be called, a machine
/// with which the task goes on is typed, and what ends the task may be given.
pub fn steps_are_made()
    ensures { (w : World) (asked : Option VType) (held : Held) → StepsAreMade w asked held }
{}

/// A method that is started on values of its parameters' types is typed. If each step leads a typed
/// machine as the laws here say, the machine is never stuck, however many steps it makes, and its
/// task ends as thrown, or with a result of the type that its method declares. So it is whatever it is
/// replied to what it asks of its space, if each reply is of the kind and the type that is asked.
pub fn typed_machines_are_never_stuck()
    ensures start { (w : World) → Owed w → StartsTyped w }
    ensures run { (w : World) → RunsSound w }
    ensures replies { (w : World) → PlaysSound w }
{}

/// Every class set gives what is owed of subclasses: java/lang/Object is above all others, and
/// standing for a class is transitive.
pub fn class_sets_give_what_is_owed()
    ensures { (w : World) → IsClassSet w.classes → name_at w.classes w.object ≡ Some (codes "java/lang/Object") → SetsGive w }
{}

/// A program of two classes meets all that is owed, so the laws speak of something: an object is made,
/// its `<init>` writes a field and calls that of java/lang/Object, and the field is read and returned.
pub fn what_is_owed_can_be_met()
    ensures owed { Owed world }
    ensures sound { ExampleIsSound }
{}
