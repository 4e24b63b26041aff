//! What a core asks of a class set.

ghost use Rattle.std.specs.Prelude.{◌≡◌, length, option_map};
ghost use Rattle.sp_rules.specs.Classes.{Classes, field_kind};
ghost use Rattle.sp_requests.specs.ClassSets.{kind_of};

use space_ids::ClassId;

/// What a field of a remote class holds.
#[derive(Clone, Copy, Debug, PartialEq, Eq)]
pub enum FieldKind {
    /// An int; a boolean is the int that it is carried as.
    Int,
    /// A reference of a remote interface, or null.
    Reference,
}

/// The remote classes of a space, as its core asks for them. A remote class is a class that implements a
/// remote interface.
pub trait ClassSet {
    // What the class set tells is what the rules of spaces ask of these classes.
    ghost tells: { Self → Classes → Type 0 };

    /// Whether instances of the class can be made: it is a remote class that is not abstract.
    fn is_remote(&self, class: ClassId) -> bool
        ensures { (c : Classes) → tells self.now c → result ≡ c.is_remote class };

    /// How many fields an instance of a remote class has, inherited ones too. Their slots are the numbers
    /// below this one.
    fn field_count(&self, class: ClassId) -> usize
        ensures { (c : Classes) → tells self.now c → result ≡ length (c.fields class) };

    /// What the field in this slot holds, or `None` if an instance of the class has none there.
    fn field_kind(&self, class: ClassId, slot: usize) -> Option<FieldKind>
        ensures { (c : Classes) → tells self.now c → option_map kind_of result ≡ field_kind c class slot };

    /// The class that a task throws if no more objects may stand: java.lang.OutOfMemoryError.
    fn out_of_memory(&self) -> ClassId
        ensures { (c : Classes) → tells self.now c → result ≡ c.out_of_memory };
}
