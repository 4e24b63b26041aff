//! The constant pool (JVMS 4.4): its entries by index.

ghost use Rattle.std.specs.Prelude.{◌≡◌, ℕ, IfSome, List, Some, is_some, slice_get};
ghost use Rattle.cf_pool.specs.declared.pool.Entry.{Entry};
ghost use Rattle.cf_text.specs.Looks.{Exactly};
ghost use Rattle.cf_pool.specs.LookUps.{NamesClass, NamesInteger, NamesMember, NamesNameAndType, NamesText};
ghost use Rattle.cf_pool.specs.Pools.{class_at, integer_at, member_at, name_and_type_at, utf8_at};

use cf_text::Text;
use std::marker::Model;

/// Which kind of member an entry refers to (JVMS 4.4.2).
#[derive(Clone, Copy, Debug, PartialEq, Eq)]
pub enum MemberKind {
    Field,
    Method,
    InterfaceMethod,
}

/// An entry of the constant pool. Indices are those of the pool.
#[derive(Drop)]
pub enum Entry {
    Utf8(Text),
    Integer(i32),
    Class {
        name: u16,
    },
    Member {
        kind: MemberKind,
        class: u16,
        name_and_type: u16,
    },
    NameAndType {
        name: u16,
        descriptor: u16,
    },
    /// A Float, Long, Double, String, MethodHandle, MethodType or InvokeDynamic: read, and of no use
    /// in this project's profile.
    Other,
    /// No entry: index 0, and the index after a Long or a Double.
    Unusable,
}

/// A constant pool. A contract sees it as the list of its entries by index, from index 0 on.
#[derive(Drop)]
pub struct Pool {
    entries: Vec<Entry>,
}

impl Model for Pool {
    ghost use Rattle.std.specs.Prelude.{List};
    ghost use Rattle.cf_pool.specs.declared.pool.Entry.{Entry};

    ghost Value = { List Entry };

    ghost view = { λ pool. pool.entries.items };
}

/// What a NameAndType entry names (JVMS 4.4.6).
#[derive(Clone, Copy)]
pub struct NameAndTypeRef<'a> {
    pub name: &'a Text,
    pub descriptor: &'a Text,
}

/// What a Fieldref, Methodref or InterfaceMethodref entry names (JVMS 4.4.2).
#[derive(Clone, Copy)]
pub struct MemberRef<'a> {
    pub kind: MemberKind,
    /// The index of the Class entry.
    pub class_index: u16,
    /// The class's name, or an array's descriptor.
    pub class: &'a Text,
    pub name: &'a Text,
    pub descriptor: &'a Text,
}

impl Pool {
    ghost use Rattle.std.specs.Option.{option_and_then, option_copied, option_map};
    ghost use Rattle.cf_pool.specs.Pools.{as_class, as_name_and_type};
    ghost use Rattle.cf_pool.specs.PoolRefs.{named_member, named_type};

    /// Returns the pool of these entries by index, from index 0 on. It takes no memory.
    pub fn new(entries: Vec<Entry>) -> Pool
        ensures { result ≡ entries.items }
    {
        Pool { entries }
    }

    // The entry at an index: none past the end.
    pub(crate) fn entry(&self, index: usize) -> Option<&Entry>
        ensures { option_copied result ≡ slice_get self.now index }
    {
        self.entries.get(index)
    }

    // Whether an index names a Class entry.
    pub(crate) fn is_class(&self, index: u16) -> bool
        ensures { result ≡ is_some (option_and_then as_class (slice_get self.now index)) }
    {
        matches!(self.entry(index as usize), Some(Entry::Class { .. }))
    }

    // Whether an index names a NameAndType entry.
    pub(crate) fn is_name_and_type(&self, index: u16) -> bool
        ensures { result ≡ is_some (option_and_then as_name_and_type (slice_get self.now index)) }
    {
        matches!(self.entry(index as usize), Some(Entry::NameAndType { .. }))
    }

    /// Returns the text of a Utf8 entry: `None` exactly if the index names no such entry.
    #[tactic(auto, unfolding(crate::specs::Pools::utf8_at))]
    pub fn utf8(&self, index: u16) -> Option<&Text>
        ensures { option_copied result ≡ utf8_at self.now index }
    {
        match self.entry(index as usize) {
            Some(Entry::Utf8(text)) => Some(text),
            _ => None,
        }
    }

    /// Returns the value of an Integer entry: `None` exactly if the index names no such entry.
    #[tactic(auto, unfolding(crate::specs::Pools::integer_at))]
    pub fn integer(&self, index: u16) -> Option<i32>
        ensures { result ≡ integer_at self.now index }
    {
        match self.entry(index as usize) {
            Some(Entry::Integer(value)) => Some(*value),
            _ => None,
        }
    }

    /// Returns the name of a Class entry, or the descriptor of an array type: `None` exactly if the
    /// index names no such entry, or one whose own index names no text.
    #[tactic(auto, unfolding(crate::specs::Pools::class_at))]
    pub fn class(&self, index: u16) -> Option<&Text>
        ensures { option_copied result ≡ class_at self.now index }
    {
        match self.entry(index as usize) {
            Some(Entry::Class { name }) => self.utf8(*name),
            _ => None,
        }
    }

    /// Returns what a NameAndType entry names: `None` exactly if the index names no such entry, or
    /// one whose own indices name no texts.
    #[tactic(auto, unfolding(crate::specs::Pools::name_and_type_at))]
    pub fn name_and_type(&self, index: u16) -> Option<NameAndTypeRef<'_>>
        ensures { option_map named_type result ≡ name_and_type_at self.now index }
    {
        let Some(Entry::NameAndType { name, descriptor }) = self.entry(index as usize) else {
            return None;
        };
        let name = self.utf8(*name)?;
        let descriptor = self.utf8(*descriptor)?;
        Some(NameAndTypeRef { name, descriptor })
    }

    /// Returns what a Fieldref, Methodref or InterfaceMethodref entry names: `None` exactly if the
    /// index names no such entry, or one whose own indices name no class or no name and type.
    #[tactic(auto, unfolding(crate::specs::Pools::member_at))]
    pub fn member(&self, index: u16) -> Option<MemberRef<'_>>
        ensures named { option_map named_member result ≡ member_at self.now index }
        ensures class { IfSome result (λ member. class_at self.now member.class_index ≡ Some member.class.now) }
    {
        let Some(
            Entry::Member {
                kind,
                class,
                name_and_type,
            },
        ) = self.entry(index as usize)
        else {
            return None;
        };
        let class_index = *class;
        let class = self.class(class_index)?;
        let NameAndTypeRef { name, descriptor } = self.name_and_type(*name_and_type)?;
        Some(MemberRef {
            kind: *kind,
            class_index,
            class,
            name,
            descriptor,
        })
    }
}

/// What the look-ups of a pool find is what its indices name, and nothing else; they are `None`
/// exactly if an index names no entry of the kind wanted.
pub fn look_ups()
    ensures texts { (pool : List Entry) (index : ℕ)
        → Exactly (utf8_at pool index) (NamesText pool index) }
    ensures integers { (pool : List Entry) (index : ℕ)
        → Exactly (integer_at pool index) (NamesInteger pool index) }
    ensures classes { (pool : List Entry) (index : ℕ)
        → Exactly (class_at pool index) (NamesClass pool index) }
    ensures names_and_types { (pool : List Entry) (index : ℕ)
        → Exactly (name_and_type_at pool index) (NamesNameAndType pool index) }
    ensures members { (pool : List Entry) (index : ℕ)
        → Exactly (member_at pool index) (NamesMember pool index) }
{}
