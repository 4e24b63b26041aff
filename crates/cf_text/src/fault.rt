//! Faults of reading a class file: the broken rule, and the position.

ghost use Rattle.std.specs.Prelude.{◌≡◌, Some};
ghost use Rattle.cf_text.specs.declared.fault.ReadFault.TheVariants.{Memory};
ghost use Rattle.cf_text.specs.Order.{number_of};
ghost use Rattle.cf_text.specs.FaultNames.{name_of, read_fault_number};

use base_types::Numbered;
use std::alloc::{AllocError, AllocFailed};
use std::fmt;
use thiserror::Error;

/// A rule of the class file format (JVMS 4.1 to 4.8) or of this project's profile.
#[derive(Clone, Copy, Debug, PartialEq, Eq, Error)]
pub enum Rule {
    /// An item is cut; the position is its first byte.
    Truncated = 1,
    /// The file does not begin with CAFEBABE.
    Magic = 2,
    /// The minor version is not 0, or the major is not 50 to 52.
    Version = 3,
    /// An entry of the constant pool has an unknown tag.
    Tag = 4,
    /// Bytes are no modified UTF-8, or a name is not allowed.
    Utf8 = 5,
    /// An index of the constant pool does not name an entry of the kind wanted.
    Index = 6,
    /// A descriptor is malformed.
    Descriptor = 7,
    /// Access flags do not go together.
    Flags = 8,
    /// Code is empty or longer than 65,535 bytes.
    CodeLength = 9,
    /// An attribute does not fill its length exactly.
    AttributeLength = 10,
    /// A second member of one name and descriptor, or a second attribute of a kind.
    Duplicate = 11,
    /// Bytes follow the class.
    Trailing = 12,
    /// Something that this project's profile leaves out.
    OutOfProfile = 13,
    /// The file is longer than 1,048,576 bytes.
    TooLarge = 14,
}

impl fmt::Display for Rule {
    ghost output = { λ rule. Some (name_of rule) };

    fn fmt<W: fmt::Write>(&self, f: &mut fmt::Formatter<W>) -> fmt::Result {
        f.write_str(match self {
            Rule::Truncated => "Truncated",
            Rule::Magic => "Magic",
            Rule::Version => "Version",
            Rule::Tag => "Tag",
            Rule::Utf8 => "Utf8",
            Rule::Index => "Index",
            Rule::Descriptor => "Descriptor",
            Rule::Flags => "Flags",
            Rule::CodeLength => "CodeLength",
            Rule::AttributeLength => "AttributeLength",
            Rule::Duplicate => "Duplicate",
            Rule::Trailing => "Trailing",
            Rule::OutOfProfile => "OutOfProfile",
            Rule::TooLarge => "TooLarge",
        })
    }
}

impl Numbered for Rule {
    ghost number = { number_of };

    fn number(&self) -> u8 {
        *self as u8
    }
}

/// Why a class file is refused.
#[derive(Clone, Copy, Debug, PartialEq, Eq, Error)]
pub enum ReadFault {
    /// The rule is broken at this byte of the file.
    #[error("{rule}")]
    Broken { rule: Rule, at: usize },
    /// Memory ran out.
    #[error("Memory")]
    Memory,
}

impl Numbered for ReadFault {
    ghost number = { read_fault_number };

    fn number(&self) -> u8 {
        match self {
            ReadFault::Broken { rule, .. } => rule.number(),
            ReadFault::Memory => 15,
        }
    }
}

impl From<AllocError> for ReadFault {
    ghost from_gives = { λ _ fault. fault ≡ Memory };

    fn from(_: AllocError) -> ReadFault {
        ReadFault::Memory
    }
}

impl<T: Drop> From<AllocFailed<T>> for ReadFault {
    ghost from_gives = { λ _ fault. fault ≡ Memory };

    fn from(_: AllocFailed<T>) -> ReadFault {
        ReadFault::Memory
    }
}
