//! A constant pool as it stands in a file, and what is demanded of it once it is read.

ghost use Rattle.std.specs.Prelude.{Ok};
ghost use Rattle.cf_text.specs.Reading.{Gives};

use super::{Entry, MemberKind, Pool};
use cf_text::{ReadFault, Row, short_position};

/// What stands after a tag (JVMS 4.4, table 4.4-A).
#[derive(Clone, Copy, PartialEq, Eq)]
pub(crate) enum Shape {
    Utf8,
    Integer,
    Class,
    Member(MemberKind),
    NameAndType,
    /// This many bytes that are not looked at.
    Skipped(usize),
    /// A Long or a Double: eight bytes, and two indices.
    Wide,
}

/// The positions of an entry: that after its tag, and that after the first item there.
#[derive(Clone, Copy, PartialEq, Eq)]
pub struct Positions {
    pub first: u32,
    pub second: u32,
}

// An entry as it was read. A wide one takes two indices.
#[derive(Drop)]
pub(crate) struct PlacedEntry {
    pub entry: Entry,
    pub positions: Positions,
    pub is_wide: bool,
}

impl PlacedEntry {
    // An entry, and whether it is wide.
    pub(crate) fn new(
        entry: Entry,
        first: usize,
        second: usize,
        is_wide: bool,
    ) -> Result<PlacedEntry, ReadFault>
        ensures { Gives (Ok (record {
          entry = entry;
          positions = record
              { first = first; second = second };
          is_wide = is_wide;
        })) result }
    {
        let positions = Positions {
            first: short_position(first)?,
            second: short_position(second)?,
        };
        Ok(PlacedEntry {
            entry,
            positions,
            is_wide,
        })
    }
}

/// A constant pool with the positions of its entries, by index.
#[derive(Drop)]
pub struct PoolLayout {
    pub pool: Pool,
    pub positions: Row<Positions>,
}
