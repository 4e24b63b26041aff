//! Reading a class file from its bytes.

ghost use Rattle.std.specs.Prelude.{◌≡◌, ℕ, List, IfOk, IfErr};
ghost use Rattle.cf_text.specs.Reading.{Gives};
ghost use Rattle.cf_layout.specs.declared.items.Layout.{Layout};
ghost use Rattle.cf_layout.specs.FileFormat.{LaysOut};
ghost use Rattle.cf_reader.specs.declared.class_file.ClassFile.{ClassFile};
ghost use Rattle.cf_reader.specs.Builds.{reading_of};
ghost use Rattle.cf_text.specs.Demands.{Demand};
ghost use Rattle.cf_text.specs.Order.{Rises};
ghost use Rattle.cf_reader.specs.Spells.{AreDemands, IsAtFault, IsInProfile, Spells};
ghost use Rattle.cf_reader.specs.WellFormed.{IsWellFormed};

use super::ReadClass;
use super::build::class_from;
use super::check::check_layout;
use cf_layout::read_layout;
use cf_pool::ReadFault;
use std::alloc::Global;

/// Returns the class file that the bytes spell (JVMS 4.1), in this project's profile.
///
/// A refusal names a rule and the position of the item that breaks it. There are two passes. The
/// first reads the layout and enters no attribute: TooLarge at the first byte too many, before all
/// else; then the first in the order of bytes of Truncated, at the first byte of the cut item;
/// Magic; Version; Tag; Index, if the constant pool's count is 0 or its last entry takes two
/// indices; and Trailing, at the first byte after the class. The second pass answers the first item
/// at fault in the order of bytes, and at one item the rule of the lowest number: Utf8, Index,
/// Descriptor, Flags, CodeLength, AttributeLength, Duplicate, OutOfProfile. It may be out of memory
/// instead of any answer.
pub fn read_class(alloc: Global, bytes: &[u8]) -> Result<ReadClass, ReadFault>
    // What is read is spelled, and in profile.
    ensures found { IfOk result (λ class. (layout : Layout) × Spells bytes.now layout class
        × IsInProfile bytes.now layout) }
    // What is read is well formed: flags, types and descriptors of its members agree.
    ensures well_formed { IfOk result IsWellFormed }
    // What is spelled, and in profile, is read, unless memory runs out.
    ensures only { (layout : Layout) (class : ClassFile) → Spells bytes.now layout class
        → IsInProfile bytes.now layout → Gives (Ok class) result }
    // A fault names a rule that fails at its position.
    ensures fault { IfErr result (IsAtFault bytes.now) }
    // Which fault it is: the first.
    ensures exact { Gives (reading_of bytes.now) result }
{
    reading_of(alloc, bytes)
}

// The reading after `read_class`, with the first fault.
#[tactic(auto, unfolding(crate::specs::Builds::reading_of))]
fn reading_of(alloc: Global, bytes: &[u8]) -> Result<ReadClass, ReadFault>
    ensures { Gives (reading_of bytes.now) result }
{
    let layout = read_layout(alloc, bytes)?;
    check_layout(alloc, bytes, &layout)?;
    let file = class_from(alloc, bytes, layout)?;
    Ok(ReadClass::new(file))
}

/// No bytes have two readings: what they spell, by any layout, is one class file.
pub fn one_reading()
    ensures { (bytes : List ℕ) (l m : Layout) (c d : ClassFile) → Spells bytes l c
        → Spells bytes m d → c ≡ d }
{}

/// The demands of bytes that are laid out stand in the order of bytes, and at one position in the
/// order of the rules' numbers. So the first demand that does not hold is at the first position at
/// fault, and has the lowest number of the rules that are broken there.
pub fn demands_rise()
    ensures { (bytes : List ℕ) (layout : Layout) (asked : List Demand) → LaysOut bytes layout
        → AreDemands bytes layout asked → Rises asked }
{}
