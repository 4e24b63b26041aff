//! Entering a ConstantValue attribute (JVMS 4.7.2).

ghost use Rattle.std.specs.Prelude.{IfOk, IfErr};
ghost use Rattle.cf_text.specs.Reading.{Gives};
ghost use Rattle.cf_layout.specs.CodeFormat.{MissesBy, constant_look};
ghost use Rattle.cf_layout.specs.Codes.{constant_filling, constant_of};

use super::inside::{blame, up_to};
use super::items::{Attribute, Item};
use super::layout::read_item;
use cf_pool::{ReadFault, Rule, demand};

#[tactic(auto, unfolding(crate::specs::Codes::constant_filling, cf_text::specs::Demands::verdict))]
fn read_constant_filling(bytes: &[u8], at: usize, end: usize) -> Result<Item, ReadFault>
    ensures { Gives (constant_filling bytes.now at end) result }
{
    let (index, to) = read_item(bytes, at)?;
    demand(to == end, Rule::AttributeLength, at)?;
    Ok(index)
}

// The reading after `read_constant`, with the first fault.
#[tactic(auto, unfolding(crate::specs::Codes::constant_of), using(crate::proofs::Blamed::blames))]
fn constant_of(bytes: &[u8], attribute: Attribute) -> Result<Item, ReadFault>
    ensures { Gives (constant_of bytes.now attribute) result }
{
    let inside = up_to(bytes, attribute.end as usize);
    blame(
        read_constant_filling(inside, attribute.body as usize, attribute.end as usize),
        attribute.name.at as usize,
    )
}

/// Returns a ConstantValue's index (JVMS 4.7.2), which is not followed. One that does not fill its
/// length is AttributeLength at its name index.
pub fn read_constant(bytes: &[u8], attribute: Attribute) -> Result<Item, ReadFault>
    // What is read stands there, what stands there is read, and a fault is one of what stands there.
    ensures found { IfOk result (constant_look bytes.now attribute).Is }
    ensures only { (index : Item) → (constant_look bytes.now attribute).Is index
        → Gives (Ok index) result }
    ensures fault { IfErr result (MissesBy (constant_look bytes.now attribute)) }
    // Which fault it is.
    ensures exact { Gives (constant_of bytes.now attribute) result }
{
    constant_of(bytes, attribute)
}
