//! What is demanded of an item once the layout is known.

ghost use Rattle.std.specs.Prelude.{◌≡◌, [], ◌∷◌};
ghost use Rattle.cf_text.specs.Demands.{verdict};

use super::{ReadFault, Rule};

/// Returns Ok if the item at a position keeps a rule, else the fault of that rule there.
#[tactic(auto, unfolding(crate::specs::Demands::verdict))]
pub fn demand(holds: bool, rule: Rule, at: usize) -> Result<(), ReadFault>
    ensures { result ≡ verdict (record { at = at; rule = rule; holds = holds } ∷ []) }
{
    if holds {
        Ok(())
    } else {
        Err(ReadFault::Broken { rule, at })
    }
}
