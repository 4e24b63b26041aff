//! References that tasks hold, and that are in results of the space's own roots and lookups.

ghost use Rattle.std.specs.Prelude.{◌≡◌};
ghost use Rattle.sp_living.specs.Livings.{IsLiving};
ghost use Rattle.sp_rules.specs.Classes.{Setting};
ghost use Rattle.sp_rules.specs.State.{State};
ghost use Rattle.sp_holders.specs.Places.{own_tables_have};

use sp_living::Living;
use space_ids::Ref;

// Whether a living task holds the reference, or a held result of the space's own roots and lookups has it.
pub(crate) fn is_in_own_tables(living: &Living, reference: &Ref) -> bool
    ensures { (g : Setting) (s : State) → IsLiving g s living.now → result ≡ own_tables_have s reference.now }
{
    living.tasks().has_reference(reference) || living.results().has_reference(reference)
}
