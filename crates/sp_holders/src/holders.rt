//! Whether a reference has a holder (Java RMI specification, 3.3: what is referenced stays).

ghost use Rattle.std.specs.Prelude.{◌≡◌, false, IfOk, OnErr};
ghost use Rattle.sp_living.specs.Livings.{IsLiving};
ghost use Rattle.sp_rules.specs.Classes.{Setting};
ghost use Rattle.sp_rules.specs.Holders.{has_holder};
ghost use Rattle.sp_rules.specs.State.{State};
ghost use Rattle.sp_state.specs.Spaces.{IsSpace};
ghost use Rattle.sp_holders.specs.Places.{is_at_hand, is_away};

use crate::Sightings;
use crate::fields::is_in_fields;
use crate::frames::is_in_frames;
use crate::tables::is_in_own_tables;
use sp_living::Living;
use sp_state::SpaceState;
use space_ids::Ref;
use std::alloc::{AllocError, Global};

/// Whether a reference, under its class, has a holder: a living task, a field of a standing object, a held
/// result or a frame that waits. If it is still held where it was seen, the cost does not depend on how many
/// there are. Else all of them are looked at.
///
/// To look at the results of calls that came, and at frames, takes memory. So it is out of memory only if
/// none of the others has the reference.
pub fn has_holder(
    alloc: Global,
    space: &SpaceState,
    sightings: &Sightings,
    reference: &Ref,
) -> Result<bool, AllocError>
    ensures held { IfOk result (λ held. (g : Setting) (s : State) → IsSpace g s space.now → held ≡ has_holder g s reference.now) }
    ensures err { OnErr result ((g : Setting) (s : State) → IsSpace g s space.now → is_at_hand g s reference.now ≡ false) }
{
    if sightings.is_held(space, reference) {
        return Ok(true);
    }
    if is_at_hand(space, reference) {
        return Ok(true);
    }
    is_away(alloc, space.living(), reference)
}

// Whether a task, a field, or a result of the space's own roots and lookups has the reference.
fn is_at_hand(space: &SpaceState, reference: &Ref) -> bool
    ensures { (g : Setting) (s : State) → IsSpace g s space.now → result ≡ is_at_hand g s reference.now }
{
    is_in_own_tables(space.living(), reference) || is_in_fields(space.owner(), reference)
}

// Whether a result of a call that came, or a frame that waits, has the reference.
fn is_away(alloc: Global, living: &Living, reference: &Ref) -> Result<bool, AllocError>
    ensures { IfOk result (λ is. (g : Setting) (s : State) → IsLiving g s living.now → is ≡ is_away s reference.now) }
{
    if living.call_results().has_reference(reference)? {
        return Ok(true);
    }
    is_in_frames(alloc, living.parked(), reference)
}
