//! References in the fields of standing objects.

ghost use Rattle.std.specs.Prelude.{◌≡◌, true, slice_get};
ghost use Rattle.std.specs.List.{list_any};
ghost use Rattle.sp_owner.specs.Owners.{IsOwner, owner_parts};
ghost use Rattle.sp_rules.specs.Classes.{Setting};
ghost use Rattle.sp_rules.specs.Holders.{fields_of};
ghost use Rattle.sp_rules.specs.References.{is_reference_in, references_of};
ghost use Rattle.sp_rules.specs.State.{State, standing};
ghost use Rattle.sp_state.specs.Spaces.{AreNumbered};
ghost use Rattle.sp_holders.specs.Places.{fields_have};

use crate::same::is_in;
use sp_owner::Owner;
use space_ids::{ObjId, Ref};

// Whether a field of a standing object has the reference.
pub(crate) fn is_in_fields(owner: &Owner, reference: &Ref) -> bool
    ensures { (g : Setting) (s : State) → IsOwner g s owner.now → AreNumbered (owner_parts s) → result ≡ list_any (λ o. is_reference_in (references_of (fields_of g s o)) reference.now) (standing s.store) }
{
    let count = owner.store().len();
    for index in 0..count {
        if is_in_object(owner, index, reference) {
            return true;
        }
    }
    false
}

// Whether a field of the standing object at this index has the reference.
pub(crate) fn is_in_object(owner: &Owner, index: usize, reference: &Ref) -> bool
    ensures { (g : Setting) (s : State) → IsOwner g s owner.now → AreNumbered (owner_parts s) → result ≡ fields_have g s reference.now (slice_get (standing s.store) index) }
{
    let Some((id, _)) = owner.object(index) else {
        return false;
    };
    match owner.fields_of(id) {
        Some(fields) => is_in(fields, reference),
        None => false,
    }
}

// Whether a field of the object of this id, if it stands, has the reference.
pub(crate) fn object_has(owner: &Owner, id: ObjId, reference: &Ref) -> bool
    ensures { result ≡ true → (g : Setting) (s : State) → IsOwner g s owner.now → list_any (λ o. is_reference_in (references_of (fields_of g s o)) reference.now) (standing s.store) ≡ true }
{
    match owner.fields_of(id) {
        Some(fields) => is_in(fields, reference),
        None => false,
    }
}
