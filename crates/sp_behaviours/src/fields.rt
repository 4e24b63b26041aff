//! The fields of remote objects.

ghost use Rattle.std.specs.Prelude.{◌≡◌, [], IfNone, IfSome, length, map, option_map, slice_get};
ghost use Rattle.sp_requests.specs.ClassSets.{kind_of};
ghost use Rattle.sp_behaviours.specs.Fields.{fields_of, kind_of_word};

use sp_requests::FieldKind;
use space_ids::ClassId;
use vm_heap::WordKind;
use vm_step::Program;

/// How many fields an object of a remote class has; 0 for any other class.
pub(crate) fn count_fields(program: &Program, class: ClassId) -> usize
    ensures { result ≡ length (fields_of program.now.classes class) }
{
    match remote_kinds(program, class) {
        Some(kinds) => kinds.len(),
        None => 0,
    }
}

/// What the field of an object of a remote class holds in this slot, if it has one there.
pub(crate) fn kind_at(program: &Program, class: ClassId, slot: usize) -> Option<FieldKind>
    ensures { option_map kind_of result ≡ slice_get (fields_of program.now.classes class) slot }
{
    match remote_kinds(program, class) {
        Some(kinds) => kind_in(kinds, slot),
        None => None,
    }
}

// What the fields of an object of a class hold, if it is remote.
#[tactic(auto, using(crate::proofs::KeptKinds::told_none, crate::proofs::KeptKinds::none_kept))]
fn remote_kinds(program: &Program, class: ClassId) -> Option<&[WordKind]>
    ensures some { IfSome result (λ kinds. map kind_of_word kinds.now ≡ fields_of program.now.classes class) }
    ensures none { IfNone result (fields_of program.now.classes class ≡ []) }
{
    let _linked = program.linked();
    if !program.is_remote(class) {
        return None;
    }
    program.field_kinds(class)
}

// What the field in this slot holds.
#[tactic(auto, using(crate::proofs::KeptKinds::kept_in))]
fn kind_in(kinds: &[WordKind], slot: usize) -> Option<FieldKind>
    ensures { option_map kind_of result ≡ slice_get (map kind_of_word kinds.now) slot }
{
    match kinds.get(slot) {
        Some(kind) => Some(kept_as(*kind)),
        None => None,
    }
}

fn kept_as(kind: WordKind) -> FieldKind
    ensures { kind_of result ≡ kind_of_word kind }
{
    match kind {
        WordKind::Int => FieldKind::Int,
        WordKind::Reference => FieldKind::Reference,
    }
}
