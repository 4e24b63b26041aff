//! Dirty and clean calls that fail. A failure removes no entry and no name (Java RMI specification, 3.3).

ghost use Rattle.std.specs.Prelude.{◌≡◌, OnOk, filter};
ghost use Rattle.dgc_client.specs.declared.lease.Due.TheVariants as due;
ghost use Rattle.sp_living.specs.Livings.{IsLiving};
ghost use Rattle.sp_rules.specs.Classes.{Setting};
ghost use Rattle.sp_rules.specs.Endings.{fail_dirty, fail_group};
ghost use Rattle.sp_rules.specs.Lists.{each};
ghost use Rattle.sp_rules.specs.ParkedFrames.{fail_parked, names};
ghost use Rattle.sp_rules.specs.State.{State};
ghost use Rattle.sp_tasks.specs.Lent.{KeepsLent};

use crate::passing::give_up;
use dgc_client::{Due, Group};
use sp_living::Living;
use sp_requests::CallClasses;
use space_ids::ForeignId;
use std::alloc::AllocError;

/// Notes that the dirty or clean calls of a group failed, made under this number. A failed dirty call ends
/// the frames that are parked for it with UnmarshalException.
pub fn fail_group<C: CallClasses>(
    living: &mut Living,
    classes: &C,
    group: &Group,
    call: u64,
) -> Result<(), AllocError>
    ensures failed { OnOk result ((g : Setting) (s : State) → IsLiving g s living.old → C.tells classes.now g.classes → IsLiving g (fail_group g group.now.kind group.now call s) living.new) }
    ensures lent { OnOk result (KeepsLent living.old.tasks living.new.tasks) }
{
    match group.kind {
        Due::Dirty => fail_dirty_calls(living, classes, group, call),
        Due::Clean { strong: _ } => {
            living.clean_failed(group, call);
            Ok(())
        }
    }
}

// Notes that the dirty calls of a group failed, one after the other.
fn fail_dirty_calls<C: CallClasses>(
    living: &mut Living,
    classes: &C,
    group: &Group,
    call: u64,
) -> Result<(), AllocError>
    ensures failed { OnOk result ((g : Setting) (s : State) → IsLiving g s living.old → C.tells classes.now g.classes → IsLiving g (fail_group g due.Dirty group.now call s) living.new) }
    ensures lent { OnOk result (KeepsLent living.old.tasks living.new.tasks) }
{
    for id in group.ids.as_slice() {
        let reference = ForeignId {
            space: group.peer,
            id: *id,
        };
        fail_dirty(living, classes, &reference, call)?;
    }
    Ok(())
}

// Notes that the dirty call of a reference failed. If it was not overtaken, the frames end that are parked
// for the reference.
fn fail_dirty<C: CallClasses>(
    living: &mut Living,
    classes: &C,
    reference: &ForeignId,
    call: u64,
) -> Result<(), AllocError>
    ensures failed { OnOk result ((g : Setting) (s : State) → IsLiving g s living.old → C.tells classes.now g.classes → IsLiving g (fail_dirty g call s reference.now) living.new) }
    ensures lent { OnOk result (KeepsLent living.old.tasks living.new.tasks) }
{
    let lacks = living.dirty_failed(reference, call)?;
    if lacks {
        fail_named(living, classes, reference)
    } else {
        Ok(())
    }
}

// Ends the frames that are parked for a reference, in the order in which they came.
fn fail_named<C: CallClasses>(
    living: &mut Living,
    classes: &C,
    reference: &ForeignId,
) -> Result<(), AllocError>
    ensures failed { OnOk result ((g : Setting) (s : State) → IsLiving g s living.old → C.tells classes.now g.classes → IsLiving g (each (fail_parked g) (filter (names reference.now) s.parked) s) living.new) }
    ensures lent { OnOk result (KeepsLent living.old.tasks living.new.tasks) }
{
    for frame in &living.take_frames_naming(reference)? {
        give_up(living, classes, frame)?;
    }
    Ok(())
}
