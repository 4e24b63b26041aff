//! Frames that wait for leases, as they come and as they go.

ghost use Rattle.std.specs.Prelude.{◌≡◌, [], true, OnOk, map};
ghost use Rattle.std.specs.List.{IsDistinct};
ghost use Rattle.dgc_client.specs.Table.{is_same};
ghost use Rattle.sp_endings.specs.Passing.{pass_on};
ghost use Rattle.sp_living.specs.Livings.{IsLiving};
ghost use Rattle.sp_parked.specs.Parkings.{parked_of};
ghost use Rattle.sp_rules.specs.Classes.{Setting};
ghost use Rattle.sp_rules.specs.Lists.{each};
ghost use Rattle.sp_rules.specs.ParkedFrames.{go_all, park_frame};
ghost use Rattle.sp_rules.specs.State.{State};
ghost use Rattle.sp_store.specs.Stores.{IsAfter};
ghost use Rattle.sp_tasks.specs.Lent.{KeepsLent};

use crate::passing::pass_on;
use sp_living::Living;
use sp_parked::ParkedFrame;
use sp_requests::CallClasses;
use sp_store::Store;
use std::alloc::AllocError;

/// Parks a frame that came until each foreign reference in it has a lease, and lets all frames go that
/// wait for nothing. It names each reference once.
pub fn park<C: CallClasses>(
    living: &mut Living,
    store: &Store,
    classes: &C,
    frame: ParkedFrame,
) -> Result<(), AllocError>
    requires { IsDistinct is_same frame.references }
    ensures parked { OnOk result ((g : Setting) (s : State) → IsLiving g s living.old → C.tells classes.now g.classes → IsAfter g s.store store.now → IsLiving g (park_frame g frame.conn frame.number (parked_of frame).frame frame.references s) living.new) }
    ensures lent { OnOk result (KeepsLent living.old.tasks living.new.tasks) }
{
    let alone = goes_alone(living, &frame);
    if alone {
        pass_on(living, store, classes, frame)
    } else {
        wait(living, store, classes, frame)
    }
}

// Whether a frame that comes has no foreign reference and no frame waits: then it is the one that goes, and at once.
fn goes_alone(living: &Living, frame: &ParkedFrame) -> bool
    ensures { result ≡ true → (g : Setting) (s : State) → IsLiving g s living.now → (frame.now.references ≡ []) × (s.parked ≡ []) }
{
    let named = frame.references.as_slice();
    let bare = named.is_empty();
    if bare {
        living.parked().is_empty()
    } else {
        false
    }
}

// Parks a frame, and lets all frames go that wait for nothing.
fn wait<C: CallClasses>(
    living: &mut Living,
    store: &Store,
    classes: &C,
    frame: ParkedFrame,
) -> Result<(), AllocError>
    requires { IsDistinct is_same frame.references }
    ensures parked { OnOk result ((g : Setting) (s : State) → IsLiving g s living.old → C.tells classes.now g.classes → IsAfter g s.store store.now → IsLiving g (park_frame g frame.conn frame.number (parked_of frame).frame frame.references s) living.new) }
    ensures lent { OnOk result (KeepsLent living.old.tasks living.new.tasks) }
{
    living.hold_ids(frame.references.as_slice())?;
    living.put_frame(frame)?;
    go_all(living, store, classes)
}

/// Lets all frames go of whose references each has a lease, in the order in which they came: a call
/// starts its task, and a result is acknowledged and passed on to who asked.
pub fn go_all<C: CallClasses>(
    living: &mut Living,
    store: &Store,
    classes: &C,
) -> Result<(), AllocError>
    ensures gone { OnOk result ((g : Setting) (s : State) → IsLiving g s living.old → C.tells classes.now g.classes → IsAfter g s.store store.now → IsLiving g (go_all g s) living.new) }
    ensures lent { OnOk result (KeepsLent living.old.tasks living.new.tasks) }
{
    let frames = living.take_free_frames()?;
    pass_all_on(living, store, classes, frames)
}

// Lets frames go that have been taken out, in this order.
fn pass_all_on<C: CallClasses>(
    living: &mut Living,
    store: &Store,
    classes: &C,
    frames: Vec<ParkedFrame>,
) -> Result<(), AllocError>
    ensures passed { OnOk result ((g : Setting) (s : State) → IsLiving g s living.old → C.tells classes.now g.classes → IsAfter g s.store store.now → IsLiving g (each (pass_on g) (map parked_of frames.items) s) living.new) }
    ensures lent { OnOk result (KeepsLent living.old.tasks living.new.tasks) }
{
    for frame in frames {
        pass_on(living, store, classes, frame)?;
    }
    Ok(())
}
