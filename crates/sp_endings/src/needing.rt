//! What lives in a space, counted, and the space's own objects that it needs (Java RMI specification, 3.3).

ghost use Rattle.std.specs.Prelude.{◌≡◌, ◌||◌, ℕ, List, IfOk, OnOk, filter, length};
ghost use Rattle.space_ids.specs.declared.ids.ObjId.{ObjId};
ghost use Rattle.sp_endings.specs.Needs.{calls_at, is_needed, needed_at};
ghost use Rattle.sp_living.specs.Livings.{IsLiving};
ghost use Rattle.sp_living.specs.Parts.{AreParkedIn};
ghost use Rattle.sp_parked.specs.Parkings.{AreParked, parked_of};
ghost use Rattle.sp_parked.specs.declared.frame.ParkedFrame.{ParkedFrame as Waiting};
ghost use Rattle.sp_rules.specs.Classes.{Setting};
ghost use Rattle.sp_rules.specs.Frames.{is_busy, is_call_frame};
ghost use Rattle.sp_rules.specs.Holders.{in_frame, is_parked};
ghost use Rattle.sp_rules.specs.References.{is_id_in, own_ids, references_of};
ghost use Rattle.sp_rules.specs.State.{State};

use sp_living::Living;
use sp_parked::{Frame, Parked, ParkedFrame};
use sp_store::IdSet;
use space_ids::{Uuid, Value};
use std::alloc::{AllocError, Global};

// How many tasks may live, parked calls included.
const MOST_TASKS: usize = 4096;

/// Whether no more calls may come, since as many tasks live as may, parked calls included.
pub fn is_busy(alloc: Global, living: &Living) -> Result<bool, AllocError>
    ensures { IfOk result (λ busy. (g : Setting) (s : State) → IsLiving g s living.now → busy ≡ is_busy s) }
{
    let calls = count_calls(alloc, living.parked())?;
    Ok(living.tasks().len().saturating_add(calls) >= MOST_TASKS)
}

// How many calls are parked.
fn count_calls(alloc: Global, parked: &Parked) -> Result<usize, AllocError>
    ensures { IfOk result (λ count. (frames : List (ℕ × Waiting)) → AreParked frames parked.now → count ≡ length (filter (λ row. is_call_frame (parked_of row.1).frame) frames)) }
{
    if parked.is_empty() {
        return Ok(0);
    }
    let tickets = parked.tickets(alloc)?;
    let mut count = 0;
    for ticket in &tickets {
        if is_call(parked, *ticket) {
            count += 1;
        }
    }
    Ok(count)
}

// Whether a call is parked under a ticket.
fn is_call(parked: &Parked, ticket: u64) -> bool
    ensures { (frames : List (ℕ × Waiting)) → AreParked frames parked.now → result ≡ calls_at ticket frames }
{
    match parked.get(ticket) {
        Some(frame) => match frame.frame {
            Frame::Call(_) => true,
            Frame::Returned { value: _, fuel: _ } => false,
        },
        None => false,
    }
}

/// Adds the ids of the space's own objects that tasks hold, that are in results that are held, and that
/// parked calls have: as their targets, or among their arguments.
pub fn insert_own(alloc: Global, living: &Living, ids: &mut IdSet) -> Result<(), AllocError>
    ensures { OnOk result ((g : Setting) (s : State) → IsLiving g s living.now → (id : ObjId) → is_id_in ids.new id ≡ (is_id_in ids.old id || is_needed g s id)) }
{
    let own = living.id();
    living.tasks().insert_own(&own, ids)?;
    living.results().insert_own(&own, ids)?;
    living.call_results().insert_own(&own, ids)?;
    insert_parked(alloc, &own, living.parked(), ids)
}

// Adds those that parked calls have.
fn insert_parked(
    alloc: Global,
    own: &Uuid,
    parked: &Parked,
    ids: &mut IdSet,
) -> Result<(), AllocError>
    ensures { OnOk result ((g : Setting) (s : State) → own.now ≡ g.id → AreParkedIn s.parked parked.now → (id : ObjId) → is_id_in ids.new id ≡ (is_id_in ids.old id || is_parked g s id)) }
{
    for ticket in &parked.tickets(alloc)? {
        insert_frame(own, parked, *ticket, ids)?;
    }
    Ok(())
}

// Adds those that the call parked under a ticket has.
fn insert_frame(own: &Uuid, parked: &Parked, ticket: u64, ids: &mut IdSet) -> Result<(), AllocError>
    ensures { OnOk result ((g : Setting) (frames : List (ℕ × Waiting)) → own.now ≡ g.id → AreParked frames parked.now → (id : ObjId) → is_id_in ids.new id ≡ (is_id_in ids.old id || needed_at g ticket frames id)) }
{
    match parked.get(ticket) {
        Some(frame) => insert_call(own, frame, ids),
        None => Ok(()),
    }
}

// Adds the space's own objects that a parked call has; a parked result is not the space's to keep.
fn insert_call(own: &Uuid, frame: &ParkedFrame, ids: &mut IdSet) -> Result<(), AllocError>
    ensures { OnOk result ((g : Setting) → own.now ≡ g.id → (id : ObjId) → is_id_in ids.new id ≡ (is_id_in ids.old id || is_id_in (in_frame g (parked_of frame.now).frame) id)) }
{
    match &frame.frame {
        Frame::Call(call) => {
            ids.insert(call.target)?;
            insert_arguments(own, call.arguments.as_slice(), ids)
        }
        Frame::Returned { value: _, fuel: _ } => Ok(()),
    }
}

// Adds the space's own objects among these values.
fn insert_arguments(own: &Uuid, arguments: &[Value], ids: &mut IdSet) -> Result<(), AllocError>
    ensures { OnOk result ((id : ObjId) → is_id_in ids.new id ≡ (is_id_in ids.old id || is_id_in (own_ids own.now (references_of arguments.now)) id)) }
{
    for value in arguments {
        ids.insert_value(own, value)?;
    }
    Ok(())
}
