//! References in frames that wait for leases.

ghost use Rattle.std.specs.Prelude.{◌≡◌, ℕ, List, IfOk};
ghost use Rattle.std.specs.List.{list_any};
ghost use Rattle.sp_living.specs.Parts.{AreParkedIn};
ghost use Rattle.sp_parked.specs.Parkings.{AreParked, frame_of};
ghost use Rattle.sp_parked.specs.declared.frame.ParkedFrame.{ParkedFrame as Waiting};
ghost use Rattle.sp_rules.specs.Holders.{references_of_frame};
ghost use Rattle.sp_rules.specs.References.{is_reference_in};
ghost use Rattle.sp_rules.specs.State.{ParkedFrame as Row};
ghost use Rattle.sp_holders.specs.Places.{has_at};

use crate::same::{is_in, is_result};
use sp_parked::{Frame, Parked};
use space_ids::Ref;
use std::alloc::{AllocError, Global};

// Whether a frame that waits has the reference.
pub(crate) fn is_in_frames(
    alloc: Global,
    parked: &Parked,
    reference: &Ref,
) -> Result<bool, AllocError>
    ensures { IfOk result (λ is. (frames : List Row) → AreParkedIn frames parked.now → is ≡ list_any (λ p. is_reference_in (references_of_frame p.frame) reference.now) frames) }
{
    for ticket in &parked.tickets(alloc)? {
        if is_at(parked, *ticket, reference) {
            return Ok(true);
        }
    }
    Ok(false)
}

// Whether the frame that waits under a ticket has the reference.
fn is_at(parked: &Parked, ticket: u64, reference: &Ref) -> bool
    ensures { (frames : List (ℕ × Waiting)) → AreParked frames parked.now → result ≡ has_at reference.now ticket frames }
{
    match parked.get(ticket) {
        Some(waiting) => is_in_frame(&waiting.frame, reference),
        None => false,
    }
}

// Whether a frame has the reference.
fn is_in_frame(frame: &Frame, reference: &Ref) -> bool
    ensures { result ≡ is_reference_in (references_of_frame (frame_of frame.now)) reference.now }
{
    match frame {
        Frame::Call(call) => is_in(call.arguments.as_slice(), reference),
        Frame::Returned { value, fuel: _ } => is_result(value, reference),
    }
}
