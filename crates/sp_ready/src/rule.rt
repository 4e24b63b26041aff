//! The rule of the queue, and what its steps tell.

ghost use Rattle.std.specs.Prelude.{◌≡◌, ⊤};
ghost use Rattle.sp_ready.specs.Notices.{AllTaken, Took, with_pushed};

use crossbeam_queue::protocol::{Join, Lesson, Outcome, Protocol, Split};
use std::collections::LinkedList;

/// What a seat knows: its parts of the right to know the whole, whether it puts notices in, which it put
/// in, and which it took, each with its place in the order in which they were put in. It exists in proofs
/// alone: no value of it is made.
pub struct Known {
    pub parts: u64,
    pub pushes: bool,
    pub pushed: LinkedList<u64>,
    pub taken: LinkedList<(u64, u64)>,
}

/// The rule: notices leave the queue in the order in which one seat put them in, each to one seat.
pub struct InOrder;

impl Protocol<u64, Known> for InOrder {
    ghost use Rattle.sp_ready.specs.Notices.{Queued, writer_at_first};

    ghost holds = { Queued };

    ghost first = { writer_at_first };
}

// One part is cut off, for a seat more.
pub(crate) struct Cut;

impl Split<Known> for Cut {
    ghost use Rattle.sp_ready.specs.Notices.{newcomer, without_part};

    ghost left = { without_part };

    ghost right = { λ v. newcomer };
}

impl Join<Known> for Cut {
    ghost use Rattle.sp_ready.specs.Notices.{joined, spent};

    ghost both = { joined };

    ghost spent = { spent };
}

// A notice is put in.
pub(crate) struct Puts;

impl Outcome<u64, Known> for Puts {
    ghost then = { λ v notice w. w ≡ with_pushed v notice };
}

// A notice is taken.
pub(crate) struct Takes;

impl Outcome<u64, Known> for Takes {
    ghost then = { Took };
}

// An empty queue tells nothing.
impl Lesson<u64, Known> for Takes {
    ghost fact = { λ v items. ⊤ };
}

// Who has every part learns what became of all notices.
pub(crate) struct Total;

impl Lesson<u64, Known> for Total {
    ghost fact = { AllTaken };
}
