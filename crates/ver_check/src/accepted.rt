//! Class sets that are accepted.

ghost use Rattle.std.specs.Prelude.{◌≡◌, IfErr};
ghost use Rattle.ver_check.specs.Acceptance.{AreSafe};
ghost use Rattle.ver_check.specs.Faults.{IsCheckFault};
ghost use Rattle.ver_check.specs.Refusals.{SettlesSet};

use super::all_methods::check_all;
use super::{CheckFault, Linked};
use std::alloc::Global;
use std::marker::Model;

/// A linked class set whose methods are all type safe: `accept` alone makes one. A contract sees it
/// as the linked class set.
#[derive(Drop)]
pub struct Accepted {
    linked: Linked,
}

impl Model for Accepted {
    ghost use Rattle.cls_link.specs.Links.{Links};
    ghost use Rattle.ver_check.specs.Acceptance.{AreSafe};

    ghost Value = { Links };

    ghost view = { λ accepted. accepted.linked };

    ghost invariant = { λ accepted. AreSafe accepted.linked };
}

impl Accepted {
    ghost use Rattle.std.specs.Prelude.{◌≡◌};
    ghost use Rattle.ver_check.specs.Acceptance.{AreSafe};

    /// Returns the linked class set.
    pub fn linked(&self) -> &Linked
        ensures linked { result.now ≡ self.now }
        ensures safe { AreSafe self.now }
    {
        &self.linked
    }
}

/// Returns the linked class set as accepted, exactly if every method is type safe. A method without
/// code is type safe.
///
/// A fault names the first method, by number, that is not type safe. In it these are looked for in this order:
///
/// 1. the faults of its StackMapTable;
/// 2. more arguments than local variables (`Local` at 0);
/// 3. code without an instruction (`FallsOff` at 0);
/// 4. the first instruction at which the pass over it stops (JVMS 4.10.1.6).
///
/// At that instruction its local variables come first, then its operands
/// from the top, further conditions, the method's result, the room on the stack, its targets in order, and what is after
/// it. `NoFrame` names the offset at which the frame is missing, every other rule the instruction
/// that breaks it.
///
/// The pass goes once over the instructions. A table of the method's frames by the index of the
/// instruction is made first, so that finding a frame takes constant time.
pub fn accept(alloc: Global, linked: Linked) -> Result<Accepted, CheckFault>
    ensures exact { SettlesSet result (λ accepted. (accepted ≡ linked) × AreSafe linked) (¬ AreSafe linked) }
    ensures fault { IfErr result (IsCheckFault linked) }
{
    check_all(alloc, &linked)?;
    Ok(Accepted { linked })
}
