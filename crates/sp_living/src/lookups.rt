//! Lookups that the space makes (Java RMI specification, 6.1).

ghost use Rattle.std.specs.Prelude.{◌≡◌, ◌<◌, ◌^◌, true, OnOk};
ghost use Rattle.sp_registry.specs.Names.{is_name};
ghost use Rattle.sp_rules.specs.Classes.{Setting};
ghost use Rattle.sp_rules.specs.OwnEvents.{on_lookup};
ghost use Rattle.sp_rules.specs.State.{State};
ghost use Rattle.sp_tasks.specs.Lent.{KeepsLent};

use crate::Living;
use sp_outputs::Output;
use sp_requests::Asked;
use space_ids::{Row, Uuid};
use std::alloc::AllocError;

// The last number that a call or a task may have. A space is worn out once a number has come to that, and
// takes no event (98).
const LAST: u64 = 1 << 63;

impl Living {
    ghost use Rattle.sp_living.specs.Livings.{IsLiving};

    /// Makes a lookup of an allowed name in the registry of a peer. The event asks it as it ends. Nothing
    /// happens in a space whose numbers are worn out.
    pub fn look_up(&mut self, peer: &Uuid, name: Row<u8>) -> Result<(), AllocError>
        ensures looked_up { OnOk result ((g : Setting) (s : State) → IsLiving g s self.old → is_name name ≡ true → s.tasks_made < 2 ^ 63 → s.calls_made < 2 ^ 63 → IsLiving g (on_lookup g peer.now name s) self.new) }
        ensures lent { OnOk result (KeepsLent self.old.tasks self.new.tasks) }
    {
        let last = self.transport.calls_made();
        if last >= LAST || self.tasks.made() >= LAST {
            return Ok(());
        }
        let task = self.tasks.take_id();
        let asked = Asked::Lookup {
            number: last + 1,
            task,
            name,
        };
        self.transport.make_call(peer, asked);
        self.say(Output::Started(task))
    }
}
