//! The end of an event.

ghost use Rattle.std.specs.Prelude.{◌≡◌, OnOk, map};
ghost use Rattle.sp_outputs.specs.Notes.{output_of};
ghost use Rattle.sp_rules.specs.Classes.{Setting};
ghost use Rattle.sp_rules.specs.Events.{in_order};
ghost use Rattle.sp_rules.specs.Requests.{settle};
ghost use Rattle.sp_rules.specs.Space.{conclude};
ghost use Rattle.sp_rules.specs.State.{State};

use crate::Living;
use sp_outputs::Output;
use std::alloc::AllocError;

impl Living {
    ghost use Rattle.sp_living.specs.Livings.{IsLiving};
    ghost use Rattle.sp_transport.specs.Settling.{MaySettle};

    /// Makes the dirty and clean calls that are due, and then asks the call or lookup of the event, if it
    /// made one.
    pub fn settle(&mut self) -> Result<(), AllocError>
        ensures settled { OnOk result ((g : Setting) (s : State) → IsLiving g s self.old → MaySettle s → IsLiving g (settle s) self.new) }
        ensures tasks { self.new.tasks ≡ self.old.tasks }
    {
        self.transport.settle()
    }

    /// Takes what the event answers, in its order: the event ends. Each connection remembers what was sent
    /// on it. It takes no memory.
    pub fn conclude(&mut self) -> Vec<Output>
        ensures outputs { (g : Setting) (s : State) → IsLiving g s self.old → map output_of result.items ≡ in_order s.notes }
        ensures tasks { self.new.tasks ≡ self.old.tasks }
        ensures concluded { (g : Setting) (s : State) → IsLiving g s self.old → IsLiving g (conclude s (in_order s.notes)).0 self.new }
    {
        self.transport.conclude()
    }
}
