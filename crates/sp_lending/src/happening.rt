//! Events that come from outside, and roots.

ghost use Rattle.std.specs.Prelude.{◌≡◌, IfOk, OnErr, OnOk, map};
ghost use Rattle.sp_events.specs.Events.{event_of};
ghost use Rattle.sp_lending.specs.Spaces.{IsSpace};
ghost use Rattle.sp_outputs.specs.Notes.{output_of};
ghost use Rattle.sp_rules.specs.Classes.{Setting};
ghost use Rattle.sp_rules.specs.Events.{Root as Roots};
ghost use Rattle.sp_rules.specs.Space.{on as after_event};
ghost use Rattle.sp_rules.specs.State.{State};

use crate::parts::Parts;
use sp_events::{CoreFault, Event, Root};
use sp_machines::refusal;
use sp_outputs::Output;
use space_ids::{Row, Value};
use table_copies::copy_values;

impl<'p> Parts<'p> {
    /// Lets an event happen, and answers its outputs.
    pub(crate) fn on(&mut self, event: &Event) -> Result<Vec<Output>, CoreFault>
        ensures outputs { IfOk result (λ outputs. (g : Setting) (s : State) → IsSpace g s self.old → map output_of outputs.items ≡ (after_event g (event_of event.now) s).1) }
        ensures state { OnOk result ((g : Setting) (s : State) → IsSpace g s self.old → IsSpace g (after_event g (event_of event.now) s).0 self.new) }
        ensures unchanged { OnErr result ((g : Setting) (s : State) → IsSpace g s self.old → IsSpace g s self.new) }
    {
        self.core.on(self.classes, event)
    }

    /// Starts a task at a method of the class set, and answers the outputs.
    pub(crate) fn root(
        &mut self,
        method: u32,
        arguments: &[Value],
        fuel: u64,
    ) -> Result<Vec<Output>, CoreFault>
        ensures outputs { IfOk result (λ outputs. (g : Setting) (s : State) → IsSpace g s self.old → map output_of outputs.items ≡ (after_event g (Roots method arguments.now fuel) s).1) }
        ensures state { OnOk result ((g : Setting) (s : State) → IsSpace g s self.old → IsSpace g (after_event g (Roots method arguments.now fuel) s).0 self.new) }
        ensures unchanged { OnErr result ((g : Setting) (s : State) → IsSpace g s self.old → IsSpace g s self.new) }
    {
        let refused = refusal(self.home.program, method, arguments)?;
        let arguments = Row::new(copy_values(self.home.alloc, arguments)?);
        self.core.root(&Root {
            method,
            arguments,
            fuel,
            refused,
        })
    }
}
