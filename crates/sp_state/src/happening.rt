//! Events that come from outside, each as a whole.

ghost use Rattle.std.specs.Prelude.{◌≡◌, [], IfOk, OnOk, map};
ghost use Rattle.sp_events.specs.Events.{event_of, event_of_root};
ghost use Rattle.sp_outputs.specs.Notes.{output_of};
ghost use Rattle.sp_rules.specs.Classes.{Setting};
ghost use Rattle.sp_rules.specs.Space.{happen, on};
ghost use Rattle.sp_rules.specs.State.{State};
ghost use Rattle.sp_tasks.specs.Lent.{KeepsLent};

use crate::SpaceState;
use sp_events::{Event, Root};
use sp_outputs::Output;
use sp_requests::CallClasses;
use std::alloc::AllocError;

impl SpaceState {
    ghost use Rattle.sp_state.specs.LetIn.{IsLetIn};
    ghost use Rattle.sp_state.specs.Spaces.{IsAtRest, IsSpace};

    /// Takes an event that comes from outside, which the rules do not refuse. Returns what it answers, in its
    /// order.
    pub fn on<C: CallClasses>(
        &mut self,
        classes: &C,
        event: Event,
    ) -> Result<Vec<Output>, AllocError>
        ensures lent { OnOk result (KeepsLent self.old.living.tasks self.new.living.tasks) }
        ensures outputs { IfOk result (λ outputs. (g : Setting) (s : State) → IsSpace g s self.old → IsAtRest s → C.tells classes.now g.classes → IsLetIn g s (event_of event) → map output_of outputs.items ≡ (on g (event_of event) s).1) }
        ensures happened { OnOk result ((g : Setting) (s : State) → IsSpace g s self.old → IsAtRest s → C.tells classes.now g.classes → IsLetIn g s (event_of event) → IsSpace g (on g (event_of event) s).0 self.new) }
    {
        self.happen(classes, event)?;
        let outputs = self.conclude()?;
        Ok(outputs)
    }

    /// Starts a root. Returns what the event answers, in its order.
    pub fn on_root(&mut self, root: &Root) -> Result<Vec<Output>, AllocError>
        ensures lent { OnOk result (KeepsLent self.old.living.tasks self.new.living.tasks) }
        ensures outputs { IfOk result (λ outputs. (g : Setting) (s : State) → IsSpace g s self.old → IsAtRest s → map output_of outputs.items ≡ (on g (event_of_root root.now) s).1) }
        ensures happened { OnOk result ((g : Setting) (s : State) → IsSpace g s self.old → IsAtRest s → IsSpace g (on g (event_of_root root.now) s).0 self.new) }
    {
        let _ = self.root(root.method, root.arguments.as_slice(), root.fuel)?;
        let outputs = self.conclude()?;
        Ok(outputs)
    }

    // What an event makes of the state, before its end.
    fn happen<C: CallClasses>(&mut self, classes: &C, event: Event) -> Result<(), AllocError>
        ensures happened { OnOk result ((g : Setting) (s : State) → IsSpace g s self.old → IsAtRest s → C.tells classes.now g.classes → IsLetIn g s (event_of event) → IsSpace g (happen g (event_of event) s) self.new) }
        ensures lent { OnOk result (KeepsLent self.old.living.tasks self.new.living.tasks) }
    {
        match event {
            Event::Moment(moment) => self.moment(moment),
            Event::Sweep => self.sweep(),
            Event::RootAck(task) => {
                self.root_ack(task);
                Ok(())
            }
            Event::Bind { name, value } => self.bind(name.as_slice(), &value),
            Event::Rebind { name, value } => self.rebind(name.as_slice(), &value),
            Event::Unbind { name } => self.unbind(name.as_slice()),
            Event::Lookup { peer, name } => self.look_up(&peer, name),
            Event::Opened { conn, dialled } => self.opened(conn, dialled),
            Event::Refused { peer } => self.refused(classes, &peer),
            Event::Received { conn, message } => self.received(classes, conn, message),
            Event::Closed { conn } => self.end_connection(classes, conn),
            Event::ReadFailed { conn } => self.end_connection(classes, conn),
            Event::Bad { conn } => self.end_connection(classes, conn),
            Event::WriteFailed { conn, unsent } => self.fail_write(classes, conn, unsent),
        }
    }
}
