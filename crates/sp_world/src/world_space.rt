//! What a world asks of its spaces.

ghost use Rattle.std.specs.Prelude.{◌≡◌};
ghost use Rattle.sp_rules.specs.Classes.{Setting};
ghost use Rattle.sp_rules.specs.Events.{Root as Roots};
ghost use Rattle.sp_rules.specs.State.{State};
ghost use Rattle.sp_events.specs.Events.{event_of};
ghost use Rattle.sp_world.specs.Answered.{Answered, event_made, event_refusal, task_made, task_refusal};

use sp_events::{CoreFault, Event};
use sp_outputs::Output;
use space_ids::{Uuid, Value};

/// A space as a world needs it. It keeps the rules of spaces: each call makes of its state what the rules
/// say, or is refused and changes nothing. Of several refusals the lowest number counts, but 98 before all
/// others. Out of memory may come in place of any answer, and changes nothing either: a call is made whole
/// or not at all.
///
/// A space answers a row of outputs, which the world keeps as it is: of more memory that a world needs for
/// them no space has to know.
pub trait WorldSpace {
    // A space of this setting is in this state.
    ghost is_space: { Setting → State → Self → Type 0 };

    /// The space's id.
    fn id(&self) -> Uuid
        ensures { (g : Setting) (s : State) → is_space g s self.now → result ≡ g.id };

    /// Lets an event happen, and answers its outputs.
    fn on(&mut self, event: &Event) -> Result<Vec<Output>, CoreFault>
        ensures { Answered (λ g s. is_space g s self.old) (λ g s. is_space g s self.new) (event_refusal (event_of event.now)) (event_made (event_of event.now)) result };

    /// Starts a task at a method, and answers the outputs.
    fn root(
        &mut self,
        method: u32,
        arguments: &[Value],
        fuel: u64,
    ) -> Result<Vec<Output>, CoreFault>
        ensures { Answered (λ g s. is_space g s self.old) (λ g s. is_space g s self.new) (event_refusal (Roots method arguments.now fuel)) (event_made (Roots method arguments.now fuel)) result };

    /// Lets a task make one instruction, and answers the outputs of the events that it is. The fault is
    /// NotLent if the task does not live or waits for a reply. A machine takes no instruction back: one
    /// whose instruction is refused, or finds no memory, may stand behind it, as long as the space is as
    /// it was and the next step of the task is that instruction.
    fn step(&mut self, task: u64) -> Result<Vec<Output>, CoreFault>
        ensures { Answered (λ g s. is_space g s self.old) (λ g s. is_space g s self.new) (task_refusal task) (task_made task) result };
}
