//! Spaces that lend tasks.

ghost use Rattle.std.specs.Prelude.{◌≡◌, [], IfErr, IfOk, IfSome, OnErr, OnOk, map};
ghost use Rattle.sp_events.specs.Events.{event_of};
ghost use Rattle.sp_events.specs.declared.fault.CoreFault.TheVariants.{NotLent};
ghost use Rattle.sp_lender.specs.Hands.{IsHistorys, committed, finished, given_back, parked};
ghost use Rattle.sp_outputs.specs.Notes.{output_of};
ghost use Rattle.sp_rules.specs.Classes.{Setting};
ghost use Rattle.sp_rules.specs.Events.{Root as Roots};
ghost use Rattle.sp_rules.specs.LivingTasks.{op_reply};
ghost use Rattle.sp_rules.specs.Space.{on as after_event};
ghost use Rattle.sp_rules.specs.State.{State, ready_at};
ghost use Rattle.sp_tasks.specs.Behaviours.{op_of, reply_of};
ghost use Rattle.sp_tasks.specs.Rows.{replied_hand};

use crate::in_hand::InHand;
use sp_events::{CoreFault, Event};
use sp_outputs::Output;
use sp_tasks::{Op, Reply};
use space_ids::Value;
use std::alloc::AllocError;

/// A space that lends tasks. Each call makes of its state what the rules say, or is refused and changes
/// nothing. A task that is refused is handed back as it was.
pub trait Lender {
    /// A task in hand.
    type Task: InHand + Drop;
    /// What is left of a task that ended, to be let go by the caller.
    type Rest: Drop;
    /// A copy of a state, from which entries replay.
    type Base: Drop;

    // A space of this setting is in this state.
    ghost is_space: { Setting → State → Self → Type 0 };

    // It is a copy of this state of a space of this setting.
    ghost is_base: { Setting → State → Self.Base → Type 0 };

    /// A copy of the state of the space.
    fn copy(&self) -> Result<Self::Base, AllocError>
        ensures { IfOk result (λ base. (g : Setting) (s : State) → is_space g s self.now
            → is_base g s base) };

    /// Lets an event happen, and answers its outputs.
    fn on(&mut self, event: &Event) -> Result<Vec<Output>, CoreFault>
        ensures outputs { IfOk result (λ outputs. (g : Setting) (s : State) → is_space g s self.old → map output_of outputs.items ≡ (after_event g (event_of event.now) s).1) }
        ensures state { OnOk result ((g : Setting) (s : State) → is_space g s self.old → is_space g (after_event g (event_of event.now) s).0 self.new) }
        ensures unchanged { OnErr result ((g : Setting) (s : State) → is_space g s self.old → is_space g s self.new) };

    /// Starts a task at a method of its class set, and answers the outputs.
    fn root(
        &mut self,
        method: u32,
        arguments: &[Value],
        fuel: u64,
    ) -> Result<Vec<Output>, CoreFault>
        ensures outputs { IfOk result (λ outputs. (g : Setting) (s : State) → is_space g s self.old → map output_of outputs.items ≡ (after_event g (Roots method arguments.now fuel) s).1) }
        ensures state { OnOk result ((g : Setting) (s : State) → is_space g s self.old → is_space g (after_event g (Roots method arguments.now fuel) s).0 self.new) }
        ensures unchanged { OnErr result ((g : Setting) (s : State) → is_space g s self.old → is_space g s self.new) };

    /// Makes room for one more task in hand, so that the next [lend](Lender::lend) takes no memory.
    fn reserve(&mut self) -> Result<(), AllocError>
        ensures { (g : Setting) (s : State) → is_space g s self.old → is_space g s self.new };

    /// Lends a task that may go on, with its record, if it is not lent.
    fn lend(&mut self, task: u64) -> Option<Self::Task>
        ensures id { IfSome result (λ lent. (Self.Task.hand lent).id ≡ task) }
        ensures made { IfSome result (λ lent. (Self.Task.hand lent).made ≡ 0) }
        ensures of { IfSome result (λ lent. (g : Setting) (s : State) → is_space g s self.old → Self.Task.is_of g lent) }
        ensures historys { IfSome result (λ lent. (g : Setting) (s : State) → is_space g s self.old → IsHistorys (ready_at s task) (Self.Task.hand lent)) }
        ensures state { (g : Setting) (s : State) → is_space g s self.old → is_space g s self.new };

    /// Does the operation on the store at which a lent task stands, and gives the task the reply. It
    /// answers the reply twice, since it may not be out of memory after the operation.
    fn commit(&mut self, task: &mut Self::Task, op: &Op) -> Result<(Reply, Reply), CoreFault>
        ensures twice { IfOk result (λ replies. reply_of replies.1 ≡ reply_of replies.0) }
        ensures reply { IfOk result (λ replies. (g : Setting) (s : State) → is_space g s self.old → Self.Task.is_of g task.old → reply_of replies.0 ≡ op_reply g (op_of op.now) s) }
        ensures state { OnOk result ((g : Setting) (s : State) → is_space g s self.old → Self.Task.is_of g task.old → is_space g (after_event g (committed (Self.Task.hand task.old) op.now) s).0 self.new) }
        ensures task { IfOk result (λ replies. (g : Setting) (s : State) → is_space g s self.old → Self.Task.is_of g task.old → Self.Task.hand task.new ≡ replied_hand (reply_of replies.0) (Self.Task.hand task.old)) }
        ensures historys { OnOk result ((g : Setting) (s : State) → is_space g s self.old → Self.Task.is_of g task.old → IsHistorys (ready_at s (Self.Task.hand task.old).id) (Self.Task.hand task.old)) }
        ensures of { (g : Setting) (s : State) → is_space g s self.old → Self.Task.is_of g task.old → Self.Task.is_of g task.new }
        ensures unchanged { OnErr result ((g : Setting) (s : State) → is_space g s self.old → is_space g s self.new) }
        ensures kept { OnErr result (Self.Task.hand task.new ≡ Self.Task.hand task.old) };

    /// Lets a lent task wait for the reply to the call at which it stands, and answers the outputs.
    fn park(&mut self, task: Self::Task) -> Result<Vec<Output>, (Self::Task, CoreFault)>
        ensures outputs { IfOk result (λ outputs. (g : Setting) (s : State) → is_space g s self.old → Self.Task.is_of g task → map output_of outputs.items ≡ (after_event g (parked (Self.Task.hand task)) s).1) }
        ensures state { OnOk result ((g : Setting) (s : State) → is_space g s self.old → Self.Task.is_of g task → is_space g (after_event g (parked (Self.Task.hand task)) s).0 self.new) }
        ensures historys { OnOk result ((g : Setting) (s : State) → is_space g s self.old → Self.Task.is_of g task → IsHistorys (ready_at s (Self.Task.hand task).id) (Self.Task.hand task)) }
        ensures kept { IfErr result (λ back. Self.Task.hand back.0 ≡ Self.Task.hand task) }
        ensures of { IfErr result (λ back. (g : Setting) → Self.Task.is_of g task → Self.Task.is_of g back.0) }
        ensures unchanged { OnErr result ((g : Setting) (s : State) → is_space g s self.old → is_space g s self.new) };

    /// Takes a lent task back: it may go on, and can be lent again. It takes no memory.
    fn give_back(&mut self, task: Self::Task) -> Result<(), (Self::Task, CoreFault)>
        ensures state { OnOk result ((g : Setting) (s : State) → is_space g s self.old → Self.Task.is_of g task → is_space g (after_event g (given_back (Self.Task.hand task)) s).0 self.new) }
        ensures historys { OnOk result ((g : Setting) (s : State) → is_space g s self.old → Self.Task.is_of g task → IsHistorys (ready_at s (Self.Task.hand task).id) (Self.Task.hand task)) }
        ensures fault { IfErr result (λ back. back.1 ≡ NotLent) }
        ensures kept { IfErr result (λ back. Self.Task.hand back.0 ≡ Self.Task.hand task) }
        ensures of { IfErr result (λ back. (g : Setting) → Self.Task.is_of g task → Self.Task.is_of g back.0) }
        ensures unchanged { OnErr result ((g : Setting) (s : State) → is_space g s self.old → is_space g s self.new) };

    /// Lets a lent task go that has ended, and answers the outputs.
    fn finish(
        &mut self,
        task: Self::Task,
    ) -> Result<(Vec<Output>, Self::Rest), (Self::Task, CoreFault)>
        ensures outputs { IfOk result (λ ended. (g : Setting) (s : State) → is_space g s self.old → Self.Task.is_of g task → map output_of ended.0.items ≡ (after_event g (finished (Self.Task.hand task)) s).1) }
        ensures state { OnOk result ((g : Setting) (s : State) → is_space g s self.old → Self.Task.is_of g task → is_space g (after_event g (finished (Self.Task.hand task)) s).0 self.new) }
        ensures historys { OnOk result ((g : Setting) (s : State) → is_space g s self.old → Self.Task.is_of g task → IsHistorys (ready_at s (Self.Task.hand task).id) (Self.Task.hand task)) }
        ensures kept { IfErr result (λ back. Self.Task.hand back.0 ≡ Self.Task.hand task) }
        ensures of { IfErr result (λ back. (g : Setting) → Self.Task.is_of g task → Self.Task.is_of g back.0) }
        ensures unchanged { OnErr result ((g : Setting) (s : State) → is_space g s self.old → is_space g s self.new) };
}
