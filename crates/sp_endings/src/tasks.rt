//! Tasks that end, and their results.

ghost use Rattle.std.specs.Prelude.{◌≡◌, ℕ, true, Some, IfOk, OnOk};
ghost use Rattle.sp_living.specs.Hands.{has_lent, task_of};
ghost use Rattle.sp_living.specs.Livings.{IsLiving};
ghost use Rattle.sp_rules.specs.Classes.{Setting};
ghost use Rattle.sp_rules.specs.LivingTasks.{after_steps, end_with, finish_task, keep_result, reply_frame, report};
ghost use Rattle.sp_rules.specs.State.{Acked, Living as Task, OfCall, State, task_at};
ghost use Rattle.sp_rules.specs.Tasks.{HasEnded, stand, steps};
ghost use Rattle.sp_tasks.specs.Behaviours.{origin_of, outcome_of};
ghost use Rattle.sp_tasks.specs.Lent.{KeepsLent, LendsNoMore};

use net_message::Message;
use sp_living::Living;
use sp_outputs::{Output, Turn};
use sp_requests::CallClasses;
use sp_tasks::{LentTask, Origin, Outcome, copy_outcome};
use std::alloc::{AllocError, Global};

/// Lets a lent task go that has ended so, with this fuel left, as [`end_task`] does.
pub fn finish_task<C: CallClasses>(
    alloc: Global,
    living: &mut Living,
    classes: &C,
    task: &LentTask,
    fuel: u64,
    outcome: Outcome,
) -> Result<(), AllocError>
    requires { has_lent living.old task.now ≡ true }
    ensures finished { OnOk result ((g : Setting) (s : State) → IsLiving g s living.old → C.tells classes.now g.classes → stand (task_of g task.now) ≡ HasEnded (outcome_of outcome) → fuel ≡ (task_of g task.now).fuel → IsLiving g (finish_task g task.now.id task.now.made s) living.new) }
    ensures lent { OnOk result (LendsNoMore task.now.id living.old.tasks living.new.tasks) }
{
    end_task(alloc, living, classes, task.id(), fuel, outcome)
}

/// Lets a task go that lives and has ended so, with this fuel left. Its result is held until it is
/// acknowledged, the call by which it came is answered, if its connection is open, and what it held is
/// let go.
pub fn end_task<C: CallClasses>(
    alloc: Global,
    living: &mut Living,
    classes: &C,
    id: u64,
    fuel: u64,
    outcome: Outcome,
) -> Result<(), AllocError>
    ensures ended { OnOk result ((g : Setting) (s : State) (t : Task) (k : ℕ) → IsLiving g s living.old → C.tells classes.now g.classes → task_at s id ≡ Some t → fuel ≡ (steps k t.task).fuel → IsLiving g (end_with g id (after_steps k t) (outcome_of outcome) s) living.new) }
    ensures lent { OnOk result (LendsNoMore id living.old.tasks living.new.tasks) }
{
    let held = living.held(id)?;
    let Some(origin) = living.take_task(id) else {
        return Ok(());
    };
    living.say(Output::Ended(id, copy_outcome(alloc, &outcome)?))?;
    report(alloc, living, classes, origin, id, fuel, outcome)?;
    living.drop_holders(&held);
    Ok(())
}

/// Holds the result of a task that ended so, with this fuel left, until it is acknowledged, and answers
/// the call by which the task came. Nothing happens if the connection of the call is not open.
pub fn report<C: CallClasses>(
    alloc: Global,
    living: &mut Living,
    classes: &C,
    origin: Origin,
    id: u64,
    fuel: u64,
    outcome: Outcome,
) -> Result<(), AllocError>
    ensures reported { OnOk result ((g : Setting) (s : State) → IsLiving g s living.old → C.tells classes.now g.classes → IsLiving g (report g (origin_of origin) id fuel (outcome_of outcome) s) living.new) }
    ensures lent { OnOk result (KeepsLent living.old.tasks living.new.tasks) }
{
    match origin {
        Origin::Root => living.keep_root_outcome(id, outcome),
        Origin::Call { conn, number } => {
            answer_call(alloc, living, classes, conn, number, fuel, outcome)
        }
    }
}

// Holds the result of the task of a call, and answers the call, if its connection is open.
fn answer_call<C: CallClasses>(
    alloc: Global,
    living: &mut Living,
    classes: &C,
    conn: u64,
    number: u64,
    fuel: u64,
    outcome: Outcome,
) -> Result<(), AllocError>
    ensures answered { OnOk result ((g : Setting) (s : State) (id : ℕ) → IsLiving g s living.old → C.tells classes.now g.classes → IsLiving g (report g (OfCall conn number) id fuel (outcome_of outcome) s) living.new) }
    ensures lent { OnOk result (KeepsLent living.old.tasks living.new.tasks) }
{
    if living.transport().connection(conn).is_none() {
        return Ok(());
    }
    let frame = frame_of(alloc, classes, number, fuel, &outcome)?;
    keep_outcome(living, conn, number, outcome)?;
    living.reply(Turn::Replies, conn, frame)
}

// Holds the result with which the task of a call ends, if it returned.
fn keep_outcome(
    living: &mut Living,
    conn: u64,
    number: u64,
    outcome: Outcome,
) -> Result<(), AllocError>
    ensures kept { OnOk result ((g : Setting) (s : State) → IsLiving g s living.old → IsLiving g (keep_result g (Acked conn number) (outcome_of outcome) s) living.new) }
    ensures lent { OnOk result (KeepsLent living.old.tasks living.new.tasks) }
{
    match outcome {
        Outcome::Returned(value) => living.keep(conn, number, value),
        Outcome::Threw(_) => Ok(()),
        Outcome::Spent => Ok(()),
    }
}

// The frame that answers a call whose task ended so.
fn frame_of<C: CallClasses>(
    alloc: Global,
    classes: &C,
    number: u64,
    fuel: u64,
    outcome: &Outcome,
) -> Result<Message, AllocError>
    ensures { IfOk result (λ frame. (g : Setting) → C.tells classes.now g.classes → frame ≡ reply_frame g number fuel (outcome_of outcome.now)) }
{
    match copy_outcome(alloc, outcome)? {
        Outcome::Returned(value) => Ok(Message::Returned {
            number,
            fuel,
            value,
        }),
        Outcome::Threw(class) => Ok(Message::Threw {
            number,
            class: classes.told_class(class),
        }),
        Outcome::Spent => Ok(Message::Spent { number }),
    }
}
