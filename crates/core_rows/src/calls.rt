//! The calls of a core, each in a function that promises nothing: so what follows a call is proved without
//! what the call promises.

use super::classes::OneClass;
use sp_core::{CoreFault, Event, LentTask, Op, Output, Reply, Root, Shown, SpaceCore, Stand};
use std::alloc::Global;

/// What a core answers.
pub type Answer = Result<Vec<Output>, CoreFault>;

/// What a core answers to a task that is given to it, which comes back if it is refused.
pub type HandAnswer = Result<Vec<Output>, (LentTask, CoreFault)>;

pub fn event(core: &mut SpaceCore, classes: &OneClass, event: &Event) -> Answer {
    core.on(classes, event)
}

pub fn root(core: &mut SpaceCore, root: &Root) -> Answer {
    core.root(root)
}

pub fn lend(core: &mut SpaceCore, task: u64) -> Option<LentTask> {
    core.lend(task)
}

/// Does an operation of a task that stands there.
pub fn commit(
    core: &mut SpaceCore,
    classes: &OneClass,
    task: &mut LentTask,
    stand: &Stand,
    op: &Op,
) -> Result<Reply, CoreFault> {
    let (reply, _copy) = core.commit(classes, task, stand, op)?;
    Ok(reply)
}

pub fn give_back(core: &mut SpaceCore, alloc: Global, task: LentTask) -> HandAnswer {
    match core.give_back(task) {
        Ok(()) => Ok(Vec::new(alloc)),
        Err(refused) => Err(refused),
    }
}

pub fn park(core: &mut SpaceCore, classes: &OneClass, task: LentTask, stand: &Stand) -> HandAnswer {
    core.park(classes, task, stand, 0)
}

pub fn finish(
    core: &mut SpaceCore,
    classes: &OneClass,
    task: LentTask,
    stand: &Stand,
) -> HandAnswer {
    core.finish(classes, task, stand, 0)
}

pub fn object(core: &SpaceCore, index: usize) -> Option<Shown> {
    core.object(index)
}

pub fn ready(core: &SpaceCore) -> Option<u64> {
    core.ready()
}

/// Enters that the machine of a task made instructions, and returns whether they fit.
pub fn ran(task: &mut LentTask, made: u64) -> bool {
    let Some(before) = task.steps().checked_add(task.made()) else {
        return false;
    };
    if before.checked_add(made).is_none() {
        return false;
    }
    task.ran(made);
    true
}
