//! The calls of a core, and of what comes on its connections, each in a function that promises nothing: so what
//! follows a call is proved without what the call promises.

use crate::classes::RowClasses;
use crate::device::Device;
use dev_io::MemSource;
use sp_core::{CoreFault, Event, LentTask, Op, Output, Root, Shown, SpaceCore, Stand};
use sp_inflow::{Arrival, Arrivals};
use std::alloc::Global;
use test_rows::RowFault;

/// What a core answers.
pub type Answer = Result<Vec<Output>, CoreFault>;

/// What a core answers to a task that is given to it, which comes back if it is refused.
pub type HandAnswer = Result<Vec<Output>, (LentTask, CoreFault)>;

/// Returns what comes of bytes that are read so.
pub fn arrivals(
    alloc: Global,
    device: Device,
    bytes: &[u8],
) -> Result<Arrivals<MemSource>, RowFault> {
    if device.step == 0 {
        return Err(RowFault::Bad);
    }
    let mut source = MemSource::new(bytes.to_vec(alloc)?, device.step);
    if device.fail > 0 {
        source = source.failing_at(device.fail);
    }
    Ok(Arrivals::new(alloc, source)?)
}

pub fn next(arrivals: &mut Arrivals<MemSource>) -> Result<Option<Arrival>, RowFault> {
    Ok(arrivals.next()?)
}

pub fn event(core: &mut SpaceCore, classes: &RowClasses, event: &Event) -> Answer {
    core.on(classes, event)
}

pub fn root(core: &mut SpaceCore, root: &Root) -> Answer {
    core.root(root)
}

pub fn lend(core: &mut SpaceCore, task: u64) -> Option<LentTask> {
    core.lend(task)
}

/// Does an operation at which the task stands, and returns whether it is done.
pub fn commit(
    core: &mut SpaceCore,
    classes: &RowClasses,
    task: &mut LentTask,
    stand: &Stand,
    op: &Op,
) -> Result<(), CoreFault> {
    core.commit(classes, task, stand, op)?;
    Ok(())
}

pub fn park(
    core: &mut SpaceCore,
    classes: &RowClasses,
    task: LentTask,
    stand: &Stand,
    fuel: u64,
) -> HandAnswer {
    core.park(classes, task, stand, fuel)
}

pub fn finish(
    core: &mut SpaceCore,
    classes: &RowClasses,
    task: LentTask,
    stand: &Stand,
    fuel: u64,
) -> HandAnswer {
    core.finish(classes, task, stand, fuel)
}

pub fn object(core: &SpaceCore, index: usize) -> Option<Shown> {
    core.object(index)
}

pub fn ready(core: &SpaceCore) -> Option<u64> {
    core.ready()
}
