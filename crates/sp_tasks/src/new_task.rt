//! A task that is about to start.

ghost use Rattle.std.specs.Prelude.{◌≡◌, true, IfOk};
ghost use Rattle.sp_tasks.specs.Behaviours.{origin_of};
ghost use Rattle.sp_tasks.specs.Rows.{is_ready, started_row};

use crate::Origin;
use crate::living::LivingTask;
use space_ids::Value;
use std::alloc::{AllocError, Global};
use std::marker::Model;

/// A task that is about to start, with all memory that it takes of its own. A contract sees its row.
#[derive(Drop)]
pub struct NewTask {
    task: LivingTask,
}

impl Model for NewTask {
    ghost use Rattle.std.specs.Prelude.{◌≡◌, true};
    ghost use Rattle.sp_tasks.specs.Rows.{TaskRow, is_ready};

    ghost Value = { TaskRow };

    ghost view = { λ new. new.task };

    ghost invariant = { λ new. is_ready new.task ≡ true };
}

impl NewTask {
    /// A task that starts at a method, with these arguments and this fuel. It holds the references among
    /// its arguments, each once.
    pub fn new(
        alloc: Global,
        origin: Origin,
        method: u32,
        arguments: &[Value],
        fuel: u64,
    ) -> Result<NewTask, AllocError>
        ensures { IfOk result (λ new. new ≡ started_row (origin_of origin) method arguments.now fuel) }
    {
        let task = LivingTask::start(alloc, origin, method, arguments, fuel)?;
        Ok(NewTask { task })
    }

    // Its row, which may go on.
    pub(crate) fn into_row(self) -> LivingTask
        ensures row { result ≡ self }
        ensures ready { is_ready result ≡ true }
    {
        let NewTask { task } = self;
        task
    }
}
