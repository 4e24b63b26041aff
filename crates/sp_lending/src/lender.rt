//! A lending space as a book asks for it.

use crate::rest::Rest;
use crate::space::LendingSpace;
use crate::task::Task;
use sp_core::SpaceCore;
use sp_events::{CoreFault, Event};
use sp_history::Setup;
use sp_lender::Lender;
use sp_outputs::Output;
use sp_tasks::{Op, Reply};
use space_ids::Value;
use std::alloc::AllocError;

impl<'p, N: Setup> Lender for LendingSpace<'p, N> {
    ghost use Rattle.sp_core.specs.Cores.{IsCore};
    ghost use Rattle.sp_lending.specs.Spaces.{IsSpace};

    type Task = Task<'p, N>;

    type Rest = Rest<'p>;

    type Base = SpaceCore;

    ghost is_space = { λ g s space. IsSpace g s space };

    ghost is_base = { λ g s core. IsCore g s core };

    fn copy(&self) -> Result<SpaceCore, AllocError> {
        self.parts.core.copy()
    }

    fn on(&mut self, event: &Event) -> Result<Vec<Output>, CoreFault> {
        self.parts.on(event)
    }

    fn root(
        &mut self,
        method: u32,
        arguments: &[Value],
        fuel: u64,
    ) -> Result<Vec<Output>, CoreFault> {
        self.parts.root(method, arguments, fuel)
    }

    fn reserve(&mut self) -> Result<(), AllocError> {
        self.parts.reserve()
    }

    fn lend(&mut self, task: u64) -> Option<Task<'p, N>> {
        let Some(parts) = self.parts.lend(task) else {
            return None;
        };
        Some(Task::of(parts))
    }

    fn commit(&mut self, task: &mut Task<'p, N>, op: &Op) -> Result<(Reply, Reply), CoreFault> {
        self.parts.commit(&mut task.parts, op)
    }

    fn park(&mut self, task: Task<'p, N>) -> Result<Vec<Output>, (Task<'p, N>, CoreFault)> {
        let (parts, fault) = match self.parts.park(task.into_parts()) {
            Ok(outputs) => return Ok(outputs),
            Err(back) => back,
        };
        Err((Task::of(parts), fault))
    }

    fn give_back(&mut self, task: Task<'p, N>) -> Result<(), (Task<'p, N>, CoreFault)> {
        let (parts, fault) = match self.parts.give_back(task.into_parts()) {
            Ok(()) => return Ok(()),
            Err(back) => back,
        };
        Err((Task::of(parts), fault))
    }

    fn finish(
        &mut self,
        task: Task<'p, N>,
    ) -> Result<(Vec<Output>, Rest<'p>), (Task<'p, N>, CoreFault)> {
        let (parts, fault) = match self.parts.finish(task.into_parts()) {
            Ok(ended) => return Ok(ended),
            Err(back) => back,
        };
        Err((Task::of(parts), fault))
    }
}
