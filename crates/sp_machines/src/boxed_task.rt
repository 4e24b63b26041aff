//! Tasks of the machine behind pointers. A machine is handed on with its task at each turn, and is large.

use boxed_value::Boxed;
use std::alloc::{AllocError, Global};
use std::marker::Model;
use vm_code::Reply;
use vm_step::{Outcome, Pause, Program, Task};

// A task behind a pointer. A contract sees it as the task, and the calls have clauses of the task's.
#[derive(Drop)]
pub(crate) struct BoxedTask {
    task: Boxed<Task>,
}

impl Model for BoxedTask {
    ghost use Rattle.vm_step.specs.Task.{Tasked};
    ghost use Rattle.vm_step.specs.contracts.task.Task.{the_row};

    ghost Value = { Tasked };

    ghost coded = { the_row.coded };

    ghost view = { λ boxed. boxed.task };
}

impl BoxedTask {
    ghost use Rattle.std.specs.Prelude.{◌≡◌, ◌+◌, ◌<◌, ◌≤◌, IfOk, IsSome};
    ghost use Rattle.vm_step.specs.Run.{IsDue, IsOver, answer, run};
    ghost use Rattle.vm_step.specs.Task.{fuel_left, outcome_at, pause_at};

    // Puts a task behind a pointer. At `AllocError` it is let go.
    pub(crate) fn new(alloc: Global, task: Task) -> Result<BoxedTask, AllocError>
        ensures { IfOk result (λ boxed. boxed ≡ task) }
    {
        Ok(BoxedTask {
            task: Boxed::new(alloc, task)?,
        })
    }

    // The task.
    pub(crate) fn task(&self) -> &Task
        ensures { result.now ≡ self.now }
    {
        &self.task
    }

    // Makes so many instructions at most, as `Task::run` does.
    pub(crate) fn run(&mut self, program: &Program, most: u64) -> Pause
        requires { self.old.program ≡ program.now }
        ensures task { self.new ≡ record self.old { state = run program.now most self.old.state } }
        ensures pause { result ≡ pause_at self.new.state }
        ensures fuel { fuel_left self.new.state ≤ fuel_left self.old.state }
        ensures most { fuel_left self.old.state ≤ fuel_left self.new.state + most }
    {
        self.task.run(program, most)
    }

    // What it stands at.
    pub(crate) fn pause(&self) -> Pause
        ensures { result ≡ pause_at self.now.state }
    {
        self.task.pause()
    }

    // Completes the instruction that waits for this reply, as `Task::answer` does.
    pub(crate) fn answer(&mut self, program: &Program, reply: Reply)
        requires program { self.old.program ≡ program.now }
        requires due { IsDue program.now.classes reply self.old.state }
        ensures task { self.new ≡ record self.old { state = answer reply self.old.state } }
        ensures spent { fuel_left self.new.state < fuel_left self.old.state }
    {
        self.task.answer(program, reply);
    }

    // How much fuel it has left.
    pub(crate) fn fuel(&self) -> u64
        ensures { result ≡ fuel_left self.now.state }
    {
        self.task.fuel()
    }

    // How it ended, if it has.
    pub(crate) fn outcome(&self, alloc: Global) -> Result<Option<Outcome>, AllocError>
        ensures value { IfOk result (λ told. told ≡ outcome_at self.now.program.classes self.now.state) }
        ensures over { IfOk result (λ told. IsOver self.now.state → IsSome told) }
    {
        self.task.outcome(alloc)
    }
}
