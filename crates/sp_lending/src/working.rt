//! Work of tasks in their space, which keeps them meanwhile.

ghost use Rattle.std.specs.Prelude.{◌≡◌, ◌⊎◌, ℕ, suc, [], true, IfOk, OnErr, map};
ghost use Rattle.sp_core.specs.Cores.{has_lent};
ghost use Rattle.sp_lending.specs.Spaces.{AreOf, IsIn, IsInSome, IsSpace};
ghost use Rattle.sp_lending.specs.Works.{HasWorked, IsAtWork, IsOwn, IsTurned, operations_after};
ghost use Rattle.sp_outputs.specs.Notes.{output_of};
ghost use Rattle.sp_rules.specs.Classes.{Setting};
ghost use Rattle.sp_rules.specs.State.{State};

use crate::parts::Parts;
use crate::space::LendingSpace;
use crate::task_parts::TaskParts;
use sp_events::CoreFault;
use sp_history::Setup;
use sp_lender::Pause;
use sp_outputs::Output;
use sp_tasks::Op;

/// What came of the work of a task.
#[derive(Drop)]
pub struct Worked {
    /// What its last event answered. Those before answer nothing.
    pub outputs: Vec<Output>,
    /// Whether it may go on.
    pub goes_on: bool,
}

// What came of turns: the task is still in hand, or it waits or has ended.
#[derive(Drop)]
pub(crate) enum Turned<'p> {
    InHand(TaskParts<'p>),
    Rests(Vec<Output>),
}

// How a turn leaves a task that this space lends, without handing it on.
#[derive(Clone, Copy)]
pub(crate) enum Left {
    // It may have further turns.
    GoesOn,
    // It stands at a call.
    AtCall,
    Ended,
    // Memory ran out, or its operation was refused.
    Refused(CoreFault),
}

impl<'p, N: Setup> LendingSpace<'p, N> {
    /// Lets a task have turns, so many at most: in each it makes instructions of its own, so many at most, and does
    /// the operation on the store at which it stands then. At a call it waits, and at its end it goes; after the
    /// last turn it may go on. It answers the outputs of the last of these events.
    ///
    /// `NotLent`: it may not go on, or is lent, or there is no memory for its row; nothing has happened. Another
    /// fault is that of an operation, or that memory ran out: what happened before it stands, and the task may go
    /// on.
    pub fn work(&mut self, task: u64, most: u64, turns: usize) -> Result<Worked, CoreFault>
        ensures done { IfOk result (λ worked. (g : Setting) (s : State) → IsSpace g s self.old
            → HasWorked g s task turns self.new (map output_of worked.outputs.items) worked.goes_on) }
        ensures fault { OnErr result ((g : Setting) (s : State) → IsSpace g s self.old
            → IsSpace g s self.new ⊎ HasWorked g s task turns self.new [] true) }
    {
        self.parts.work(task, most, turns)
    }
}

impl<'p> Parts<'p> {
    // Lets a task have turns, so many at most, and takes it back if it has not come to a call or its end.
    pub(crate) fn work(&mut self, id: u64, most: u64, turns: usize) -> Result<Worked, CoreFault>
        requires known { IsIn self.old }
        ensures done { IfOk result (λ worked. (g : Setting) (s : State) → IsSpace g s self.old
            → HasWorked g s id turns self.new (map output_of worked.outputs.items) worked.goes_on) }
        ensures fault { OnErr result ((g : Setting) (s : State) → IsSpace g s self.old
            → IsSpace g s self.new ⊎ HasWorked g s id turns self.new [] true) }
        ensures state { (g : Setting) → IsInSome g self.old → IsInSome g self.new }
    {
        let Some(task) = self.lend(id) else {
            return Err(CoreFault::NotLent);
        };
        match self.take_turns(task, most, turns) {
            Ok(Turned::Rests(outputs)) => Ok(Worked {
                outputs,
                goes_on: false,
            }),
            Ok(Turned::InHand(task)) => {
                self.take_back(task);
                Ok(Worked {
                    outputs: Vec::new(self.home.alloc),
                    goes_on: true,
                })
            }
            Err((task, fault)) => {
                self.take_back(task);
                Err(fault)
            }
        }
    }

    // Turns of a task that this space lends, until it waits or has ended.
    fn take_turns(
        &mut self,
        task: TaskParts<'p>,
        most: u64,
        turns: usize,
    ) -> Result<Turned<'p>, (TaskParts<'p>, CoreFault)>
        requires own { has_lent self.old.core task.hand ≡ true }
        requires known { AreOf self.old task }
        ensures own { IsOwn self.new result }
        ensures turned { (g : Setting) (s : State) (id : ℕ) → IsAtWork g s id 0 self.old task.entry
            → IsTurned g s id turns self.new result }
    {
        let mut task = task;
        for _turn in 0..turns {
            match self.turn(&mut task, most) {
                Left::GoesOn => {}
                Left::AtCall => return self.wait(task),
                Left::Ended => return self.end(task),
                Left::Refused(fault) => return Err((task, fault)),
            }
        }
        Ok(Turned::InHand(task))
    }

    // One turn of a task that this space lends. At a call, and once it has ended, it makes no operation.
    fn turn(&mut self, task: &mut TaskParts<'p>, most: u64) -> Left
        requires own { has_lent self.old.core task.old.hand ≡ true }
        requires known { AreOf self.old task.old }
        ensures own { has_lent self.new.core task.new.hand ≡ true }
        ensures left { (g : Setting) (s : State) (id n : ℕ) → IsAtWork g s id n self.old task.old
            → IsAtWork g s id (operations_after result n) self.new task.new }
    {
        match task.run(most) {
            Pause::Turn => Left::GoesOn,
            Pause::Memory => Left::Refused(CoreFault::Memory),
            Pause::Ended => Left::Ended,
            Pause::Asks(op) => self.ask(task, &op),
        }
    }

    // What a task asks for: an operation on the store is done, and a call is left to it.
    fn ask(&mut self, task: &mut TaskParts<'p>, op: &Op) -> Left
        requires own { has_lent self.old.core task.old.hand ≡ true }
        requires known { AreOf self.old task.old }
        ensures own { has_lent self.new.core task.new.hand ≡ true }
        ensures left { (g : Setting) (s : State) (id n : ℕ) → IsAtWork g s id n self.old task.old
            → IsAtWork g s id (operations_after result n) self.new task.new }
    {
        if matches!(op, Op::Call { .. }) {
            return Left::AtCall;
        }
        match self.commit_own(task, op) {
            Ok(()) => Left::GoesOn,
            Err(fault) => Left::Refused(fault),
        }
    }

    // Lets a task wait at its call.
    fn wait(&mut self, task: TaskParts<'p>) -> Result<Turned<'p>, (TaskParts<'p>, CoreFault)>
        requires own { has_lent self.old.core task.hand ≡ true }
        requires known { AreOf self.old task }
        ensures own { IsOwn self.new result }
        ensures turned { (g : Setting) (s : State) (id n : ℕ) → IsAtWork g s id n self.old task.entry
            → IsTurned g s id (suc n) self.new result }
    {
        match self.park_own(task) {
            Ok(outputs) => Ok(Turned::Rests(outputs)),
            Err(back) => Err(back),
        }
    }

    // Lets a task go that has ended.
    fn end(&mut self, task: TaskParts<'p>) -> Result<Turned<'p>, (TaskParts<'p>, CoreFault)>
        requires own { has_lent self.old.core task.hand ≡ true }
        ensures own { IsOwn self.new result }
        ensures turned { (g : Setting) (s : State) (id n : ℕ) → IsAtWork g s id n self.old task.entry
            → IsTurned g s id (suc n) self.new result }
    {
        match self.finish_own(task) {
            Ok((outputs, _rest)) => Ok(Turned::Rests(outputs)),
            Err(back) => Err(back),
        }
    }
}
