//! A task in hand.

ghost use Rattle.std.specs.Prelude.{◌≡◌, ◌+◌, ◌<◌, ◌^◌, true};
ghost use Rattle.sp_core.specs.Hands.{HasRun};

use sp_tasks::{LentTask as TaskInHand, Record};

/// A task that a core lends, beside its machine: its id, its record and its own instructions as it was lent,
/// and the instructions that its machine made since.
///
/// Both states of the core lend it, each with a hand of its own. If memory ran out in the second, both the second
/// state and its hand are made anew where they are needed next.
#[derive(Drop)]
pub struct LentTask {
    pub(crate) task: TaskInHand,
    pub(crate) twin: Option<TaskInHand>,
}

impl LentTask {
    ghost use Rattle.sp_core.specs.Cores.{has_lent};
    ghost use Rattle.sp_core.specs.declared.space_core.SpaceCore.{SpaceCore};

    /// Its id.
    pub fn id(&self) -> u64
        ensures { result ≡ self.now.task.id }
    {
        self.task.id()
    }

    /// Its record, as it was lent or as the last reply left it.
    pub fn record(&self) -> &Record
        ensures { result.now.past ≡ self.now.task.past }
    {
        self.task.record()
    }

    /// How many instructions of its own it had made since its last reply as it was lent.
    pub fn steps(&self) -> u64
        ensures { result ≡ self.now.task.steps }
    {
        self.task.steps()
    }

    /// How many instructions of its own it made since it was lent or given a reply.
    pub fn made(&self) -> u64
        ensures result { result ≡ self.now.task.made }
        ensures fits { self.now.task.steps + self.now.task.made < 2 ^ 64 }
    {
        self.task.made()
    }

    /// Adds to the instructions that its machine has made.
    pub fn ran(&mut self, made: u64)
        requires { self.old.task.steps + self.old.task.made + made < 2 ^ 64 }
        ensures task { self.new.task ≡ record self.old.task { made = self.old.task.made + made } }
        ensures own { (core : SpaceCore) → has_lent core self.old ≡ true → has_lent core self.new ≡ true }
    {
        self.task.ran(made);
        self.twin = run_twin(self.twin.take(), made);
    }

    /// Takes the instructions back that its machine made since it was lent or given a reply.
    pub fn undo(&mut self)
        ensures { self.new.task ≡ record self.old.task { made = 0 } }
    {
        self.task.undo();
        if let Some(twin) = &mut self.twin {
            twin.undo();
        }
    }
}

// The twin after these instructions. It is let go if they are too many: it is not equal.
fn run_twin(twin: Option<TaskInHand>, made: u64) -> Option<TaskInHand>
    ensures { HasRun made twin result }
{
    let mut twin = twin?;
    let before = twin.steps() + twin.made();
    if before.checked_add(made).is_none() {
        return None;
    }
    twin.ran(made);
    Some(twin)
}
