//! Instructions of tasks in hand, made without their space.

ghost use Rattle.std.specs.Prelude.{◌≡◌, ◌+◌, ◌≤◌, true, None, Some, OnErr, OnOk};
ghost use Rattle.sp_core.specs.Cores.{has_lent};
ghost use Rattle.sp_core.specs.declared.space_core.SpaceCore.{SpaceCore};
ghost use Rattle.sp_lender.specs.Hands.{with_made};
ghost use Rattle.sp_lending.specs.Hands.{IsLevelTask, IsTask, Somewhere};
ghost use Rattle.sp_rules.specs.Classes.{Setting};

use crate::point::pause;
use crate::task_parts::TaskParts;
use sp_lender::Pause;
use sp_machines::TaskMachine;
use std::alloc::AllocError;
use vm_step::Limits;

impl<'p> TaskParts<'p> {
    /// Makes at most this many instructions of its own, and says what comes next. A machine that is not there is
    /// made, and takes the reply that it was given since it stood still.
    pub(crate) fn run(&mut self, most: u64) -> Pause
        requires known { Somewhere (λ g. IsTask g self.old) }
        ensures same { self.new.hand.task ≡ with_made self.new.hand.task.made self.old.hand.task }
        ensures made { self.old.hand.task.made ≤ self.new.hand.task.made }
        ensures most { self.new.hand.task.made ≤ self.old.hand.task.made + most }
        ensures own { (core : SpaceCore) → has_lent core self.old.hand ≡ true → has_lent core self.new.hand ≡ true }
        ensures of { (g : Setting) → IsTask g self.old → IsTask g self.new }
    {
        match self.level() {
            Ok(()) => self.go_on(most),
            Err(_) => Pause::Memory,
        }
    }

    // Brings the machine to where the task's record is. A task that has none gets one.
    fn level(&mut self) -> Result<(), AllocError>
        requires known { Somewhere (λ g. IsTask g self.old) }
        ensures level { OnOk result ((g : Setting) → IsTask g self.old → IsLevelTask g self.new) }
        ensures of { OnErr result ((g : Setting) → IsTask g self.old → IsTask g self.new) }
        ensures hand { self.new.hand ≡ self.old.hand }
    {
        match self.player.take() {
            Some(player) => self.catch_up(player),
            None => self.begin(),
        }
    }

    // Puts the machine back, which was taken out, and gives it the reply for which it stands, if the task has it.
    fn catch_up(&mut self, mut player: TaskMachine<'p>) -> Result<(), AllocError>
        requires known { Somewhere (λ g. IsTask g (record self.old { player = Some player })) }
        ensures level { OnOk result ((g : Setting) → IsTask g (record self.old { player = Some player.entry }) → IsLevelTask g self.new) }
        ensures of { OnErr result ((g : Setting) → IsTask g (record self.old { player = Some player.entry }) → IsTask g self.new) }
        ensures hand { self.new.hand ≡ self.old.hand }
    {
        let caught = player.catch_up(self.home.alloc, self.hand.record());
        self.put_player(player);
        caught
    }

    // Makes the machine of a task to which nothing has happened since it began.
    fn begin(&mut self) -> Result<(), AllocError>
        requires none { self.old.player ≡ None }
        requires known { Somewhere (λ g. IsTask g self.old) }
        ensures level { OnOk result ((g : Setting) → IsTask g self.old → IsLevelTask g self.new) }
        ensures of { OnErr result ((g : Setting) → IsTask g self.old → IsTask g self.new) }
        ensures hand { self.new.hand ≡ self.old.hand }
    {
        let record = self.hand.record();
        let limits = Limits {
            fuel: record.fuel(),
            ..self.home.limits
        };
        let player = TaskMachine::new(
            self.home.alloc,
            self.home.program,
            self.home.id,
            record,
            limits,
        )?;
        self.put_player(player);
        Ok(())
    }

    // Makes instructions of its own, with whose machine it is level, and says what comes next.
    fn go_on(&mut self, most: u64) -> Pause
        requires known { Somewhere (λ g. IsLevelTask g self.old) }
        ensures same { self.new.hand.task ≡ with_made self.new.hand.task.made self.old.hand.task }
        ensures made { self.old.hand.task.made ≤ self.new.hand.task.made }
        ensures most { self.new.hand.task.made ≤ self.old.hand.task.made + most }
        ensures own { (core : SpaceCore) → has_lent core self.old.hand ≡ true → has_lent core self.new.hand ≡ true }
        ensures of { (g : Setting) → IsLevelTask g self.old → IsTask g self.new }
    {
        let Some(player) = self.player.take() else {
            unreachable!()
        };
        self.go(player, most)
    }

    // Puts the machine back, which was taken out, and lets it make instructions.
    fn go(&mut self, mut player: TaskMachine<'p>, most: u64) -> Pause
        requires known { Somewhere (λ g. IsLevelTask g (record self.old { player = Some player })) }
        ensures same { self.new.hand.task ≡ with_made self.new.hand.task.made self.old.hand.task }
        ensures made { self.old.hand.task.made ≤ self.new.hand.task.made }
        ensures most { self.new.hand.task.made ≤ self.old.hand.task.made + most }
        ensures own { (core : SpaceCore) → has_lent core self.old.hand ≡ true → has_lent core self.new.hand ≡ true }
        ensures of { (g : Setting) → IsLevelTask g (record self.old { player = Some player.entry }) → IsTask g self.new }
    {
        // It makes no more of them than it began with fuel for.
        let _fuel = self.hand.record().fuel();
        let made = player.run(most);
        self.hand.ran(made);
        let (stand, pause) = pause(self.home.alloc, &player);
        self.put_player(player);
        self.put_stand(stand);
        pause
    }
}
