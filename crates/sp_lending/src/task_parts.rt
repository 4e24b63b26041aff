//! The parts of tasks in hand.

ghost use Rattle.std.specs.Prelude.{◌≡◌, Some};
ghost use Rattle.sp_machines.specs.Coming.{fuel_at};

use crate::home::Home;
use sp_core::LentTask;
use sp_machines::TaskMachine;
use sp_tasks::Stand;
use std::mem;

/// What a task in hand is made of: the task as its space lends it, its machine, once it has one, and where that
/// stands, if it has ended or asks.
#[derive(Drop)]
pub(crate) struct TaskParts<'p> {
    pub(crate) home: Home<'p>,
    pub(crate) hand: LentTask,
    pub(crate) player: Option<TaskMachine<'p>>,
    pub(crate) stand: Option<Stand>,
}

impl<'p> TaskParts<'p> {
    // Puts its machine into its place.
    pub(crate) fn put_player(&mut self, player: TaskMachine<'p>)
        ensures { self.new ≡ record self.old { player = Some player.entry } }
    {
        drop(mem::replace(&mut self.player, Some(player)));
    }

    // Keeps where its machine stands.
    pub(crate) fn put_stand(&mut self, stand: Option<Stand>)
        ensures { self.new ≡ record self.old { stand = stand } }
    {
        drop(mem::replace(&mut self.stand, stand));
    }
}

// The fuel that a machine has left.
pub(crate) fn fuel_of(player: &Option<TaskMachine<'_>>) -> u64
    ensures { result ≡ fuel_at player.now }
{
    match player {
        Some(player) => player.fuel(),
        None => 0,
    }
}
