//! What is left of a task that ended.

use sp_machines::TaskMachine;

/// What is left of a task that ended: its machine, which is large. Let it go without the lock of a space.
#[derive(Drop)]
pub struct Rest<'p> {
    player: Option<TaskMachine<'p>>,
}

impl<'p> Rest<'p> {
    pub(crate) fn new(player: Option<TaskMachine<'p>>) -> Rest<'p> {
        Rest { player }
    }
}
