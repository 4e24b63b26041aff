//! What serving asks of a space.

use sim_worlds::Named;
use sp_world::{CoreFault, Event, Output};
use space_ids::Value;

/// What came of the turns of a task.
#[derive(Drop)]
pub struct Progress {
    pub outputs: Vec<Output>,
    /// Whether it may go on.
    pub goes_on: bool,
}

/// A space that is served: it takes events, runs tasks, and lets a task compute apart from it.
pub trait Served: Named {
    /// A task apart from its space, with its machine.
    type Apart: Drop;

    /// Lets an event happen, and returns what it answers. A refused one changes nothing.
    fn on(&mut self, event: &Event) -> Result<Vec<Output>, CoreFault>;

    /// Starts a root at a static method, and returns what that answers. A refused one changes nothing.
    fn root(
        &mut self,
        method: u32,
        arguments: &[Value],
        fuel: u64,
    ) -> Result<Vec<Output>, CoreFault>;

    /// Lets a task have turns, so many at most. In each it makes instructions of its own, so many at most, and then the
    /// operation on the store at which it stands; at a call or at its end it rests. The faults are `NotLent` if it may
    /// not go on, or is apart, and those of its operations; what it did before stands.
    fn work(&mut self, task: u64, most: u64, turns: usize) -> Result<Progress, CoreFault>;

    /// Takes a task apart from the space, if it may go on. None too if memory ran out: it may go on then as before.
    fn lend(&mut self, task: u64) -> Option<Self::Apart>;

    /// Lets a task that is apart make instructions of its own, so many at most. Returns whether it made them all; if
    /// not, it asks its space for something, has ended, or found no memory.
    fn compute(apart: &mut Self::Apart, most: u64) -> bool;

    /// Takes a task back that was apart: it may go on. One of another space is let go.
    fn give_back(&mut self, apart: Self::Apart);
}
