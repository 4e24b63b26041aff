//! The laws of the machines of tasks.

ghost use Rattle.sp_machine_laws.specs.Machines.{TasksAreMachines, TasksAreMachinesInWorlds};

/// After every history that a space of a linked and checked class set took, each living task is on the tagged machine
/// of its method: that began with the task's values, within its space's limits and the task's fuel, and has come over
/// the replies that the task was given, each of which was due. The machine is never stuck, and keeps all its frames
/// within max_stack and max_locals. The task has the machine's fuel, holds the references by which that has come, and
/// stands where it stands, however many instructions of its own it makes: before one, at what it asks, or at its end,
/// which is what the machine tells.
pub fn tasks_are_machines()
    ensures { TasksAreMachines }
{}

/// So is each living task, a root's or a call's, in every run of every world, whatever is lost or fails, in each space
/// of a linked and checked class set.
pub fn tasks_are_machines_in_worlds()
    ensures { TasksAreMachinesInWorlds }
{}
