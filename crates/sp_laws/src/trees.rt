//! The laws of trees of calls.

ghost use Rattle.sp_laws.specs.Roots.{RootsHaveTrees, RootsSpendTheirFuel};
ghost use Rattle.sp_laws.specs.Trees.{FuelIsBoundedInTrees};

/// In every run of every world, whatever is lost or fails, a tree of calls spends no more than the
/// fuel of its Roots: the instructions of its tasks in any space, a unit for each of its Calls that
/// waits, and the fuel left in it. A tree is given by its roots and its calls. A call is of it
/// exactly if the task that made the call is, and a task that a call started is of it exactly if
/// the call is.
pub fn fuel_is_bounded_in_trees()
    ensures { FuelIsBoundedInTrees }
{}

/// In every run of every world each root has its tree: its calls, noted as they are made, are those that
/// the root task makes and those of the tasks that its calls start, in any space.
pub fn roots_have_trees()
    ensures { RootsHaveTrees }
{}

/// In every run of every world, whatever is lost or fails, a root task and all that its calls start, in
/// any space, spend no more than the fuel of its Root, also after a caller ended by a failure.
pub fn roots_spend_their_fuel()
    ensures { RootsSpendTheirFuel }
{}
