//! The machines of the living tasks that are not out.

ghost use Rattle.std.specs.Prelude.{◌≡◌, ◌==◌, ◌<◌, ℕ, true, None, Option, Some, OnOk, if◌then◌else◌, is_some, option_and_then, option_map};
ghost use Rattle.indexmap.specs.IndexMap.{spare};
ghost use Rattle.sp_lending.specs.Rows.{row_at};
ghost use Rattle.sp_machines.specs.Players.{Played};

use indexmap::IndexMap;
use sp_machines::TaskMachine;
use std::alloc::{AllocError, Global};

/// The machines of the living tasks, by the ids of their tasks. A row without one is of a machine that is out:
/// with its task, in the hands of who runs it.
#[derive(Drop)]
pub(crate) struct Rows<'p> {
    rows: IndexMap<u64, Option<TaskMachine<'p>>>,
}

impl<'p> Rows<'p> {
    /// No machine.
    pub(crate) fn new(alloc: Global) -> Rows<'p>
        ensures { (id : ℕ) → row_at id result ≡ None }
    {
        Rows {
            rows: IndexMap::new(alloc),
        }
    }

    /// Whether the machine of a task is out.
    pub(crate) fn is_out(&self, id: u64) -> bool
        ensures { row_at id self.now ≡ Some None → result ≡ true }
    {
        matches!(self.rows.get(&id), Some(None))
    }

    /// Makes room for one more row.
    pub(crate) fn reserve(&mut self) -> Result<(), AllocError>
        ensures same { (id : ℕ) → row_at id self.new ≡ row_at id self.old }
        ensures room { OnOk result (0 < spare self.new.rows) }
    {
        self.rows.reserve(1)
    }

    /// Takes the machine of a task out, if it has one. There is room for its row, so it takes no memory.
    pub(crate) fn take(&mut self, id: u64) -> Option<TaskMachine<'p>>
        requires { 0 < spare self.old.rows }
        ensures taken { result ≡ option_and_then (λ (o : Option Played). o) (row_at id self.old) }
        ensures out { (other : ℕ) → row_at other self.new ≡ (if id == other then Some None else row_at other self.old) }
    {
        match self.rows.insert(id, None) {
            Ok(Some(player)) => player,
            Ok(None) => None,
            Err(_) => unreachable!(),
        }
    }

    /// Puts the machine of a task back into the row that it left. A task without a machine leaves none.
    pub(crate) fn restore(&mut self, id: u64, player: Option<TaskMachine<'p>>)
        requires { is_some (row_at id self.old) ≡ true }
        ensures { (other : ℕ) → row_at other self.new ≡ (if id == other then option_map (λ (p : Played). Some p) player.entry else row_at other self.old) }
    {
        match player {
            Some(player) => self.put(id, player),
            None => self.remove(id),
        }
    }

    // Puts the machine of a task into its row.
    fn put(&mut self, id: u64, player: TaskMachine<'p>)
        requires { is_some (row_at id self.old) ≡ true }
        ensures { (other : ℕ) → row_at other self.new ≡ (if id == other then Some (Some player.entry) else row_at other self.old) }
    {
        match self.rows.get_mut(&id) {
            Some(row) => *row = Some(player),
            None => unreachable!(),
        }
    }

    /// Lets the row of a task go.
    pub(crate) fn remove(&mut self, id: u64)
        ensures { (other : ℕ) → row_at other self.new ≡ (if id == other then None else row_at other self.old) }
    {
        drop(self.rows.swap_remove(&id));
    }
}
