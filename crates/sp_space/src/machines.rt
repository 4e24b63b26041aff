//! The machines of the living tasks.

ghost use Rattle.std.specs.Prelude.{◌≡◌, ◌==◌, ◌<◌, ℕ, true, false, None, Some, IfOk, IsSomeAnd, OnErr, OnOk, if◌then◌else◌, is_some};
ghost use Rattle.indexmap.specs.IndexMap.{spare};
ghost use Rattle.cls_link.specs.Links.{Links};
ghost use Rattle.sp_behaviours.specs.Behaviours.{op_at};
ghost use Rattle.sp_behaviours.specs.Follows.{PlaysOn};
ghost use Rattle.sp_living.specs.Views.{recorded_in};
ghost use Rattle.sp_rules.specs.Classes.{Setting};
ghost use Rattle.sp_rules.specs.State.{Living};
ghost use Rattle.sp_tasks.specs.Behaviours.{op_of};
ghost use Rattle.vm_act.specs.declared.machine.Machine.{Machine};
ghost use Rattle.vm_step.specs.Run.{Waits};
ghost use Rattle.sp_machines.specs.Coming.{IsAskedBy, IsNextAt, fuel_at};
ghost use Rattle.sp_space.specs.Machines.{machine_at};
ghost use Rattle.sp_machines.specs.Players.{AsksIn, CanCatchUp, IsLevelAt, IsPlayed, Played};

use indexmap::IndexMap;
use sp_machines::{Next, TaskMachine};
use sp_tasks::{Op, Record};
use std::alloc::{AllocError, Global};
use vm_code::Asked;

/// The machines of the living tasks, by the ids of their tasks.
#[derive(Drop)]
pub(crate) struct Machines<'p> {
    rows: IndexMap<u64, TaskMachine<'p>>,
}

impl<'p> Machines<'p> {
    /// No machine.
    pub(crate) fn new(alloc: Global) -> Machines<'p>
        ensures { (id : ℕ) → machine_at id result ≡ None }
    {
        Machines {
            rows: IndexMap::new(alloc),
        }
    }

    /// Whether a task has a machine.
    pub(crate) fn has(&self, id: u64) -> bool
        ensures { result ≡ is_some (machine_at id self.now) }
    {
        self.rows.get(&id).is_some()
    }

    /// Makes room for one more.
    pub(crate) fn reserve(&mut self) -> Result<(), AllocError>
        ensures same { (id : ℕ) → machine_at id self.new ≡ machine_at id self.old }
        ensures room { OnOk result (0 < spare self.new.rows) }
    {
        self.rows.reserve(1)
    }

    /// Adds the machine of a task, for which there is room. It takes no memory.
    pub(crate) fn insert_reserved(&mut self, id: u64, player: TaskMachine<'p>)
        requires { 0 < spare self.old.rows }
        ensures { (other : ℕ) → machine_at other self.new ≡ (if id == other then Some player.entry else machine_at other self.old) }
    {
        match self.rows.insert(id, player) {
            Ok(none) => drop(none),
            Err(_) => unreachable!(),
        }
    }

    /// Lets the machine of a task go.
    pub(crate) fn remove(&mut self, id: u64)
        ensures { (other : ℕ) → machine_at other self.new ≡ (if id == other then None else machine_at other self.old) }
    {
        drop(self.rows.swap_remove(&id));
    }

    /// Gives the machine of a task that does not wait the reply for which it stands, if the record has one more
    /// than it has taken.
    pub(crate) fn catch_up(
        &mut self,
        alloc: Global,
        id: u64,
        record: &Record,
    ) -> Result<(), AllocError>
        requires { IsSomeAnd (machine_at id self.old) (λ player. CanCatchUp player record.now.past) }
        ensures level { OnOk result ((links : Links) (g : Setting) (t : Living) → PlaysOn links g → IsPlayed links g (Some t) (machine_at id self.old) → t.waits ≡ false → recorded_in t ≡ record.now.past → IsLevelAt links g t (machine_at id self.new)) }
        ensures same { OnErr result (machine_at id self.new ≡ machine_at id self.old) }
        ensures others { (other : ℕ) → (id == other) ≡ false → machine_at other self.new ≡ machine_at other self.old }
    {
        match self.rows.get_mut(&id) {
            Some(player) => Ok(player.catch_up(alloc, record)?),
            None => unreachable!(),
        }
    }

    /// Lets the machine of a task, which is level with it, make an instruction, if it has not ended and does not ask,
    /// and is not ahead. Returns what comes next of the task.
    pub(crate) fn next(&mut self, alloc: Global, id: u64) -> Result<Next, AllocError>
        requires { is_some (machine_at id self.old) ≡ true }
        ensures level { (links : Links) (g : Setting) (t : Living) → IsLevelAt links g t (machine_at id self.old) → IsLevelAt links g t (machine_at id self.new) }
        ensures next { IfOk result (λ next. (links : Links) (g : Setting) (t : Living) → IsLevelAt links g t (machine_at id self.old) → IsNextAt t (machine_at id self.new) next) }
        ensures asked { IfOk result (λ next. IsAskedBy next (machine_at id self.new)) }
        ensures others { (other : ℕ) → (id == other) ≡ false → machine_at other self.new ≡ machine_at other self.old }
    {
        match self.rows.get_mut(&id) {
            Some(player) => Ok(player.next(alloc)?),
            None => unreachable!(),
        }
    }

    /// The task of a machine has made the instruction too.
    pub(crate) fn settle(&mut self, id: u64)
        ensures mine { (p : Played) → machine_at id self.old ≡ Some p → machine_at id self.new ≡ Some (record p { ahead = false }) }
        ensures others { (other : ℕ) → (id == other) ≡ false → machine_at other self.new ≡ machine_at other self.old }
    {
        match self.rows.get_mut(&id) {
            Some(player) => player.settle(),
            None => {}
        }
    }

    /// The fuel that the machine of a task has left.
    pub(crate) fn fuel(&self, id: u64) -> u64
        ensures { result ≡ fuel_at (machine_at id self.now) }
    {
        match self.rows.get(&id) {
            Some(player) => player.fuel(),
            None => 0,
        }
    }

    /// What the machine of a task asks for as an operation.
    pub(crate) fn op(&self, alloc: Global, id: u64, asked: &Asked) -> Result<Op, AllocError>
        requires { IsSomeAnd (machine_at id self.now) (λ player. AsksIn asked.now player.task.state) }
        ensures { IfOk result (λ op. (p : Played) (m : Machine) (fuel : ℕ) → machine_at id self.now ≡ Some p → p.task.state ≡ Waits asked.now m fuel → op_of op ≡ op_at p.task.program.classes asked.now m) }
    {
        match self.rows.get(&id) {
            Some(player) => player.op(alloc, asked),
            None => unreachable!(),
        }
    }
}
