//! Results that are held, and let go.

ghost use Rattle.std.specs.Prelude.{◌≡◌, ◌<◌, ◌^◌, OnOk};
ghost use Rattle.std.specs.List.{list_any};
ghost use Rattle.sp_rules.specs.Classes.{Setting};
ghost use Rattle.sp_rules.specs.Frames.{is_acked_by, release};
ghost use Rattle.sp_rules.specs.LivingTasks.{keep};
ghost use Rattle.sp_rules.specs.OwnEvents.{is_of_root, on_moment};
ghost use Rattle.sp_rules.specs.References.{references_in};
ghost use Rattle.sp_rules.specs.State.{Acked, RootAcked, State};
ghost use Rattle.sp_living.specs.Holding.{listed};

use crate::Living;
use space_ids::{Ref, Value};
use std::alloc::AllocError;

impl Living {
    ghost use Rattle.sp_living.specs.Livings.{IsLiving};

    /// Holds the result of a call or lookup that came until its Ack. Each call has one result
    /// (law `calls_that_come_are_once`).
    pub fn keep(&mut self, conn: u64, number: u64, value: Option<Value>) -> Result<(), AllocError>
        ensures kept { OnOk result ((g : Setting) (s : State) → IsLiving g s self.old → IsLiving g (keep g (Acked conn number) value s) self.new) }
        ensures tasks { self.new.tasks ≡ self.old.tasks }
    {
        if self.call_results.contains(conn, number) {
            return Err(AllocError);
        }
        let found = reference_in(&value);
        self.call_results.reserve(conn)?;
        self.call_results.hold_reserved(conn, number, value);
        self.hold_found(found)
    }

    /// Holds the result of a root or lookup of the space's own until it is acknowledged. Each has one result
    /// (law `ids_are_given`).
    pub fn keep_root(&mut self, task: u64, value: Option<Value>) -> Result<(), AllocError>
        ensures kept { OnOk result ((g : Setting) (s : State) → IsLiving g s self.old → IsLiving g (keep g (RootAcked task) value s) self.new) }
        ensures tasks { self.new.tasks ≡ self.old.tasks }
    {
        if self.results.contains(task) {
            return Err(AllocError);
        }
        let found = reference_in(&value);
        self.results.hold(task, value)?;
        self.hold_found(found)
    }

    /// Lets the result go that is held until the Ack of this number on this connection. Returns whether one
    /// was held. It takes no memory.
    pub fn release_acked(&mut self, conn: u64, number: u64) -> bool
        ensures tasks { self.new.tasks ≡ self.old.tasks }
        ensures held { (g : Setting) (s : State) → IsLiving g s self.old → result ≡ list_any (is_acked_by conn number) s.results }
        ensures released { (g : Setting) (s : State) → IsLiving g s self.old → IsLiving g (release g (is_acked_by conn number) s) self.new }
    {
        match self.call_results.release(conn, number) {
            Some(value) => {
                self.drop_found(reference_in(&value));
                true
            }
            None => false,
        }
    }

    /// Lets the result of a root or lookup of the space's own go, if it is held. It takes no memory.
    pub fn release_root(&mut self, task: u64)
        ensures released { (g : Setting) (s : State) → IsLiving g s self.old → IsLiving g (release g (is_of_root task) s) self.new }
        ensures tasks { self.new.tasks ≡ self.old.tasks }
    {
        match self.results.take(task) {
            Some(value) => self.drop_found(reference_in(&value)),
            None => {}
        }
    }

    /// Sets the moment that is now, in milliseconds: leases of foreign references are due for renewal or
    /// lapse, and the results go that were held until it. A moment below the last changes nothing.
    pub fn pass_moment(&mut self, moment: u64) -> Result<(), AllocError>
        ensures passed { OnOk result ((g : Setting) (s : State) → IsLiving g s self.old → moment < 2 ^ 63 → IsLiving g (on_moment g moment s) self.new) }
        ensures tasks { self.new.tasks ≡ self.old.tasks }
    {
        if moment < self.moment {
            return Ok(());
        }
        let references = self.call_results.references_over(self.alloc, moment)?;
        self.call_results.pass(moment);
        self.transport.moment(moment);
        self.moment = moment;
        self.drop_holders(&references);
        Ok(())
    }
}

// The reference that a value is, if it is one.
fn reference_in(value: &Option<Value>) -> Option<Ref>
    ensures { references_in value.now ≡ listed result }
{
    match value {
        Some(Value::Ref(reference)) => Some(*reference),
        _ => None,
    }
}
