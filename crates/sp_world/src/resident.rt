//! One space of a world, and what it answered.

ghost use Rattle.std.specs.Prelude.{◌≡◌, ◌<◌, ◌∷◌, ◌++◌, [], IfOk, IfErr, OnErr, length, map, vec_len};
ghost use Rattle.std.specs.Vec.{vec_capacity};
ghost use Rattle.sp_rules.specs.Classes.{Setting};
ghost use Rattle.sp_rules.specs.Events.{Root as Roots};
ghost use Rattle.sp_rules.specs.State.{opening};
ghost use Rattle.sp_rules.specs.Worlds.{Space, new_space};
ghost use Rattle.sp_events.specs.Events.{event_of};
ghost use Rattle.sp_events.specs.FaultNames.{RefusesOrLacks};
ghost use Rattle.sp_outputs.specs.Notes.{output_of};

use crate::WorldSpace;
use sp_events::{CoreFault, Event};
use sp_outputs::Output;
use space_ids::Value;
use std::alloc::Global;

// A space, and what it answered: a row for each event of the world.
#[derive(Drop)]
pub(crate) struct Resident<S> {
    pub(crate) space: S,
    pub(crate) answers: Vec<Vec<Output>>,
}

impl<S: WorldSpace> Resident<S> {
    ghost use Rattle.sp_world.specs.Forgotten.{silent};
    ghost use Rattle.sp_world.specs.Residents.{IsResident, TakesRow, one_event, refused_event, refused_step, row_in, step_events_of};

    // A space to which nothing has happened.
    pub(crate) fn new(alloc: Global, space: S) -> Resident<S>
        ensures { (g : Setting) → S.is_space g opening space → IsResident S.is_space (new_space g) result }
    {
        Resident {
            space,
            answers: Vec::new(alloc),
        }
    }

    // Lets an event happen to the space. Returns the number of the row that it answered.
    pub(crate) fn on(&mut self, event: &Event) -> Result<usize, CoreFault>
        ensures taken { IfOk result (λ row. (s : Space) → IsResident S.is_space s self.old → TakesRow S.is_space s (refused_event (event_of event.now) s) (one_event (event_of event.now) s) row self.new) }
        ensures refused { IfErr result (λ fault. (s : Space) → IsResident S.is_space s self.old → RefusesOrLacks (refused_event (event_of event.now) s) fault) }
        ensures same { OnErr result ((s : Space) → IsResident S.is_space s self.old → IsResident S.is_space s self.new) }
    {
        if self.answers.reserve(1).is_err() {
            return Err(CoreFault::Memory);
        }
        let outputs = self.space.on(event)?;
        Ok(self.keep_reserved(outputs))
    }

    // Starts a task of the space. Returns the number of the row that it answered.
    pub(crate) fn root(
        &mut self,
        method: u32,
        arguments: &[Value],
        fuel: u64,
    ) -> Result<usize, CoreFault>
        ensures taken { IfOk result (λ row. (s : Space) → IsResident S.is_space s self.old → TakesRow S.is_space s (refused_event (Roots method arguments.now fuel) s) (one_event (Roots method arguments.now fuel) s) row self.new) }
        ensures refused { IfErr result (λ fault. (s : Space) → IsResident S.is_space s self.old → RefusesOrLacks (refused_event (Roots method arguments.now fuel) s) fault) }
        ensures same { OnErr result ((s : Space) → IsResident S.is_space s self.old → IsResident S.is_space s self.new) }
    {
        if self.answers.reserve(1).is_err() {
            return Err(CoreFault::Memory);
        }
        let outputs = self.space.root(method, arguments, fuel)?;
        Ok(self.keep_reserved(outputs))
    }

    // Lets a task of the space make one instruction. Returns the number of the row that it answered.
    pub(crate) fn step(&mut self, task: u64) -> Result<usize, CoreFault>
        ensures taken { IfOk result (λ row. (s : Space) → IsResident S.is_space s self.old → TakesRow S.is_space s (refused_step task s) (step_events_of task s) row self.new) }
        ensures refused { IfErr result (λ fault. (s : Space) → IsResident S.is_space s self.old → RefusesOrLacks (refused_step task s) fault) }
        ensures same { OnErr result ((s : Space) → IsResident S.is_space s self.old → IsResident S.is_space s self.new) }
    {
        if self.answers.reserve(1).is_err() {
            return Err(CoreFault::Memory);
        }
        let outputs = self.space.step(task)?;
        Ok(self.keep_reserved(outputs))
    }

    // A row that the space answered, if it is there.
    pub(crate) fn row(&self, row: usize) -> &[Output]
        ensures { map output_of result.now ≡ row_in row self.now }
    {
        match self.answers.get(row) {
            Some(outputs) => outputs.as_slice(),
            None => &[],
        }
    }

    // Lets go of what the space answered.
    pub(crate) fn forget(&mut self)
        ensures { (s : Space) → IsResident S.is_space s self.old
            → IsResident S.is_space (silent s) self.new }
    {
        self.answers.clear();
    }

    // Keeps a row that the space answered. Returns its number. It takes no memory.
    fn keep_reserved(&mut self, outputs: Vec<Output>) -> usize
        requires { vec_len self.old.answers < vec_capacity self.old.answers }
        ensures space { self.new.space ≡ self.old.space }
        ensures answers { self.new.answers.items ≡ self.old.answers.items ++ outputs ∷ [] }
        ensures row { result ≡ length self.old.answers.items }
    {
        let row = self.answers.len();
        self.answers.push_reserved(outputs);
        row
    }
}
