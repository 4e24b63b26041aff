//! A world as a script plays it, with what it has shown of its objects.

ghost use Rattle.std.specs.Prelude.{◌≡◌, ◌∷◌, ◌-◌, ◌^◌, All, IfOk, OnOk, take, true};
ghost use Rattle.sp_promises.specs.WorldRuns.{IsNew, IsRun};
ghost use Rattle.sp_rules.specs.Classes.{Setting};
ghost use Rattle.sp_rules.specs.State.{State};
ghost use Rattle.sp_world.specs.Happenings.{happening_of};
ghost use Rattle.sp_world.specs.Waitings.{is_settled};
ghost use Rattle.sim_shows.specs.Lines.{AreLines, sights};
ghost use Rattle.sim_shows.specs.Steps.{Happens, Shows};

use crate::lines::put_object;
use crate::steps::{Happened, NoSteps, OneEvent, OneShowing, Showed, StepList};
use crate::{PlayFault, ScriptSpace};
use ghost_value::Ghost;
use sp_promises::{Interrupted, WorldRun};
use sp_world::{World, WorldEvent};
use std::alloc::{AllocError, Global};
use std::marker::Model;

/// A world as a script plays it, and the lines that it has shown of its objects: each tells of one that stood, by the
/// rules of spaces, in the world that the events before had made.
///
/// A contract sees the steps, the newest first, the lines, and the run of the world.
#[derive(Drop)]
pub struct ShownRun<S: ScriptSpace + Drop> {
    alloc: Global,
    run: WorldRun<S>,
    text: Vec<u8>,
    steps: Ghost<StepList>,
}

impl<S: ScriptSpace + Drop> Model for ShownRun<S> {
    ghost use Rattle.std.specs.Prelude.{◌≡◌};
    ghost use Rattle.sim_shows.specs.Steps.{IsTextOf, ShownWorld, events_of};

    ghost Value = { ShownWorld S };

    ghost view = { λ r. record { steps = r.steps.value; text = r.text.items; run = r.run } };

    ghost invariant = { λ r. (r.run.events ≡ events_of r.steps.value) × IsTextOf S.is_space S.is_named r.run.spaces r.steps.value r.text.items };
}

impl<S: ScriptSpace + Drop> ShownRun<S> {
    /// Returns the world of these spaces, in which nothing has happened.
    pub fn new(alloc: Global, spaces: Vec<S>) -> Result<ShownRun<S>, AllocError>
        requires new { All (IsNew S.is_space) spaces.items }
    {
        Ok(ShownRun {
            alloc,
            run: WorldRun::new(alloc, spaces)?,
            text: Vec::new(alloc),
            steps: Ghost::of::<(), NoSteps>(&()),
        })
    }

    /// The world that the events so far have made.
    pub fn world(&self) -> &World<S>
        ensures settled { is_settled result.now ≡ self.now.run.settled }
        ensures run { IsRun S.is_space self.now.run.spaces self.now.run.events result.now }
    {
        self.run.world()
    }

    /// Lets an event happen. `Interrupted` if memory ran out before it, or after it.
    pub fn happen(&mut self, event: WorldEvent) -> Result<(), Interrupted>
        ensures happened { OnOk result (self.new.steps
            ≡ Happens (happening_of event) ∷ self.old.steps) }
        ensures text { self.new.text ≡ self.old.text }
    {
        let happened = Ghost::of::<OneEvent, Happened>(&OneEvent {
            steps: &self.steps,
            event: &event,
        });
        match self.run.happen(event) {
            Ok(()) => {
                self.steps = happened;
                Ok(())
            }
            Err(Interrupted::Before) => Err(Interrupted::Before),
            Err(Interrupted::After) => {
                self.steps = happened;
                Err(Interrupted::After)
            }
        }
    }

    /// Puts what is still to be put into the queues there.
    pub fn settle(&mut self) -> Result<(), AllocError>
        ensures steps { self.new.steps ≡ self.old.steps }
        ensures settled { OnOk result (self.new.run.settled ≡ true) }
    {
        self.run.settle()
    }

    /// Lets go of what the space of a number has answered, if all of it was put into the queues.
    pub fn forget_outputs(&mut self, number: usize)
        ensures steps { self.new.steps ≡ self.old.steps }
    {
        if self.run.world().is_settled() {
            self.run.forget_outputs(number);
        }
    }

    /// Shows each standing object of the space of a number, in the order of ids, under this name. `PlayFault::Bad` if
    /// there is no such space.
    pub fn show(&mut self, number: usize, name: &str) -> Result<(), PlayFault>
        ensures shown { OnOk result (self.new.steps ≡ Shows number name.now ∷ self.old.steps) }
    {
        let Some(space) = self.run.world().space(number) else {
            return Err(PlayFault::Bad);
        };
        let lines = lines_of(self.alloc, space, name)?;
        self.text.extend_from_slice(&lines)?;
        self.steps = Ghost::of::<OneShowing, Showed>(&OneShowing {
            steps: &self.steps,
            number,
            name,
        });
        Ok(())
    }

    /// Hands out the lines that were shown, and the run of the world.
    pub fn into_parts(self) -> (Vec<u8>, WorldRun<S>)
        ensures text { result.0.items ≡ self.text }
        ensures run { result.1 ≡ self.run }
    {
        let ShownRun {
            alloc: _,
            run,
            text,
            steps: _,
        } = self;
        (text, run)
    }
}

// The line of each standing object of a space, in the order of ids.
fn lines_of<S: ScriptSpace>(alloc: Global, space: &S, name: &str) -> Result<Vec<u8>, PlayFault>
    ensures { IfOk result (λ lines. (g : Setting) (s : State) → S.is_space g s space.now
        → AreLines (S.is_named space.now) name.now (take (2 ^ 64 - 1) (sights s)) lines.items) }
{
    let mut lines = Vec::new(alloc);
    for index in 0..usize::MAX {
        let Some(shown) = space.standing_object(index) else {
            return Ok(lines);
        };
        put_object(&mut lines, space, name, &shown)?;
    }
    Ok(lines)
}
