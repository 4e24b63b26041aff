//! A world with the events that made it.

ghost use Rattle.std.specs.Prelude.{◌≡◌, [], ◌∷◌, ◌++◌, All, Err, IfOk, OnOk, true};
ghost use Rattle.sp_promises.specs.WorldRuns.{IsNew, IsRun};
ghost use Rattle.sp_world.specs.Happenings.{happening_of};
ghost use Rattle.sp_world.specs.Waitings.{is_settled};

use crate::running::run;
use crate::told::{AllSpaces, EventList, Longer, NoEvents, OneMore, SpaceList};
use ghost_value::Ghost;
use sp_world::{World, WorldEvent, WorldSpace, pieces_make_a_run};
use std::alloc::{AllocError, Global};
use std::marker::Model;
use std::mem;

/// When memory ran out.
#[derive(Clone, Copy)]
pub enum Interrupted {
    /// Before the event: nothing has happened.
    Before,
    /// After it: what it answered is still to be put into the queues.
    After,
}

/// A world that events have made of its spaces, one after the other, by the rules of spaces: so what `run` promises of
/// every run holds of it. Of what its spaces answered it may let go, which no rule reads.
///
/// A contract sees the spaces of which it began, its events, oldest first, and whether nothing is still to be put into
/// the queues.
#[derive(Drop)]
pub struct WorldRun<S: WorldSpace + Drop> {
    alloc: Global,
    world: World<S>,
    spaces: Ghost<SpaceList<S>>,
    events: Ghost<EventList>,
}

impl<S: WorldSpace + Drop> Model for WorldRun<S> {
    ghost use Rattle.sp_promises.specs.WorldRuns.{IsRun, RunWorld};
    ghost use Rattle.sp_world.specs.Waitings.{is_settled};

    ghost Value = { RunWorld S };

    ghost view = { λ r. record { spaces = r.spaces.value; events = r.events.value; settled = is_settled r.world } };

    ghost invariant = { λ r. IsRun S.is_space r.spaces.value r.events.value r.world };
}

impl<S: WorldSpace + Drop> WorldRun<S> {
    /// Returns the world of these spaces, in which nothing has happened.
    pub fn new(alloc: Global, spaces: Vec<S>) -> Result<WorldRun<S>, AllocError>
        requires new { All (IsNew S.is_space) spaces.items }
        ensures spaces { IfOk result (λ begun. begun.spaces ≡ spaces.items) }
        ensures nothing { IfOk result (λ begun. begun.events ≡ []) }
        ensures settled { IfOk result (λ begun. begun.settled ≡ true) }
    {
        let made_of = Ghost::of::<Vec<S>, AllSpaces>(&spaces);
        let world = World::new(alloc, spaces)?;
        Ok(WorldRun {
            alloc,
            world,
            spaces: made_of,
            events: Ghost::of::<(), NoEvents>(&()),
        })
    }

    /// The world.
    pub fn world(&self) -> &World<S>
        ensures settled { is_settled result.now ≡ self.now.settled }
        ensures run { IsRun S.is_space self.now.spaces self.now.events result.now }
    {
        &self.world
    }

    /// Lets an event happen. `Interrupted` if memory ran out before it, or after it.
    pub fn happen(&mut self, event: WorldEvent) -> Result<(), Interrupted>
        ensures spaces { self.new.spaces ≡ self.old.spaces }
        ensures happened { OnOk result (self.new.events
            ≡ self.old.events ++ happening_of event ∷ []) }
        ensures settled { OnOk result (self.new.settled ≡ true) }
        ensures before { result ≡ Err Interrupted.Before → self.new.events ≡ self.old.events }
        ensures after { result ≡ Err Interrupted.After
            → self.new.events ≡ self.old.events ++ happening_of event ∷ [] }
    {
        pieces_make_a_run();
        let Ok(none) = World::new(self.alloc, Vec::new(self.alloc)) else {
            return Err(Interrupted::Before);
        };
        let longer = Ghost::of::<Longer, OneMore>(&Longer {
            events: &self.events,
            event: &event,
        });
        let world = mem::replace(&mut self.world, none);
        match run(world, &[event]) {
            Ok(world) => {
                self.world = world;
                self.events = longer;
                Ok(())
            }
            Err(rest) => {
                self.world = rest.world;
                if rest.made == 0 {
                    return Err(Interrupted::Before);
                }
                self.events = longer;
                Err(Interrupted::After)
            }
        }
    }

    /// Puts what is still to be put into the queues there. It stays the same world, at out of memory too.
    pub fn settle(&mut self) -> Result<(), AllocError>
        ensures spaces { self.new.spaces ≡ self.old.spaces }
        ensures nothing { self.new.events ≡ self.old.events }
        ensures settled { OnOk result (self.new.settled ≡ true) }
    {
        self.world.settle()
    }

    /// Lets go of what the space of a number has answered, so that it takes no more memory. No event has happened.
    pub fn forget_outputs(&mut self, number: usize)
        requires { self.old.settled ≡ true }
        ensures spaces { self.new.spaces ≡ self.old.spaces }
        ensures nothing { self.new.events ≡ self.old.events }
        ensures settled { self.new.settled ≡ true }
    {
        self.world.forget_outputs(number)
    }
}
