//! What clauses see of the steps of a script: it takes no bytes.

use ghost_value::{Ghost, Says};
use sp_world::WorldEvent;
use std::marker::Model;

/// Steps, the newest first. No value of it is ever made: it names the type of definitions that a token carries.
pub struct StepList {}

impl Model for StepList {
    ghost use Rattle.std.specs.Prelude.{List, []};
    ghost use Rattle.sim_shows.specs.Steps.{Step};

    ghost Value = { List Step };

    ghost view = { λ _. [] };
}

// No steps.
pub(crate) struct NoSteps;

impl Says<(), StepList> for NoSteps {
    ghost use Rattle.std.specs.Prelude.{[]};

    ghost says = { λ _. [] };
}

// Steps, and an event after them.
#[derive(Drop)]
pub(crate) struct OneEvent<'a> {
    pub(crate) steps: &'a Ghost<StepList>,
    pub(crate) event: &'a WorldEvent,
}

pub(crate) struct Happened;

impl<'a> Says<OneEvent<'a>, StepList> for Happened {
    ghost use Rattle.std.specs.Prelude.{◌∷◌};
    ghost use Rattle.sim_shows.specs.Steps.{Happens};
    ghost use Rattle.sp_world.specs.Happenings.{happening_of};

    ghost says = { λ l. Happens (happening_of l.event.now) ∷ l.steps.now.value };
}

// Steps, and a showing of a space after them.
#[derive(Drop)]
pub(crate) struct OneShowing<'a> {
    pub(crate) steps: &'a Ghost<StepList>,
    pub(crate) number: usize,
    pub(crate) name: &'a str,
}

pub(crate) struct Showed;

impl<'a> Says<OneShowing<'a>, StepList> for Showed {
    ghost use Rattle.std.specs.Prelude.{◌∷◌};
    ghost use Rattle.sim_shows.specs.Steps.{Shows};

    ghost says = { λ l. Shows l.number l.name.now ∷ l.steps.now.value };
}
