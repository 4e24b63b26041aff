//! What clauses see of the past of a world: it takes no bytes.

use ghost_value::{Ghost, Says};
use sp_world::WorldEvent;
use std::marker::{Model, PhantomData};

/// The spaces of which a world began. No value of it is ever made: it names the type of definitions that a token
/// carries.
pub struct SpaceList<S> {
    marker: PhantomData<S>,
}

impl<S> Model for SpaceList<S> {
    ghost use Rattle.std.specs.Prelude.{List, []};

    ghost Value = { List S };

    ghost view = { λ _. [] };
}

/// The events of a world, oldest first. No value of it is ever made.
pub struct EventList {}

impl Model for EventList {
    ghost use Rattle.std.specs.Prelude.{List, []};
    ghost use Rattle.sp_rules.specs.Worlds.{WorldEvent};

    ghost Value = { List WorldEvent };

    ghost view = { λ _. [] };
}

// The spaces that stand in a row.
pub(crate) struct AllSpaces;

impl<S> Says<Vec<S>, SpaceList<S>> for AllSpaces {
    ghost says = { λ spaces. spaces.items };
}

// No events.
pub(crate) struct NoEvents;

impl Says<(), EventList> for NoEvents {
    ghost use Rattle.std.specs.Prelude.{[]};

    ghost says = { λ _. [] };
}

// Events, and one after them.
#[derive(Drop)]
pub(crate) struct Longer<'a> {
    pub(crate) events: &'a Ghost<EventList>,
    pub(crate) event: &'a WorldEvent,
}

pub(crate) struct OneMore;

impl<'a> Says<Longer<'a>, EventList> for OneMore {
    ghost use Rattle.std.specs.Prelude.{[], ◌∷◌, ◌++◌};
    ghost use Rattle.sp_world.specs.Happenings.{happening_of};

    ghost says = { λ l. l.events.now.value ++ happening_of l.event.now ∷ [] };
}
