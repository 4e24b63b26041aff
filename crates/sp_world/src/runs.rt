//! A run of a world.

ghost use Rattle.std.specs.Prelude.{◌≡◌, ◌≤◌, IfErr, IfOk, length, map, take, true};
ghost use Rattle.sp_rules.specs.Worlds.{World as Rules, run as after_all};
ghost use Rattle.sp_world.specs.Happenings.{happening_of};
ghost use Rattle.sp_world.specs.Waitings.{IsWorld, is_settled};

use crate::{World, WorldEvent, WorldSpace};

/// A run in which memory ran out.
#[derive(Drop)]
pub struct Unfinished<S> {
    /// The world after the events that were made.
    pub world: World<S>,
    /// How many events were made.
    pub made: usize,
}

/// The world after events, oldest first. At out of memory that after the first of them, and how many
/// these are; the others have not happened.
pub fn run<S: WorldSpace + Drop>(
    world: World<S>,
    events: &[WorldEvent],
) -> Result<World<S>, Unfinished<S>>
    ensures world { IfOk result (λ ran. (w : Rules) → IsWorld S.is_space w world → IsWorld S.is_space (after_all w (map happening_of events.now)) ran) }
    ensures settled { IfOk result (λ ran. is_settled ran ≡ true) }
    ensures unfinished { IfErr result (λ rest. (w : Rules) → IsWorld S.is_space w world → IsWorld S.is_space (after_all w (take rest.made (map happening_of events.now))) rest.world) }
    ensures within { IfErr result (λ rest. rest.made ≤ length events.now) }
{
    let mut world = world;
    for (made, event) in events.iter().enumerate() {
        if world.event(event).is_err() {
            return Err(Unfinished { world, made });
        }
    }
    match world.settle() {
        Ok(()) => Ok(world),
        Err(_) => Err(Unfinished {
            world,
            made: events.len(),
        }),
    }
}
