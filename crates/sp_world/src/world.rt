//! Worlds.

ghost use Rattle.std.specs.Prelude.{◌≡◌, List, [], ◌∷◌, ◌++◌, true, map, IfOk, OnOk, option_copied, option_map, slice_get};
ghost use Rattle.sp_rules.specs.Classes.{Setting};
ghost use Rattle.sp_rules.specs.State.{opening};
ghost use Rattle.sp_rules.specs.Worlds.{Space, World as Rules, id_at, is_queued, new_world, unaccepted};
ghost use Rattle.sp_outputs.specs.Notes.{output_of};
ghost use Rattle.sp_pipes.specs.Asked.{pair_of};
ghost use Rattle.sp_pipes.specs.Connections.{end_of};
ghost use Rattle.sp_world.specs.Happenings.{TellsRefusal};
ghost use Rattle.sp_world.specs.Waitings.{row_of as outputs_of_row};

use crate::WorldSpace;
use crate::resident::Resident;
use crate::wiring::Wiring;
use sp_events::CoreFault;
use sp_outputs::Output;
use sp_pipes::{Dial, End};
use space_ids::Uuid;
use std::alloc::{AllocError, Global};

// Which outputs are still to be put into the queues: those of one row of a space, from one of them on.
#[derive(Clone, Copy)]
pub(crate) struct Waiting {
    pub(crate) writer: usize,
    pub(crate) row: usize,
    pub(crate) next: usize,
}

/// A world: spaces, the queues of frames between them, and the dials that wait.
///
/// A space answers a row of outputs, and its world keeps that row. Putting the outputs into the queues
/// takes memory: at out of memory the rest of the row is put there later ([settle](World::settle)),
/// so that nothing of it is lost.
///
/// A contract names the world of the rules of spaces for which the value stands.
#[derive(Drop)]
pub struct World<S> {
    pub(crate) alloc: Global,
    pub(crate) residents: Vec<Resident<S>>,
    pub(crate) wiring: Wiring,
    pub(crate) refused: Option<CoreFault>,
    pub(crate) waiting: Option<Waiting>,
}

impl<S: WorldSpace + Drop> World<S> {
    ghost use Rattle.sp_world.specs.Residents.{AreResidents, told};
    ghost use Rattle.sp_world.specs.Forgotten.{without_outputs};
    ghost use Rattle.sp_world.specs.Waitings.{AreNew, IsSpaceAt, IsWorld, is_settled};

    /// The world of these spaces, to which nothing has happened.
    pub fn new(alloc: Global, spaces: Vec<S>) -> Result<World<S>, AllocError>
        ensures world { IfOk result (λ world. (settings : List Setting) → AreNew S.is_space settings spaces.items → IsWorld S.is_space (new_world settings) world) }
        ensures settled { IfOk result (λ world. is_settled world ≡ true) }
    {
        let mut world = World::empty(alloc);
        for space in spaces {
            world.add(space)?;
        }
        Ok(world)
    }

    /// Whether nothing is still to be put into the queues: so it is unless memory ran out.
    pub fn is_settled(&self) -> bool
        ensures { result ≡ is_settled self.now }
    {
        self.waiting.is_none()
    }

    /// Puts what is still to be put into the queues there. It stays the same world, at out of memory too.
    pub fn settle(&mut self) -> Result<(), AllocError>
        ensures settled { OnOk result (is_settled self.new ≡ true) }
        ensures same { (w : Rules) → IsWorld S.is_space w self.old → IsWorld S.is_space w self.new }
    {
        let Some(mut waiting) = self.waiting else {
            return Ok(());
        };
        let row = row_of(&self.residents, waiting.writer, waiting.row);
        match self.wiring.put_all(waiting.writer, row, &mut waiting.next) {
            Ok(()) => {
                self.waiting = None;
                Ok(())
            }
            Err(fault) => {
                self.waiting = Some(waiting);
                Err(fault)
            }
        }
    }

    /// The space of a number.
    pub fn space(&self, number: usize) -> Option<&S>
        ensures { (w : Rules) → IsWorld S.is_space w self.now → IsSpaceAt S.is_space (slice_get w.spaces number) (option_copied result) }
    {
        match self.resident(number) {
            Some(resident) => Some(&resident.space),
            None => None,
        }
    }

    /// All that the space of a number answered, or has answered since it was last [forgotten](World::forget_outputs): a
    /// row for each event of the world that came to it, oldest first.
    pub fn outputs(&self, number: usize) -> Option<&[Vec<Output>]>
        ensures { (w : Rules) → IsWorld S.is_space w self.now → option_map (λ rows. told rows.now) result ≡ option_map (λ (s : Space). s.outputs) (slice_get w.spaces number) }
    {
        match self.resident(number) {
            Some(resident) => Some(resident.answers.as_slice()),
            None => None,
        }
    }

    /// Lets go of what the space of a number has answered, so that it takes no more memory. All else stays.
    pub fn forget_outputs(&mut self, number: usize)
        requires { is_settled self.old ≡ true }
        ensures world { (w : Rules) → IsWorld S.is_space w self.old
            → IsWorld S.is_space (without_outputs number w) self.new }
        ensures settled { is_settled self.new ≡ true }
    {
        if number >= self.residents.len() {
            return;
        }
        self.residents[number].forget();
    }

    /// The dials that wait to be opened or refused, oldest first.
    pub fn asked(&self) -> &[Dial]
        requires { is_settled self.now ≡ true }
        ensures { (w : Rules) → IsWorld S.is_space w self.now → map pair_of result.now ≡ w.asked }
    {
        self.wiring.dials.as_slice()
    }

    /// Whether a Deliver to an end of a connection fits.
    pub fn queued(&self, conn: u64, to: End) -> bool
        requires { is_settled self.now ≡ true }
        ensures { (w : Rules) → IsWorld S.is_space w self.now → result ≡ is_queued conn (end_of to) w }
    {
        self.wiring.pipes.is_queued(conn, to)
    }

    /// The lowest connection that waits to be accepted.
    pub fn unaccepted(&self) -> Option<u64>
        requires { is_settled self.now ≡ true }
        ensures { (w : Rules) → IsWorld S.is_space w self.now → result ≡ unaccepted w }
    {
        self.wiring.pipes.unaccepted()
    }

    /// Why the last event was refused, if it was.
    pub fn refused(&self) -> Option<CoreFault>
        ensures { (w : Rules) → IsWorld S.is_space w self.now → TellsRefusal w.refused result }
    {
        self.refused
    }

    // A world of no space.
    fn empty(alloc: Global) -> World<S>
        ensures world { IsWorld S.is_space (new_world []) result }
        ensures settled { is_settled result ≡ true }
    {
        let residents = Vec::new(alloc);
        let wiring = Wiring::new(alloc);
        World {
            alloc,
            residents,
            wiring,
            refused: None,
            waiting: None,
        }
    }

    // Adds a space to a world to which nothing has happened.
    fn add(&mut self, space: S) -> Result<(), AllocError>
        requires { is_settled self.old ≡ true }
        ensures world { OnOk result ((settings : List Setting) (g : Setting) → IsWorld S.is_space (new_world settings) self.old → S.is_space g opening space → IsWorld S.is_space (new_world (settings ++ g ∷ [])) self.new) }
        ensures settled { OnOk result (is_settled self.new ≡ true) }
    {
        let id = space.id();
        self.wiring.enter(&id, self.residents.len())?;
        self.residents.push(Resident::new(self.alloc, space))?;
        Ok(())
    }

    // The id of the space of a number.
    pub(crate) fn id(&self, number: usize) -> Option<Uuid>
        ensures { (w : Rules) → AreResidents S.is_space w.spaces self.now.residents.items → result ≡ id_at number w }
    {
        match self.resident(number) {
            Some(resident) => Some(resident.space.id()),
            None => None,
        }
    }

    // The space of a number, and what it answered.
    fn resident(&self, number: usize) -> Option<&Resident<S>>
        ensures { option_copied result ≡ slice_get self.now.residents.items number }
    {
        self.residents.get(number)
    }
}

// The outputs of a row of a space.
fn row_of<S: WorldSpace>(residents: &[Resident<S>], writer: usize, row: usize) -> &[Output]
    ensures { map output_of result.now ≡ outputs_of_row (slice_get residents.now writer) row }
{
    match residents.get(writer) {
        Some(resident) => resident.row(row),
        None => &[],
    }
}
