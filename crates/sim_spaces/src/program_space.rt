//! A space with the program that its tasks run, as scripts play it.

ghost use Rattle.std.specs.Prelude.{◌≡◌, ◌⊎◌, [], None, Some, Contains, IfOk, option_map, slice_get};
ghost use Rattle.cls_set.specs.Classes.{name_at};
ghost use Rattle.sp_space.specs.Spaces.{IsSpace};
ghost use Rattle.sp_rules.specs.Classes.{Setting};
ghost use Rattle.sp_rules.specs.State.{State, standing};
ghost use Rattle.sp_core.specs.Shown.{lowest_ready, shown};
ghost use Rattle.sp_files.specs.Names.{NamesMethod};
ghost use Rattle.sim_spaces.specs.ProgramSpaces.{played_limits, shown_of};
ghost use Rattle.sim_shows.specs.Lines.{sights};

use crate::names::{class_name_of, method_of, shown_as};
use sim_worlds::{Named, ScriptSpace, Shown};
use sp_events::{CoreFault, Event};
use sp_outputs::Output;
use sp_space::Space;
use sp_world::WorldSpace;
use space_ids::{ClassId, Uuid, Value};
use std::alloc::Global;
use vm_step::Limits;

/// A space with the program that its tasks run, as scripts play it.
#[derive(Drop)]
pub struct ProgramSpace<'p> {
    pub(crate) alloc: Global,
    pub(crate) space: Space<'p>,
}

// Each call is that of the space.
impl<'p> WorldSpace for ProgramSpace<'p> {
    ghost is_space = { λ g s home. IsSpace g s home.space };

    fn id(&self) -> Uuid {
        self.space.id()
    }

    fn on(&mut self, event: &Event) -> Result<Vec<Output>, CoreFault> {
        self.space.on(event)
    }

    fn root(
        &mut self,
        method: u32,
        arguments: &[Value],
        fuel: u64,
    ) -> Result<Vec<Output>, CoreFault> {
        self.space.root(method, arguments, fuel)
    }

    fn step(&mut self, task: u64) -> Result<Vec<Output>, CoreFault> {
        self.space.step(task)
    }
}

impl<'p> Named for ProgramSpace<'p> {
    ghost is_named = { λ home class name. (Some name
        ≡ name_at home.space.program.now.classes class) ⊎ (name_at home.space.program.now.classes class ≡ None) };

    fn method(&self, class: &str, method: &str) -> Result<u32, CoreFault>
        ensures { Contains method.now 40 → IfOk result (λ number. NamesMethod
            self.now.space.program.now class.now method.now (Some (record { 0 = number }))) }
    {
        method_of(self.alloc, self.space.program(), class, method)
    }

    fn object(&self, index: usize) -> Option<Shown>
        ensures { (g : Setting) (s : State) → IsSpace g s self.now.space
            → option_map shown_of result
            ≡ option_map (shown s) (slice_get (standing s.store) index) }
    {
        match self.space.object(index) {
            Some(shown) => Some(shown_as(&shown)),
            None => None,
        }
    }

    fn class_name(&self, class: ClassId) -> &[u8]
        ensures { (Some result.now
            ≡ name_at self.now.space.program.now.classes class) ⊎ (name_at self.now.space.program.now.classes class ≡ None) }
    {
        class_name_of(self.space.program(), class)
    }
}

impl<'p> ScriptSpace for ProgramSpace<'p> {
    fn ready(&self) -> Option<u64>
        ensures { (g : Setting) (s : State) → IsSpace g s self.now.space → result
            ≡ lowest_ready [] s }
    {
        self.space.ready()
    }

    fn standing_object(&self, index: usize) -> Option<Shown>
        ensures { (g : Setting) (s : State) → IsSpace g s self.now.space → result
            ≡ slice_get (sights s) index }
    {
        self.object(index)
    }

    fn most_fuel(&self) -> u64
        ensures { result ≡ played_limits.fuel }
    {
        Limits::default().fuel
    }
}
