//! A space as an inhabitant of a world.

use crate::Space;
use sp_events::{CoreFault, Event, Root};
use sp_machines::refusal;
use sp_outputs::Output;
use sp_world::WorldSpace;
use space_ids::{Row, Uuid, Value};
use table_copies::copy_values;

impl<'p> WorldSpace for Space<'p> {
    ghost use Rattle.sp_space.specs.Spaces.{IsSpace};

    ghost is_space = { λ g s space. IsSpace g s space };

    fn id(&self) -> Uuid {
        self.parts.id
    }

    fn on(&mut self, event: &Event) -> Result<Vec<Output>, CoreFault> {
        let classes = self.parts.classes;
        self.parts.core.on(classes, event)
    }

    fn root(
        &mut self,
        method: u32,
        arguments: &[Value],
        fuel: u64,
    ) -> Result<Vec<Output>, CoreFault> {
        let refused = refusal(self.parts.program, method, arguments)?;
        let arguments = Row::new(copy_values(self.parts.alloc, arguments)?);
        self.parts.core.root(&Root {
            method,
            arguments,
            fuel,
            refused,
        })
    }

    fn step(&mut self, task: u64) -> Result<Vec<Output>, CoreFault> {
        self.parts.step_task(task)
    }
}
