//! The parts of spaces.

ghost use Rattle.std.specs.Prelude.{◌≡◌, IfOk};
ghost use Rattle.sp_behaviours.specs.Classes.{classes_of};
ghost use Rattle.sp_behaviours.specs.Told.{AreRemoteRules};
ghost use Rattle.sp_rules.specs.Classes.{Setting};
ghost use Rattle.sp_rules.specs.State.{opening};
ghost use Rattle.sp_machines.specs.Limits.{AreLimits};
ghost use Rattle.sp_space.specs.Spaces.{IsResting, IsSpace};

use crate::machines::Machines;
use net_message::Digest;
use sp_call_set::CallSet;
use sp_core::SpaceCore;
use space_ids::Uuid;
use std::alloc::{AllocError, Global};
use vm_step::{Limits, Program};

/// What a space is made of: its core, the machines of its living tasks, and the class set that they run.
#[derive(Drop)]
pub(crate) struct Parts<'p> {
    pub(crate) alloc: Global,
    pub(crate) id: Uuid,
    pub(crate) limits: Limits,
    pub(crate) program: &'p Program,
    pub(crate) classes: &'p CallSet<'p>,
    pub(crate) core: SpaceCore,
    pub(crate) machines: Machines<'p>,
}

impl<'p> Parts<'p> {
    /// The parts of a new space, which speaks this version of the protocol at most.
    pub(crate) fn new(
        alloc: Global,
        program: &'p Program,
        classes: &'p CallSet<'p>,
        digest: Digest,
        id: Uuid,
        limits: Limits,
        version: u8,
    ) -> Result<Parts<'p>, AllocError>
        requires classes { classes.now ≡ program.now }
        requires rules { AreRemoteRules program.now.classes }
        ensures spaces { IfOk result (λ parts. (g : Setting) → g.classes ≡ classes_of program.now
            → g.id ≡ id → g.digest ≡ digest → AreLimits g limits → g.version ≡ version
            → IsSpace g opening parts) }
        ensures rests { IfOk result IsResting }
    {
        // Each set has java/lang/OutOfMemoryError, and is linked and sound.
        let _thrown = program.out_of_memory();
        let _methods = program.linked().len();
        Ok(Parts {
            alloc,
            id,
            limits,
            program,
            classes,
            core: SpaceCore::new(alloc, id, digest, limits.fuel, version)?,
            machines: Machines::new(alloc),
        })
    }
}
