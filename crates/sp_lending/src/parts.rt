//! The parts of lending spaces.

ghost use Rattle.std.specs.Prelude.{◌≡◌, IfOk};
ghost use Rattle.sp_behaviours.specs.Classes.{classes_of};
ghost use Rattle.sp_lending.specs.Spaces.{IsSpace};
ghost use Rattle.sp_machines.specs.Limits.{AreLimits};
ghost use Rattle.sp_behaviours.specs.Told.{AreRemoteRules};
ghost use Rattle.sp_rules.specs.Classes.{Setting};
ghost use Rattle.sp_rules.specs.State.{opening};

use crate::home::Home;
use crate::rows::Rows;
use net_message::Digest;
use sp_call_set::CallSet;
use sp_core::SpaceCore;
use space_ids::Uuid;
use std::alloc::{AllocError, Global};
use table_copies::PeerHashes;
use vm_step::{Limits, Program};

/// What a lending space is made of: its core, the machines that are not out, and the class set that they run.
#[derive(Drop)]
pub(crate) struct Parts<'p> {
    pub(crate) home: Home<'p>,
    pub(crate) classes: &'p CallSet<'p>,
    pub(crate) core: SpaceCore,
    pub(crate) rows: Rows<'p>,
}

impl<'p> Parts<'p> {
    /// The parts of a new space, which speaks this version of the protocol at most, and hashes what peers pick in this way.
    pub(crate) fn new(
        alloc: Global,
        program: &'p Program,
        classes: &'p CallSet<'p>,
        digest: Digest,
        id: Uuid,
        limits: Limits,
        version: u8,
        hashes: PeerHashes,
    ) -> Result<Parts<'p>, AllocError>
        requires classes { classes.now ≡ program.now }
        requires rules { AreRemoteRules program.now.classes }
        ensures { IfOk result (λ parts. (g : Setting) → g.classes ≡ classes_of program.now
            → g.id ≡ id → g.digest ≡ digest → AreLimits g limits → g.version ≡ version
            → IsSpace g opening parts) }
    {
        // Each set has java/lang/OutOfMemoryError, and is linked and sound.
        let _thrown = program.out_of_memory();
        let _methods = program.linked().len();
        Ok(Parts {
            home: Home {
                alloc,
                id,
                limits,
                program,
            },
            classes,
            core: SpaceCore::with_hashes(alloc, id, digest, limits.fuel, version, hashes)?,
            rows: Rows::new(alloc),
        })
    }
}
