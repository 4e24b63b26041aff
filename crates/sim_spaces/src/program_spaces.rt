//! The spaces of a program.

ghost use Rattle.std.specs.Prelude.{◌≡◌, IfOk};
ghost use Rattle.sp_promises.specs.WorldRuns.{IsNew};
ghost use Rattle.sp_space.specs.Spaces.{AreLimits, IsSpace};
ghost use Rattle.sp_behaviours.specs.Classes.{classes_of};
ghost use Rattle.sp_behaviours.specs.Told.{AreRemoteRules};
ghost use Rattle.sp_rules.specs.Classes.{Setting};
ghost use Rattle.sp_rules.specs.State.{opening};
ghost use Rattle.sim_spaces.specs.ProgramSpaces.{played_limits};

use crate::ProgramSpace;
use net_message::Digest;
use sim_worlds::Origin;
use sp_call_set::CallSet;
use sp_space::Space;
use space_ids::Uuid;
use std::alloc::{AllocError, Global};
use std::marker::Model;
use vm_step::{Limits, Program};

/// Makes spaces of one program, over class files of one digest.
///
/// A contract sees the linked set of the program, and the digest.
#[derive(Drop)]
pub struct ProgramSpaces<'p> {
    alloc: Global,
    program: &'p Program,
    classes: &'p CallSet<'p>,
    digest: Digest,
}

impl<'p> Model for ProgramSpaces<'p> {
    ghost use Rattle.std.specs.Prelude.{◌≡◌};
    ghost use Rattle.sp_behaviours.specs.Told.{AreRemoteRules};
    ghost use Rattle.sim_spaces.specs.ProgramSpaces.{Origins};

    ghost Value = { Origins };

    ghost view = { λ spaces. record { links = spaces.program.now; digest = spaces.digest } };

    ghost invariant = { λ spaces. (spaces.classes.now ≡ spaces.program.now) × AreRemoteRules spaces.program.now.classes };
}

impl<'p> ProgramSpaces<'p> {
    /// Returns what makes spaces of this program. The class set is that of the program, whose remote classes and
    /// interfaces keep the rules on them.
    pub fn new(
        alloc: Global,
        program: &'p Program,
        classes: &'p CallSet<'p>,
        digest: Digest,
    ) -> ProgramSpaces<'p>
        requires classes { classes.now ≡ program.now }
        requires rules { AreRemoteRules program.now.classes }
        ensures { result ≡ record { links = program.now; digest = digest } }
    {
        ProgramSpaces {
            alloc,
            program,
            classes,
            digest,
        }
    }
}

impl<'p> Origin<ProgramSpace<'p>> for ProgramSpaces<'p> {
    // It keeps within the limits that are there unless others are asked for.
    fn space(&self, id: Uuid, version: u8) -> Result<ProgramSpace<'p>, AllocError>
        ensures space { IfOk result (λ home. (g : Setting)
            → g.classes ≡ classes_of self.now.links
            → g.id ≡ id → g.digest ≡ self.now.digest → AreLimits g played_limits → g.version ≡ version
            → IsSpace g opening home.space) }
        ensures new { IfOk result (IsNew (λ g s home. IsSpace g s home.space)) }
    {
        let space = Space::new(
            self.alloc,
            self.program,
            self.classes,
            self.digest,
            id,
            Limits::default(),
            version,
        )?;
        Ok(ProgramSpace {
            alloc: self.alloc,
            space,
        })
    }
}
