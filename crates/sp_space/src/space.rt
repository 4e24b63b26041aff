//! Spaces.

ghost use Rattle.std.specs.Prelude.{◌≡◌, [], IfOk, option_map, slice_get};
ghost use Rattle.sp_behaviours.specs.Classes.{classes_of};
ghost use Rattle.sp_behaviours.specs.Told.{AreRemoteRules};
ghost use Rattle.sp_rules.specs.Classes.{Setting};
ghost use Rattle.sp_rules.specs.State.{State, opening, standing};
ghost use Rattle.sp_core.specs.Shown.{lowest_ready, shown, shown_of};
ghost use Rattle.sp_machines.specs.Limits.{AreLimits};
ghost use Rattle.sp_space.specs.Spaces.{IsSpace};

use crate::parts::Parts;
use net_message::Digest;
use sp_call_set::CallSet;
use sp_core::Shown;
use space_ids::Uuid;
use std::alloc::{AllocError, Global};
use std::marker::Model;
use vm_step::{Limits, Program};

/// A space: its core, the machines of its living tasks, and the class set that they run.
///
/// A contract sees its parts, and names the states of the rules that it may be in. Each space is in one, and lends
/// no task between its steps.
#[derive(Drop)]
pub struct Space<'p> {
    pub(crate) parts: Parts<'p>,
}

impl<'p> Model for Space<'p> {
    ghost use Rattle.std.specs.Prelude.{[]};
    ghost use Rattle.sp_space.specs.Spaces.{IsResting};
    ghost use Rattle.sp_space.specs.contracts.parts.Parts.{the_row};
    ghost use Rattle.sp_space.specs.declared.parts.Parts.{Parts};

    ghost Value = { Parts };

    ghost use mir.Syntax.{erased};

    // The lifetime does not matter to it.
    ghost coded = { (the_row (record { mir = erased; lft = [] })).coded };

    ghost view = { λ space. space.parts };

    ghost invariant = { λ space. IsResting space.parts };
}

impl<'p> Space<'p> {
    /// The space of this id, whose tasks run methods of this program within these limits, and which speaks this
    /// version of the protocol at most. Nothing has happened to it. The remote classes and interfaces of the
    /// program keep the rules on them, as those of each set of class files do that breaks none.
    pub fn new(
        alloc: Global,
        program: &'p Program,
        classes: &'p CallSet<'p>,
        digest: Digest,
        id: Uuid,
        limits: Limits,
        version: u8,
    ) -> Result<Space<'p>, AllocError>
        requires classes { classes.now ≡ program.now }
        requires rules { AreRemoteRules program.now.classes }
        ensures { IfOk result (λ space. (g : Setting) → g.classes ≡ classes_of program.now
            → g.id ≡ id → g.digest ≡ digest → AreLimits g limits → g.version ≡ version
            → IsSpace g opening space) }
    {
        Ok(Space {
            parts: Parts::new(alloc, program, classes, digest, id, limits, version)?,
        })
    }

    /// The program whose methods its tasks run.
    pub fn program(&self) -> &'p Program
        ensures { result.now ≡ self.now.program.now }
    {
        self.parts.program
    }

    /// The standing object at an index, in the order of ids.
    pub fn object(&self, index: usize) -> Option<Shown>
        ensures { (g : Setting) (s : State) → IsSpace g s self.now → option_map shown_of result ≡ option_map (shown s) (slice_get (standing s.store) index) }
    {
        self.parts.core.object(index)
    }

    /// The lowest task that may go on.
    pub fn ready(&self) -> Option<u64>
        ensures { (g : Setting) (s : State) → IsSpace g s self.now → result ≡ lowest_ready [] s }
    {
        self.parts.core.ready()
    }
}
