//! Lending spaces.

ghost use Rattle.std.specs.Prelude.{◌≡◌, List, ℕ, IfOk, option_map, slice_get};
ghost use Rattle.sp_behaviours.specs.Classes.{classes_of};
ghost use Rattle.sp_core.specs.Cores.{Lends};
ghost use Rattle.sp_core.specs.Shown.{lowest_ready, shown, shown_of};
ghost use Rattle.sp_lending.specs.Spaces.{IsSpace};
ghost use Rattle.sp_machines.specs.Limits.{AreLimits};
ghost use Rattle.sp_behaviours.specs.Told.{AreRemoteRules};
ghost use Rattle.sp_rules.specs.Classes.{Setting};
ghost use Rattle.sp_rules.specs.State.{State, opening, standing};

use crate::parts::Parts;
use net_message::Digest;
use sp_call_set::CallSet;
use sp_core::Shown;
use sp_history::Setup;
use space_ids::Uuid;
use std::alloc::{AllocError, Global};
use std::marker::{Model, PhantomData};
use table_copies::PeerHashes;
use vm_step::{Limits, Program};

/// A space that lends its tasks: its core, the machines of the living tasks that are not out, and the class set
/// that they run. It is of the name's setting.
///
/// A contract sees its parts, and names the states of the rules that it may be in. Each space is in one.
#[derive(Drop)]
pub struct LendingSpace<'p, N: Setup> {
    pub(crate) parts: Parts<'p>,
    pub(crate) name: PhantomData<N>,
}

impl<'p, N: Setup> Model for LendingSpace<'p, N> {
    ghost use Rattle.std.specs.Prelude.{[]};
    ghost use Rattle.sp_lending.specs.Spaces.{IsInSome};
    ghost use Rattle.sp_lending.specs.contracts.parts.Parts.{the_row};
    ghost use Rattle.sp_lending.specs.declared.parts.Parts.{Parts};

    ghost Value = { Parts };

    ghost use mir.Syntax.{erased};

    // The lifetime does not matter to it.
    ghost coded = { (the_row (record { mir = erased; lft = [] })).coded };

    ghost view = { λ space. space.parts };

    ghost invariant = { λ space. IsInSome N.setting space.parts };
}

impl<'p, N: Setup> LendingSpace<'p, N> {
    /// The space of this id, whose tasks run methods of this program within these limits, and which speaks this
    /// version of the protocol at most. Nothing has happened to it. What peers pick is hashed in this way. The remote classes and interfaces of the
    /// program keep the rules on them, as those of each set of class files do that breaks none.
    pub fn new(
        alloc: Global,
        program: &'p Program,
        classes: &'p CallSet<'p>,
        digest: Digest,
        id: Uuid,
        limits: Limits,
        version: u8,
        hashes: PeerHashes,
    ) -> Result<LendingSpace<'p, N>, AllocError>
        requires classes { classes.now ≡ program.now }
        requires rules { AreRemoteRules program.now.classes }
        requires set { N.setting.classes ≡ classes_of program.now }
        requires id { N.setting.id ≡ id }
        requires digest { N.setting.digest ≡ digest }
        requires limits { AreLimits N.setting limits }
        requires version { N.setting.version ≡ version }
        ensures { IfOk result (λ space. (g : Setting) → g.classes ≡ classes_of program.now
            → g.id ≡ id → g.digest ≡ digest → AreLimits g limits → g.version ≡ version
            → IsSpace g opening space) }
    {
        Ok(LendingSpace {
            parts: Parts::new(alloc, program, classes, digest, id, limits, version, hashes)?,
            name: PhantomData,
        })
    }

    /// Its id.
    pub fn id(&self) -> Uuid
        ensures { (g : Setting) (s : State) → IsSpace g s self.now → result ≡ g.id }
    {
        self.parts.home.id
    }

    /// The program whose methods its tasks run.
    pub fn program(&self) -> &'p Program
        ensures { result.now ≡ self.now.home.program.now }
    {
        self.parts.home.program
    }

    /// The standing object at an index, in the order of ids.
    pub fn object(&self, index: usize) -> Option<Shown>
        ensures { (g : Setting) (s : State) → IsSpace g s self.now → option_map shown_of result ≡ option_map (shown s) (slice_get (standing s.store) index) }
    {
        self.parts.core.object(index)
    }

    /// The lowest task that may go on and is not lent.
    pub fn ready(&self) -> Option<u64>
        ensures { (g : Setting) (s : State) (lent : List ℕ) → IsSpace g s self.now → Lends self.now.core lent → result ≡ lowest_ready lent s }
    {
        self.parts.core.ready()
    }
}
