//! A space that is served, with the program that its tasks run.

ghost use Rattle.std.specs.Prelude.{◌≡◌};
ghost use Rattle.sp_behaviours.specs.Classes.{classes_of};
ghost use Rattle.sp_machines.specs.Limits.{AreLimits};
ghost use Rattle.sp_behaviours.specs.Told.{AreRemoteRules};

use net_message::Digest;
use sim_spaces::{class_name_of, method_of, shown_as};
use sim_worlds::{Named, Shown};
use sp_board::{Progress, Served};
use sp_call_set::CallSet;
use sp_history::Setup;
use sp_lender::{InHand, Lender, Pause};
use sp_lending::{LendingSpace, Task, Worked};
use sp_world::{CoreFault, Event, Output};
use space_ids::{ClassId, Uuid, Value};
use std::alloc::{AllocError, Global};
use table_copies::PeerHashes;
use vm_step::{Limits, Program};

/// A space that is served, with the program that its tasks run.
#[derive(Drop)]
pub struct ServedSpace<'p, N: Setup> {
    alloc: Global,
    space: LendingSpace<'p, N>,
}

impl<'p, N: Setup> ServedSpace<'p, N> {
    /// The space of this id, over class files of this digest, to which nothing has happened, whose tasks keep within
    /// these limits, and which speaks this version of the protocol at most. What peers pick is hashed in this way. The class set is that of the program,
    /// whose remote classes and interfaces keep the rules on them. `AllocError` if memory runs out.
    pub fn new(
        alloc: Global,
        program: &'p Program,
        classes: &'p CallSet<'p>,
        digest: Digest,
        id: Uuid,
        limits: Limits,
        version: u8,
        hashes: PeerHashes,
    ) -> Result<ServedSpace<'p, N>, AllocError>
        requires classes { classes.now ≡ program.now }
        requires rules { AreRemoteRules program.now.classes }
        requires set { N.setting.classes ≡ classes_of program.now }
        requires id { N.setting.id ≡ id }
        requires digest { N.setting.digest ≡ digest }
        requires limits { AreLimits N.setting limits }
        requires version { N.setting.version ≡ version }
    {
        Ok(ServedSpace {
            alloc,
            space: LendingSpace::new(alloc, program, classes, digest, id, limits, version, hashes)?,
        })
    }
}

impl<'p, N: Setup> Named for ServedSpace<'p, N> {
    fn method(&self, class: &str, method: &str) -> Result<u32, CoreFault> {
        method_of(self.alloc, self.space.program(), class, method)
    }

    fn object(&self, index: usize) -> Option<Shown> {
        match self.space.object(index) {
            Some(shown) => Some(shown_as(&shown)),
            None => None,
        }
    }

    fn class_name(&self, class: ClassId) -> &[u8] {
        class_name_of(self.space.program(), class)
    }
}

impl<'p, N: Setup> Served for ServedSpace<'p, N> {
    type Apart = Task<'p, N>;

    fn on(&mut self, event: &Event) -> Result<Vec<Output>, CoreFault> {
        self.space.on(event)
    }

    fn root(
        &mut self,
        method: u32,
        arguments: &[Value],
        fuel: u64,
    ) -> Result<Vec<Output>, CoreFault> {
        self.space.root(method, arguments, fuel)
    }

    fn work(&mut self, task: u64, most: u64, turns: usize) -> Result<Progress, CoreFault> {
        let Worked { outputs, goes_on } = self.space.work(task, most, turns)?;
        Ok(Progress { outputs, goes_on })
    }

    fn lend(&mut self, task: u64) -> Option<Task<'p, N>> {
        self.space.lend(task)
    }

    fn compute(apart: &mut Task<'p, N>, most: u64) -> bool {
        matches!(apart.run(most), Pause::Turn)
    }

    fn give_back(&mut self, apart: Task<'p, N>) {
        let _ = self.space.give_back(apart);
    }
}
