//! The state of a space, and what is seen of it.

ghost use Rattle.std.specs.Prelude.{◌≡◌, true, IfOk, OnOk, map};
ghost use Rattle.sp_outputs.specs.Notes.{output_of};
ghost use Rattle.sp_rules.specs.Classes.{Setting};
ghost use Rattle.sp_rules.specs.Space.{finish_event};
ghost use Rattle.sp_rules.specs.State.{State, opening};

use net_message::Digest;
use sp_living::Living;
use sp_outputs::Output;
use sp_owner::Owner;
use space_ids::Uuid;
use std::alloc::{AllocError, Global};
use table_copies::PeerHashes;

/// The state of a space: what it keeps for others, and what lives in it; its id, the version of the protocol that
/// it speaks at most, and the digest of its class files. A contract names the states of the rules that the value
/// may stand for. A call that fails may leave it anywhere between two of them: what has failed is to be let go, and
/// an equal value kept. What the laws of histories exclude is looked at, and answered like memory that lacks.
#[derive(Drop)]
pub struct SpaceState {
    pub(crate) alloc: Global,
    pub(crate) id: Uuid,
    pub(crate) version: u8,
    pub(crate) digest: Digest,
    pub(crate) owner: Owner,
    pub(crate) living: Living,
}

impl SpaceState {
    ghost use Rattle.sp_owner.specs.Owners.{IsOwner};
    ghost use Rattle.sp_living.specs.Livings.{IsLiving};
    ghost use Rattle.sp_state.specs.Spaces.{IsAtRest, IsSpace};
    ghost use Rattle.sp_transport.specs.Settling.{MaySettle};

    /// The space of this id, which speaks this version at most, over class files of this digest, as it begins.
    /// What peers pick is hashed in this way.
    pub fn new(
        alloc: Global,
        id: Uuid,
        version: u8,
        digest: Digest,
        hashes: PeerHashes,
    ) -> Result<SpaceState, AllocError>
        ensures { IfOk result (λ space. (g : Setting) → g.id ≡ id → g.version ≡ version → g.digest ≡ digest → IsSpace g opening space) }
    {
        let owner = Owner::new(alloc, id, hashes)?;
        let living = Living::new(alloc, id, hashes)?;
        Ok(SpaceState {
            alloc,
            id,
            version,
            digest,
            owner,
            living,
        })
    }

    /// The same, between events. What is lent is lent in the copy too. It costs a step for each row and each
    /// value in it.
    pub fn copy(&self) -> Result<SpaceState, AllocError>
        ensures stands { IfOk result (λ copy. (g : Setting) (s : State) → IsSpace g s self.now → IsAtRest s → IsSpace g s copy) }
        ensures rows { IfOk result (λ copy. copy.living.tasks.rows ≡ self.now.living.tasks.rows) }
    {
        Ok(SpaceState {
            alloc: self.alloc,
            id: self.id,
            version: self.version,
            digest: self.digest,
            owner: self.owner.copy()?,
            living: self.living.copy()?,
        })
    }

    /// What the space keeps for others.
    pub fn owner(&self) -> &Owner
        ensures { (g : Setting) (s : State) → IsSpace g s self.now → IsOwner g s result.now }
    {
        &self.owner
    }

    /// What lives in the space.
    pub fn living(&self) -> &Living
        ensures is { result.now ≡ self.now.living }
        ensures stands { (g : Setting) (s : State) → IsSpace g s self.now → IsLiving g s result.now }
    {
        &self.living
    }

    /// Ends an event that answers: the dirty and clean calls that are due are made, and the call or lookup of
    /// the event is asked. Returns what the event answers, in its order.
    pub fn conclude(&mut self) -> Result<Vec<Output>, AllocError>
        ensures outputs { IfOk result (λ outputs. (g : Setting) (s : State) → IsSpace g s self.old → MaySettle s → map output_of outputs.items ≡ (finish_event true s).1) }
        ensures tasks { self.new.living.tasks ≡ self.old.living.tasks }
        ensures concluded { OnOk result ((g : Setting) (s : State) → IsSpace g s self.old → MaySettle s → IsSpace g (finish_event true s).0 self.new) }
    {
        self.living.settle()?;
        Ok(self.living.conclude())
    }
}
