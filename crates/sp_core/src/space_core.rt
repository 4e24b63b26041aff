//! The core of a space, and its two states.

ghost use Rattle.std.specs.Prelude.{◌≡◌, None, IfOk};
ghost use Rattle.sp_rules.specs.Classes.{Setting};
ghost use Rattle.sp_rules.specs.State.{State, opening};
ghost use Rattle.sp_core.specs.Hands.{IsSecond};

use net_message::Digest;
use sp_changes::BoxedState;
use sp_holders::Sightings;
use sp_state::SpaceState;
use space_ids::Uuid;
use std::alloc::{AllocError, Global};
use table_copies::PeerHashes;

// Moments stay below this one, and a space whose numbers have come to it is worn out.
pub(crate) const END: u64 = 1 << 63;

/// The core of one space.
///
/// It keeps two equal states. An event happens to the second first, then to the first. One that is out of
/// memory is let go, and copied anew. A contract names the states of the rules that the value may stand for.
#[derive(Drop)]
pub struct SpaceCore {
    pub(crate) alloc: Global,
    pub(crate) id: Uuid,
    // With how much fuel a root may start.
    pub(crate) fuel: u64,
    pub(crate) state: BoxedState,
    pub(crate) spare: Option<BoxedState>,
    // Where references were seen to be held. What finds no memory is not kept.
    pub(crate) sightings: Sightings,
}

impl SpaceCore {
    ghost use Rattle.sp_core.specs.Cores.{IsCore};

    /// The core of the space of this id, over class files of this digest, whose roots start with at most this
    /// fuel, and which speaks this version of the protocol at most. Nothing has happened to it. What peers pick, such as
    /// ids of objects, is hashed in the same way in each run: where strangers reach the space, use
    /// [`with_hashes`](SpaceCore::with_hashes).
    pub fn new(
        alloc: Global,
        id: Uuid,
        digest: Digest,
        fuel: u64,
        version: u8,
    ) -> Result<SpaceCore, AllocError>
        ensures { IfOk result (λ core. (g : Setting) → g.id ≡ id → g.digest ≡ digest
            → g.limits.fuel ≡ fuel → g.version ≡ version → IsCore g opening core) }
    {
        SpaceCore::with_hashes(alloc, id, digest, fuel, version, PeerHashes::Fixed)
    }

    /// The same, but that what peers pick is hashed in this way.
    pub fn with_hashes(
        alloc: Global,
        id: Uuid,
        digest: Digest,
        fuel: u64,
        version: u8,
        hashes: PeerHashes,
    ) -> Result<SpaceCore, AllocError>
        ensures { IfOk result (λ core. (g : Setting) → g.id ≡ id → g.digest ≡ digest
            → g.limits.fuel ≡ fuel → g.version ≡ version → IsCore g opening core) }
    {
        let first = SpaceState::new(alloc, id, version, digest, hashes)?;
        let state = BoxedState::new(alloc, first)?;
        Ok(SpaceCore {
            alloc,
            id,
            fuel,
            state,
            spare: None,
            sightings: Sightings::new(alloc, hashes),
        })
    }

    /// The space's id.
    pub fn id(&self) -> Uuid
        ensures { (g : Setting) (s : State) → IsCore g s self.now → result ≡ g.id }
    {
        self.id
    }

    // Takes the second state out: a copy of the first, if there is none.
    pub(crate) fn take_spare(&mut self) -> Result<BoxedState, AllocError>
        ensures spare { IfOk result (λ spare. (g : Setting) (s : State) → IsCore g s self.old → IsSecond g s self.old.state spare) }
        ensures core { self.new ≡ record self.old { spare = None } }
    {
        match self.spare.take() {
            Some(spare) => Ok(spare),
            None => self.state.copy(self.alloc),
        }
    }

    pub(crate) fn put_spare(&mut self, spare: Option<BoxedState>)
        ensures { self.new ≡ record self.old { spare = spare } }
    {
        drop(std::mem::replace(&mut self.spare, spare));
    }
}
