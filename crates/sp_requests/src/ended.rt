//! What was asked of a peer, as all of it ends together.

ghost use Rattle.std.specs.Prelude.{◌≡◌, ℕ, List, []};
ghost use Rattle.net_message.specs.declared.message.Message.{Message as Frame};

use crate::{Asked, Asker, OutGroup};
use std::alloc::Global;

/// A call or lookup that ends.
#[derive(Clone, Copy)]
pub struct EndedCall {
    pub asker: Asker,
    /// Its frame is among those that were not sent whole.
    pub unsent: bool,
}

/// What the end of all that is asked of a peer needs, and what its calls and lookups come to. It is made
/// before anything changes, since it takes memory.
#[derive(Drop)]
pub struct Ending {
    pub(crate) calls: Vec<EndedCall>,
    pub(crate) sequences: Vec<u64>,
    pub(crate) groups: Vec<OutGroup>,
}

/// What was asked of a peer: calls and lookups, and dirty and clean calls, each in the order in which they
/// were made.
#[derive(Drop)]
pub struct Ended {
    pub calls: Vec<EndedCall>,
    pub groups: Vec<OutGroup>,
}

impl Asked {
    ghost use Rattle.sp_requests.specs.Ends.{asker_of};

    // Who asks, if it is a call or lookup.
    pub(crate) fn asker(&self) -> Option<Asker>
        ensures { result ≡ asker_of self.now }
    {
        match self {
            Asked::Call {
                number: _,
                task,
                lent,
                kind,
                message: _,
            } => Some(Asker::Call {
                task: *task,
                lent: *lent,
                kind: *kind,
            }),
            Asked::Lookup {
                number: _,
                task,
                name: _,
            } => Some(Asker::Lookup { task: *task }),
            Asked::Tell { call: _, group: _ } => None,
        }
    }
}

impl Ending {
    ghost use Rattle.sp_requests.specs.Ends.{IsEnded, IsEnding};

    /// Nothing ends.
    pub fn new(alloc: Global) -> Ending
        ensures { (unsent : ℕ) (sent : List Frame) → IsEnding unsent [] sent result }
    {
        Ending {
            calls: Vec::new(alloc),
            sequences: Vec::new(alloc),
            groups: Vec::new(alloc),
        }
    }

    /// What ends if there is no more than this: its calls and lookups.
    pub fn without_groups(self) -> Ended
        ensures { (unsent : ℕ) (sent : List Frame) → IsEnding unsent [] sent self → IsEnded unsent [] sent result }
    {
        let Ending {
            calls,
            sequences: _,
            groups,
        } = self;
        Ended { calls, groups }
    }
}
