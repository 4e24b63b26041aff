//! What a space keeps of one connection, and of one peer.

ghost use Rattle.std.specs.Prelude.{◌≡◌, ◌<◌, None};
ghost use Rattle.sp_rules.specs.Requests.{most_ids};

use space_ids::Uuid;

// How many ids a frame of dirty or clean calls names at most, in each version.
const MOST_IDS_OF_1: usize = 1_024;

const MOST_IDS_OF_2: usize = 4_096;

/// An open connection.
#[derive(Clone, Copy)]
pub struct Connection {
    /// The peer that this space dialled, if it did.
    pub dialled: Option<Uuid>,
    /// Who spoke, once the Hello has come.
    pub peer: Option<Uuid>,
    /// The version of its frames: that of the Hello that this space said on it, 1 before.
    pub version: u8,
    /// The last number of a Call or Lookup that came, 0 before the first.
    pub last: u64,
}

/// How far this space is with a peer that it dialled.
#[derive(Clone, Copy)]
pub enum Link {
    /// It waits to be opened or refused.
    Dialling,
    /// The connection of this number is open.
    Open(u64),
}

impl Connection {
    // A connection as it is opened, to this peer if this space dialled it.
    pub(crate) fn new(dialled: Option<Uuid>) -> Connection
        ensures { result ≡ record { dialled = dialled; peer = None; version = 1; last = 0 } }
    {
        Connection {
            dialled,
            peer: None,
            version: 1,
            last: 0,
        }
    }

    /// How many ids a frame of dirty or clean calls names at most on this connection: 1,024 in version 1,
    /// 4,096 in version 2.
    pub fn most_ids(&self) -> usize
        ensures most { result ≡ most_ids self.now.version }
        ensures some { 0 < result }
    {
        if self.version >= 2 {
            MOST_IDS_OF_2
        } else {
            MOST_IDS_OF_1
        }
    }
}
