//! The connections of a space, what it asks of its peers and has not ended, and what it asks of its class set.
//!
//! [`Connections`] has the open connections and the peers that were dialled, [`NotedPeers`] the peers that speak
//! version 1 alone, [`Requests`] the calls and lookups of tasks
//! and the dirty and clean calls of references that one peer is asked, [`Peers`] a row of them for each peer. [`ClassSet`]
//! and [`CallClasses`] say which classes are remote, what their fields hold, which methods may be called on which
//! objects, what they take and give, and of what classes the exceptions of calls are (Java RMI specification, 2.4, 4.1
//! and appendix A).
//!
//! A contract speaks of the lists of connections, dialled peers and requests by the rules of spaces, for which a value
//! may stand, and of the frames that went out on a connection, newest first.
#![tactic(auto)]

pub use asked::{Asked, Asker, OutCall, OutGroup, ResultKind};
pub use call_classes::{CallClasses, RemoteException};
pub use class_set::{ClassSet, FieldKind};
pub use connection::{Connection, Link};
pub use connections::Connections;
pub use ended::{Ended, EndedCall, Ending};
pub use noted_peers::NotedPeers;
pub use peers::Peers;
pub use requests::Requests;

mod asked;
mod call_classes;
mod class_set;
mod connection;
mod connections;
mod copies;
mod ended;
mod noted_peers;
mod peers;
mod requests;
