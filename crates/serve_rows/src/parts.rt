//! What spaces are played with.

use sp_serve::{Bound, Host, Peer, Plan, open};
use space_ids::Uuid;
use std::alloc::Global;
use std::io;
use std::net::TcpListener;

// The fuel of a method that makes an object to be bound.
const FUEL: u64 = 1_000;

/// A space that is played: its id, where it listens, and what it is served with.
#[derive(Drop)]
pub struct Part {
    pub id: Uuid,
    pub listener: TcpListener,
    pub plan: Plan,
}

impl Part {
    /// The space of this number, which knows where these peers listen.
    pub fn new<R: Host>(rt: &R, number: u128, peers: &[Peer]) -> io::Result<Part> {
        let plan = Plan {
            bound: Vec::new(rt.alloc()),
            peers: peers.to_vec(rt.alloc())?,
            workers: 2,
            fuel: FUEL,
        };
        Ok(Part {
            id: Uuid::from_u128(number),
            listener: open(rt, "127.0.0.1:0")?,
            plan,
        })
    }

    /// It binds an object to a name, which a method of a class makes.
    pub fn bind(&mut self, alloc: Global, name: &str, class: &str, method: &str) -> io::Result<()> {
        self.plan.bound.push(Bound {
            name: String::from_str(alloc, name)?,
            class: String::from_str(alloc, class)?,
            method: String::from_str(alloc, method)?,
        })?;
        Ok(())
    }

    /// Where it listens.
    pub fn peer(&self) -> io::Result<Peer> {
        Ok(Peer {
            id: self.id,
            address: self.listener.local_addr()?,
        })
    }
}
