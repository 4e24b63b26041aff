//! The open connections, by their numbers.

use crate::link::Link;
use crate::numbers::{Numbers, key_of};
use slab::Slab;
use std::alloc::{AllocError, Global};
use std::net::TcpStream;
use std::sync::Arc;

/// How many connections may be open.
pub const MOST: usize = 2_048;

/// How many connections may be open that peers made.
pub const MOST_ACCEPTED: usize = 1_024;

/// The open connections. The number of one never comes again, and has the key of its row in it.
#[derive(Drop)]
pub struct Links {
    alloc: Global,
    rows: Slab<Arc<Link>>,
    // How many of them peers made.
    accepted: usize,
    numbers: Numbers,
}

impl Links {
    /// No connection.
    pub fn new(alloc: Global) -> Links {
        Links {
            alloc,
            rows: Slab::new(alloc),
            accepted: 0,
            numbers: Numbers::new(),
        }
    }

    /// Adds a connection, which the peer made if `is_accepted`, and returns it. None if as many are open as may be.
    pub fn add(
        &mut self,
        stream: TcpStream,
        is_accepted: bool,
    ) -> Result<Option<Arc<Link>>, AllocError> {
        if self.rows.len() >= MOST || is_accepted && self.accepted >= MOST_ACCEPTED {
            return Ok(None);
        }
        self.rows.reserve(1)?;
        let Some(conn) = self.numbers.give(self.rows.vacant_key()) else {
            return Ok(None);
        };
        let link = Arc::new(self.alloc, Link::new(self.alloc, conn, stream, is_accepted))?;
        let copy = Arc::try_clone(&link)?;
        let _ = self.rows.insert(link)?;
        if is_accepted {
            self.accepted = self.accepted.saturating_add(1);
        }
        Ok(Some(copy))
    }

    /// The connection of a number, if it is open.
    pub fn get(&self, conn: u64) -> Option<&Arc<Link>> {
        match self.rows.get(key_of(conn)) {
            Some(link) if link.conn == conn => Some(link),
            _ => None,
        }
    }

    /// Forgets a connection.
    pub fn remove(&mut self, conn: u64) {
        let is_accepted = match self.get(conn) {
            Some(link) => link.is_accepted,
            None => return,
        };
        if is_accepted {
            self.accepted = self.accepted.saturating_sub(1);
        }
        drop(self.rows.try_remove(key_of(conn)));
    }

    /// All of them.
    pub fn all(&self) -> Result<Vec<Arc<Link>>, AllocError> {
        let mut all = Vec::new(self.alloc);
        for (_, link) in self.rows.iter() {
            all.push(Arc::try_clone(link)?)?;
        }
        Ok(all)
    }
}
