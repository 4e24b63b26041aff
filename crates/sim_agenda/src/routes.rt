//! The connections that a script opened.

use indexmap::IndexMap;
use sp_world::{Dial, End};
use std::alloc::{AllocError, Global};

// A space that dials, and the one that it dials.
#[derive(Clone, Copy, PartialEq, Eq, Hash)]
struct Route {
    dialler: usize,
    dialled: usize,
}

/// Who dialled whom, of each connection by its number, and the newest connection of each two spaces.
#[derive(Drop)]
pub struct Routes {
    rows: Vec<Dial>,
    newest: IndexMap<Route, u64>,
}

impl Routes {
    /// No connection.
    pub fn new(alloc: Global) -> Routes {
        Routes {
            rows: Vec::new(alloc),
            newest: IndexMap::new(alloc),
        }
    }

    /// Adds the next connection.
    pub fn add(&mut self, dial: Dial) -> Result<(), AllocError> {
        self.newest.insert(route_of(dial), self.rows.len() as u64)?;
        self.rows.push(dial)?;
        Ok(())
    }

    /// How many were opened.
    pub fn len(&self) -> usize {
        self.rows.len()
    }

    /// The newest connection that a space dialled to a peer.
    pub fn newest(&self, dial: Dial) -> Option<u64> {
        self.newest.get(&route_of(dial)).copied()
    }

    /// The space at an end of a connection.
    pub fn space_at(&self, conn: u64, end: End) -> Option<usize> {
        let dial = self.rows.get(conn as usize)?;
        match end {
            End::Dialler => Some(dial.dialler),
            End::Accepter => Some(dial.dialled),
        }
    }
}

fn route_of(dial: Dial) -> Route {
    Route {
        dialler: dial.dialler,
        dialled: dial.dialled,
    }
}
