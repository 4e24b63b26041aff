//! Connections, with what is on its way on each.

use sim_happenings::LinkEnd;
use std::alloc::{AllocError, Global};
use std::collections::VecDeque;

// A frame on its way: its arrow, and the index of what happened as it was sent.
#[derive(Clone, Copy)]
pub(crate) struct Travelling {
    pub arrow: usize,
    pub sent: usize,
}

// What goes towards one end of a connection: the frames, and the arrow that says that the other end has ended. An end that has ended
// itself gets nothing more.
#[derive(Drop)]
pub(crate) struct Way {
    pub frames: VecDeque<Travelling>,
    pub ending: Option<usize>,
    pub is_over: bool,
}

// A connection: the lanes of its ends, the arrow of its opening, and what goes towards each end.
#[derive(Drop)]
pub(crate) struct Link {
    pub dialler: usize,
    pub dialled: usize,
    pub opening: usize,
    to_dialler: Way,
    to_accepter: Way,
}

impl Way {
    fn new(alloc: Global) -> Way {
        Way {
            frames: VecDeque::new(alloc),
            ending: None,
            is_over: false,
        }
    }
}

impl Link {
    // A connection on which nothing is on its way.
    pub fn new(alloc: Global, dialler: usize, dialled: usize, opening: usize) -> Link {
        Link {
            dialler,
            dialled,
            opening,
            to_dialler: Way::new(alloc),
            to_accepter: Way::new(alloc),
        }
    }

    // The lane of an end.
    pub fn lane(&self, end: LinkEnd) -> usize {
        match end {
            LinkEnd::Dialler => self.dialler,
            LinkEnd::Accepter => self.dialled,
        }
    }

    // What goes towards an end.
    pub fn way_mut(&mut self, to: LinkEnd) -> &mut Way {
        match to {
            LinkEnd::Dialler => &mut self.to_dialler,
            LinkEnd::Accepter => &mut self.to_accepter,
        }
    }

    // Whether an end has ended.
    pub fn is_over(&self, end: LinkEnd) -> bool {
        match end {
            LinkEnd::Dialler => self.to_dialler.is_over,
            LinkEnd::Accepter => self.to_accepter.is_over,
        }
    }

    // A frame leaves for an end.
    pub fn send(&mut self, to: LinkEnd, frame: Travelling) -> Result<(), AllocError> {
        self.way_mut(to).frames.push_back(frame)?;
        Ok(())
    }
}
