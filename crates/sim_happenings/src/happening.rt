//! What happens as a script is played.

use crate::SentFrame;

/// The two ends of a connection.
#[derive(Clone, Copy, Debug, PartialEq, Eq)]
pub enum LinkEnd {
    /// At the space that dialled.
    Dialler,
    /// At the space that was dialled.
    Accepter,
}

impl LinkEnd {
    /// The other end.
    pub fn other(self) -> LinkEnd {
        match self {
            LinkEnd::Dialler => LinkEnd::Accepter,
            LinkEnd::Accepter => LinkEnd::Dialler,
        }
    }
}

/// What happens, by the numbers of spaces and connections, from 0 in the order in which they come. Frames come to an end in the
/// order in which the other one sent them.
#[derive(Debug, Drop)]
pub enum Happening {
    /// The line of this number, from 1, is played from here on.
    Line {
        number: usize,
        text: String,
    },
    /// A space does what a line asks of it alone: it changes a name, lets a result go, or sweeps.
    Obeyed(usize),
    /// A root or a look-up of a variable begins.
    Begun {
        space: usize,
        text: String,
    },
    /// A root or a look-up ends: its variable and its outcome.
    Ended {
        space: usize,
        text: String,
    },
    /// A registry denies what a line asks.
    Denied {
        space: usize,
        text: String,
    },
    /// The clock of a space stands at this many milliseconds.
    Moment {
        space: usize,
        moment: u64,
    },
    /// A space withdraws objects.
    Withdrawn {
        space: usize,
        objects: Vec<u64>,
    },
    /// The next connection is opened.
    Opened {
        dialler: usize,
        dialled: usize,
    },
    /// The space that was dialled accepts a connection.
    Accepted(u64),
    /// A dial is refused.
    Refused {
        dialler: usize,
        dialled: usize,
    },
    /// An end of a connection sends a frame.
    Sent {
        conn: u64,
        from: LinkEnd,
        frame: SentFrame,
    },
    /// The first frame that is on its way comes to an end of a connection or, if there is none, that the other end has ended.
    Delivered {
        conn: u64,
        to: LinkEnd,
    },
    /// An end of a connection closes it.
    Closed {
        conn: u64,
        by: LinkEnd,
    },
    /// A read fails at an end of a connection, which ends so.
    ReadFailed {
        conn: u64,
        at: LinkEnd,
    },
    /// A write fails at an end of a connection, which ends so. Of the frames on their way from there this many, the last ones, did
    /// not go out.
    WriteFailed {
        conn: u64,
        at: LinkEnd,
        unsent: u64,
    },
}
