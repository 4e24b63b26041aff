//! Commands of a script.

use std::fmt;

/// The fuel of a root.
#[derive(Clone, Copy, PartialEq, Eq)]
pub enum RootFuel {
    /// So many instructions, below 2^63.
    Units(u64),
    /// As many as the space allows.
    Most,
}

impl RootFuel {
    /// How many instructions these are in a space that allows so many.
    pub fn units(self, most: u64) -> u64 {
        match self {
            RootFuel::Units(units) => units,
            RootFuel::Most => most,
        }
    }
}

impl fmt::Debug for RootFuel {
    fn fmt<W: fmt::Write>(&self, f: &mut fmt::Formatter<W>) -> fmt::Result {
        match self {
            RootFuel::Units(units) => write!(f, "{units}"),
            RootFuel::Most => f.write_str("-"),
        }
    }
}

/// What happens between a space that dialled and its peer.
#[derive(Clone, Copy, Debug, PartialEq, Eq)]
pub enum Between {
    /// The connection is opened, and accepted.
    Open,
    /// The connection is refused.
    Refuse,
    /// The next frame to the peer is delivered.
    Deliver,
    /// The next frame from the peer is delivered.
    Reply,
    /// A read of the space that dialled fails.
    ReadFails,
    /// A write of it fails: this many frames, the last ones, did not go out.
    WriteFails(u64),
}

/// What a line of a script says. Spaces and variables stand by their names.
#[derive(Debug, Drop)]
pub enum Command<'a> {
    /// There is a space, which speaks this version of the protocol at most.
    Space {
        name: &'a str,
        version: u8,
    },
    /// A root starts in a space: a static method with arguments and fuel.
    Root {
        space: &'a str,
        variable: &'a str,
        fuel: RootFuel,
        class: &'a str,
        method: &'a str,
        arguments: Vec<&'a str>,
    },
    /// The result of a root or a look-up is let go.
    Acknowledge {
        space: &'a str,
        variable: &'a str,
    },
    /// A name is bound to the object that a variable names.
    Bind {
        space: &'a str,
        name: &'a str,
        variable: &'a str,
    },
    /// The same for a name that may be bound already.
    Rebind {
        space: &'a str,
        name: &'a str,
        variable: &'a str,
    },
    /// A name is bound no more.
    Unbind {
        space: &'a str,
        name: &'a str,
    },
    /// A space asks a peer what it has bound to a name.
    Lookup {
        space: &'a str,
        peer: &'a str,
        name: &'a str,
        variable: &'a str,
    },
    /// Something happens on the connection that a space dialled to a peer.
    Between {
        space: &'a str,
        peer: &'a str,
        event: Between,
    },
    /// This many milliseconds have passed in a space.
    Moment {
        space: &'a str,
        moment: u64,
    },
    /// A space withdraws what nothing needs.
    Sweep(&'a str),
    /// The lowest ready task of a space makes an instruction.
    Step(&'a str),
    /// The objects of a space are shown.
    Show(&'a str),
    /// What can happen happens.
    Settle,
}
