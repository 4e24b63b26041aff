//! What is drawn, by lanes and rows: a lane is a space, by its number, and rows go down.

use std::alloc::Global;

// What becomes of what goes from one lane to another, and in which row.
#[derive(Clone, Copy, PartialEq, Eq)]
pub(crate) enum Fate {
    OnItsWay,
    Came(usize),
    Lost(usize),
}

// What an arrow stands for.
#[derive(Clone, Copy, PartialEq, Eq)]
pub(crate) enum ArrowStyle {
    // A frame of a call or a look-up.
    Call,
    // A frame of a lease.
    Lease,
    // A connection that is opened or ends, or a Hello.
    Connection,
}

// What goes from one lane to another: it leaves in a row.
#[derive(Drop)]
pub(crate) struct Arrow {
    pub from: usize,
    pub to: usize,
    pub row: usize,
    pub fate: Fate,
    pub style: ArrowStyle,
    pub label: String,
}

// What a mark at a lane stands for.
#[derive(Clone, Copy, PartialEq, Eq)]
pub(crate) enum MarkStyle {
    // A space does what a line asks.
    Obeyed,
    // A root or a look-up begins, or ends.
    Task,
    // Something fails or is denied.
    Failed,
    // Time passes, or objects are withdrawn.
    Owner,
}

// What happens at one lane.
#[derive(Drop)]
pub(crate) struct Mark {
    pub lane: usize,
    pub row: usize,
    pub style: MarkStyle,
    pub label: String,
}

// How a lease ends.
#[derive(Clone, Copy, PartialEq, Eq)]
pub(crate) enum LeaseEnd {
    Cleaned,
    Lapsed,
}

impl LeaseEnd {
    pub fn word(self) -> &'static str {
        match self {
            LeaseEnd::Cleaned => "cleaned",
            LeaseEnd::Lapsed => "lapsed",
        }
    }
}

// A lease that an owner granted to a client: from which row on and, if it ended, until which, and how. Bars of one side of a lane that
// stand at once have different slots.
#[derive(Drop)]
pub(crate) struct Bar {
    pub owner: usize,
    pub client: usize,
    pub slot: usize,
    pub row: usize,
    pub end: Option<(usize, LeaseEnd)>,
    pub object: u64,
}

impl Bar {
    // Whether it stands on the right of its lane: it stands on the side away from its client.
    pub fn is_right(&self) -> bool {
        self.client < self.owner
    }
}

// What is told of leases that begin or end in a row: on a side of their owner's lane, beyond so many slots.
#[derive(Drop)]
pub(crate) struct Note {
    pub owner: usize,
    pub is_right: bool,
    pub slots: usize,
    pub row: usize,
    pub text: String,
}

// A line of the script, and the row from which on it is played.
#[derive(Drop)]
pub(crate) struct Caption {
    pub row: usize,
    pub number: usize,
    pub text: String,
}

// What happened, in its order, by indices.
#[derive(Clone, Copy)]
pub(crate) enum Entry {
    Caption(usize),
    Mark(usize),
    Left(usize),
    Came(usize),
    Lost(usize),
    Granted(usize),
    Ended(usize),
}

// All that is drawn.
#[derive(Drop)]
pub(crate) struct Chart {
    pub rows: usize,
    pub captions: Vec<Caption>,
    pub arrows: Vec<Arrow>,
    pub marks: Vec<Mark>,
    pub bars: Vec<Bar>,
    pub notes: Vec<Note>,
    pub entries: Vec<Entry>,
}

impl Chart {
    // Nothing.
    pub fn new(alloc: Global) -> Chart {
        Chart {
            rows: 0,
            captions: Vec::new(alloc),
            arrows: Vec::new(alloc),
            marks: Vec::new(alloc),
            bars: Vec::new(alloc),
            notes: Vec::new(alloc),
            entries: Vec::new(alloc),
        }
    }
}
