//! Frames, as far as a record keeps them.

use std::fmt;

/// What kind of frame it is.
#[derive(Clone, Copy, Debug, PartialEq, Eq)]
pub enum SentKind {
    Hello,
    Call,
    Returned,
    Threw,
    Spent,
    Ack,
    Dirty,
    Lease,
    Clean,
    Cleaned,
    Lookup,
}

/// All kinds, in the order of their numbers.
pub const KINDS: [SentKind; 11] = [
    SentKind::Hello,
    SentKind::Call,
    SentKind::Returned,
    SentKind::Threw,
    SentKind::Spent,
    SentKind::Ack,
    SentKind::Dirty,
    SentKind::Lease,
    SentKind::Clean,
    SentKind::Cleaned,
    SentKind::Lookup,
];

impl fmt::Display for SentKind {
    fn fmt<W: fmt::Write>(&self, f: &mut fmt::Formatter<W>) -> fmt::Result {
        f.write_str(match self {
            SentKind::Hello => "Hello",
            SentKind::Call => "Call",
            SentKind::Returned => "Returned",
            SentKind::Threw => "Threw",
            SentKind::Spent => "Spent",
            SentKind::Ack => "Ack",
            SentKind::Dirty => "Dirty",
            SentKind::Lease => "Lease",
            SentKind::Clean => "Clean",
            SentKind::Cleaned => "Cleaned",
            SentKind::Lookup => "Lookup",
        })
    }
}

/// A frame: its kind, the number that it carries (0 for a Hello), the milliseconds for which a lease is asked or granted (0 for
/// other kinds), whether a Clean is a strong one, and the ids of the objects that a Dirty or a Clean names.
#[derive(Debug, Drop)]
pub struct SentFrame {
    pub kind: SentKind,
    pub number: u64,
    pub period: u64,
    pub strong: bool,
    pub objects: Vec<u64>,
}
