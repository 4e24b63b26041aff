//! How a task began.

/// How a task began: a root started it, or a call of this number that came on this connection.
#[derive(Clone, Copy, PartialEq, Eq)]
pub enum Origin {
    /// A root of the space.
    Root,
    /// A call from another space.
    Call { conn: u64, number: u64 },
}
