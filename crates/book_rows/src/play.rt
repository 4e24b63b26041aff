//! What is played on a book.

ghost use Rattle.std.specs.Prelude.{◌<◌};

use crate::counter::Counting;
use crate::load::Load;

/// What is played on a book.
#[derive(Clone, Copy)]
pub enum Play {
    Full,
    Queue(u32),
    Counting(Counting),
    Holding(u32),
    Load(Load),
    Weigh(u64),
}

impl Play {
    /// How many entries its book takes.
    pub fn entries(&self) -> usize {
        match self {
            Play::Full => 3,
            _ => 1 << 32,
        }
    }

    /// For how many notices its book has room in the queue.
    pub fn notices(&self) -> usize
        ensures { 0 < result }
    {
        match self {
            Play::Load(_) => 4096,
            _ => 1,
        }
    }
}
