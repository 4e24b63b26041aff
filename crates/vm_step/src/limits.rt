//! The budgets of a task.
ghost use Rattle.std.specs.Prelude.{◌≡◌};

/// How much a task may use. A heap of 2^32 - 2^16 words or more is out of memory.
#[derive(Clone, Copy, Debug, PartialEq, Eq)]
pub struct Limits {
    /// Words of four bytes for objects and arrays.
    pub heap_words: u32,
    /// Words for frames: each takes as many as its local variables and operands, and four more.
    pub stack_words: u32,
    /// How many distinct references to remote objects it may come by.
    pub references: u16,
    /// How many instructions it may make.
    pub fuel: u64,
}

impl Default for Limits {
    fn default() -> Limits
        ensures { result ≡ record {
          heap_words = 65536;
          stack_words = 16384;
          references = 1024;
          fuel = 1000000;
        } }
    {
        Limits {
            heap_words: 65_536,
            stack_words: 16_384,
            references: 1_024,
            fuel: 1_000_000,
        }
    }
}
