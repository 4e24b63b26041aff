//! Tasks in hand.

ghost use Rattle.std.specs.Prelude.{◌≡◌, ◌+◌, ◌≤◌};
ghost use Rattle.sp_lender.specs.Hands.{with_made};
ghost use Rattle.sp_rules.specs.Classes.{Setting};
ghost use Rattle.sp_tasks.specs.Rows.{Hand};

use sp_tasks::Op;

/// What a slice of a task's instructions ends with.
#[derive(Drop)]
pub enum Pause {
    /// It may go on.
    Turn,
    /// It asks its space for this.
    Asks(Op),
    /// It has ended.
    Ended,
    /// Memory ran out, for its machine or for what it asks.
    Memory,
}

/// A task in hand, with its machine. Its instructions are made without its space.
pub trait InHand {
    // Its id, its record as it was lent or as the last reply left it, and its instructions since.
    ghost hand: { Self → Hand };

    // It is a task of a space of this setting, and its machine stands where its record and its instructions
    // since bring it.
    ghost is_of: { Setting → Self → Type 0 };

    /// Its id.
    fn id(&self) -> u64
        ensures { result ≡ (hand self.now).id };

    /// How many instructions of its own it made since it was lent or given a reply.
    fn made(&self) -> u64
        ensures { result ≡ (hand self.now).made };

    /// Makes at most this many instructions of its own, and says what comes next.
    fn run(&mut self, most: u64) -> Pause
        ensures same { hand self.new ≡ with_made (hand self.new).made (hand self.old) }
        ensures made { (hand self.old).made ≤ (hand self.new).made }
        ensures most { (hand self.new).made ≤ (hand self.old).made + most }
        ensures of { (g : Setting) → is_of g self.old → is_of g self.new };
}
