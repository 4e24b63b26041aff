//! How calls were answered.

ghost use Rattle.std.specs.Prelude.{◌≡◌};

/// How many answers were right and wrong, and how many calls were out of memory and made again.
#[derive(Clone, Copy, Debug, Default)]
pub struct Tally {
    pub right: u32,
    pub wrong: u32,
    pub wants: u32,
}

impl Tally {
    /// Counts an answer that was compared.
    pub fn answer(&mut self, is_right: bool) {
        if is_right {
            self.right = self.right.saturating_add(1);
        } else {
            self.wrong = self.wrong.saturating_add(1);
        }
    }

    /// Counts a call that was out of memory, and puts the answer of the same call, made again, in place of its own.
    pub fn replace<T: Drop>(&mut self, answer: &mut T, again: T)
        ensures { answer.new ≡ again }
    {
        self.wants = self.wants.saturating_add(1);
        *answer = again;
    }
}
