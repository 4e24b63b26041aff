//! How the program ends.

ghost use Rattle.std.specs.Prelude.{◌≡◌};

/// The exit status of the program.
#[derive(Clone, Copy, Debug, PartialEq, Eq)]
pub enum Status {
    /// What was asked is done: a method returned, a script is done, or a text was printed.
    Done = 0,
    /// The method threw, or its fuel was spent.
    Ended = 1,
    /// The class set is refused.
    Refused = 2,
    /// The command line, a device, the start or a line of a script are at fault, or memory ran out.
    Failed = 3,
}

impl Status {
    ghost use Rattle.sp_texts.specs.Statuses.{code_of};

    /// Returns the number of the status.
    pub fn code(self) -> u8
        ensures { result ≡ code_of self }
    {
        self as u8
    }
}
