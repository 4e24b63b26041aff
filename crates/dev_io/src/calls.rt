//! How many calls of a device over memory succeed before one fails.

ghost use Rattle.std.specs.Prelude.{◌≡◌, ◌<◌, IsTrue, IsErr, ◌↔◌};

use super::Failed;

/// How many more calls of a device over memory succeed.
#[derive(Clone, Copy, Debug, PartialEq, Eq)]
pub enum Calls {
    /// All of them.
    Unlimited,
    /// This many; the next one fails.
    Left(u64),
    /// None: a call has failed.
    Failed,
}

impl Calls {
    ghost use Rattle.dev_io.specs.Calls.{after_call, failing_at, is_failed};

    // The calls of a device whose `call`-th call from here on fails, counted from 1.
    pub(crate) fn failing_at(self, call: u64) -> Calls
        requires { 0 < call }
        ensures { result ≡ failing_at call self }
    {
        match self {
            Calls::Failed => Calls::Failed,
            Calls::Unlimited | Calls::Left(_) => Calls::Left(call - 1),
        }
    }

    // Counts a call. Answers `Failed` if this call has to fail.
    pub(crate) fn count(&mut self) -> Result<(), Failed>
        ensures after { self.new ≡ after_call self.old }
        ensures failed { IsErr result ↔ IsTrue (is_failed self.new) }
    {
        match *self {
            Calls::Unlimited => Ok(()),
            Calls::Left(0) | Calls::Failed => {
                *self = Calls::Failed;
                Err(Failed)
            }
            Calls::Left(left) => {
                *self = Calls::Left(left - 1);
                Ok(())
            }
        }
    }

    pub(crate) fn have_failed(self) -> bool
        ensures { result ≡ is_failed self }
    {
        matches!(self, Calls::Failed)
    }
}
