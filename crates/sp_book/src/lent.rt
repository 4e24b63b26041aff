//! Tasks in hand of a book.

ghost use Rattle.std.specs.Prelude.{◌≡◌, ◌+◌, ◌≤◌};
ghost use Rattle.sp_lender.specs.Hands.{with_made};

use sp_history::Setup;
use sp_lender::{InHand, Lender, Pause};
use std::marker::{Model, PhantomData};

/// A task in hand of the space of a book. While no lock is held its machine stands where its record and its
/// instructions since bring it.
///
/// A contract sees its id, its record and its instructions.
#[derive(Drop)]
pub struct Lent<N: Setup, S: Lender + Drop> {
    pub(crate) task: S::Task,
    pub(crate) name: PhantomData<N>,
}

impl<N: Setup, S: Lender + Drop> Model for Lent<N, S> {
    ghost use Rattle.sp_tasks.specs.Rows.{Hand};

    ghost Value = { Hand };

    ghost view = { λ lent. S.Task.hand lent.task };

    ghost invariant = { λ lent. S.Task.is_of N.setting lent.task };
}

impl<N: Setup, S: Lender + Drop> Lent<N, S> {
    /// Its id.
    pub fn id(&self) -> u64
        ensures { result ≡ self.now.id }
    {
        self.task.id()
    }

    /// Makes at most this many instructions of its own, without the lock, and says what comes next.
    pub fn run(&mut self, most: u64) -> Pause
        ensures same { self.new ≡ with_made self.new.made self.old }
        ensures made { self.old.made ≤ self.new.made }
        ensures most { self.new.made ≤ self.old.made + most }
    {
        self.task.run(most)
    }
}
