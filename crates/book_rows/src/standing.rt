//! Spaces that tell how many of their objects stand.

ghost use Rattle.std.specs.Prelude.{◌≡◌};

use crate::told::failed;
use sp_book::{Book, Lender, Naming, Pass};
use sp_history::Setup;
use sp_lending::LendingSpace;
use std::io;
use std::io::Write;

/// A space that tells how many of its objects stand.
pub trait Standing: Lender {
    fn standing(&self) -> usize;
}

impl<'p, N: Setup> Standing for LendingSpace<'p, N> {
    fn standing(&self) -> usize {
        for index in 0..usize::MAX {
            if self.object(index).is_none() {
                return index;
            }
        }
        usize::MAX
    }
}

/// Takes a book apart, and prints how many entries it has, and how many objects its space.
pub fn gather_all<N: Naming, S: Standing + Drop, W: Write>(
    book: Book<N, S>,
    passes: Vec<Pass<N>>,
    out: &mut W,
) -> io::Result<()>
    requires { N.all ≡ N.parts }
{
    match book.gather(passes) {
        Ok(gathered) => {
            let objects = gathered.space.standing();
            writeln!(out, "{} entries, {objects} objects", gathered.entries.len())
        }
        Err(_) => Err(failed()),
    }
}
