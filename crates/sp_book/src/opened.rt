//! A queue and a ledger that have no name yet.

ghost use Rattle.std.specs.Prelude.{◌≡◌, ◌<◌, ◌^◌};
ghost use Rattle.crossbeam_queue.specs.Passes.{IsPassOf, view};
ghost use Rattle.sp_ready.specs.Notices.{writer_at_first};
ghost use Rattle.sp_rules.specs.State.{opening};

use crate::book::Book;
use crate::locked::Locked;
use crate::naming::Naming;
use crossbeam_utils::sync::EventCount;
use sp_history::History;
use sp_lender::Lender;
use sp_ready::{Queue, Seat, open};
use std::alloc::{AllocError, Global};
use std::sync::Mutex;
use std::sync::ledger::Blank;

/// What a book is made of, beside its space: the queue of ready tasks, with the seat that puts notices in,
/// and the ledger that counts entries. They have no name of a type yet: the caller of `named` picks it.
pub struct Opened {
    pub blank: Blank,
    pub queue: Queue,
    writer: Seat,
    pub ghost parts: { blank.parts ≡ 2 ^ 32 },
    pub ghost tied: { IsPassOf queue writer },
    pub ghost fresh: { view writer ≡ writer_at_first },
}

impl Opened {
    /// A queue with room for this many notices, and a ledger.
    pub fn new(alloc: Global, ready: usize) -> Result<Opened, AllocError>
        requires { 0 < ready }
    {
        let (queue, writer) = open(alloc, ready)?;
        Ok(Opened {
            blank: Blank::new(1 << 32),
            queue,
            writer,
        })
    }

    /// The book of a space to which nothing has happened, which takes this many entries.
    pub fn named<N: Naming, S: Lender + Drop>(
        self,
        alloc: Global,
        space: S,
        entries: usize,
    ) -> Result<Book<N, S>, AllocError>
        requires name { self.blank.name ≡ N.name }
        requires parts { self.blank.parts ≡ N.parts }
        requires all { self.blank.parts ≡ N.all }
        requires table { self.queue.table.shared.table_id ≡ N.table }
        requires space { S.is_space N.setting opening space }
    {
        let Opened {
            blank,
            queue,
            writer,
        } = self;
        let history = History::new(alloc, space, entries)?;
        let (tally, rest) = blank.open::<N>();
        let locked = Mutex::new(Locked {
            history,
            writer,
            rest,
            tally,
            passes: 0,
        });
        Ok(Book {
            locked,
            queue,
            bell: EventCount::new(),
        })
    }
}
