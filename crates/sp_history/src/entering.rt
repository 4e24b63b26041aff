//! Events from outside.

ghost use Rattle.std.specs.Prelude.{◌≡◌, false, true, IfErr, IfOk, OnErr, OnOk};
ghost use Rattle.sp_history.specs.Entries.{entry_of, event_of_input};
ghost use Rattle.sp_history.specs.Frames.{frames_on, unsent_with as with_waiting};
ghost use Rattle.sp_history.specs.Logs.{entered, is_full};
ghost use Rattle.sp_history.specs.declared.fault.BookFault.TheVariants.{BookFull};
ghost use Rattle.sp_history.specs.declared.twice.Left.TheVariants.{Whole};
ghost use Rattle.sp_rules.specs.Books.{OnEvent};
ghost use Rattle.sp_rules.specs.Events.{WriteFailed};

use crate::entry::{Call, Entry, Input, happen};
use crate::fault::BookFault;
use crate::frames::unsent_with;
use crate::history::History;
use crate::naming::Setup;
use crate::notices::{announce_all, without_ready};
use crate::twice::{Left, Twice};
use sp_events::Event;
use sp_lender::Lender;
use std::alloc::Global;

impl<N: Setup, S: Lender + Drop> History<N, S> {
    /// Lets it happen, enters it under the number of who calls, and answers the call for a list of theirs.
    /// BookFull comes before out of memory, and that before a refusal of the space. Refused, nothing
    /// changes, and what was handed in is left.
    pub fn on(
        &mut self,
        alloc: Global,
        by: u32,
        input: Input,
    ) -> Result<Call, (BookFault, Left<Input>)>
        ensures entered { OnOk result (self.new ≡ entered N.setting by (OnEvent (event_of_input input)) self.old) }
        ensures call { IfOk result (λ call. entry_of call ≡ OnEvent (event_of_input input)) }
        ensures unchanged { OnErr result (self.new ≡ self.old) }
        ensures room { OnOk result (is_full self.old ≡ false) }
        ensures full { IfErr result (λ refused. refused.0 ≡ BookFull → is_full self.old ≡ true) }
        ensures back { IfErr result (λ refused. refused.0 ≡ BookFull → refused.1 ≡ Whole input) }
    {
        let lent = self.in_hand.len();
        if self.limit - self.entries.len() <= lent {
            return Err((BookFault::BookFull, Left::Whole(input)));
        }
        if self.entries.reserve(lent + 1).is_err() || self.waiting.reserve(lent + 1).is_err() {
            return Err((BookFault::Memory, Left::Whole(input)));
        }
        let twice = match Twice::new(alloc, input) {
            Ok(twice) => twice,
            Err(left) => return Err((BookFault::Memory, left)),
        };
        match happen(&mut self.space, twice.get()) {
            Ok(outputs) => {
                let (input, copy) = twice.into_both();
                announce_all(&mut self.notices, outputs.as_slice());
                let batch = without_ready(outputs);
                self.entries.push_reserved(Entry {
                    by,
                    call: Call::On(input),
                });
                self.waiting.push_reserved(batch);
                Ok(Call::On(copy))
            }
            Err(fault) => Err((BookFault::of(fault), twice.into_left())),
        }
    }

    /// Enters that a write failed on a connection, after which so many of its last frames were not sent: those
    /// that are told, and those that wait here. Refused as `on` is.
    pub fn fail_write(
        &mut self,
        alloc: Global,
        by: u32,
        conn: u64,
        unsent: u64,
    ) -> Result<Call, (BookFault, Left<Input>)>
        ensures entered { OnOk result (self.new ≡ entered N.setting by (OnEvent (WriteFailed conn (with_waiting unsent (frames_on conn self.old.waiting)))) self.old) }
        ensures call { IfOk result (λ call. entry_of call ≡ OnEvent (WriteFailed conn (with_waiting unsent (frames_on conn self.old.waiting)))) }
        ensures unchanged { OnErr result (self.new ≡ self.old) }
    {
        let unsent = unsent_with(conn, unsent, self.waiting.as_slice());
        self.on(alloc, by, Input::Event(Event::WriteFailed { conn, unsent }))
    }
}
