//! Calls and lookups of the space's own: those that it makes, and the answers to them.

ghost use Rattle.std.specs.Prelude.{◌≡◌, Some, OnOk, find, option_and_then};
ghost use Rattle.sp_rules.specs.Classes.{Setting};
ghost use Rattle.sp_rules.specs.ParkedFrames.{is_asked_on, is_call_on, remove_requests};
ghost use Rattle.sp_rules.specs.State.{Connection as Line, State, connection_at};
ghost use Rattle.uuid.specs.declared.Uuid.{Uuid as Peer};

use crate::Living;
use sp_requests::Asker;
use std::alloc::AllocError;

impl Living {
    ghost use Rattle.sp_living.specs.Livings.{IsLiving};
    ghost use Rattle.sp_transport.specs.Answers.{acknowledge, asker_in, park_answer};

    /// Who asks by the call or lookup of this number that is out on a connection and has no answer, if there
    /// is one. This space dialled the connection.
    pub fn asked(&self, conn: u64, number: u64) -> Option<Asker>
        ensures { (g : Setting) (s : State) (c : Line) (peer : Peer) → IsLiving g s self.now → connection_at s conn ≡ Some c → c.dialled ≡ Some peer → result ≡ option_and_then asker_in (find (is_asked_on conn number) s.requests) }
    {
        self.transport.asked(conn, number)
    }

    /// Notes that the result of a call or lookup has come and is parked.
    pub fn answer(&mut self, conn: u64, number: u64)
        ensures answered { (g : Setting) (s : State) (c : Line) (peer : Peer) → IsLiving g s self.old → connection_at s conn ≡ Some c → c.dialled ≡ Some peer → IsLiving g (park_answer conn number s) self.new }
        ensures tasks { self.new.tasks ≡ self.old.tasks }
    {
        self.transport.answer(conn, number);
    }

    /// Lets a call or lookup go that is out on a connection, answered or not.
    pub fn take_call(&mut self, conn: u64, number: u64)
        ensures taken { (g : Setting) (s : State) (c : Line) (peer : Peer) → IsLiving g s self.old → connection_at s conn ≡ Some c → c.dialled ≡ Some peer → IsLiving g (remove_requests (is_call_on conn number) s) self.new }
        ensures tasks { self.new.tasks ≡ self.old.tasks }
    {
        let _ = self.transport.take_call(conn, number);
    }

    /// Lets a call or lookup go whose result has come, if it is out on the connection, and sends its Ack.
    pub fn acknowledge(&mut self, conn: u64, number: u64) -> Result<(), AllocError>
        ensures acknowledged { OnOk result ((g : Setting) (s : State) (c : Line) (peer : Peer) → IsLiving g s self.old → connection_at s conn ≡ Some c → c.dialled ≡ Some peer → IsLiving g (acknowledge conn number s) self.new) }
        ensures tasks { self.new.tasks ≡ self.old.tasks }
    {
        self.transport.reserve_notes(1)?;
        let _ = self.transport.acknowledge_reserved(conn, number);
        Ok(())
    }
}
