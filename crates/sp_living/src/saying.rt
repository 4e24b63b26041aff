//! What the event under way answers.

ghost use Rattle.std.specs.Prelude.{◌≡◌, OnOk, true, false, None, Some};
ghost use Rattle.sp_outputs.specs.Notes.{is_said, output_of, turn_of};
ghost use Rattle.sp_rules.specs.Classes.{Setting};
ghost use Rattle.sp_rules.specs.State.{Connection, State, connection_at, say, send};
ghost use Rattle.sp_transport.specs.Transports.{IsTransport};
ghost use Rattle.sp_transport.specs.Said.{is_acks};

use crate::Living;
use net_message::Message;
use sp_outputs::{Output, Turn};
use std::alloc::AllocError;

impl Living {
    ghost use Rattle.sp_living.specs.Livings.{IsLiving};
    ghost use Rattle.sp_living.specs.Tickets.{IsOurs};

    /// Answers an output that is no frame.
    pub fn say(&mut self, output: Output) -> Result<(), AllocError>
        requires { is_said output ≡ true }
        ensures said { OnOk result ((g : Setting) (s : State) → IsLiving g s self.old → IsLiving g (say (output_of output) s) self.new) }
        ensures tasks { self.new.tasks ≡ self.old.tasks }
    {
        self.transport.reserve_notes(1)?;
        self.transport.say_reserved(output);
        Ok(())
    }

    /// Sends a frame on a connection that a peer dialled: the answer to one that came there. Nothing
    /// happens if the connection is not open. What comes on a connection that this space dialled answers,
    /// and is not answered.
    pub fn reply(&mut self, turn: Turn, conn: u64, message: Message) -> Result<(), AllocError>
        requires { is_acks (turn_of turn) ≡ false }
        ensures sent { OnOk result ((g : Setting) (s : State) → IsLiving g s self.old → IsLiving g (send (turn_of turn) conn message s) self.new) }
        ensures tasks { self.new.tasks ≡ self.old.tasks }
    {
        if self.is_dialled(conn) {
            return Err(AllocError);
        }
        self.transport.reserve_notes(1)?;
        self.transport.send_reserved(turn, conn, message);
        Ok(())
    }

    // Whether a connection is open that this space dialled.
    pub(crate) fn is_dialled(&self, conn: u64) -> bool
        ensures ours { result ≡ true → (s : State) → IsTransport s self.now.transport → IsOurs conn s }
        ensures others { result ≡ false → (s : State) (c : Connection) → IsTransport s self.now.transport → connection_at s conn ≡ Some c → c.dialled ≡ None }
    {
        match self.transport.connection(conn) {
            Some(connection) => connection.dialled.is_some(),
            None => false,
        }
    }
}
