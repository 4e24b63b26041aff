//! What the event under way answers: outputs that are no frames, and frames on connections that peers
//! dialled.

ghost use Rattle.std.specs.Prelude.{◌≡◌, ◌<◌, ◌+◌, ℕ, None, Some, true, false};
ghost use Rattle.net_message.specs.declared.message.Message.{Message as Frame};
ghost use Rattle.sp_rules.specs.State.{Connection as Row, State, connection_at, say, send};
ghost use Rattle.sp_outputs.specs.Notes.{is_said, output_of, turn_of};

use crate::Transport;
use net_message::Message;
use sp_outputs::{Output, Turn};

impl Transport {
    ghost use Rattle.sp_transport.specs.Rooms.{KeepsRows, Spends, note_room};
    ghost use Rattle.sp_transport.specs.Said.{is_acks};
    ghost use Rattle.sp_transport.specs.Transports.{IsTransport};

    /// Answers an output that is no frame. It takes no memory: the caller owes
    /// [room](Transport::reserve_notes) for it.
    pub fn say_reserved(&mut self, output: Output)
        requires said { is_said output ≡ true }
        requires room { 0 < note_room self.old }
        ensures said { (s : State) → IsTransport s self.old → IsTransport (say (output_of output) s) self.new }
        ensures rooms { Spends 0 0 0 1 self.old self.new }
        ensures rows { KeepsRows self.old self.new }
    {
        self.outputs.say_reserved(output);
    }

    /// Sends a frame on a connection that a peer dialled: the answer to one that came there. Nothing
    /// happens if the connection is not open. It takes no memory: the caller owes
    /// [room](Transport::reserve_notes) for it.
    pub fn send_reserved(&mut self, turn: Turn, conn: u64, message: Message)
        requires turn { is_acks (turn_of turn) ≡ false }
        requires room { 0 < note_room self.old }
        ensures sent { (s : State) → IsTransport s self.old → ((c : Row) → connection_at s conn ≡ Some c → c.dialled ≡ None) → IsTransport (send (turn_of turn) conn message s) self.new }
        ensures rooms { Spends 0 0 0 1 self.old self.new }
        ensures rows { KeepsRows self.old self.new }
    {
        match self.connections.get(conn) {
            Some(_) => self.outputs.send_reserved(turn, conn, message),
            None => {}
        }
    }
}
