//! How requests wait for the peer's Hello, and go out.

ghost use Rattle.std.specs.Prelude.{◌≡◌, ◌<◌, ℕ, List, [], ◌∷◌, OnOk, false};
ghost use Rattle.dgc_client.specs.Groups.{parts_of};
ghost use Rattle.net_message.specs.declared.message.Message.{Message as Frame};
ghost use Rattle.sp_rules.specs.Endings.{call_number_in};
ghost use Rattle.sp_rules.specs.Lists.{each};
ghost use Rattle.sp_rules.specs.Requests.{add_request, dial, go_out, group_frame, hello_came, most_on, part_goes_out};
ghost use Rattle.sp_rules.specs.State.{Asked as Question, Out, State, Waits, connection_to, send};
ghost use Rattle.sp_requests.specs.Asking.{IsNamed, asked_of, asks_by};
ghost use Rattle.sp_outputs.specs.Notes.{turn_of};

use crate::Transport;
use dgc_client::{Due, Group, LONGEST_LEASE};
use net_message::Message;
use sp_outputs::{Output, Turn};
use sp_requests::{Asked, Asker};
use space_ids::{ObjId, Row, Uuid};
use std::alloc::AllocError;

// How many ids a frame of dirty or clean calls names at most where no connection is.
const FEWEST_IDS: usize = 1_024;

impl Transport {
    ghost use Rattle.sp_transport.specs.Asking.{AreNextOut, AreNextWaiting};
    ghost use Rattle.sp_transport.specs.Said.{CallsMayGo, GroupsMayGo, MayGo, is_acks};
    ghost use Rattle.sp_transport.specs.Transports.{IsTransport, call_number};

    // Makes a request of a peer that waits for its Hello, after all others; the peer is dialled if no
    // connection to it is open and none is being opened.
    pub(crate) fn wait(&mut self, peer: &Uuid, asked: Asked) -> Result<(), AllocError>
        ensures { OnOk result ((s : State) → IsTransport s self.old → hello_came (connection_to s peer.now) ≡ None → IsNamed (asked_of asked) → AreNextWaiting s (call_number (asked_of asked)) → IsTransport (dial peer.now (add_request (record { peer = peer.now; asked = asked_of asked; stage = Waits }) s)) self.new) }
    {
        self.reserve_requests(peer, 1, 0, 0)?;
        self.reserve_connections(0, 1)?;
        self.reserve_notes(1)?;
        self.peers.wait_reserved(peer, asked);
        if !self.connections.dial_reserved(peer) {
            return Ok(());
        }
        self.outputs.say_reserved(Output::Dial(*peer));
        Ok(())
    }

    // Sends a request to a peer, on the connection that was dialled to it and on which its Hello came. The
    // number of a call or lookup is above those of all that went out there before.
    pub(crate) fn go_out(
        &mut self,
        turn: Turn,
        conn: u64,
        peer: &Uuid,
        asked: Asked,
    ) -> Result<(), AllocError>
        requires { is_acks (turn_of turn) ≡ false }
        ensures { OnOk result ((s : State) → IsTransport s self.old → hello_came (connection_to s peer.now) ≡ Some conn → IsNamed (asked_of asked) → AreNextOut s peer.now (call_number (asked_of asked)) → MayGo (turn_of turn) (asked_of asked) s → IsTransport (go_out (turn_of turn) conn (record { peer = peer.now; asked = asked_of asked; stage = Waits }) s) self.new) }
    {
        match asked {
            Asked::Call {
                number,
                task,
                lent,
                kind,
                message,
            } => {
                let asker = Asker::Call { task, lent, kind };
                self.call_out(turn, conn, peer, number, asker, message)
            }
            Asked::Lookup { number, task, name } => {
                let asker = Asker::Lookup { task };
                let message = Message::Lookup { number, name };
                self.call_out(turn, conn, peer, number, asker, message)
            }
            Asked::Tell { call, group } => self.tell(turn, conn, peer, call, &group),
        }
    }

    // Sends the frame of a call or lookup of this number.
    fn call_out(
        &mut self,
        turn: Turn,
        conn: u64,
        peer: &Uuid,
        number: u64,
        asker: Asker,
        message: Message,
    ) -> Result<(), AllocError>
        requires { is_acks (turn_of turn) ≡ false }
        ensures { OnOk result ((s : State) (asked : Question) → IsTransport s self.old → hello_came (connection_to s peer.now) ≡ Some conn → asks_by asked ≡ (number, asker) ∷ [] → call_number asked ≡ number ∷ [] → call_number_in message ≡ number ∷ [] → IsNamed asked → AreNextOut s peer.now (number ∷ []) → CallsMayGo (turn_of turn) s → IsTransport (send (turn_of turn) conn message (add_request (record { peer = peer.now; asked = asked; stage = Out conn 0 }) s)) self.new) }
    {
        self.reserve_requests(peer, 0, 1, 0)?;
        self.reserve_notes(1)?;
        self.peers.call_reserved(peer, number, asker);
        self.outputs.send_reserved(turn, conn, message);
        Ok(())
    }

    // Sends the dirty or clean calls of a group, in parts of as many ids as a frame of the connection's version
    // names at most.
    fn tell(
        &mut self,
        turn: Turn,
        conn: u64,
        peer: &Uuid,
        call: u64,
        group: &Group,
    ) -> Result<(), AllocError>
        requires { is_acks (turn_of turn) ≡ false }
        ensures { OnOk result ((s : State) → IsTransport s self.old
            → hello_came (connection_to s peer.now) ≡ Some conn → GroupsMayGo (turn_of turn) s
            → IsTransport (each (part_goes_out (turn_of turn) conn call)
            (parts_of (most_on s conn) group.now) s) self.new) }
    {
        // In every run dirty and clean calls are asked of the owner of their objects.
        if group.peer != *peer {
            return Err(AllocError);
        }
        let parts = group.parts(self.alloc, self.most_on(conn))?;
        for part in parts {
            self.tell_part(turn, conn, call, part)?;
        }
        Ok(())
    }

    // How many ids a frame of dirty or clean calls names at most on a connection.
    fn most_on(&self, conn: u64) -> usize
        ensures most { (s : State) → IsTransport s self.now → result ≡ most_on s conn }
        ensures some { 0 < result }
    {
        match self.connections.get(conn) {
            Some(connection) => connection.most_ids(),
            None => FEWEST_IDS,
        }
    }

    // Sends one part of a group, under the next sequence number.
    fn tell_part(&mut self, turn: Turn, conn: u64, call: u64, part: Group) -> Result<(), AllocError>
        requires { is_acks (turn_of turn) ≡ false }
        ensures { OnOk result ((s : State) → IsTransport s self.old → hello_came (connection_to s part.peer) ≡ Some conn → GroupsMayGo (turn_of turn) s → IsTransport (part_goes_out (turn_of turn) conn call s part) self.new) }
    {
        let peer = part.peer;
        let ids = Row::new(part.ids.as_slice().to_vec(self.alloc)?);
        self.reserve_requests(&peer, 0, 0, 1)?;
        self.reserve_notes(1)?;
        // A space whose numbers come to 2^63 is worn out, and refuses all events.
        let Some(sequence) = self.leases.sent(&part, call) else {
            return Err(AllocError);
        };
        let message = frame_of(part.kind, sequence, ids);
        self.peers.tell_reserved(&peer, sequence, call, part);
        self.outputs.send_reserved(turn, conn, message);
        Ok(())
    }
}

// The frame of dirty or clean calls.
fn frame_of(kind: Due, sequence: u64, objects: Row<ObjId>) -> Message
    ensures { result ≡ group_frame kind sequence objects }
{
    match kind {
        Due::Dirty => Message::Dirty {
            sequence,
            period: LONGEST_LEASE,
            objects,
        },
        Due::Clean { strong } => Message::Clean {
            sequence,
            strong,
            objects,
        },
    }
}
