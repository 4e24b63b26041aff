//! Answers as they come: to calls and lookups, and to dirty and clean calls.

ghost use Rattle.std.specs.Prelude.{◌≡◌, ◌<◌, ◌+◌, ℕ, None, Some, find, option_and_then, option_map};
ghost use Rattle.dgc_client.specs.History.Event.{CleanAnswered, CleanFailed, DirtyAnswered, DirtyFailed};
ghost use Rattle.sp_rules.specs.Frames.{tells_on};
ghost use Rattle.sp_rules.specs.ParkedFrames.{is_asked_on, is_call_on, remove_requests};
ghost use Rattle.sp_rules.specs.State.{Connection as Row, State, connection_at};
ghost use Rattle.uuid.specs.declared.Uuid.{Uuid as Peer};
ghost use Rattle.sp_requests.specs.Asking.{told};
ghost use Rattle.sp_requests.specs.declared.asked.OutCall.{OutCall as Out};

use crate::Transport;
use dgc_client::Group;
use net_message::Message;
use sp_outputs::Turn;
use sp_requests::{Asker, OutCall, OutGroup};
use space_ids::Uuid;

impl Transport {
    ghost use Rattle.sp_transport.specs.Answers.{IsDialled, acknowledge, asker_in, park_answer, tell_leases};
    ghost use Rattle.sp_transport.specs.Rooms.{KeepsRows, Spends, note_room};
    ghost use Rattle.sp_transport.specs.Transports.{IsTransport};

    // The peer that this space dialled by a connection, if it is open and did.
    fn dialled(&self, conn: u64) -> Option<Uuid>
        ensures { (s : State) → IsTransport s self.now → result ≡ option_and_then (λ (c : Row). c.dialled) (connection_at s conn) }
    {
        match self.connections.get(conn) {
            Some(connection) => connection.dialled,
            None => None,
        }
    }

    /// Who asks by the call or lookup of this number that is out on a connection and has no answer, if there
    /// is one. This space dialled the connection.
    pub fn asked(&self, conn: u64, number: u64) -> Option<Asker>
        ensures { (s : State) (c : Row) (peer : Peer) → IsTransport s self.now → connection_at s conn ≡ Some c → c.dialled ≡ Some peer → result ≡ option_and_then asker_in (find (is_asked_on conn number) s.requests) }
    {
        match self.dialled(conn) {
            Some(peer) => asker_of(self.peers.asked(&peer, number)),
            None => None,
        }
    }

    /// Notes that the result of a call or lookup has come and is parked.
    pub fn answer(&mut self, conn: u64, number: u64)
        ensures answered { (s : State) (c : Row) (peer : Peer) → IsTransport s self.old → connection_at s conn ≡ Some c → c.dialled ≡ Some peer → IsTransport (park_answer conn number s) self.new }
        ensures rooms { Spends 0 0 0 0 self.old self.new }
        ensures rows { KeepsRows self.old self.new }
    {
        match self.dialled(conn) {
            Some(peer) => self.peers.answer(&peer, number),
            None => {}
        }
    }

    /// Lets a call or lookup go that is out on a connection, answered or not. Returns who asked by it, if it
    /// was out.
    pub fn take_call(&mut self, conn: u64, number: u64) -> Option<Asker>
        ensures asker { (s : State) (c : Row) (peer : Peer) → IsTransport s self.old → connection_at s conn ≡ Some c → c.dialled ≡ Some peer → result ≡ option_and_then asker_in (find (is_call_on conn number) s.requests) }
        ensures taken { (s : State) (c : Row) (peer : Peer) → IsTransport s self.old → connection_at s conn ≡ Some c → c.dialled ≡ Some peer → IsTransport (remove_requests (is_call_on conn number) s) self.new }
        ensures rooms { Spends 0 0 0 0 self.old self.new }
        ensures rows { KeepsRows self.old self.new }
    {
        match self.dialled(conn) {
            Some(peer) => asker_of(self.peers.take_call(&peer, number)),
            None => None,
        }
    }

    /// Lets a call or lookup go whose result has come, if it is out on the connection, and sends its Ack.
    /// Returns who asked by it. It takes no memory: the caller owes [room](Transport::reserve_notes) for an
    /// output.
    pub fn acknowledge_reserved(&mut self, conn: u64, number: u64) -> Option<Asker>
        requires { 0 < note_room self.old }
        ensures asker { (s : State) (c : Row) (peer : Peer) → IsTransport s self.old → connection_at s conn ≡ Some c → c.dialled ≡ Some peer → result ≡ option_and_then asker_in (find (is_call_on conn number) s.requests) }
        ensures acknowledged { (s : State) (c : Row) (peer : Peer) → IsTransport s self.old → connection_at s conn ≡ Some c → c.dialled ≡ Some peer → IsTransport (acknowledge conn number s) self.new }
        ensures rooms { Spends 0 0 0 1 self.old self.new }
        ensures rows { KeepsRows self.old self.new }
    {
        match self.dialled(conn) {
            Some(peer) => self.acknowledge_of(&peer, conn, number),
            None => None,
        }
    }

    // Lets a call or lookup go whose result has come, if it is out to the peer, and sends its Ack.
    fn acknowledge_of(&mut self, peer: &Uuid, conn: u64, number: u64) -> Option<Asker>
        requires { 0 < note_room self.old }
        ensures asker { (s : State) → IsTransport s self.old → IsDialled s peer.now conn → result ≡ option_and_then asker_in (find (is_call_on conn number) s.requests) }
        ensures acknowledged { (s : State) → IsTransport s self.old → IsDialled s peer.now conn → IsTransport (acknowledge conn number s) self.new }
        ensures rooms { Spends 0 0 0 1 self.old self.new }
        ensures rows { KeepsRows self.old self.new }
    {
        match self.peers.call(peer, number) {
            Some(call) => {
                let _ = self.peers.acknowledge(peer, number);
                self.outputs
                    .send_reserved(Turn::Acks, conn, Message::Ack { number });
                Some(call.asker)
            }
            None => None,
        }
    }

    /// Lets the dirty calls (or the clean calls) go that are out on a connection under this sequence number.
    /// Returns them, if they were out.
    pub fn take_group(&mut self, conn: u64, sequence: u64, dirty: bool) -> Option<OutGroup>
        ensures group { (s : State) (c : Row) (peer : Peer) → IsTransport s self.old → connection_at s conn ≡ Some c → c.dialled ≡ Some peer → result ≡ option_and_then told (find (tells_on dirty conn sequence) s.requests) }
        ensures taken { (s : State) (c : Row) (peer : Peer) → IsTransport s self.old → connection_at s conn ≡ Some c → c.dialled ≡ Some peer → IsTransport (remove_requests (tells_on dirty conn sequence) s) self.new }
        ensures rooms { Spends 0 0 0 0 self.old self.new }
        ensures rows { KeepsRows self.old self.new }
    {
        match self.dialled(conn) {
            Some(peer) => self.peers.take_group(&peer, sequence, dirty),
            None => None,
        }
    }

    /// Notes that the dirty call of a group was answered by a lease for this period, in milliseconds.
    pub fn dirty_answered(&mut self, group: &Group, call: u64, period: u64)
        ensures told { (s : State) → IsTransport s self.old → IsTransport (tell_leases group.now (DirtyAnswered call period) s) self.new }
        ensures rooms { Spends 0 0 0 0 self.old self.new }
        ensures rows { KeepsRows self.old self.new }
    {
        self.leases.dirty_answered(group, call, period);
    }

    /// Notes that the dirty call of a group failed.
    pub fn dirty_failed(&mut self, group: &Group, call: u64)
        ensures told { (s : State) → IsTransport s self.old → IsTransport (tell_leases group.now (DirtyFailed call) s) self.new }
        ensures rooms { Spends 0 0 0 0 self.old self.new }
        ensures rows { KeepsRows self.old self.new }
    {
        self.leases.dirty_failed(group, call);
    }

    /// Notes that the clean call of a group was answered.
    pub fn clean_answered(&mut self, group: &Group, call: u64)
        ensures told { (s : State) → IsTransport s self.old → IsTransport (tell_leases group.now (CleanAnswered call) s) self.new }
        ensures rooms { Spends 0 0 0 0 self.old self.new }
        ensures rows { KeepsRows self.old self.new }
    {
        self.leases.clean_answered(group, call);
    }

    /// Notes that the clean call of a group failed.
    pub fn clean_failed(&mut self, group: &Group, call: u64)
        ensures told { (s : State) → IsTransport s self.old → IsTransport (tell_leases group.now (CleanFailed call) s) self.new }
        ensures rooms { Spends 0 0 0 0 self.old self.new }
        ensures rows { KeepsRows self.old self.new }
    {
        self.leases.clean_failed(group, call);
    }
}

// Who asks by a call or lookup, if there is one.
fn asker_of(call: Option<OutCall>) -> Option<Asker>
    ensures { result ≡ option_map (λ (c : Out). c.asker) call }
{
    match call {
        Some(call) => Some(call.asker),
        None => None,
    }
}
