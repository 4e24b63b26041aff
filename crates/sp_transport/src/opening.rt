//! Connections as they open, and as a Hello or the number of a call comes on them.

ghost use Rattle.std.specs.Prelude.{◌≡◌, ◌<◌, ◌+◌, ◌==◌, ℕ, List, [], ◌∷◌, None, Some, true, false, map, filter};
ghost use Rattle.std.specs.List.{flat_map};
ghost use Rattle.net_message.specs.declared.message.Message.{Message as Frame};
ghost use Rattle.sp_rules.specs.Events.{Hellos};
ghost use Rattle.sp_rules.specs.Frames.{counted, greeted, of_version};
ghost use Rattle.sp_rules.specs.Laws.{AllOf};
ghost use Rattle.sp_rules.specs.OwnEvents.{add_connection, dialled_no_more};
ghost use Rattle.sp_rules.specs.Requests.{hello_came, waits_for};
ghost use Rattle.sp_rules.specs.State.{Connection as Row, Request, State, connection_at, connection_to, is_dialling, send};
ghost use Rattle.sp_requests.specs.Asking.{IsNamed, asked_of};

use crate::Transport;
use net_message::Message;
use sp_outputs::Turn;
use sp_requests::Asked;
use space_ids::Uuid;

impl Transport {
    ghost use Rattle.sp_transport.specs.Asking.{AreNextOut, welcome};
    ghost use Rattle.sp_transport.specs.Opening.{IsHello};
    ghost use Rattle.sp_transport.specs.Rooms.{HasRow, KeepsRows, KeepsOtherRows, Spends, connection_room, note_room, peer_room};
    ghost use Rattle.sp_transport.specs.Transports.{IsTransport, call_number};

    /// Opens a connection that a peer dialled, and says Hello. It takes no memory: the caller owes
    /// [room](Transport::reserve_connections) for the connection, and for an
    /// [output](Transport::reserve_notes).
    pub fn accept_reserved(&mut self, conn: u64, hello: Message)
        requires connection { 0 < connection_room self.old }
        requires notes { 0 < note_room self.old }
        ensures opened { (s : State) → IsTransport s self.old → s.notes ≡ [] → connection_at s conn ≡ None → IsHello hello → IsTransport (send Hellos conn hello (dialled_no_more None (add_connection conn None s))) self.new }
        ensures rooms { Spends 0 1 0 1 self.old self.new }
        ensures rows { KeepsRows self.old self.new }
    {
        self.connections.accept_reserved(conn);
        self.outputs.send_reserved(Turn::Hellos, conn, hello);
    }

    /// Opens a connection that a peer dialled, on which this space says Hello once the peer's has come. It takes
    /// no memory: the caller owes [room](Transport::reserve_connections) for the connection.
    pub fn accept_late_reserved(&mut self, conn: u64)
        requires { 0 < connection_room self.old }
        ensures opened { (s : State) → IsTransport s self.old → s.notes ≡ []
            → connection_at s conn ≡ None
            → IsTransport (dialled_no_more None (add_connection conn None s)) self.new }
        ensures rooms { Spends 0 1 0 0 self.old self.new }
        ensures rows { KeepsRows self.old self.new }
    {
        self.connections.accept_reserved(conn)
    }

    /// Opens a connection to a peer that is being dialled, and then is no more, and says Hello. It takes no
    /// memory: the caller owes [room](Transport::reserve_connections) for the connection and the peer, a
    /// [row](Transport::reserve_requests) for the peer, and room for an [output](Transport::reserve_notes).
    pub fn open_reserved(&mut self, conn: u64, peer: &Uuid, hello: Message)
        requires connection { 0 < connection_room self.old }
        requires peer { 0 < peer_room self.old }
        requires row { HasRow peer.now 0 0 0 self.old }
        requires notes { 0 < note_room self.old }
        ensures opened { (s : State) → IsTransport s self.old → s.notes ≡ [] → connection_at s conn ≡ None → is_dialling s peer.now ≡ true → IsHello hello → IsTransport (send Hellos conn hello (dialled_no_more (Some peer.now) (add_connection conn (Some peer.now) s))) self.new }
        ensures rooms { Spends 0 1 1 1 self.old self.new }
        ensures rows { KeepsRows self.old self.new }
    {
        self.connections.open_reserved(conn, peer);
        self.peers.hello(peer);
        self.outputs.send_reserved(Turn::Hellos, conn, hello);
    }

    /// Notes the version of the Hello that this space said on a connection.
    pub fn speak(&mut self, conn: u64, version: u8)
        ensures spoken { (s : State) → IsTransport s self.old
            → IsTransport (of_version version conn s) self.new }
        ensures rooms { Spends 0 0 0 0 self.old self.new }
        ensures rows { KeepsRows self.old self.new }
    {
        self.connections.speak(conn, version);
    }

    /// Notes who spoke on a connection that a peer dialled, whose Hello has come.
    pub fn greet(&mut self, conn: u64, space: Uuid)
        ensures greeted { (s : State) → IsTransport s self.old → s.notes ≡ [] → ((c : Row) → connection_at s conn ≡ Some c → c.dialled ≡ None) → IsTransport (greeted space conn s) self.new }
        ensures rooms { Spends 0 0 0 0 self.old self.new }
        ensures rows { KeepsRows self.old self.new }
    {
        self.connections.greet(conn, space);
    }

    // Notes that the Hello of a peer that was dialled has come on its connection. Returns what waits for it,
    // in the order in which it was made, which is to go out now.
    pub(crate) fn welcome(&mut self, conn: u64, peer: &Uuid) -> Vec<Asked>
        ensures waited { (s : State) (c : Row) → IsTransport s self.old → connection_at s conn ≡ Some c → c.dialled ≡ Some peer.now → map asked_of result.items ≡ map (λ (r : Request). r.asked) (filter (waits_for peer.now) s.requests) }
        ensures welcomed { (s : State) (c : Row) → IsTransport s self.old → s.notes ≡ [] → connection_at s conn ≡ Some c → c.dialled ≡ Some peer.now → IsTransport (welcome peer.now conn s) self.new }
        ensures hello { (s : State) (c : Row) → IsTransport s self.old → connection_at s conn ≡ Some c → c.dialled ≡ Some peer.now → hello_came (connection_to (welcome peer.now conn s) peer.now) ≡ Some conn }
        ensures named { (s : State) (c : Row) → IsTransport s self.old → connection_at s conn ≡ Some c → c.dialled ≡ Some peer.now → AllOf IsNamed (map asked_of result.items) }
        ensures out { (s : State) (c : Row) → IsTransport s self.old → s.notes ≡ [] → connection_at s conn ≡ Some c → c.dialled ≡ Some peer.now → c.peer ≡ None → AreNextOut (welcome peer.now conn s) peer.now (flat_map call_number (map asked_of result.items)) }
    {
        let asked = self.peers.take_waiting(peer, self.alloc);
        self.connections.greet(conn, *peer);
        asked
    }

    /// Notes the number of a Call or Lookup that came on a connection.
    pub fn count(&mut self, conn: u64, number: u64)
        ensures counted { (s : State) → IsTransport s self.old → s.notes ≡ [] → IsTransport (counted conn number s) self.new }
        ensures rooms { Spends 0 0 0 0 self.old self.new }
        ensures rows { KeepsRows self.old self.new }
    {
        self.connections.count(conn, number);
    }
}
