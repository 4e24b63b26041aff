//! Connections that end, and peers that refuse.

ghost use Rattle.std.specs.Prelude.{◌≡◌, ℕ, [], None, Some, IfOk, OnOk, true, filter};
ghost use Rattle.sp_rules.specs.Endings.{is_of_connection, note_peer, unsent_calls, without_connection};
ghost use Rattle.sp_rules.specs.Events.{Close};
ghost use Rattle.sp_rules.specs.OwnEvents.{dialled_no_more};
ghost use Rattle.sp_rules.specs.ParkedFrames.{remove_requests};
ghost use Rattle.sp_rules.specs.Requests.{dial, waits_for};
ghost use Rattle.sp_rules.specs.State.{Connection as Row, State, connection_at, is_dialling, say};
ghost use Rattle.sp_requests.specs.Ends.{IsEnding};

use crate::Transport;
use sp_outputs::Output;
use sp_requests::{Ended, Ending};
use space_ids::Uuid;
use std::alloc::AllocError;

impl Transport {
    ghost use Rattle.sp_transport.specs.Answers.{AreEnded, HasEndRoom};
    ghost use Rattle.sp_transport.specs.Rooms.{KeepsOtherRows, KeepsRows, Spends};
    ghost use Rattle.sp_transport.specs.Transports.{IsTransport};

    /// What the end of all that is asked of a peer needs, if the last `unsent` frames of its connection were
    /// not sent whole. The connection ends, or the peer refuses and has none.
    pub fn ending(&self, peer: &Uuid, unsent: u64) -> Result<Ending, AllocError>
        ensures ending { IfOk result (λ ending. (s : State) (c : Row) (conn : ℕ) → IsTransport s self.now → s.notes ≡ [] → connection_at s conn ≡ Some c → c.dialled ≡ Some peer.now → IsEnding unsent (filter (is_of_connection conn c.dialled) s.requests) c.sent ending) }
        ensures refused { IfOk result (λ ending. (s : State) → IsTransport s self.now → s.notes ≡ [] → is_dialling s peer.now ≡ true → IsEnding unsent (filter (waits_for peer.now) s.requests) [] ending) }
        ensures room { IfOk result (λ ending. HasEndRoom peer.now ending self.now) }
    {
        self.peers.ending(peer, unsent, self.alloc)
    }

    /// Lets a connection go that was dialled to a peer, with all that is asked of the peer: its calls and
    /// lookups, and its dirty and clean calls, each in the order in which they were made. It takes no
    /// memory: [`Transport::ending`] made what it needs.
    pub fn end_reserved(&mut self, conn: u64, peer: &Uuid, ending: Ending) -> Ended
        requires { HasEndRoom peer.now ending self.old }
        ensures ended { (s : State) (c : Row) (unsent : ℕ) → IsTransport s self.old → s.notes ≡ [] → connection_at s conn ≡ Some c → c.dialled ≡ Some peer.now → IsEnding unsent (filter (is_of_connection conn c.dialled) s.requests) c.sent ending → AreEnded (unsent_calls s conn unsent) (filter (is_of_connection conn c.dialled) s.requests) result }
        ensures left { (s : State) (c : Row) → IsTransport s self.old → s.notes ≡ [] → connection_at s conn ≡ Some c → c.dialled ≡ Some peer.now → IsTransport (remove_requests (is_of_connection conn c.dialled) (without_connection conn s)) self.new }
        ensures rooms { Spends 0 0 0 0 self.old self.new }
        ensures rows { KeepsOtherRows peer.now self.old self.new }
    {
        let _closed = self.connections.close(conn);
        self.peers.end_reserved(peer, ending)
    }

    /// Lets a connection go that was dialled to a peer, before any Hello came on it, and dials the peer again. All
    /// that is asked of the peer waits on.
    pub fn redial(&mut self, conn: u64, peer: &Uuid) -> Result<(), AllocError>
        ensures { OnOk result ((s : State) (c : Row) → IsTransport s self.old → s.notes ≡ []
            → connection_at s conn ≡ Some c → c.dialled ≡ Some peer.now → c.peer ≡ None
            → IsTransport (dial peer.now (say (Close conn) (without_connection conn s))) self.new) }
    {
        self.reserve_connections(0, 1)?;
        self.reserve_notes(2)?;
        let _gone = self.connections.close(conn);
        self.peers.restart(peer);
        self.outputs.say_reserved(Output::Close(conn));
        if !self.connections.dial_reserved(peer) {
            return Ok(());
        }
        self.outputs.say_reserved(Output::Dial(*peer));
        Ok(())
    }

    /// Notes that a peer was found to speak version 1 alone.
    pub fn note(&mut self, peer: &Uuid) -> Result<(), AllocError>
        ensures noted { OnOk result ((s : State) → IsTransport s self.old
            → IsTransport (note_peer peer.now s) self.new) }
    {
        self.noted.insert(peer)
    }

    /// Lets a connection go that a peer dialled. Nothing was asked on it. It takes no memory.
    pub fn close(&mut self, conn: u64)
        ensures closed { (s : State) (c : Row) → IsTransport s self.old → s.notes ≡ [] → connection_at s conn ≡ Some c → c.dialled ≡ None → IsTransport (without_connection conn s) self.new }
        ensures rooms { Spends 0 0 0 0 self.old self.new }
        ensures rows { KeepsRows self.old self.new }
    {
        let _ = self.connections.close(conn);
    }

    /// Notes that a peer that is being dialled refused, and lets all go that waits for it, each in the order
    /// in which it was made. It takes no memory: [`Transport::ending`] made what it needs.
    pub fn refuse_reserved(&mut self, peer: &Uuid, ending: Ending) -> Ended
        requires { HasEndRoom peer.now ending self.old }
        ensures ended { (s : State) (unsent : ℕ) → IsTransport s self.old → s.notes ≡ [] → is_dialling s peer.now ≡ true → IsEnding unsent (filter (waits_for peer.now) s.requests) [] ending → AreEnded [] (filter (waits_for peer.now) s.requests) result }
        ensures refused { (s : State) → IsTransport s self.old → s.notes ≡ [] → is_dialling s peer.now ≡ true → IsTransport (remove_requests (waits_for peer.now) (dialled_no_more (Some peer.now) s)) self.new }
        ensures rooms { Spends 0 0 0 0 self.old self.new }
        ensures rows { KeepsOtherRows peer.now self.old self.new }
    {
        self.connections.refuse(peer);
        self.peers.end_reserved(peer, ending)
    }
}
