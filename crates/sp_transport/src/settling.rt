//! The requests of an event: those that waited for a Hello, and those that it makes as it ends.

ghost use Rattle.std.specs.Prelude.{◌≡◌, ℕ, [], None, Some, OnOk};
ghost use Rattle.sp_rules.specs.Frames.{greeted};
ghost use Rattle.sp_rules.specs.Requests.{ask, flush_waiting, make_due, make_group, settle, turn_asked, turn_of as turn_of_calls};
ghost use Rattle.sp_rules.specs.State.{Connection as Row, State, Waits, connection_at};
ghost use Rattle.sp_requests.specs.Asking.{IsNamed, asked_of};
ghost use Rattle.sp_outputs.specs.Notes.{turn_of as noted_turn};

use crate::{Fresh, Transport};
use dgc_client::{Due, Group};
use sp_outputs::Turn;
use sp_requests::Asked;
use space_ids::Uuid;
use std::alloc::AllocError;

impl Transport {
    ghost use Rattle.sp_transport.specs.Asking.{AreNextOut, AreNextWaiting};
    ghost use Rattle.sp_transport.specs.Said.{GroupsMayGo, MayGo};
    ghost use Rattle.sp_transport.specs.Settling.{MayMakeDue, MaySettle};
    ghost use Rattle.sp_transport.specs.Transports.{IsTransport, call_number};

    /// Notes that the Hello of a peer that was dialled has come on its connection. All that waits for it goes
    /// out there, in the order in which it was made. It fails at out of memory, and if sequence numbers come
    /// to 2^63; the value is then of no more use.
    pub fn flush_waiting(&mut self, peer: &Uuid, conn: u64) -> Result<(), AllocError>
        ensures { OnOk result ((s : State) (c : Row) → IsTransport s self.old → s.notes ≡ [] → connection_at s conn ≡ Some c → c.dialled ≡ Some peer.now → c.peer ≡ None → IsTransport (flush_waiting peer.now conn (greeted peer.now conn s)) self.new) }
    {
        let waiting = self.welcome(conn, peer);
        for asked in waiting {
            self.go_out(Turn::Waited, conn, peer, asked)?;
        }
        Ok(())
    }

    /// Ends an event: makes the dirty and clean calls that are due, and then asks the call or lookup of the
    /// event, if it made one. It fails at out of memory, and if sequence numbers come to 2^63; the value is
    /// then of no more use.
    pub fn settle(&mut self) -> Result<(), AllocError>
        ensures { OnOk result ((s : State) → IsTransport s self.old → MaySettle s → IsTransport (settle s) self.new) }
    {
        self.make_due()?;
        match self.take_fresh() {
            Some(fresh) => {
                let Fresh { peer, asked } = fresh;
                self.ask(&peer, asked)
            }
            None => Ok(()),
        }
    }

    // Makes the dirty and clean calls that are due.
    fn make_due(&mut self) -> Result<(), AllocError>
        ensures { OnOk result ((s : State) → IsTransport s self.old → MayMakeDue s → IsTransport (make_due s) self.new) }
    {
        let groups = self.leases.due(self.alloc)?;
        for group in groups {
            self.make_group(group)?;
        }
        Ok(())
    }

    // Makes the dirty or clean calls of a group, and asks them of its peer.
    fn make_group(&mut self, group: Group) -> Result<(), AllocError>
        ensures { OnOk result ((s : State) → IsTransport s self.old → GroupsMayGo (turn_of_calls group.kind) s → IsTransport (make_group s group) self.new) }
    {
        let call = self.make_calls(&group)?;
        let peer = group.peer;
        self.ask(&peer, Asked::Tell { call, group })
    }

    // Asks something of a peer: it goes out if the peer's Hello has come, else it waits.
    fn ask(&mut self, peer: &Uuid, asked: Asked) -> Result<(), AllocError>
        ensures { OnOk result ((s : State) → IsTransport s self.old → IsNamed (asked_of asked) → AreNextOut s peer.now (call_number (asked_of asked)) → AreNextWaiting s (call_number (asked_of asked)) → MayGo (turn_asked (asked_of asked)) (asked_of asked) s → IsTransport (ask s (record { peer = peer.now; asked = asked_of asked; stage = Waits })) self.new) }
    {
        match self.hello_came(peer) {
            Some(conn) => {
                let turn = turn_of(&asked);
                self.go_out(turn, conn, peer, asked)
            }
            None => self.wait(peer, asked),
        }
    }
}

// The turn of the frames of a request that goes out as it is made.
fn turn_of(asked: &Asked) -> Turn
    ensures { noted_turn result ≡ turn_asked (asked_of asked.now) }
{
    match asked {
        Asked::Call { .. } => Turn::Calls,
        Asked::Lookup { .. } => Turn::Calls,
        Asked::Tell { call: _, group } => turn_of_kind(group.kind),
    }
}

// The turn of the frames of dirty or clean calls.
fn turn_of_kind(kind: Due) -> Turn
    ensures { noted_turn result ≡ turn_of_calls kind }
{
    match kind {
        Due::Dirty => Turn::Dirties,
        Due::Clean { .. } => Turn::Cleans,
    }
}
