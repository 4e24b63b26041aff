//! Connections as they go, with what was asked on them.

ghost use Rattle.std.specs.Prelude.{◌≡◌, [], None, Some, IfOk, OnOk, filter, map, true};
ghost use Rattle.sp_rules.specs.Classes.{Setting};
ghost use Rattle.sp_rules.specs.Endings.{is_of_connection, note_peer, orphan, unsent_calls, without_connection};
ghost use Rattle.sp_rules.specs.Events.{Close};
ghost use Rattle.sp_rules.specs.OwnEvents.{dialled_no_more};
ghost use Rattle.sp_rules.specs.ParkedFrames.{remove_requests};
ghost use Rattle.sp_rules.specs.Requests.{dial, waits_for};
ghost use Rattle.sp_rules.specs.State.{Connection as Line, State, connection_at, is_dialling, say};
ghost use Rattle.sp_transport.specs.Answers.{AreEnded};

use crate::Living;
use sp_requests::Ended;
use space_ids::Uuid;
use std::alloc::AllocError;

// The moments that may come are below this one.
const END_OF_TIME: u64 = 1 << 63;

impl Living {
    ghost use Rattle.sp_living.specs.Livings.{IsLiving};

    /// Lets an open connection go, dialled to this peer if it was, of which the last frames, this many, were
    /// not sent whole, and holds its results on. If this space dialled it, all that is asked of the peer goes
    /// too. Returns what was asked.
    pub fn take_connection(
        &mut self,
        conn: u64,
        dialled: Option<Uuid>,
        unsent: u64,
    ) -> Result<Ended, AllocError>
        ensures tasks { self.new.tasks ≡ self.old.tasks }
        ensures ended { IfOk result (λ ended. (g : Setting) (s : State) (c : Line) → IsLiving g s self.old → s.notes ≡ [] → connection_at s conn ≡ Some c → c.dialled ≡ dialled → AreEnded (unsent_calls s conn unsent) (filter (is_of_connection conn c.dialled) s.requests) ended) }
        ensures left { OnOk result ((g : Setting) (s : State) (c : Line) → IsLiving g s self.old → s.notes ≡ [] → connection_at s conn ≡ Some c → c.dialled ≡ dialled → IsLiving g (remove_requests (is_of_connection conn c.dialled) (without_connection conn s)) self.new) }
    {
        self.orphan_results(conn)?;
        match dialled {
            Some(peer) => {
                let ending = self.transport.ending(&peer, unsent)?;
                Ok(self.transport.end_reserved(conn, &peer, ending))
            }
            None => {
                self.transport.close(conn);
                Ok(Ended {
                    calls: Vec::new(self.alloc),
                    groups: Vec::new(self.alloc),
                })
            }
        }
    }

    /// Lets a connection go that was dialled to a peer, before any Hello came on it, and holds its results on; notes
    /// that the peer speaks version 1 alone, and dials it again. All that is asked of the peer waits on.
    pub fn redial(&mut self, conn: u64, peer: &Uuid) -> Result<(), AllocError>
        ensures tasks { self.new.tasks ≡ self.old.tasks }
        ensures redialled { OnOk result ((g : Setting) (s : State) (c : Line)
            → IsLiving g s self.old → s.notes ≡ [] → connection_at s conn ≡ Some c
            → c.dialled ≡ Some peer.now → c.peer ≡ None
            → IsLiving g (dial peer.now (say (Close conn)
            (without_connection conn (note_peer peer.now s)))) self.new) }
    {
        self.orphan_results(conn)?;
        self.transport.note(peer)?;
        self.transport.redial(conn, peer)
    }

    // Holds the results of a connection that ends on. Nothing happens at a moment that cannot come.
    fn orphan_results(&mut self, conn: u64) -> Result<(), AllocError>
        ensures orphaned { OnOk result ((g : Setting) (s : State) → IsLiving g s self.old → IsLiving g (record s { results = map (orphan conn s.moment) s.results }) self.new) }
        ensures tasks { self.new.tasks ≡ self.old.tasks }
    {
        if self.moment >= END_OF_TIME {
            return Ok(());
        }
        self.call_results.reserve_end(conn)?;
        self.call_results.end_reserved(conn, self.moment);
        Ok(())
    }

    /// Lets all go that waits for a peer that was dialled and refused, and returns it. Only one that is being
    /// dialled refuses.
    pub fn take_refused(&mut self, peer: &Uuid) -> Result<Ended, AllocError>
        ensures tasks { self.new.tasks ≡ self.old.tasks }
        ensures ended { IfOk result (λ ended. (g : Setting) (s : State) → IsLiving g s self.old → s.notes ≡ [] → is_dialling s peer.now ≡ true → AreEnded [] (filter (waits_for peer.now) s.requests) ended) }
        ensures left { OnOk result ((g : Setting) (s : State) → IsLiving g s self.old → s.notes ≡ [] → is_dialling s peer.now ≡ true → IsLiving g (remove_requests (waits_for peer.now) (dialled_no_more (Some peer.now) s)) self.new) }
    {
        let ending = self.transport.ending(peer, 0)?;
        Ok(self.transport.refuse_reserved(peer, ending))
    }
}
