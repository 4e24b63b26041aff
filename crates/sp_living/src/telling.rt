//! Answers to dirty and clean calls, as the leases tell them.

ghost use Rattle.std.specs.Prelude.{◌≡◌, Some, find, is_some, true, false};
ghost use Rattle.dgc_client.specs.History.Event.{CleanAnswered, DirtyAnswered};
ghost use Rattle.sp_rules.specs.Classes.{Setting};
ghost use Rattle.sp_rules.specs.Frames.{tells_on};
ghost use Rattle.sp_rules.specs.State.{Connection as Line, State, connection_at};
ghost use Rattle.uuid.specs.declared.Uuid.{Uuid as Peer};
ghost use Rattle.sp_living.specs.Telling.{answered};

use crate::Living;

impl Living {
    ghost use Rattle.sp_living.specs.Livings.{IsLiving};

    /// Notes that the dirty calls that went out on a connection under this sequence number were answered, by
    /// leases for this period, in milliseconds. Returns whether there were any. This space dialled the
    /// connection. It takes no memory.
    pub fn dirty_answered(&mut self, conn: u64, sequence: u64, period: u64) -> bool
        ensures tasks { self.new.tasks ≡ self.old.tasks }
        ensures some { (g : Setting) (s : State) (c : Line) (peer : Peer) → IsLiving g s self.old → connection_at s conn ≡ Some c → c.dialled ≡ Some peer → result ≡ is_some (find (tells_on true conn sequence) s.requests) }
        ensures told { (g : Setting) (s : State) (c : Line) (peer : Peer) → IsLiving g s self.old → connection_at s conn ≡ Some c → c.dialled ≡ Some peer → IsLiving g (answered true conn sequence (λ call. DirtyAnswered call period) s) self.new }
    {
        match self.transport.take_group(conn, sequence, true) {
            Some(told) => {
                self.transport
                    .dirty_answered(&told.group, told.call, period);
                true
            }
            None => false,
        }
    }

    /// Notes that the clean calls that went out on a connection under this sequence number were answered.
    /// Returns whether there were any. This space dialled the connection. It takes no memory.
    pub fn clean_answered(&mut self, conn: u64, sequence: u64) -> bool
        ensures tasks { self.new.tasks ≡ self.old.tasks }
        ensures some { (g : Setting) (s : State) (c : Line) (peer : Peer) → IsLiving g s self.old → connection_at s conn ≡ Some c → c.dialled ≡ Some peer → result ≡ is_some (find (tells_on false conn sequence) s.requests) }
        ensures told { (g : Setting) (s : State) (c : Line) (peer : Peer) → IsLiving g s self.old → connection_at s conn ≡ Some c → c.dialled ≡ Some peer → IsLiving g (answered false conn sequence CleanAnswered s) self.new }
    {
        match self.transport.take_group(conn, sequence, false) {
            Some(told) => {
                self.transport.clean_answered(&told.group, told.call);
                true
            }
            None => false,
        }
    }
}
