//! Lookups that come, acknowledgements, and dirty and clean calls (Java RMI specification, 6.1 and 9.1).

ghost use Rattle.std.specs.Prelude.{◌≡◌, [], OnOk, length, nat_le};
ghost use Rattle.space_ids.specs.declared.value.Value.TheVariants as values;
ghost use Rattle.sp_rules.specs.Classes.{Setting};
ghost use Rattle.sp_requests.specs.Tables.{seen};
ghost use Rattle.sp_rules.specs.Frames.{answer_clean, answer_dirty, got_ack, got_clean, got_dirty, got_lookup};
ghost use Rattle.sp_rules.specs.Requests.{most_ids};
ghost use Rattle.sp_rules.specs.State.{Connection as Line, State};
ghost use Rattle.sp_tasks.specs.Lent.{KeepsLent};

use crate::SpaceState;
use net_message::Message;
use sp_outputs::Turn;
use sp_requests::{CallClasses, Connection, RemoteException};
use space_ids::{ClassId, ObjId, Ref, Uuid, Value};
use std::alloc::AllocError;

impl SpaceState {
    ghost use Rattle.sp_state.specs.Receiving.{ComesOn, give_found};
    ghost use Rattle.sp_state.specs.Spaces.{IsSpace};

    // Takes a lookup that came on a connection, under a number above the last there; another closes it.
    pub(crate) fn receive_lookup<C: CallClasses>(
        &mut self,
        classes: &C,
        conn: u64,
        last: u64,
        number: u64,
        name: &[u8],
    ) -> Result<(), AllocError>
        ensures got { OnOk result ((g : Setting) (s : State) (c : Line) → IsSpace g s self.old → s.notes ≡ [] → C.tells classes.now g.classes → ComesOn conn s c → c.last ≡ last → IsSpace g (got_lookup g c number name.now s) self.new) }
        ensures lent { OnOk result (KeepsLent self.old.living.tasks self.new.living.tasks) }
    {
        if number <= last {
            return self.close(classes, RemoteException::Unmarshal, conn);
        }
        self.living.count(conn, number);
        match self.owner.find(name) {
            Some((id, class)) => self.give_found(conn, number, id, class),
            None => self.answer_threw(classes, conn, number, RemoteException::NotBound),
        }
    }

    // Answers a lookup by a reference to an object of the space, and holds the result until its Ack.
    fn give_found(
        &mut self,
        conn: u64,
        number: u64,
        id: ObjId,
        class: ClassId,
    ) -> Result<(), AllocError>
        ensures given { OnOk result ((g : Setting) (s : State) → IsSpace g s self.old → IsSpace g (give_found g conn number id class s) self.new) }
        ensures lent { OnOk result (KeepsLent self.old.living.tasks self.new.living.tasks) }
    {
        let kept = reference(self.id, id, class);
        self.living.keep(conn, number, Some(kept))?;
        let given = reference(self.id, id, class);
        self.living.reply(
            Turn::Replies,
            conn,
            Message::Returned {
                number,
                fuel: 0,
                value: Some(given),
            },
        )
    }

    // Takes an Ack: the result that is held until it goes. One of no such result closes the connection.
    pub(crate) fn receive_ack<C: CallClasses>(
        &mut self,
        classes: &C,
        conn: u64,
        number: u64,
    ) -> Result<(), AllocError>
        ensures got { OnOk result ((g : Setting) (s : State) (c : Line) → IsSpace g s self.old → s.notes ≡ [] → C.tells classes.now g.classes → ComesOn conn s c → IsSpace g (got_ack g c number s) self.new) }
        ensures lent { OnOk result (KeepsLent self.old.living.tasks self.new.living.tasks) }
    {
        if self.living.release_acked(conn, number) {
            return Ok(());
        }
        self.close(classes, RemoteException::Unmarshal, conn)
    }

    // Takes a dirty call of the client that the Hello named, and answers it. One with more ids than a frame of the
    // connection's version names closes it.
    pub(crate) fn receive_dirty<C: CallClasses>(
        &mut self,
        classes: &C,
        conn: u64,
        connection: Connection,
        sequence: u64,
        period: u64,
        ids: &[ObjId],
    ) -> Result<(), AllocError>
        ensures got { OnOk result ((g : Setting) (s : State) (c : Line) → IsSpace g s self.old → s.notes ≡ [] → C.tells classes.now g.classes → ComesOn conn s c → connection ≡ seen c → IsSpace g (got_dirty g c sequence period ids.now s) self.new) }
        ensures lent { OnOk result (KeepsLent self.old.living.tasks self.new.living.tasks) }
    {
        if fits(&connection, ids) {
            return self.answer_dirty(conn, connection.peer, sequence, period, ids);
        }
        self.close(classes, RemoteException::Unmarshal, conn)
    }

    // Answers a dirty call of the client that the Hello named by a lease.
    fn answer_dirty(
        &mut self,
        conn: u64,
        peer: Option<Uuid>,
        sequence: u64,
        period: u64,
        ids: &[ObjId],
    ) -> Result<(), AllocError>
        ensures got { OnOk result ((g : Setting) (s : State) (c : Line) → IsSpace g s self.old → ComesOn conn s c → c.peer ≡ peer → IsSpace g (answer_dirty g c sequence period ids.now s) self.new) }
        ensures lent { OnOk result (KeepsLent self.old.living.tasks self.new.living.tasks) }
    {
        let client = peer.unwrap_or(self.id);
        let granted = self.owner.dirty(&client, ids, sequence, period)?;
        self.living.reply(
            Turn::Replies,
            conn,
            Message::Lease {
                sequence,
                period: granted,
            },
        )
    }

    // Takes a clean call of the client that the Hello named, and answers it. One with more ids than a frame of the
    // connection's version names closes it.
    pub(crate) fn receive_clean<C: CallClasses>(
        &mut self,
        classes: &C,
        conn: u64,
        connection: Connection,
        sequence: u64,
        strong: bool,
        ids: &[ObjId],
    ) -> Result<(), AllocError>
        ensures got { OnOk result ((g : Setting) (s : State) (c : Line) → IsSpace g s self.old → s.notes ≡ [] → C.tells classes.now g.classes → ComesOn conn s c → connection ≡ seen c → IsSpace g (got_clean g c sequence strong ids.now s) self.new) }
        ensures lent { OnOk result (KeepsLent self.old.living.tasks self.new.living.tasks) }
    {
        if fits(&connection, ids) {
            return self.answer_clean(conn, connection.peer, sequence, strong, ids);
        }
        self.close(classes, RemoteException::Unmarshal, conn)
    }

    // Answers a clean call of the client that the Hello named.
    fn answer_clean(
        &mut self,
        conn: u64,
        peer: Option<Uuid>,
        sequence: u64,
        strong: bool,
        ids: &[ObjId],
    ) -> Result<(), AllocError>
        ensures got { OnOk result ((g : Setting) (s : State) (c : Line) → IsSpace g s self.old → ComesOn conn s c → c.peer ≡ peer → IsSpace g (answer_clean g c sequence strong ids.now s) self.new) }
        ensures lent { OnOk result (KeepsLent self.old.living.tasks self.new.living.tasks) }
    {
        let client = peer.unwrap_or(self.id);
        self.owner.clean(&client, ids, sequence, strong)?;
        self.living
            .reply(Turn::Replies, conn, Message::Cleaned { sequence })
    }
}

// A reference to an object of a space.
fn reference(space: Uuid, id: ObjId, class: ClassId) -> Value
    ensures { result ≡ values.Ref (record { space = space; id = id; class = class }) }
{
    Value::Ref(Ref { space, id, class })
}

// Whether a frame of the connection's version may name these.
fn fits(connection: &Connection, ids: &[ObjId]) -> bool
    ensures { result ≡ nat_le (length ids.now) (most_ids connection.now.version) }
{
    ids.len() <= connection.most_ids()
}
