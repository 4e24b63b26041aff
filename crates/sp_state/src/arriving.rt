//! Frames as they come: the space that dialled asks, and the other end answers. (This project's own protocol.)

ghost use Rattle.std.specs.Prelude.{◌≡◌, [], None, Some, OnOk, true, false};
ghost use Rattle.sp_requests.specs.Tables.{seen};
ghost use Rattle.sp_rules.specs.Classes.{Setting};
ghost use Rattle.sp_rules.specs.Frames.{got, is_asking, is_wrong_way, receive};
ghost use Rattle.sp_rules.specs.OwnEvents.{received_on};
ghost use Rattle.uuid.specs.declared.Uuid.{Uuid as Peer};
ghost use Rattle.sp_rules.specs.State.{Connection as Line, State, connection_at};
ghost use Rattle.sp_tasks.specs.Lent.{KeepsLent};

use crate::SpaceState;
use net_message::Message;
use sp_parked::ParkedCall;
use sp_requests::{CallClasses, Connection, RemoteException};
use std::alloc::AllocError;

impl SpaceState {
    ghost use Rattle.sp_state.specs.Receiving.{ComesOn};
    ghost use Rattle.sp_state.specs.Spaces.{IsSpace};

    /// Takes a frame that came on a connection. Nothing happens if it is not open.
    pub fn received<C: CallClasses>(
        &mut self,
        classes: &C,
        conn: u64,
        message: Message,
    ) -> Result<(), AllocError>
        ensures received { OnOk result ((g : Setting) (s : State) → IsSpace g s self.old → s.notes ≡ [] → C.tells classes.now g.classes → IsSpace g (received_on g (connection_at s conn) message s) self.new) }
        ensures lent { OnOk result (KeepsLent self.old.living.tasks self.new.living.tasks) }
    {
        match self.living.transport().connection(conn) {
            Some(connection) => self.receive(classes, conn, connection, message),
            None => Ok(()),
        }
    }

    // Takes a frame that came on an open connection. One of the wrong direction closes it.
    fn receive<C: CallClasses>(
        &mut self,
        classes: &C,
        conn: u64,
        connection: Connection,
        message: Message,
    ) -> Result<(), AllocError>
        ensures received { OnOk result ((g : Setting) (s : State) (c : Line) → IsSpace g s self.old → s.notes ≡ [] → C.tells classes.now g.classes → ComesOn conn s c → connection ≡ seen c → IsSpace g (receive g c message s) self.new) }
        ensures lent { OnOk result (KeepsLent self.old.living.tasks self.new.living.tasks) }
    {
        let is_first = connection.peer.is_none();
        if is_first {
            return self.first_frame(classes, conn, connection, message);
        }
        let asks = is_asking(&message);
        let dialled = connection.dialled.is_some();
        if is_wrong_way(asks, dialled) {
            return self.close(classes, RemoteException::Unmarshal, conn);
        }
        if asks {
            self.receive_asking(classes, conn, connection, message)
        } else {
            self.receive_answer(classes, conn, message)
        }
    }

    // Takes a frame that asks.
    fn receive_asking<C: CallClasses>(
        &mut self,
        classes: &C,
        conn: u64,
        connection: Connection,
        message: Message,
    ) -> Result<(), AllocError>
        requires { is_asking message ≡ true }
        ensures got { OnOk result ((g : Setting) (s : State) (c : Line) → IsSpace g s self.old → s.notes ≡ [] → C.tells classes.now g.classes → ComesOn conn s c → connection ≡ seen c → c.dialled ≡ None → IsSpace g (got g c message s) self.new) }
        ensures lent { OnOk result (KeepsLent self.old.living.tasks self.new.living.tasks) }
    {
        match message {
            Message::Call {
                number,
                object,
                method,
                fuel,
                arguments,
            } => {
                let call = ParkedCall {
                    target: object,
                    method,
                    fuel,
                    arguments,
                };
                self.receive_call(classes, conn, connection.last, number, call)
            }
            Message::Lookup { number, name } => {
                self.receive_lookup(classes, conn, connection.last, number, name.as_slice())
            }
            Message::Ack { number } => self.receive_ack(classes, conn, number),
            Message::Dirty {
                sequence,
                period,
                objects,
            } => {
                let ids = objects.as_slice();
                self.receive_dirty(classes, conn, connection, sequence, period, ids)
            }
            Message::Clean {
                sequence,
                strong,
                objects,
            } => {
                let ids = objects.as_slice();
                self.receive_clean(classes, conn, connection, sequence, strong, ids)
            }
            _ => unreachable!(),
        }
    }

    // Takes a frame that does not ask, on a connection that this space dialled. A second Hello closes it.
    fn receive_answer<C: CallClasses>(
        &mut self,
        classes: &C,
        conn: u64,
        message: Message,
    ) -> Result<(), AllocError>
        requires { is_asking message ≡ false }
        ensures got { OnOk result ((g : Setting) (s : State) (c : Line) (peer : Peer) → IsSpace g s self.old → s.notes ≡ [] → C.tells classes.now g.classes → ComesOn conn s c → c.dialled ≡ Some peer → IsSpace g (got g c message s) self.new) }
        ensures lent { OnOk result (KeepsLent self.old.living.tasks self.new.living.tasks) }
    {
        match message {
            Message::Hello { .. } => self.close(classes, RemoteException::Unmarshal, conn),
            Message::Returned {
                number,
                fuel,
                value,
            } => self.receive_returned(classes, conn, number, fuel, value),
            Message::Threw { number, class } => self.receive_threw(classes, conn, number, class),
            Message::Spent { number } => self.receive_spent(classes, conn, number),
            Message::Lease { sequence, period } => {
                self.receive_lease(classes, conn, sequence, period)
            }
            Message::Cleaned { sequence } => self.receive_cleaned(classes, conn, sequence),
            _ => unreachable!(),
        }
    }
}

// Whether a frame asks: the space that dialled sends it.
fn is_asking(message: &Message) -> bool
    ensures { result ≡ is_asking message.now }
{
    match message {
        Message::Call { .. }
        | Message::Ack { .. }
        | Message::Dirty { .. }
        | Message::Clean { .. }
        | Message::Lookup { .. } => true,
        _ => false,
    }
}

// Whether a frame goes the wrong way: one that asks goes to the end that was dialled, one that answers to the
// other.
fn is_wrong_way(asks: bool, dialled: bool) -> bool
    ensures { result ≡ is_wrong_way asks dialled }
{
    if asks { dialled } else { !dialled }
}
