//! Answers that come on connections that this space dialled.

ghost use Rattle.std.specs.Prelude.{◌≡◌, ◌||◌, [], Some, OnOk, find, not, true, false, if◌then◌else◌};
ghost use Rattle.std.specs.List.{list_any};
ghost use Rattle.dgc_client.specs.History.Event.{CleanAnswered, DirtyAnswered};
ghost use Rattle.sp_rules.specs.Classes.{Classes, Setting};
ghost use Rattle.sp_rules.specs.Frames.{answered_by, ends_as, fits_asked, returned_for, spent_reply, thrown_reply, told_by};
ghost use Rattle.sp_rules.specs.Holders.{is_refused};
ghost use Rattle.sp_rules.specs.ParkedFrames.{is_call_on};
ghost use Rattle.sp_rules.specs.References.{references_in};
ghost use Rattle.sp_rules.specs.State.{Asked as Question, Connection as Line, Request, State};
ghost use Rattle.sp_tasks.specs.Behaviours.{reply_of};
ghost use Rattle.sp_state.specs.Receiving.{IsAskedBy};
ghost use Rattle.uuid.specs.declared.Uuid.{Uuid as Peer};
ghost use Rattle.sp_tasks.specs.Lent.{KeepsLent};

use crate::SpaceState;
use crate::refusing::fits;
use sp_endings::foreign_in;
use sp_parked::{Frame, ParkedFrame};
use sp_requests::{Asker, CallClasses, RemoteException};
use sp_tasks::Reply;
use space_ids::{ClassId, Row, Value};
use std::alloc::AllocError;

impl SpaceState {
    ghost use Rattle.sp_state.specs.Receiving.{ComesOn, park_returned, refuse_returned};
    ghost use Rattle.sp_state.specs.Spaces.{IsSpace};

    // Takes the result of a call or lookup. One that does not fit gives UnmarshalException; else it waits until
    // its reference has a lease. An answer to nothing closes the connection.
    pub(crate) fn receive_returned<C: CallClasses>(
        &mut self,
        classes: &C,
        conn: u64,
        number: u64,
        fuel: u64,
        value: Option<Value>,
    ) -> Result<(), AllocError>
        ensures got { OnOk result ((g : Setting) (s : State) (c : Line) (peer : Peer) → IsSpace g s self.old → s.notes ≡ [] → C.tells classes.now g.classes → ComesOn conn s c → c.dialled ≡ Some peer → IsSpace g (answered_by g c number (returned_for g c number fuel value) s) self.new) }
        ensures lent { OnOk result (KeepsLent self.old.living.tasks self.new.living.tasks) }
    {
        let Some(asker) = self.living.asked(conn, number) else {
            return self.close(classes, RemoteException::Unmarshal, conn);
        };
        if self.is_unfit_result(classes, &asker, &value, fuel) {
            return self.refuse_returned(classes, conn, number, asker);
        }
        self.park_returned(classes, conn, number, fuel, value)
    }

    // Whether a result does not fit what was asked, or is a reference that is refused.
    fn is_unfit_result<C: CallClasses>(
        &self,
        classes: &C,
        asker: &Asker,
        value: &Option<Value>,
        fuel: u64,
    ) -> bool
        ensures { (g : Setting) (s : State) (question : Question) → IsSpace g s self.now → C.tells classes.now g.classes → IsAskedBy asker.now question → result ≡ (not (fits_asked question value.now fuel) || list_any (is_refused g s) (references_in value.now)) }
    {
        !fits(asker, value, fuel) || self.refuses_result(classes, value)
    }

    // Gives who asked UnmarshalException for a result that does not fit, and acknowledges the result.
    fn refuse_returned<C: CallClasses>(
        &mut self,
        classes: &C,
        conn: u64,
        number: u64,
        asker: Asker,
    ) -> Result<(), AllocError>
        ensures refused { OnOk result ((g : Setting) (s : State) (c : Line) (peer : Peer) (question : Question) (row : Request) → IsSpace g s self.old → C.tells classes.now g.classes → ComesOn conn s c → c.dialled ≡ Some peer → find (is_call_on conn number) s.requests ≡ Some row → IsAskedBy asker question → IsSpace g (refuse_returned g conn number question s) self.new) }
        ensures lent { OnOk result (KeepsLent self.old.living.tasks self.new.living.tasks) }
    {
        self.living.acknowledge(conn, number)?;
        let class = classes.thrown(RemoteException::Unmarshal);
        self.living.reply_to(asker, Reply::Throws(class))
    }

    // Parks a result until its reference has a lease, if it is a foreign one.
    fn park_returned<C: CallClasses>(
        &mut self,
        classes: &C,
        conn: u64,
        number: u64,
        fuel: u64,
        value: Option<Value>,
    ) -> Result<(), AllocError>
        ensures parked { OnOk result ((g : Setting) (s : State) (c : Line) (peer : Peer) → IsSpace g s self.old → C.tells classes.now g.classes → ComesOn conn s c → c.dialled ≡ Some peer → IsSpace g (park_returned g conn number fuel value s) self.new) }
        ensures lent { OnOk result (KeepsLent self.old.living.tasks self.new.living.tasks) }
    {
        let references = foreign_in(self.alloc, &self.id, &value)?;
        self.living.answer(conn, number);
        let frame = ParkedFrame {
            conn,
            number,
            frame: Frame::Returned { value, fuel },
            references: Row::new(references),
        };
        sp_endings::park(&mut self.living, self.owner.store(), classes, frame)
    }

    // Takes the class that a call or lookup threw. One that is no Throwable gives UnmarshalException.
    pub(crate) fn receive_threw<C: CallClasses>(
        &mut self,
        classes: &C,
        conn: u64,
        number: u64,
        class: ClassId,
    ) -> Result<(), AllocError>
        ensures got { OnOk result ((g : Setting) (s : State) (c : Line) (peer : Peer) → IsSpace g s self.old → s.notes ≡ [] → C.tells classes.now g.classes → ComesOn conn s c → c.dialled ≡ Some peer → IsSpace g (answered_by g c number (ends_as g c number (λ asked. thrown_reply g class)) s) self.new) }
        ensures lent { OnOk result (KeepsLent self.old.living.tasks self.new.living.tasks) }
    {
        let Some(asker) = self.living.asked(conn, number) else {
            return self.close(classes, RemoteException::Unmarshal, conn);
        };
        let thrown = thrown_as(classes, class);
        self.living.take_call(conn, number);
        self.living.reply_to(asker, Reply::Throws(thrown))
    }

    // Takes that a call's fuel was spent: its caller is Spent, and a lookup gets UnmarshalException.
    pub(crate) fn receive_spent<C: CallClasses>(
        &mut self,
        classes: &C,
        conn: u64,
        number: u64,
    ) -> Result<(), AllocError>
        ensures got { OnOk result ((g : Setting) (s : State) (c : Line) (peer : Peer) → IsSpace g s self.old → s.notes ≡ [] → C.tells classes.now g.classes → ComesOn conn s c → c.dialled ≡ Some peer → IsSpace g (answered_by g c number (ends_as g c number (spent_reply g)) s) self.new) }
        ensures lent { OnOk result (KeepsLent self.old.living.tasks self.new.living.tasks) }
    {
        let Some(asker) = self.living.asked(conn, number) else {
            return self.close(classes, RemoteException::Unmarshal, conn);
        };
        let reply = spent_for(classes, &asker);
        self.living.take_call(conn, number);
        self.living.reply_to(asker, reply)
    }

    // Takes the lease that answers dirty calls.
    pub(crate) fn receive_lease<C: CallClasses>(
        &mut self,
        classes: &C,
        conn: u64,
        sequence: u64,
        period: u64,
    ) -> Result<(), AllocError>
        ensures got { OnOk result ((g : Setting) (s : State) (c : Line) (peer : Peer) → IsSpace g s self.old → s.notes ≡ [] → C.tells classes.now g.classes → ComesOn conn s c → c.dialled ≡ Some peer → IsSpace g (told_by g c true sequence (λ call. DirtyAnswered call period) s) self.new) }
        ensures lent { OnOk result (KeepsLent self.old.living.tasks self.new.living.tasks) }
    {
        let store = self.owner.store();
        sp_endings::lease(&mut self.living, store, classes, conn, sequence, period)
    }

    // Takes the answer to clean calls.
    pub(crate) fn receive_cleaned<C: CallClasses>(
        &mut self,
        classes: &C,
        conn: u64,
        sequence: u64,
    ) -> Result<(), AllocError>
        ensures got { OnOk result ((g : Setting) (s : State) (c : Line) (peer : Peer) → IsSpace g s self.old → s.notes ≡ [] → C.tells classes.now g.classes → ComesOn conn s c → c.dialled ≡ Some peer → IsSpace g (told_by g c false sequence CleanAnswered s) self.new) }
        ensures lent { OnOk result (KeepsLent self.old.living.tasks self.new.living.tasks) }
    {
        let store = self.owner.store();
        sp_endings::cleaned(&mut self.living, store, classes, conn, sequence)
    }
}

// The class that a task is told was thrown: one that is no Throwable is told as UnmarshalException.
fn thrown_as<C: CallClasses>(classes: &C, class: ClassId) -> ClassId
    ensures { (c : Classes) → C.tells classes.now c → result ≡ (if c.is_throwable class then class else c.unmarshal) }
{
    if classes.is_throwable(class) {
        class
    } else {
        classes.thrown(RemoteException::Unmarshal)
    }
}

// What who asks is told of fuel that was spent.
fn spent_for<C: CallClasses>(classes: &C, asker: &Asker) -> Reply
    ensures { (g : Setting) (question : Question) → C.tells classes.now g.classes → IsAskedBy asker.now question → reply_of result ≡ spent_reply g question }
{
    match asker {
        Asker::Call { .. } => Reply::RunsOut,
        Asker::Lookup { .. } => Reply::Throws(classes.thrown(RemoteException::Unmarshal)),
    }
}
