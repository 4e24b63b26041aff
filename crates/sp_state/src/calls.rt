//! Calls that come.

ghost use Rattle.std.specs.Prelude.{◌≡◌, ◌||◌, ℕ, [], IfOk, OnOk, None, not};
ghost use Rattle.std.specs.List.{list_any};
ghost use Rattle.sp_requests.specs.Thrown.{thrown_class};
ghost use Rattle.sp_rules.specs.Classes.{Setting, fit_kinds};
ghost use Rattle.sp_rules.specs.Frames.{call_on, got_call};
ghost use Rattle.sp_rules.specs.Holders.{is_refused};
ghost use Rattle.sp_rules.specs.ParkedFrames.{answer_threw};
ghost use Rattle.sp_rules.specs.References.{references_of};
ghost use Rattle.sp_rules.specs.State.{Connection as Line, State, object_at};
ghost use Rattle.sp_tasks.specs.Lent.{KeepsLent};

use crate::SpaceState;
use net_message::Message;
use sp_endings::foreign_among;
use sp_outputs::Turn;
use sp_parked::{Frame, ParkedCall, ParkedFrame};
use sp_requests::{CallClasses, RemoteException};
use space_ids::{ClassId, Row};
use std::alloc::AllocError;

impl SpaceState {
    ghost use Rattle.sp_state.specs.Receiving.{ComesOn, take_call};
    ghost use Rattle.sp_state.specs.Spaces.{IsSpace};

    // Takes a call that came on a connection, under a number above the last there; another closes it.
    pub(crate) fn receive_call<C: CallClasses>(
        &mut self,
        classes: &C,
        conn: u64,
        last: u64,
        number: u64,
        call: ParkedCall,
    ) -> Result<(), AllocError>
        ensures got { OnOk result ((g : Setting) (s : State) (c : Line) → IsSpace g s self.old → s.notes ≡ [] → C.tells classes.now g.classes → ComesOn conn s c → c.last ≡ last → IsSpace g (got_call g c number call.target call.method call.fuel call.arguments s) self.new) }
        ensures lent { OnOk result (KeepsLent self.old.living.tasks self.new.living.tasks) }
    {
        if number <= last {
            return self.close(classes, RemoteException::Unmarshal, conn);
        }
        self.living.count(conn, number);
        match self.refusal(classes, &call)? {
            Some(why) => self.answer_threw(classes, conn, number, why),
            None => self.park_received(classes, conn, number, call),
        }
    }

    // Why a call is answered by an exception at once, if it is: its target does not stand, it does not fit, or
    // too many tasks live.
    fn refusal<C: CallClasses>(
        &self,
        classes: &C,
        call: &ParkedCall,
    ) -> Result<Option<RemoteException>, AllocError>
        ensures { IfOk result (λ why. (g : Setting) (s : State) (conn number : ℕ) → IsSpace g s self.now → C.tells classes.now g.classes → call_on g conn number (object_at s call.now.target) call.now.method call.now.fuel call.now.arguments s ≡ take_call g conn number why call.now.target call.now.method call.now.fuel call.now.arguments s) }
    {
        let Some(class) = self.owner.class_of(call.target) else {
            return Ok(Some(RemoteException::NoSuchObject));
        };
        if self.is_unfit(classes, class, call) {
            return Ok(Some(RemoteException::Unmarshal));
        }
        let busy = sp_endings::is_busy(self.alloc, &self.living)?;
        if busy {
            return Ok(Some(RemoteException::ServerError));
        }
        Ok(None)
    }

    // Whether a call on an object of a class does not fit: the class has no such method, the arguments are not
    // of its kinds, or a reference among them is refused.
    fn is_unfit<C: CallClasses>(&self, classes: &C, class: ClassId, call: &ParkedCall) -> bool
        ensures { (g : Setting) (s : State) → IsSpace g s self.now → C.tells classes.now g.classes → result ≡ (not (g.classes.may_call class call.now.method) || (not (fit_kinds (g.classes.parameters call.now.method) call.now.arguments) || list_any (is_refused g s) (references_of call.now.arguments))) }
    {
        let arguments = call.arguments.as_slice();
        !classes.may_call(class, call.method)
            || (!classes.takes(call.method, arguments) || self.refuses_any(classes, arguments))
    }

    // Answers a call or lookup that came by an exception.
    pub(crate) fn answer_threw<C: CallClasses>(
        &mut self,
        classes: &C,
        conn: u64,
        number: u64,
        exception: RemoteException,
    ) -> Result<(), AllocError>
        ensures answered { OnOk result ((g : Setting) (s : State) → IsSpace g s self.old → C.tells classes.now g.classes → IsSpace g (answer_threw conn number (thrown_class g.classes exception) s) self.new) }
        ensures lent { OnOk result (KeepsLent self.old.living.tasks self.new.living.tasks) }
    {
        let class = classes.thrown(exception);
        self.living
            .reply(Turn::Replies, conn, Message::Threw { number, class })
    }

    // Parks a call until each foreign reference among its arguments has a lease.
    fn park_received<C: CallClasses>(
        &mut self,
        classes: &C,
        conn: u64,
        number: u64,
        call: ParkedCall,
    ) -> Result<(), AllocError>
        ensures parked { OnOk result ((g : Setting) (s : State) → IsSpace g s self.old → C.tells classes.now g.classes → IsSpace g (take_call g conn number None call.target call.method call.fuel call.arguments s) self.new) }
        ensures lent { OnOk result (KeepsLent self.old.living.tasks self.new.living.tasks) }
    {
        let references = foreign_among(self.alloc, &self.id, call.arguments.as_slice())?;
        let frame = ParkedFrame {
            conn,
            number,
            frame: Frame::Call(call),
            references: Row::new(references),
        };
        sp_endings::park(&mut self.living, self.owner.store(), classes, frame)
    }
}
