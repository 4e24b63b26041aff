//! What happens in a world.

ghost use Rattle.std.specs.Prelude.{◌≡◌, true, false, None, Some, Ok, Err, IfOk, IfErr, OnOk, OnErr, is_err};
ghost use Rattle.sp_rules.specs.Events.{Root as Roots};
ghost use Rattle.sp_rules.specs.Worlds.{World as Rules, accept, after, deliver, happens, is_own, open_pipe, read_fails, refuse, step_task, write_fails, Own};
ghost use Rattle.sp_events.specs.Events.{event_of};
ghost use Rattle.sp_pipes.specs.Connections.{end_of};
ghost use Rattle.sp_world.specs.Happenings.{happening_of};

use crate::world::Waiting;
use crate::{World, WorldEvent, WorldSpace};
use message_copies::copy_message;
use net_message::Message;
use sp_events::{CoreFault, Event};
use sp_pipes::End;
use space_ids::{Uuid, Value};
use std::alloc::AllocError;

impl<S: WorldSpace + Drop> World<S> {
    ghost use Rattle.sp_world.specs.Residents.{one_event, refused_event, refused_step, step_events_of};
    ghost use Rattle.sp_world.specs.Waitings.{IsHeard, IsWorld, Keeps, Makes, accept_end, close_end, deliver_front, deliver_last, deliver_next, is_settled, open_next, refuse_next, refuse_peer, unread_end, unwritten_end};

    /// Lets an event happen. One that does not fit changes nothing but what [refused](World::refused)
    /// tells. At out of memory it has not happened, and it stays the same world.
    pub fn event(&mut self, event: &WorldEvent) -> Result<(), AllocError>
        ensures happened { OnOk result ((w : Rules) → IsWorld S.is_space w self.old → IsWorld S.is_space (after w (happening_of event.now)) self.new) }
        ensures same { OnErr result ((w : Rules) → IsWorld S.is_space w self.old → IsWorld S.is_space w self.new) }
    {
        self.settle()?;
        self.happen(event)?;

        // What finds no memory now is put into the queues before the next event.
        let _ = self.settle();
        Ok(())
    }

    // Lets an event happen in a world in which nothing is still to be put into the queues.
    fn happen(&mut self, event: &WorldEvent) -> Result<(), AllocError>
        requires { is_settled self.old ≡ true }
        ensures made { OnOk result (Makes S.is_space (happens (happening_of event.now)) self.old self.new) }
        ensures kept { OnErr result (Keeps S.is_space self.old self.new) }
    {
        match event {
            WorldEvent::Own { space, event } => self.own(*space, event),
            WorldEvent::Root {
                space,
                method,
                arguments,
                fuel,
            } => self.root(*space, *method, arguments.as_slice(), *fuel),
            WorldEvent::Step { space, task } => self.step(*space, *task),
            WorldEvent::Open { dialler, dialled } => self.open(*dialler, *dialled),
            WorldEvent::Refuse { dialler, dialled } => self.refuse(*dialler, *dialled),
            WorldEvent::Accept(conn) => self.accept(*conn),
            WorldEvent::Deliver { conn, to } => self.deliver(*conn, *to),
            WorldEvent::ReadFails { conn, at } => self.read_fails(*conn, *at),
            WorldEvent::WriteFails { conn, at, unsent } => self.write_fails(*conn, *at, *unsent),
        }
    }

    // A space's own event. No other kind of event fits.
    fn own(&mut self, space: usize, event: &Event) -> Result<(), AllocError>
        requires { is_settled self.old ≡ true }
        ensures made { OnOk result (Makes S.is_space (happens (Own space (event_of event.now))) self.old self.new) }
        ensures kept { OnErr result (Keeps S.is_space self.old self.new) }
    {
        if is_own_event(event) {
            let _taken = self.tell(space, event)?;
            return Ok(());
        }
        self.refused = None;
        Ok(())
    }

    // A root of a space.
    fn root(
        &mut self,
        space: usize,
        method: u32,
        arguments: &[Value],
        fuel: u64,
    ) -> Result<(), AllocError>
        requires { is_settled self.old ≡ true }
        ensures made { OnOk result (Makes S.is_space (happens (Own space (Roots method arguments.now fuel))) self.old self.new) }
        ensures kept { OnErr result (Keeps S.is_space self.old self.new) }
    {
        let _taken = self.tell_root(space, method, arguments, fuel)?;
        Ok(())
    }

    // One instruction of a task.
    fn step(&mut self, space: usize, task: u64) -> Result<(), AllocError>
        requires { is_settled self.old ≡ true }
        ensures made { OnOk result (Makes S.is_space (step_task space task) self.old self.new) }
        ensures kept { OnErr result (Keeps S.is_space self.old self.new) }
    {
        let _taken = self.tell_step(space, task)?;
        Ok(())
    }

    // A dial comes to a connection, if it waits.
    fn open(&mut self, dialler: usize, dialled: usize) -> Result<(), AllocError>
        requires { is_settled self.old ≡ true }
        ensures made { OnOk result (Makes S.is_space (open_pipe dialler dialled) self.old self.new) }
        ensures kept { OnErr result (Keeps S.is_space self.old self.new) }
    {
        if self.wiring.dials.contains(dialler, dialled) {
            return self.open_asked(dialler, dialled);
        }
        self.refused = None;
        Ok(())
    }

    // A dial that waits comes to a connection.
    fn open_asked(&mut self, dialler: usize, dialled: usize) -> Result<(), AllocError>
        requires { is_settled self.old ≡ true }
        ensures made { OnOk result (Makes S.is_space (open_next dialler dialled) self.old self.new) }
        ensures kept { OnErr result (Keeps S.is_space self.old self.new) }
    {
        self.wiring.pipes.reserve()?;
        let event = Event::Opened {
            conn: self.wiring.pipes.len(),
            dialled: self.id(dialled),
        };
        let taken = self.bring(dialler, event)?;
        if taken {
            self.wiring.dials.remove(dialler, dialled);
            self.wiring.pipes.open_reserved(dialler, dialled);
            return Ok(());
        }
        Ok(())
    }

    // A dial is refused, if it waits.
    fn refuse(&mut self, dialler: usize, dialled: usize) -> Result<(), AllocError>
        requires { is_settled self.old ≡ true }
        ensures made { OnOk result (Makes S.is_space (refuse dialler dialled) self.old self.new) }
        ensures kept { OnErr result (Keeps S.is_space self.old self.new) }
    {
        if self.wiring.dials.contains(dialler, dialled) {
            return self.refuse_asked(dialler, dialled);
        }
        self.refused = None;
        Ok(())
    }

    // A dial that waits is refused.
    fn refuse_asked(&mut self, dialler: usize, dialled: usize) -> Result<(), AllocError>
        requires { is_settled self.old ≡ true }
        ensures made { OnOk result (Makes S.is_space (refuse_next dialler dialled) self.old self.new) }
        ensures kept { OnErr result (Keeps S.is_space self.old self.new) }
    {
        match self.id(dialled) {
            Some(peer) => self.refuse_to(dialler, dialled, peer),
            None => {
                self.refused = None;
                Ok(())
            }
        }
    }

    // A space is told that its dial to this one is refused.
    fn refuse_to(&mut self, dialler: usize, dialled: usize, peer: Uuid) -> Result<(), AllocError>
        requires { is_settled self.old ≡ true }
        ensures made { OnOk result (Makes S.is_space (refuse_peer dialler dialled peer) self.old self.new) }
        ensures kept { OnErr result (Keeps S.is_space self.old self.new) }
    {
        let taken = self.bring(dialler, Event::Refused { peer })?;
        if taken {
            self.wiring.dials.remove(dialler, dialled);
            return Ok(());
        }
        Ok(())
    }

    // The space that was dialled accepts a connection, if it waits for that.
    fn accept(&mut self, conn: u64) -> Result<(), AllocError>
        requires { is_settled self.old ≡ true }
        ensures made { OnOk result (Makes S.is_space (accept conn) self.old self.new) }
        ensures kept { OnErr result (Keeps S.is_space self.old self.new) }
    {
        match self.wiring.pipes.unopened_space(conn) {
            Some(space) => self.accept_at(space, conn),
            None => {
                self.refused = None;
                Ok(())
            }
        }
    }

    // A space accepts a connection.
    fn accept_at(&mut self, space: usize, conn: u64) -> Result<(), AllocError>
        requires { is_settled self.old ≡ true }
        ensures made { OnOk result (Makes S.is_space (accept_end conn space) self.old self.new) }
        ensures kept { OnErr result (Keeps S.is_space self.old self.new) }
    {
        let event = Event::Opened {
            conn,
            dialled: None,
        };
        let taken = self.bring(space, event)?;
        if taken {
            self.wiring.pipes.begin(conn);
            return Ok(());
        }
        Ok(())
    }

    // The first frame comes to an end that is live, or that the other end has ended.
    fn deliver(&mut self, conn: u64, to: End) -> Result<(), AllocError>
        requires { is_settled self.old ≡ true }
        ensures made { OnOk result (Makes S.is_space (deliver conn (end_of to)) self.old self.new) }
        ensures kept { OnErr result (Keeps S.is_space self.old self.new) }
    {
        match self.wiring.pipes.live_space(conn, to) {
            Some(space) => self.deliver_to(space, conn, to),
            None => {
                self.refused = None;
                Ok(())
            }
        }
    }

    // The same at a live end of a space.
    fn deliver_to(&mut self, space: usize, conn: u64, to: End) -> Result<(), AllocError>
        requires { is_settled self.old ≡ true }
        ensures made { OnOk result (Makes S.is_space (deliver_next conn (end_of to) space) self.old self.new) }
        ensures kept { OnErr result (Keeps S.is_space self.old self.new) }
    {
        match self.wiring.pipes.front(conn, to) {
            Some(message) => {
                let copy = copy_message(self.alloc, message)?;
                self.deliver_frame(space, conn, to, copy)
            }
            None => self.deliver_end(space, conn, to),
        }
    }

    // The first frame, of which this is a copy, comes to an end.
    fn deliver_frame(
        &mut self,
        space: usize,
        conn: u64,
        to: End,
        message: Message,
    ) -> Result<(), AllocError>
        requires { is_settled self.old ≡ true }
        ensures made { OnOk result (Makes S.is_space (deliver_front conn (end_of to) space message) self.old self.new) }
        ensures kept { OnErr result (Keeps S.is_space self.old self.new) }
    {
        let event = Event::Received { conn, message };
        let taken = self.bring(space, event)?;
        if taken {
            self.wiring.pipes.take_front(conn, to);
            return Ok(());
        }
        Ok(())
    }

    // It comes to a live end, towards which no frame comes, that the other end has ended, if it has.
    fn deliver_end(&mut self, space: usize, conn: u64, to: End) -> Result<(), AllocError>
        requires { is_settled self.old ≡ true }
        ensures made { OnOk result (Makes S.is_space (deliver_last conn (end_of to) space) self.old self.new) }
        ensures kept { OnErr result (Keeps S.is_space self.old self.new) }
    {
        if self.wiring.pipes.is_over(conn, to.other()) {
            return self.close(space, conn, to);
        }
        self.refused = None;
        Ok(())
    }

    // It comes to a live end that the other end has ended.
    fn close(&mut self, space: usize, conn: u64, to: End) -> Result<(), AllocError>
        requires { is_settled self.old ≡ true }
        ensures made { OnOk result (Makes S.is_space (close_end conn (end_of to) space) self.old self.new) }
        ensures kept { OnErr result (Keeps S.is_space self.old self.new) }
    {
        let taken = self.bring(space, Event::Closed { conn })?;
        if taken {
            self.wiring.pipes.end(conn, to);
            return Ok(());
        }
        Ok(())
    }

    // A read fails at an end that is live.
    fn read_fails(&mut self, conn: u64, at: End) -> Result<(), AllocError>
        requires { is_settled self.old ≡ true }
        ensures made { OnOk result (Makes S.is_space (read_fails conn (end_of at)) self.old self.new) }
        ensures kept { OnErr result (Keeps S.is_space self.old self.new) }
    {
        match self.wiring.pipes.live_space(conn, at) {
            Some(space) => self.read_fails_at(space, conn, at),
            None => {
                self.refused = None;
                Ok(())
            }
        }
    }

    // A read fails at a live end of a space.
    fn read_fails_at(&mut self, space: usize, conn: u64, at: End) -> Result<(), AllocError>
        requires { is_settled self.old ≡ true }
        ensures made { OnOk result (Makes S.is_space (unread_end conn (end_of at) space) self.old self.new) }
        ensures kept { OnErr result (Keeps S.is_space self.old self.new) }
    {
        let taken = self.bring(space, Event::ReadFailed { conn })?;
        if taken {
            self.wiring.pipes.end(conn, at);
            return Ok(());
        }
        Ok(())
    }

    // A write fails at an end that is live: the last frames that it wrote are lost.
    fn write_fails(&mut self, conn: u64, at: End, unsent: u64) -> Result<(), AllocError>
        requires { is_settled self.old ≡ true }
        ensures made { OnOk result (Makes S.is_space (write_fails conn (end_of at) unsent) self.old self.new) }
        ensures kept { OnErr result (Keeps S.is_space self.old self.new) }
    {
        match self.wiring.pipes.live_space(conn, at) {
            Some(space) => {
                let lost = self.wiring.pipes.lost(conn, at, unsent);
                self.write_fails_at(space, conn, at, lost)
            }
            None => {
                self.refused = None;
                Ok(())
            }
        }
    }

    // A write fails at a live end of a space: this many of the last frames that it wrote are lost.
    fn write_fails_at(
        &mut self,
        space: usize,
        conn: u64,
        at: End,
        lost: u64,
    ) -> Result<(), AllocError>
        requires { is_settled self.old ≡ true }
        ensures made { OnOk result (Makes S.is_space (unwritten_end conn (end_of at) space lost) self.old self.new) }
        ensures kept { OnErr result (Keeps S.is_space self.old self.new) }
    {
        let event = Event::WriteFailed { conn, unsent: lost };
        let taken = self.bring(space, event)?;
        if taken {
            self.wiring.pipes.cut_end(conn, at.other(), lost);
            self.wiring.pipes.end(conn, at);
            return Ok(());
        }
        Ok(())
    }

    // Brings an event to a space, and lets it go. Returns whether there is such a space and it took the event.
    fn bring(&mut self, space: usize, event: Event) -> Result<bool, AllocError>
        requires { is_settled self.old ≡ true }
        ensures heard { IfOk result (λ taken. IsHeard S.is_space space (refused_event (event_of event)) (one_event (event_of event)) taken self.old self.new) }
        ensures kept { OnErr result (Keeps S.is_space self.old self.new) }
        ensures wiring { self.new.wiring ≡ self.old.wiring }
    {
        self.tell(space, &event)
    }

    // Tells a space of an event. Returns whether there is such a space and it took the event.
    fn tell(&mut self, space: usize, event: &Event) -> Result<bool, AllocError>
        requires { is_settled self.old ≡ true }
        ensures heard { IfOk result (λ taken. IsHeard S.is_space space (refused_event (event_of event.now)) (one_event (event_of event.now)) taken self.old self.new) }
        ensures kept { OnErr result (Keeps S.is_space self.old self.new) }
        ensures wiring { self.new.wiring ≡ self.old.wiring }
    {
        if space >= self.residents.len() {
            self.refused = None;
            return Ok(false);
        }
        let answer = self.residents[space].on(event);
        self.hear(space, answer)
    }

    // The same of a root.
    fn tell_root(
        &mut self,
        space: usize,
        method: u32,
        arguments: &[Value],
        fuel: u64,
    ) -> Result<bool, AllocError>
        requires { is_settled self.old ≡ true }
        ensures heard { IfOk result (λ taken. IsHeard S.is_space space (refused_event (Roots method arguments.now fuel)) (one_event (Roots method arguments.now fuel)) taken self.old self.new) }
        ensures kept { OnErr result (Keeps S.is_space self.old self.new) }
        ensures wiring { self.new.wiring ≡ self.old.wiring }
    {
        if space >= self.residents.len() {
            self.refused = None;
            return Ok(false);
        }
        let answer = self.residents[space].root(method, arguments, fuel);
        self.hear(space, answer)
    }

    // The same of an instruction of a task.
    fn tell_step(&mut self, space: usize, task: u64) -> Result<bool, AllocError>
        requires { is_settled self.old ≡ true }
        ensures heard { IfOk result (λ taken. IsHeard S.is_space space (refused_step task) (step_events_of task) taken self.old self.new) }
        ensures kept { OnErr result (Keeps S.is_space self.old self.new) }
        ensures wiring { self.new.wiring ≡ self.old.wiring }
    {
        if space >= self.residents.len() {
            self.refused = None;
            return Ok(false);
        }
        let answer = self.residents[space].step(task);
        self.hear(space, answer)
    }

    // Takes up what a space answered. Returns whether it took the event.
    fn hear(&mut self, space: usize, answer: Result<usize, CoreFault>) -> Result<bool, AllocError>
        ensures taken { IfOk answer (λ row. (result ≡ Ok true) × (self.new ≡ record self.old { waiting = Some (record { writer = space; row = row; next = 0 }); refused = None })) }
        ensures lacks { answer ≡ Err CoreFault.Memory → (is_err result ≡ true) × (self.new ≡ self.old) }
        ensures refused { IfErr answer (λ fault. (fault ≡ CoreFault.Memory → ⊥) → (result ≡ Ok false) × (self.new ≡ record self.old { refused = Some fault })) }
    {
        match answer {
            Ok(row) => {
                self.waiting = Some(Waiting {
                    writer: space,
                    row,
                    next: 0,
                });
                self.refused = None;
                Ok(true)
            }
            Err(CoreFault::Memory) => Err(AllocError),
            Err(fault) => {
                self.refused = Some(fault);
                Ok(false)
            }
        }
    }
}

// Whether it is one of a space's own events, Moment to Lookup.
fn is_own_event(event: &Event) -> bool
    ensures { result ≡ is_own (event_of event.now) }
{
    match event {
        Event::Moment(_) => true,
        Event::Sweep => true,
        Event::RootAck(_) => true,
        Event::Bind { .. } => true,
        Event::Rebind { .. } => true,
        Event::Unbind { .. } => true,
        Event::Lookup { .. } => true,
        Event::Opened { .. } => false,
        Event::Refused { .. } => false,
        Event::Received { .. } => false,
        Event::Closed { .. } => false,
        Event::ReadFailed { .. } => false,
        Event::Bad { .. } => false,
        Event::WriteFailed { .. } => false,
    }
}
