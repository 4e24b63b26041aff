//! Two spaces, and what they tell.

use crate::calls;
use crate::device::{Devices, Side};
use crate::pipe::Pipe;
use net_message::Message;
use sim_worlds::{Origin, ScriptSpace};
use sp_events::Event;
use sp_inflow::Arrival;
use sp_outputs::Output;
use sp_tasks::Outcome;
use space_ids::Uuid;
use std::alloc::Global;
use std::mem;
use test_rows::{RowFault, space_of};

/// How a task of a space ended.
#[derive(Drop)]
pub struct Ended {
    pub side: Side,
    pub task: u64,
    pub outcome: Outcome,
}

/// A clean call that B sent.
#[derive(Clone, Copy, PartialEq, Eq)]
pub enum SentClean {
    Plain,
    Strong,
}

/// Two spaces, their connections in the order in which they were opened, and what is to happen next.
#[derive(Drop)]
pub struct Pair<S> {
    pub alloc: Global,
    pub a: S,
    pub b: S,
    devices: Devices,
    pipes: Vec<Pipe>,
    // What waits to happen at spaces.
    waiting: Vec<(Side, Event)>,
    dials: usize,
    ended: Vec<Ended>,
    cleans: Vec<SentClean>,
    // Whether a device failed.
    pub has_failed: bool,
}

/// The id of a space.
pub fn id_of(side: Side) -> Uuid {
    match side {
        Side::A => space_of(1),
        Side::B => space_of(2),
    }
}

impl<S: ScriptSpace + Drop> Pair<S> {
    /// Returns two spaces to which nothing has happened.
    pub fn new<O: Origin<S>>(
        alloc: Global,
        origin: &O,
        devices: Devices,
    ) -> Result<Pair<S>, RowFault> {
        let a = calls::space(origin, id_of(Side::A))?;
        let b = calls::space(origin, id_of(Side::B))?;
        Ok(Pair {
            alloc,
            a,
            b,
            devices,
            pipes: Vec::new(alloc),
            waiting: Vec::new(alloc),
            dials: 0,
            ended: Vec::new(alloc),
            cleans: Vec::new(alloc),
            has_failed: false,
        })
    }

    /// Lets an event happen at a space, and does what that answers.
    pub fn tell(&mut self, side: Side, event: &Event) -> Result<(), RowFault> {
        let outputs = match side {
            Side::A => calls::event(&mut self.a, event)?,
            Side::B => calls::event(&mut self.b, event)?,
        };
        self.answer(side, outputs)
    }

    /// Does what a space answered.
    pub fn answer(&mut self, side: Side, outputs: Vec<Output>) -> Result<(), RowFault> {
        let mut unsent: u64 = 0;
        let mut broken = 0;
        for output in outputs {
            if let Some(conn) = self.put(side, output)? {
                unsent = unsent.saturating_add(1);
                broken = conn;
            }
        }
        if unsent > 0 {
            let event = Event::WriteFailed {
                conn: broken,
                unsent,
            };
            self.waiting.push((side, event))?;
        }
        Ok(())
    }

    // Does what an output says. Returns the connection of a frame that did not go out whole.
    fn put(&mut self, side: Side, output: Output) -> Result<Option<u64>, RowFault> {
        match output {
            Output::Send { conn, message } => self.send(side, conn, message),
            Output::Ended(task, outcome) => self.end(side, task, outcome),
            Output::Close(conn) => self.close(side, conn),
            Output::Dial(_) => {
                self.dials = self.dials.saturating_add(1);
                Ok(None)
            }
            _ => Ok(None),
        }
    }

    fn end(&mut self, side: Side, task: u64, outcome: Outcome) -> Result<Option<u64>, RowFault> {
        self.ended.push(Ended {
            side,
            task,
            outcome,
        })?;
        Ok(None)
    }

    fn close(&mut self, side: Side, conn: u64) -> Result<Option<u64>, RowFault> {
        match self.pipes.get_mut(conn as usize) {
            Some(pipe) => {
                pipe.close(side);
                Ok(None)
            }
            None => Err(RowFault::Bad),
        }
    }

    fn send(&mut self, side: Side, conn: u64, message: Message) -> Result<Option<u64>, RowFault> {
        self.note_clean(&message)?;
        if self.send_on(side, conn, message)? {
            return Ok(None);
        }
        self.has_failed = true;
        Ok(Some(conn))
    }

    // Sends a frame on a connection, and returns whether it went out whole.
    fn send_on(&mut self, side: Side, conn: u64, message: Message) -> Result<bool, RowFault> {
        let Some(pipe) = self.pipes.get_mut(conn as usize) else {
            return Err(RowFault::Bad);
        };
        pipe.send(side, message)
    }

    fn note_clean(&mut self, message: &Message) -> Result<(), RowFault> {
        if let Message::Clean { strong, .. } = message {
            let clean = if *strong {
                SentClean::Strong
            } else {
                SentClean::Plain
            };
            self.cleans.push(clean)?;
        }
        Ok(())
    }

    /// Takes the first event that waits, and the space at which it is to happen.
    pub fn take_waiting(&mut self) -> Option<(Side, Event)> {
        if self.waiting.is_empty() {
            return None;
        }
        Some(self.waiting.remove(0))
    }

    /// Opens a connection, if B asked for one. The devices of the first connection alone fail.
    pub fn open(&mut self) -> Result<bool, RowFault> {
        if self.dials == 0 {
            return Ok(false);
        }
        self.dials = self.dials.saturating_sub(1);
        let conn = self.pipes.len() as u64;
        let devices = if conn == 0 {
            self.devices
        } else {
            self.devices.whole()
        };
        self.pipes.push(Pipe::new(self.alloc, devices)?)?;
        let dialled = Some(id_of(Side::A));
        self.waiting
            .push((Side::B, Event::Opened { conn, dialled }))?;
        self.waiting.push((
            Side::A,
            Event::Opened {
                conn,
                dialled: None,
            },
        ))?;
        Ok(true)
    }

    /// Takes what comes next at a space, on the first connection on which anything does.
    pub fn take_arrival(&mut self, side: Side) -> Result<Option<Event>, RowFault> {
        for conn in 0..self.pipes.len() {
            if let Some(arrival) = self.take_on(side, conn)? {
                return Ok(Some(event_of(conn as u64, arrival)));
            }
        }
        Ok(None)
    }

    // Takes what comes next at a space on a connection.
    fn take_on(&mut self, side: Side, conn: usize) -> Result<Option<Arrival>, RowFault> {
        let Some(pipe) = self.pipes.get_mut(conn) else {
            return Err(RowFault::Bad);
        };
        let arrival = pipe.take(self.alloc, side)?;
        if matches!(arrival, Some(Arrival::ReadFailed)) {
            self.has_failed = true;
        }
        Ok(arrival)
    }

    /// Returns how a task of a space ended, if it did.
    pub fn outcome(&self, side: Side, task: u64) -> Option<&Outcome> {
        let ended = self
            .ended
            .iter()
            .find(|ended| ended.side == side && ended.task == task)?;
        Some(&ended.outcome)
    }

    /// Takes the clean calls that B has sent since this was asked the last time.
    pub fn take_cleans(&mut self) -> Vec<SentClean> {
        mem::replace(&mut self.cleans, Vec::new(self.alloc))
    }

    /// Returns how many bytes a space sent on each connection.
    pub fn sent(&self, side: Side) -> Result<Vec<usize>, RowFault> {
        Ok(
            self.pipes
                .iter()
                .map(|pipe| pipe.sent(side))
                .collect(self.alloc)?,
        )
    }
}

fn event_of(conn: u64, arrival: Arrival) -> Event {
    match arrival {
        Arrival::Received(message) => Event::Received { conn, message },
        Arrival::Closed => Event::Closed { conn },
        Arrival::ReadFailed => Event::ReadFailed { conn },
        Arrival::Bad => Event::Bad { conn },
    }
}
