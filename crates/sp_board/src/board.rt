//! What lies behind the lock: the space, its connections, and what is to be done.

use crate::{Progress, Served};
use net_message::Message;
use sim_worlds::{PlayFault, SpaceNames, TaskKey, Variables, put_object, put_outcome, started};
use sp_links::{Host, Link, Links, frame_of};
use sp_world::{CoreFault, Event, Output};
use space_ids::{ObjId, Row, Uuid, Value};
use std::alloc::{AllocError, Global};
use std::collections::VecDeque;
use std::io::Write;
use std::mem;
use std::net::TcpStream;
use std::sync::Arc;

// How many instructions of its own a task makes at most in a turn.
const MOST_OWN: u64 = 512;

// How many turns a task has under the lock before it computes apart.
const TURNS: usize = 32;

/// Why serving ends before its input does.
#[derive(Clone, Copy, PartialEq, Eq)]
pub enum Fault {
    Memory,
    Output,
}

/// What came of the turns of a task.
#[derive(Drop)]
pub enum Advance<A> {
    /// It waits for a reply, has ended, or is refused.
    Rests,
    /// It may go on, after those that wait for their turn.
    Waits,
    /// It may go on, and computes apart from the space.
    Computes(A),
}

/// The space, its connections, and what is to be done.
#[derive(Drop)]
pub struct Board<S> {
    alloc: Global,
    pub space: S,
    pub links: Links,
    /// The tasks that may go on, as they came to.
    pub ready: VecDeque<u64>,
    /// The peers that are to be dialled.
    pub dials: VecDeque<Uuid>,
    /// The connections to peers that were dialled, which wait to be entered.
    pub made: VecDeque<(usize, TcpStream)>,
    pub variables: Variables,
    /// The lines that are to be printed.
    text: Vec<u8>,
    pub fault: Option<Fault>,
    pub is_stopped: bool,
    // Whether the ends of variables are told.
    is_telling: bool,
    // What has to be done about what events answered, once the lock is let go.
    due: Due,
}

/// What has to be done about what events answered, once the lock is let go: connections with frames that wait, and
/// threads that have something to do.
#[derive(Drop)]
pub struct Due {
    links: Vec<Arc<Link>>,
    /// A task may go on.
    pub is_ready: bool,
    /// A peer is to be dialled.
    pub is_dialled: bool,
    /// The task of a variable ended.
    pub is_ended: bool,
    /// Lines wait to be printed.
    pub is_told: bool,
}

impl Due {
    fn new(alloc: Global) -> Due {
        Due {
            links: Vec::new(alloc),
            is_ready: false,
            is_dialled: false,
            is_ended: false,
            is_told: false,
        }
    }

    /// Has the frames that wait go out.
    pub fn flush<R: Host>(&self, rt: &R) {
        for link in &self.links {
            link.flush(rt);
        }
    }

    // Notes that frames wait on a connection.
    fn add(&mut self, link: Arc<Link>) -> Result<(), AllocError> {
        let is_noted = match self.links.last() {
            Some(last) => last.conn == link.conn,
            None => false,
        };
        if !is_noted {
            self.links.push(link)?;
        }
        Ok(())
    }
}

// Spaces are named by their ids.
struct Ids;

impl SpaceNames for Ids {
    fn put_name(&self, text: &mut Vec<u8>, id: &Uuid) -> Result<(), PlayFault> {
        write!(text, "{id}")?;
        Ok(())
    }
}

impl<S: Served + Drop> Board<S> {
    /// A space without a connection.
    pub fn new(alloc: Global, space: S) -> Board<S> {
        Board {
            alloc,
            space,
            links: Links::new(alloc),
            ready: VecDeque::new(alloc),
            dials: VecDeque::new(alloc),
            made: VecDeque::new(alloc),
            variables: Variables::new(alloc),
            text: Vec::new(alloc),
            fault: None,
            is_stopped: false,
            is_telling: false,
            due: Due::new(alloc),
        }
    }

    /// Takes what has to be done once the lock is let go.
    pub fn take_due(&mut self) -> Due {
        let mut due = mem::replace(&mut self.due, Due::new(self.alloc));
        due.is_ready = !self.ready.is_empty();
        due.is_dialled = !self.dials.is_empty() || !self.made.is_empty();
        due.is_told = !self.text.is_empty();
        due
    }

    /// Lets an event happen, and hands on what it answers. A refused one changes nothing.
    pub fn on<R: Host>(&mut self, rt: &R, event: &Event) -> Result<(), CoreFault> {
        let answered = self.space.on(event);
        self.hand_on(rt, answered)
    }

    /// Lets a task that may go on have some turns. One that may go on after all of them is taken apart, or if that
    /// cannot be, waits for its turn.
    pub fn advance<R: Host>(&mut self, rt: &R, task: u64) -> Advance<S::Apart> {
        if !self.work(rt, task) {
            return Advance::Rests;
        }
        match self.space.lend(task) {
            Some(apart) => Advance::Computes(apart),
            None => {
                self.put_back(task);
                Advance::Waits
            }
        }
    }

    // Lets a task have its turns under the lock. Returns whether it may go on.
    fn work<R: Host>(&mut self, rt: &R, task: u64) -> bool {
        let (answered, goes_on) = match self.space.work(task, MOST_OWN, TURNS) {
            Ok(Progress { outputs, goes_on }) => (Ok(outputs), goes_on),
            Err(fault) => (Err(fault), false),
        };
        let _ = self.hand_on(rt, answered);
        goes_on
    }

    /// A task may go on, after those that wait for their turn.
    pub fn put_back(&mut self, task: u64) {
        if self.ready.push_back(task).is_err() {
            self.fail(Fault::Memory);
        }
    }

    /// Starts a root, whose variable is new.
    pub fn root<R: Host>(
        &mut self,
        rt: &R,
        variable: &str,
        method: u32,
        arguments: &[Value],
        fuel: u64,
    ) -> Result<(), CoreFault> {
        let answered = self.space.root(method, arguments, fuel);
        self.begin(rt, variable, answered)
    }

    /// Starts a look-up, whose variable is new.
    pub fn look_up<R: Host>(
        &mut self,
        rt: &R,
        variable: &str,
        peer: Uuid,
        name: Row<u8>,
    ) -> Result<(), CoreFault> {
        let answered = self.space.on(&Event::Lookup { peer, name });
        self.begin(rt, variable, answered)
    }

    // Gives the task that started a variable, and hands on what was answered.
    fn begin<R: Host>(
        &mut self,
        rt: &R,
        variable: &str,
        answered: Result<Vec<Output>, CoreFault>,
    ) -> Result<(), CoreFault> {
        if let Ok(outputs) = &answered
            && let Some(task) = started(outputs)
            && self
                .variables
                .add(variable, TaskKey { space: 0, task })
                .is_err()
        {
            self.fail(Fault::Memory);
        }
        self.hand_on(rt, answered)
    }

    // Hands on what an event answered, and tells why it was refused.
    fn hand_on<R: Host>(
        &mut self,
        rt: &R,
        answered: Result<Vec<Output>, CoreFault>,
    ) -> Result<(), CoreFault> {
        match answered {
            Ok(outputs) => {
                if self.hand_all(rt, outputs).is_err() {
                    self.fail(Fault::Memory);
                }
                Ok(())
            }
            Err(fault) => {
                if let CoreFault::Memory = fault {
                    self.fail(Fault::Memory);
                }
                Err(fault)
            }
        }
    }

    fn hand_all<R: Host>(&mut self, rt: &R, outputs: Vec<Output>) -> Result<(), PlayFault> {
        self.variables.note(0, outputs.as_slice())?;
        for output in outputs {
            self.hand(rt, output)?;
        }
        Ok(())
    }

    // Hands an output on: a frame to its connection, a dial, a task that may go on, a line.
    fn hand<R: Host>(&mut self, rt: &R, output: Output) -> Result<(), PlayFault> {
        match output {
            Output::Started(_) => Ok(()),
            Output::Ended(task, _outcome) => {
                self.due.is_ended = true;
                self.tell_end(task)
            }
            Output::Withdrawn(ids) => self.tell_withdrawn(ids.as_slice()),
            Output::Denied(_) => Ok(()),
            Output::Send { conn, message } => self.send(rt, conn, message),
            Output::Dial(peer) => Ok(self.dials.push_back(peer)?),
            Output::Close(conn) => {
                self.close(rt, conn);
                Ok(())
            }
            Output::Ready(task) => Ok(self.ready.push_back(task)?),
        }
    }

    // Has a frame wait to go out on a connection, if it is open.
    fn send<R: Host>(&mut self, rt: &R, conn: u64, message: Message) -> Result<(), PlayFault> {
        let Some(found) = self.links.get(conn) else {
            return Ok(());
        };
        let link = Arc::try_clone(found)?;
        if matches!(message, Message::Returned { .. }) {
            link.owe(rt);
        }
        match frame_of(message) {
            Ok(frame) => link.append(rt, &frame)?,
            Err(_) => link.give_up(rt),
        }
        Ok(self.due.add(link)?)
    }

    // Ends a connection, if it is open.
    fn close<R: Host>(&self, rt: &R, conn: u64) {
        if let Some(link) = self.links.get(conn) {
            let _ = link.end(rt);
        }
    }

    // Has a line told for each object that was withdrawn.
    fn tell_withdrawn(&mut self, ids: &[ObjId]) -> Result<(), PlayFault> {
        for id in ids {
            writeln!(self.text, "withdrawn {}", id.0)?;
        }
        Ok(())
    }

    // Has the end of a task told, if a line of the input started it.
    fn tell_end(&mut self, task: u64) -> Result<(), PlayFault> {
        let key = TaskKey { space: 0, task };
        if let Some(variable) = self.variables.of_task(&key)
            && self.is_telling
        {
            put_outcome(
                &mut self.text,
                &self.space,
                &Ids,
                &variable.name,
                &variable.outcome,
            )?;
        }
        Ok(())
    }

    /// From now on the end of each variable is told.
    pub fn tell_ends(&mut self) {
        self.is_telling = true;
    }

    /// Has the line of a variable told now.
    pub fn tell_variable(&mut self, name: &str) -> Result<(), PlayFault> {
        if let Some(variable) = self.variables.find(name) {
            put_outcome(
                &mut self.text,
                &self.space,
                &Ids,
                &variable.name,
                &variable.outcome,
            )?;
        }
        Ok(())
    }

    /// Has a line told.
    pub fn tell(&mut self, line: &[u8]) -> Result<(), AllocError> {
        self.text.extend_from_slice(line)
    }

    /// Has each standing object told, by its id.
    pub fn show(&mut self, name: &str) -> Result<(), PlayFault> {
        for index in 0..usize::MAX {
            let Some(shown) = self.space.object(index) else {
                return Ok(());
            };
            put_object(&mut self.text, &self.space, name, &shown)?;
        }
        Ok(())
    }

    /// Whether a line waits to be printed.
    pub fn has_text(&self) -> bool {
        !self.text.is_empty()
    }

    /// Takes the lines that wait.
    pub fn take_text(&mut self) -> Vec<u8> {
        mem::replace(&mut self.text, Vec::new(self.alloc))
    }

    /// A connection has been made, by this space if `dialled` names whom it dialled. None if there are too many, if
    /// the space refuses it, or out of memory.
    pub fn open<R: Host>(
        &mut self,
        rt: &R,
        stream: TcpStream,
        dialled: Option<Uuid>,
    ) -> Option<Arc<Link>> {
        let link = match self.links.add(stream, dialled.is_none()) {
            Ok(link) => link?,
            Err(AllocError) => {
                self.fail(Fault::Memory);
                return None;
            }
        };
        let conn = link.conn;
        if self.on(rt, &Event::Opened { conn, dialled }).is_err() {
            let _ = link.end(rt);
            self.links.remove(conn);
            return None;
        }
        Some(link)
    }

    /// Serving ends for this reason, if for none before.
    pub fn fail(&mut self, fault: Fault) {
        if self.fault.is_none() {
            self.fault = Some(fault);
        }
        self.is_stopped = true;
    }

    /// Lets the results of all variables go, and what no longer has a holder.
    pub fn let_go<R: Host>(&mut self, rt: &R) {
        for index in 0..usize::MAX {
            let task = match self.variables.at(index) {
                Some(variable) => variable.key.task,
                None => break,
            };
            let _ = self.on(rt, &Event::RootAck(task));
        }
        let _ = self.on(rt, &Event::Sweep);
    }

    /// The value that the task of a variable returned, or none if it has not.
    pub fn reference(&self, variable: &str) -> Option<Value> {
        self.variables.reference(variable).ok()
    }
}
