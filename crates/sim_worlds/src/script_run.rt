//! A script as it is played: what has happened, and what was shown.

ghost use Rattle.std.specs.Prelude.{◌≡◌, ◌++◌, ℕ, All, IfOk, List};
ghost use Rattle.sp_promises.specs.WorldRuns.{IsNew};

use crate::endings::{Scene, keep_endings};
use crate::names::Names;
use crate::texts::put_outcome;
use crate::variables::{TaskKey, Variable, Variables, started};
use crate::{PlayFault, ScriptSpace};
use sim_agenda::{
    Agenda, Occurrence, OccurrenceKind, Routes, keep_event, keep_output, keep_standing,
    occurrence_of,
};
use sim_happenings::{Happening, ScriptRecord};
use sim_shows::ShownRun;
use sp_world::{CoreFault, Dial, End, Output, World, WorldEvent};
use space_ids::Row;
use std::alloc::Global;
use std::collections::VecDeque;

/// A script as it is played over a world: the names of its spaces, the connections that were opened, the
/// variables, what can happen next, the lines that were shown, and a record.
#[derive(Drop)]
pub(crate) struct ScriptRun<S: ScriptSpace + Drop> {
    pub(crate) alloc: Global,
    // The world, with what was shown of its objects.
    pub(crate) played: ShownRun<S>,
    pub(crate) names: Names,
    pub(crate) connections: Routes,
    pub(crate) variables: Variables,
    pub(crate) agenda: Agenda,
    // The connections that `settle` has opened and nobody has accepted, the oldest first.
    pub(crate) unaccepted: VecDeque<u64>,
    // One that was told of no space keeps nothing.
    pub(crate) record: ScriptRecord,
}

impl<S: ScriptSpace + Drop> ScriptRun<S> {
    /// Returns a script of which only the spaces are made, whose names these are.
    pub fn new(alloc: Global, names: Names, spaces: Vec<S>) -> Result<ScriptRun<S>, PlayFault>
        requires new { All (IsNew S.is_space) spaces.items }
    {
        Ok(ScriptRun {
            alloc,
            played: ShownRun::new(alloc, spaces)?,
            names,
            connections: Routes::new(alloc),
            variables: Variables::new(alloc),
            agenda: Agenda::new(alloc),
            unaccepted: VecDeque::new(alloc),
            record: ScriptRecord::new(alloc, false),
        })
    }

    /// Returns the lines that were shown, and after them one for each variable, with how its task ended or
    /// that it waits.
    pub fn finish(self) -> Result<Vec<u8>, PlayFault>
        ensures shown { IfOk result (λ text. (outcomes : List ℕ)
            × (text.items ≡ self.played.text ++ outcomes)) }
    {
        let ScriptRun {
            alloc,
            played,
            names,
            connections: _,
            variables,
            agenda: _,
            unaccepted: _,
            record: _,
        } = self;
        let (mut text, run) = played.into_parts();
        let outcomes = outcomes_of(alloc, run.world(), &names, &variables)?;
        text.extend_from_slice(&outcomes)?;
        Ok(text)
    }

    // Keeps how many objects stand in each space.
    pub(crate) fn count_standing(&mut self) {
        for number in 0..self.record.names().len() {
            if let Some(space) = self.played.world().space(number) {
                keep_standing(&mut self.record, number, standing_in(space));
            }
        }
    }

    // Notes that the line of this number is played from here on.
    pub(crate) fn note_line(&mut self, number: usize, line: &str) -> Result<(), PlayFault> {
        if self.record.is_traced() {
            let text = String::from_str(self.alloc, line)?;
            self.record.add(Happening::Line { number, text })?;
        }
        Ok(())
    }

    // Lets an event happen, and takes what it was answered. Returns why it was refused, if it was.
    pub(crate) fn happen(&mut self, event: WorldEvent) -> Result<Option<CoreFault>, PlayFault> {
        let occurrence = occurrence_of(&event, &self.connections);
        self.played.happen(event)?;
        self.take_answers(occurrence)?;
        Ok(self.played.world().refused())
    }

    // Lets a root or a look-up of a space, which a verb names, begin, and gives its task a variable. Returns why it
    // was refused, if it was. `PlayFault::Bad` for a variable that a line before has named, and if no task began.
    pub(crate) fn begin(
        &mut self,
        verb: &str,
        variable: &str,
        space: usize,
        event: WorldEvent,
    ) -> Result<Option<CoreFault>, PlayFault> {
        if self.variables.find(variable).is_some() {
            return Err(PlayFault::Bad);
        }
        self.played.happen(event)?;
        if let Some(fault) = self.played.world().refused() {
            return Ok(Some(fault));
        }
        let Some(task) = started(self.last_outputs(space)) else {
            return Err(PlayFault::Bad);
        };
        self.variables.add(variable, TaskKey { space, task })?;
        self.note_beginning(verb, variable, space)?;
        self.take_answers(Occurrence {
            space: Some(space),
            conn: None,
            kind: OccurrenceKind::Begun,
        })?;
        Ok(None)
    }

    // Keeps that the task of a variable began.
    fn note_beginning(
        &mut self,
        verb: &str,
        variable: &str,
        space: usize,
    ) -> Result<(), PlayFault> {
        if self.record.is_traced() {
            let text = format!(in self.alloc; "{verb} {variable}")?;
            self.record.add(Happening::Begun { space, text })?;
        }
        Ok(())
    }

    // What the last event that came to a space answered.
    fn last_outputs(&self, space: usize) -> &[Output] {
        match self.played.world().outputs(space) {
            Some([.., last]) => last.as_slice(),
            _ => &[],
        }
    }

    // Takes what a space answered to an event that was told to it: notes which tasks it ended, what can happen next and
    // what a record keeps. The world lets go of it.
    fn take_answers(&mut self, occurrence: Occurrence) -> Result<(), PlayFault> {
        if let Some(conn) = occurrence.conn {
            let is_queued = is_queued(self.played.world(), conn);
            self.agenda.note_connection(conn, is_queued)?;
        }
        let Some(space) = occurrence.space else {
            return Ok(());
        };
        self.note(space)?;
        self.keep_answers(occurrence, space)?;
        let is_ready = self.ready(space).is_some();
        self.agenda.note_space(space, is_ready)?;
        self.played.forget_outputs(space);
        Ok(())
    }

    // Notes which tasks a space has ended, and on which connections it has put something.
    fn note(&mut self, space: usize) -> Result<(), PlayFault> {
        for row in self.played.world().outputs(space).unwrap_or(&[]) {
            self.variables.note(space, row)?;
            note_connections(self.played.world(), &mut self.agenda, row)?;
        }
        Ok(())
    }

    // Keeps what a space was told and what it answered.
    fn keep_answers(&mut self, occurrence: Occurrence, space: usize) -> Result<(), PlayFault> {
        let record = &mut self.record;
        if record.names().is_empty() {
            return Ok(());
        }
        let Some(played) = self.played.world().space(space) else {
            return Ok(());
        };
        let scene = Scene {
            alloc: self.alloc,
            number: space,
            space: played,
            names: &self.names,
            variables: &self.variables,
        };
        for row in self.played.world().outputs(space).unwrap_or(&[]) {
            keep_event(record, space, occurrence)?;
            keep_endings(record, &scene, row)?;
            keep_outputs(self.alloc, record, &self.connections, space, row)?;
        }
        Ok(())
    }

    // Shows each standing object of the space of this name, in the order of ids.
    pub(crate) fn show(&mut self, name: &str) -> Result<(), PlayFault> {
        let number = self.names.number(name)?;
        self.played.show(number, name)
    }

    // The lowest task of a space that may go on.
    pub(crate) fn ready(&self, number: usize) -> Option<u64> {
        self.played.world().space(number)?.ready()
    }

    // Opens a connection for a dial that waits, and lets the peer accept it. Nothing happens if none waits.
    pub(crate) fn open_accepted(&mut self, dial: Dial) -> Result<(), PlayFault> {
        if !self.is_asked(dial)? {
            return Ok(());
        }
        let conn = self.open(dial)?;
        self.accept(conn)
    }

    // Opens a connection for a dial that waits. Returns its number.
    pub(crate) fn open(&mut self, dial: Dial) -> Result<u64, PlayFault> {
        let conn = self.connections.len() as u64;
        let Dial { dialler, dialled } = dial;
        self.connections.add(dial)?;
        let _ = self.happen(WorldEvent::Open { dialler, dialled })?;
        Ok(conn)
    }

    // Lets the peer that was dialled accept a connection.
    pub(crate) fn accept(&mut self, conn: u64) -> Result<(), PlayFault> {
        let _ = self.happen(WorldEvent::Accept(conn))?;
        Ok(())
    }

    // Whether a dial waits.
    fn is_asked(&mut self, dial: Dial) -> Result<bool, PlayFault> {
        self.played.settle()?;
        Ok(
            self.played.world().asked().iter().any(|asked| asked.dialler == dial.dialler
                && asked.dialled == dial.dialled),
        )
    }

    // The variable of this name, which a line before has named.
    pub(crate) fn variable(&self, name: &str) -> Result<&Variable, PlayFault> {
        match self.variables.find(name) {
            Some(variable) => Ok(variable),
            None => Err(PlayFault::Bad),
        }
    }

    pub(crate) fn row(&self, name: &str) -> Result<Row<u8>, PlayFault> {
        Ok(Row::new(name.as_bytes().to_vec(self.alloc)?))
    }
}

// Keeps the outputs of a space.
fn keep_outputs(
    alloc: Global,
    record: &mut ScriptRecord,
    connections: &Routes,
    space: usize,
    outputs: &[Output],
) -> Result<(), PlayFault> {
    for output in outputs {
        keep_output(alloc, record, connections, space, output)?;
    }
    Ok(())
}

// How many objects stand in a space.
fn standing_in<S: ScriptSpace>(space: &S) -> usize {
    for index in 0..usize::MAX {
        if space.object(index).is_none() {
            return index;
        }
    }
    usize::MAX
}

// Notes the connections on which outputs of a space put something, or which they end.
fn note_connections<S: ScriptSpace + Drop>(
    world: &World<S>,
    agenda: &mut Agenda,
    outputs: &[Output],
) -> Result<(), PlayFault> {
    for output in outputs {
        if let Some(conn) = connection_of(output) {
            agenda.note_connection(conn, is_queued(world, conn))?;
        }
    }
    Ok(())
}

// The connection on which an output puts something, or which it ends.
fn connection_of(output: &Output) -> Option<u64> {
    match output {
        Output::Send { conn, .. } => Some(*conn),
        Output::Close(conn) => Some(*conn),
        _ => None,
    }
}

// Whether something can be delivered on a connection.
fn is_queued<S: ScriptSpace + Drop>(world: &World<S>, conn: u64) -> bool {
    if !world.is_settled() {
        return false;
    }
    world.queued(conn, End::Accepter) || world.queued(conn, End::Dialler)
}

// Returns a line for each variable. The world and the names are lent to it, so that they go out of scope at one place.
fn outcomes_of<S: ScriptSpace + Drop>(
    alloc: Global,
    world: &World<S>,
    names: &Names,
    variables: &Variables,
) -> Result<Vec<u8>, PlayFault> {
    let mut text = Vec::new(alloc);
    for index in 0..variables.len() {
        if let Some(variable) = variables.at(index)
            && let Some(space) = world.space(variable.key.space)
        {
            put_outcome(&mut text, space, names, &variable.name, &variable.outcome)?;
        }
    }
    Ok(text)
}
