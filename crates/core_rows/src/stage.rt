//! A core, and the tasks in hand.

use super::calls;
use super::calls::{Answer, HandAnswer};
use super::classes::OneClass;
use super::row::{Hand, Row, row_of};
use sp_core::{CoreFault, Event, LentTask, Op, Output, Root, Shown, SpaceCore, Stand};
use space_ids::Uuid;
use std::alloc::{AllocError, Global};
use std::io::Write;
use test_rows::{RowFault, Stage, replace, words_of};

/// A core, and the tasks that it or cores before it lent.
#[derive(Drop)]
pub struct CoreStage {
    alloc: Global,
    classes: OneClass,
    core: SpaceCore,
    tasks: Vec<LentTask>,
}

impl CoreStage {
    /// Returns a core to which nothing has happened, and no task in hand.
    pub fn new(alloc: Global) -> Result<CoreStage, AllocError> {
        let classes = OneClass::new(alloc)?;
        let core = SpaceCore::new(alloc, Uuid::from_u64_pair(0, 1), [0; 32], 1_000, 1)?;
        Ok(CoreStage {
            alloc,
            classes,
            core,
            tasks: Vec::new(alloc),
        })
    }

    fn begin(&mut self, id: Uuid, fuel: u64, version: u8) -> Result<(), RowFault> {
        replace(
            &mut self.core,
            SpaceCore::new(self.alloc, id, [0; 32], fuel, version)?,
        );
        Ok(())
    }

    fn happen(&mut self, said: &mut Vec<u8>, event: &Event) -> Result<(), RowFault> {
        let answer = calls::event(&mut self.core, &self.classes, event);
        put_answer(said, &answer)
    }

    fn put_object(&self, said: &mut Vec<u8>, index: usize) -> Result<(), RowFault> {
        match calls::object(&self.core, index) {
            Some(shown) => put_shown(said, &shown),
            None => {
                writeln!(said, "None")?;
                Ok(())
            }
        }
    }

    fn put_ready(&self, said: &mut Vec<u8>) -> Result<(), RowFault> {
        writeln!(said, "{:?}", calls::ready(&self.core))?;
        Ok(())
    }

    fn start(&mut self, said: &mut Vec<u8>, root: &Root, times: usize) -> Result<(), RowFault> {
        let mut answer = Ok(Vec::new(self.alloc));
        for _ in 0..times {
            answer = calls::root(&mut self.core, root);
        }
        put_answer(said, &answer)
    }

    fn lend(&mut self, said: &mut Vec<u8>, task: u64) -> Result<(), RowFault> {
        match calls::lend(&mut self.core, task) {
            Some(task) => {
                writeln!(said, "{:?} after {} steps", task.record(), task.steps())?;
                self.tasks.push(task)?;
            }
            None => writeln!(said, "not ready")?,
        }
        Ok(())
    }

    // The last task in hand of this id, out of the others.
    fn taken(&mut self, task: u64) -> Result<LentTask, RowFault> {
        let found = self.tasks.iter().rposition(|lent| lent.id() == task);
        match found {
            Some(index) if index < self.tasks.len() => Ok(self.tasks.remove(index)),
            _ => Err(RowFault::Bad),
        }
    }

    fn ran(&mut self, task: u64, made: u64) -> Result<(), RowFault> {
        let mut lent = self.taken(task)?;
        let fits = calls::ran(&mut lent, made);
        self.tasks.push(lent)?;
        if fits { Ok(()) } else { Err(RowFault::Bad) }
    }

    fn commit(
        &mut self,
        said: &mut Vec<u8>,
        task: u64,
        stand: &Stand,
        op: &Op,
        times: usize,
    ) -> Result<(), RowFault> {
        let mut lent = self.taken(task)?;
        let mut answer = Err(CoreFault::NotLent);
        for _ in 0..times {
            answer = calls::commit(&mut self.core, &self.classes, &mut lent, stand, op);
        }
        self.tasks.push(lent)?;
        match answer {
            Ok(reply) => writeln!(said, "{reply:?}")?,
            Err(fault) => put_fault(said, fault)?,
        }
        Ok(())
    }

    fn hand(&mut self, said: &mut Vec<u8>, task: u64, hand: &Hand) -> Result<(), RowFault> {
        let lent = self.taken(task)?;
        match given(&mut self.core, &self.classes, self.alloc, lent, hand) {
            Ok(outputs) => put_outputs(said, &outputs),
            Err((lent, fault)) => {
                self.tasks.push(lent)?;
                put_fault(said, fault)
            }
        }
    }
}

impl Stage for CoreStage {
    fn play(&mut self, said: &mut Vec<u8>, kind: &str, text: &str) -> Result<(), RowFault> {
        match row_of(self.alloc, kind, &words_of(self.alloc, text)?)? {
            Row::Core(id, fuel, version) => self.begin(id, fuel, version),
            Row::Event(event) => self.happen(said, &event),
            Row::Root(root, times) => self.start(said, &root, times),
            Row::Lend(task) => self.lend(said, task),
            Row::Ran(task, made) => self.ran(task, made),
            Row::Commit(task, stand, op, times) => self.commit(said, task, &stand, &op, times),
            Row::Hand(task, hand) => self.hand(said, task, &hand),
            Row::Object(index) => self.put_object(said, index),
            Row::Ready => self.put_ready(said),
        }
    }
}

fn given(
    core: &mut SpaceCore,
    classes: &OneClass,
    alloc: Global,
    lent: LentTask,
    hand: &Hand,
) -> HandAnswer {
    match hand {
        Hand::Give => calls::give_back(core, alloc, lent),
        Hand::Park(stand) => calls::park(core, classes, lent, stand),
        Hand::Finish(stand) => calls::finish(core, classes, lent, stand),
    }
}

// Prints what a core answered to an event.
fn put_answer(said: &mut Vec<u8>, answer: &Answer) -> Result<(), RowFault> {
    match answer {
        Ok(outputs) => put_outputs(said, outputs),
        Err(fault) => put_fault(said, *fault),
    }
}

// Prints outputs, each on a line, or `done` if there is none.
fn put_outputs(said: &mut Vec<u8>, outputs: &[Output]) -> Result<(), RowFault> {
    if outputs.is_empty() {
        writeln!(said, "done")?;
    }
    for output in outputs {
        put_output(said, output)?;
    }
    Ok(())
}

fn put_output(said: &mut Vec<u8>, output: &Output) -> Result<(), RowFault> {
    match output {
        Output::Started(task) => writeln!(said, "Started({task})")?,
        Output::Ended(task, outcome) => writeln!(said, "Ended({task}, {outcome:?})")?,
        Output::Withdrawn(ids) if ids.as_slice().len() > 8 => {
            writeln!(said, "Withdrawn, {} objects", ids.as_slice().len())?
        }
        Output::Withdrawn(ids) => writeln!(said, "Withdrawn({ids:?})")?,
        Output::Denied(fault) => writeln!(said, "Denied({fault:?})")?,
        Output::Ready(task) => writeln!(said, "Ready({task})")?,
        _ => writeln!(said, "of a connection")?,
    }
    Ok(())
}

fn put_shown(said: &mut Vec<u8>, shown: &Shown) -> Result<(), RowFault> {
    let Shown {
        id,
        class,
        names,
        entries,
    } = shown;
    writeln!(
        said,
        "Some(Shown {{ id: {id:?}, class: {class:?}, names: {names}, entries: {entries} }})"
    )?;
    Ok(())
}

fn put_fault(said: &mut Vec<u8>, fault: CoreFault) -> Result<(), RowFault> {
    writeln!(said, "refused: {fault}")?;
    Ok(())
}
