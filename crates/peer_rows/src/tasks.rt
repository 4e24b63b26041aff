//! The tasks in hand.

use crate::calls;
use crate::calls::HandAnswer;
use crate::classes::RowClasses;
use crate::row::Hand;
use crate::showing::{put_fault, put_outputs, put_word};
use sp_core::{LentTask, Op, SpaceCore, Stand};
use std::alloc::Global;
use std::io::Write;
use test_rows::RowFault;

/// The tasks that a core lent.
#[derive(Drop)]
pub struct Tasks {
    rows: Vec<LentTask>,
}

impl Tasks {
    pub fn new(alloc: Global) -> Tasks {
        Tasks {
            rows: Vec::new(alloc),
        }
    }

    /// Takes a task in hand, and prints how it began.
    pub fn lend(
        &mut self,
        core: &mut SpaceCore,
        said: &mut Vec<u8>,
        task: u64,
    ) -> Result<(), RowFault> {
        match calls::lend(core, task) {
            Some(task) => {
                writeln!(said, "{:?}", task.record())?;
                self.rows.push(task)?;
                Ok(())
            }
            None => put_word(said, "not ready"),
        }
    }

    // The task in hand of this id, out of the others.
    fn taken(&mut self, task: u64) -> Result<LentTask, RowFault> {
        let found = self.rows.iter().rposition(|lent| lent.id() == task);
        match found {
            Some(index) if index < self.rows.len() => Ok(self.rows.remove(index)),
            _ => Err(RowFault::Bad),
        }
    }

    /// Does the operation at which a task in hand stands.
    pub fn commit(
        &mut self,
        core: &mut SpaceCore,
        classes: &RowClasses,
        said: &mut Vec<u8>,
        task: u64,
        stand: &Stand,
        op: &Op,
    ) -> Result<(), RowFault> {
        let mut lent = self.taken(task)?;
        let answer = calls::commit(core, classes, &mut lent, stand, op);
        self.rows.push(lent)?;
        match answer {
            Ok(()) => put_word(said, "done"),
            Err(fault) => put_fault(said, fault),
        }
    }

    /// Gives a task in hand, which stands there with this fuel, to its core.
    pub fn hand(
        &mut self,
        core: &mut SpaceCore,
        classes: &RowClasses,
        said: &mut Vec<u8>,
        task: u64,
        hand: Hand,
        stand: &Stand,
        fuel: u64,
    ) -> Result<(), RowFault> {
        let lent = self.taken(task)?;
        match given(core, classes, lent, hand, stand, fuel) {
            Ok(outputs) => put_outputs(said, &outputs),
            Err((lent, fault)) => {
                self.rows.push(lent)?;
                put_fault(said, fault)
            }
        }
    }
}

fn given(
    core: &mut SpaceCore,
    classes: &RowClasses,
    lent: LentTask,
    hand: Hand,
    stand: &Stand,
    fuel: u64,
) -> HandAnswer {
    match hand {
        Hand::Park => calls::park(core, classes, lent, stand, fuel),
        Hand::Finish => calls::finish(core, classes, lent, stand, fuel),
    }
}
