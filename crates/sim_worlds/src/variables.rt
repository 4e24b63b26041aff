//! Variables: roots and look-ups by the words that stand for them, and how they ended.

use crate::PlayFault;
use indexmap::IndexMap;
use sp_arguments::argument_of;
use sp_tasks::Outcome;
use sp_world::Output;
use space_ids::Value;
use std::alloc::Global;
use table_copies::{copy_result, copy_value};

/// A task, by the number of its space and its id.
#[derive(Clone, Copy, PartialEq, Eq, Hash)]
pub struct TaskKey {
    pub space: usize,
    pub task: u64,
}

/// A root or look-up: its variable, its task, and how that ended, if it has.
#[derive(Drop)]
pub struct Variable {
    pub name: String,
    pub key: TaskKey,
    pub outcome: Option<Outcome>,
}

impl Variable {
    /// What the task returned.
    pub fn value(&self) -> Option<&Value> {
        match &self.outcome {
            Some(Outcome::Returned(Some(value))) => Some(value),
            _ => None,
        }
    }
}

/// Variables, in the order in which lines name them.
#[derive(Drop)]
pub struct Variables {
    alloc: Global,
    rows: IndexMap<TaskKey, Variable>,
    names: IndexMap<String, TaskKey>,
}

impl Variables {
    /// No variable.
    pub fn new(alloc: Global) -> Variables {
        Variables {
            alloc,
            rows: IndexMap::new(alloc),
            names: IndexMap::new(alloc),
        }
    }

    /// How many there are.
    pub fn len(&self) -> usize {
        self.rows.len()
    }

    /// The variable at an index.
    pub fn at(&self, index: usize) -> Option<&Variable> {
        match self.rows.get_index(index) {
            Some((_, variable)) => Some(variable),
            None => None,
        }
    }

    /// The variable of this name, which a line before has named.
    pub fn find(&self, name: &str) -> Option<&Variable> {
        match self.names.get(name) {
            Some(key) => self.rows.get(key),
            None => None,
        }
    }

    /// The variable of a task, if it has one.
    pub fn of_task(&self, key: &TaskKey) -> Option<&Variable> {
        self.rows.get(key)
    }

    /// The reference that the task of a variable returned. `PlayFault::Bad` if it returned none.
    pub fn reference(&self, name: &str) -> Result<Value, PlayFault> {
        match self.find(name) {
            Some(variable) => match variable.value() {
                Some(Value::Ref(reference)) => Ok(Value::Ref(*reference)),
                _ => Err(PlayFault::Bad),
            },
            None => Err(PlayFault::Bad),
        }
    }

    /// The values of words: each spells one, or is a variable whose task returned one, else it is
    /// `PlayFault::Bad`.
    pub fn values(&self, words: &[&str]) -> Result<Vec<Value>, PlayFault> {
        let mut values = Vec::new(self.alloc);
        for word in words {
            values.push(self.value(word)?)?;
        }
        Ok(values)
    }

    fn value(&self, word: &str) -> Result<Value, PlayFault> {
        if let Some(value) = argument_of(self.alloc, word)? {
            return Ok(value);
        }
        let Some(variable) = self.find(word) else {
            return Err(PlayFault::Bad);
        };
        match variable.value() {
            Some(value) => Ok(copy_value(self.alloc, value)?),
            None => Err(PlayFault::Bad),
        }
    }

    /// A root or look-up of this task has this variable, which no other has.
    pub fn add(&mut self, name: &str, key: TaskKey) -> Result<(), PlayFault> {
        self.names.insert(String::from_str(self.alloc, name)?, key)?;
        self.rows.insert(
            key,
            Variable {
                name: String::from_str(self.alloc, name)?,
                key,
                outcome: None,
            },
        )?;
        Ok(())
    }

    /// Forgets a variable, and how its task ended: its name is free. The last one comes to its place.
    pub fn forget(&mut self, name: &str) {
        if let Some(key) = self.names.swap_remove(name) {
            let _ = self.rows.swap_remove(&key);
        }
    }

    /// Notes how tasks of a space ended.
    pub fn note(&mut self, space: usize, outputs: &[Output]) -> Result<(), PlayFault> {
        for output in outputs {
            if let Output::Ended(task, outcome) = output {
                let key = TaskKey { space, task: *task };
                self.end(&key, outcome)?;
            }
        }
        Ok(())
    }

    fn end(&mut self, key: &TaskKey, outcome: &Outcome) -> Result<(), PlayFault> {
        let copy = copy_outcome(self.alloc, outcome)?;
        if let Some(variable) = self.rows.get_mut(key) {
            variable.outcome = Some(copy);
        }
        Ok(())
    }
}

fn copy_outcome(alloc: Global, outcome: &Outcome) -> Result<Outcome, PlayFault> {
    match outcome {
        Outcome::Returned(value) => Ok(Outcome::Returned(copy_result(alloc, value)?)),
        Outcome::Threw(class) => Ok(Outcome::Threw(*class)),
        Outcome::Spent => Ok(Outcome::Spent),
    }
}

/// The task that started.
pub fn started(outputs: &[Output]) -> Option<u64> {
    for output in outputs {
        if let Output::Started(task) = output {
            return Some(*task);
        }
    }
    None
}
