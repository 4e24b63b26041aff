//! The names of the spaces of a script.

use crate::PlayFault;
use indexmap::IndexMap;
use sim_happenings::ScriptRecord;
use space_ids::Uuid;
use std::alloc::{AllocError, Global};

// The id of a space that a line names, and the version that it speaks at most.
#[derive(Clone, Copy, PartialEq, Eq)]
struct NamedSpace {
    id: Uuid,
    version: u8,
}

// The names, in the order of the lines that say them: the number of a space is the index of its name.
#[derive(Drop)]
pub(crate) struct Names {
    alloc: Global,
    rows: IndexMap<String, NamedSpace>,
}

impl Names {
    pub fn new(alloc: Global) -> Names {
        Names {
            alloc,
            rows: IndexMap::new(alloc),
        }
    }

    // Adds a space, which speaks this version at most, and returns its id. `PlayFault::Bad` if there is a space of that
    // name.
    pub fn add(&mut self, name: &str, version: u8) -> Result<Uuid, PlayFault> {
        if self.rows.get(name).is_some() {
            return Err(PlayFault::Bad);
        }
        let id = Uuid::from_u64_pair(0, self.rows.len() as u64 + 1);
        let space = NamedSpace { id, version };
        self.rows
            .insert(String::from_str(self.alloc, name)?, space)?;
        Ok(id)
    }

    // The number of the space of this name. `PlayFault::Bad` if no line before says it.
    pub fn number(&self, name: &str) -> Result<usize, PlayFault> {
        match self.rows.get_index_of(name) {
            Some(number) => Ok(number),
            None => Err(PlayFault::Bad),
        }
    }

    // The id of a space.
    pub fn id(&self, number: usize) -> Result<Uuid, PlayFault> {
        match self.rows.get_index(number) {
            Some((_, space)) => Ok(space.id),
            None => Err(PlayFault::Bad),
        }
    }

    // The version that a space speaks at most.
    pub fn version(&self, number: usize) -> Result<u8, PlayFault> {
        match self.rows.get_index(number) {
            Some((_, space)) => Ok(space.version),
            None => Err(PlayFault::Bad),
        }
    }

    // The name of the space of an id: empty if it is none of the script's.
    pub fn of(&self, id: &Uuid) -> &str {
        let (_, number) = id.as_u64_pair();
        match self.rows.get_index((number as usize).saturating_sub(1)) {
            Some((name, own)) if own.id == *id => name.as_str(),
            _ => "",
        }
    }

    // The name of a space.
    pub fn name(&self, number: usize) -> &str {
        match self.rows.get_index(number) {
            Some((name, _)) => name.as_str(),
            None => "",
        }
    }

    // Enters all into a record.
    pub fn enter_all(&self, record: &mut ScriptRecord) -> Result<(), AllocError> {
        for number in 0..self.len() {
            record.enter(self.name(number))?;
        }
        Ok(())
    }

    // How many spaces there are.
    pub fn len(&self) -> usize {
        self.rows.len()
    }
}
