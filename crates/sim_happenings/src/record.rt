//! A record of a script as it is played.

use crate::{Happening, SpaceCounts};
use std::alloc::{AllocError, Global};

/// A record of a script as it is played: the names of its spaces, what was counted in each, and, if it is wanted, what happened.
#[derive(Drop)]
pub struct ScriptRecord {
    alloc: Global,
    is_traced: bool,
    names: Vec<String>,
    counts: Vec<SpaceCounts>,
    happenings: Vec<Happening>,
}

impl ScriptRecord {
    /// A record of nothing, which keeps what happens only if it is traced.
    pub fn new(alloc: Global, is_traced: bool) -> ScriptRecord {
        ScriptRecord {
            alloc,
            is_traced,
            names: Vec::new(alloc),
            counts: Vec::new(alloc),
            happenings: Vec::new(alloc),
        }
    }

    /// There is a further space, of this name.
    pub fn enter(&mut self, name: &str) -> Result<(), AllocError> {
        self.names.push(String::from_str(self.alloc, name)?)?;
        self.counts.push(SpaceCounts::new())?;
        Ok(())
    }

    /// Whether it keeps what happens.
    pub fn is_traced(&self) -> bool {
        self.is_traced
    }

    /// This happened next.
    pub fn add(&mut self, happening: Happening) -> Result<(), AllocError> {
        if self.is_traced {
            self.happenings.push(happening)?;
        }
        Ok(())
    }

    /// The counts of a space.
    pub fn counts_mut(&mut self, space: usize) -> Option<&mut SpaceCounts> {
        self.counts.get_mut(space)
    }

    /// The names of the spaces, by their numbers.
    pub fn names(&self) -> &[String] {
        &self.names
    }

    /// What was counted in each space, by their numbers.
    pub fn counts(&self) -> &[SpaceCounts] {
        &self.counts
    }

    /// What happened, in its order.
    pub fn happenings(&self) -> &[Happening] {
        &self.happenings
    }
}
