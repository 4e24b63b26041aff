//! The names that are nearest to one that is not there.

use cf_disassembly::Shown;
use std::alloc::{AllocError, Global};
use std::str;
use strsim::levenshtein;

// Longer names are not compared: that would cost their product.
const LONGEST: usize = 80;

// How many names are told.
const MOST: usize = 3;

/// Names that are compared with one that is looked for: the nearest few are kept.
#[derive(Drop)]
pub struct NearestNames<'a> {
    alloc: Global,
    wanted: &'a [u8],
    // By distance, the nearest first.
    found: Vec<(usize, &'a [u8])>,
}

impl<'a> NearestNames<'a> {
    pub fn new(alloc: Global, wanted: &'a [u8]) -> NearestNames<'a> {
        NearestNames {
            alloc,
            wanted,
            found: Vec::new(alloc),
        }
    }

    /// Compares a name: it is kept if it is among the nearest.
    pub fn add(&mut self, name: &'a [u8]) -> Result<(), AllocError> {
        let Some(distance) = distance_of(self.alloc, self.wanted, name)? else {
            return Ok(());
        };
        if self.has(name) {
            return Ok(());
        }
        let index = self.place_of(distance);
        if index < MOST && index <= self.found.len() {
            self.found.insert(index, (distance, name))?;
            self.found.truncate(MOST);
        }
        Ok(())
    }

    fn has(&self, name: &[u8]) -> bool {
        for (_, other) in &self.found {
            if *other == name {
                return true;
            }
        }
        false
    }

    // Where a name at this distance stands among those that are kept.
    fn place_of(&self, distance: usize) -> usize {
        let mut index: usize = 0;
        for (other, _) in self.found.iter() {
            if *other <= distance {
                index = index.saturating_add(1);
            }
        }
        index
    }

    /// Writes the names that are kept, if there are any, as a line.
    pub fn write(&self, page: &mut String) -> Result<(), AllocError> {
        if self.found.is_empty() {
            return Ok(());
        }
        page.push_str("  Nearest to it:")?;
        for (_, name) in &self.found {
            write!(page, " {}", Shown(name))?;
        }
        page.push_str("\n")
    }
}

// How far two names are apart, if they are near.
fn distance_of(alloc: Global, one: &[u8], other: &[u8]) -> Result<Option<usize>, AllocError> {
    if one.len() > LONGEST || other.len() > LONGEST {
        return Ok(None);
    }
    let (Ok(left), Ok(right)) = (str::from_utf8(one), str::from_utf8(other)) else {
        return Ok(None);
    };
    let distance = levenshtein(alloc, left, right)?;
    if distance <= one.len() / 3 + 1 {
        Ok(Some(distance))
    } else {
        Ok(None)
    }
}
