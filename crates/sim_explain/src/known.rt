//! What the lines before one have named.

use std::alloc::{AllocError, Global};
use std::str;

/// The spaces and the variables that lines have named, in their order, and whether another line than of a space came.
#[derive(Drop)]
pub(crate) struct KnownNames<'a> {
    pub spaces: Vec<&'a str>,
    pub variables: Vec<&'a str>,
    pub has_begun: bool,
}

impl<'a> KnownNames<'a> {
    /// Returns what these lines name.
    pub fn of(alloc: Global, lines: &[&'a [u8]]) -> Result<KnownNames<'a>, AllocError> {
        let mut known = KnownNames {
            spaces: Vec::new(alloc),
            variables: Vec::new(alloc),
            has_begun: false,
        };
        for line in lines {
            if let Ok(text) = str::from_utf8(line) {
                known.add(alloc, text)?;
            }
        }
        Ok(known)
    }

    // Adds what a line names.
    fn add(&mut self, alloc: Global, line: &'a str) -> Result<(), AllocError> {
        let words: Vec<&'a str> = line.split(' ').collect(alloc)?;
        match words.as_slice() {
            ["space", name] => self.spaces.push(*name)?,
            ["root", _, variable, ..] | ["lookup", _, _, _, variable] => {
                self.variables.push(*variable)?;
            }
            _ => {}
        }
        self.has_begun = self.has_begun || !(line.is_empty() || line.starts_with("space "));
        Ok(())
    }

    pub fn has_space(&self, name: &str) -> bool {
        is_among(&self.spaces, name)
    }

    pub fn has_variable(&self, name: &str) -> bool {
        is_among(&self.variables, name)
    }
}

fn is_among(names: &[&str], name: &str) -> bool {
    names.iter().any(|other| *other == name)
}
