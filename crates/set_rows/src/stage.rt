//! The class files of rows, and the set or the program that was made of them.

use super::files::{file_of, linked_set, program_of};
use super::parts::{bare_class, class_file, example};
use super::{frames, links, questions};
use class_builder::{BuildFault, SUM};
use cls_link::Linked;
use std::alloc::Global;
use test_rows::{RowFault, Stage, one_number, put, replace, words_of};
use vm_step::Program;

/// The class files of the rows so far, the last set that was linked, and the last program that was made.
#[derive(Drop)]
pub struct Files {
    alloc: Global,
    files: Vec<Vec<u8>>,
    linked: Option<Linked>,
    program: Option<Program>,
}

impl Files {
    /// Returns a stage without class files.
    pub fn new(alloc: Global) -> Files {
        Files {
            alloc,
            files: Vec::new(alloc),
            linked: None,
            program: None,
        }
    }

    fn add(&mut self, made: Result<Vec<u8>, BuildFault>) -> Result<(), RowFault> {
        self.files.push(file_of(made)?)?;
        Ok(())
    }

    fn link(&mut self, said: &mut Vec<u8>) -> Result<(), RowFault> {
        replace(&mut self.linked, linked_set(self.alloc, said, &self.files)?);
        Ok(())
    }

    fn begin(&mut self, said: &mut Vec<u8>) -> Result<(), RowFault> {
        let program = program_of(self.alloc, said, &self.files)?;
        replace(&mut self.program, Some(program));
        Ok(())
    }

    fn linked(&self) -> Result<&Linked, RowFault> {
        self.linked.as_ref().ok_or(RowFault::Bad)
    }

    fn program(&self) -> Result<&Program, RowFault> {
        self.program.as_ref().ok_or(RowFault::Bad)
    }

    fn call(&mut self, said: &mut Vec<u8>, kind: &str, words: &[&str]) -> Result<(), RowFault> {
        match kind {
            "file" => self.add(class_file(self.alloc, words)?),
            "long" => put_long(self.alloc, said, one_number(words)?),
            "frames" => frames::play(self.alloc, said, self.linked()?, words),
            "number" | "at" | "below" | "select" | "method" | "slot" => {
                links::play(self.linked()?, said, kind, words)
            }
            _ => questions::play(self.alloc, self.program()?, said, kind, words),
        }
    }

    // Whether the last class file has the bytes of examples/sum.
    fn is_example(&self) -> bool {
        match self.files.last() {
            Some(bytes) => bytes.as_slice() == SUM.as_slice(),
            None => false,
        }
    }
}

impl Stage for Files {
    fn play(&mut self, said: &mut Vec<u8>, kind: &str, text: &str) -> Result<(), RowFault> {
        match kind {
            "new" if text.is_empty() => {
                replace(self, Files::new(self.alloc));
                Ok(())
            }
            "example" if text.is_empty() => self.add(example(self.alloc)),
            "link" if text.is_empty() => self.link(said),
            "program" if text.is_empty() => self.begin(said),
            "same" if text.is_empty() => put(said, "same", &self.is_example()),
            _ => self.call(said, kind, &words_of(self.alloc, text)?),
        }
    }
}

// Prints how many bytes a class file has whose class has a name of this length, or why there is none.
fn put_long(alloc: Global, said: &mut Vec<u8>, count: u64) -> Result<(), RowFault> {
    let name = String::from_utf8(vec![in alloc; b'a'; count as usize]?).map_err(|_| RowFault::Bad)?;
    match bare_class(alloc, &name) {
        Ok(bytes) => put(said, "bytes", &bytes.len()),
        Err(BuildFault::Memory) => Err(RowFault::Memory),
        Err(fault) => put(said, "refused", &fault),
    }
}
