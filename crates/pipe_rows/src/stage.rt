//! The rows of the input.

use crate::device::{Side, Way};
use crate::program::put_plays;
use crate::table::Plan;
use sp_files::{ClassBytes, Content};
use std::alloc::Global;
use test_rows::{RowFault, Stage, index, one_word, words_of};

/// The class files of the rows.
#[derive(Drop)]
pub struct PipeStage {
    alloc: Global,
    files: Vec<ClassBytes>,
}

impl PipeStage {
    pub fn new(alloc: Global) -> PipeStage {
        PipeStage {
            alloc,
            files: Vec::new(alloc),
        }
    }

    fn add_class(&mut self, words: &[&str]) -> Result<(), RowFault> {
        let bytes = hex::decode(self.alloc, one_word(words)?).map_err(|_| RowFault::Bad)?;
        self.files.push(ClassBytes {
            path: String::new(self.alloc),
            content: Content::Bytes(bytes),
        })?;
        Ok(())
    }

    fn put_plays(&self, said: &mut Vec<u8>, plan: Plan, step: &str) -> Result<(), RowFault> {
        put_plays(self.alloc, &self.files, said, plan, index(step)?)
    }

    fn put_failing(&self, said: &mut Vec<u8>, way: Way, words: &[&str]) -> Result<(), RowFault> {
        match words {
            [side, step] => self.put_plays(said, Plan::Failing(Side::of(side)?, way), step),
            _ => Err(RowFault::Bad),
        }
    }
}

impl Stage for PipeStage {
    fn play(&mut self, said: &mut Vec<u8>, kind: &str, text: &str) -> Result<(), RowFault> {
        let words = words_of(self.alloc, text)?;
        match kind {
            "class" => self.add_class(&words),
            "whole" => self.put_plays(said, Plan::Whole, one_word(&words)?),
            "reads" => self.put_failing(said, Way::Reads, &words),
            "writes" => self.put_failing(said, Way::Writes, &words),
            _ => Err(RowFault::Bad),
        }
    }
}
