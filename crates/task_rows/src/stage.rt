//! What rows so far have made.

use super::memory::Memory;
use super::programs::{class_number, one_method, sum};
use super::spelling::{argument, count, short_number};
use super::tasks;
use std::alloc::Global;
use test_rows::{RowFault, Stage, number, one_word, put, replace, words_of};
use vm_step::{Limits, Program};

/// The heap, the references, the program and the limits of the rows so far.
#[derive(Drop)]
pub struct Made {
    alloc: Global,
    memory: Memory,
    program: Option<Program>,
    limits: Limits,
}

impl Made {
    /// Returns a stage without a program, whose limits are those of the command line.
    pub fn new(alloc: Global) -> Made {
        Made {
            alloc,
            memory: Memory::new(alloc),
            program: None,
            limits: Limits::default(),
        }
    }

    fn program(&self) -> Result<&Program, RowFault> {
        self.program.as_ref().ok_or(RowFault::Bad)
    }

    fn begin(&mut self, program: Program) -> Result<(), RowFault> {
        replace(&mut self.program, Some(program));
        Ok(())
    }

    fn limit(&mut self, words: &[&str]) -> Result<(), RowFault> {
        self.limits = limits_of(words)?;
        Ok(())
    }

    fn put_number(&self, said: &mut Vec<u8>, words: &[&str]) -> Result<(), RowFault> {
        put(
            said,
            "number",
            &class_number(self.program()?, one_word(words)?),
        )
    }

    fn call(&mut self, said: &mut Vec<u8>, kind: &str, words: &[&str]) -> Result<(), RowFault> {
        match kind {
            "class" => self.begin(one_method(self.alloc, 0x0009, words)?),
            "instance" => self.begin(one_method(self.alloc, 0x0001, words)?),
            "limits" => self.limit(words),
            "number" => self.put_number(said, words),
            "turns" | "pieces" => {
                tasks::play(self.alloc, said, self.program()?, self.limits, kind, words)
            }
            _ => self.memory.play(said, kind, words),
        }
    }
}

impl Stage for Made {
    fn play(&mut self, said: &mut Vec<u8>, kind: &str, text: &str) -> Result<(), RowFault> {
        match kind {
            "argument" => put(said, "value", &argument(self.alloc, text)?),
            "faults" if text.is_empty() => tasks::put_faults(said),
            "sum" if text.is_empty() => self.begin(sum(self.alloc)?),
            _ => self.call(said, kind, &words_of(self.alloc, text)?),
        }
    }
}

fn limits_of(words: &[&str]) -> Result<Limits, RowFault> {
    let [heap, stack, references, fuel] = words else {
        return Err(RowFault::Bad);
    };
    Ok(Limits {
        heap_words: short_number(heap)?,
        stack_words: short_number(stack)?,
        references: count(references)?,
        fuel: number(fuel)?,
    })
}
