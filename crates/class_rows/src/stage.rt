//! The rows, and the bytes that they keep.

use super::layouts::{bytes_between, put_text, row_at};
use super::spelling::bytes_of;
use super::{classes, devices, digests, layouts, pools, texts};
use cf_text::FileBytes;
use std::alloc::Global;
use test_rows::{RowFault, Stage, index, number, one_word, put, words_of};

/// The bytes that the rows so far keep.
#[derive(Drop)]
pub struct KeptBytes {
    alloc: Global,
    kept: Vec<u8>,
}

impl KeptBytes {
    /// Returns a stage that keeps no bytes.
    pub fn new(alloc: Global) -> KeptBytes {
        KeptBytes {
            alloc,
            kept: Vec::new(alloc),
        }
    }

    fn keep(&mut self, words: &[&str]) -> Result<(), RowFault> {
        self.kept = self.bytes(words)?;
        Ok(())
    }

    fn bytes(&self, words: &[&str]) -> Result<Vec<u8>, RowFault> {
        bytes_of(self.alloc, &self.kept, words)
    }

    fn call(&self, said: &mut Vec<u8>, kind: &str, words: &[&str]) -> Result<(), RowFault> {
        match kind {
            "pool" => pools::play(self.alloc, said, &self.bytes(words)?),
            "layout" => layouts::play(self.alloc, said, &self.bytes(words)?),
            "class" => classes::play(self.alloc, said, &self.bytes(words)?),
            "code" => texts::put_code(self.alloc, said, &self.bytes(words)?),
            "text" => texts::put_utf8(said, &self.bytes(words)?),
            "fail" => classes::put_lost(self.alloc, said, &self.bytes(words)?),
            "load" => self.load(said, words),
            "part" => self.part(said, words),
            "between" => self.between(said, words),
            "types" => put_types(self.alloc, said, words),
            "digest" => digests::put_digest(self.alloc, said, words),
            _ => devices::play(self.alloc, said, kind, words),
        }
    }

    fn load(&self, said: &mut Vec<u8>, words: &[&str]) -> Result<(), RowFault> {
        let [step, fail, words @ ..] = words else {
            return Err(RowFault::Bad);
        };
        let mut source = devices::source_of(self.bytes(words)?, index(step)?, number(fail)?)?;
        classes::put_loaded(self.alloc, said, &mut source)
    }

    fn part(&self, said: &mut Vec<u8>, words: &[&str]) -> Result<(), RowFault> {
        let [from, length, words @ ..] = words else {
            return Err(RowFault::Bad);
        };
        self.put_part(said, index(from)?, index(length)?, words)
    }

    fn put_part(
        &self,
        said: &mut Vec<u8>,
        from: usize,
        length: usize,
        words: &[&str],
    ) -> Result<(), RowFault> {
        let bytes = self.bytes(words)?;
        put(said, "row", &row_at(self.alloc, &bytes, from, length))?;
        put_text(said, &FileBytes::new(self.alloc, bytes)?, from, length)
    }

    fn between(&self, said: &mut Vec<u8>, words: &[&str]) -> Result<(), RowFault> {
        let [from, to, words @ ..] = words else {
            return Err(RowFault::Bad);
        };
        let (from, to) = (index(from)?, index(to)?);
        let answer = bytes_between(self.alloc, &self.bytes(words)?, from, to);
        put(said, "between", &answer)
    }
}

impl Stage for KeptBytes {
    fn play(&mut self, said: &mut Vec<u8>, kind: &str, text: &str) -> Result<(), RowFault> {
        match kind {
            "keep" => self.keep(&words_of(self.alloc, text)?),
            "name" | "descriptor" | "dimensions" => texts::play(self.alloc, said, kind, text),
            _ => self.call(said, kind, &words_of(self.alloc, text)?),
        }
    }
}

fn put_types(alloc: Global, said: &mut Vec<u8>, words: &[&str]) -> Result<(), RowFault> {
    let text = one_word(words)?;
    classes::put_descriptor(alloc, said, text)
}
