//! The rows of the input.

use super::making::{Parts, ints};
use super::{devices, making, reading};
use net_frames::Value;
use std::alloc::Global;
use test_rows::{RowFault, Stage, index, number, one_word, words_of};

/// How a device in memory gives or takes bytes: at most `step` a call, and failing at call `fail`, if
/// that is not 0.
#[derive(Clone, Copy)]
pub struct Device {
    pub step: usize,
    pub fail: u64,
}

/// The answers to rows, none of which keeps anything.
#[derive(Drop)]
pub struct Frames {
    pub alloc: Global,
}

impl Stage for Frames {
    fn play(&mut self, said: &mut Vec<u8>, kind: &str, text: &str) -> Result<(), RowFault> {
        let words = words_of(self.alloc, text)?;
        match kind {
            "read" => reading::put_read(self.alloc, said, &bytes_of(self.alloc, &words)?),
            "cut" => devices::put_cut(self.alloc, said, &bytes_of(self.alloc, &words)?),
            "fail" => devices::put_failed(self.alloc, said, &bytes_of(self.alloc, &words)?),
            "receive" => receive(self.alloc, said, &words),
            "send" => send(self.alloc, said, &words),
            "make" => making::put_made(self.alloc, said, parts_of(self.alloc, &words)?),
            _ => Err(RowFault::Bad),
        }
    }
}

fn receive(alloc: Global, said: &mut Vec<u8>, words: &[&str]) -> Result<(), RowFault> {
    let [step, fail, bytes @ ..] = words else {
        return Err(RowFault::Bad);
    };
    let device = device_of(step, fail)?;
    devices::put_received(alloc, said, device, &bytes_of(alloc, bytes)?)
}

fn send(alloc: Global, said: &mut Vec<u8>, words: &[&str]) -> Result<(), RowFault> {
    let [room, step, fail, bytes @ ..] = words else {
        return Err(RowFault::Bad);
    };
    let device = device_of(step, fail)?;
    let bytes = bytes_of(alloc, bytes)?;
    devices::put_sent(alloc, said, index(room)?, device, &bytes)
}

// The parts of a frame.
fn parts_of(alloc: Global, words: &[&str]) -> Result<Parts, RowFault> {
    let [kind, words @ ..] = words else {
        return Err(RowFault::Bad);
    };
    match *kind {
        "hello" => Ok(Parts::Hello(version_of(words)?)),
        "call" => Ok(Parts::Call(arguments_of(alloc, words)?)),
        "returned" => Ok(Parts::Returned(one_index(words)?)),
        "dirty" => Ok(Parts::Dirty(one_index(words)?)),
        "clean" => Ok(Parts::Clean(one_index(words)?)),
        "lookup" => Ok(Parts::Lookup(one_index(words)?)),
        _ => Err(RowFault::Bad),
    }
}

fn version_of(words: &[&str]) -> Result<u8, RowFault> {
    one_word(words)?.parse::<u8>().map_err(|_| RowFault::Bad)
}

fn one_index(words: &[&str]) -> Result<usize, RowFault> {
    index(one_word(words)?)
}

// Arguments of a call: `null`, or the length of an array.
fn arguments_of(alloc: Global, words: &[&str]) -> Result<Vec<Value>, RowFault> {
    let mut values = Vec::new(alloc);
    for word in words {
        let value = match *word {
            "null" => Value::Null,
            length => ints(alloc, index(length)?)?,
        };
        values.push(value)?;
    }
    Ok(values)
}

fn device_of(step: &str, fail: &str) -> Result<Device, RowFault> {
    Ok(Device {
        step: index(step)?,
        fail: number(fail)?,
    })
}

// The bytes of the words, one after another.
fn bytes_of(alloc: Global, words: &[&str]) -> Result<Vec<u8>, RowFault> {
    let mut bytes = Vec::new(alloc);
    for word in words {
        add_word(alloc, &mut bytes, word)?;
    }
    Ok(bytes)
}

// Adds the bytes of a word, as often as it says.
fn add_word(alloc: Global, bytes: &mut Vec<u8>, word: &str) -> Result<(), RowFault> {
    let (times, digits) = word.split_once('*').unwrap_or(("1", word));
    let part = hex::decode(alloc, digits).map_err(|_| RowFault::Bad)?;
    for _ in 0..index(times)? {
        bytes.extend_from_slice(&part)?;
    }
    Ok(())
}
