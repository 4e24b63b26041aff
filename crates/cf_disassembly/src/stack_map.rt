//! The frames that a StackMapTable declares (JVMS 4.7.4), one after the other.

use crate::{CodeFrame, HeldType};
use cf_pool::{Pool, read_u8, read_u16};
use std::alloc::{AllocError, Global};

// A frame whose tag and offset are read.
#[derive(Clone, Copy)]
struct Pending {
    offset: u32,
    tag: u8,
    // Where the rest of it begins.
    body: usize,
}

/// The frames of a table, of which the last that was read is at hand. What cannot be read ends them.
#[derive(Drop)]
pub(crate) struct StackMapCursor<'a> {
    alloc: Global,
    pool: &'a Pool,
    bytes: &'a [u8],
    at: usize,
    left: u16,
    pending: Option<Pending>,
    last: Option<u32>,
    frame: CodeFrame,
}

impl<'a> StackMapCursor<'a> {
    // Before the first frame: the one with which the method begins is at hand.
    pub(crate) fn new(
        alloc: Global,
        pool: &'a Pool,
        bytes: &'a [u8],
        opening: CodeFrame,
    ) -> StackMapCursor<'a> {
        let (left, at) = match read_u16(bytes, 0) {
            Ok((count, at)) => (count, at),
            Err(_) => (0, 0),
        };
        let mut cursor = StackMapCursor {
            alloc,
            pool,
            bytes,
            at,
            left,
            pending: None,
            last: None,
            frame: opening,
        };
        cursor.look();
        cursor
    }

    // The offset of the frame that comes next.
    pub(crate) fn next_offset(&self) -> Option<u32> {
        match self.pending {
            Some(pending) => Some(pending.offset),
            None => None,
        }
    }

    // The frame that was read last, or the first of the method.
    pub(crate) fn frame(&self) -> Result<CodeFrame, AllocError> {
        self.frame.copy(self.alloc)
    }

    // Reads the tag and the offset of the next frame.
    fn look(&mut self) {
        self.pending = None;
        if self.left == 0 {
            return;
        }
        self.left -= 1;
        let Ok((tag, after)) = read_u8(self.bytes, self.at) else {
            return;
        };
        let Some((delta, body)) = delta_of(self.bytes, tag, after) else {
            return;
        };
        let offset = match self.last {
            Some(last) => last.saturating_add(delta as u32).saturating_add(1),
            None => delta as u32,
        };
        self.pending = Some(Pending { offset, tag, body });
    }

    // Reads the next frame, so that it is at hand.
    pub(crate) fn advance(&mut self) -> Result<(), AllocError> {
        let Some(pending) = self.pending else {
            return Ok(());
        };
        self.last = Some(pending.offset);
        match read_frame(self.pool, self.bytes, pending, &mut self.frame)? {
            Some(after) => {
                self.at = after;
                self.look();
            }
            None => self.pending = None,
        }
        Ok(())
    }
}

// How far a frame is from the one before it, and where the rest of it begins.
fn delta_of(bytes: &[u8], tag: u8, after: usize) -> Option<(u16, usize)> {
    if tag <= 63 {
        return Some((tag as u16, after));
    }
    if tag <= 127 {
        return Some(((tag - 64) as u16, after));
    }
    match read_u16(bytes, after) {
        Ok(read) => Some(read),
        Err(_) => None,
    }
}

// Changes a frame into the one that follows it. Returns the position after it, and nothing where it cannot be read.
fn read_frame(
    pool: &Pool,
    bytes: &[u8],
    pending: Pending,
    frame: &mut CodeFrame,
) -> Result<Option<usize>, AllocError> {
    frame.stack.clear();
    let body = pending.body;
    match pending.tag {
        0..=63 | 251 => Ok(Some(body)),
        64..=127 | 247 => read_items(pool, bytes, 1, body, &mut frame.stack),
        128..=246 => Ok(None),
        248..=250 => {
            let cut = (251 - pending.tag) as usize;
            frame
                .locals
                .truncate(frame.locals.len().saturating_sub(cut));
            Ok(Some(body))
        }
        252..=254 => {
            let count = (pending.tag - 251) as u16;
            read_items(pool, bytes, count, body, &mut frame.locals)
        }
        255 => {
            frame.locals.clear();
            match read_list(pool, bytes, body, &mut frame.locals)? {
                Some(after) => read_list(pool, bytes, after, &mut frame.stack),
                None => Ok(None),
            }
        }
    }
}

// Reads items, with their number before them.
fn read_list(
    pool: &Pool,
    bytes: &[u8],
    at: usize,
    kinds: &mut Vec<HeldType>,
) -> Result<Option<usize>, AllocError> {
    match read_u16(bytes, at) {
        Ok((count, after)) => read_items(pool, bytes, count, after, kinds),
        Err(_) => Ok(None),
    }
}

fn read_items(
    pool: &Pool,
    bytes: &[u8],
    count: u16,
    at: usize,
    kinds: &mut Vec<HeldType>,
) -> Result<Option<usize>, AllocError> {
    let mut position = at;
    for _ in 0..count {
        match read_item(pool, bytes, position)? {
            Some((kind, after)) => {
                kinds.push(kind)?;
                position = after;
            }
            None => return Ok(None),
        }
    }
    Ok(Some(position))
}

fn read_item(
    pool: &Pool,
    bytes: &[u8],
    at: usize,
) -> Result<Option<(HeldType, usize)>, AllocError> {
    let Ok((tag, after)) = read_u8(bytes, at) else {
        return Ok(None);
    };
    match tag {
        0 => Ok(Some((HeldType::Top, after))),
        1 => Ok(Some((HeldType::Int, after))),
        2..=4 => Ok(Some((HeldType::LeftOut, after))),
        5 => Ok(Some((HeldType::Null, after))),
        6 => Ok(Some((HeldType::UninitializedThis, after))),
        7 => read_object(pool, bytes, after),
        8 => match read_u16(bytes, after) {
            Ok((offset, end)) => Ok(Some((HeldType::Uninitialized(offset), end))),
            Err(_) => Ok(None),
        },
        _ => Ok(None),
    }
}

fn read_object(
    pool: &Pool,
    bytes: &[u8],
    at: usize,
) -> Result<Option<(HeldType, usize)>, AllocError> {
    let Ok((index, after)) = read_u16(bytes, at) else {
        return Ok(None);
    };
    match pool.class(index) {
        Some(name) => Ok(Some((HeldType::Object(name.copy()?), after))),
        None => Ok(None),
    }
}
