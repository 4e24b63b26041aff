//! Bytes of a constant pool's text (JVMS 4.4.7), as a value of its own; and the bytes of the file in
//! which it stands.

ghost use Rattle.std.specs.Prelude.{◌≡◌, ◌↔◌, ◌≤◌, ◌-◌, IsTrue, IfOk, length, take, drop};

use super::Shared;
use std::alloc::{AllocError, Global};
use std::marker::Model;

/// The bytes of a file, which stand once in memory for all texts of the file. A contract sees them as
/// the list of them.
#[derive(Drop)]
pub struct FileBytes {
    bytes: Shared<Vec<u8>>,
}

impl Model for FileBytes {
    ghost use Rattle.std.specs.Prelude.{List, ℕ};

    ghost Value = { List ℕ };

    ghost view = { λ file. file.bytes.items };
}

impl FileBytes {
    /// Returns the file of these bytes.
    pub fn new(alloc: Global, bytes: Vec<u8>) -> Result<FileBytes, AllocError>
        ensures { IfOk result (λ file. file ≡ bytes.items) }
    {
        let bytes = Shared::new(alloc, bytes)?;
        Ok(FileBytes { bytes })
    }

    /// Returns the bytes of the file.
    pub fn as_slice(&self) -> &[u8]
        ensures { result.now ≡ self.now }
    {
        self.bytes.as_slice()
    }

    /// Returns the bytes from `from` on up to `to`, as a text that shares them. It takes no memory.
    /// `Err`, as if out of memory: `to` has more than four bytes, as no index into a class file has.
    pub fn text(&self, from: usize, to: usize) -> Result<Text, AllocError>
        requires ordered { from ≤ to }
        requires within { to ≤ length self.now }
        ensures { IfOk result (λ text. text ≡ take (to - from) (drop from self.now)) }
    {
        let (Ok(start), Ok(end)) = (u32::try_from(from), u32::try_from(to)) else {
            return Err(AllocError);
        };
        let bytes = self.bytes.share()?;
        Ok(Text { bytes, start, end })
    }
}

/// A text in modified UTF-8, as a class file has it: a name, a descriptor. A contract sees it as the
/// list of its bytes. The bytes stand once in memory, among those of their file, however many texts
/// and copies of texts there are.
#[derive(Debug, Drop)]
pub struct Text {
    bytes: Shared<Vec<u8>>,
    start: u32,
    end: u32,
}

impl Model for Text {
    ghost use Rattle.std.specs.Prelude.{List, ℕ, ◌≤◌, ◌-◌, length, take, drop};

    ghost Value = { List ℕ };

    ghost view = { λ text. take (text.end - text.start) (drop text.start text.bytes.items) };

    ghost invariant = { λ text. (text.start ≤ text.end) × (text.end ≤ length text.bytes.items) };
}

impl Text {
    /// Returns the text of these bytes.
    pub fn new(alloc: Global, bytes: Vec<u8>) -> Result<Text, AllocError>
        ensures { IfOk result (λ text. text ≡ bytes.items) }
    {
        let end = bytes.len();
        FileBytes::new(alloc, bytes)?.text(0, end)
    }

    /// Returns the bytes of the text.
    pub fn as_bytes(&self) -> &[u8]
        ensures { result.now ≡ self.now }
    {
        &self.bytes[self.start as usize..self.end as usize]
    }

    /// Returns whether the text is these bytes.
    pub fn is(&self, bytes: &[u8]) -> bool
        ensures { IsTrue result ↔ (self.now ≡ bytes.now) }
    {
        self.as_bytes() == bytes
    }

    /// Returns the first bytes, this many, as a text that shares them. It takes no memory.
    pub fn front(&self, count: usize) -> Result<Text, AllocError>
        requires within { count ≤ length self.now }
        ensures { IfOk result (λ front. front ≡ take count self.now) }
    {
        let Ok(end) = u32::try_from(self.start as usize + count) else {
            return Err(AllocError);
        };
        let bytes = self.bytes.share()?;
        Ok(Text {
            bytes,
            start: self.start,
            end,
        })
    }

    /// Takes the first bytes, this many, off the text.
    pub fn advance(&mut self, count: usize)
        requires within { count ≤ length self.old }
        ensures { self.new ≡ drop count self.old }
    {
        self.start = (self.start as usize + count) as u32;
    }

    /// Returns a copy that shares the bytes. It takes no memory.
    pub fn copy(&self) -> Result<Text, AllocError>
        ensures { IfOk result (λ copy. copy ≡ self.now) }
    {
        let bytes = self.bytes.share()?;
        Ok(Text {
            bytes,
            start: self.start,
            end: self.end,
        })
    }
}
