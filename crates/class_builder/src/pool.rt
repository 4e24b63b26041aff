//! The constant pool of a class in the making (JVMS 4.4).

use super::BuildFault;
use std::alloc::Global;

// An entry of the pool.
#[derive(Drop)]
enum Entry {
    Utf8(String),
    Integer(i32),
    Class(u16),
}

/// The entries so far, by index from 1 on.
#[derive(Drop)]
pub struct PoolParts {
    alloc: Global,
    entries: Vec<Entry>,
}

impl PoolParts {
    /// Returns a pool without entries.
    pub fn new(alloc: Global) -> PoolParts {
        PoolParts {
            alloc,
            entries: Vec::new(alloc),
        }
    }

    /// Returns the index of a text. A new text is added.
    pub fn utf8(&mut self, text: &str) -> Result<u16, BuildFault> {
        for (before, entry) in self.entries.iter().enumerate() {
            if let Entry::Utf8(known) = entry
                && known.as_str() == text
            {
                return index_after(before);
            }
        }
        let text = String::from_str(self.alloc, text)?;
        self.add(Entry::Utf8(text))
    }

    /// Returns the index of a class by its name. A new class is added.
    pub fn class(&mut self, name: &str) -> Result<u16, BuildFault> {
        let name = self.utf8(name)?;
        for (before, entry) in self.entries.iter().enumerate() {
            if let Entry::Class(known) = entry
                && *known == name
            {
                return index_after(before);
            }
        }
        self.add(Entry::Class(name))
    }

    /// Returns the index of an int. A new int is added.
    pub fn integer(&mut self, value: i32) -> Result<u16, BuildFault> {
        for (before, entry) in self.entries.iter().enumerate() {
            if let Entry::Integer(known) = entry
                && *known == value
            {
                return index_after(before);
            }
        }
        self.add(Entry::Integer(value))
    }

    fn add(&mut self, entry: Entry) -> Result<u16, BuildFault> {
        let index = index_after(self.entries.len())?;
        self.entries.push(entry)?;
        Ok(index)
    }

    /// Returns the bytes of the pool: its count and its entries.
    pub fn bytes(&self) -> Result<Vec<u8>, BuildFault> {
        let mut out = Vec::new(self.alloc);
        let count = index_after(self.entries.len())?;
        out.extend_from_slice(&count.to_be_bytes())?;
        for entry in &self.entries {
            match entry {
                Entry::Utf8(text) => {
                    let length = u16::try_from(text.len()).map_err(|_| BuildFault::TooLong)?;
                    out.push(1)?;
                    out.extend_from_slice(&length.to_be_bytes())?;
                    out.extend_from_slice(text.as_bytes())?;
                }
                Entry::Integer(value) => {
                    out.push(3)?;
                    out.extend_from_slice(&value.to_be_bytes())?;
                }
                Entry::Class(name) => {
                    out.push(7)?;
                    out.extend_from_slice(&name.to_be_bytes())?;
                }
            }
        }
        Ok(out)
    }
}

// The index of the entry after `entries` others.
fn index_after(entries: usize) -> Result<u16, BuildFault> {
    match u16::try_from(entries) {
        Ok(entries) if entries < u16::MAX => Ok(entries + 1),
        _ => Err(BuildFault::TooLong),
    }
}
