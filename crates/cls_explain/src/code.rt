//! The instruction at an offset of a method, and where it stands in the source.

use crate::known::{KnownClass, declared_method};
use cf_disassembly::{Shown, mnemonic, write_instruction};
use cf_explain::{SourceLines, source_lines};
use cf_insns::{CodeFault, Insn, decode};
use cf_reader::{ClassFile, Code, Method};
use std::alloc::{AllocError, Global};

/// A method of a class that was read, with its code, and its instructions if they can be decoded.
#[derive(Drop)]
pub struct KnownCode<'a> {
    pub class: &'a ClassFile,
    pub method: &'a Method,
    pub code: &'a Code,
    pub listing: Vec<(u16, Insn)>,
    lines: SourceLines,
}

/// Returns the code of the method of this name and descriptor that a class declares.
pub fn known_code<'a>(
    alloc: Global,
    known: &'a KnownClass<'_>,
    name: &[u8],
    descriptor: &[u8],
) -> Result<Option<KnownCode<'a>>, AllocError> {
    let class = known.class.file();
    let Some((index, method)) = declared_method(class, name, descriptor) else {
        return Ok(None);
    };
    let Some(code) = &*method.code else {
        return Ok(None);
    };
    Ok(Some(KnownCode {
        class,
        method,
        code,
        listing: listing_of(alloc, code.bytes.as_slice())?,
        lines: source_lines(alloc, known.source.bytes, index)?,
    }))
}

// The instructions of code, or none if they cannot be decoded.
fn listing_of(alloc: Global, bytes: &[u8]) -> Result<Vec<(u16, Insn)>, AllocError> {
    if bytes.len() > 65_535 {
        return Ok(Vec::new(alloc));
    }
    match decode(alloc, bytes) {
        Ok(listing) => Ok(listing),
        Err(CodeFault::Broken { .. }) => Ok(Vec::new(alloc)),
        Err(CodeFault::Memory) => Err(AllocError),
    }
}

impl KnownCode<'_> {
    /// Returns the instruction at an offset.
    pub fn insn(&self, at: u16) -> Option<&Insn> {
        for (offset, insn) in &self.listing {
            if *offset == at {
                return Some(insn);
            }
        }
        None
    }

    /// Returns the opcode at an offset.
    pub fn opcode(&self, at: u16) -> Option<u8> {
        self.code.bytes.as_slice().get(at as usize).copied()
    }

    /// Writes a line with the instruction at an offset, and one with its place in the source.
    pub fn write_place(&self, page: &mut String, at: u16) -> Result<(), AllocError> {
        self.write_line(page, at)?;
        page.push_str("  ")?;
        match (self.insn(at), self.opcode(at)) {
            (Some(insn), _) => {
                write_instruction(page, self.class, self.code.bytes.as_slice(), at, insn)?
            }
            (None, Some(opcode)) => write!(page, "{at}: {}", mnemonic(opcode).unwrap_or("?"))?,
            (None, None) => write!(page, "{at}: the end of the code")?,
        }
        page.push_str("\n")
    }

    // `Main.java, line 3:`, as far as the class tells it.
    fn write_line(&self, page: &mut String, at: u16) -> Result<(), AllocError> {
        let Some(line) = self.lines.line(at) else {
            return Ok(());
        };
        match &self.lines.file {
            Some(file) => writeln!(page, "  In {}, line {line}:", Shown(file.as_bytes())),
            None => writeln!(page, "  In line {line} of the source:"),
        }
    }
}
